// The platform that a compiler's lines say, as `rustc --print cfg` writes them.
ghost use Rattle.std.specs.Prelude.{◌≡◌, ◌++◌, IfOk, codes, map, option_map};
ghost use Rattle.std.specs.Option.{option_copied};
ghost use Rattle.std.specs.Str.Lines.{lines};
ghost use Rattle.run_plan.specs.Platform.{between_quotes, first_value, platform_given, platform_with, triple_of};
ghost use Rattle.run_plan.specs.Platform.{value_after, line_value, triple_with};
ghost use Rattle.run_plan.specs.Values.{parts_at};

use crate::texts::with_text;
use crate::values::parts_at_equals;
use run_capture::{List, Mem, Text};
use run_profile::Cfg;
use std::alloc::{AllocError, Global};

fn lines_in(alloc: Global, text: &str) -> Result<Vec<&str>, AllocError>
    ensures { IfOk result (λ v. map (λ line. line.now) v.items ≡ lines text.now) }
{
    text.lines().collect(alloc)
}

fn copied(alloc: Global, lines: &[&str]) -> Mem<List<Text>>
    ensures { IfOk result (λ texts. texts ≡ map (λ line. line.now) lines.now) }
{
    let mut texts = List::new();
    for line in lines {
        let text = Text::from_str(alloc, *line)?;
        texts.push(alloc, text)?;
    }
    Ok(texts)
}

fn facts_in(alloc: Global, text: &str) -> Mem<List<Text>>
    ensures { IfOk result (λ facts. facts ≡ lines text.now) }
{
    let lines = lines_in(alloc, text)?;
    copied(alloc, &lines)
}

fn parts_at_quote(text: &str) -> Option<(&str, &str)>
    ensures { option_map (λ p. (p.0.now, p.1.now)) result ≡ parts_at 34 text.now }
{
    text.split_once('"')
}

fn between_quotes(text: &str) -> Option<&str>
    ensures { option_map (λ v. v.now) result ≡ between_quotes text.now }
{
    match parts_at_quote(text) {
        Some((_, opened)) => match parts_at_quote(opened) {
            Some((closed, _)) => Some(closed),
            None => None,
        },
        None => None,
    }
}

fn value_after<'a>(key: &str, name: &str, value: &'a str) -> Option<&'a str>
    ensures { option_map (λ v. v.now) result ≡ value_after key.now (name.now, value.entry.now) }
{
    if name == key {
        between_quotes(value)
    } else {
        None
    }
}

// The value of a line of this key.
fn line_value<'a>(key: &str, line: &'a str) -> Option<&'a str>
    ensures { option_map (λ v. v.now) result ≡ line_value key.now line.entry.now }
{
    match parts_at_equals(line) {
        Some((name, value)) => value_after(key, name, value),
        None => None,
    }
}

// The value of the first such line.
fn first_value<'a>(key: &str, lines: &'a [Text]) -> &'a str
    ensures { result.now ≡ first_value key.now lines.entry.now }
{
    match lines {
        [] => "",
        [line, others @ ..] => match line_value(key, line.as_str()) {
            Some(value) => value,
            None => first_value(key, others),
        },
    }
}

fn joined(alloc: Global, first: &str, second: &str) -> Mem<Text>
    ensures { IfOk result (λ t. t ≡ first.now ++ second.now) }
{
    let mut text = Text::from_str(alloc, first)?;
    text.push_str(alloc, second)?;
    Ok(text)
}

// A text, a hyphen and another text.
fn with_hyphen(alloc: Global, first: Text, second: &str) -> Mem<Text>
    ensures { IfOk result (λ t. t ≡ first ++ codes "-" ++ second.now) }
{
    let text = with_text(alloc, first, "-")?;
    with_text(alloc, text, second)
}

fn triple_with(alloc: Global, triple: Text, end: &str) -> Mem<Text>
    ensures { IfOk result (λ t. t ≡ triple_with triple end.now) }
{
    if end.is_empty() {
        return Ok(triple);
    }
    with_hyphen(alloc, triple, end)
}

// The triple that facts of a platform make.
fn triple_of(alloc: Global, facts: &[Text]) -> Mem<Text>
    ensures { IfOk result (λ t. t ≡ triple_of facts.now) }
{
    let arch = Text::from_str(alloc, first_value("target_arch", facts))?;
    let maker = with_hyphen(alloc, arch, first_value("target_vendor", facts))?;
    let triple = with_hyphen(alloc, maker, first_value("target_os", facts))?;
    let env = first_value("target_env", facts);
    let end = joined(alloc, env, first_value("target_abi", facts))?;
    triple_with(alloc, triple, end.as_str())
}

fn platform_with(alloc: Global, facts: List<Text>) -> Mem<Cfg>
    ensures { IfOk result (λ platform. platform ≡ platform_with facts) }
{
    let triple = triple_of(alloc, facts.as_slice())?;
    Ok(Cfg { triple, facts })
}

/// The platform that these lines say: its facts, and the triple that they make. Without lines nothing is known of it.
pub(crate) fn platform_given(alloc: Global, cfg: Option<&str>) -> Mem<Cfg>
    ensures { IfOk result (λ platform. platform ≡ platform_given (option_copied cfg.entry)) }
{
    match cfg {
        Some(text) => {
            let facts = facts_in(alloc, text)?;
            platform_with(alloc, facts)
        }
        None => {
            let triple = Text::from_str(alloc, "")?;
            let facts = List::new();
            Ok(Cfg { triple, facts })
        }
    }
}
