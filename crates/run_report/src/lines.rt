// Lines of a report.
ghost use Rattle.std.specs.Prelude.{◌≡◌, ◌++◌, ◌∷◌, [], string_bytes, IfOk, OnOk};
ghost use Rattle.run_report.specs.Lines.{
  head,
  lead_text,
  repeats_text,
  script_id_spans,
  script_spans,
  test_id_spans,
  test_spans,
  unit_spans,
  word_spans,
};
ghost use Rattle.run_report.specs.declared.style.Style.TheVariants.{Plain};
ghost use Rattle.run_report.specs.Style.{line_shown, spans_bytes};

use crate::Style;
use crate::style::push_part;
use crate::texts::at_right;
use run_capture::Mem;
use run_events::{ScriptUnit, StressIndex, TestInstanceId, TestUnit};
use std::alloc::Global;

// Where a line begins: its word, at the right of twelve columns.
#[tactic(auto, unfolding(crate::specs::Style::spans_bytes))]
fn push_head(alloc: Global, line: &mut String, color: bool, style: Style, word: &str) -> Mem<()>
    ensures { OnOk result (string_bytes line.new ≡ string_bytes line.old ++ spans_bytes color (head style word.now)) }
{
    let blanks = at_right(alloc, 12usize.saturating_sub(word.len()), "")?;
    push_part(line, color, Style::Plain, blanks.as_str())?;
    push_part(line, color, style, word)?;
    push_part(line, color, Style::Plain, " ")
}

// How many sub-runs there are to be.
fn repeats(alloc: Global, total: Option<u32>) -> Mem<String>
    ensures { IfOk result (λ s. string_bytes s ≡ repeats_text total) }
{
    match total {
        Some(total) => Ok(format!(in alloc; "{total}")?),
        None => Ok(String::from_str(alloc, "∞")?),
    }
}

// Which sub-run of a stress run it is.
fn lead(alloc: Global, index: Option<StressIndex>) -> Mem<String>
    ensures { IfOk result (λ s. string_bytes s ≡ lead_text index) }
{
    match index {
        Some(index) => {
            let total = repeats(alloc, index.total)?;
            let current = u64::from(index.current) + 1;
            Ok(format!(in alloc; "[{current}/{total}] ")?)
        }
        None => Ok(String::new(alloc)),
    }
}

/// Adds which sub-run of a stress run it is.
#[tactic(auto, unfolding(crate::specs::Style::spans_bytes))]
pub(crate) fn push_lead(
    alloc: Global,
    line: &mut String,
    color: bool,
    index: Option<StressIndex>,
) -> Mem<()>
    ensures { OnOk result (string_bytes line.new ≡ string_bytes line.old
        ++ spans_bytes color ((Plain, lead_text index) ∷ [])) }
{
    let lead = lead(alloc, index)?;
    push_part(line, color, Style::Plain, lead.as_str())
}

/// Adds a test by its binary and its name.
#[tactic(auto, unfolding(crate::specs::Style::spans_bytes))]
pub(crate) fn push_id(line: &mut String, color: bool, id: &TestInstanceId) -> Mem<()>
    ensures { OnOk result (string_bytes line.new ≡ string_bytes line.old ++ spans_bytes color (test_id_spans id.now)) }
{
    push_part(line, color, Style::Magenta, id.binary.as_str())?;
    push_part(line, color, Style::Plain, " ")?;
    push_part(line, color, Style::Cyan, id.name.as_str())
}

// Adds a text as it is, and a test.
#[tactic(auto, using(crate::proofs::SpanLemmas::spans_two), unfolding(crate::specs::Style::spans_bytes))]
fn push_test(
    alloc: Global,
    line: &mut String,
    color: bool,
    middle: &str,
    test: &TestUnit,
) -> Mem<()>
    ensures { OnOk result (string_bytes line.new ≡ string_bytes line.old
        ++ spans_bytes color (unit_spans middle.now test.now)) }
{
    let lead = lead(alloc, test.stress_index)?;
    push_part(line, color, Style::Plain, middle)?;
    push_part(line, color, Style::Plain, lead.as_str())?;
    push_id(line, color, &test.id)
}

/// A line about a test: a word, some text, and the test.
#[tactic(auto, using(crate::proofs::SpanLemmas::spans_two), unfolding(crate::specs::Lines::test_spans))]
pub(crate) fn test_line(
    alloc: Global,
    color: bool,
    style: Style,
    word: &str,
    middle: &str,
    test: &TestUnit,
) -> Mem<String>
    ensures { IfOk result (λ s. string_bytes s ≡ line_shown color
        (test_spans (record { style = style; word = word.now; middle = middle.now; test = test.now }))) }
{
    let mut line = String::new(alloc);
    push_head(alloc, &mut line, color, style, word)?;
    push_test(alloc, &mut line, color, middle, test)?;
    line.push_str("\n")?;
    Ok(line)
}

// Adds a text as it is, a script, and another text.
#[tactic(auto, unfolding(crate::specs::Style::spans_bytes))]
fn push_script(
    alloc: Global,
    line: &mut String,
    color: bool,
    middle: &str,
    script: &ScriptUnit,
    said: &str,
) -> Mem<()>
    ensures { OnOk result (string_bytes line.new ≡ string_bytes line.old
        ++ spans_bytes color (script_id_spans middle.now script.now said.now)) }
{
    let lead = lead(alloc, script.stress_index)?;
    push_part(line, color, Style::Plain, middle)?;
    push_part(line, color, Style::Plain, lead.as_str())?;
    push_part(line, color, Style::Magenta, script.id.as_str())?;
    push_part(line, color, Style::Plain, said)
}

/// A line about a script: a word, some text, the script, and what is said of it.
#[tactic(auto, using(crate::proofs::SpanLemmas::spans_two), unfolding(crate::specs::Lines::script_spans))]
pub(crate) fn script_line(
    alloc: Global,
    color: bool,
    style: Style,
    word: &str,
    middle: &str,
    script: &ScriptUnit,
    said: &str,
) -> Mem<String>
    ensures { IfOk result (λ s. string_bytes s ≡ line_shown color (script_spans (record {
      style = style;
      word = word.now;
      middle = middle.now;
      script = script.now;
      said = said.now;
    }))) }
{
    let mut line = String::new(alloc);
    push_head(alloc, &mut line, color, style, word)?;
    push_script(alloc, &mut line, color, middle, script, said)?;
    line.push_str("\n")?;
    Ok(line)
}

/// A line that is a word and what is said.
#[tactic(auto, using(crate::proofs::SpanLemmas::spans_one), unfolding(crate::specs::Lines::word_spans))]
pub(crate) fn word_line(
    alloc: Global,
    color: bool,
    style: Style,
    word: &str,
    said: &str,
) -> Mem<String>
    ensures { IfOk result (λ s. string_bytes s ≡ line_shown color (word_spans style word.now said.now)) }
{
    let mut line = String::new(alloc);
    push_head(alloc, &mut line, color, style, word)?;
    push_part(&mut line, color, Style::Plain, said)?;
    line.push_str("\n")?;
    Ok(line)
}
