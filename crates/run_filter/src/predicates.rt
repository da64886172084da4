// Reads predicates: a name, and a text in parentheses.
ghost use Rattle.std.specs.Prelude.{◌≡◌, ◌≤◌, ◌-◌, ◌++◌, length, drop, IfOk, OnOk};
ghost use Rattle.std.specs.Str.{chars};
ghost use Rattle.std.specs.Str.Lossy.{utf8_lossy};
ghost use Rattle.run_filter.specs.Grammar.{closed, bit_bytes, text_of, text_start, matcher_of, with_text, asked_for};
ghost use Rattle.run_filter.specs.Grammar.{named};
ghost use Rattle.run_filter.specs.Grammar.{predicate, after_text, glob_matcher};
ghost use Rattle.run_filter.specs.GlobText.{glob_of};
ghost use Rattle.run_filter.specs.Tree.{tree_of};
ghost use Rattle.run_filter.specs.Reads.{left_at, ReadsTree, ReadsText, MakesMatcher};

use crate::bits::{bit_of, push_bit, unended_fault};
use crate::facts::Subject;
use crate::fault::{FilterError, FilterFault};
use crate::filter::{Filter, Matcher};
use crate::glob_text::glob_of;
use crate::places::{closes, opens, past};
use crate::signs::{Meaning, Sign, meaning_of, name_len, sign_of, skip};
use run_capture::{List, Mem, Text};
use std::alloc::Global;

/// A filter, if a `)` follows it.
pub(crate) fn closed(
    text: &[u8],
    filter: Filter,
    next: usize,
) -> Result<(Filter, usize), FilterError>
    requires { next ≤ length text.now }
    ensures { ReadsTree result text.now (closed (tree_of filter) (left_at text.now next)) }
{
    let at = skip(text, next);
    if closes(&text[at..]) {
        let place = past(text, at, 1);
        return Ok((filter, place));
    }
    drop(filter);
    let fault = FilterFault::ExpectedClose;
    Err(FilterError::Wrong { place: at, fault })
}

// Reads a text up to its end.
fn text_of(
    alloc: Global,
    sign: Sign,
    text: &[u8],
    at: usize,
) -> Result<(List<u8>, usize), FilterError>
    requires { at ≤ length text.now }
    ensures { ReadsText result text.now (text_of (length text.now - at) sign (drop at text.now)) }
{
    let mut bytes = List::new();
    let mut place = at;
    let mut fuel = text.len() - at;
    while fuel > 0 {
        fuel -= 1;
        match bit_of(sign, &text[place..]) {
            Err(fault) => return Err(FilterError::Wrong { place, fault }),
            Ok(None) => return Ok((bytes, place)),
            Ok(Some(bit)) => {
                push_bit(alloc, &mut bytes, bit)?;
                place = past(text, place, bit.taken);
            }
        }
    }
    let fault = unended_fault(sign);
    Err(FilterError::Wrong { place, fault })
}

// Bytes as a text.
fn lossy_text(alloc: Global, bytes: List<u8>) -> Mem<Text>
    ensures { IfOk result (λ text. text ≡ utf8_lossy bytes) }
{
    Ok(Text::from_string(String::from_utf8_lossy(alloc, bytes.as_slice())?))
}

fn glob_matcher(alloc: Global, text: Text, place: usize) -> Result<Matcher, FilterError>
    ensures { MakesMatcher result place (glob_matcher (glob_of (chars text))) }
{
    match glob_of(alloc, text.as_str())? {
        Some(glob) => Ok(Matcher::Glob(glob)),
        None => Err(FilterError::Wrong {
            place,
            fault: FilterFault::BadGlob,
        }),
    }
}

// The matcher that a sign and a text make.
fn matcher_of(
    alloc: Global,
    sign: Sign,
    bytes: List<u8>,
    place: usize,
) -> Result<Matcher, FilterError>
    ensures { MakesMatcher result place (matcher_of sign (utf8_lossy bytes) place) }
{
    let text = lossy_text(alloc, bytes)?;
    match sign {
        Sign::Contains => Ok(Matcher::Contains(text)),
        Sign::Equals => Ok(Matcher::Equals(text)),
        Sign::Glob => glob_matcher(alloc, text, place),
        Sign::Regex => Ok(Matcher::Regex {
            place,
            pattern: text,
        }),
    }
}

// Where a text begins after its sign.
fn text_start(sign: Sign, text: &[u8], at: usize) -> usize
    requires { at ≤ length text.now }
    ensures rest { drop result text.now ≡ text_start sign (drop at text.now) }
    ensures end { result ≤ length text.now }
{
    match sign {
        Sign::Contains | Sign::Equals | Sign::Glob => skip(text, at),
        Sign::Regex => at,
    }
}

// The place after a text, and after the `/` at the end of a regex.
fn after_text(sign: Sign, text: &[u8], end: usize) -> usize
    requires { end ≤ length text.now }
    ensures rest { drop result text.now ≡ after_text sign (drop end text.now) }
    ensures end { result ≤ length text.now }
{
    match sign {
        Sign::Contains | Sign::Equals | Sign::Glob => end,
        Sign::Regex => past(text, end, 1),
    }
}

// Reads the text after a sign, and the `)` after it.
fn asked_text(
    alloc: Global,
    text: &[u8],
    next: usize,
    subject: Subject,
    sign: Sign,
    start: usize,
) -> Result<(Filter, usize), FilterError>
    requires { start ≤ length text.now }
    ensures { ReadsTree result text.now (with_text subject sign (drop start text.now) (left_at text.now next)
        (text_of (length text.now - start) sign (drop start text.now))) }
{
    match text_of(alloc, sign, text, start) {
        Err(error) => Err(error),
        Ok((bytes, end)) => {
            let after = after_text(sign, text, end);
            match matcher_of(alloc, sign, bytes, start) {
                Err(error) => Err(error),
                Ok(matcher) => closed(text, Filter::Is { subject, matcher }, after),
            }
        }
    }
}

// Reads what a predicate asks for, up to its `)`.
fn asked(
    alloc: Global,
    text: &[u8],
    next: usize,
    subject: Subject,
    usual: Sign,
) -> Result<(Filter, usize), FilterError>
    requires { next ≤ length text.now }
    ensures { ReadsTree result text.now (asked_for subject usual (left_at text.now next)) }
{
    let (sign, count) = sign_of(usual, &text[next..]);
    let begin = past(text, next, count);
    let start = text_start(sign, text, begin);
    asked_text(alloc, text, next, subject, sign, start)
}

// Reads what stands in the parentheses after a name.
fn named(
    alloc: Global,
    text: &[u8],
    meaning: Meaning,
    name: usize,
    next: usize,
) -> Result<(Filter, usize), FilterError>
    requires name { name ≤ length text.now }
    requires next { next ≤ length text.now }
    ensures { ReadsTree result text.now (named meaning (drop name text.now) (left_at text.now next)) }
{
    match meaning {
        Meaning::All => closed(text, Filter::All, next),
        Meaning::Nothing => closed(text, Filter::Nothing, next),
        Meaning::Default => closed(text, Filter::Default, next),
        Meaning::Asks(subject, usual) => asked(alloc, text, next, subject, usual),
        Meaning::Graph => Err(FilterError::Wrong {
            place: name,
            fault: FilterFault::NeedsGraph,
        }),
        Meaning::Unknown => Err(FilterError::Wrong {
            place: name,
            fault: FilterFault::UnknownFilter,
        }),
    }
}

/// Reads a predicate.
pub(crate) fn predicate(
    alloc: Global,
    text: &[u8],
    next: usize,
) -> Result<(Filter, usize), FilterError>
    requires { next ≤ length text.now }
    ensures { ReadsTree result text.now (predicate (left_at text.now next)) }
{
    let rest = &text[next..];
    let count = name_len(rest);
    if count == 0 {
        let fault = FilterFault::ExpectedFilter;
        return Err(FilterError::Wrong { place: next, fault });
    }
    let after = past(text, next, count);
    let open = skip(text, after);
    if opens(&text[open..]) {
        let inside = past(text, open, 1);
        let at = skip(text, inside);
        let meaning = meaning_of(&rest[..count]);
        return named(alloc, text, meaning, next, at);
    }
    let fault = FilterFault::ExpectedOpen;
    Err(FilterError::Wrong { place: open, fault })
}
