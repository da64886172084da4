// Lines of a document that are made of one element.
ghost use Rattle.std.specs.Prelude.{◌≡◌, ◌++◌, ◌∷◌, ◌≤◌, [], codes, string_bytes, IfOk, OnOk};
ghost use Rattle.run_junit.specs.declared.tag.Key.TheVariants.{Name, Value};
ghost use Rattle.run_junit.specs.Cases.{attempt_attributes, case_end, case_said, case_start, reason_tokens};
ghost use Rattle.run_junit.specs.Cases.{variable_tokens};
ghost use Rattle.run_junit.specs.Tokens.{attributes_bytes, end, line, start, tokens_bytes};

use crate::moment::push_times;
use crate::reason::{Fault, child_said, push_reason_said, type_said};
use crate::tag::{Key, Tag};
use crate::texts::{push_attribute, push_end, push_line, push_start};
use run_capture::{Mem, Text};
use run_events::ExecuteStatus;
use std::alloc::Global;

/// Where an element without attributes begins, on a line of its own.
#[tactic(auto, using(crate::proofs::TokenLemmas::bare_start))]
pub(crate) fn bare_start(alloc: Global, depth: u8, tag: Tag) -> Mem<String>
    requires { depth ≤ 4 }
    ensures { IfOk result (λ s. string_bytes s ≡ tokens_bytes (line depth ∷ start tag [] ∷ [])) }
{
    let mut out = String::new(alloc);
    push_line(&mut out, depth)?;
    push_start(&mut out, tag)?;
    out.push_str(">")?;
    Ok(out)
}

/// Where an element ends, on the line where it began.
#[tactic(auto, unfolding(crate::specs::Tokens::tokens_bytes))]
pub(crate) fn end_here(alloc: Global, tag: Tag) -> Mem<String>
    ensures { IfOk result (λ s. string_bytes s ≡ tokens_bytes (end tag ∷ [])) }
{
    let mut out = String::new(alloc);
    push_end(&mut out, tag)?;
    Ok(out)
}

/// Where an element ends, on a line of its own.
#[tactic(auto, unfolding(crate::specs::Tokens::tokens_bytes))]
pub(crate) fn end_line(alloc: Global, depth: u8, tag: Tag) -> Mem<String>
    requires { depth ≤ 4 }
    ensures { IfOk result (λ s. string_bytes s ≡ tokens_bytes (line depth ∷ end tag ∷ [])) }
{
    let mut out = String::new(alloc);
    push_line(&mut out, depth)?;
    push_end(&mut out, tag)?;
    Ok(out)
}

// Adds the attributes of a case.
fn push_case_said(
    alloc: Global,
    out: &mut String,
    started: Option<u64>,
    name: &str,
    class: &str,
    at: u64,
    time: u64,
) -> Mem<()>
    ensures { OnOk result (string_bytes out.new ≡ string_bytes out.old
        ++ attributes_bytes (case_said started name.now class.now at time)) }
{
    push_attribute(out, Key::Name, name)?;
    push_attribute(out, Key::ClassName, class)?;
    push_times(alloc, out, started, at, time)
}

/// Where a case begins.
pub(crate) fn case_start(
    alloc: Global,
    started: Option<u64>,
    name: &str,
    class: &str,
    at: u64,
    time: u64,
) -> Mem<String>
    ensures { IfOk result (λ s. string_bytes s
        ≡ tokens_bytes (case_start started name.now class.now at time)) }
{
    let mut out = String::new(alloc);
    push_line(&mut out, 2)?;
    push_start(&mut out, Tag::TestCase)?;
    push_case_said(alloc, &mut out, started, name, class, at, time)?;
    out.push_str(">")?;
    Ok(out)
}

/// Why a case is none of a success.
pub(crate) fn reason_line(alloc: Global, fault: Fault, message: &str, kind: &str) -> Mem<String>
    ensures { IfOk result (λ s. string_bytes s ≡ tokens_bytes (reason_tokens fault message.now kind.now)) }
{
    let mut out = String::new(alloc);
    let tag = fault.tag();
    push_line(&mut out, 3)?;
    push_start(&mut out, tag)?;
    push_reason_said(&mut out, message, kind)?;
    out.push_str(">")?;
    push_end(&mut out, tag)?;
    Ok(out)
}

// Adds the attributes of another attempt.
#[tactic(auto, using(crate::proofs::TokenLemmas::attributes_two))]
fn push_attempt_said(
    alloc: Global,
    out: &mut String,
    started: Option<u64>,
    status: &ExecuteStatus,
) -> Mem<()>
    ensures { OnOk result (string_bytes out.new ≡ string_bytes out.old
        ++ attributes_bytes (attempt_attributes started status.now)) }
{
    let message = child_said(alloc, &status.output)?;
    let kind = type_said(alloc, status.result)?;
    push_times(alloc, out, started, status.start, status.time)?;
    push_reason_said(out, message.as_str(), kind.as_str())
}

/// Where the element of another attempt begins.
pub(crate) fn attempt_start(
    alloc: Global,
    started: Option<u64>,
    tag: Tag,
    status: &ExecuteStatus,
) -> Mem<String>
    ensures { IfOk result (λ s. string_bytes s
        ≡ tokens_bytes (line 3 ∷ start tag (attempt_attributes started status.now) ∷ [])) }
{
    let mut out = String::new(alloc);
    push_line(&mut out, 3)?;
    push_start(&mut out, tag)?;
    push_attempt_said(alloc, &mut out, started, status)?;
    out.push_str(">")?;
    Ok(out)
}

// Adds the attributes of a variable.
fn push_variable_said(alloc: Global, out: &mut String, key: &str, value: &str) -> Mem<()>
    ensures { OnOk result (string_bytes out.new ≡ string_bytes out.old ++ attributes_bytes
        ((Name, codes "output:" ++ key.now) ∷ (Value, value.now) ∷ [])) }
{
    let name = format!(in alloc; "output:{key}")?;
    push_attribute(out, Key::Name, name.as_str())?;
    push_attribute(out, Key::Value, value)
}

/// A variable that a script handed on.
pub(crate) fn variable_line(alloc: Global, variable: &(Text, Text)) -> Mem<String>
    ensures { IfOk result (λ s. string_bytes s ≡ tokens_bytes (variable_tokens variable.now)) }
{
    let mut out = String::new(alloc);
    push_line(&mut out, 4)?;
    push_start(&mut out, Tag::Property)?;
    push_variable_said(alloc, &mut out, variable.0.as_str(), variable.1.as_str())?;
    out.push_str(">")?;
    push_end(&mut out, Tag::Property)?;
    Ok(out)
}
