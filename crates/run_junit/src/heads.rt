// Where the document and its suites begin and end.
ghost use Rattle.std.specs.Prelude.{◌≡◌, ◌++◌, decimal, string_bytes, IfOk, OnOk};
ghost use Rattle.run_junit.specs.Document.{counts_said, run_end, run_said, document_open, suite_end, suite_said};
ghost use Rattle.run_junit.specs.Document.{suite_start};
ghost use Rattle.run_junit.specs.Tokens.{attribute_bytes, attributes_bytes, tokens_bytes};

use crate::elements::end_line;
use crate::heard::Heard;
use crate::moment::push_times;
use crate::suites::Counts;
use crate::tag::{Key, Tag};
use crate::texts::{push_attribute, push_end, push_line, push_start};
use run_capture::Mem;
use std::alloc::Global;

// Adds a count.
fn push_count(alloc: Global, out: &mut String, key: Key, count: u64) -> Mem<()>
    ensures { OnOk result (string_bytes out.new ≡ string_bytes out.old ++ attribute_bytes (key, decimal count)) }
{
    let count = format!(in alloc; "{count}")?;
    push_attribute(out, key, count.as_str())
}

// Adds the attributes of a suite.
fn push_suite_said(alloc: Global, out: &mut String, name: &str, counts: Counts) -> Mem<()>
    ensures { OnOk result (string_bytes out.new ≡ string_bytes out.old
        ++ attributes_bytes (suite_said name.now counts)) }
{
    push_attribute(out, Key::Name, name)?;
    push_count(alloc, out, Key::Tests, counts.tests)?;
    push_attribute(out, Key::Disabled, "0")?;
    push_count(alloc, out, Key::Errors, counts.errors)?;
    push_count(alloc, out, Key::Failures, counts.failures)
}

/// Where a suite begins.
pub(crate) fn suite_start(alloc: Global, name: &str, counts: Counts) -> Mem<String>
    ensures { IfOk result (λ s. string_bytes s ≡ tokens_bytes (suite_start name.now counts)) }
{
    let mut out = String::new(alloc);
    push_line(&mut out, 1)?;
    push_start(&mut out, Tag::TestSuite)?;
    push_suite_said(alloc, &mut out, name, counts)?;
    out.push_str(">")?;
    Ok(out)
}

/// Where it ends.
pub(crate) fn suite_end(alloc: Global) -> Mem<String>
    ensures { IfOk result (λ s. string_bytes s ≡ tokens_bytes suite_end) }
{
    end_line(alloc, 1, Tag::TestSuite)
}

// Adds what the document says of its cases.
fn push_counts(alloc: Global, out: &mut String, counts: Counts, id: &str) -> Mem<()>
    ensures { OnOk result (string_bytes out.new ≡ string_bytes out.old
        ++ attributes_bytes (counts_said counts id.now)) }
{
    push_attribute(out, Key::Name, "nextest-run")?;
    push_count(alloc, out, Key::Tests, counts.tests)?;
    push_count(alloc, out, Key::Failures, counts.failures)?;
    push_count(alloc, out, Key::Errors, counts.errors)?;
    push_attribute(out, Key::Uuid, id)
}

// Adds the attributes of the document.
#[tactic(auto, using(crate::proofs::TokenLemmas::attributes_two))]
fn push_run_said(alloc: Global, out: &mut String, started: Option<u64>, heard: &Heard) -> Mem<()>
    ensures { OnOk result (string_bytes out.new ≡ string_bytes out.old
        ++ attributes_bytes (run_said started heard.now.counts heard.now.id heard.now.elapsed)) }
{
    push_counts(alloc, out, heard.counts, heard.id.as_str())?;
    push_times(alloc, out, started, 0, heard.elapsed)
}

/// Where the document begins.
pub(crate) fn document_open(alloc: Global, started: Option<u64>, heard: &Heard) -> Mem<String>
    ensures { IfOk result (λ s. string_bytes s
        ≡ tokens_bytes (document_open started heard.now.counts heard.now.id heard.now.elapsed)) }
{
    let mut out = String::from_str(alloc, "<?xml version=\"1.0\" encoding=\"UTF-8\"?>")?;
    push_line(&mut out, 0)?;
    push_start(&mut out, Tag::TestSuites)?;
    push_run_said(alloc, &mut out, started, heard)?;
    out.push_str(">")?;
    Ok(out)
}

/// Where it ends.
pub(crate) fn run_end(alloc: Global) -> Mem<String>
    ensures { IfOk result (λ s. string_bytes s ≡ tokens_bytes run_end) }
{
    let mut out = String::new(alloc);
    push_line(&mut out, 0)?;
    push_end(&mut out, Tag::TestSuites)?;
    push_line(&mut out, 0)?;
    Ok(out)
}
