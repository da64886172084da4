// The line of a verdict, and its status.
ghost use Rattle.std.specs.Prelude.{◌≡◌, ◌++◌, codes, decimal, IfOk};
ghost use Rattle.run_audit_cli.specs.Verdicts.{audit_status, verdict_line_text};

use itoa::Buffer;
use run_audit_model::Verdict;
use run_capture::{Mem, Text};
use std::alloc::Global;

/// The status of a verdict.
pub fn status_of_verdict(verdict: Verdict) -> u8
    ensures { result ≡ audit_status verdict }
{
    match verdict {
        Verdict::Yes => 0,
        Verdict::No { .. } => 1,
    }
}

// A text, then a number and a text.
fn with_number(alloc: Global, text: Text, number: u64, after: &str) -> Mem<Text>
    ensures { IfOk result (λ t. t ≡ text ++ decimal number ++ after.now) }
{
    let mut digits = Buffer::new();
    let mut text = text;
    text.push_str(alloc, digits.format(number))?;
    text.push_str(alloc, after)?;
    Ok(text)
}

// The line of a law that is broken at a place.
fn broken_line(alloc: Global, law: u32, place: u64) -> Mem<Text>
    ensures { IfOk result (λ text. text ≡ codes "{\"law\":" ++ decimal law ++ codes ",\"place\":" ++ decimal place
        ++ codes ",\"verdict\":\"no\"}") }
{
    let text = Text::from_str(alloc, "{\"law\":")?;
    let text = with_number(alloc, text, law as u64, ",\"place\":")?;
    with_number(alloc, text, place, ",\"verdict\":\"no\"}")
}

/// The line of a verdict, without its line feed: its keys in byte order.
pub fn verdict_line(alloc: Global, verdict: Verdict) -> Mem<Text>
    ensures { IfOk result (λ text. text ≡ verdict_line_text verdict) }
{
    match verdict {
        Verdict::Yes => Text::from_str(alloc, "{\"verdict\":\"yes\"}"),
        Verdict::No { law, place } => broken_line(alloc, law, place),
    }
}
