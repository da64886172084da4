// The lines after a run whose receipts are refused.
ghost use Rattle.std.specs.Prelude.{◌≡◌, ◌≤◌, ◌++◌, ℕ, List, IfOk, OnErr, OnOk};
ghost use Rattle.run_capture.specs.Bytes.{Takes};
ghost use Rattle.run_capture.specs.Faults.{Rose};
ghost use Rattle.run_output.specs.Asks.{ask_lines};
ghost use Rattle.run_output.specs.Fields.{line_bytes};
ghost use Rattle.run_cli.specs.Call.{TakesFront, Writes, writing_of};
ghost use Rattle.run_cli.specs.Receipts.{receipt_text};

use run_capture::{Failed, Mem, Sink, Text, write_all};
use run_events::Ask;
use run_output::{
    AskLines, Fault, fault_line, mismatch_line, other_settings_line, repeated_line, with_line_feed,
};
use run_shared::CloseKind;
use std::alloc::Global;

// The line of a refusal, without its line feed.
fn receipt_line(alloc: Global, kind: &CloseKind) -> Mem<Text>
    ensures { IfOk result (λ t. t ≡ receipt_text kind.now) }
{
    match kind {
        CloseKind::OtherSettings { .. } => other_settings_line(alloc),
        CloseKind::Mismatch {
            number,
            receipt,
            journal,
        } => mismatch_line(alloc, *number, receipt, journal),
        CloseKind::Repeated { number } => repeated_line(alloc, *number),
        CloseKind::OutOfMemory => fault_line(alloc, Fault::Memory),
    }
}

/// The lines of asks, and that of why receipts were refused.
#[derive(Drop)]
pub struct RefusalLines {
    pub asks: AskLines,
    pub last: Text,
}

/// Makes the lines after a run whose receipts are refused.
pub fn refusal_lines(alloc: Global, asks: &[(u64, Ask)], kind: &CloseKind) -> Mem<RefusalLines>
    ensures asks { IfOk result (λ r. r.asks ≡ ask_lines asks.now) }
    ensures last { IfOk result (λ r. r.last ≡ line_bytes (receipt_text kind.now)) }
{
    let line = receipt_line(alloc, kind)?;
    let last = with_line_feed(alloc, line)?;
    let asks = AskLines::of(alloc, asks)?;
    Ok(RefusalLines { asks, last })
}

// Writes some bytes, and then others.
fn write_both<K: Sink>(sink: &mut K, first: &[u8], last: &[u8]) -> Result<(), Failed>
    ensures ok { OnOk result (Takes (K.taken sink.old) (K.taken sink.new) (first.now ++ last.now)) }
    ensures front { OnErr result (TakesFront (K.taken sink.old) (K.taken sink.new) (first.now ++ last.now)) }
    ensures stays { OnOk result (K.faults sink.new ≡ K.faults sink.old) }
    ensures rose { OnErr result ((K.faults sink.old ≤ K.faults sink.new)
        × Rose (K.faults sink.old) (K.faults sink.new)) }
{
    write_all(sink, first)?;
    write_all(sink, last)
}

/// Writes these lines. Where the sink fails, it takes a front part of them: the status says it too.
pub fn write_refusal<K: Sink>(sink: K, lines: &RefusalLines) -> K
    ensures { Writes (writing_of K.Sink sink result) (lines.now.asks ++ lines.now.last) }
{
    let mut sink = sink;
    let _ = write_both(&mut sink, lines.asks.as_bytes(), lines.last.as_bytes());
    sink
}
