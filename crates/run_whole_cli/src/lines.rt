// The last lines of a run whose threads have ended.
ghost use Rattle.std.specs.Prelude.{◌≡◌, ℕ, length, take, None, IfOk};
ghost use Rattle.run_capture.specs.Bytes.{Takes};
ghost use Rattle.run_output.specs.Asks.{ask_lines};
ghost use Rattle.run_output.specs.Fields.{line_bytes};
ghost use Rattle.run_output.specs.Faults.{fault_text};
ghost use Rattle.run_output.specs.declared.fault.Fault.TheVariants.{Memory, ThirdSignal};
ghost use Rattle.run_cli.specs.Call.{writing_of};
ghost use Rattle.run_cli.specs.Text.{fault_only};
ghost use Rattle.run_whole_cli.specs.OrderText.{order_text};
ghost use Rattle.run_whole_cli.specs.Last.{EndsAtOrder, EndsPlain, EndsUndelivered};
ghost use Rattle.run_whole_cli.specs.Last.{EndsAtThird, EndsWhole, EndsWithout, is_stopped, left_by};

use crate::left::{WholeEnded, WholeEnding, WholeLeft, end_by, left_by, so_ended};
use crate::order_fault::order_line;
use run_capture::{List, Mem, Sink};
use run_cli::{
    Ended, RefusalLines, end_at_fault, end_without_memory, fault_after, last_lines, open_fault,
    refusal_after, write_refusal,
};
use run_events::{Ask, RunOutcome};
use run_model::Entry;
use run_output::{AskLines, Fault, fault_line, with_line_feed};
use run_shared::OrderFault;
use run_whole::{CutOff, WholeError};
use std::alloc::Global;

// The greatest length of a journal.
const MOST: usize = 4_294_967_295;

// The lines of asks, and that of what wasn't handed on exactly once.
fn order_lines(alloc: Global, asks: &[(u64, Ask)], fault: OrderFault) -> Mem<RefusalLines>
    ensures asks { IfOk result (λ r. r.asks ≡ ask_lines asks.now) }
    ensures last { IfOk result (λ r. r.last ≡ line_bytes (order_text fault)) }
{
    let line = order_line(alloc, fault)?;
    let last = with_line_feed(alloc, line)?;
    let asks = AskLines::of(alloc, asks)?;
    Ok(RefusalLines { asks, last })
}

// Writes the lines of asks and of what wasn't handed on exactly once.
fn order_after<K: Sink>(
    alloc: Global,
    sink: K,
    asks: &[(u64, Ask)],
    fault: OrderFault,
) -> (WholeEnding, K)
    ensures { EndsAtOrder (writing_of K.Sink sink result.1) (ask_lines asks.now) fault result.0 }
{
    match order_lines(alloc, asks, fault) {
        Ok(lines) => (WholeEnding::Order, write_refusal(sink, &lines)),
        Err(_) => {
            let Ended { sink, ending: _ } = end_without_memory(sink);
            (WholeEnding::Fault(Fault::Memory), sink)
        }
    }
}

// Writes the last lines of a run with nothing wrong: its asks, and then its outcome, that an event was refused, or why
// it isn't over.
fn plain_after<K: Sink>(
    alloc: Global,
    sink: K,
    asks: &[(u64, Ask)],
    journal: &List<Entry>,
    outcome: Option<RunOutcome>,
    refused: bool,
) -> Ended<K>
    ensures { EndsPlain (writing_of K.Sink sink result.sink) (ask_lines asks.now) (length journal.now)
        outcome refused result.ending }
{
    match outcome {
        Some(outcome) => last_lines(alloc, sink, asks, outcome, refused),
        None => fault_after(alloc, sink, asks, open_fault(journal)),
    }
}

// Whether a run takes no turn any more: it is over, or its journal is full.
fn is_stopped(journal: &List<Entry>, outcome: Option<RunOutcome>) -> bool
    ensures { result ≡ is_stopped (length journal.now) outcome }
{
    outcome.is_some() || journal.len() == MOST
}

// Writes the last lines of a run with such an order or halt. One that could go on was given up, since memory was
// wanting.
fn undelivered_after<K: Sink>(
    alloc: Global,
    sink: K,
    asks: &[(u64, Ask)],
    fault: OrderFault,
    stopped: bool,
) -> (WholeEnding, K)
    ensures { EndsUndelivered (writing_of K.Sink sink result.1) (ask_lines asks.now) fault stopped
        result.0 }
{
    if stopped {
        return order_after(alloc, sink, asks, fault);
    }
    let Ended { ending, sink } = fault_after(alloc, sink, asks, Fault::Memory);
    (end_by(ending), sink)
}

// Writes the last lines of a run with this journal: by what is wrong with it, if something is, and else by its outcome.
pub(crate) fn write_end<K: Sink>(
    alloc: Global,
    sink: K,
    asks: &[(u64, Ask)],
    error: &Option<WholeError>,
    journal: &List<Entry>,
    outcome: Option<RunOutcome>,
    refused: bool,
) -> (WholeEnding, K)
    ensures { EndsWhole (writing_of K.Sink sink result.1) (ask_lines asks.now) error.now
        (length journal.now) outcome refused result.0 }
{
    match error {
        Some(WholeError::Receipts { error }) => {
            let (ending, sink) = refusal_after(alloc, sink, asks, error.kind());
            (so_ended(ending), sink)
        }
        Some(WholeError::Orders { fault }) => {
            undelivered_after(alloc, sink, asks, *fault, is_stopped(journal, outcome))
        }
        None => {
            let Ended { ending, sink } = plain_after(alloc, sink, asks, journal, outcome, refused);
            (end_by(ending), sink)
        }
    }
}

// The lines of asks, and that of a third shutdown signal.
fn third_lines(alloc: Global, asks: &[(u64, Ask)], turn: u64) -> Mem<RefusalLines>
    ensures asks { IfOk result (λ r. r.asks ≡ ask_lines asks.now) }
    ensures last { IfOk result (λ r. r.last ≡ line_bytes (fault_text (ThirdSignal turn))) }
{
    let line = fault_line(alloc, Fault::ThirdSignal { turn })?;
    let last = with_line_feed(alloc, line)?;
    let asks = AskLines::of(alloc, asks)?;
    Ok(RefusalLines { asks, last })
}

// Writes the lines of asks and of a third shutdown signal, whose turn would be the next.
fn third_after<K: Sink>(alloc: Global, sink: K, asks: &[(u64, Ask)], turn: u64) -> (WholeEnding, K)
    ensures { EndsAtThird (writing_of K.Sink sink result.1) (ask_lines asks.now) turn result.0 }
{
    match third_lines(alloc, asks, turn) {
        Ok(lines) => (
            WholeEnding::Fault(Fault::ThirdSignal { turn }),
            write_refusal(sink, &lines),
        ),
        Err(_) => {
            let Ended { sink, ending: _ } = end_without_memory(sink);
            (WholeEnding::Fault(Fault::Memory), sink)
        }
    }
}

// Ends a run that was given up at a third shutdown signal.
pub(crate) fn end_cut_off<K: Sink, W: Drop, T: Drop, O: Drop, S: Drop>(
    alloc: Global,
    sink: K,
    cut_off: CutOff,
) -> WholeEnded<K, WholeLeft<W, T, O, S>>
    ensures ending { EndsAtThird (writing_of K.Sink sink result.sink) (ask_lines cut_off.asks)
        (length cut_off.journal) result.ending }
    ensures left { result.left ≡ left_by result.ending (WholeLeft.CutOff cut_off) }
{
    let turn = cut_off.journal.len() as u64;
    let (ending, sink) = third_after(alloc, sink, cut_off.asks.asks(), turn);
    WholeEnded {
        ending,
        sink,
        left: left_by(ending, WholeLeft::CutOff(cut_off)),
    }
}

// Ends a run that was given up, since memory was wanting.
pub(crate) fn end_given_up<K: Sink, L>(sink: K) -> WholeEnded<K, L>
    ensures ending { result.ending ≡ WholeEnding.Fault Memory }
    ensures said { (n : ℕ) × Takes (K.taken sink) (K.taken result.sink) (take n (fault_only Memory)) }
    ensures left { result.left ≡ None }
{
    let Ended { sink, ending: _ } = end_without_memory(sink);
    WholeEnded {
        ending: WholeEnding::Fault(Fault::Memory),
        sink,
        left: None,
    }
}

// Writes a fault, where there is no run.
pub(crate) fn end_without_run<K: Sink, L>(alloc: Global, sink: K, fault: Fault) -> WholeEnded<K, L>
    ensures ending { EndsWithout (writing_of K.Sink sink result.sink) fault result.ending }
    ensures left { result.left ≡ None }
{
    let Ended { ending, sink } = end_at_fault(alloc, sink, &[], fault);
    let ending = match ending {
        Ok(outcome) => WholeEnding::Outcome(outcome),
        Err(fault) => WholeEnding::Fault(fault),
    };
    WholeEnded {
        ending,
        sink,
        left: None,
    }
}
