// The close of a run.
ghost use Rattle.std.specs.Prelude.{◌≡◌, ◌≢◌, ◌<◌, ℕ, IfOk, IfErr, IfSome, IsSome, IsNone, None, count_by, length};
ghost use Rattle.std.specs.List.{All, sum_by};
ghost use Rattle.run_model.specs.Words.{times};
ghost use Rattle.run_shared.specs.Receipts.{concatenated, receipt_numbers, StandsIn};
ghost use Rattle.run_shared.specs.Closed.{IsLeft, IsLeftUnclosed, Refuses};
ghost use Rattle.run_laws.specs.Course.{turns_of};
ghost use Rattle.run_live.specs.Left.{HasToldSome, HasTakenSome};
ghost use Rattle.run_whole.specs.Whole.{ComesThird, IsThird, is_shutdown_turn, takes_shutdown};

use crate::left::{CutOff, GivenUp};
use run_capture::List;
use run_events::{AskList, Reporter, RunOutcome, Signal, Turn};
use run_live::{is_memory, report_left};
use run_model::Entry;
use run_shared::{CloseError, CloseKind, Closed, Receipt, Refusal, SharedRun, Unclosed};
use std::alloc::Global;
use std::sync::ledger::{Ledger, Share};

/// A run that was taken out of its lock: its journal, the receipts, what was asked, the outcome if the run is over, and
/// the reporter. Where the receipts were refused there is no outcome.
#[derive(Drop)]
pub struct Ran<R> {
    pub journal: List<Entry>,
    pub receipts: List<List<Receipt>>,
    pub asks: AskList,
    pub outcome: Option<RunOutcome>,
    pub report: R,
}

// A run that was closed.
fn ran_closed<R: Reporter>(closed: Closed<R>) -> Ran<R>
    ensures journal { result.journal ≡ closed.journal }
    ensures receipts { result.receipts ≡ closed.receipts }
    ensures asks { result.asks ≡ closed.asks }
    ensures outcome { result.outcome ≡ closed.outcome }
    ensures report { result.report ≡ closed.report }
{
    let Closed {
        journal,
        receipts,
        asks,
        outcome,
        report,
    } = closed;
    Ran {
        journal,
        receipts,
        asks,
        outcome,
        report,
    }
}

// A run whose receipts were refused, and why.
fn ran_with<R: Reporter>(unclosed: Unclosed<R>) -> (Ran<R>, CloseError)
    ensures journal { result.0.journal ≡ unclosed.journal }
    ensures receipts { result.0.receipts ≡ unclosed.receipts }
    ensures asks { result.0.asks ≡ unclosed.asks }
    ensures outcome { result.0.outcome ≡ None }
    ensures report { result.0.report ≡ unclosed.report }
    ensures error { result.1 ≡ unclosed.error }
{
    let Unclosed {
        error,
        journal,
        receipts,
        asks,
        report,
    } = unclosed;
    let run = Ran {
        journal,
        receipts,
        asks,
        outcome: None,
        report,
    };
    (run, error)
}

// The reporter of a run.
pub(crate) fn report_ran<R: Reporter>(run: Ran<R>) -> R
    ensures { result ≡ run.report }
{
    let Ran {
        journal,
        receipts,
        asks,
        report,
        ..
    } = run;
    drop(journal);
    drop(receipts);
    drop(asks);
    report
}

// Closes a run, and looks whether the receipts are those of its journal; the reporter alone where memory was wanting.
pub(crate) fn close_run<L: Ledger, R: Reporter>(
    alloc: Global,
    shared: SharedRun<L, R>,
    shares: Vec<Share<L>>,
    receipts: List<List<Receipt>>,
) -> Result<(Ran<R>, Option<CloseError>), R>
    requires parts { sum_by (λ (s : Share L). s.parts) shares.items ≡ L.parts }
    requires amounts { sum_by (λ (s : Share L). s.amount) shares.items ≡ length (concatenated receipts) }
    ensures back { IfOk result (λ r. r.0.receipts ≡ receipts) }
    ensures left { IfOk result (λ r. IsNone r.1
        → IsLeft R.told r.0.report r.0.asks shared r.0.journal r.0.outcome) }
    ensures once { IfOk result (λ r. IsNone r.1 → (k : ℕ) → k < length r.0.journal
        → times k (receipt_numbers (concatenated r.0.receipts)) ≡ 1) }
    ensures stands { IfOk result (λ r. IsNone r.1 → All (StandsIn r.0.journal) (concatenated r.0.receipts)) }
    ensures refused { IfOk result (λ r. IfSome r.1
        (λ e. Refuses shared r.0.journal (concatenated r.0.receipts) e.kind)) }
    ensures kind { IfOk result (λ r. IfSome r.1 (λ e. e.kind ≢ CloseKind.OutOfMemory)) }
    ensures left_too { IfOk result (λ r. IfSome r.1
        (λ e. IsLeftUnclosed R.told r.0.report r.0.asks shared r.0.journal e.kind)) }
    ensures no_outcome { IfOk result (λ r. IsSome r.1 → r.0.outcome ≡ None) }
    ensures told { IfOk result (λ r. HasToldSome R.told r.0.report) }
    ensures given_up { IfErr result (HasToldSome R.told) }
    ensures turns { IfOk result (λ r. R.taken r.0.report (turns_of r.0.journal)) }
    ensures some_turns { IfOk result (λ r. HasTakenSome R.taken r.0.report) }
    ensures turns_given_up { IfErr result (HasTakenSome R.taken) }
{
    match shared.close(alloc, shares, receipts) {
        Ok(closed) => Ok((ran_closed(closed), None)),
        Err(unclosed) => {
            if is_memory(&unclosed.error) {
                return Err(report_left(unclosed));
            }
            let (run, error) = ran_with(unclosed);
            Ok((run, Some(error)))
        }
    }
}

// Whether a turn is a signal by which a run is shut down.
fn is_shutdown(turn: &Turn) -> bool
    ensures { result ≡ is_shutdown_turn turn.now }
{
    match turn {
        Turn::Signal { signal } => {
            matches!(
                signal,
                Signal::Int | Signal::Hup | Signal::Term | Signal::Quit
            )
        }
        _ => false,
    }
}

// Whether an entry is of such a signal.
#[tactic(auto, unfolding(crate::specs::Whole::takes_shutdown))]
fn takes_shutdown(entry: &Entry) -> bool
    ensures { result ≡ takes_shutdown entry.now }
{
    is_shutdown(&entry.turn)
}

// How many signals by which a run is shut down were taken.
fn shutdowns(journal: &[Entry]) -> usize
    ensures { result ≡ count_by takes_shutdown journal.now }
{
    let mut count = 0;
    for entry in journal {
        if takes_shutdown(entry) {
            count += 1;
        }
    }
    count
}

// What is left of a run that was cut off, if a shutdown signal was refused and two at least were taken.
fn cut_off_at(journal: List<Entry>, asks: AskList, refusal: Refusal) -> Option<CutOff>
    requires { IsThird refusal }
    ensures same { IfSome result (λ c. (c.journal ≡ journal) × (c.asks ≡ asks)) }
    ensures third { IfSome result (λ c. ComesThird c.journal c.refusal) }
{
    if is_shutdown(refusal.turn()) && shutdowns(journal.as_slice()) >= 2 {
        return Some(CutOff {
            journal,
            asks,
            refusal,
        });
    }
    drop(journal);
    drop(asks);
    drop(refusal);
    None
}

// A run that was closed with this outcome and given up, at a third signal if there is such a refusal and it isn't over.
fn cut_off_closed<R: Reporter>(closed: Closed<R>, third: Option<Refusal>) -> GivenUp<R>
    requires { IfSome third IsThird }
    ensures report { result.report ≡ closed.report }
    ensures same { IfSome result.cut_off (λ c. (c.journal ≡ closed.journal) × (c.asks ≡ closed.asks)
        × (closed.outcome ≡ None)) }
    ensures third { IfSome result.cut_off (λ c. ComesThird c.journal c.refusal) }
{
    let Closed {
        journal,
        receipts,
        asks,
        outcome,
        report,
    } = closed;
    drop(receipts);
    match (third, outcome) {
        (Some(refusal), None) => GivenUp {
            report,
            cut_off: cut_off_at(journal, asks, refusal),
        },
        _ => {
            drop(journal);
            drop(asks);
            GivenUp {
                report,
                cut_off: None,
            }
        }
    }
}

// What is left of a run that was given up, at a third signal if there is such a refusal.
pub(crate) fn give_back<L: Ledger, R: Reporter>(
    alloc: Global,
    shared: SharedRun<L, R>,
    third: Option<Refusal>,
) -> GivenUp<R>
    requires { IfSome third IsThird }
    ensures told { HasToldSome R.told result.report }
    ensures left { IfSome result.cut_off (λ c. IsLeft R.told result.report c.asks shared c.journal None) }
    ensures some_turns { HasTakenSome R.taken result.report }
    ensures turns { IfSome result.cut_off (λ c. R.taken result.report (turns_of c.journal)) }
    ensures third { IfSome result.cut_off (λ c. ComesThird c.journal c.refusal) }
{
    match shared.close(alloc, Vec::new(alloc), List::new()) {
        Ok(closed) => cut_off_closed(closed, third),
        Err(unclosed) => {
            drop(third);
            GivenUp {
                report: report_left(unclosed),
                cut_off: None,
            }
        }
    }
}
