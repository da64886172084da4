// What a run leaves once all threads have ended.
ghost use Rattle.std.specs.Prelude.{◌≡◌, ◌≢◌, ◌+◌, ◌<◌, ℕ, [], IfOk, IfErr, IfSome, IsSome, IsNone, IsTrue, ◌↔◌};
ghost use Rattle.std.specs.Prelude.{Some, None};
ghost use Rattle.std.specs.Prelude.{length};
ghost use Rattle.std.specs.List.{All, sum_by};
ghost use Rattle.run_model.specs.Words.{times};
ghost use Rattle.run_shared.specs.Receipts.{concatenated, receipt_numbers, StandsIn};
ghost use Rattle.run_shared.specs.Closed.{IsLeft, IsLeftUnclosed, Refuses};
ghost use Rattle.run_laws.specs.Course.{turns_of};
ghost use Rattle.run_live.specs.Left.{HasToldSome, HasTakenSome};
ghost use Rattle.run_live.specs.Own.{IsLive, IsTicker};
ghost use Rattle.run_live.specs.Work.{IsWholeWork};

use crate::gathering::Gathered;
use crate::lived::{Live, Lived};
use run_capture::List;
use run_drive::{Spawner, Ticker};
use run_events::Reporter;
use run_shared::{CloseError, CloseKind, Closed, Refusal, SharedRun, Unclosed};
use std::alloc::Global;
use std::sync::ledger::{Ledger, Share};

/// Whether memory was wanting.
pub fn is_memory(error: &CloseError) -> bool
    ensures { IsTrue result ↔ (error.now.kind ≡ CloseKind.OutOfMemory) }
{
    match error.kind() {
        CloseKind::OutOfMemory => true,
        _ => false,
    }
}

// What the threads leave beside their receipts.
#[derive(Drop)]
struct Threaded<W, T> {
    workers: Vec<W>,
    refused: List<List<Refusal>>,
    ticker: T,
}

// What a run leaves that was closed.
fn left<W: Drop, T: Drop, R: Reporter>(threads: Threaded<W, T>, closed: Closed<R>) -> Lived<W, T, R>
    ensures workers { result.live.workers ≡ threads.workers }
    ensures refused { result.live.refused ≡ threads.refused }
    ensures ticker { result.ticker ≡ threads.ticker }
    ensures journal { result.live.journal ≡ closed.journal }
    ensures receipts { result.live.receipts ≡ closed.receipts }
    ensures error { result.live.error ≡ None }
    ensures asks { result.asks ≡ closed.asks }
    ensures outcome { result.outcome ≡ closed.outcome }
    ensures report { result.report ≡ closed.report }
{
    let Threaded {
        workers,
        refused,
        ticker,
    } = threads;
    let Closed {
        journal,
        receipts,
        asks,
        outcome,
        report,
    } = closed;
    let live = Live {
        journal,
        receipts,
        refused,
        workers,
        error: None,
    };
    Lived {
        live,
        ticker,
        asks,
        outcome,
        report,
    }
}

/// The reporter of a run that wasn't closed.
pub fn report_left<R: Reporter>(unclosed: Unclosed<R>) -> R
    ensures { result ≡ unclosed.report }
{
    let Unclosed {
        error,
        journal,
        receipts,
        asks,
        report,
    } = unclosed;
    drop(error);
    drop(journal);
    drop(receipts);
    drop(asks);
    report
}

// What a run leaves whose receipts were refused.
fn with_error<W: Drop, T: Drop, R: Reporter>(
    threads: Threaded<W, T>,
    unclosed: Unclosed<R>,
) -> Lived<W, T, R>
    ensures workers { result.live.workers ≡ threads.workers }
    ensures refused { result.live.refused ≡ threads.refused }
    ensures ticker { result.ticker ≡ threads.ticker }
    ensures journal { result.live.journal ≡ unclosed.journal }
    ensures receipts { result.live.receipts ≡ unclosed.receipts }
    ensures error { result.live.error ≡ Some unclosed.error }
    ensures asks { result.asks ≡ unclosed.asks }
    ensures report { result.report ≡ unclosed.report }
    ensures outcome { result.outcome ≡ None }
{
    let Threaded {
        workers,
        refused,
        ticker,
    } = threads;
    let Unclosed {
        error,
        journal,
        receipts,
        asks,
        report,
    } = unclosed;
    let live = Live {
        journal,
        receipts,
        refused,
        workers,
        error: Some(error),
    };
    Lived {
        live,
        ticker,
        asks,
        outcome: None,
        report,
    }
}

// What a run leaves whose receipts were refused; its reporter alone where memory was wanting.
fn refused<W: Drop, T: Drop, R: Reporter>(
    threads: Threaded<W, T>,
    unclosed: Unclosed<R>,
) -> Result<Lived<W, T, R>, R>
    ensures workers { IfOk result (λ l. l.live.workers ≡ threads.workers) }
    ensures threads { IfOk result (λ l. (l.live.workers ≡ threads.workers) × (l.live.refused ≡ threads.refused)
        × (l.ticker ≡ threads.ticker) × (l.live.receipts ≡ unclosed.receipts)) }
    ensures refused { IfOk result (λ l. l.live.refused ≡ threads.refused) }
    ensures journal { IfOk result (λ l. l.live.journal ≡ unclosed.journal) }
    ensures receipts { IfOk result (λ l. l.live.receipts ≡ unclosed.receipts) }
    ensures error { IfOk result (λ l. l.live.error ≡ Some unclosed.error) }
    ensures kind { IfOk result (λ l. unclosed.error.kind ≢ CloseKind.OutOfMemory) }
    ensures asks { IfOk result (λ l. l.asks ≡ unclosed.asks) }
    ensures report { IfOk result (λ l. l.report ≡ unclosed.report) }
    ensures outcome { IfOk result (λ l. l.outcome ≡ None) }
    ensures given_up { IfErr result (λ report. report ≡ unclosed.report) }
{
    if is_memory(&unclosed.error) {
        drop(threads);
        return Err(report_left(unclosed));
    }
    Ok(with_error(threads, unclosed))
}

// Closes a run, and looks whether the receipts are those of its journal; the reporter alone where memory was wanting.
pub(crate) fn finish<W: Spawner + Drop, T: Ticker + Drop, L: Ledger, R: Reporter>(
    alloc: Global,
    shared: SharedRun<L, R>,
    all: Gathered<L, W>,
    ticker: T,
) -> Result<Lived<W, T, R>, R>
    requires whole { IsWholeWork W.has_said all.workers.items all.receipts all.refused
        (sum_by (λ (s : Share L). s.parts) all.shares.items) (sum_by (λ (s : Share L). s.amount) all.shares.items) }
    requires parts { length all.workers.items + 1 ≡ L.parts }
    requires ticker { IsTicker T.has_told ticker (length all.workers.items) all.receipts all.refused }
    ensures workers { IfOk result (λ l. l.live.workers ≡ all.workers) }
    ensures left { IfOk result (λ l. IsNone l.live.error
        → IsLeft R.told l.report l.asks shared l.live.journal l.outcome) }
    ensures once { IfOk result (λ l. IsNone l.live.error → (k : ℕ) → k < length l.live.journal
        → times k (receipt_numbers (concatenated l.live.receipts)) ≡ 1) }
    ensures stands { IfOk result (λ l. IsNone l.live.error
        → All (StandsIn l.live.journal) (concatenated l.live.receipts)) }
    ensures refused { IfOk result (λ l. IfSome l.live.error
        (λ e. Refuses shared l.live.journal (concatenated l.live.receipts) e.kind)) }
    ensures kind { IfOk result (λ l. IfSome l.live.error (λ e. e.kind ≢ CloseKind.OutOfMemory)) }
    ensures left_too { IfOk result (λ l. IfSome l.live.error
        (λ e. IsLeftUnclosed R.told l.report l.asks shared l.live.journal e.kind)) }
    ensures no_outcome { IfOk result (λ l. IsSome l.live.error → l.outcome ≡ None) }
    ensures own { IfOk result (λ l. IsLive W.has_said l.live.workers.items l.live.receipts l.live.refused) }
    ensures ticker { IfOk result (λ l. IsTicker T.has_told l.ticker (length l.live.workers.items) l.live.receipts
        l.live.refused) }
    ensures given_up { IfErr result (HasToldSome R.told) }
    ensures turns { IfOk result (λ l. R.taken l.report (turns_of l.live.journal)) }
    ensures turns_given_up { IfErr result (HasTakenSome R.taken) }
{
    let Gathered {
        workers,
        shares,
        receipts,
        refused: refusals,
    } = all;
    let threads = Threaded {
        workers,
        refused: refusals,
        ticker,
    };
    match shared.close(alloc, shares, receipts) {
        Ok(closed) => Ok(left(threads, closed)),
        Err(unclosed) => refused(threads, unclosed),
    }
}

// The reporter of a run that was closed.
fn report_closed<R: Reporter>(closed: Closed<R>) -> R
    ensures { result ≡ closed.report }
{
    let Closed {
        journal,
        receipts,
        asks,
        report,
        ..
    } = closed;
    drop(journal);
    drop(receipts);
    drop(asks);
    report
}

/// The reporter of a run that is thrown away.
pub fn report_of<L: Ledger, R: Reporter>(alloc: Global, shared: SharedRun<L, R>) -> R
    ensures told { HasToldSome R.told result }
    ensures turns { HasTakenSome R.taken result }
{
    match shared.close(alloc, Vec::new(alloc), List::new()) {
        Ok(closed) => report_closed(closed),
        Err(unclosed) => report_left(unclosed),
    }
}
