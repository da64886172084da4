// A run whose asked signals are delivered, from its first turn to what it leaves.
ghost use Rattle.std.specs.Prelude.{◌≡◌, ◌≢◌, ◌+◌, ◌<◌, ℕ, [], IfOk, IfErr, IfSome, IsSome, IsNone, None, length};
ghost use Rattle.std.specs.List.{All};
ghost use Rattle.run_model.specs.Words.{times};
ghost use Rattle.run_shared.specs.Receipts.{concatenated, receipt_numbers, StandsIn};
ghost use Rattle.run_shared.specs.Closed.{IsLeft, IsLeftUnclosed, Refuses};
ghost use Rattle.run_shared.specs.Orders.{Delivers, IsOrderFault};
ghost use Rattle.run_laws.specs.Course.{turns_of};
ghost use Rattle.run_live.specs.Left.{HasToldSome, HasTakenSome};
ghost use Rattle.run_whole.specs.Own.{IsListenerWork, IsTickerWork, AreAllKept};
ghost use Rattle.run_whole.specs.Whole.{ComesThird, handed, order_fault, receipts_error};

use crate::closing::give_back;
use crate::ending::finish;
use crate::left::{Around, GivenUp, Whole};
use crate::threads::{Heeded, run_shares};
use run_engine::TestRunner;
use run_events::Reporter;
use run_keep::{Halter, KeeperHost, Outside};
use run_shared::{CloseKind, OrderFault, SharedRun};
use std::alloc::Global;
use std::marker::Brand;
use std::sync::Wait;
use std::sync::ledger::{Blank, Ledger, Share};
use std::thread::Threads;

// The run on a shared run that was made, with its shares.
fn whole_on<
    H: KeeperHost,
    O: Outside + Send + Drop,
    S: Halter + Send + Drop,
    L: Ledger + Send + Sync,
    R: Reporter + Send,
    X: Threads + Wait + Sync,
>(
    rt: &X,
    alloc: Global,
    shared: SharedRun<L, R>,
    host: &mut H,
    shares: Vec<Share<L>>,
    heeded: Heeded<O, S>,
) -> Result<Whole<H::Worker, H::Tick, O, S, R>, GivenUp<R>>
where
    R::Error: Send,
    requires each { All (λ (s : Share L). (s.parts ≡ 1) × (s.amount ≡ 0)) shares.items }
    requires some { 1 < length shares.items }
    requires parts { length shares.items ≡ L.parts }
    requires quiet { O.has_come heeded.around.outside [] }
    requires runs { S.has_halted heeded.around.halter 0 }
    ensures workers { IfOk result (λ w. length w.threads.workers.keepers.items + 2 ≡ length shares.items) }
    ensures left { IfOk result (λ w. IsNone (receipts_error w.error)
        → IsLeft R.told w.run.report w.run.asks shared w.run.journal w.run.outcome) }
    ensures once { IfOk result (λ w. IsNone (receipts_error w.error) → (k : ℕ) → k < length w.run.journal
        → times k (receipt_numbers (concatenated w.run.receipts)) ≡ 1) }
    ensures stands { IfOk result (λ w. IsNone (receipts_error w.error)
        → All (StandsIn w.run.journal) (concatenated w.run.receipts)) }
    ensures delivers { IfOk result (λ w. IsNone w.error
        → Delivers w.run.asks (handed w.threads.workers.orders w.threads.ear.halts)) }
    ensures undelivered { IfOk result (λ w. IfSome (order_fault w.error)
        (IsOrderFault w.run.asks (handed w.threads.workers.orders w.threads.ear.halts))) }
    ensures fault_kind { IfOk result (λ w. IfSome (order_fault w.error) (λ f. f ≢ OrderFault.OutOfMemory)) }
    ensures refused { IfOk result (λ w. IfSome (receipts_error w.error)
        (λ e. Refuses shared w.run.journal (concatenated w.run.receipts) e.kind)) }
    ensures kind { IfOk result (λ w. IfSome (receipts_error w.error) (λ e. e.kind ≢ CloseKind.OutOfMemory)) }
    ensures left_too { IfOk result (λ w. IfSome (receipts_error w.error)
        (λ e. IsLeftUnclosed R.told w.run.report w.run.asks shared w.run.journal e.kind)) }
    ensures no_outcome { IfOk result (λ w. IsSome (receipts_error w.error) → w.run.outcome ≡ None) }
    ensures own { IfOk result (λ w. AreAllKept H.Worker.has_heard w.threads.workers.keepers.items w.run.receipts
        w.threads.workers.lost w.threads.workers.orders) }
    ensures ticker { IfOk result (λ w. IsTickerWork H.Tick.has_told w.threads.rounds.ticker
        (length w.threads.workers.keepers.items) w.run.receipts w.threads.rounds.refused) }
    ensures listener { IfOk result (λ w. IsListenerWork O.has_come heeded.hearing w.threads.ear.around.outside
        (length w.threads.workers.keepers.items + 1) w.run.receipts w.threads.ear.dropped) }
    ensures halts { IfOk result
        (λ w. S.has_halted w.threads.ear.around.halter (length w.threads.ear.halts)) }
    ensures given_up { IfErr result (λ g. HasToldSome R.told g.report) }
    ensures cut_off { IfErr result (λ g. IfSome g.cut_off
        (λ c. IsLeft R.told g.report c.asks shared c.journal None)) }
    ensures third { IfErr result (λ g. IfSome g.cut_off (λ c. ComesThird c.journal c.refusal)) }
    ensures turns { IfOk result (λ w. R.taken w.run.report (turns_of w.run.journal)) }
    ensures turns_given_up { IfErr result (λ g. HasTakenSome R.taken g.report) }
    ensures turns_cut_off { IfErr result (λ g. IfSome g.cut_off (λ c. R.taken g.report (turns_of c.journal))) }
{
    match run_shares(rt, alloc, &shared, host, shares, heeded) {
        Ok((threads, shares, receipts)) => finish(alloc, shared, threads, shares, receipts),
        Err(third) => Err(give_back(alloc, shared, third)),
    }
}

// The run, counted by a ledger with a part for each worker, one for the ticker and one for the listener.
fn whole_in<
    H: KeeperHost,
    O: Outside + Send + Drop,
    S: Halter + Send + Drop,
    L: Ledger + Send + Sync,
    R: Reporter + Send,
    X: Threads + Wait + Sync,
>(
    rt: &X,
    alloc: Global,
    runner: TestRunner,
    workers: u32,
    host: &mut H,
    around: Around<O, S>,
    report: R,
    blank: Blank,
) -> Result<Whole<H::Worker, H::Tick, O, S, R>, GivenUp<R>>
where
    R::Error: Send,
    requires quiet { O.has_come around.outside [] }
    requires runs { S.has_halted around.halter 0 }
    requires report { R.told report [] }
    requires untaken { R.taken report [] }
    requires name { blank.name ≡ L.name }
    requires parts { blank.parts ≡ L.parts }
    requires all { blank.parts ≡ workers + 2 }
    ensures workers { IfOk result (λ w. length w.threads.workers.keepers.items ≡ workers) }
    ensures left { IfOk result (λ w. IsNone (receipts_error w.error)
        → IsLeft R.told w.run.report w.run.asks runner w.run.journal w.run.outcome) }
    ensures once { IfOk result (λ w. IsNone (receipts_error w.error) → (k : ℕ) → k < length w.run.journal
        → times k (receipt_numbers (concatenated w.run.receipts)) ≡ 1) }
    ensures stands { IfOk result (λ w. IsNone (receipts_error w.error)
        → All (StandsIn w.run.journal) (concatenated w.run.receipts)) }
    ensures delivers { IfOk result (λ w. IsNone w.error
        → Delivers w.run.asks (handed w.threads.workers.orders w.threads.ear.halts)) }
    ensures undelivered { IfOk result (λ w. IfSome (order_fault w.error)
        (IsOrderFault w.run.asks (handed w.threads.workers.orders w.threads.ear.halts))) }
    ensures fault_kind { IfOk result (λ w. IfSome (order_fault w.error) (λ f. f ≢ OrderFault.OutOfMemory)) }
    ensures refused { IfOk result (λ w. IfSome (receipts_error w.error)
        (λ e. Refuses runner w.run.journal (concatenated w.run.receipts) e.kind)) }
    ensures kind { IfOk result (λ w. IfSome (receipts_error w.error) (λ e. e.kind ≢ CloseKind.OutOfMemory)) }
    ensures left_too { IfOk result (λ w. IfSome (receipts_error w.error)
        (λ e. IsLeftUnclosed R.told w.run.report w.run.asks runner w.run.journal e.kind)) }
    ensures no_outcome { IfOk result (λ w. IsSome (receipts_error w.error) → w.run.outcome ≡ None) }
    ensures own { IfOk result (λ w. AreAllKept H.Worker.has_heard w.threads.workers.keepers.items w.run.receipts
        w.threads.workers.lost w.threads.workers.orders) }
    ensures ticker { IfOk result (λ w. IsTickerWork H.Tick.has_told w.threads.rounds.ticker
        (length w.threads.workers.keepers.items) w.run.receipts w.threads.rounds.refused) }
    ensures listener { IfOk result (λ w. IsListenerWork O.has_come runner.plan.hearing w.threads.ear.around.outside
        (length w.threads.workers.keepers.items + 1) w.run.receipts w.threads.ear.dropped) }
    ensures halts { IfOk result
        (λ w. S.has_halted w.threads.ear.around.halter (length w.threads.ear.halts)) }
    ensures given_up { IfErr result (λ g. HasToldSome R.told g.report) }
    ensures cut_off { IfErr result (λ g. IfSome g.cut_off
        (λ c. IsLeft R.told g.report c.asks runner c.journal None)) }
    ensures third { IfErr result (λ g. IfSome g.cut_off (λ c. ComesThird c.journal c.refusal)) }
    ensures turns { IfOk result (λ w. R.taken w.run.report (turns_of w.run.journal)) }
    ensures turns_given_up { IfErr result (λ g. HasTakenSome R.taken g.report) }
    ensures turns_cut_off { IfErr result (λ g. IfSome g.cut_off (λ c. R.taken g.report (turns_of c.journal))) }
{
    let hearing = runner.settings().plan.hearing;
    let made = SharedRun::<L, R>::new(alloc, runner, report, u64::from(workers) + 2, blank);
    match made {
        Ok((shared, shares)) => {
            whole_on(rt, alloc, shared, host, shares, Heeded { around, hearing })
        }
        Err((_, report)) => {
            drop(around);
            Err(GivenUp {
                report,
                cut_off: None,
            })
        }
    }
}

/// Runs a plan, and delivers the signals that it asks: the host makes a keeper for each worker and a ticker, each runs
/// on a thread of its own, and so does who hears the outside and stops the program. Once all have ended the receipts
/// are compared with the journal, and what was handed on with what was asked. Without a worker no child starts. A run
/// that was given up gives its reporter back, and no thread is left: at a third shutdown signal with its journal, what
/// it asked and that refusal, unless it is over; and else for want of memory.
pub fn whole<
    H: KeeperHost,
    O: Outside + Send + Drop,
    S: Halter + Send + Drop,
    R: Reporter + Send,
    X: Threads + Wait + Sync,
>(
    rt: &X,
    alloc: Global,
    runner: TestRunner,
    workers: u32,
    host: &mut H,
    around: Around<O, S>,
    report: R,
) -> Result<Whole<H::Worker, H::Tick, O, S, R>, GivenUp<R>>
where
    R::Error: Send,
    requires quiet { O.has_come around.outside [] }
    requires runs { S.has_halted around.halter 0 }
    requires report { R.told report [] }
    requires untaken { R.taken report [] }
    ensures workers { IfOk result (λ w. length w.threads.workers.keepers.items ≡ workers) }
    ensures left { IfOk result (λ w. IsNone (receipts_error w.error)
        → IsLeft R.told w.run.report w.run.asks runner w.run.journal w.run.outcome) }
    ensures once { IfOk result (λ w. IsNone (receipts_error w.error) → (k : ℕ) → k < length w.run.journal
        → times k (receipt_numbers (concatenated w.run.receipts)) ≡ 1) }
    ensures stands { IfOk result (λ w. IsNone (receipts_error w.error)
        → All (StandsIn w.run.journal) (concatenated w.run.receipts)) }
    ensures delivers { IfOk result (λ w. IsNone w.error
        → Delivers w.run.asks (handed w.threads.workers.orders w.threads.ear.halts)) }
    ensures undelivered { IfOk result (λ w. IfSome (order_fault w.error)
        (IsOrderFault w.run.asks (handed w.threads.workers.orders w.threads.ear.halts))) }
    ensures fault_kind { IfOk result (λ w. IfSome (order_fault w.error) (λ f. f ≢ OrderFault.OutOfMemory)) }
    ensures refused { IfOk result (λ w. IfSome (receipts_error w.error)
        (λ e. Refuses runner w.run.journal (concatenated w.run.receipts) e.kind)) }
    ensures kind { IfOk result (λ w. IfSome (receipts_error w.error) (λ e. e.kind ≢ CloseKind.OutOfMemory)) }
    ensures left_too { IfOk result (λ w. IfSome (receipts_error w.error)
        (λ e. IsLeftUnclosed R.told w.run.report w.run.asks runner w.run.journal e.kind)) }
    ensures no_outcome { IfOk result (λ w. IsSome (receipts_error w.error) → w.run.outcome ≡ None) }
    ensures own { IfOk result (λ w. AreAllKept H.Worker.has_heard w.threads.workers.keepers.items w.run.receipts
        w.threads.workers.lost w.threads.workers.orders) }
    ensures ticker { IfOk result (λ w. IsTickerWork H.Tick.has_told w.threads.rounds.ticker
        (length w.threads.workers.keepers.items) w.run.receipts w.threads.rounds.refused) }
    ensures listener { IfOk result (λ w. IsListenerWork O.has_come runner.plan.hearing w.threads.ear.around.outside
        (length w.threads.workers.keepers.items + 1) w.run.receipts w.threads.ear.dropped) }
    ensures halts { IfOk result
        (λ w. S.has_halted w.threads.ear.around.halter (length w.threads.ear.halts)) }
    ensures given_up { IfErr result (λ g. HasToldSome R.told g.report) }
    ensures cut_off { IfErr result (λ g. IfSome g.cut_off
        (λ c. IsLeft R.told g.report c.asks runner c.journal None)) }
    ensures third { IfErr result (λ g. IfSome g.cut_off (λ c. ComesThird c.journal c.refusal)) }
    ensures turns { IfOk result (λ w. R.taken w.run.report (turns_of w.run.journal)) }
    ensures turns_given_up { IfErr result (λ g. HasTakenSome R.taken g.report) }
    ensures turns_cut_off { IfErr result (λ g. IfSome g.cut_off (λ c. R.taken g.report (turns_of c.journal))) }
{
    let blank = Blank::new(u64::from(workers) + 2);
    whole_in::<H, O, S, Brand, R, X>(rt, alloc, runner, workers, host, around, report, blank)
}
