// A run of real children, from its first turn to what it leaves.
ghost use Rattle.std.specs.Prelude.{◌≡◌, ◌≢◌, ◌+◌, ◌<◌, ℕ, [], IfOk, IfErr, IfSome, IsSome, IsNone, None, length};
ghost use Rattle.std.specs.List.{All, sum_by};
ghost use Rattle.run_model.specs.Words.{times};
ghost use Rattle.run_shared.specs.Receipts.{concatenated, receipt_numbers, StandsIn};
ghost use Rattle.run_shared.specs.Closed.{IsLeft, IsLeftUnclosed, Refuses};
ghost use Rattle.run_laws.specs.Course.{turns_of};
ghost use Rattle.run_live.specs.Left.{HasToldSome, HasTakenSome};
ghost use Rattle.run_live.specs.Own.{IsLive, IsTicker};
ghost use Rattle.run_live.specs.Work.{IsOneEmpty, IsFresh, IsSetOut, IsWholeWork};

use crate::ending::{finish, report_of};
use crate::gathering::{Gathered, gather_all};
use crate::jobs::{Job, TickJob, make_jobs};
use crate::lived::Lived;
use crate::pieces::both;
use crate::ticker_thread::begin;
use crate::together::together;
use run_capture::Mem;
use run_drive::{Host, Spawner, Ticker};
use run_engine::TestRunner;
use run_events::Reporter;
use run_shared::{CloseKind, SharedRun};
use std::alloc::Global;
use std::marker::Brand;
use std::sync::Wait;
use std::sync::ledger::{Blank, Ledger, Share};
use std::thread::Threads;

// What the threads of a run begin with: a worker for each share but the last, and the ticker with that.
fn make_all<H: Host, L: Ledger, R: Reporter>(
    rt: &impl Wait,
    alloc: Global,
    shared: &SharedRun<L, R>,
    host: &mut H,
    shares: Vec<Share<L>>,
    share: Share<L>,
) -> Mem<(Vec<Job<L, H::Worker>>, TickJob<L, H::Tick>)>
    requires each { All (λ (s : Share L). IsOneEmpty s.parts s.amount) shares.items }
    requires share { IsOneEmpty share.parts share.amount }
    ensures count { IfOk result (λ r. length r.0.items ≡ length shares.items) }
    ensures jobs { IfOk result (λ r. All (IsFresh H.Worker.has_said) r.0.items) }
    ensures clock { IfOk result (λ r. IsSetOut H.Tick.has_told r.1) }
{
    let jobs = make_jobs(alloc, host, shares);
    let ticker = host.ticker();
    let clock = begin(rt, alloc, shared, ticker, share, host.word());
    both(jobs, clock)
}

// Runs these threads, and answers what they leave.
fn run_jobs<
    W: Spawner + Send + Drop,
    T: Ticker + Send + Drop,
    L: Ledger + Send + Sync,
    R: Reporter + Send,
    X: Threads + Wait + Sync,
>(
    rt: &X,
    alloc: Global,
    shared: &SharedRun<L, R>,
    jobs: Vec<Job<L, W>>,
    clock: TickJob<L, T>,
) -> Mem<(Gathered<L, W>, T)>
where
    R::Error: Send,
    requires jobs { All (IsFresh W.has_said) jobs.items }
    requires clock { IsSetOut T.has_told clock }
    ensures count { IfOk result (λ g. length g.0.workers.items ≡ length jobs.items) }
    ensures whole { IfOk result (λ g. IsWholeWork W.has_said g.0.workers.items g.0.receipts g.0.refused
        (sum_by (λ (s : Share L). s.parts) g.0.shares.items)
        (sum_by (λ (s : Share L). s.amount) g.0.shares.items)) }
    ensures ticker { IfOk result (λ g. IsTicker T.has_told g.1 (length g.0.workers.items) g.0.receipts
        g.0.refused) }
{
    let (done, ticked) = together(rt, alloc, shared, jobs, clock)?;
    gather_all(alloc, done, ticked)
}

// Runs the threads of a run: a worker for each share but the last, and the ticker with that. Answers what they leave.
fn run_threads<H: Host, L: Ledger + Send + Sync, R: Reporter + Send, X: Threads + Wait + Sync>(
    rt: &X,
    alloc: Global,
    shared: &SharedRun<L, R>,
    host: &mut H,
    shares: Vec<Share<L>>,
    share: Share<L>,
) -> Mem<(Gathered<L, H::Worker>, H::Tick)>
where
    R::Error: Send,
    requires each { All (λ (s : Share L). IsOneEmpty s.parts s.amount) shares.items }
    requires share { IsOneEmpty share.parts share.amount }
    ensures count { IfOk result (λ g. length g.0.workers.items ≡ length shares.items) }
    ensures whole { IfOk result (λ g. IsWholeWork H.Worker.has_said g.0.workers.items g.0.receipts g.0.refused
        (sum_by (λ (s : Share L). s.parts) g.0.shares.items)
        (sum_by (λ (s : Share L). s.amount) g.0.shares.items)) }
    ensures ticker { IfOk result (λ g. IsTicker H.Tick.has_told g.1 (length g.0.workers.items) g.0.receipts
        g.0.refused) }
{
    let (jobs, clock) = make_all(rt, alloc, shared, host, shares, share)?;
    run_jobs(rt, alloc, shared, jobs, clock)
}

// The same, of shares of which the last is the ticker's.
fn run_shares<H: Host, L: Ledger + Send + Sync, R: Reporter + Send, X: Threads + Wait + Sync>(
    rt: &X,
    alloc: Global,
    shared: &SharedRun<L, R>,
    host: &mut H,
    shares: Vec<Share<L>>,
) -> Mem<(Gathered<L, H::Worker>, H::Tick)>
where
    R::Error: Send,
    requires each { All (λ (s : Share L). (s.parts ≡ 1) × (s.amount ≡ 0)) shares.items }
    requires some { 0 < length shares.items }
    ensures count { IfOk result (λ g. length g.0.workers.items + 1 ≡ length shares.items) }
    ensures whole { IfOk result (λ g. IsWholeWork H.Worker.has_said g.0.workers.items g.0.receipts g.0.refused
        (sum_by (λ (s : Share L). s.parts) g.0.shares.items)
        (sum_by (λ (s : Share L). s.amount) g.0.shares.items)) }
    ensures ticker { IfOk result (λ g. IsTicker H.Tick.has_told g.1 (length g.0.workers.items) g.0.receipts
        g.0.refused) }
{
    let mut shares = shares;
    match shares.pop() {
        Some(share) => run_threads(rt, alloc, shared, host, shares, share),
        None => unreachable!(),
    }
}

// The run of real children on a shared run that was made, with its shares.
fn live_on<H: Host, L: Ledger + Send + Sync, R: Reporter + Send, X: Threads + Wait + Sync>(
    rt: &X,
    alloc: Global,
    shared: SharedRun<L, R>,
    host: &mut H,
    shares: Vec<Share<L>>,
) -> Result<Lived<H::Worker, H::Tick, R>, R>
where
    R::Error: Send,
    requires each { All (λ (s : Share L). (s.parts ≡ 1) × (s.amount ≡ 0)) shares.items }
    requires some { 0 < length shares.items }
    requires parts { length shares.items ≡ L.parts }
    ensures workers { IfOk result (λ l. length l.live.workers.items + 1 ≡ length shares.items) }
    ensures left { IfOk result (λ l. IsNone l.live.error
        → IsLeft R.told l.report l.asks shared l.live.journal l.outcome) }
    ensures once { IfOk result (λ l. IsNone l.live.error → (k : ℕ) → k < length l.live.journal
        → times k (receipt_numbers (concatenated l.live.receipts)) ≡ 1) }
    ensures stands { IfOk result (λ l. IsNone l.live.error
        → All (StandsIn l.live.journal) (concatenated l.live.receipts)) }
    ensures refused { IfOk result (λ l. IfSome l.live.error
        (λ e. Refuses shared l.live.journal (concatenated l.live.receipts) e.kind)) }
    ensures kind { IfOk result (λ l. IfSome l.live.error (λ e. e.kind ≢ CloseKind.OutOfMemory)) }
    ensures left_too { IfOk result (λ l. IfSome l.live.error
        (λ e. IsLeftUnclosed R.told l.report l.asks shared l.live.journal e.kind)) }
    ensures no_outcome { IfOk result (λ l. IsSome l.live.error → l.outcome ≡ None) }
    ensures own { IfOk result
        (λ l. IsLive H.Worker.has_said l.live.workers.items l.live.receipts l.live.refused) }
    ensures ticker { IfOk result (λ l. IsTicker H.Tick.has_told l.ticker (length l.live.workers.items)
        l.live.receipts l.live.refused) }
    ensures given_up { IfErr result (HasToldSome R.told) }
    ensures turns { IfOk result (λ l. R.taken l.report (turns_of l.live.journal)) }
    ensures turns_given_up { IfErr result (HasTakenSome R.taken) }
{
    match run_shares(rt, alloc, &shared, host, shares) {
        Ok((all, ticker)) => finish(alloc, shared, all, ticker),
        Err(_) => Err(report_of(alloc, shared)),
    }
}

// The run of real children, counted by a ledger with a part for each worker and one for the ticker.
fn live_in<H: Host, L: Ledger + Send + Sync, R: Reporter + Send, X: Threads + Wait + Sync>(
    rt: &X,
    alloc: Global,
    runner: TestRunner,
    workers: u32,
    host: &mut H,
    report: R,
    blank: Blank,
) -> Result<Lived<H::Worker, H::Tick, R>, R>
where
    R::Error: Send,
    requires report { R.told report [] }
    requires untaken { R.taken report [] }
    requires name { blank.name ≡ L.name }
    requires parts { blank.parts ≡ L.parts }
    requires all { blank.parts ≡ workers + 1 }
    ensures workers { IfOk result (λ l. length l.live.workers.items ≡ workers) }
    ensures left { IfOk result (λ l. IsNone l.live.error
        → IsLeft R.told l.report l.asks runner l.live.journal l.outcome) }
    ensures once { IfOk result (λ l. IsNone l.live.error → (k : ℕ) → k < length l.live.journal
        → times k (receipt_numbers (concatenated l.live.receipts)) ≡ 1) }
    ensures stands { IfOk result (λ l. IsNone l.live.error
        → All (StandsIn l.live.journal) (concatenated l.live.receipts)) }
    ensures refused { IfOk result (λ l. IfSome l.live.error
        (λ e. Refuses runner l.live.journal (concatenated l.live.receipts) e.kind)) }
    ensures kind { IfOk result (λ l. IfSome l.live.error (λ e. e.kind ≢ CloseKind.OutOfMemory)) }
    ensures left_too { IfOk result (λ l. IfSome l.live.error
        (λ e. IsLeftUnclosed R.told l.report l.asks runner l.live.journal e.kind)) }
    ensures no_outcome { IfOk result (λ l. IsSome l.live.error → l.outcome ≡ None) }
    ensures own { IfOk result
        (λ l. IsLive H.Worker.has_said l.live.workers.items l.live.receipts l.live.refused) }
    ensures ticker { IfOk result (λ l. IsTicker H.Tick.has_told l.ticker (length l.live.workers.items)
        l.live.receipts l.live.refused) }
    ensures given_up { IfErr result (HasToldSome R.told) }
    ensures turns { IfOk result (λ l. R.taken l.report (turns_of l.live.journal)) }
    ensures turns_given_up { IfErr result (HasTakenSome R.taken) }
{
    let made = SharedRun::<L, R>::new(alloc, runner, report, u64::from(workers) + 1, blank);
    match made {
        Ok((shared, shares)) => live_on(rt, alloc, shared, host, shares),
        Err((_, report)) => Err(report),
    }
}

/// Runs a plan with real children: the host makes a spawner for each worker and a ticker, each runs on a thread of its
/// own, and once all have ended the receipts are compared with the journal. Without a worker no child starts. Where
/// memory was wanting the reporter alone comes back, and no thread is left.
pub fn live<H: Host, R: Reporter + Send, X: Threads + Wait + Sync>(
    rt: &X,
    alloc: Global,
    runner: TestRunner,
    workers: u32,
    host: &mut H,
    report: R,
) -> Result<Lived<H::Worker, H::Tick, R>, R>
where
    R::Error: Send,
    requires report { R.told report [] }
    requires untaken { R.taken report [] }
    ensures workers { IfOk result (λ l. length l.live.workers.items ≡ workers) }
    ensures left { IfOk result (λ l. IsNone l.live.error
        → IsLeft R.told l.report l.asks runner l.live.journal l.outcome) }
    ensures once { IfOk result (λ l. IsNone l.live.error → (k : ℕ) → k < length l.live.journal
        → times k (receipt_numbers (concatenated l.live.receipts)) ≡ 1) }
    ensures stands { IfOk result (λ l. IsNone l.live.error
        → All (StandsIn l.live.journal) (concatenated l.live.receipts)) }
    ensures refused { IfOk result (λ l. IfSome l.live.error
        (λ e. Refuses runner l.live.journal (concatenated l.live.receipts) e.kind)) }
    ensures kind { IfOk result (λ l. IfSome l.live.error (λ e. e.kind ≢ CloseKind.OutOfMemory)) }
    ensures left_too { IfOk result (λ l. IfSome l.live.error
        (λ e. IsLeftUnclosed R.told l.report l.asks runner l.live.journal e.kind)) }
    ensures no_outcome { IfOk result (λ l. IsSome l.live.error → l.outcome ≡ None) }
    ensures own { IfOk result
        (λ l. IsLive H.Worker.has_said l.live.workers.items l.live.receipts l.live.refused) }
    ensures ticker { IfOk result (λ l. IsTicker H.Tick.has_told l.ticker (length l.live.workers.items)
        l.live.receipts l.live.refused) }
    ensures given_up { IfErr result (HasToldSome R.told) }
    ensures turns { IfOk result (λ l. R.taken l.report (turns_of l.live.journal)) }
    ensures turns_given_up { IfErr result (HasTakenSome R.taken) }
{
    let blank = Blank::new(u64::from(workers) + 1);
    live_in::<H, Brand, R, X>(rt, alloc, runner, workers, host, report, blank)
}
