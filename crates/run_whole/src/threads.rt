// What the threads of a run do: what each begins with, and what all leave.
ghost use Rattle.std.specs.Prelude.{◌≡◌, ◌+◌, ◌<◌, [], IfOk, IfErr, IfSome, length};
ghost use Rattle.run_whole.specs.Whole.{IsThird};
ghost use Rattle.std.specs.List.{All, sum_by};
ghost use Rattle.run_live.specs.Work.{IsOneEmpty, IsSetOut};
ghost use Rattle.run_whole.specs.Own.{IsListenerWork, IsTickerWork};
ghost use Rattle.run_whole.specs.Work.{IsEarReady, IsJobReady, IsCollected};

use crate::ear_thread::EarJob;
use crate::gathering::gather_all;
use crate::jobs::{Job, make_jobs};
use crate::left::{Around, Ended};
use crate::together::{Beside, together};
use run_capture::{List, Mem, OutOfMemory};
use run_drive::Ticker;
use run_events::{Hearing, Reporter};
use run_keep::{Beats, Halter, Keeper, KeeperHost, Outside};
use run_live::{TickJob, begin, both};
use run_shared::{Receipt, Refusal, SharedRun};
use std::alloc::Global;
use std::sync::Wait;
use std::sync::ledger::{Ledger, Share};
use std::thread::Threads;

// What all threads leave: what stands beside the receipts, the shares, and the receipts; or, of a run that was given
// up, the refusal of a third signal, if that was the cause.
pub(crate) type Outcome<W, T, O, S, L> = Result<
    (Ended<W, T, O, S>, Vec<Share<L>>, List<List<Receipt>>),
    Option<Refusal>,
>;

// What stands around the program, and what the plan hears of it.
#[derive(Drop)]
pub(crate) struct Heeded<O, S> {
    pub(crate) around: Around<O, S>,
    pub(crate) hearing: Hearing,
}

// What the workers and the ticker begin with.
fn make_all<H: KeeperHost, L: Ledger, R: Reporter>(
    rt: &impl Wait,
    alloc: Global,
    shared: &SharedRun<L, R>,
    host: &mut H,
    shares: Vec<Share<L>>,
    share: Share<L>,
) -> Mem<(Vec<Job<L, H::Worker>>, TickJob<L, H::Tick>)>
    requires each { All (λ (s : Share L). IsOneEmpty s.parts s.amount) shares.items }
    requires share { IsOneEmpty share.parts share.amount }
    ensures count { IfOk result (λ r. length r.0.items ≡ length shares.items) }
    ensures jobs { IfOk result (λ r. All (IsJobReady H.Worker.has_heard) r.0.items) }
    ensures clock { IfOk result (λ r. IsSetOut H.Tick.has_told r.1) }
{
    let jobs = make_jobs(alloc, host, shares);
    let ticker = host.ticker();
    let clock = begin(rt, alloc, shared, ticker, share, host.word());
    both(jobs, clock)
}

// Runs these threads, and answers what they leave.
fn run_jobs<
    W: Keeper + Send + Drop,
    T: Ticker + Send + Drop,
    O: Outside + Send + Drop,
    S: Halter + Send + Drop,
    L: Ledger + Send + Sync,
    R: Reporter + Send,
    X: Threads + Wait + Sync,
>(
    rt: &X,
    alloc: Global,
    shared: &SharedRun<L, R>,
    jobs: Vec<Job<L, W>>,
    beside: Beside<L, T, O, S>,
) -> Outcome<W, T, O, S, L>
where
    R::Error: Send,
    requires jobs { All (IsJobReady W.has_heard) jobs.items }
    requires clock { IsSetOut T.has_told beside.clock }
    requires ear { IsEarReady O.has_come S.has_halted beside.ear }
    ensures count { IfOk result (λ r. length r.0.workers.keepers.items ≡ length jobs.items) }
    ensures gathered { IfOk result (λ r. IsCollected W.has_heard r.0.workers.keepers.items r.2 r.0.workers.lost
        r.0.workers.orders 2 (sum_by (λ (s : Share L). s.parts) r.1.items)
        (sum_by (λ (s : Share L). s.amount) r.1.items)) }
    ensures ticker { IfOk result (λ r. IsTickerWork T.has_told r.0.rounds.ticker (length r.0.workers.keepers.items)
        r.2 r.0.rounds.refused) }
    ensures ear { IfOk result (λ r. IsListenerWork O.has_come beside.ear.hearing r.0.ear.around.outside
        (length r.0.workers.keepers.items + 1) r.2 r.0.ear.dropped) }
    ensures halts { IfOk result (λ r. S.has_halted r.0.ear.around.halter (length r.0.ear.halts)) }
    ensures third { IfErr result (λ e. IfSome e IsThird) }
{
    let hearing = beside.ear.hearing;
    let beats = Beats::new();
    match together(rt, alloc, shared, &beats, jobs, beside) {
        Ok(all) => gather_all(alloc, all, hearing),
        Err(OutOfMemory) => Err(None),
    }
}

// Runs the threads of a run: a worker for each share of the list, the ticker and the listener with theirs. Answers what
// they leave.
fn run_threads<
    H: KeeperHost,
    O: Outside + Send + Drop,
    S: Halter + Send + Drop,
    L: Ledger + Send + Sync,
    R: Reporter + Send,
    X: Threads + Wait + Sync,
>(
    rt: &X,
    alloc: Global,
    shared: &SharedRun<L, R>,
    host: &mut H,
    shares: Vec<Share<L>>,
    share: Share<L>,
    ear: EarJob<L, O, S>,
) -> Outcome<H::Worker, H::Tick, O, S, L>
where
    R::Error: Send,
    requires each { All (λ (s : Share L). IsOneEmpty s.parts s.amount) shares.items }
    requires share { IsOneEmpty share.parts share.amount }
    requires ear { IsEarReady O.has_come S.has_halted ear }
    ensures count { IfOk result (λ r. length r.0.workers.keepers.items ≡ length shares.items) }
    ensures gathered { IfOk result (λ r. IsCollected H.Worker.has_heard r.0.workers.keepers.items r.2 r.0.workers.lost
        r.0.workers.orders 2 (sum_by (λ (s : Share L). s.parts) r.1.items)
        (sum_by (λ (s : Share L). s.amount) r.1.items)) }
    ensures ticker { IfOk result (λ r. IsTickerWork H.Tick.has_told r.0.rounds.ticker (length r.0.workers.keepers.items)
        r.2 r.0.rounds.refused) }
    ensures ear { IfOk result (λ r. IsListenerWork O.has_come ear.hearing r.0.ear.around.outside
        (length r.0.workers.keepers.items + 1) r.2 r.0.ear.dropped) }
    ensures halts { IfOk result (λ r. S.has_halted r.0.ear.around.halter (length r.0.ear.halts)) }
    ensures third { IfErr result (λ e. IfSome e IsThird) }
{
    let Ok((jobs, clock)) = make_all(rt, alloc, shared, host, shares, share) else {
        drop(ear);
        return Err(None);
    };
    run_jobs(rt, alloc, shared, jobs, Beside { clock, ear })
}

// The listener's job.
fn make_ear<O, S, L: Ledger>(heeded: Heeded<O, S>, share: Share<L>, word: u32) -> EarJob<L, O, S>
    ensures around { result.around ≡ heeded.around }
    ensures hearing { result.hearing ≡ heeded.hearing }
    ensures share { result.share ≡ share }
{
    let Heeded { around, hearing } = heeded;
    EarJob {
        around,
        hearing,
        share,
        word,
    }
}

// The shares but the last two, and those.
fn last_two<L: Ledger>(shares: Vec<Share<L>>) -> (Vec<Share<L>>, Share<L>, Share<L>)
    requires each { All (λ (s : Share L). (s.parts ≡ 1) × (s.amount ≡ 0)) shares.items }
    requires some { 1 < length shares.items }
    ensures count { length result.0.items + 2 ≡ length shares.items }
    ensures each { All (λ (s : Share L). IsOneEmpty s.parts s.amount) result.0.items }
    ensures one { IsOneEmpty result.1.parts result.1.amount }
    ensures last { IsOneEmpty result.2.parts result.2.amount }
{
    let mut shares = shares;
    let Some(last) = shares.pop() else {
        unreachable!()
    };
    let Some(share) = shares.pop() else {
        unreachable!()
    };
    (shares, share, last)
}

// The same, of shares of which the last two are the ticker's and the listener's.
pub(crate) fn run_shares<
    H: KeeperHost,
    O: Outside + Send + Drop,
    S: Halter + Send + Drop,
    L: Ledger + Send + Sync,
    R: Reporter + Send,
    X: Threads + Wait + Sync,
>(
    rt: &X,
    alloc: Global,
    shared: &SharedRun<L, R>,
    host: &mut H,
    shares: Vec<Share<L>>,
    heeded: Heeded<O, S>,
) -> Outcome<H::Worker, H::Tick, O, S, L>
where
    R::Error: Send,
    requires each { All (λ (s : Share L). (s.parts ≡ 1) × (s.amount ≡ 0)) shares.items }
    requires some { 1 < length shares.items }
    requires quiet { O.has_come heeded.around.outside [] }
    requires runs { S.has_halted heeded.around.halter 0 }
    ensures count { IfOk result (λ r. length r.0.workers.keepers.items + 2 ≡ length shares.items) }
    ensures gathered { IfOk result (λ r. IsCollected H.Worker.has_heard r.0.workers.keepers.items r.2 r.0.workers.lost
        r.0.workers.orders 2 (sum_by (λ (s : Share L). s.parts) r.1.items)
        (sum_by (λ (s : Share L). s.amount) r.1.items)) }
    ensures ticker { IfOk result (λ r. IsTickerWork H.Tick.has_told r.0.rounds.ticker (length r.0.workers.keepers.items)
        r.2 r.0.rounds.refused) }
    ensures ear { IfOk result (λ r. IsListenerWork O.has_come heeded.hearing r.0.ear.around.outside
        (length r.0.workers.keepers.items + 1) r.2 r.0.ear.dropped) }
    ensures halts { IfOk result (λ r. S.has_halted r.0.ear.around.halter (length r.0.ear.halts)) }
    ensures third { IfErr result (λ e. IfSome e IsThird) }
{
    let (shares, share, last) = last_two(shares);
    let ear = make_ear(heeded, last, host.word());
    run_threads(rt, alloc, shared, host, shares, share, ear)
}
