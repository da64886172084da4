// The threads of a run, and their end.
ghost use Rattle.std.specs.Prelude.{◌≡◌, IfOk, vec_len};
ghost use Rattle.std.specs.List.{All};
ghost use Rattle.run_live.specs.Work.{IsSetOut};
ghost use Rattle.run_whole.specs.Work.{HasListened, HasTimed, HasKept, IsEarReady, IsJobReady};

use crate::ear_thread::{EarJob, Listening, end_ear, start_ear};
use crate::jobs::Job;
use crate::starting::run_workers;
use crate::ticker_thread::{Timed, end_ticker, start_ticker};
use crate::worker_thread::Done;
use run_capture::Mem;
use run_drive::Ticker;
use run_events::Reporter;
use run_keep::{Beats, Halter, Keeper, Outside};
use run_live::{TickJob, both};
use run_shared::SharedRun;
use std::alloc::Global;
use std::sync::Wait;
use std::sync::ledger::Ledger;
use std::thread;
use std::thread::{Scope, Threads};

// What the ticker's and the listener's threads begin with.
#[derive(Drop)]
pub(crate) struct Beside<L: Ledger, T, O, S> {
    pub(crate) clock: TickJob<L, T>,
    pub(crate) ear: EarJob<L, O, S>,
}

// What all threads leave: the workers and the ticker, and the listener.
pub(crate) type AllDone<L, W, T, O, S> = ((Vec<Done<L, W>>, Timed<L, T>), Listening<L, O, S>);

// Starts the ticker and the workers, and waits for the workers and then for the ticker.
fn with_ticker<
    's,
    E,
    W: Keeper + Send + Drop + 's,
    T: Ticker + Send + Drop + 's,
    L: Ledger + Send + Sync + 's,
    R: Reporter + Send + 's,
    X: Threads + Wait + Sync,
>(
    scope: &Scope<'s, E>,
    rt: &'s X,
    alloc: Global,
    shared: &'s SharedRun<L, R>,
    beats: &'s Beats,
    jobs: Vec<Job<L, W>>,
    clock: TickJob<L, T>,
) -> Mem<(Vec<Done<L, W>>, Timed<L, T>)>
where
    R::Error: Send,
    requires jobs { All (IsJobReady W.has_heard) jobs.items }
    requires clock { IsSetOut T.has_told clock }
    ensures count { IfOk result (λ r. vec_len r.0 ≡ vec_len jobs) }
    ensures each { IfOk result (λ r. All (HasKept W.has_heard) r.0.items) }
    ensures clock { IfOk result (λ r. HasTimed T.has_told r.1) }
{
    let ticking = start_ticker(scope, rt, alloc, shared, beats, clock);
    let done = run_workers(scope, rt, alloc, shared, beats, jobs);
    both(done, Ok(end_ticker(rt, ticking)))
}

// Starts the listener and the others, and waits for them and then for the listener.
fn in_scope<
    's,
    E,
    W: Keeper + Send + Drop + 's,
    T: Ticker + Send + Drop + 's,
    O: Outside + Send + Drop + 's,
    S: Halter + Send + Drop + 's,
    L: Ledger + Send + Sync + 's,
    R: Reporter + Send + 's,
    X: Threads + Wait + Sync,
>(
    scope: &Scope<'s, E>,
    rt: &'s X,
    alloc: Global,
    shared: &'s SharedRun<L, R>,
    beats: &'s Beats,
    jobs: Vec<Job<L, W>>,
    beside: Beside<L, T, O, S>,
) -> Mem<AllDone<L, W, T, O, S>>
where
    R::Error: Send,
    requires jobs { All (IsJobReady W.has_heard) jobs.items }
    requires clock { IsSetOut T.has_told beside.clock }
    requires ear { IsEarReady O.has_come S.has_halted beside.ear }
    ensures count { IfOk result (λ r. vec_len r.0.0 ≡ vec_len jobs) }
    ensures each { IfOk result (λ r. All (HasKept W.has_heard) r.0.0.items) }
    ensures clock { IfOk result (λ r. HasTimed T.has_told r.0.1) }
    ensures ear { IfOk result (λ r. HasListened O.has_come S.has_halted beside.ear.hearing r.1) }
{
    let Beside { clock, ear } = beside;
    let hearing = ear.hearing;
    let listening = start_ear(scope, rt, alloc, shared, beats, ear);
    let others = with_ticker(scope, rt, alloc, shared, beats, jobs, clock);
    both(others, Ok(end_ear(rt, listening, hearing)))
}

// Runs each job, the ticker and the listener on a thread of its own, and answers once all have ended.
pub(crate) fn together<
    W: Keeper + Send + Drop,
    T: Ticker + Send + Drop,
    O: Outside + Send + Drop,
    S: Halter + Send + Drop,
    L: Ledger + Send + Sync,
    R: Reporter + Send,
    X: Threads + Wait + Sync,
>(
    rt: &X,
    alloc: Global,
    shared: &SharedRun<L, R>,
    beats: &Beats,
    jobs: Vec<Job<L, W>>,
    beside: Beside<L, T, O, S>,
) -> Mem<AllDone<L, W, T, O, S>>
where
    R::Error: Send,
    requires jobs { All (IsJobReady W.has_heard) jobs.items }
    requires clock { IsSetOut T.has_told beside.clock }
    requires ear { IsEarReady O.has_come S.has_halted beside.ear }
    ensures count { IfOk result (λ r. vec_len r.0.0 ≡ vec_len jobs) }
    ensures each { IfOk result (λ r. All (HasKept W.has_heard) r.0.0.items) }
    ensures clock { IfOk result (λ r. HasTimed T.has_told r.0.1) }
    ensures ear { IfOk result (λ r. HasListened O.has_come S.has_halted beside.ear.hearing r.1) }
{
    thread::scope(
        thread::scope_env(),
        rt,
        move |scope| -> Mem<AllDone<L, W, T, O, S>>
            requires { All (IsJobReady W.has_heard) jobs.items
                × IsSetOut T.has_told beside.clock
                × IsEarReady O.has_come S.has_halted beside.ear }
            ensures { IfOk result (λ r. vec_len r.0.0 ≡ vec_len jobs)
                × IfOk result (λ r. All (HasKept W.has_heard) r.0.0.items)
                × IfOk result (λ r. HasTimed T.has_told r.0.1)
                × IfOk result (λ r. HasListened O.has_come S.has_halted beside.ear.hearing r.1) }
        { in_scope(scope, rt, alloc, shared, beats, jobs, beside) },
    )
}
