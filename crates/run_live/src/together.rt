// The threads of a run, and their end.
ghost use Rattle.std.specs.Prelude.{◌≡◌, [], IfOk, IfErr, Result, ◌≤◌, vec_len, vec_capacity};
ghost use Rattle.std.specs.List.{All};
ghost use Rattle.run_live.specs.Work.{HasTicked, HasWorked, IsFresh, IsSetOut};

use crate::jobs::{Job, TickJob};
use crate::pieces::both;
use crate::ticker_thread::{Ticked, end_ticker, start_ticker};
use crate::worker_thread::{Done, OwnWork, start};
use run_capture::{Mem, OutOfMemory};
use run_drive::{Spawner, Ticker};
use run_events::Reporter;
use run_shared::SharedRun;
use std::alloc::Global;
use std::sync::Wait;
use std::sync::ledger::Ledger;
use std::thread;
use std::thread::{PromisedHandle, Scope, Threads};

// A worker on its thread, or what it left where no thread could be made.
type Running<L, W> = Result<PromisedHandle<Done<L, W>, OwnWork>, Done<L, W>>;

// Starts a thread for each job, and puts them in this list.
fn start_each<
    's,
    E,
    W: Spawner + Send + Drop + 's,
    L: Ledger + Send + Sync + 's,
    R: Reporter + Send + 's,
    X: Threads + Wait + Sync,
>(
    scope: &Scope<'s, E>,
    rt: &'s X,
    alloc: Global,
    shared: &'s SharedRun<L, R>,
    jobs: Vec<Job<L, W>>,
    all: Vec<Running<L, W>>,
) -> Vec<Running<L, W>>
where
    R::Error: Send,
    requires jobs { All (IsFresh W.has_said) jobs.items }
    requires empty { all.items ≡ [] }
    requires room { vec_len jobs ≤ vec_capacity all }
    ensures count { vec_len result ≡ vec_len jobs }
    ensures each { All (λ r. IfErr r (HasWorked W.has_said)) result.items }
{
    let mut all = all;
    for job in jobs {
        all.push_reserved(start(scope, rt, alloc, shared, job));
    }
    all
}

// Starts a thread for each job.
fn start_all<
    's,
    E,
    W: Spawner + Send + Drop + 's,
    L: Ledger + Send + Sync + 's,
    R: Reporter + Send + 's,
    X: Threads + Wait + Sync,
>(
    scope: &Scope<'s, E>,
    rt: &'s X,
    alloc: Global,
    shared: &'s SharedRun<L, R>,
    jobs: Vec<Job<L, W>>,
) -> Mem<Vec<Running<L, W>>>
where
    R::Error: Send,
    requires { All (IsFresh W.has_said) jobs.items }
    ensures count { IfOk result (λ all. vec_len all ≡ vec_len jobs) }
    ensures each { IfOk result (λ all. All (λ r. IfErr r (HasWorked W.has_said)) all.items) }
{
    let Ok(all) = Vec::with_capacity(alloc, jobs.len()) else {
        drop(jobs);
        return Err(OutOfMemory);
    };
    Ok(start_each(scope, rt, alloc, shared, jobs, all))
}

// What a worker leaves, once its thread has ended.
fn join_one<W: Spawner + Drop, L: Ledger>(rt: &impl Threads, running: Running<L, W>) -> Done<L, W>
    requires { IfErr running (HasWorked W.has_said) }
    ensures { HasWorked W.has_said result }
{
    match running {
        Ok(handle) => handle.join(rt),
        Err(ended) => ended,
    }
}

// What each worker leaves, in order.
fn join_all<W: Spawner + Drop, L: Ledger>(
    rt: &impl Threads,
    alloc: Global,
    running: Vec<Running<L, W>>,
) -> Mem<Vec<Done<L, W>>>
    requires { All (λ r. IfErr r (HasWorked W.has_said)) running.items }
    ensures count { IfOk result (λ all. vec_len all ≡ vec_len running) }
    ensures each { IfOk result (λ all. All (HasWorked W.has_said) all.items) }
{
    let Ok(mut all) = Vec::with_capacity(alloc, running.len()) else {
        drop(running);
        return Err(OutOfMemory);
    };
    for one in running {
        all.push_reserved(join_one(rt, one));
    }
    Ok(all)
}

// Starts the workers and waits for them. Where memory is wanting the run is given up, so that each thread ends.
fn run_workers<
    's,
    E,
    W: Spawner + Send + Drop + 's,
    L: Ledger + Send + Sync + 's,
    R: Reporter + Send + 's,
    X: Threads + Wait + Sync,
>(
    scope: &Scope<'s, E>,
    rt: &'s X,
    alloc: Global,
    shared: &'s SharedRun<L, R>,
    jobs: Vec<Job<L, W>>,
) -> Mem<Vec<Done<L, W>>>
where
    R::Error: Send,
    requires { All (IsFresh W.has_said) jobs.items }
    ensures count { IfOk result (λ all. vec_len all ≡ vec_len jobs) }
    ensures each { IfOk result (λ all. All (HasWorked W.has_said) all.items) }
{
    let Ok(running) = start_all(scope, rt, alloc, shared, jobs) else {
        shared.give_up(rt);
        return Err(OutOfMemory);
    };
    let Ok(done) = join_all(rt, alloc, running) else {
        shared.give_up(rt);
        return Err(OutOfMemory);
    };
    Ok(done)
}

// Starts the ticker and the workers, and waits for the workers and then for the ticker.
fn in_scope<
    's,
    E,
    W: Spawner + Send + Drop + 's,
    T: Ticker + Send + Drop + 's,
    L: Ledger + Send + Sync + 's,
    R: Reporter + Send + 's,
    X: Threads + Wait + Sync,
>(
    scope: &Scope<'s, E>,
    rt: &'s X,
    alloc: Global,
    shared: &'s SharedRun<L, R>,
    jobs: Vec<Job<L, W>>,
    clock: TickJob<L, T>,
) -> Mem<(Vec<Done<L, W>>, Ticked<L, T>)>
where
    R::Error: Send,
    requires jobs { All (IsFresh W.has_said) jobs.items }
    requires clock { IsSetOut T.has_told clock }
    ensures count { IfOk result (λ r. vec_len r.0 ≡ vec_len jobs) }
    ensures each { IfOk result (λ r. All (HasWorked W.has_said) r.0.items) }
    ensures clock { IfOk result (λ r. HasTicked T.has_told r.1) }
{
    let ticking = start_ticker(scope, rt, alloc, shared, clock);
    let done = run_workers(scope, rt, alloc, shared, jobs);
    both(done, Ok(end_ticker(rt, ticking)))
}

// Runs each job and the ticker on a thread of its own, and answers once all have ended.
pub(crate) fn together<
    W: Spawner + Send + Drop,
    T: Ticker + Send + Drop,
    L: Ledger + Send + Sync,
    R: Reporter + Send,
    X: Threads + Wait + Sync,
>(
    rt: &X,
    alloc: Global,
    shared: &SharedRun<L, R>,
    jobs: Vec<Job<L, W>>,
    clock: TickJob<L, T>,
) -> Mem<(Vec<Done<L, W>>, Ticked<L, T>)>
where
    R::Error: Send,
    requires jobs { All (IsFresh W.has_said) jobs.items }
    requires clock { IsSetOut T.has_told clock }
    ensures count { IfOk result (λ r. vec_len r.0 ≡ vec_len jobs) }
    ensures each { IfOk result (λ r. All (HasWorked W.has_said) r.0.items) }
    ensures clock { IfOk result (λ r. HasTicked T.has_told r.1) }
{
    thread::scope(
        thread::scope_env(),
        rt,
        move |scope| -> Mem<(Vec<Done<L, W>>, Ticked<L, T>)>
            requires { All (IsFresh W.has_said) jobs.items
                × IsSetOut T.has_told clock }
            ensures { IfOk result (λ r. vec_len r.0 ≡ vec_len jobs)
                × IfOk result (λ r. All (HasWorked W.has_said) r.0.items)
                × IfOk result (λ r. HasTicked T.has_told r.1) }
        { in_scope(scope, rt, alloc, shared, jobs, clock) },
    )
}
