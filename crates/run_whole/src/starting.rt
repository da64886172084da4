// The workers' threads, and their end.
ghost use Rattle.std.specs.Prelude.{◌≡◌, [], IfOk, IfErr, Result, ◌≤◌, vec_len, vec_capacity};
ghost use Rattle.std.specs.List.{All};
ghost use Rattle.run_whole.specs.Work.{HasKept, IsJobReady};

use crate::jobs::Job;
use crate::worker_thread::{Done, OwnWork, start};
use run_capture::{Mem, OutOfMemory};
use run_events::Reporter;
use run_keep::{Beats, Keeper};
use run_shared::SharedRun;
use std::alloc::Global;
use std::sync::Wait;
use std::sync::ledger::Ledger;
use std::thread::{PromisedHandle, Scope, Threads};

// A worker on its thread, or what it left where no thread could be made.
type Running<L, W> = Result<PromisedHandle<Done<L, W>, OwnWork>, Done<L, W>>;

// Starts a thread for each job, and puts them in this list.
fn start_each<
    's,
    E,
    W: Keeper + Send + Drop + 's,
    L: Ledger + Send + Sync + 's,
    R: Reporter + Send + 's,
    X: Threads + Wait + Sync,
>(
    scope: &Scope<'s, E>,
    rt: &'s X,
    alloc: Global,
    shared: &'s SharedRun<L, R>,
    beats: &'s Beats,
    jobs: Vec<Job<L, W>>,
    all: Vec<Running<L, W>>,
) -> Vec<Running<L, W>>
where
    R::Error: Send,
    requires jobs { All (IsJobReady W.has_heard) jobs.items }
    requires empty { all.items ≡ [] }
    requires room { vec_len jobs ≤ vec_capacity all }
    ensures count { vec_len result ≡ vec_len jobs }
    ensures each { All (λ r. IfErr r (HasKept W.has_heard)) result.items }
{
    let mut all = all;
    for job in jobs {
        all.push_reserved(start(scope, rt, alloc, shared, beats, job));
    }
    all
}

// Starts a thread for each job.
fn start_all<
    's,
    E,
    W: Keeper + Send + Drop + 's,
    L: Ledger + Send + Sync + 's,
    R: Reporter + Send + 's,
    X: Threads + Wait + Sync,
>(
    scope: &Scope<'s, E>,
    rt: &'s X,
    alloc: Global,
    shared: &'s SharedRun<L, R>,
    beats: &'s Beats,
    jobs: Vec<Job<L, W>>,
) -> Mem<Vec<Running<L, W>>>
where
    R::Error: Send,
    requires { All (IsJobReady W.has_heard) jobs.items }
    ensures count { IfOk result (λ all. vec_len all ≡ vec_len jobs) }
    ensures each { IfOk result (λ all. All (λ r. IfErr r (HasKept W.has_heard)) all.items) }
{
    let Ok(all) = Vec::with_capacity(alloc, jobs.len()) else {
        drop(jobs);
        return Err(OutOfMemory);
    };
    Ok(start_each(scope, rt, alloc, shared, beats, jobs, all))
}

// What a worker leaves, once its thread has ended.
fn join_one<W: Keeper + Drop, L: Ledger>(rt: &impl Threads, running: Running<L, W>) -> Done<L, W>
    requires { IfErr running (HasKept W.has_heard) }
    ensures { HasKept W.has_heard result }
{
    match running {
        Ok(handle) => handle.join(rt),
        Err(ended) => ended,
    }
}

// What each worker leaves, in order.
fn join_all<W: Keeper + Drop, L: Ledger>(
    rt: &impl Threads,
    alloc: Global,
    running: Vec<Running<L, W>>,
) -> Mem<Vec<Done<L, W>>>
    requires { All (λ r. IfErr r (HasKept W.has_heard)) running.items }
    ensures count { IfOk result (λ all. vec_len all ≡ vec_len running) }
    ensures each { IfOk result (λ all. All (HasKept W.has_heard) all.items) }
{
    let Ok(mut all) = Vec::with_capacity(alloc, running.len()) else {
        drop(running);
        return Err(OutOfMemory);
    };
    for one in running {
        all.push_reserved(join_one(rt, one));
    }
    Ok(all)
}

// Starts the workers and waits for them. Where memory is wanting the run is given up, so that each thread ends.
pub(crate) fn run_workers<
    's,
    E,
    W: Keeper + Send + Drop + 's,
    L: Ledger + Send + Sync + 's,
    R: Reporter + Send + 's,
    X: Threads + Wait + Sync,
>(
    scope: &Scope<'s, E>,
    rt: &'s X,
    alloc: Global,
    shared: &'s SharedRun<L, R>,
    beats: &'s Beats,
    jobs: Vec<Job<L, W>>,
) -> Mem<Vec<Done<L, W>>>
where
    R::Error: Send,
    requires { All (IsJobReady W.has_heard) jobs.items }
    ensures count { IfOk result (λ all. vec_len all ≡ vec_len jobs) }
    ensures each { IfOk result (λ all. All (HasKept W.has_heard) all.items) }
{
    let Ok(running) = start_all(scope, rt, alloc, shared, beats, jobs) else {
        shared.give_up(rt);
        return Err(OutOfMemory);
    };
    let Ok(done) = join_all(rt, alloc, running) else {
        shared.give_up(rt);
        return Err(OutOfMemory);
    };
    Ok(done)
}
