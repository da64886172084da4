// A worker on a thread of its own.
ghost use Rattle.std.specs.Prelude.{[], IfErr};
ghost use Rattle.run_live.specs.Work.{IsOneEmpty};
ghost use Rattle.run_whole.specs.Work.{HasKept, IsJobReady};

use crate::jobs::Job;
use run_events::Reporter;
use run_keep::{Beats, Keeper, Kept, keep};
use run_shared::SharedRun;
use std::alloc::Global;
use std::sync::Wait;
use std::sync::ledger::{Ledger, Share};
use std::thread::{Promise, PromisedHandle, Scope, Threads};

// What a worker's thread leaves: its keeper, its share, and its work, or none where memory was wanting.
#[derive(Drop)]
pub(crate) struct Done<L: Ledger, W> {
    pub(crate) worker: W,
    pub(crate) share: Share<L>,
    pub(crate) work: Option<Kept>,
}

// That the receipts are those that the share counts, and that they, the refusals and the orders tell what the keeper
// heard.
#[derive(Clone, Copy)]
pub(crate) struct OwnWork;

impl<L: Ledger, W: Keeper> Promise<Done<L, W>> for OwnWork {
    ghost kept_by = { λ p d. HasKept W.has_heard d };
}

// Works on the run until the worker is done.
#[tactic(auto, using(crate::proofs::OwnLemmas::own_of))]
fn work<W: Keeper, L: Ledger, R: Reporter>(
    rt: &impl Wait,
    alloc: Global,
    shared: &SharedRun<L, R>,
    beats: &Beats,
    job: Job<L, W>,
) -> Done<L, W>
    requires worker { W.has_heard job.worker [] }
    requires share { IsOneEmpty job.share.parts job.share.amount }
    ensures { HasKept W.has_heard result }
{
    let Job {
        mut worker,
        mut share,
        word,
    } = job;
    match keep(rt, alloc, shared, beats, &mut worker, &mut share, word) {
        Ok(work) => Done {
            worker,
            share,
            work: Some(work),
        },
        Err(_) => Done {
            worker,
            share,
            work: None,
        },
    }
}

// Starts a worker's thread. Where none can be made the run is given up, so that the worker ends here at once.
pub(crate) fn start<
    's,
    E,
    W: Keeper + Send + Drop + 's,
    L: Ledger + Send + Sync + 's,
    R: Reporter + Send + 's,
    X: Threads + Wait + Sync,
>(
    scope: &Scope<'s, E>,
    rt: &'s X,
    alloc: Global,
    shared: &'s SharedRun<L, R>,
    beats: &'s Beats,
    job: Job<L, W>,
) -> Result<PromisedHandle<Done<L, W>, OwnWork>, Done<L, W>>
where
    R::Error: Send,
    requires worker { W.has_heard job.worker [] }
    requires share { IsOneEmpty job.share.parts job.share.amount }
    ensures { IfErr result (HasKept W.has_heard) }
{
    let run = move || -> Done<L, W>
        requires { IsJobReady W.has_heard job }
        ensures { HasKept W.has_heard result }
    { work(rt, alloc, shared, beats, job) };
    match scope.spawn_with(OwnWork, run) {
        Ok(handle) => Ok(handle),
        Err(refused) => {
            shared.give_up(rt);
            Err((refused.value)())
        }
    }
}
