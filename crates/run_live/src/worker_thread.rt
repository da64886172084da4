// A worker on a thread of its own.
ghost use Rattle.std.specs.Prelude.{[], IfErr};
ghost use Rattle.run_live.specs.Work.{HasWorked, IsOneEmpty, IsFresh};

use crate::jobs::Job;
use run_drive::{Spawner, Work, drive};
use run_events::Reporter;
use run_shared::SharedRun;
use std::alloc::Global;
use std::sync::Wait;
use std::sync::ledger::{Ledger, Share};
use std::thread::{Promise, PromisedHandle, Scope, Threads};

// What a worker's thread leaves: its spawner, its share, and its work, or none where memory was wanting.
#[derive(Drop)]
pub(crate) struct Done<L: Ledger, W> {
    pub(crate) worker: W,
    pub(crate) share: Share<L>,
    pub(crate) work: Option<Work>,
}

// That the receipts are those that the share counts, and that they and the refusals tell what the spawner said.
#[derive(Clone, Copy)]
pub(crate) struct OwnWork;

impl<L: Ledger, W: Spawner> Promise<Done<L, W>> for OwnWork {
    ghost kept_by = { λ p d. HasWorked W.has_said d };
}

// Drives the run until the worker is done.
#[tactic(auto, using(crate::proofs::GatherLemmas::own_of))]
fn work<W: Spawner, L: Ledger, R: Reporter>(
    rt: &impl Wait,
    alloc: Global,
    shared: &SharedRun<L, R>,
    job: Job<L, W>,
) -> Done<L, W>
    requires worker { W.has_said job.worker [] }
    requires share { IsOneEmpty job.share.parts job.share.amount }
    ensures { HasWorked W.has_said result }
{
    let Job {
        mut worker,
        mut share,
        word,
    } = job;
    match drive(rt, alloc, shared, &mut worker, &mut share, word) {
        Ok(work) => Done {
            worker,
            share,
            work: Some(work),
        },
        Err(_) => Done {
            worker,
            share,
            work: None,
        },
    }
}

// Starts a worker's thread. Where none can be made the run is given up, so that the worker ends here at once.
pub(crate) fn start<
    's,
    E,
    W: Spawner + Send + Drop + 's,
    L: Ledger + Send + Sync + 's,
    R: Reporter + Send + 's,
    X: Threads + Wait + Sync,
>(
    scope: &Scope<'s, E>,
    rt: &'s X,
    alloc: Global,
    shared: &'s SharedRun<L, R>,
    job: Job<L, W>,
) -> Result<PromisedHandle<Done<L, W>, OwnWork>, Done<L, W>>
where
    R::Error: Send,
    requires worker { W.has_said job.worker [] }
    requires share { IsOneEmpty job.share.parts job.share.amount }
    ensures { IfErr result (HasWorked W.has_said) }
{
    let run = move || -> Done<L, W>
        requires { IsFresh W.has_said job }
        ensures { HasWorked W.has_said result }
    { work(rt, alloc, shared, job) };
    match scope.spawn_with(OwnWork, run) {
        Ok(handle) => Ok(handle),
        Err(refused) => {
            shared.give_up(rt);
            Err((refused.value)())
        }
    }
}
