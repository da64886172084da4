// The ticker on a thread of its own.
ghost use Rattle.std.specs.Prelude.{IfErr};
ghost use Rattle.run_live.specs.Work.{IsSetOut};
ghost use Rattle.run_whole.specs.Work.{HasTimed};

use run_drive::Ticker;
use run_events::Reporter;
use run_keep::{Beats, Ticked, tick_rounds};
use run_live::TickJob;
use run_shared::SharedRun;
use std::alloc::Global;
use std::sync::Wait;
use std::sync::ledger::{Ledger, Share};
use std::thread::{Promise, PromisedHandle, Scope, Threads};

// What the ticker's thread leaves: the ticker, its share, and its work, or none where memory was wanting.
#[derive(Drop)]
pub(crate) struct Timed<L: Ledger, T> {
    pub(crate) ticker: T,
    pub(crate) share: Share<L>,
    pub(crate) work: Option<Ticked>,
}

// That the receipts are those that the share counts, of time that was told and of what a run settles.
#[derive(Clone, Copy)]
pub(crate) struct OwnTicks;

impl<L: Ledger, T: Ticker> Promise<Timed<L, T>> for OwnTicks {
    ghost kept_by = { λ p d. HasTimed T.has_told d };
}

// Offers time until the run takes no step of it.
#[tactic(auto, using(crate::proofs::OwnLemmas::told_of))]
fn run_ticker<T: Ticker + Drop, L: Ledger, R: Reporter>(
    rt: &impl Wait,
    alloc: Global,
    shared: &SharedRun<L, R>,
    beats: &Beats,
    job: TickJob<L, T>,
) -> Timed<L, T>
    requires { IsSetOut T.has_told job }
    ensures { HasTimed T.has_told result }
{
    let TickJob {
        mut ticker,
        mut share,
        word,
        first,
    } = job;
    match tick_rounds(
        rt,
        alloc,
        shared,
        beats,
        &mut ticker,
        &mut share,
        word,
        first,
    ) {
        Ok(work) => Timed {
            ticker,
            share,
            work: Some(work),
        },
        Err(_) => Timed {
            ticker,
            share,
            work: None,
        },
    }
}

// Starts the ticker's thread. Where none can be made the run is given up, so that the ticker ends here at once.
pub(crate) fn start_ticker<
    's,
    E,
    T: Ticker + Send + Drop + 's,
    L: Ledger + Send + Sync + 's,
    R: Reporter + Send + 's,
    X: Threads + Wait + Sync,
>(
    scope: &Scope<'s, E>,
    rt: &'s X,
    alloc: Global,
    shared: &'s SharedRun<L, R>,
    beats: &'s Beats,
    job: TickJob<L, T>,
) -> Result<PromisedHandle<Timed<L, T>, OwnTicks>, Timed<L, T>>
where
    R::Error: Send,
    requires { IsSetOut T.has_told job }
    ensures { IfErr result (HasTimed T.has_told) }
{
    let run = move || -> Timed<L, T>
        requires { IsSetOut T.has_told job }
        ensures { HasTimed T.has_told result }
    { run_ticker(rt, alloc, shared, beats, job) };
    match scope.spawn_with(OwnTicks, run) {
        Ok(handle) => Ok(handle),
        Err(refused) => {
            shared.give_up(rt);
            Err((refused.value)())
        }
    }
}

// What the ticker leaves, once its thread has ended.
pub(crate) fn end_ticker<T: Ticker + Drop, L: Ledger>(
    rt: &impl Threads,
    running: Result<PromisedHandle<Timed<L, T>, OwnTicks>, Timed<L, T>>,
) -> Timed<L, T>
    requires { IfErr running (HasTimed T.has_told) }
    ensures { HasTimed T.has_told result }
{
    match running {
        Ok(handle) => handle.join(rt),
        Err(ended) => ended,
    }
}
