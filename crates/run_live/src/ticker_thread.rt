// The ticker on a thread of its own.
ghost use Rattle.std.specs.Prelude.{[], IfErr, IfOk};
ghost use Rattle.run_live.specs.Work.{IsOneEmpty, IsSetOut, HasTicked};

use crate::jobs::TickJob;
use run_capture::{Mem, OutOfMemory};
use run_drive::{Ticker, Work, tick, wind};
use run_events::Reporter;
use run_shared::SharedRun;
use std::alloc::Global;
use std::sync::Wait;
use std::sync::ledger::{Ledger, Share};
use std::thread::{Promise, PromisedHandle, Scope, Threads};

// What the ticker's thread leaves: the ticker, its share, and its work, or none where memory was wanting.
#[derive(Drop)]
pub(crate) struct Ticked<L: Ledger, T> {
    pub(crate) ticker: T,
    pub(crate) share: Share<L>,
    pub(crate) work: Option<Work>,
}

// That the receipts are those that the share counts, of time that was told and of what a run settles.
#[derive(Clone, Copy)]
pub(crate) struct OwnTicks;

impl<L: Ledger, T: Ticker> Promise<Ticked<L, T>> for OwnTicks {
    ghost kept_by = { λ p d. HasTicked T.has_told d };
}

/// Settles what is ready before any worker starts.
pub fn begin<T: Ticker + Drop, L: Ledger, R: Reporter>(
    rt: &impl Wait,
    alloc: Global,
    shared: &SharedRun<L, R>,
    ticker: T,
    share: Share<L>,
    word: u32,
) -> Mem<TickJob<L, T>>
    requires ticker { T.has_told ticker [] }
    requires share { IsOneEmpty share.parts share.amount }
    ensures { IfOk result (IsSetOut T.has_told) }
{
    let mut share = share;
    let Ok(first) = wind(rt, alloc, shared, &mut share, word) else {
        drop(share);
        drop(ticker);
        return Err(OutOfMemory);
    };
    Ok(TickJob {
        ticker,
        share,
        word,
        first,
    })
}

// Offers time until the run takes no step of it.
#[tactic(auto, using(crate::proofs::GatherLemmas::told_of))]
fn run_ticker<T: Ticker + Drop, L: Ledger, R: Reporter>(
    rt: &impl Wait,
    alloc: Global,
    shared: &SharedRun<L, R>,
    job: TickJob<L, T>,
) -> Ticked<L, T>
    requires { IsSetOut T.has_told job }
    ensures { HasTicked T.has_told result }
{
    let TickJob {
        mut ticker,
        mut share,
        word,
        first,
    } = job;
    match tick(rt, alloc, shared, &mut ticker, &mut share, word, first) {
        Ok(work) => Ticked {
            ticker,
            share,
            work: Some(work),
        },
        Err(_) => Ticked {
            ticker,
            share,
            work: None,
        },
    }
}

// Starts the ticker's thread. Where none can be made the run is given up, so that the ticker ends here at once.
pub(crate) fn start_ticker<
    's,
    E,
    T: Ticker + Send + Drop + 's,
    L: Ledger + Send + Sync + 's,
    R: Reporter + Send + 's,
    X: Threads + Wait + Sync,
>(
    scope: &Scope<'s, E>,
    rt: &'s X,
    alloc: Global,
    shared: &'s SharedRun<L, R>,
    job: TickJob<L, T>,
) -> Result<PromisedHandle<Ticked<L, T>, OwnTicks>, Ticked<L, T>>
where
    R::Error: Send,
    requires { IsSetOut T.has_told job }
    ensures { IfErr result (HasTicked T.has_told) }
{
    let run = move || -> Ticked<L, T>
        requires { IsSetOut T.has_told job }
        ensures { HasTicked T.has_told result }
    { run_ticker(rt, alloc, shared, job) };
    match scope.spawn_with(OwnTicks, run) {
        Ok(handle) => Ok(handle),
        Err(refused) => {
            shared.give_up(rt);
            Err((refused.value)())
        }
    }
}

// What the ticker leaves, once its thread has ended.
pub(crate) fn end_ticker<T: Ticker + Drop, L: Ledger>(
    rt: &impl Threads,
    running: Result<PromisedHandle<Ticked<L, T>, OwnTicks>, Ticked<L, T>>,
) -> Ticked<L, T>
    requires { IfErr running (HasTicked T.has_told) }
    ensures { HasTicked T.has_told result }
{
    match running {
        Ok(handle) => handle.join(rt),
        Err(ended) => ended,
    }
}
