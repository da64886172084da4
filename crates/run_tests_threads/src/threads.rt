// Sixteen threads that share one run.
ghost use Rattle.std.specs.Prelude.{◌≡◌, ◌<◌};
ghost use Rattle.std.specs.List.{All};

use crate::plans::{MEMORY, last_share, runner};
use run_capture::{CaptureStrategy, List, Stream};
use run_engine::StepError;
use run_events::{ChildExit, EventLog, RunOutcome, Turn};
use run_shared::{Closed, Receipt, SharedRun};
use std::alloc::Global;
use std::marker::Brand;
use std::process::Abort;
use std::sync::Wait;
use std::sync::ledger::{Blank, Ledger, Share};
use std::thread;
use std::thread::{JoinHandle, Scope, Threads};

const WORKERS: u32 = 16;

const TESTS: u32 = 1_000;

// What a worker leaves: its share, and the receipt of each turn that it took.
#[derive(Drop)]
struct Work<L: Ledger> {
    share: Share<L>,
    receipts: List<Receipt>,
}

// Keeps a receipt. Where there is none, or no memory for it, the run is given up.
fn keep<L: Ledger>(
    rt: &impl Wait,
    alloc: Global,
    shared: &SharedRun<L, EventLog>,
    receipts: &mut List<Receipt>,
    taken: Result<Receipt, StepError>,
) -> bool {
    if let Ok(receipt) = taken {
        if receipts.push(alloc, receipt).is_ok() {
            return true;
        }
    }
    shared.give_up(rt);
    false
}

// Settles until there is no turn to settle.
fn settle_all<L: Ledger>(
    rt: &impl Wait,
    alloc: Global,
    shared: &SharedRun<L, EventLog>,
    work: &mut Work<L>,
) -> bool
    requires { 0 < work.old.share.parts }
    ensures { work.new.share.parts ≡ work.old.share.parts }
{
    for _ in 0..u64::MAX {
        let taken = match shared.settle(rt, alloc, &mut work.share, 0) {
            Ok(Some(receipt)) => Ok(receipt),
            Ok(None) => return true,
            Err(error) => Err(error),
        };
        if !keep(rt, alloc, shared, &mut work.receipts, taken) {
            return false;
        }
    }
    false
}

fn takes<L: Ledger>(
    rt: &impl Wait,
    alloc: Global,
    shared: &SharedRun<L, EventLog>,
    work: &mut Work<L>,
    turn: Turn,
) -> bool
    requires { 0 < work.old.share.parts }
    ensures { work.new.share.parts ≡ work.old.share.parts }
{
    let taken = shared.step(rt, alloc, &mut work.share, turn);
    keep(rt, alloc, shared, &mut work.receipts, taken)
}

// A child starts, writes nothing and exits with code 0.
fn child<L: Ledger>(
    rt: &impl Wait,
    alloc: Global,
    shared: &SharedRun<L, EventLog>,
    work: &mut Work<L>,
    unit: u32,
) -> bool
    requires { 0 < work.old.share.parts }
    ensures { work.new.share.parts ≡ work.old.share.parts }
{
    let stream = Stream::Combined;
    let exit = ChildExit::Code(0);
    takes(rt, alloc, shared, work, Turn::Started { unit, pid: 100 })
        && takes(rt, alloc, shared, work, Turn::StreamEnd { unit, stream })
        && takes(rt, alloc, shared, work, Turn::Exit { unit, exit })
}

// Settles, claims a start and does what its child does, until the run is over.
fn run_worker<L: Ledger>(
    rt: &impl Wait,
    alloc: Global,
    shared: &SharedRun<L, EventLog>,
    share: Share<L>,
) -> Work<L>
    requires { 0 < share.parts }
{
    let mut work = Work {
        share,
        receipts: List::new(),
    };
    for _ in 0..u64::MAX {
        if !settle_all(rt, alloc, shared, &mut work) {
            break;
        }
        let Some(start) = shared.next_start(rt) else {
            break;
        };
        let unit = start.unit;
        drop(start);
        if !child(rt, alloc, shared, &mut work, unit) {
            break;
        }
    }
    work
}

fn start<'s, E, L: Ledger + Send + Sync + 's, X: Threads + Wait + Abort + Sync>(
    scope: &Scope<'s, E>,
    rt: &'s X,
    alloc: Global,
    shared: &'s SharedRun<L, EventLog>,
    share: Share<L>,
) -> JoinHandle<Work<L>>
    requires { 0 < share.parts }
{
    let run = move || -> Work<L>
        requires { 0 < share.parts }
    { run_worker(rt, alloc, shared, share) };
    match scope.spawn(run) {
        Ok(handle) => handle,
        Err(_) => rt.abort(),
    }
}

fn start_all<'s, E, L: Ledger + Send + Sync + 's, X: Threads + Wait + Abort + Sync>(
    scope: &Scope<'s, E>,
    rt: &'s X,
    alloc: Global,
    shared: &'s SharedRun<L, EventLog>,
    mut shares: Vec<Share<L>>,
) -> Vec<JoinHandle<Work<L>>>
    requires { All (λ (s : Share L). (s.parts ≡ 1) × (s.amount ≡ 0)) shares.items }
{
    let mut handles = Vec::with_capacity(alloc, WORKERS as usize).expect(rt, MEMORY);
    for _ in 0..WORKERS {
        let share = last_share(rt, &mut shares);
        let handle = start(scope, rt, alloc, shared, share);
        handles.push(handle).expect(rt, MEMORY);
    }
    handles
}

fn join_all<L: Ledger, X: Threads + Abort>(
    rt: &X,
    alloc: Global,
    handles: Vec<JoinHandle<Work<L>>>,
) -> Vec<Work<L>> {
    let mut works = Vec::new(alloc);
    for handle in handles {
        works.push(handle.join(rt)).expect(rt, MEMORY);
    }
    works
}

fn together<L: Ledger + Send + Sync, X: Threads + Wait + Abort + Sync>(
    rt: &X,
    alloc: Global,
    shared: &SharedRun<L, EventLog>,
    shares: Vec<Share<L>>,
) -> Vec<Work<L>>
    requires { All (λ (s : Share L). (s.parts ≡ 1) × (s.amount ≡ 0)) shares.items }
{
    thread::scope(
        thread::scope_env(),
        rt,
        move |scope| -> Vec<Work<L>>
            requires { All (λ (s : Share L). (s.parts ≡ 1) × (s.amount ≡ 0)) shares.items }
        {
            let handles = start_all(scope, rt, alloc, shared, shares);
            join_all(rt, alloc, handles)
        },
    )
}

// The shares of some works, and their receipts.
fn gather<L: Ledger>(
    rt: &impl Abort,
    alloc: Global,
    works: Vec<Work<L>>,
) -> (Vec<Share<L>>, List<List<Receipt>>) {
    let mut shares = Vec::new(alloc);
    let mut lists = List::new();
    for work in works {
        let Work { share, receipts } = work;
        shares.push(share).expect(rt, MEMORY);
        lists.push(alloc, receipts).expect(rt, MEMORY);
    }
    (shares, lists)
}

// How many receipts there are.
fn count(lists: &[List<Receipt>]) -> usize {
    let mut count: usize = 0;
    for list in lists {
        count = count.saturating_add(list.len());
    }
    count
}

// Whether a run of so many tests succeeded, and each of its turns has a receipt.
fn is_whole(closed: &Closed<EventLog>, turns: usize) -> bool {
    matches!(closed.outcome, Some(RunOutcome::Success))
        && closed.journal.len() == turns
        && count(closed.receipts.as_slice()) == turns
}

fn shared_by_threads<L: Ledger + Send + Sync, X: Threads + Wait + Abort + Sync>(
    rt: &X,
    alloc: Global,
    blank: Blank,
    tests: u32,
)
    requires name { blank.name ≡ L.name }
    requires parts { blank.parts ≡ L.parts }
    requires all { blank.parts ≡ 16 }
    requires few { tests < 10000 }
{
    let runner = runner(rt, alloc, CaptureStrategy::Combined, WORKERS, tests);
    let made = SharedRun::<L, EventLog>::new(alloc, runner, EventLog::new(), WORKERS as u64, blank);
    let Ok((shared, shares)) = made else {
        rt.abort();
    };
    let works = together(rt, alloc, &shared, shares);
    let (shares, lists) = gather(rt, alloc, works);
    let turns = 2 + 7 * tests as usize;
    match shared.close(alloc, shares, lists) {
        Ok(closed) => assert!(rt; is_whole(&closed, turns)),
        Err(_) => rt.abort(),
    }
}

#[test]
fn sixteen_threads_share_a_run(rt: HostRuntime) {
    shared_by_threads::<Brand, HostRuntime>(&rt, rt.alloc(), Blank::new(16), TESTS);
}
