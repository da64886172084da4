// What events do to the list of running tests. Only the tests in the list are looked at.
ghost use Rattle.std.specs.Prelude.{◌≡◌, ◌-◌, ◌∷◌, [], ◌++◌, ◌≤◌, false, map, vec_len, vec_capacity, OnOk, OnErr};
ghost use Rattle.run_progress.specs.Deeds.{deed_of, is_same, adds_test};
ghost use Rattle.run_progress.specs.Edits.{paused_more, edited, slowed, without};

use crate::running_test::{RunningTest, RunningTestStatus};
use run_capture::{Duplicate, List, Mem};
use run_events::{TestEvent, TestEventKind, TestInstanceId};
use std::alloc::Global;
use std::mem;

// Whether two names are those of one test.
fn is_same(first: &TestInstanceId, second: &TestInstanceId) -> bool
    ensures { result ≡ is_same first.now second.now }
{
    first.binary == second.binary && first.name == second.name
}

// Takes a test out of the list.
fn remove(tests: &mut Vec<RunningTest>, id: &TestInstanceId)
    ensures items { tests.new.items ≡ without id.now tests.old.items }
    ensures room { vec_len tests.new ≤ vec_len tests.old }
    ensures capacity { vec_capacity tests.new ≡ vec_capacity tests.old }
{
    tests.retain(|running| !is_same(&running.test, id));
}

// Puts a test at the end, and takes it out of where it was.
fn put_last(alloc: Global, tests: &mut List<RunningTest>, started: RunningTest) -> Mem<()>
    ensures ok { OnOk result (tests.new ≡ without started.test tests.old ++ started ∷ []) }
    ensures err { OnErr result (tests.new ≡ tests.old) }
{
    let mut vec = mem::replace(tests, List::new()).into_vec(alloc);
    let room = vec.reserve(1);
    if room.is_ok() {
        remove(&mut vec, &started.test);
        vec.push_reserved(started);
    }
    *tests = List::from_vec(vec);
    Ok(room?)
}

// A test starts, is tried again, or waits to be.
fn start(
    alloc: Global,
    tests: &mut List<RunningTest>,
    id: &TestInstanceId,
    status: RunningTestStatus,
    now: u64,
) -> Mem<()>
    ensures ok { OnOk result (tests.new ≡ without id.now tests.old
        ++ record { test = id.now; status = status; start = now; paused = 0 } ∷ []) }
    ensures err { OnErr result (tests.new ≡ tests.old) }
{
    let test = id.copy(alloc)?;
    put_last(
        alloc,
        tests,
        RunningTest {
            test,
            status,
            start: now,
            paused: 0,
        },
    )
}

// A test finishes.
fn finish(alloc: Global, tests: &mut List<RunningTest>, id: &TestInstanceId)
    ensures { tests.new ≡ without id.now tests.old }
{
    let mut vec = mem::replace(tests, List::new()).into_vec(alloc);
    remove(&mut vec, id);
    *tests = List::from_vec(vec);
}

fn slow_one(running: &mut RunningTest, id: &TestInstanceId)
    ensures { running.new ≡ slowed id.now running.old }
{
    if is_same(&running.test, id) {
        running.status = RunningTestStatus::Slow;
    }
}

fn slow_each(tests: &mut [RunningTest], id: &TestInstanceId)
    ensures { tests.new ≡ map (slowed id.now) tests.old }
{
    for running in tests.iter_mut() {
        slow_one(running, id);
    }
}

// A test is slow.
fn slow(alloc: Global, tests: &mut List<RunningTest>, id: &TestInstanceId)
    ensures { tests.new ≡ map (slowed id.now) tests.old }
{
    let mut vec = mem::replace(tests, List::new()).into_vec(alloc);
    slow_each(vec.as_mut_slice(), id);
    *tests = List::from_vec(vec);
}

pub(crate) fn delay_one(running: &mut RunningTest, pause: u64)
    ensures { running.new ≡ paused_more pause running.old }
{
    running.paused = running.paused.saturating_add(pause);
}

fn delay_each(tests: &mut [RunningTest], pause: u64)
    ensures { tests.new ≡ map (paused_more pause) tests.old }
{
    for running in tests.iter_mut() {
        delay_one(running, pause);
    }
}

// A pause of this length ends.
fn delay(alloc: Global, tests: &mut List<RunningTest>, pause: u64)
    ensures { tests.new ≡ map (paused_more pause) tests.old }
{
    let mut vec = mem::replace(tests, List::new()).into_vec(alloc);
    delay_each(vec.as_mut_slice(), pause);
    *tests = List::from_vec(vec);
}

/// How long the run has been paused in all, where an event tells it.
pub(crate) fn paused_by(event: &TestEvent) -> u64
    ensures { result ≡ event.now.clock - event.now.elapsed }
{
    event.clock.saturating_sub(event.elapsed)
}

// What an event does to the running tests, where it starts none.
fn edit_in_place(alloc: Global, tests: &mut List<RunningTest>, before: u64, event: &TestEvent)
    requires { adds_test (deed_of event.now.kind) ≡ false }
    ensures { tests.new ≡ edited before event.now tests.old }
{
    match &event.kind {
        TestEventKind::TestFinished(told) => finish(alloc, tests, &told.finish.test.id),
        TestEventKind::TestSlow(told) => slow(alloc, tests, &told.test.id),
        TestEventKind::RunContinued(_) => {
            delay(alloc, tests, paused_by(event).saturating_sub(before));
        }
        _ => {}
    }
}

/// What an event does to the running tests, where the run had been paused for so long before.
pub(crate) fn edit(
    alloc: Global,
    tests: &mut List<RunningTest>,
    before: u64,
    event: &TestEvent,
) -> Mem<()>
    ensures ok { OnOk result (tests.new ≡ edited before event.now tests.old) }
    ensures err { OnErr result (tests.new ≡ tests.old) }
{
    match &event.kind {
        TestEventKind::TestStarted(told) => start(
            alloc,
            tests,
            &told.start.test.id,
            RunningTestStatus::Running,
            event.clock,
        ),
        TestEventKind::TestAttemptFailedWillRetry(told) => start(
            alloc,
            tests,
            &told.failed.test.id,
            RunningTestStatus::Delay(told.failed.delay_next),
            event.clock,
        ),
        TestEventKind::TestRetryStarted(told) => start(
            alloc,
            tests,
            &told.retry.start.test.id,
            RunningTestStatus::Retry,
            event.clock,
        ),
        _ => {
            edit_in_place(alloc, tests, before, event);
            Ok(())
        }
    }
}
