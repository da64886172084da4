// Runs under workers: of two tests, whose children end only once both run; and of none, in which time goes by.
use crate::gate::{GateHost, GateSpawner};
use crate::plans::{MEMORY, plan, runner};
use run_capture::CaptureStrategy;
use run_commands::StressCondition;
use run_engine::{TestRunner, TestRunnerBuilder};
use run_events::{EventLog, RunOutcome, Turn};
use run_live::{Lived, live};
use std::alloc::Global;
use std::process::Abort;
use std::sync::Arc;
use std::sync::atomic::AtomicU64;

// Whether a run passed that has a list of receipts for each of two workers and one for the ticker, none of them
// refused.
fn has_passed<W, T>(lived: &Lived<W, T, EventLog>) -> bool {
    lived.live.error.is_none()
        && lived.live.receipts.len() == 3
        && matches!(lived.outcome, Some(RunOutcome::Success))
}

// Two spawners that share a count.
fn gates(rt: &impl Abort, alloc: Global) -> Vec<GateSpawner> {
    let started = Arc::new(alloc, AtomicU64::new(0)).expect(rt, MEMORY);
    let again = Arc::try_clone(&started).expect(rt, MEMORY);
    let mut spawners = Vec::new(alloc);
    spawners
        .push(GateSpawner::new(Some(started)))
        .expect(rt, MEMORY);
    spawners
        .push(GateSpawner::new(Some(again)))
        .expect(rt, MEMORY);
    spawners
}

#[test]
fn two_children_run_at_a_time(rt: HostRuntime) {
    let alloc = rt.alloc();
    let (clock, spawners) = (rt, gates(&rt, alloc));
    let mut host = GateHost { clock, spawners };
    let runner = runner(&rt, alloc, CaptureStrategy::Split, 2, 2);
    match live(&rt, alloc, runner, 2, &mut host, EventLog::new()) {
        Ok(lived) => assert!(rt; has_passed(&lived)),
        Err(_) => assert!(rt; false),
    }
}

// A runner of no test, which goes on for five milliseconds.
fn endless(rt: &impl Abort, alloc: Global) -> TestRunner {
    let plan = plan(rt, alloc, 0);
    let mut builder = TestRunnerBuilder::default();
    builder.set_stress_condition(StressCondition::Duration(5_000_000));
    builder.build(alloc, plan).expect(rt, MEMORY)
}

// Whether a run of no test ended after six sub-runs: one before the first millisecond, and one at each of five.
fn has_ended<W, T>(lived: &Lived<W, T, EventLog>) -> bool {
    let journal = lived.live.journal.as_slice();
    let begun = journal
        .iter()
        .filter(|entry| matches!(entry.turn, Turn::Begin));
    begun.count() == 6 && matches!(lived.outcome, Some(RunOutcome::NoTestsRun))
}

#[test]
fn time_goes_by_without_children(rt: HostRuntime) {
    let alloc = rt.alloc();
    let (clock, spawners) = (rt, Vec::new(alloc));
    let mut host = GateHost { clock, spawners };
    let runner = endless(&rt, alloc);
    match live(&rt, alloc, runner, 2, &mut host, EventLog::new()) {
        Ok(lived) => assert!(rt; has_ended(&lived)),
        Err(_) => assert!(rt; false),
    }
}
