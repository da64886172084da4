// Stress runs: what comes after a sub-run, and what the sub-runs of a run come to.
use run_commands::{StressCondition, StressCount};
use run_dispatch::{StressContext, StressLoopAction};
use run_events::{CancelReason, FinalRunStats, RunOutcome, RunStep, StressProgress};
use std::process::Abort;
use std::str::FromStr;

const FAILED: FinalRunStats = FinalRunStats::Failed {
    step: RunStep::Test,
};

const SCRIPT_FAILED: FinalRunStats = FinalRunStats::Failed {
    step: RunStep::SetupScript,
};

const CUT: FinalRunStats = FinalRunStats::Cancelled {
    reason: Some(CancelReason::Interrupt),
    step: RunStep::Test,
};

const CUT_IN_SCRIPTS: FinalRunStats = FinalRunStats::Cancelled {
    reason: Some(CancelReason::Interrupt),
    step: RunStep::SetupScript,
};

const LEFT: FinalRunStats = FinalRunStats::Cancelled {
    reason: None,
    step: RunStep::Test,
};

const SECOND: u64 = 1_000_000_000;

// After so many seconds of a minute, or so many sub-runs of so many.
fn progress(total: &str, done: u32) -> StressProgress {
    match total {
        "minute" => StressProgress::Time {
            total: 60 * SECOND,
            elapsed: u64::from(done) * SECOND,
            completed: 3,
        },
        count => StressProgress::Count {
            total: StressCount::from_str(count).unwrap_or(StressCount::Infinite),
            elapsed: 10 * SECOND,
            completed: done,
        },
    }
}

// How far the run is where a further sub-run begins.
fn next_of(
    last: FinalRunStats,
    reason: Option<CancelReason>,
    next: StressProgress,
) -> Option<StressProgress> {
    match StressLoopAction::after_sub_run(last, reason, next) {
        StressLoopAction::Continue { next_progress } => Some(next_progress),
        StressLoopAction::Stop => None,
    }
}

// The last sub-run, why the run is cancelled, of how many sub-runs how many have ended, or seconds of a minute, and
// whether a further sub-run begins. The last is a time that is spent to the nanosecond.
const NEXT: [(FinalRunStats, Option<CancelReason>, &str, u32, bool); 15] = [
    (FinalRunStats::Success, None, "3", 2, true),
    (FinalRunStats::Success, None, "infinite", 3, true),
    (FinalRunStats::Success, None, "minute", 59, true),
    (FinalRunStats::Success, None, "3", 3, false),
    (FinalRunStats::Success, None, "minute", 61, false),
    (FinalRunStats::NoTestsRun, None, "3", 2, true),
    (FinalRunStats::NoTestsRun, None, "3", 3, false),
    (FAILED, None, "3", 2, true),
    (FAILED, None, "3", 3, false),
    (FAILED, Some(CancelReason::TestFailure), "3", 2, false),
    (
        SCRIPT_FAILED,
        Some(CancelReason::SetupScriptFailure),
        "3",
        2,
        false,
    ),
    (CUT, Some(CancelReason::Interrupt), "3", 2, false),
    (
        FinalRunStats::Success,
        Some(CancelReason::Signal),
        "3",
        2,
        false,
    ),
    (LEFT, None, "3", 2, false),
    (FinalRunStats::Success, None, "minute", 60, false),
];

#[test]
fn a_further_sub_run_begins_or_none(rt: HostRuntime) {
    for (last, reason, total, done, goes_on) in &NEXT {
        let next = progress(total, *done);
        let wanted = if *goes_on { Some(next) } else { None };
        assert!(rt; next_of(*last, *reason, next) == wanted, "{total}");
    }
}

fn combined(earlier: Option<RunOutcome>, last: FinalRunStats) -> RunOutcome {
    let outcome = RunOutcome::from_final_stats(last);
    match earlier {
        Some(earlier) => earlier.combine(outcome),
        None => outcome,
    }
}

// What some sub-runs come to: how many failed and how many passed, and the outcome of all.
fn sum_of(sub_runs: &[FinalRunStats]) -> Option<(u32, u32, RunOutcome)> {
    if sub_runs.len() > 4 {
        return None;
    }
    let endless = StressCondition::Count(StressCount::Infinite);
    let mut context = StressContext::new(Some(endless));
    let mut outcome = None;
    for last in sub_runs {
        context.mark_completed(*last);
        outcome = Some(combined(outcome, *last));
    }
    let stats = context.run_stats(*sub_runs.last()?)?;
    Some((stats.failed_count, stats.success_count, outcome?))
}

fn come_to(
    rt: &impl Abort,
    sub_runs: &[FinalRunStats],
    failed: u32,
    passed: u32,
    outcome: RunOutcome,
) {
    assert!(rt; sum_of(sub_runs) == Some((failed, passed, outcome)));
}

const PASSED: FinalRunStats = FinalRunStats::Success;

const NONE_RAN: FinalRunStats = FinalRunStats::NoTestsRun;

const TEST_FAILED: RunOutcome = RunOutcome::Failed {
    step: RunStep::Test,
};

const A_SCRIPT_FAILED: RunOutcome = RunOutcome::Failed {
    step: RunStep::SetupScript,
};

const CANCELLED: RunOutcome = RunOutcome::Cancelled {
    step: RunStep::Test,
};

const CANCELLED_IN_SCRIPTS: RunOutcome = RunOutcome::Cancelled {
    step: RunStep::SetupScript,
};

#[test]
fn sub_runs_come_to_one_outcome(rt: HostRuntime) {
    come_to(&rt, &[PASSED, PASSED], 0, 2, RunOutcome::Success);
    come_to(&rt, &[NONE_RAN, NONE_RAN], 0, 2, RunOutcome::NoTestsRun);
    come_to(&rt, &[FAILED, PASSED, FAILED, PASSED], 2, 2, TEST_FAILED);
    come_to(&rt, &[PASSED, FAILED, PASSED, FAILED], 2, 2, TEST_FAILED);
    come_to(&rt, &[SCRIPT_FAILED, FAILED, PASSED], 2, 1, A_SCRIPT_FAILED);
    come_to(&rt, &[FAILED, NONE_RAN], 1, 1, TEST_FAILED);
    come_to(&rt, &[PASSED, CUT], 0, 1, CANCELLED);
    come_to(&rt, &[PASSED, CUT_IN_SCRIPTS], 0, 1, CANCELLED_IN_SCRIPTS);
    // In nextest a failed script comes first, then a failed test, then what was cancelled.
    come_to(&rt, &[FAILED, SCRIPT_FAILED], 2, 0, TEST_FAILED);
    come_to(&rt, &[FAILED, CUT], 1, 0, CANCELLED);
    come_to(&rt, &[FAILED, CUT_IN_SCRIPTS], 1, 0, CANCELLED_IN_SCRIPTS);
}
