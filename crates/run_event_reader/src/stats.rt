// Counts of a run, and of its sub-runs.
use crate::members::{count, number, some_count, word};
use crate::results::some_reason;
use run_commands::StressCount;
use run_events::{FinalRunStats, RunStats, RunStep, StressIndex, StressProgress, StressRunStats};
use serde_json::Value;

// The statistics that an object has.
fn stats_of(stats: &Value) -> RunStats {
    RunStats {
        initial_run_count: number(stats, "initial_run_count"),
        finished_count: number(stats, "finished_count"),
        setup_scripts_initial_count: number(stats, "setup_scripts_initial_count"),
        setup_scripts_finished_count: number(stats, "setup_scripts_finished_count"),
        setup_scripts_passed: number(stats, "setup_scripts_passed"),
        setup_scripts_failed: number(stats, "setup_scripts_failed"),
        setup_scripts_exec_failed: number(stats, "setup_scripts_exec_failed"),
        setup_scripts_timed_out: number(stats, "setup_scripts_timed_out"),
        passed: number(stats, "passed"),
        passed_slow: number(stats, "passed_slow"),
        passed_timed_out: number(stats, "passed_timed_out"),
        flaky: number(stats, "flaky"),
        failed: number(stats, "failed"),
        failed_slow: number(stats, "failed_slow"),
        failed_timed_out: number(stats, "failed_timed_out"),
        leaky: number(stats, "leaky"),
        leaky_failed: number(stats, "leaky_failed"),
        exec_failed: number(stats, "exec_failed"),
        skipped: number(stats, "skipped"),
        cancel_reason: some_reason(stats),
    }
}

/// The statistics of an event.
pub(crate) fn stats_in(event: &Value) -> RunStats {
    match event.get("stats") {
        Some(stats) => stats_of(stats),
        None => RunStats::nothing(),
    }
}

// Which sub-run an object says.
fn index_of(index: &Value) -> StressIndex {
    StressIndex {
        current: count(index, "current"),
        total: some_count(index, "total"),
    }
}

/// Which sub-run an event is of, in a stress run.
pub(crate) fn index_in(event: &Value) -> Option<StressIndex> {
    match event.get("stress_index") {
        Some(index) => Some(index_of(index)),
        None => None,
    }
}

/// How far a stress run is. No line has how far it is to go.
pub(crate) fn progress_in(event: &Value) -> StressProgress {
    let (elapsed, completed) = match event.get("progress") {
        Some(progress) => (number(progress, "elapsed"), count(progress, "completed")),
        None => (0, 0),
    };
    StressProgress::Count {
        total: StressCount::Infinite,
        elapsed,
        completed,
    }
}

// The summary of a sub-run by its word. No line has its step or its reason.
fn last_of(word: &str) -> FinalRunStats {
    let step = RunStep::Test;
    match word {
        "success" => FinalRunStats::Success,
        "no-tests-run" => FinalRunStats::NoTestsRun,
        "failed" => FinalRunStats::Failed { step },
        _ => FinalRunStats::Cancelled { reason: None, step },
    }
}

/// What came of the sub-runs of a stress run.
pub(crate) fn stress_stats_of(stats: &Value) -> StressRunStats {
    let completed = match stats.get("completed") {
        Some(index) => index_of(index),
        None => StressIndex {
            current: 0,
            total: None,
        },
    };
    StressRunStats {
        completed,
        success_count: count(stats, "success_count"),
        failed_count: count(stats, "failed_count"),
        last_final_stats: last_of(word(stats, "last")),
    }
}
