// The run's own events.
use crate::members::{count, items, number, text, texts, word};
use crate::stats::{progress_in, stats_in, stress_stats_of};
use crate::tests::tests_of;
use run_capture::Mem;
use run_commands::{StressCondition, StressCount};
use run_events::{
    InputEntered, JobControlled, RunCancelled, RunFinished, RunFinishedStats, RunStarted,
    SubRunFinished, TestEventKind, TestsNotSeen,
};
use serde_json::Value;
use std::alloc::Global;
use uuid::Uuid;

// Until when a stress run repeats.
fn condition_of(stress: &Value) -> StressCondition {
    match StressCount::from_str(word(stress, "count")) {
        Ok(count) => StressCondition::Count(count),
        Err(_) => StressCondition::Duration(number(stress, "duration")),
    }
}

fn condition_in(event: &Value) -> Option<StressCondition> {
    match event.get("stress") {
        Some(stress) => Some(condition_of(stress)),
        None => None,
    }
}

fn id_of(text: &str) -> Uuid {
    match Uuid::parse_str(text) {
        Ok(id) => id,
        Err(_) => Uuid::nil(),
    }
}

fn started(alloc: Global, event: &Value) -> Mem<RunStarted> {
    let args = texts(alloc, event, "args")?;
    let profile = text(alloc, event, "profile")?;
    Ok(RunStarted {
        run_id: id_of(word(event, "run_id")),
        tests: count(event, "tests"),
        args,
        profile,
        stress: condition_in(event),
    })
}

fn sub_run_finished(event: &Value) -> SubRunFinished {
    SubRunFinished {
        progress: progress_in(event),
        sub_elapsed: number(event, "sub_elapsed"),
        stats: stats_in(event),
    }
}

fn entered(event: &Value) -> InputEntered {
    InputEntered {
        running: count(event, "running"),
        stats: stats_in(event),
    }
}

fn cancelled(event: &Value) -> RunCancelled {
    RunCancelled {
        running: count(event, "running"),
        scripts_running: count(event, "scripts_running"),
        stats: stats_in(event),
    }
}

fn job(event: &Value) -> JobControlled {
    JobControlled {
        running: count(event, "running"),
        scripts_running: count(event, "scripts_running"),
    }
}

// The statistics of a run that is over.
fn end_stats(event: &Value) -> RunFinishedStats {
    match event.get("stress_stats") {
        Some(stats) => RunFinishedStats::Stress(stress_stats_of(stats)),
        None => RunFinishedStats::Single(stats_in(event)),
    }
}

fn not_seen_of(alloc: Global, tests: &Value) -> Mem<TestsNotSeen> {
    let not_seen = tests_of(alloc, items(tests, "sample"))?;
    Ok(TestsNotSeen {
        not_seen,
        total_not_seen: number(tests, "total"),
    })
}

fn finished(alloc: Global, event: &Value) -> Mem<RunFinished> {
    let not_seen = match event.get("not_seen") {
        Some(tests) => Some(not_seen_of(alloc, tests)?),
        None => None,
    };
    Ok(RunFinished {
        stats: end_stats(event),
        not_seen,
    })
}

// An event of a run that goes on.
fn going_kind(word: &str, event: &Value) -> TestEventKind {
    match word {
        "sub-run-started" => TestEventKind::StressSubRunStarted(progress_in(event)),
        "sub-run-finished" => TestEventKind::StressSubRunFinished(sub_run_finished(event)),
        "input-enter" => TestEventKind::InputEnter(entered(event)),
        "run-begin-cancel" => TestEventKind::RunBeginCancel(cancelled(event)),
        "run-begin-kill" => TestEventKind::RunBeginKill(cancelled(event)),
        "run-paused" => TestEventKind::RunPaused(job(event)),
        _ => TestEventKind::RunContinued(job(event)),
    }
}

/// An event of the run itself, by its word.
pub(crate) fn run_kind(alloc: Global, word: &str, event: &Value) -> Mem<TestEventKind> {
    match word {
        "run-started" => started(alloc, event).map(TestEventKind::RunStarted),
        "run-finished" => finished(alloc, event).map(TestEventKind::RunFinished),
        _ => Ok(going_kind(word, event)),
    }
}
