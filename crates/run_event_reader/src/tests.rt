// The events of tests. No line has a unit's number, nor what a pass after a failed attempt counts as: it failed where
// more tests have failed than before.
use crate::attempts::{attempt_of, attempts_in};
use crate::counted::counted_flaky;
use crate::members::{count, items, items_of, number, some_count, text, text_in, texts, truth};
use crate::stats::{index_in, stats_in};
use run_capture::{List, Mem, Text};
use run_events::{
    AttemptFailed, AttemptFailedWillRetry, FlakyResult, GroupSlot, RetryStarted, TestEventKind,
    TestFinish, TestFinished, TestInstanceId, TestRetry, TestSkip, TestSlotAssignment, TestSlow,
    TestStart, TestStarted, TestUnit,
};
use serde_json::Value;
use std::alloc::Global;

/// A test by its binary and its name.
pub(crate) fn test_of(alloc: Global, pair: &[Value]) -> Mem<TestInstanceId> {
    let binary = text_in(alloc, pair, 0)?;
    let name = text_in(alloc, pair, 1)?;
    Ok(TestInstanceId { binary, name })
}

/// The test that an event is of.
pub(crate) fn test_in(alloc: Global, event: &Value) -> Mem<TestUnit> {
    let id = test_of(alloc, items(event, "test"))?;
    Ok(TestUnit {
        unit: 0,
        id,
        stress_index: index_in(event),
    })
}

// The slot that an object says.
fn slot_of(alloc: Global, slot: &Value) -> Mem<TestSlotAssignment> {
    let global = count(slot, "global");
    let group = match some_count(slot, "group") {
        Some(place) => {
            let name: Text = text(alloc, slot, "name")?;
            Some(GroupSlot { slot: place, name })
        }
        None => None,
    };
    Ok(TestSlotAssignment { global, group })
}

fn slot_in(alloc: Global, event: &Value) -> Mem<TestSlotAssignment> {
    match event.get("slot") {
        Some(slot) => slot_of(alloc, slot),
        None => slot_of(alloc, event),
    }
}

fn start_in(alloc: Global, event: &Value) -> Mem<TestStart> {
    let slot = slot_in(alloc, event)?;
    let command = texts(alloc, event, "command")?;
    let test = test_in(alloc, event)?;
    Ok(TestStart {
        test,
        command,
        slot,
    })
}

fn started(alloc: Global, event: &Value) -> Mem<TestStarted> {
    let start = start_in(alloc, event)?;
    Ok(TestStarted {
        start,
        running: count(event, "running"),
        stats: stats_in(event),
    })
}

fn slow(alloc: Global, event: &Value) -> Mem<TestSlow> {
    let test = test_in(alloc, event)?;
    Ok(TestSlow {
        test,
        attempt: count(event, "attempt"),
        attempts: count(event, "attempts"),
        elapsed_slow: number(event, "elapsed_slow"),
        terminates: truth(event, "terminates"),
    })
}

fn failed_in(alloc: Global, event: &Value) -> Mem<AttemptFailed> {
    let test = test_in(alloc, event)?;
    let status = match event.get("status") {
        Some(attempt) => attempt_of(alloc, attempt)?,
        None => attempt_of(alloc, event)?,
    };
    Ok(AttemptFailed {
        test,
        status,
        delay_next: number(event, "delay_next"),
    })
}

fn attempt_failed(alloc: Global, event: &Value) -> Mem<AttemptFailedWillRetry> {
    let failed = failed_in(alloc, event)?;
    Ok(AttemptFailedWillRetry {
        failed,
        running: count(event, "running"),
    })
}

fn retry_in(alloc: Global, event: &Value) -> Mem<TestRetry> {
    let start = start_in(alloc, event)?;
    Ok(TestRetry {
        start,
        attempt: count(event, "attempt"),
        attempts: count(event, "attempts"),
    })
}

fn retry_started(alloc: Global, event: &Value) -> Mem<RetryStarted> {
    let retry = retry_in(alloc, event)?;
    Ok(RetryStarted {
        retry,
        running: count(event, "running"),
    })
}

fn finish_in(alloc: Global, event: &Value, flaky: FlakyResult) -> Mem<TestFinish> {
    let test = test_in(alloc, event)?;
    let statuses = attempts_in(alloc, event)?;
    Ok(TestFinish {
        test,
        statuses,
        flaky,
    })
}

fn finished(alloc: Global, failed: u64, event: &Value) -> Mem<TestFinished> {
    let stats = stats_in(event);
    let finish = finish_in(alloc, event, counted_flaky(failed, stats.failed))?;
    Ok(TestFinished {
        finish,
        running: count(event, "running"),
        stats,
    })
}

fn skipped(alloc: Global, event: &Value) -> Mem<TestSkip> {
    let test = test_in(alloc, event)?;
    let reason = text(alloc, event, "reason")?;
    Ok(TestSkip { test, reason })
}

/// Tests, each by its binary and its name.
pub(crate) fn tests_of(alloc: Global, pairs: &[Value]) -> Mem<List<TestInstanceId>> {
    let mut tests = List::new();
    for pair in pairs {
        tests.push(alloc, test_of(alloc, items_of(pair))?)?;
    }
    Ok(tests)
}

/// An event of a test, by its word, where so many tests had failed before it.
pub(crate) fn test_kind(
    alloc: Global,
    failed: u64,
    word: &str,
    event: &Value,
) -> Mem<TestEventKind> {
    match word {
        "test-started" => started(alloc, event).map(TestEventKind::TestStarted),
        "test-slow" => slow(alloc, event).map(TestEventKind::TestSlow),
        "test-attempt-failed" => {
            attempt_failed(alloc, event).map(TestEventKind::TestAttemptFailedWillRetry)
        }
        "test-retry-started" => { retry_started(alloc, event).map(TestEventKind::TestRetryStarted) }
        "test-finished" => finished(alloc, failed, event).map(TestEventKind::TestFinished),
        _ => skipped(alloc, event).map(TestEventKind::TestSkipped),
    }
}
