// An event by the word of its kind.
use crate::ends::run_kind;
use crate::members::{number, word};
use crate::rounds::round_kind;
use crate::scripts::script_kind;
use crate::tests::test_kind;
use run_capture::Mem;
use run_events::{ReporterEvent, TestEvent, TestEventKind};
use serde_json::Value;
use std::alloc::Global;

fn kind_of(alloc: Global, failed: u64, event: &Value) -> Mem<TestEventKind> {
    let word = word(event, "event");
    if word.starts_with("test-") {
        test_kind(alloc, failed, word, event)
    } else if word.starts_with("script-") {
        script_kind(alloc, word, event)
    } else if word.starts_with("info-") {
        round_kind(alloc, word, event)
    } else {
        run_kind(alloc, word, event)
    }
}

/// What a reporter was told, where so many tests had failed before.
pub(crate) fn event_of(alloc: Global, failed: u64, event: &Value) -> Mem<ReporterEvent> {
    if word(event, "event") == "tick" {
        return Ok(ReporterEvent::Tick);
    }
    let kind = kind_of(alloc, failed, event)?;
    Ok(ReporterEvent::Test(TestEvent {
        clock: number(event, "clock"),
        elapsed: number(event, "elapsed"),
        kind,
    }))
}
