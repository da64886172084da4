// Events of a run of tests in one binary.
use crate::rows::text;
use run_capture::List;
use run_events::{
    CancelReason, JobControlled, RunCancelled, RunStats, TestEvent, TestEventKind, TestInstanceId,
    TestSlotAssignment, TestStart, TestStarted, TestUnit,
};
use std::alloc::Global;
use std::process::Abort;

/// So many seconds.
pub fn seconds(count: u32) -> u64 {
    u64::from(count) * 1_000_000_000
}

/// Three of ten tests have finished, and so many of them failed.
pub fn stats(failed: u64) -> RunStats {
    RunStats {
        finished_count: 3,
        passed: 2,
        failed,
        ..RunStats::started(0, 10)
    }
}

fn start(rt: &impl Abort, alloc: Global, name: &str) -> TestStart {
    let id = TestInstanceId {
        binary: text(rt, alloc, "my-binary"),
        name: text(rt, alloc, name),
    };
    TestStart {
        test: TestUnit {
            unit: 0,
            id,
            stress_index: None,
        },
        command: List::new(),
        slot: TestSlotAssignment {
            global: 0,
            group: None,
        },
    }
}

/// A test starts, beside three others, where so many have failed.
pub fn started(rt: &impl Abort, alloc: Global, name: &str, failed: u64) -> TestEventKind {
    TestEventKind::TestStarted(TestStarted {
        start: start(rt, alloc, name),
        running: 4,
        stats: stats(failed),
    })
}

/// The run is cancelled for a signal.
pub fn cancelled() -> TestEventKind {
    TestEventKind::RunBeginCancel(RunCancelled {
        running: 4,
        scripts_running: 0,
        stats: RunStats {
            cancel_reason: Some(CancelReason::Signal),
            ..stats(1)
        },
    })
}

/// The run is paused.
pub fn paused() -> TestEventKind {
    TestEventKind::RunPaused(JobControlled {
        running: 4,
        scripts_running: 0,
    })
}

/// An event of this kind, at this second.
pub fn event_of(kind: TestEventKind, second: u32) -> TestEvent {
    TestEvent {
        clock: seconds(second),
        elapsed: seconds(second),
        kind,
    }
}
