// What an auditor sees, and what it says.
use run_capture::{List, Text};
use run_events::{CancelReason, TestInstanceId, TestSlotAssignment};

/// What an auditor sees of an event. A status is the compact text of its object.
#[derive(Drop)]
pub enum AuditEvent {
    RunStarted,
    RunFinished,
    SubRunStarted,
    SubRunFinished,
    /// A setup script, by its number in the plan.
    ScriptStarted {
        index: u32,
    },
    ScriptFinished {
        index: u32,
        status: Text,
    },
    TestStarted {
        test: TestInstanceId,
        slot: TestSlotAssignment,
    },
    /// An attempt failed, and a further one follows.
    AttemptFailed {
        test: TestInstanceId,
        status: Text,
    },
    RetryStarted {
        test: TestInstanceId,
        attempt: u32,
    },
    Finished {
        test: TestInstanceId,
        statuses: List<Text>,
    },
    Skipped {
        test: TestInstanceId,
    },
    /// The run is cancelled, or killed, for this reason.
    Cancel {
        reason: CancelReason,
        kill: bool,
    },
    /// Any other event of a run.
    Other,
}

/// What an auditor says of a list of events.
#[derive(Clone, Copy, Drop)]
pub enum Verdict {
    /// It keeps the run.
    Yes,
    /// It breaks this law, the least that it breaks, from 1, at this place, from 0: the first at which the events up to
    /// it can't be continued to a list that keeps that law, or their number where one is missing at the end.
    No { law: u32, place: u64 },
}
