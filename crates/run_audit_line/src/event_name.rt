// The names of events.
ghost use Rattle.std.specs.Prelude.{◌≡◌};
ghost use Rattle.run_audit_line.specs.EventLine.{event_named, other_named};

/// Which event a line tells, as far as an auditor looks.
#[derive(Clone, Copy, Drop)]
pub enum EventName {
    RunStarted,
    RunFinished,
    SubRunStarted,
    SubRunFinished,
    ScriptStarted,
    ScriptFinished,
    TestStarted,
    AttemptFailed,
    RetryStarted,
    TestFinished,
    TestSkipped,
    BeginCancel,
    BeginKill,
    Other,
}

// An event of which an auditor sees no more than that it is one.
fn other_named(name: &str) -> Option<EventName>
    ensures { result ≡ other_named name.now }
{
    match name {
        "tick" => Some(EventName::Other),
        "script-slow" => Some(EventName::Other),
        "test-slow" => Some(EventName::Other),
        "info-started" => Some(EventName::Other),
        "info-response" => Some(EventName::Other),
        "info-finished" => Some(EventName::Other),
        "input-enter" => Some(EventName::Other),
        "run-paused" => Some(EventName::Other),
        "run-continued" => Some(EventName::Other),
        _ => None,
    }
}

/// The event that a name names.
pub(crate) fn event_named(name: &str) -> Option<EventName>
    ensures { result ≡ event_named name.now }
{
    match name {
        "run-started" => Some(EventName::RunStarted),
        "run-finished" => Some(EventName::RunFinished),
        "sub-run-started" => Some(EventName::SubRunStarted),
        "sub-run-finished" => Some(EventName::SubRunFinished),
        "script-started" => Some(EventName::ScriptStarted),
        "script-finished" => Some(EventName::ScriptFinished),
        "test-started" => Some(EventName::TestStarted),
        "test-attempt-failed" => Some(EventName::AttemptFailed),
        "test-retry-started" => Some(EventName::RetryStarted),
        "test-finished" => Some(EventName::TestFinished),
        "test-skipped" => Some(EventName::TestSkipped),
        "run-begin-cancel" => Some(EventName::BeginCancel),
        "run-begin-kill" => Some(EventName::BeginKill),
        _ => other_named(name),
    }
}
