// The reader of event lines.
ghost use Rattle.std.specs.Prelude.{◌≡◌, false, option_and_then};
ghost use Rattle.serde_json.specs.View.{view};
ghost use Rattle.serde_json.specs.Written.{has_float};
ghost use Rattle.run_input.specs.ReadsValue.{ReadsValue};
ghost use Rattle.run_input.specs.ValueOf.{json_value};
ghost use Rattle.run_audit_line.specs.EventLine.{attempt_failed_of, audit_event_of, cancelled_of, event_by, retry_of};
ghost use Rattle.run_audit_line.specs.EventLine.{script_finished_of, script_started_of, test_finished_of};
ghost use Rattle.run_audit_line.specs.EventLine.{test_skipped_of, test_started_of};

use crate::event_name::{EventName, event_named};
use crate::reading::{
    assignment_at, cancel_reason_at, compact_status_at, compact_statuses_at, test_id_at,
};
use run_audit_model::AuditEvent;
use run_input::{LineError, Refusal, Wrong, no_text, read_value, str_at, u32_at};
use serde_json::Value;
use std::alloc::Global;

#[tactic(auto, unfolding(crate::specs::EventLine::test_started_of))]
fn started(alloc: Global, event: &Value) -> Result<AuditEvent, Refusal>
    ensures { ReadsValue result (test_started_of (view event.now)) }
{
    let test = test_id_at(alloc, event)?;
    let slot = assignment_at(alloc, event)?;
    Ok(AuditEvent::TestStarted { test, slot })
}

#[tactic(auto, unfolding(crate::specs::EventLine::attempt_failed_of))]
fn attempt_failed(alloc: Global, event: &Value) -> Result<AuditEvent, Refusal>
    requires { has_float (view event.now) ≡ false }
    ensures { ReadsValue result (attempt_failed_of (view event.now)) }
{
    let test = test_id_at(alloc, event)?;
    let status = compact_status_at(alloc, event)?;
    Ok(AuditEvent::AttemptFailed { test, status })
}

#[tactic(auto, unfolding(crate::specs::EventLine::retry_of))]
fn retry_started(alloc: Global, event: &Value) -> Result<AuditEvent, Refusal>
    ensures { ReadsValue result (retry_of (view event.now)) }
{
    let test = test_id_at(alloc, event)?;
    let attempt = u32_at(alloc, event, "attempt")?;
    Ok(AuditEvent::RetryStarted { test, attempt })
}

#[tactic(auto, unfolding(crate::specs::EventLine::test_finished_of))]
fn finished(alloc: Global, event: &Value) -> Result<AuditEvent, Refusal>
    requires { has_float (view event.now) ≡ false }
    ensures { ReadsValue result (test_finished_of (view event.now)) }
{
    let test = test_id_at(alloc, event)?;
    let statuses = compact_statuses_at(alloc, event)?;
    Ok(AuditEvent::Finished { test, statuses })
}

#[tactic(auto, unfolding(crate::specs::EventLine::test_skipped_of))]
fn skipped(alloc: Global, event: &Value) -> Result<AuditEvent, Refusal>
    ensures { ReadsValue result (test_skipped_of (view event.now)) }
{
    let test = test_id_at(alloc, event)?;
    Ok(AuditEvent::Skipped { test })
}

#[tactic(auto, unfolding(crate::specs::EventLine::script_started_of))]
fn script_started(alloc: Global, event: &Value) -> Result<AuditEvent, Refusal>
    ensures { ReadsValue result (script_started_of (view event.now)) }
{
    let index = u32_at(alloc, event, "index")?;
    Ok(AuditEvent::ScriptStarted { index })
}

#[tactic(auto, unfolding(crate::specs::EventLine::script_finished_of))]
fn script_finished(alloc: Global, event: &Value) -> Result<AuditEvent, Refusal>
    requires { has_float (view event.now) ≡ false }
    ensures { ReadsValue result (script_finished_of (view event.now)) }
{
    let index = u32_at(alloc, event, "index")?;
    let status = compact_status_at(alloc, event)?;
    Ok(AuditEvent::ScriptFinished { index, status })
}

#[tactic(auto, unfolding(crate::specs::EventLine::cancelled_of))]
fn cancel(alloc: Global, kill: bool, event: &Value) -> Result<AuditEvent, Refusal>
    ensures { ReadsValue result (cancelled_of kill (view event.now)) }
{
    let reason = cancel_reason_at(alloc, event)?;
    Ok(AuditEvent::Cancel { reason, kill })
}

// The event of a name.
fn event_by(alloc: Global, name: EventName, event: &Value) -> Result<AuditEvent, Refusal>
    requires { has_float (view event.now) ≡ false }
    ensures { ReadsValue result (event_by name (view event.now)) }
{
    match name {
        EventName::RunStarted => Ok(AuditEvent::RunStarted),
        EventName::RunFinished => Ok(AuditEvent::RunFinished),
        EventName::SubRunStarted => Ok(AuditEvent::SubRunStarted),
        EventName::SubRunFinished => Ok(AuditEvent::SubRunFinished),
        EventName::ScriptStarted => script_started(alloc, event),
        EventName::ScriptFinished => script_finished(alloc, event),
        EventName::TestStarted => started(alloc, event),
        EventName::AttemptFailed => attempt_failed(alloc, event),
        EventName::RetryStarted => retry_started(alloc, event),
        EventName::TestFinished => finished(alloc, event),
        EventName::TestSkipped => skipped(alloc, event),
        EventName::BeginCancel => cancel(alloc, false, event),
        EventName::BeginKill => cancel(alloc, true, event),
        EventName::Other => Ok(AuditEvent::Other),
    }
}

/// The event that a value without floats tells, as an auditor sees it: refused as `read_event_line` refuses its line.
#[tactic(auto, unfolding(crate::specs::EventLine::audit_event_of))]
pub fn event_of(alloc: Global, event: &Value) -> Result<AuditEvent, Refusal>
    requires { has_float (view event.now) ≡ false }
    ensures { ReadsValue result (audit_event_of (view event.now)) }
{
    let Some(word) = str_at(event, "event") else {
        return Err(no_text(alloc, event, "event"));
    };
    match event_named(word) {
        Some(name) => event_by(alloc, name, event),
        None => Err(Refusal::at(alloc, "event", Wrong::Not("a name of an event"))),
    }
}

#[tactic(auto, using(crate::proofs::FloatLemmas::value_plain))]
fn event_said(alloc: Global, line: &[u8]) -> Result<AuditEvent, Refusal>
    ensures { ReadsValue result (option_and_then audit_event_of (json_value line.now)) }
{
    let value = read_value(alloc, line)?;
    event_of(alloc, &value)
}

/// Reads an event line, without a line feed, as an auditor sees its event.
///
/// A line is refused exactly if it is no JSON object without floats whose `event` is the name of an event, or lacks a
/// key that an auditor sees, or has another kind of value there: `index` and `status` of scripts; `test`, `slot`,
/// `status`, `statuses` and `attempt` of tests; the `cancel_reason` of `stats` of a cancel.
pub fn read_event_line(alloc: Global, line: &[u8]) -> Result<AuditEvent, LineError>
    ensures { ReadsValue result (option_and_then audit_event_of (json_value line.now)) }
{
    match event_said(alloc, line) {
        Ok(event) => Ok(event),
        Err(refusal) => Err(refusal.error()),
    }
}
