// Whether an event tells what is due of a test.
ghost use Rattle.std.specs.Prelude.{◌≡◌, IfOk, map, option_copied, option_map};
ghost use lib.Pointwise.{pointwise};
ghost use Rattle.run_audit_model.specs.SeenTests.{seen_test};
ghost use Rattle.run_audit_model.specs.Statuses.{compared};
ghost use Rattle.run_audit_passes.specs.Due.{is_due_told, is_failure_of, is_finish_of, is_retry_of};

use crate::{DueStatus, DueTest};
use run_audit_model::AuditEvent;
use run_capture::{Mem, Text};
use run_events::TestInstanceId;

/// The test that an event tells of.
pub fn id_in(event: &AuditEvent) -> Option<&TestInstanceId>
    ensures { option_copied result ≡ option_map (λ told. told.0) (seen_test event.now) }
{
    match event {
        AuditEvent::TestStarted { test, .. } => Some(test),
        AuditEvent::AttemptFailed { test, .. } => Some(test),
        AuditEvent::RetryStarted { test, .. } => Some(test),
        AuditEvent::Finished { test, .. } => Some(test),
        AuditEvent::Skipped { test } => Some(test),
        _ => None,
    }
}

/// Whether these texts have what is due, one by one.
fn are_told_by<S: DueStatus>(due: &[S], texts: &[Text]) -> Mem<bool>
    ensures { IfOk result
        (λ told. told ≡ pointwise S.same (map S.status due.now) (map compared texts.now)) }
{
    if due.len() != texts.len() {
        return Ok(false);
    }
    for (place, text) in texts.iter().enumerate() {
        if !due[place].is_told_by(text)? {
            return Ok(false);
        }
    }
    Ok(true)
}

/// Whether an event tells just what is due of its test.
pub fn tells_due<S: DueStatus + Drop>(due: &DueTest<S>, event: &AuditEvent) -> Mem<bool>
    ensures { IfOk result (λ told. told ≡ is_due_told S.status S.same due.now (seen_test event.now)) }
{
    match due {
        DueTest::Began => Ok(matches!(event, AuditEvent::TestStarted { .. })),
        DueTest::Skipped => Ok(matches!(event, AuditEvent::Skipped { .. })),
        DueTest::Retried { attempt } => Ok(retries::<S>(*attempt, event)),
        DueTest::Failed { status } => fails(status, event),
        DueTest::Finished { statuses } => finishes(statuses.as_slice(), event),
    }
}

/// Whether an event tells that this attempt starts.
fn retries<S: DueStatus>(due: u32, event: &AuditEvent) -> bool
    ensures { result ≡ is_retry_of S.same due (seen_test event.now) }
{
    match event {
        AuditEvent::RetryStarted { attempt, .. } => due == *attempt,
        _ => false,
    }
}

/// Whether it tells that an attempt failed so.
fn fails<S: DueStatus>(due: &S, event: &AuditEvent) -> Mem<bool>
    ensures { IfOk result (λ told. told ≡ is_failure_of S.same (S.status due.now) (seen_test event.now)) }
{
    match event {
        AuditEvent::AttemptFailed { status, .. } => due.is_told_by(status),
        _ => Ok(false),
    }
}

/// Whether it tells a finish with these statuses.
fn finishes<S: DueStatus>(due: &[S], event: &AuditEvent) -> Mem<bool>
    ensures { IfOk result
        (λ told. told ≡ is_finish_of S.same (map S.status due.now) (seen_test event.now)) }
{
    match event {
        AuditEvent::Finished { statuses, .. } => are_told_by(due, statuses.as_slice()),
        _ => Ok(false),
    }
}
