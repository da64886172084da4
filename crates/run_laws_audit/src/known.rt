// What the types of an event say of the statuses that it tells.
ghost use Rattle.std.specs.Prelude.{◌<◌, ◌^◌, IsUtf8};
ghost use Rattle.std.specs.List.{All};
ghost use Rattle.run_output.specs.Errors.{child_errors, error_text};
ghost use Rattle.run_output.specs.Statuses.{script_status_data, status_data, stream_fields};
ghost use Rattle.run_text_laws.specs.Objects.{ArePlainFields};
ghost use Rattle.run_text_laws.specs.Plain.{IsPlain};
ghost use Rattle.run_laws_audit.specs.Plain.{HasPlainStatus, HasPlainStatusIn, IsPlainEnv, IsPlainFailure};
ghost use Rattle.run_laws_audit.specs.Plain.{IsPlainResult};

use run_capture::{ChildFdError, Text};
use run_events::{
    ChildExecutionOutput, ExecuteStatus, ExecutionResult, FailureStatus, ReporterEvent, ScriptEnv,
    SetupScriptExecuteStatus, TestEventKind,
};

// A text is UTF-8.
fn known_text(text: &Text)
    ensures { IsUtf8 text.now }
{
    let _text = text.as_str();
}

// A number of 64 bits.
fn known_number(number: u64)
    ensures { number < 2 ^ 64 }
{}

// A number of 32 bits has one of 64 bits' range.
fn known_count(number: u32)
    ensures { number < 2 ^ 64 }
{}

// The code or the signal of a failure is one of 32 bits with a sign.
fn known_failure(failure: FailureStatus)
    ensures { IsPlainFailure failure }
{
    match failure {
        FailureStatus::ExitCode(_code) => {}
        FailureStatus::Abort(_signal) => {}
    }
}

// So is that of the result of an attempt.
fn known_result(outcome: ExecutionResult)
    ensures { IsPlainResult outcome }
{
    match outcome {
        ExecutionResult::Fail { failure_status, .. } => known_failure(failure_status),
        ExecutionResult::Pass
        | ExecutionResult::Leak { .. }
        | ExecutionResult::ExecFail
        | ExecutionResult::Timeout { .. } => {}
    }
}

// An error of a child is UTF-8.
#[tactic(auto, using(crate::proofs::PlainLemmas::child_error_utf8))]
fn known_error(error: &ChildFdError)
    ensures { IsUtf8 (error_text error.now) }
{
    match error {
        ChildFdError::ReadStdout(text) => known_text(text),
        ChildFdError::ReadStderr(text) => known_text(text),
        ChildFdError::ReadCombined(text) => known_text(text),
        ChildFdError::Wait(text) => known_text(text),
    }
}

// So are all of its errors.
fn known_errors(errors: &[ChildFdError])
    ensures { All (λ error. IsUtf8 (error_text error)) errors.now }
{
    for error in errors {
        known_error(error);
    }
}

// What a child wrote, and its errors, are plain.
fn known_output(output: &ChildExecutionOutput)
    ensures streams { ArePlainFields (stream_fields output.now) }
    ensures errors { All IsUtf8 (child_errors output.now) }
{
    match output {
        ChildExecutionOutput::Output { errors, .. } => known_errors(errors.as_slice()),
        ChildExecutionOutput::StartError(error) => known_text(error),
    }
}

// So are variables.
fn known_pairs(pairs: &[(Text, Text)])
    ensures { All (λ pair. IsUtf8 pair.0 × IsUtf8 pair.1) pairs.now }
{
    for pair in pairs {
        known_text(&pair.0);
        known_text(&pair.1);
    }
}

// So is what came of an environment file.
fn known_env(env: &ScriptEnv)
    ensures { IsPlainEnv env.now }
{
    match env {
        ScriptEnv::Variables(map) => known_pairs(map.pairs()),
        ScriptEnv::Unread | ScriptEnv::Fault(_) => {}
    }
}

/// An attempt that a program has is one whose object is plain. The call does nothing else.
pub fn known_status(status: &ExecuteStatus)
    ensures { IsPlain (status_data status.now) }
{
    known_count(status.attempt);
    known_count(status.attempts);
    known_number(status.delay);
    known_number(status.start);
    known_number(status.time);
    known_result(status.result);
    known_output(&status.output);
}

/// So is the attempt of a setup script.
pub fn known_script_status(status: &SetupScriptExecuteStatus)
    ensures { IsPlain (script_status_data status.now) }
{
    known_number(status.start);
    known_number(status.time);
    known_result(status.result);
    known_output(&status.output);
    known_env(&status.env);
}

// So is each of the attempts of a test.
fn known_statuses(statuses: &[ExecuteStatus])
    ensures { All (λ status. IsPlain (status_data status)) statuses.now }
{
    for status in statuses {
        known_status(status);
    }
}

// So is what a kind of event tells.
fn known_kind(kind: &TestEventKind)
    ensures { HasPlainStatusIn kind.now }
{
    match kind {
        TestEventKind::SetupScriptFinished(event) => known_script_status(&event.status),
        TestEventKind::TestAttemptFailedWillRetry(event) => known_status(&event.failed.status),
        TestEventKind::TestFinished(event) => known_statuses(event.finish.statuses.as_slice()),
        TestEventKind::RunStarted(_)
        | TestEventKind::StressSubRunStarted(_)
        | TestEventKind::StressSubRunFinished(_)
        | TestEventKind::SetupScriptStarted(_)
        | TestEventKind::SetupScriptSlow(_)
        | TestEventKind::TestStarted(_)
        | TestEventKind::TestSlow(_)
        | TestEventKind::TestRetryStarted(_)
        | TestEventKind::TestSkipped(_)
        | TestEventKind::InfoStarted(_)
        | TestEventKind::InfoResponse(_)
        | TestEventKind::InfoFinished { .. }
        | TestEventKind::InputEnter(_)
        | TestEventKind::RunBeginCancel(_)
        | TestEventKind::RunBeginKill(_)
        | TestEventKind::RunPaused(_)
        | TestEventKind::RunContinued(_)
        | TestEventKind::RunFinished(_) => {}
    }
}

// So is what an event tells.
fn known_event(event: &ReporterEvent)
    ensures { HasPlainStatus event.now }
{
    match event {
        ReporterEvent::Test(event) => known_kind(&event.kind),
        ReporterEvent::Tick => {}
    }
}

/// Events that a program has are such that each status which they tell is plain, so that its text is read back. The
/// call does nothing else.
pub fn known_told(told: &[ReporterEvent])
    ensures { All HasPlainStatus told.now }
{
    for event in told {
        known_event(event);
    }
}
