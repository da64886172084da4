// Why an attempt is no success.
ghost use Rattle.std.specs.Prelude.{◌≡◌, ◌++◌, ◌∷◌, string_bytes, IfOk, OnOk};
ghost use Rattle.std.specs.List.{flat_map};
ghost use Rattle.run_report.specs.Blocks.{fault_said, fault_source};
ghost use Rattle.run_junit.specs.Reasons.{
  child_said,
  error_said,
  errors_said,
  fault_by_result,
  fault_tag,
  flaky_said,
  flaky_tag,
  leak_kind_said,
  message_said,
  reason_said,
  rerun_tag,
  status_said,
  type_said,
};
ghost use Rattle.run_junit.specs.Tokens.{attributes_bytes};

use crate::tag::{Key, Tag};
use crate::texts::push_attribute;
use run_capture::{ChildFdError, Mem};
use run_events::{ChildExecutionOutput, ExecuteStatus, ExecutionResult, FailureStatus};
use std::alloc::Global;

/// As what something counts that is no success.
#[derive(Clone, Copy, Drop)]
pub(crate) enum Fault {
    Failure,
    Error,
}

impl Fault {
    /// That of an attempt with this result.
    pub(crate) fn of(ended: ExecutionResult) -> Fault
        ensures { result ≡ fault_by_result ended }
    {
        match ended {
            ExecutionResult::ExecFail | ExecutionResult::Leak { .. } => Fault::Error,
            ExecutionResult::Fail { .. }
            | ExecutionResult::Timeout { .. }
            | ExecutionResult::Pass => Fault::Failure,
        }
    }

    /// Its element in a case.
    pub(crate) fn tag(self) -> Tag
        ensures { result ≡ fault_tag self }
    {
        match self {
            Fault::Failure => Tag::Failure,
            Fault::Error => Tag::Error,
        }
    }

    /// That of a later attempt of a case that failed.
    pub(crate) fn rerun_tag(self) -> Tag
        ensures { result ≡ rerun_tag self }
    {
        match self {
            Fault::Failure => Tag::RerunFailure,
            Fault::Error => Tag::RerunError,
        }
    }

    /// That of an attempt of a case that passed.
    pub(crate) fn flaky_tag(self) -> Tag
        ensures { result ≡ flaky_tag self }
    {
        match self {
            Fault::Failure => Tag::FlakyFailure,
            Fault::Error => Tag::FlakyError,
        }
    }
}

fn leak_kind_said(leaked: bool) -> &'static str
    ensures { result.now ≡ leak_kind_said leaked }
{
    if leaked { " and leaked handles" } else { "" }
}

fn status_said(alloc: Global, status: FailureStatus) -> Mem<String>
    ensures { IfOk result (λ s. string_bytes s ≡ status_said status) }
{
    match status {
        FailureStatus::ExitCode(code) => {
            Ok(format!(in alloc; "test failure with exit code {code}")?)
        }
        FailureStatus::Abort(signal) => {
            Ok(format!(in alloc; "test abort with signal {signal}")?)
        }
    }
}

fn failed_said(alloc: Global, status: FailureStatus, leaked: bool) -> Mem<String>
    ensures { IfOk result (λ s. string_bytes s ≡ status_said status ++ leak_kind_said leaked) }
{
    let mut said = status_said(alloc, status)?;
    said.push_str(leak_kind_said(leaked))?;
    Ok(said)
}

/// What kind of failure a result is.
#[tactic(auto, unfolding(crate::specs::Reasons::type_said))]
pub(crate) fn type_said(alloc: Global, ended: ExecutionResult) -> Mem<String>
    ensures { IfOk result (λ s. string_bytes s ≡ type_said ended) }
{
    let said = match ended {
        ExecutionResult::Fail {
            failure_status,
            leaked,
        } => return failed_said(alloc, failure_status, leaked),
        ExecutionResult::ExecFail => "execution failure",
        ExecutionResult::Leak { .. } => {
            "test exited with code 0, but leaked handles so was marked failed"
        }
        ExecutionResult::Timeout { .. } => "test timeout",
        ExecutionResult::Pass => "",
    };
    Ok(String::from_str(alloc, said)?)
}

// Where a fault came up.
fn fault_source(fault: &ChildFdError) -> &'static str
    ensures { result.now ≡ fault_source fault.now }
{
    match fault {
        ChildFdError::ReadStdout(_) => "stdout: ",
        ChildFdError::ReadStderr(_) => "stderr: ",
        ChildFdError::ReadCombined(_) => "combined: ",
        ChildFdError::Wait(_) => "wait: ",
    }
}

// The text of its error.
fn fault_said(fault: &ChildFdError) -> &str
    ensures { result.now ≡ fault_said fault.now }
{
    match fault {
        ChildFdError::ReadStdout(text)
        | ChildFdError::ReadStderr(text)
        | ChildFdError::ReadCombined(text)
        | ChildFdError::Wait(text) => text.as_str(),
    }
}

fn push_error(said: &mut String, fault: &ChildFdError) -> Mem<()>
    ensures { OnOk result (string_bytes said.new ≡ string_bytes said.old ++ error_said fault.now) }
{
    said.push_str(fault_source(fault))?;
    said.push_str(fault_said(fault))?;
    Ok(())
}

// Adds an error behind another.
fn push_later(said: &mut String, fault: &ChildFdError) -> Mem<()>
    ensures { OnOk result (string_bytes said.new ≡ string_bytes said.old ++ (59 ∷ 32 ∷ error_said fault.now)) }
{
    said.push_str("; ")?;
    push_error(said, fault)
}

// Adds errors behind another.
fn push_errors(said: &mut String, later: &[ChildFdError]) -> Mem<()>
    ensures { OnOk result (string_bytes said.new ≡ string_bytes said.old
        ++ flat_map (λ fault. 59 ∷ 32 ∷ error_said fault) later.now) }
{
    for fault in later {
        push_later(said, fault)?;
    }
    Ok(())
}

fn errors_said(alloc: Global, errors: &[ChildFdError]) -> Mem<String>
    ensures { IfOk result (λ s. string_bytes s ≡ errors_said errors.now) }
{
    let mut said = String::new(alloc);
    if let [first, later @ ..] = errors {
        push_error(&mut said, first)?;
        push_errors(&mut said, later)?;
    }
    Ok(said)
}

/// What is said of a child that could not be started, waited for or read.
#[tactic(auto, unfolding(crate::specs::Reasons::child_said))]
pub(crate) fn child_said(alloc: Global, child: &ChildExecutionOutput) -> Mem<String>
    ensures { IfOk result (λ s. string_bytes s ≡ child_said child.now) }
{
    match child {
        ChildExecutionOutput::StartError(text) => Ok(String::from_str(alloc, text.as_str())?),
        ChildExecutionOutput::Output { errors, .. } => errors_said(alloc, errors.as_slice()),
    }
}

/// What is said of a test that passed at this attempt, and fails since it isn't to be flaky.
#[tactic(auto, unfolding(crate::specs::Reasons::flaky_said))]
pub(crate) fn flaky_said(alloc: Global, last: &ExecuteStatus) -> Mem<String>
    ensures { IfOk result (λ s. string_bytes s ≡ flaky_said last.now) }
{
    let attempt = last.attempt;
    let attempts = last.attempts;
    Ok(format!(in alloc;
        "test passed on attempt {attempt}/{attempts} but is configured to fail when flaky"
    )?)
}

// Adds a message, unless it is empty.
#[tactic(auto, unfolding(crate::specs::Tokens::attributes_bytes))]
fn push_message(out: &mut String, message: &str) -> Mem<()>
    ensures { OnOk result (string_bytes out.new ≡ string_bytes out.old ++ attributes_bytes (message_said message.now)) }
{
    if message.is_empty() {
        return Ok(());
    }
    push_attribute(out, Key::Message, message)
}

/// Adds what is said of a failure of this type.
#[tactic(auto, using(crate::proofs::TokenLemmas::one_attribute_more), unfolding(crate::specs::Reasons::reason_said))]
pub(crate) fn push_reason_said(out: &mut String, message: &str, kind: &str) -> Mem<()>
    ensures { OnOk result (string_bytes out.new ≡ string_bytes out.old
        ++ attributes_bytes (reason_said message.now kind.now)) }
{
    push_message(out, message)?;
    push_attribute(out, Key::Type, kind)
}
