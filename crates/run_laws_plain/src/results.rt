// Results of attempts.
ghost use Rattle.std.specs.Prelude.{◌≡◌, [], if◌then◌else◌};
ghost use Rattle.run_events.specs.Result.{execution_result, exit_result, is_success};
ghost use Rattle.run_events.specs.declared.result.ExecutionResult.TheVariants.{ExecFail};

use run_events::{ChildExit, ExecutionResult, FailureStatus, LeakTimeoutResult, SlowTimeoutResult};

// Whether an attempt with this result passed.
pub(crate) fn passes(outcome: ExecutionResult) -> bool
    ensures { result ≡ is_success outcome }
{
    match outcome {
        ExecutionResult::Pass => true,
        ExecutionResult::Leak { result } => matches!(result, LeakTimeoutResult::Pass),
        ExecutionResult::Timeout { result } => matches!(result, SlowTimeoutResult::Pass),
        ExecutionResult::Fail { .. } => false,
        ExecutionResult::ExecFail => false,
    }
}

// What the end of a child means, by whether it left a descriptor open, and what that is to mean.
fn exit_result(exit: ChildExit, leaked: bool, leak: LeakTimeoutResult) -> ExecutionResult
    ensures { result ≡ exit_result exit leaked leak }
{
    let failure_status = match exit {
        ChildExit::Code(0) if leaked => return ExecutionResult::Leak { result: leak },
        ChildExit::Code(0) => return ExecutionResult::Pass,
        ChildExit::Code(code) => FailureStatus::ExitCode(code),
        ChildExit::Signal(signal) => FailureStatus::Abort(signal),
    };
    ExecutionResult::Fail {
        failure_status,
        leaked,
    }
}

/// The result of an attempt whose start wasn't refused and that didn't run out of time: it failed to run where its
/// child wasn't seen to end, and at an error; else it is as its child ended.
pub(crate) fn execution_result(
    exit: Option<ChildExit>,
    has_errors: bool,
    leaked: bool,
    leak: LeakTimeoutResult,
) -> ExecutionResult
    ensures { result ≡ (if has_errors then ExecFail else execution_result exit [] leaked leak) }
{
    match exit {
        Some(exit) if !has_errors => exit_result(exit, leaked, leak),
        _ => ExecutionResult::ExecFail,
    }
}
