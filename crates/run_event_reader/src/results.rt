// Results and reasons by their texts.
use crate::members::word;
use run_events::{
    CancelReason, ExecutionResult, FailureStatus, LeakTimeoutResult, SlowTimeoutResult,
};
use serde_json::Value;

// A number by its digits.
fn number_of(digits: &str) -> i32 {
    digits.parse::<i32>().unwrap_or(0)
}

// A failure without what is said of a leak.
fn failure_of(text: &str) -> Option<FailureStatus> {
    if let Some(code) = text.strip_prefix("fail code ") {
        Some(FailureStatus::ExitCode(number_of(code)))
    } else if let Some(signal) = text.strip_prefix("fail signal ") {
        Some(FailureStatus::Abort(number_of(signal)))
    } else {
        None
    }
}

// A failure, or that there was no attempt.
fn fail_of(text: &str) -> ExecutionResult {
    let (text, leaked) = match text.strip_suffix(" leaked") {
        Some(front) => (front, true),
        None => (text, false),
    };
    match failure_of(text) {
        Some(failure_status) => ExecutionResult::Fail {
            failure_status,
            leaked,
        },
        None => ExecutionResult::ExecFail,
    }
}

fn result_of(text: &str) -> ExecutionResult {
    match text {
        "pass" => ExecutionResult::Pass,
        "leak-pass" => ExecutionResult::Leak {
            result: LeakTimeoutResult::Pass,
        },
        "leak-fail" => ExecutionResult::Leak {
            result: LeakTimeoutResult::Fail,
        },
        "timeout-pass" => ExecutionResult::Timeout {
            result: SlowTimeoutResult::Pass,
        },
        "timeout-fail" => ExecutionResult::Timeout {
            result: SlowTimeoutResult::Fail,
        },
        _ => fail_of(text),
    }
}

/// The result of an attempt.
pub(crate) fn result_in(object: &Value) -> ExecutionResult {
    result_of(word(object, "result"))
}

/// The result of an attempt, if one stands there.
pub(crate) fn some_result(object: &Value) -> Option<ExecutionResult> {
    match object.get("result") {
        Some(_) => Some(result_in(object)),
        None => None,
    }
}

/// Why a run is cancelled, if it is.
pub(crate) fn some_reason(object: &Value) -> Option<CancelReason> {
    match word(object, "cancel_reason") {
        "setup-script-failure" => Some(CancelReason::SetupScriptFailure),
        "test-failure" => Some(CancelReason::TestFailure),
        "report-error" => Some(CancelReason::ReportError),
        "global-timeout" => Some(CancelReason::GlobalTimeout),
        "test-failure-immediate" => Some(CancelReason::TestFailureImmediate),
        "signal" => Some(CancelReason::Signal),
        "interrupt" => Some(CancelReason::Interrupt),
        "second-signal" => Some(CancelReason::SecondSignal),
        _ => None,
    }
}
