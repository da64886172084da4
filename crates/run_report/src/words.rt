// The words of results, and of the reasons of a cancelled run.
ghost use Rattle.std.specs.Prelude.{◌≡◌, string_bytes, IfOk};
ghost use Rattle.run_report.specs.Words.{
  failed_word,
  high_name,
  leak_word,
  long_word,
  low_name,
  reason_text,
  short_failed,
  short_other,
  short_word,
  signal_name,
  abort_word,
  timeout_word,
};

use run_capture::Mem;
use run_events::{
    CancelReason, ExecutionResult, FailureStatus, LeakTimeoutResult, SlowTimeoutResult,
};
use std::alloc::Global;

// The names of the first signals of Linux.
fn low_name(signal: i32) -> &'static str
    ensures { result.now ≡ low_name signal }
{
    match signal {
        1 => "SIGHUP",
        2 => "SIGINT",
        3 => "SIGQUIT",
        4 => "SIGILL",
        5 => "SIGTRAP",
        6 => "SIGABRT",
        7 => "SIGBUS",
        8 => "SIGFPE",
        9 => "SIGKILL",
        10 => "SIGUSR1",
        11 => "SIGSEGV",
        12 => "SIGUSR2",
        13 => "SIGPIPE",
        14 => "SIGALRM",
        15 => "SIGTERM",
        _ => "",
    }
}

// The names of those after them.
fn high_name(signal: i32) -> &'static str
    ensures { result.now ≡ high_name signal }
{
    match signal {
        16 => "SIGSTKFLT",
        17 => "SIGCHLD",
        18 => "SIGCONT",
        19 => "SIGSTOP",
        20 => "SIGTSTP",
        21 => "SIGTTIN",
        22 => "SIGTTOU",
        23 => "SIGURG",
        24 => "SIGXCPU",
        25 => "SIGXFSZ",
        26 => "SIGVTALRM",
        27 => "SIGPROF",
        28 => "SIGWINCH",
        29 => "SIGIO",
        30 => "SIGPWR",
        31 => "SIGSYS",
        _ => "",
    }
}

// The name of a signal of Linux, and nothing for another number.
fn signal_name(signal: i32) -> &'static str
    ensures { result.now ≡ signal_name signal }
{
    let low = low_name(signal);
    if low.is_empty() {
        high_name(signal)
    } else {
        low
    }
}

// The word of an attempt that a signal ended.
fn abort_word(alloc: Global, signal: i32) -> Mem<String>
    ensures { IfOk result (λ s. string_bytes s ≡ abort_word signal) }
{
    let name = signal_name(signal);
    if name.is_empty() {
        Ok(format!(in alloc; "ABORT {signal}")?)
    } else {
        Ok(String::from_str(alloc, name)?)
    }
}

// The word of a failed attempt that was the only one.
fn failed(alloc: Global, status: FailureStatus, leaked: bool) -> Mem<String>
    ensures { IfOk result (λ s. string_bytes s ≡ failed_word status leaked) }
{
    match status {
        FailureStatus::Abort(signal) => abort_word(alloc, signal),
        FailureStatus::ExitCode(_) if leaked => Ok(String::from_str(alloc, "FAIL + LEAK")?),
        FailureStatus::ExitCode(_) => Ok(String::from_str(alloc, "FAIL")?),
    }
}

/// The word of an attempt that was the only one, in at most twelve columns.
#[tactic(auto, unfolding(crate::specs::Words::long_word))]
pub(crate) fn long_word(alloc: Global, ended: ExecutionResult) -> Mem<String>
    ensures { IfOk result (λ s. string_bytes s ≡ long_word ended) }
{
    let word = match ended {
        ExecutionResult::Fail {
            failure_status,
            leaked,
        } => return failed(alloc, failure_status, leaked),
        ExecutionResult::Pass => "PASS",
        ExecutionResult::ExecFail => "XFAIL",
        ExecutionResult::Leak { result: leak } => leak_word(leak),
        ExecutionResult::Timeout { result: timeout } => timeout_word(timeout),
    };
    Ok(String::from_str(alloc, word)?)
}

fn leak_word(leak: LeakTimeoutResult) -> &'static str
    ensures { result.now ≡ leak_word leak }
{
    match leak {
        LeakTimeoutResult::Pass => "LEAK",
        LeakTimeoutResult::Fail => "LEAK-FAIL",
    }
}

fn timeout_word(timeout: SlowTimeoutResult) -> &'static str
    ensures { result.now ≡ timeout_word timeout }
{
    match timeout {
        SlowTimeoutResult::Pass => "TIMEOUT-PASS",
        SlowTimeoutResult::Fail => "TIMEOUT",
    }
}

// The word of a failed attempt, behind its number.
fn failed_shortly(alloc: Global, status: FailureStatus, leaked: bool) -> Mem<String>
    ensures { IfOk result (λ s. string_bytes s ≡ short_failed status leaked) }
{
    match status {
        FailureStatus::Abort(signal) => abort_word(alloc, signal),
        FailureStatus::ExitCode(_) if leaked => Ok(String::from_str(alloc, "FL+LK")?),
        FailureStatus::ExitCode(_) => Ok(String::from_str(alloc, "FAIL")?),
    }
}

// The word of an attempt that is no plain failure, behind its number.
fn other_shortly(ended: ExecutionResult) -> &'static str
    ensures { result.now ≡ short_other ended }
{
    match ended {
        ExecutionResult::Pass => "PASS",
        ExecutionResult::Leak {
            result: LeakTimeoutResult::Pass,
        } => "LEAK",
        ExecutionResult::Leak {
            result: LeakTimeoutResult::Fail,
        } => "LKFAIL",
        ExecutionResult::Timeout {
            result: SlowTimeoutResult::Pass,
        } => "TMPASS",
        ExecutionResult::Timeout {
            result: SlowTimeoutResult::Fail,
        } => "TMT",
        ExecutionResult::ExecFail => "XFAIL",
        ExecutionResult::Fail { .. } => "",
    }
}

/// The word of an attempt behind its number.
#[tactic(auto, unfolding(crate::specs::Words::short_word))]
pub(crate) fn short_word(alloc: Global, ended: ExecutionResult) -> Mem<String>
    ensures { IfOk result (λ s. string_bytes s ≡ short_word ended) }
{
    match ended {
        ExecutionResult::Fail {
            failure_status,
            leaked,
        } => failed_shortly(alloc, failure_status, leaked),
        other => Ok(String::from_str(alloc, other_shortly(other))?),
    }
}

/// Why a run is cancelled.
pub(crate) fn reason_text(reason: CancelReason) -> &'static str
    ensures { result.now ≡ reason_text reason }
{
    match reason {
        CancelReason::SetupScriptFailure => "setup script failure",
        CancelReason::TestFailure | CancelReason::TestFailureImmediate => "test failure",
        CancelReason::ReportError => "reporting error",
        CancelReason::GlobalTimeout => "global timeout",
        CancelReason::Signal => "signal",
        CancelReason::Interrupt => "interrupt",
        CancelReason::SecondSignal => "second signal",
    }
}
