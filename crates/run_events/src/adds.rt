// What a finished test or setup script adds to the statistics.
ghost use Rattle.std.specs.Prelude.{◌≡◌, Bool, true, false};
ghost use Rattle.run_events.specs.Result.{is_success};
ghost use Rattle.run_events.specs.Stats.{
  AreBelow,
  failed_adds,
  last_adds,
  last_or,
  script_adds,
  test_adds,
};
ghost use Rattle.run_events.specs.declared.result.ExecutionResult.TheVariants.{ExecFail};

use crate::{ExecutionResult, FlakyResult, RunStats, SlowTimeoutResult};

// The result of the last attempt.
pub fn last_result(results: &[ExecutionResult]) -> ExecutionResult
    ensures { result ≡ last_or ExecFail results.now }
{
    match results.last() {
        Some(last) => *last,
        None => ExecutionResult::ExecFail,
    }
}

// What a test adds by its last result.
pub fn test_adds(flaky: FlakyResult, retried: bool, slow: bool, last: ExecutionResult) -> RunStats
    ensures counts { result ≡ test_adds flaky retried slow last }
    ensures small { AreBelow 2 result }
{
    if flaky == FlakyResult::Fail && retried && last.is_success() {
        failed_adds(slow)
    } else {
        last_adds(retried, slow, last)
    }
}

// What a failed test adds.
fn failed_adds(slow: bool) -> RunStats
    ensures { result ≡ failed_adds slow }
{
    RunStats {
        finished_count: 1,
        failed: 1,
        failed_slow: u64::from(slow),
        ..RunStats::nothing()
    }
}

// What a test adds by its last result, where that is no flaky failure.
fn last_adds(retried: bool, slow: bool, last: ExecutionResult) -> RunStats
    ensures counts { result ≡ last_adds retried slow last }
    ensures small { AreBelow 2 result }
{
    if last.is_success() {
        passed_adds(retried, slow, last)
    } else {
        unpassed_adds(slow, last)
    }
}

// What a test adds whose last result is a success.
fn passed_adds(retried: bool, slow: bool, last: ExecutionResult) -> RunStats
    requires { is_success last ≡ true }
    ensures counts { result ≡ last_adds retried slow last }
    ensures small { AreBelow 2 result }
{
    let passed = RunStats {
        finished_count: 1,
        passed: 1,
        flaky: u64::from(retried),
        ..RunStats::nothing()
    };
    match last {
        ExecutionResult::Pass => RunStats {
            passed_slow: u64::from(slow),
            ..passed
        },
        ExecutionResult::Leak { .. } => RunStats {
            passed_slow: u64::from(slow),
            leaky: 1,
            ..passed
        },
        ExecutionResult::Timeout { .. } => RunStats {
            passed_timed_out: 1,
            ..passed
        },
        _ => unreachable!(),
    }
}

// What a test adds whose last result is no success.
fn unpassed_adds(slow: bool, last: ExecutionResult) -> RunStats
    requires { is_success last ≡ false }
    ensures counts { (retried : Bool) → result ≡ last_adds retried slow last }
    ensures small { AreBelow 2 result }
{
    match last {
        ExecutionResult::Leak { .. } => RunStats {
            leaky_failed: 1,
            ..failed_adds(slow)
        },
        ExecutionResult::Fail { .. } => failed_adds(slow),
        ExecutionResult::Timeout { .. } => RunStats {
            finished_count: 1,
            failed_timed_out: 1,
            ..RunStats::nothing()
        },
        ExecutionResult::ExecFail => RunStats {
            finished_count: 1,
            exec_failed: 1,
            ..RunStats::nothing()
        },
        _ => unreachable!(),
    }
}

// What a finished setup script adds.
pub fn script_adds(ended: ExecutionResult) -> RunStats
    ensures counts { result ≡ script_adds ended }
    ensures small { AreBelow 2 result }
{
    let finished = RunStats {
        setup_scripts_finished_count: 1,
        ..RunStats::nothing()
    };
    match ended {
        ExecutionResult::Timeout {
            result: SlowTimeoutResult::Fail,
        } => RunStats {
            setup_scripts_timed_out: 1,
            ..finished
        },
        ExecutionResult::ExecFail => RunStats {
            setup_scripts_exec_failed: 1,
            ..finished
        },
        _ if ended.is_success() => RunStats {
            setup_scripts_passed: 1,
            ..finished
        },
        _ => RunStats {
            setup_scripts_failed: 1,
            ..finished
        },
    }
}
