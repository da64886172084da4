// Counts over the finished tests and scripts of a run.
ghost use Rattle.std.specs.Prelude.{◌≡◌, ◌<◌, ◌^◌, length, None};
ghost use Rattle.run_events.specs.Stats.{
  AreBelow,
  FinishedTest,
  adds_of,
  nothing,
  plus,
  script_adds,
  test_adds,
};
ghost use Rattle.run_events.specs.Outcome.{
  failed_count,
  has_failed_script,
  has_failures,
  is_above_failure,
  ended_at,
  summary,
};

use crate::adds::{last_result, script_adds, test_adds};
use crate::{CancelReason, ExecutionResult, FinalRunStats, FlakyResult, RunStep};

/// The statistics of a run.
#[derive(Clone, Copy, Debug, Drop, PartialEq, Eq)]
pub struct RunStats {
    /// The tests that match, and so are to run.
    pub initial_run_count: u64,
    pub finished_count: u64,
    pub setup_scripts_initial_count: u64,
    pub setup_scripts_finished_count: u64,
    pub setup_scripts_passed: u64,
    pub setup_scripts_failed: u64,
    pub setup_scripts_exec_failed: u64,
    pub setup_scripts_timed_out: u64,
    pub passed: u64,
    pub passed_slow: u64,
    pub passed_timed_out: u64,
    pub flaky: u64,
    pub failed: u64,
    pub failed_slow: u64,
    pub failed_timed_out: u64,
    pub leaky: u64,
    pub leaky_failed: u64,
    pub exec_failed: u64,
    pub skipped: u64,
    pub cancel_reason: Option<CancelReason>,
}

impl RunStats {
    /// Statistics that count nothing.
    pub fn nothing() -> RunStats
        ensures { result ≡ nothing }
    {
        RunStats {
            initial_run_count: 0,
            finished_count: 0,
            setup_scripts_initial_count: 0,
            setup_scripts_finished_count: 0,
            setup_scripts_passed: 0,
            setup_scripts_failed: 0,
            setup_scripts_exec_failed: 0,
            setup_scripts_timed_out: 0,
            passed: 0,
            passed_slow: 0,
            passed_timed_out: 0,
            flaky: 0,
            failed: 0,
            failed_slow: 0,
            failed_timed_out: 0,
            leaky: 0,
            leaky_failed: 0,
            exec_failed: 0,
            skipped: 0,
            cancel_reason: None,
        }
    }

    /// The statistics as a run starts, with so many setup scripts and tests to run.
    pub fn started(scripts: u64, tests: u64) -> RunStats
        ensures { result ≡ record nothing
            { setup_scripts_initial_count = scripts; initial_run_count = tests } }
    {
        RunStats {
            setup_scripts_initial_count: scripts,
            initial_run_count: tests,
            ..RunStats::nothing()
        }
    }

    /// Counts a finished test by the results of its attempts. The last decides, and was slow or not.
    #[tactic(auto, unfolding(crate::specs::Stats::adds_of))]
    pub fn on_test_finished(
        &mut self,
        results: &[ExecutionResult],
        last_slow: bool,
        flaky: FlakyResult,
    )
        requires below { AreBelow (2 ^ 32) self.old }
        requires attempted { 0 < length results.now }
        ensures { self.new ≡ plus self.old
            (adds_of (record { results = results.now; slow = last_slow; flaky = flaky })) }
    {
        self.count_test(flaky, results.len() > 1, last_slow, last_result(results));
    }

    /// Counts a finished test by the result of its last attempt, which was slow or not, and whether there were others.
    pub fn count_test(
        &mut self,
        flaky: FlakyResult,
        retried: bool,
        last_slow: bool,
        last: ExecutionResult,
    )
        requires { AreBelow (2 ^ 32) self.old }
        ensures { self.new ≡ plus self.old (test_adds flaky retried last_slow last) }
    {
        *self = self.plus(test_adds(flaky, retried, last_slow, last));
    }

    /// Counts a finished setup script.
    pub fn on_setup_script_finished(&mut self, ended: ExecutionResult)
        requires { AreBelow (2 ^ 32) self.old }
        ensures { self.new ≡ plus self.old (script_adds ended) }
    {
        *self = self.plus(script_adds(ended));
    }

    /// How many tests failed, at most the greatest `u64`.
    pub fn failed_count(&self) -> u64
        ensures { result ≡ failed_count self.now }
    {
        self.failed
            .saturating_add(self.exec_failed)
            .saturating_add(self.failed_timed_out)
    }

    /// Whether a test or a setup script failed.
    pub fn has_failures(&self) -> bool
        ensures { result ≡ has_failures self.now }
    {
        self.failed_count() > 0 || self.has_failed_script()
    }

    /// Whether a setup script failed.
    pub fn has_failed_script(&self) -> bool
        ensures { result ≡ has_failed_script self.now }
    {
        self.setup_scripts_failed > 0
            || self.setup_scripts_exec_failed > 0
            || self.setup_scripts_timed_out > 0
    }

    /// The summary of these statistics at the end of a run.
    #[tactic(auto, unfolding(crate::specs::Outcome::summary))]
    pub fn summarize_final(&self) -> FinalRunStats
        ensures { result ≡ summary self.now }
    {
        let reason = self.cancel_reason;
        if self.has_failed_script() {
            ended_at(RunStep::SetupScript, reason)
        } else if self.setup_scripts_finished_count < self.setup_scripts_initial_count {
            FinalRunStats::Cancelled {
                reason,
                step: RunStep::SetupScript,
            }
        } else if self.failed_count() > 0 {
            ended_at(RunStep::Test, reason)
        } else if self.finished_count < self.initial_run_count {
            FinalRunStats::Cancelled {
                reason,
                step: RunStep::Test,
            }
        } else if self.finished_count == 0 {
            FinalRunStats::NoTestsRun
        } else {
            FinalRunStats::Success
        }
    }

    // The sum, count by count, with the cancel reason of the first.
    #[tactic(auto, unfolding(crate::specs::Stats::plus))]
    fn plus(self, more: RunStats) -> RunStats
        requires below { AreBelow (2 ^ 32) self }
        requires more_below { AreBelow 2 more }
        ensures { result ≡ plus self more }
    {
        RunStats {
            initial_run_count: self.initial_run_count + more.initial_run_count,
            finished_count: self.finished_count + more.finished_count,
            setup_scripts_initial_count: self.setup_scripts_initial_count
                + more.setup_scripts_initial_count,
            setup_scripts_finished_count: self.setup_scripts_finished_count
                + more.setup_scripts_finished_count,
            setup_scripts_passed: self.setup_scripts_passed + more.setup_scripts_passed,
            setup_scripts_failed: self.setup_scripts_failed + more.setup_scripts_failed,
            setup_scripts_exec_failed: self.setup_scripts_exec_failed
                + more.setup_scripts_exec_failed,
            setup_scripts_timed_out: self.setup_scripts_timed_out + more.setup_scripts_timed_out,
            passed: self.passed + more.passed,
            passed_slow: self.passed_slow + more.passed_slow,
            passed_timed_out: self.passed_timed_out + more.passed_timed_out,
            flaky: self.flaky + more.flaky,
            failed: self.failed + more.failed,
            failed_slow: self.failed_slow + more.failed_slow,
            failed_timed_out: self.failed_timed_out + more.failed_timed_out,
            leaky: self.leaky + more.leaky,
            leaky_failed: self.leaky_failed + more.leaky_failed,
            exec_failed: self.exec_failed + more.exec_failed,
            skipped: self.skipped + more.skipped,
            cancel_reason: self.cancel_reason,
        }
    }
}

// A run with a failure at this step.
fn ended_at(step: RunStep, reason: Option<CancelReason>) -> FinalRunStats
    ensures { result ≡ ended_at step reason }
{
    if is_above_failure(reason) {
        FinalRunStats::Cancelled { reason, step }
    } else {
        FinalRunStats::Failed { step }
    }
}

// Whether a run was cancelled for more than a failure.
fn is_above_failure(reason: Option<CancelReason>) -> bool
    ensures { result ≡ is_above_failure reason }
{
    match reason {
        Some(reason) => reason > CancelReason::TestFailure,
        None => false,
    }
}
