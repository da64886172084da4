// The statistics that a list of told events comes to.
ghost use Rattle.std.specs.Prelude.{◌≡◌, ◌+◌, ◌<◌, ◌≤◌, ◌^◌, [], length, map, filter_map, count_by, true};
ghost use Rattle.run_events.specs.Stats.{AreBelow, adds_of, failed_adds, last_adds, last_or, nothing, plus};
ghost use Rattle.run_events.specs.Stats.{script_adds, script_finished, test_adds};
ghost use Rattle.run_events.specs.declared.result.ExecutionResult.TheVariants.{ExecFail, Pass};
ghost use Rattle.run_model.specs.Admission.{is_matched, matched_in, tests_in};
ghost use Rattle.run_model.specs.Words.{finished_test, last_slow};
ghost use Rattle.run_laws_events.specs.Counts.{stats_of_events};
ghost use Rattle.run_laws_plain.specs.Told.{AreSmall, StatsAreOfToldEvents, counted_by, plus_skip};

use crate::results::passes;
use run_events::{
    CancelReason, ExecuteStatus, ExecutionResult, FlakyResult, LeakTimeoutResult, ReporterEvent,
    RunStats, Settings, SlowTimeoutResult, TestEventKind, TestFinish,
};

// What each finished test adds.
fn finished_adds() -> RunStats
    ensures { result ≡ record nothing { finished_count = 1 } }
{
    RunStats {
        finished_count: 1,
        ..RunStats::nothing()
    }
}

// What a test adds that passed, or failed, in time and with no leak.
fn passed_adds(retried: bool, slow: bool) -> RunStats
    ensures { result ≡ last_adds retried slow Pass }
{
    RunStats {
        passed: 1,
        passed_slow: u64::from(slow),
        flaky: u64::from(retried),
        ..finished_adds()
    }
}

fn failed_adds(slow: bool) -> RunStats
    ensures { result ≡ failed_adds slow }
{
    RunStats {
        failed: 1,
        failed_slow: u64::from(slow),
        ..finished_adds()
    }
}

// What a test adds that is no flaky failure, by its last result.
fn last_adds(retried: bool, slow: bool, last: ExecutionResult) -> RunStats
    ensures counts { result ≡ last_adds retried slow last }
    ensures small { AreBelow 2 result }
    ensures none { result.setup_scripts_initial_count ≡ 0 }
{
    match last {
        ExecutionResult::Pass => passed_adds(retried, slow),
        ExecutionResult::Leak {
            result: LeakTimeoutResult::Pass,
        } => RunStats {
            leaky: 1,
            ..passed_adds(retried, slow)
        },
        ExecutionResult::Timeout {
            result: SlowTimeoutResult::Pass,
        } => RunStats {
            passed_timed_out: 1,
            ..passed_adds(retried, false)
        },
        ExecutionResult::Leak {
            result: LeakTimeoutResult::Fail,
        } => RunStats {
            leaky_failed: 1,
            ..failed_adds(slow)
        },
        ExecutionResult::Timeout {
            result: SlowTimeoutResult::Fail,
        } => RunStats {
            failed_timed_out: 1,
            ..finished_adds()
        },
        ExecutionResult::Fail { .. } => failed_adds(slow),
        ExecutionResult::ExecFail => RunStats {
            exec_failed: 1,
            ..finished_adds()
        },
    }
}

// What a test adds by its last result: a pass after a retry may count as a failure.
fn test_adds(flaky: FlakyResult, retried: bool, slow: bool, last: ExecutionResult) -> RunStats
    ensures counts { result ≡ test_adds flaky retried slow last }
    ensures small { AreBelow 2 result }
    ensures none { result.setup_scripts_initial_count ≡ 0 }
{
    if matches!(flaky, FlakyResult::Fail) && retried && passes(last) {
        failed_adds(slow)
    } else {
        last_adds(retried, slow, last)
    }
}

// The result of the last attempt.
fn last_result(statuses: &[ExecuteStatus]) -> ExecutionResult
    ensures { result ≡ last_or ExecFail (map (λ s. s.result) statuses.now) }
{
    let mut last = ExecutionResult::ExecFail;
    for status in statuses {
        last = status.result;
    }
    last
}

// Whether the last attempt was slow.
fn is_last_slow(statuses: &[ExecuteStatus]) -> bool
    ensures { result ≡ last_slow statuses.now }
{
    let mut slow = false;
    for status in statuses {
        slow = status.slow;
    }
    slow
}

// What a finished test adds.
#[tactic(auto, unfolding(run_events::specs::Stats::adds_of))]
fn adds_of(finish: &TestFinish) -> RunStats
    ensures counts { result ≡ adds_of (finished_test finish.now) }
    ensures small { AreBelow 2 result }
    ensures none { result.setup_scripts_initial_count ≡ 0 }
{
    let statuses = finish.statuses.as_slice();
    let retried = statuses.len() > 1;
    let last = last_result(statuses);
    test_adds(finish.flaky, retried, is_last_slow(statuses), last)
}

// What each finished setup script adds.
fn script_finished() -> RunStats
    ensures { result ≡ script_finished }
{
    RunStats {
        setup_scripts_finished_count: 1,
        ..RunStats::nothing()
    }
}

// What a finished setup script adds, by its result.
fn script_adds(ended: ExecutionResult) -> RunStats
    ensures counts { result ≡ script_adds ended }
    ensures small { AreBelow 2 result }
    ensures none { result.setup_scripts_initial_count ≡ 0 }
{
    match ended {
        ExecutionResult::Timeout {
            result: SlowTimeoutResult::Fail,
        } => RunStats {
            setup_scripts_timed_out: 1,
            ..script_finished()
        },
        ExecutionResult::ExecFail => RunStats {
            setup_scripts_exec_failed: 1,
            ..script_finished()
        },
        _ if passes(ended) => RunStats {
            setup_scripts_passed: 1,
            ..script_finished()
        },
        _ => RunStats {
            setup_scripts_failed: 1,
            ..script_finished()
        },
    }
}

// The sum of statistics that are small, with the cancel reason of the first.
#[tactic(auto, unfolding(run_events::specs::Stats::plus))]
fn plus(a: RunStats, b: RunStats) -> RunStats
    requires few { AreSmall a }
    requires small { AreBelow 2 b }
    requires none { b.setup_scripts_initial_count ≡ 0 }
    ensures { result ≡ plus a b }
{
    RunStats {
        initial_run_count: a.initial_run_count + b.initial_run_count,
        finished_count: a.finished_count + b.finished_count,
        setup_scripts_initial_count: a.setup_scripts_initial_count + b.setup_scripts_initial_count,
        setup_scripts_finished_count: a.setup_scripts_finished_count
            + b.setup_scripts_finished_count,
        setup_scripts_passed: a.setup_scripts_passed + b.setup_scripts_passed,
        setup_scripts_failed: a.setup_scripts_failed + b.setup_scripts_failed,
        setup_scripts_exec_failed: a.setup_scripts_exec_failed + b.setup_scripts_exec_failed,
        setup_scripts_timed_out: a.setup_scripts_timed_out + b.setup_scripts_timed_out,
        passed: a.passed + b.passed,
        passed_slow: a.passed_slow + b.passed_slow,
        passed_timed_out: a.passed_timed_out + b.passed_timed_out,
        flaky: a.flaky + b.flaky,
        failed: a.failed + b.failed,
        failed_slow: a.failed_slow + b.failed_slow,
        failed_timed_out: a.failed_timed_out + b.failed_timed_out,
        leaky: a.leaky + b.leaky,
        leaky_failed: a.leaky_failed + b.leaky_failed,
        exec_failed: a.exec_failed + b.exec_failed,
        skipped: a.skipped + b.skipped,
        cancel_reason: a.cancel_reason,
    }
}

// The statistics after one more skip.
fn with_skip(stats: RunStats) -> RunStats
    requires { AreSmall stats }
    ensures { result ≡ plus_skip true stats }
{
    RunStats {
        skipped: stats.skipped + 1,
        ..stats
    }
}

// The statistics after one more event.
fn counted(stats: RunStats, event: &ReporterEvent) -> RunStats
    requires { AreSmall stats }
    ensures { result ≡ counted_by stats event.now }
{
    match event {
        ReporterEvent::Test(event) => match &event.kind {
            TestEventKind::SetupScriptFinished(event) => {
                plus(stats, script_adds(event.status.result))
            }
            TestEventKind::TestFinished(event) => plus(stats, adds_of(&event.finish)),
            TestEventKind::TestSkipped(_) => with_skip(stats),
            _ => stats,
        },
        ReporterEvent::Tick => stats,
    }
}

// How many tests of the plan match, and so are to run.
fn matched_in(settings: &Settings) -> usize
    ensures { result ≡ matched_in settings.now }
{
    let mut count = 0;
    for test in settings.plan.tests.as_slice() {
        if test.skip.is_none() {
            count += 1;
        }
    }
    count
}

// The statistics before the first event.
#[tactic(auto, using(crate::proofs::Told::stats_first))]
fn stats_at_first(settings: &Settings, reason: Option<CancelReason>) -> RunStats
    ensures { result ≡ stats_of_events settings.now reason [] }
{
    RunStats {
        initial_run_count: matched_in(settings) as u64,
        setup_scripts_initial_count: settings.plan.scripts.len() as u64,
        cancel_reason: reason,
        ..RunStats::nothing()
    }
}

/// The statistics that these told events come to, in a run that is cancelled for this reason or for none.
pub fn stats_told(
    settings: &Settings,
    reason: Option<CancelReason>,
    events: &[ReporterEvent],
) -> RunStats
    requires few { tests_in settings.now + length events.now < 2 ^ 31 }
    ensures { result ≡ stats_of_events settings.now reason events.now }
{
    let mut stats = stats_at_first(settings, reason);
    for event in events {
        stats = counted(stats, event);
    }
    stats
}

/// The statistics of a run are those of all events told in it.
pub fn stats_are_of_told_events()
    ensures { StatsAreOfToldEvents }
{}
