// What the dispatcher counts.
ghost use Rattle.std.specs.Prelude.{◌≡◌, ◌+◌, ◌<◌, ◌≤◌, ◌^◌, length, count_by, map};
ghost use Rattle.run_events.specs.Stats.{AreBelow, last_or};
ghost use Rattle.run_events.specs.declared.result.ExecutionResult.TheVariants.{ExecFail};
ghost use Rattle.run_model.specs.Admission.{is_matched};
ghost use Rattle.run_model.specs.Words.{a_script, a_test, finished_test, last_slow};
ghost use Rattle.run_model.specs.Dispatch.{with_start, with_script, with_finish, with_skip};

use run_events::{ExecuteStatus, ExecutionResult, PlanTest, RunStats, TestFinish};
use run_model::Tally;

fn is_matched(test: &PlanTest) -> bool
    ensures { result ≡ is_matched test.now }
{
    test.skip.is_none()
}

/// How many tests match, and so are to run.
pub fn count_matched(tests: &[PlanTest]) -> usize
    ensures counted { result ≡ count_by is_matched tests.now }
    ensures few { result ≤ length tests.now }
{
    let mut count = 0;
    for test in tests {
        if is_matched(test) {
            count += 1;
        }
    }
    count
}

/// The counts after a test has started.
pub fn with_start(tally: Tally) -> Tally
    requires { tally.running + 1 < 2 ^ 32 }
    ensures { result ≡ with_start tally }
{
    Tally {
        running: tally.running + 1,
        ..tally
    }
}

/// The counts after a setup script has started.
pub fn with_script(tally: Tally) -> Tally
    requires { tally.scripts_running + 1 < 2 ^ 32 }
    ensures { result ≡ with_script tally }
{
    Tally {
        scripts_running: tally.scripts_running + 1,
        ..tally
    }
}

/// The counts after one more test was skipped.
pub fn with_skip(tally: Tally) -> Tally
    requires { tally.stats.skipped < 2 ^ 32 }
    ensures { result ≡ with_skip tally }
{
    let stats = RunStats {
        skipped: tally.stats.skipped + 1,
        ..tally.stats
    };
    Tally { stats, ..tally }
}

/// The counts after a test has finished.
#[tactic(auto, unfolding(run_events::specs::Stats::adds_of))]
pub fn with_finish(tally: Tally, finish: &TestFinish) -> Tally
    requires counts { AreBelow (2 ^ 32) tally.stats }
    requires attempts { 0 < length finish.now.statuses }
    requires runs { 0 < tally.running }
    ensures { result ≡ with_finish tally (a_test (finished_test finish.now)) }
{
    let statuses = finish.statuses.as_slice();
    let (last_slow, last) = last_of(statuses);
    let mut stats = tally.stats;
    stats.count_test(finish.flaky, statuses.len() > 1, last_slow, last);
    Tally {
        running: tally.running - 1,
        stats,
        ..tally
    }
}

/// The counts after a setup script has finished with this result.
pub fn with_script_finish(tally: Tally, ended: ExecutionResult) -> Tally
    requires counts { AreBelow (2 ^ 32) tally.stats }
    requires runs { 0 < tally.scripts_running }
    ensures { result ≡ with_finish tally (a_script ended) }
{
    let mut stats = tally.stats;
    stats.on_setup_script_finished(ended);
    Tally {
        scripts_running: tally.scripts_running - 1,
        stats,
        ..tally
    }
}

// Whether the last attempt was slow, and its result.
fn last_of(statuses: &[ExecuteStatus]) -> (bool, ExecutionResult)
    ensures slow { result.0 ≡ last_slow statuses.now }
    ensures last { result.1 ≡ last_or ExecFail (map (λ s. s.result) statuses.now) }
{
    match statuses.last() {
        Some(last) => (last.slow, last.result),
        None => (false, ExecutionResult::ExecFail),
    }
}
