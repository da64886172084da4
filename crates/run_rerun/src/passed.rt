// Which tests passed in a run, by its plan line and its turns.
ghost use Rattle.std.specs.Prelude.{◌≡◌, ◌+◌, ◌<◌, ◌^◌, [], length, Some, IsSome};
ghost use Rattle.run_events.specs.declared.plan.Plan.{Plan};
ghost use Rattle.run_input.specs.Input.{plan_line_of};
ghost use Rattle.run_input.specs.declared.plan_line.RunnerKeys.{RunnerKeys};
ghost use Rattle.run_rerun.specs.Outstanding.{tests_had};
ghost use Rattle.run_rerun.specs.Ledgers.{IsLedgerOf};
ghost use Rattle.run_rerun.specs.Taken.{GetsTaken, SaysTaken, as_rerun};
ghost use Rattle.run_rerun.specs.Runs.{GetsStored, GetsTests, SaysStored, SaysTests};

use crate::answers::{RerunError, RunTests};
use crate::idle::Idle;
use crate::ledger::Ledger;
use crate::tests::{tests_had, tests_of};
use run_cli::runner_of;
use run_engine::{TestRunner, TestRunnerBuildError, TestRunnerExecuteErrors};
use run_events::{Plan, RunOutcome, TestInstanceId, Turn};
use run_input::{RunnerKeys, read_plan_line};
use std::alloc::Global;
use std::convert::Infallible;

// What the answer to turns comes to here: whether the run is over.
fn as_rerun(
    answer: Result<RunOutcome, TestRunnerExecuteErrors<Infallible>>,
) -> Result<bool, RerunError>
    ensures { result ≡ as_rerun answer }
{
    match answer {
        Ok(_) => Ok(true),
        Err(TestRunnerExecuteErrors::Unfinished) => Ok(false),
        Err(TestRunnerExecuteErrors::NotEnabled { turn }) => Err(RerunError::NotEnabled { turn }),
        Err(TestRunnerExecuteErrors::ThirdSignal { turn }) => Err(RerunError::ThirdSignal { turn }),
        Err(TestRunnerExecuteErrors::Report(_)) | Err(TestRunnerExecuteErrors::OutOfMemory) => {
            Err(RerunError::OutOfMemory)
        }
    }
}

// Takes the turns of a runner, with a ledger that was told nothing; and whether the run is over then.
fn take_turns(
    alloc: Global,
    runner: TestRunner,
    turns: &[Turn],
    ledger: &mut Ledger,
) -> Result<bool, RerunError>
    requires turns { length turns.now < 2 ^ 32 }
    requires fresh { IsLedgerOf ledger.old [] }
    ensures says { SaysTaken runner turns.now ledger.new result }
    ensures gets { GetsTaken runner turns.now result }
{
    as_rerun(runner.try_execute(alloc, turns, &mut Idle, ledger))
}

// What passed in the turns of a runner that has these tests.
fn run_with(
    alloc: Global,
    runner: TestRunner,
    had: Vec<(u32, TestInstanceId)>,
    turns: &[Turn],
) -> Result<RunTests, RerunError>
    requires turns { length turns.now < 2 ^ 32 }
    requires had { had.items ≡ tests_had runner.plan }
    ensures says { SaysTests runner turns.now result }
    ensures gets { GetsTests runner turns.now result }
{
    let mut ledger = Ledger::new(alloc);
    match take_turns(alloc, runner, turns, &mut ledger) {
        Ok(over) => match tests_of(alloc, had, &ledger, over) {
            Ok(tests) => Ok(tests),
            Err(_) => Err(RerunError::OutOfMemory),
        },
        Err(error) => Err(error),
    }
}

// What passed in the turns of a runner.
fn run_runner(alloc: Global, runner: TestRunner, turns: &[Turn]) -> Result<RunTests, RerunError>
    requires turns { length turns.now < 2 ^ 32 }
    ensures says { SaysTests runner turns.now result }
    ensures gets { GetsTests runner turns.now result }
{
    match tests_had(alloc, &runner.settings().plan) {
        Ok(had) => run_with(alloc, runner, had, turns),
        Err(_) => Err(RerunError::OutOfMemory),
    }
}

// What passed in the turns of a plan.
fn run_plan(
    alloc: Global,
    keys: RunnerKeys,
    plan: Plan,
    turns: &[Turn],
) -> Result<RunTests, RerunError>
    requires units { length plan.scripts + length plan.tests < 2 ^ 32 }
    requires turns { length turns.now < 2 ^ 32 }
    ensures says { SaysStored keys plan turns.now result }
    ensures gets { GetsStored keys plan turns.now result }
{
    match runner_of(alloc, keys, plan) {
        Ok(runner) => run_runner(alloc, runner, turns),
        Err(TestRunnerBuildError::OutOfMemory) => Err(RerunError::OutOfMemory),
        Err(_) => Err(RerunError::Plan),
    }
}

/// Which tests a run has by its plan line, and which of them passed in its turns, fewer than 2^32.
///
/// A test passed if it was told finished, and each finish told adds to the tests that passed. A run that isn't over is
/// no error. `Plan` says that the plan is refused, `NotEnabled` and `ThirdSignal` that a turn is.
pub fn run_turns(alloc: Global, line: &[u8], turns: &[Turn]) -> Result<RunTests, RerunError>
    requires plan { IsSome (plan_line_of line.now) }
    requires turns { length turns.now < 2 ^ 32 }
    ensures says { (keys : RunnerKeys) (plan : Plan) → plan_line_of line.now ≡ Some (keys, plan)
        → SaysStored keys plan turns.now result }
    ensures gets { (keys : RunnerKeys) (plan : Plan) → plan_line_of line.now ≡ Some (keys, plan)
        → GetsStored keys plan turns.now result }
{
    match read_plan_line(alloc, line) {
        Ok((keys, plan)) => run_plan(alloc, keys, plan, turns),
        Err(_) => Err(RerunError::OutOfMemory),
    }
}
