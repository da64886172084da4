// The plan that a line says.
ghost use Rattle.std.specs.Prelude.{◌+◌, ◌<◌, ◌^◌, length, IfOk, IfErr};
ghost use Rattle.run_whole_cli.specs.Given.{BuildsFor, GivesRunner, IsUnrunnable, SaysPlan};

use run_cli::{fault_of_plan, runner_of};
use run_engine::TestRunner;
use run_events::Plan;
use run_input::{INPUT_LIMIT, LineError, RunnerKeys, read_plan_line};
use run_output::Fault;
use std::alloc::Global;

// What a line says as a plan line, or why it says nothing.
fn read_line(alloc: Global, line: &[u8]) -> Result<(RunnerKeys, Plan), Fault>
    ensures ok { IfOk result (λ said. SaysPlan line.now said.0 said.1) }
    ensures err { IfErr result (IsUnrunnable line.now) }
{
    if line.len() > INPUT_LIMIT {
        return Err(Fault::TooLong);
    }
    match read_plan_line(alloc, line) {
        Ok(said) => Ok(said),
        Err(LineError::NotInTable) => Err(Fault::Line { line: 1 }),
        Err(LineError::OutOfMemory) => Err(Fault::Memory),
    }
}

// What carries out a plan, or why it is refused.
fn runner_for(alloc: Global, keys: RunnerKeys, plan: Plan) -> Result<TestRunner, Fault>
    requires { length plan.scripts + length plan.tests < 2 ^ 32 }
    ensures { BuildsFor keys plan result }
{
    match runner_of(alloc, keys, plan) {
        Ok(runner) => Ok(runner),
        Err(error) => Err(fault_of_plan(error)),
    }
}

// What carries out the plan that a line says, or why there is none.
pub(crate) fn runner_in(alloc: Global, line: &[u8]) -> Result<TestRunner, Fault>
    ensures ok { IfOk result (GivesRunner line.now) }
    ensures err { IfErr result (IsUnrunnable line.now) }
{
    match read_line(alloc, line) {
        Ok((keys, plan)) => runner_for(alloc, keys, plan),
        Err(fault) => Err(fault),
    }
}
