// Which tests passed in a stored run.
ghost use Rattle.std.specs.Prelude.{◌≡◌, ◌<◌, ◌^◌, length, Some, IsSome};
ghost use Rattle.run_events.specs.declared.plan.Plan.{Plan};
ghost use Rattle.run_input.specs.Input.{plan_line_of};
ghost use Rattle.run_input.specs.declared.plan_line.RunnerKeys.{RunnerKeys};
ghost use Rattle.run_rerun.specs.Runs.{GetsStored, SaysStored};

use crate::answers::{RerunError, RunTests};
use crate::passed::run_turns;
use run_store_io::Stored;
use std::alloc::Global;

/// Which tests a stored run has, and which of them passed in it, in plan order.
///
/// A test passed if it was told finished, and each finish told adds to the tests that passed. That the store is torn or
/// the run isn't over is no error. `Plan` says that the plan is refused, `NotEnabled` and `ThirdSignal` that a turn is.
pub fn run_passed(alloc: Global, stored: &Stored) -> Result<RunTests, RerunError>
    requires plan { IsSome (plan_line_of stored.now.plan) }
    requires turns { length stored.now.turns < 2 ^ 32 }
    ensures says { (keys : RunnerKeys) (plan : Plan) → plan_line_of stored.now.plan ≡ Some (keys, plan)
        → SaysStored keys plan stored.now.turns result }
    ensures gets { (keys : RunnerKeys) (plan : Plan) → plan_line_of stored.now.plan ≡ Some (keys, plan)
        → GetsStored keys plan stored.now.turns result }
{
    run_turns(alloc, stored.plan.as_slice(), stored.turns.as_slice())
}
