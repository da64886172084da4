// The verdict on what an input says.
ghost use Rattle.std.specs.Prelude.{◌+◌, ◌<◌, ◌^◌, length};
ghost use Rattle.run_audit_cli.specs.AuditJudged.{JudgesInput};

use run_audit::audit;
use run_audit_model::{AuditEvent, Verdict};
use run_cli::{fault_of_error, fault_of_plan, runner_of};
use run_input::Input;
use run_output::Fault;
use std::alloc::Global;

/// The verdict on events by a plan and its turns, or why there is none.
pub fn judge_input(alloc: Global, input: Input, events: &[AuditEvent]) -> Result<Verdict, Fault>
    requires units { length input.plan.scripts + length input.plan.tests < 2 ^ 32 }
    requires turns { length input.turns < 2 ^ 32 }
    ensures { JudgesInput input.keys input.plan input.turns events.now result }
{
    let Input { keys, plan, turns } = input;
    match runner_of(alloc, keys, plan) {
        Ok(runner) => match audit(alloc, runner, turns.as_slice(), events) {
            Ok(verdict) => Ok(verdict),
            Err(error) => Err(fault_of_error(error)),
        },
        Err(error) => Err(fault_of_plan(error)),
    }
}
