// The call of the auditor.
ghost use Rattle.std.specs.Prelude.{◌<◌, ◌^◌, IfOk, length};
ghost use Rattle.run_model.specs.Once.{HasEachIdOnce};
ghost use Rattle.run_audit.specs.Audit.{AnswersAudit, SaysAudit};
ghost use Rattle.run_audit.specs.Needs.{AreNeedsOf};
ghost use Rattle.run_audit.specs.Stops.{IsLimitStop};

use crate::absent::Absent;
use crate::needs::{Needs, needs_of};
use crate::verdict::judge;
use run_audit_model::{AuditEvent, Verdict};
use run_audit_passes::limit_place;
use run_capture::Mem;
use run_engine::{TestRunner, TestRunnerExecuteErrors};
use run_events::{EventLog, Settings, Turn};
use run_laws_audit::known_told;
use std::alloc::Global;
use std::convert::Infallible;

// Carries out the turns of a runner of whose settings this is needed, and judges the events by what was told; they stop
// keeping the limits there.
fn audit_with(
    alloc: Global,
    runner: TestRunner,
    needs: &Needs,
    limit: Option<u64>,
    turns: &[Turn],
    events: &[AuditEvent],
) -> Result<Verdict, TestRunnerExecuteErrors<Infallible>>
    requires few { length turns.now < 2 ^ 32 }
    requires needs { AreNeedsOf runner needs.now }
    requires limit { IsLimitStop runner events.now limit }
    ensures says { SaysAudit runner turns.now events.now result }
    ensures gets { AnswersAudit runner turns.now result }
{
    let mut log = EventLog::new();
    match runner.execute(alloc, turns, &mut Absent, &mut log) {
        Ok(_) => {
            let told = log.events();
            known_told(told);
            match judge(alloc, needs, limit, told, events) {
                Ok(verdict) => Ok(verdict),
                Err(_) => Err(TestRunnerExecuteErrors::OutOfMemory),
            }
        }
        Err(error) => Err(error),
    }
}

// What is needed of the settings to judge events, and where these stop keeping the limits.
fn judged(alloc: Global, settings: &Settings, events: &[AuditEvent]) -> Mem<(Needs, Option<u64>)>
    requires { HasEachIdOnce settings.now }
    ensures { IfOk result (λ needs. AreNeedsOf settings.now needs.0 × IsLimitStop settings.now events.now needs.1) }
{
    let limit = limit_place(alloc, settings, events)?;
    let needs = needs_of(alloc, settings)?;
    Ok((needs, limit))
}

/// Carries out the turns of a run, fewer than 2^32, in which no event is refused, and judges the events by it. The
/// verdict is that the events keep the run, or the least law that they break, with the first place at which the events
/// up to it can't be continued to a list that keeps that law. Turns that don't end the run are answered as `execute`
/// answers them. Nothing is asked of the events, nor of the plan.
pub fn audit(
    alloc: Global,
    runner: TestRunner,
    turns: &[Turn],
    events: &[AuditEvent],
) -> Result<Verdict, TestRunnerExecuteErrors<Infallible>>
    requires { length turns.now < 2 ^ 32 }
    ensures says { SaysAudit runner turns.now events.now result }
    ensures gets { AnswersAudit runner turns.now result }
{
    match judged(alloc, runner.settings(), events) {
        Ok((needs, limit)) => audit_with(alloc, runner, &needs, limit, turns, events),
        Err(_) => {
            drop(runner);
            Err(TestRunnerExecuteErrors::OutOfMemory)
        }
    }
}
