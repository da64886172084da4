// A run with its reporter and its children, and the loop that drives it to its end.
ghost use Rattle.std.specs.Prelude.{ℕ, ◌≡◌, ◌<◌, ◌+◌, ◌^◌, length, IfOk, OnOk, false, None};
ghost use Rattle.example_supervisor.specs.Reported.{Grows, IsUpToDate, IsReported};

use crate::outside::{JobResult, Ledger, Yard};
use run_capture::{CaptureStrategy, List, OutOfMemory, Stream};
use run_engine::{Run, StepError, TestRunnerBuildError, TestRunnerBuilder};
use run_events::{ChildExit, Plan, RunOutcome, TestThreads, Turn};
use run_laws_calls::nothing_stops_without_a_cause;
use std::alloc::Global;
use thiserror::Error;

/// What came of all jobs.
#[derive(Drop)]
pub struct Report {
    pub outcome: RunOutcome,
    pub results: List<JobResult>,
}

/// Why there is no report.
#[derive(Debug, Drop, PartialEq, Eq, Error)]
pub enum SupervisorError {
    #[error(transparent)]
    Memory(#[from] OutOfMemory),
    #[error(transparent)]
    Plan(#[from] TestRunnerBuildError),
    #[error(transparent)]
    Step(#[from] StepError),
    #[error("the run was cancelled, or is not over")]
    Incomplete,
}

/// A run, its reporter and its children.
#[derive(Drop)]
pub struct Supervisor {
    run: Run,
    ledger: Ledger,
    yard: Yard,
}

impl Supervisor {
    // Takes the turns of a child: it starts, its output ends, and it exits.
    fn live(&mut self, alloc: Global, unit: u32, exit: ChildExit) -> Result<(), StepError>
        requires told { IsUpToDate self.old }
        ensures told { OnOk result (IsUpToDate self.new) }
        ensures grows { OnOk result (Grows self.old.run self.new.run) }
    {
        let Supervisor { run, ledger, yard } = self;
        let stream = Stream::Combined;
        run.step(alloc, Turn::Started { unit, pid: unit }, yard, ledger)?;
        run.step(alloc, Turn::StreamEnd { unit, stream }, yard, ledger)?;
        run.step(alloc, Turn::Exit { unit, exit }, yard, ledger)?;
        Ok(())
    }

    // Takes each turn that the run takes by itself, and where there is none those of the next child, to the end.
    #[tactic(auto, using(crate::proofs::Heard::settles_more))]
    fn run_jobs(&mut self, alloc: Global, codes: &[i32]) -> Result<(), StepError>
        requires told { IsUpToDate self.old }
        ensures told { OnOk result (IsUpToDate self.new) }
        ensures grows { OnOk result (Grows self.old.run self.new.run) }
    {
        for _ in 0..u64::MAX {
            let settled = self.run.settle(alloc, 0, &mut self.yard, &mut self.ledger)?;
            if settled.map(drop).is_some() {
                continue;
            }
            let Some(unit) = self.yard.0.pop() else {
                return Ok(());
            };
            let exit = ChildExit::Code(codes.get(unit as usize).copied().unwrap_or(0));
            self.live(alloc, unit, exit)?;
        }
        Ok(())
    }

    // Runs the jobs, and reports where the run is over and wasn't cancelled.
    fn report(&mut self, alloc: Global, codes: &[i32]) -> Result<Report, SupervisorError>
        requires told { IsUpToDate self.old }
        requires sound { self.old.run.broken ≡ false }
        requires single { self.old.run.settings.stress ≡ None }
        ensures { IfOk result (λ report. IsReported self.old.run.settings.plan report) }
    {
        self.run_jobs(alloc, codes)?;
        let (Some(outcome), false) = (self.run.outcome(), self.ledger.cancelled) else {
            return Err(SupervisorError::Incomplete);
        };
        nothing_stops_without_a_cause();
        let results = std::mem::replace(&mut self.ledger.results, List::new());
        Ok(Report { outcome, results })
    }
}

/// Runs the scripts and tests of a plan on two threads. They exit with these codes, by their numbers, or else with 0.
pub fn supervise(alloc: Global, plan: Plan, codes: &[i32]) -> Result<Report, SupervisorError>
    requires { length plan.scripts + length plan.tests < 2 ^ 32 }
    ensures { IfOk result (λ report. IsReported plan report) }
{
    let mut builder = TestRunnerBuilder::default();
    builder.set_capture_strategy(CaptureStrategy::Combined);
    builder.set_test_threads(TestThreads::Count(2));
    let run = builder.build(alloc, plan)?.into_run(alloc)?;
    let (results, cancelled) = (List::new(), false);
    let ledger = Ledger { results, cancelled };
    let yard = Yard(Vec::new(alloc));
    let mut supervisor = Supervisor { run, ledger, yard };
    let report = supervisor.report(alloc, codes);
    drop(supervisor);
    report
}
