// A generated run, from its plan to what is told of it.
ghost use Rattle.std.specs.Prelude.{◌≡◌, ◌≤◌, IfOk, IsErrOf, None};
ghost use Rattle.run_model.specs.Journal.{outcome};
ghost use Rattle.run_engine.specs.World.{history_of};
ghost use Rattle.run_generate.specs.Generated.{IsSummary, StopsShort, error_of_step};
ghost use Rattle.run_generate.specs.OnWay.{IsOnWay};
ghost use Rattle.run_generate.specs.Plan.{generated_settings};

use crate::on_way::OnWay;
use crate::plan::runner_of;
use run_capture::OutOfMemory;
use run_engine::StepError;
use run_events::{RunOutcome, RunStats};
use std::alloc::Global;
use thiserror::Error;

/// What came of a generated run.
#[derive(Clone, Copy, Debug, Drop)]
pub struct Generated {
    /// How many events it told.
    pub events: u64,
    pub outcome: RunOutcome,
    /// The statistics that it told last.
    pub stats: RunStats,
    /// How many turns it took.
    pub turns: u64,
}

/// Why there is no such run.
#[derive(Debug, Drop, PartialEq, Eq, Error)]
pub enum GenerateError {
    /// Its turns led to no end.
    #[error("the run is not over")]
    Unfinished,
    #[error("out of memory")]
    OutOfMemory,
}

impl GenerateError {
    // Why a turn that comes next was not taken.
    pub(crate) fn of_step(error: StepError) -> GenerateError
        ensures { result ≡ error_of_step error }
    {
        match error {
            StepError::OutOfMemory => GenerateError::OutOfMemory,
            StepError::NotEnabled | StepError::ThirdSignal | StepError::Full => {
                GenerateError::Unfinished
            }
        }
    }
}

impl From<OutOfMemory> for GenerateError {
    ghost use Rattle.std.specs.Prelude.{◌≡◌};
    ghost use Rattle.run_generate.specs.declared.generated.GenerateError.TheVariants as errors;

    ghost from_gives = { λ _ e. e ≡ errors.OutOfMemory };

    fn from(_: OutOfMemory) -> Self {
        GenerateError::OutOfMemory
    }
}

// Takes turns until the run is over.
fn carry_out(alloc: Global, run: &mut OnWay) -> Result<Generated, GenerateError>
    requires { IsOnWay run.old }
    ensures summary { IfOk result (IsSummary run.old.run.settings) }
    ensures short { IsErrOf result GenerateError.Unfinished → StopsShort run.old.run.settings }
{
    for _ in 0..u64::MAX {
        if let Some(generated) = run.summary() {
            return Ok(generated);
        }
        if !run.advance(alloc)? {
            return Err(GenerateError::Unfinished);
        }
    }
    Err(GenerateError::Unfinished)
}

/// Carries out the generated plan of so many tests, 20,000 at most, by its generated turns, and counts. `Unfinished`:
/// the turns led to a place where none comes next, or one that isn't enabled, or filled the journal; a law of
/// run_laws_generate says that this never comes. In time in step with the number of tests.
pub fn generate(alloc: Global, tests: u32) -> Result<Generated, GenerateError>
    requires { tests ≤ 20000 }
    ensures summary { IfOk result (IsSummary (generated_settings tests)) }
    ensures short { IsErrOf result GenerateError.Unfinished → StopsShort (generated_settings tests) }
{
    let runner = runner_of(alloc, tests)?;
    let mut run = OnWay::new(runner.into_lean_run(alloc)?);
    let generated = carry_out(alloc, &mut run);
    drop(run);
    generated
}
