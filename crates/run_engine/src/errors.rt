// Why the engine answers no outcome.
use run_capture::OutOfMemory;
use thiserror::Error;

/// Why a run takes no turn.
#[derive(Debug, Drop, PartialEq, Eq, Error)]
pub enum StepError {
    /// The turn isn't enabled. The run is unchanged.
    #[error("the turn is not enabled")]
    NotEnabled,
    /// The turn is a shutdown signal that would be taken, but that two came before it in this sub-run. The run is
    /// unchanged.
    #[error("a third shutdown signal")]
    ThirdSignal,
    /// The journal has 4,294,967,295 entries. The run is unchanged.
    #[error("the journal is full")]
    Full,
    /// Memory was wanting. The run is broken from then on: every later step answers this.
    #[error("out of memory")]
    OutOfMemory,
}

/// Why a plan is refused: the first rule that it breaks, the limits before the tests. Places count from 0.
#[derive(Debug, Drop, PartialEq, Eq, Error)]
pub enum TestRunnerBuildError {
    /// The number of threads is 0, or else the limit of the group at this place, the first such group.
    #[error("a limit on the tests that run at a time is 0")]
    ZeroLimit { group: Option<u32> },
    /// The test at this place has the id of an earlier one.
    #[error("two tests of the plan have one id")]
    DuplicateTest { test: u32 },
    /// The test at this place names a group that the plan has not.
    #[error("one of the tests names a group that the plan has not")]
    UnknownGroup { test: u32 },
    /// The test at this place has weight 0.
    #[error("one of the tests has weight 0")]
    ZeroWeight { test: u32 },
    /// The test at this place has 4,294,967,295 retries.
    #[error("one of the tests has too many retries")]
    TooManyRetries { test: u32 },
    #[error("out of memory")]
    OutOfMemory,
}

/// Why the turns of a run give no outcome.
#[derive(Debug, Drop, PartialEq, Eq, Error)]
pub enum TestRunnerExecuteErrors<E> {
    /// The run is over, and the reporter refused an event: its first error.
    #[error("an event was refused")]
    Report(E),
    /// The turn at this place, from 0, is the first that isn't enabled.
    #[error("turn {turn} is not enabled")]
    NotEnabled { turn: u64 },
    /// The same, and the turn is a shutdown signal that would be taken, but that two came before it in its sub-run.
    #[error("turn {turn} is a third shutdown signal")]
    ThirdSignal { turn: u64 },
    /// Each turn is enabled, and the run isn't over after the last.
    #[error("the run is not over")]
    Unfinished,
    /// Memory was wanting.
    #[error("out of memory")]
    OutOfMemory,
}

impl From<OutOfMemory> for StepError {
    ghost use Rattle.std.specs.Prelude.{◌≡◌};
    ghost use Rattle.run_engine.specs.declared.errors.StepError.TheVariants as answers;

    ghost from_gives = { λ _ e. e ≡ answers.OutOfMemory };

    fn from(_: OutOfMemory) -> Self {
        StepError::OutOfMemory
    }
}
