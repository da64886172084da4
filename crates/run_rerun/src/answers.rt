// What is said of a stored run.
use run_capture::{Blob, List, OutOfMemory};
use run_events::TestInstanceId;
use thiserror::Error;

/// The tests of a run, in the order of its plan.
#[derive(Debug, Drop)]
pub struct RunTests {
    /// Those of its plan that aren't mismatched.
    pub has: List<TestInstanceId>,
    /// Those of them that passed.
    pub passed: List<TestInstanceId>,
    /// Whether the run is over.
    pub over: bool,
}

/// The plan line of a run that a store has, and its tests.
#[derive(Drop)]
pub struct StoredRun {
    pub line: Blob,
    pub tests: RunTests,
    /// Whether the store is whole.
    pub whole: bool,
}

/// What recorded shards come to together. Shards are counted from 0.
#[derive(Drop)]
pub enum ShardsVerdict {
    /// They are the whole of one plan: how many tests it wants, and how many of them passed.
    Whole { tests: u64, passed: u64 },
    /// This shard is cut short: its store is torn, or its run isn't over.
    Cut { shard: u64 },
    /// This shard is of another plan than the first.
    Other { shard: u64 },
    /// More than one shard has this test.
    Twice(TestInstanceId),
    /// No shard has this test.
    Missing(TestInstanceId),
}

/// Why it isn't known which tests passed in a run.
#[derive(Clone, Copy, Debug, Drop, PartialEq, Eq, Error)]
pub enum RerunError {
    /// The plan is refused, as by a builder of runners.
    #[error("the plan is refused")]
    Plan,
    /// The turn at this place, from 0, isn't enabled.
    #[error("turn {turn} is not enabled")]
    NotEnabled { turn: u64 },
    /// The turn at this place, from 0, is a third shutdown signal.
    #[error("turn {turn} is a third shutdown signal")]
    ThirdSignal { turn: u64 },
    /// Memory was refused.
    #[error("out of memory")]
    OutOfMemory,
}

impl From<OutOfMemory> for RerunError {
    ghost use Rattle.std.specs.Prelude.{◌≡◌};
    ghost use Rattle.run_rerun.specs.declared.answers.RerunError.TheVariants as errors;

    ghost from_gives = { λ _ e. e ≡ errors.OutOfMemory };

    fn from(_: OutOfMemory) -> Self {
        RerunError::OutOfMemory
    }
}
