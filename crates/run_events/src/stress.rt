// Runs that are repeated: the sub-runs of a stress run.
ghost use Rattle.std.specs.Prelude.{◌≡◌};
ghost use Rattle.run_events.specs.Stress.{remaining};

use crate::FinalRunStats;
use run_commands::StressCount;

/// Which sub-run of a stress run it is: how many have ended, and how many there are to be where that is a
/// finite count.
#[derive(Clone, Copy, Drop)]
pub struct StressIndex {
    pub current: u32,
    pub total: Option<u32>,
}

/// How far a stress run is. Times are in nanoseconds.
#[derive(Clone, Copy, Debug, Drop, PartialEq, Eq)]
pub enum StressProgress {
    /// It is to have so many sub-runs.
    Count {
        total: StressCount,
        elapsed: u64,
        /// How many sub-runs have ended.
        completed: u32,
    },
    /// It is to take so much time.
    Time {
        total: u64,
        elapsed: u64,
        completed: u32,
    },
}

/// What remains of a stress run.
#[derive(Clone, Copy, Drop)]
pub enum StressRemaining {
    /// So many sub-runs, at least one.
    Runs(u32),
    /// It has no end.
    Infinite,
    /// So much time, in nanoseconds, more than none.
    Time(u64),
}

impl StressProgress {
    /// What remains, where something does: nothing where the count is reached, or where the time is
    /// spent, to the nanosecond.
    pub fn remaining(&self) -> Option<StressRemaining>
        ensures { result ≡ remaining self.now }
    {
        match *self {
            StressProgress::Count {
                total: StressCount::Infinite,
                ..
            } => Some(StressRemaining::Infinite),
            StressProgress::Count {
                total: StressCount::Count { count },
                completed,
                ..
            } => {
                let count = count.get();
                if completed < count {
                    Some(StressRemaining::Runs(count - completed))
                } else {
                    None
                }
            }
            StressProgress::Time { total, elapsed, .. } => {
                if elapsed < total {
                    Some(StressRemaining::Time(total - elapsed))
                } else {
                    None
                }
            }
        }
    }
}

/// What came of the sub-runs of a stress run.
#[derive(Clone, Copy, Drop)]
pub struct StressRunStats {
    pub completed: StressIndex,
    pub success_count: u32,
    pub failed_count: u32,
    /// The summary of the last sub-run.
    pub last_final_stats: FinalRunStats,
}
