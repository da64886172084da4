// How often or how long a stress run repeats.
ghost use Rattle.std.specs.Prelude.{◌≡◌, IfOk, OnErr};
ghost use Rattle.run_commands.specs.StressCount.{SaysCount, SaysNoCount};

use run_capture::{Duplicate, Mem};
use std::alloc::Global;
use std::num::NonZero;
use thiserror::Error;

/// How often a stress run repeats.
#[derive(Clone, Copy, Debug, PartialEq, Eq)]
pub enum StressCount {
    /// So many times.
    Count {
        /// The number of sub-runs.
        count: NonZero<u32>,
    },
    /// Until something stops it.
    Infinite,
}

/// When a stress run ends.
#[derive(Debug, Drop)]
pub enum StressCondition {
    /// After so many sub-runs.
    Count(StressCount),
    /// With the first sub-run that ends when so much time has passed.
    Duration(u64),
}

/// The text is neither `infinite` nor a count from 1 to the greatest `u32`.
#[derive(Clone, Copy, Debug, Drop, PartialEq, Eq, Error)]
#[error("neither `infinite` nor a count of at least 1")]
pub struct StressCountParseError;

impl StressCount {
    /// Reads `infinite`, or decimal digits with an optional `+` before them.
    pub fn from_str(s: &str) -> Result<Self, StressCountParseError>
        ensures ok { IfOk result (SaysCount s.now) }
        ensures err { OnErr result (SaysNoCount s.now) }
    {
        if s == "infinite" {
            return Ok(StressCount::Infinite);
        }
        match s.parse::<NonZero<u32>>() {
            Ok(count) => Ok(StressCount::Count { count }),
            Err(_) => Err(StressCountParseError),
        }
    }
}

impl Duplicate for StressCount {
    fn copy(&self, _alloc: Global) -> Mem<StressCount> {
        Ok(*self)
    }
}

impl Duplicate for StressCondition {
    fn copy(&self, alloc: Global) -> Mem<StressCondition> {
        match self {
            StressCondition::Count(count) => Ok(StressCondition::Count(count.copy(alloc)?)),
            StressCondition::Duration(duration) => Ok(StressCondition::Duration(*duration)),
        }
    }
}
