// Faults that end the program.
ghost use Rattle.std.specs.Prelude.{◌≡◌, IfOk};

use run_capture::{Duplicate, Mem};
use std::alloc::Global;

/// What is wrong with a plan whose line is in its table. Places are counted from 0.
#[derive(Clone, Copy, Drop)]
pub enum PlanFault {
    /// The group at this place has the limit 0; without a group, the run has 0 threads.
    ZeroLimit { group: Option<u32> },
    /// The test at this place has the binary and the name of one before it.
    DuplicateTest { test: u32 },
    /// The test at this place names a group that the plan doesn't have.
    UnknownGroup { test: u32 },
    /// The test at this place has the weight 0.
    ZeroWeight { test: u32 },
    /// The test at this place has 4,294,967,295 retries.
    TooManyRetries { test: u32 },
}

/// A fault that ends the program.
#[derive(Clone, Copy, Drop)]
pub enum Fault {
    /// The words of the command line are wrong.
    Words,
    /// A line of input, counted from 1, is no plan or turn.
    Line { line: u64 },
    /// The plan can't be run.
    Plan(PlanFault),
    /// The turn of this number, counted from 0, may not come now.
    NotEnabled { turn: u64 },
    /// The turn of this number, counted from 0, is a third signal that shuts the run down.
    ThirdSignal { turn: u64 },
    /// The input ended before the run did.
    Unfinished,
    /// A line could not be written.
    Report,
    /// The input could not be read.
    Read,
    /// Memory was wanting.
    Memory,
    /// The input is longer than 16,777,216 bytes.
    TooLong,
}

impl Duplicate for PlanFault {
    fn copy(&self, _alloc: Global) -> Mem<PlanFault> {
        Ok(*self)
    }
}

impl Duplicate for Fault {
    fn copy(&self, _alloc: Global) -> Mem<Fault> {
        Ok(*self)
    }
}
