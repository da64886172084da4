// Why there is no plan line, and with which status the program then ends.
use run_capture::{OutOfMemory, Text};
use run_plan::{PlanFault, WordError, WordFault};
use std::io;

/// A file that words name.
#[derive(Clone, Copy, Drop)]
pub enum Named {
    List,
    Cfg,
    Config,
}

/// Why there is no plan line.
#[derive(Drop)]
pub enum Failure {
    /// The word at this place, from 0, or the end of the words.
    Word {
        place: usize,
        fault: WordFault,
    },
    /// No word names the list.
    NoList,
    /// A file can't be read, or is no text.
    File {
        named: Named,
        name: Text,
        error: io::Error,
    },
    /// The system hands out no id for the run.
    NoId,
    Plan(PlanFault),
    OutOfMemory,
}

impl From<OutOfMemory> for Failure {
    fn from(_: OutOfMemory) -> Self {
        Failure::OutOfMemory
    }
}

impl From<WordError> for Failure {
    fn from(error: WordError) -> Self {
        match error {
            WordError::Wrong { place, fault } => Failure::Word { place, fault },
            WordError::OutOfMemory => Failure::OutOfMemory,
        }
    }
}

impl Named {
    fn status(self) -> u8 {
        match self {
            Named::List => 104,
            Named::Cfg => 102,
            Named::Config => 96,
        }
    }
}

impl Failure {
    /// The status that the program ends with.
    pub fn status(&self) -> u8 {
        match self {
            Failure::Word { .. } | Failure::NoList => 2,
            Failure::File { named, .. } => named.status(),
            Failure::NoId => 10,
            Failure::Plan(fault) => fault.status(),
            Failure::OutOfMemory => 11,
        }
    }
}
