// An outside in memory, and who counts the stops of a program that goes on.
ghost use Rattle.std.specs.Prelude.{◌≡◌, ◌+◌, ℕ, [], List as Items, take};

use crate::{Came, Halter, Outside};
use run_capture::{List, Mem};
use std::alloc::Global;

/// Comes after some calls in which nothing comes.
#[derive(Clone, Copy, Drop)]
pub struct Cue {
    pub after: u32,
    pub came: Came,
}

/// An outside in memory: what comes is given, each after so many calls in which nothing comes. It never waits.
#[derive(Drop)]
pub struct MemoryOutside {
    cues: List<Cue>,
    at: usize,
    calls: u32,
    came: List<Came>,
}

impl MemoryOutside {
    /// An outside from which nothing has come.
    pub fn new(cues: List<Cue>) -> Self
        ensures { result.came ≡ [] }
    {
        MemoryOutside {
            cues,
            at: 0,
            calls: 0,
            came: List::new(),
        }
    }

    // What is due, if something is.
    fn due(&self) -> Option<Came> {
        match self.cues.get(self.at) {
            Some(cue) if cue.after <= self.calls => Some(cue.came),
            _ => None,
        }
    }
}

impl Outside for MemoryOutside {
    ghost has_come = { λ s xs. s.came ≡ xs };

    fn next(&mut self, alloc: Global) -> Mem<Option<Came>> {
        match self.due() {
            Some(came) => {
                self.came.push(alloc, came)?;
                self.at = self.at.saturating_add(1);
                self.calls = 0;
                Ok(Some(came))
            }
            None => {
                self.calls = self.calls.saturating_add(1);
                Ok(None)
            }
        }
    }

    fn pause(&mut self) {
        self.calls = self.calls.saturating_add(1);
    }
}

/// Counts the stops that a program was asked for, and lets it go on.
#[derive(Drop)]
pub struct MemoryHalter {
    halts: u64,
}

impl MemoryHalter {
    /// One that stopped nothing.
    pub fn new() -> Self
        ensures { result.halts ≡ 0 }
    {
        MemoryHalter { halts: 0 }
    }

    /// How often the program was stopped.
    pub fn halts(&self) -> u64
        ensures { result ≡ self.now.halts }
    {
        self.halts
    }
}

impl Halter for MemoryHalter {
    ghost has_halted = { λ s n. s.halts ≡ n };

    fn halt(&mut self, _alloc: Global) -> Mem<()> {
        let Some(halts) = self.halts.checked_add(1) else {
            return Err(run_capture::OutOfMemory);
        };
        self.halts = halts;
        Ok(())
    }
}
