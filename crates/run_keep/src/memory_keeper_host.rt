// A host whose children and times are given.
ghost use Rattle.std.specs.Prelude.{◌≡◌, [], List as Items};
ghost use Rattle.run_drive.specs.InMemory.{WereGiven};

use crate::{Child, KeeperHost, MemoryKeeper};
use run_capture::List;
use run_drive::MemoryTicker;
use std::alloc::Global;
use std::vec::IntoIter;

/// A host in memory: its keepers have these children, in order, and after them none; its ticker has these steps, and
/// after it one with none; and one word at each call.
#[derive(Drop)]
pub struct MemoryKeeperHost {
    children: IntoIter<List<Child>>,
    steps: Option<List<u64>>,
    word: u32,
}

impl MemoryKeeperHost {
    /// A host of these children for its keepers, these steps in nanoseconds, and this word.
    pub fn new(alloc: Global, children: List<List<Child>>, steps: List<u64>, word: u32) -> Self {
        MemoryKeeperHost {
            children: children.into_vec(alloc).into_iter(),
            steps: Some(steps),
            word,
        }
    }
}

impl KeeperHost for MemoryKeeperHost {
    type Worker = MemoryKeeper;

    type Tick = MemoryTicker;

    fn keeper(&mut self) -> MemoryKeeper
        ensures { result.heard ≡ [] }
    {
        match self.children.next() {
            Some(children) => MemoryKeeper::new(children),
            None => MemoryKeeper::new(List::new()),
        }
    }

    #[tactic(auto, using(crate::proofs::HostLemmas::told_nothing))]
    fn ticker(&mut self) -> MemoryTicker
        ensures { WereGiven result.steps 1000000 result.at [] }
    {
        match self.steps.take() {
            Some(steps) => MemoryTicker::new(steps),
            None => MemoryTicker::new(List::new()),
        }
    }

    fn word(&mut self) -> u32 {
        self.word
    }
}
