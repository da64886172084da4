// A spawner whose answers are given.
ghost use Rattle.std.specs.Prelude.{◌≡◌, List as Items, [], ◌∷◌, ◌++◌, IfOk, OnErr};
ghost use Rattle.run_drive.specs.InMemory.{IsFed, silent_text};

use crate::given::Given;
use crate::{Begun, Said, Spawner};
use run_capture::{Boxed, List, Mem, Text};
use run_events::StartAsk;
use std::alloc::Global;

const LAST_WORD: &str = "end";

/// A spawner in memory: it answers starts from one list, and says the words of another, each from the front. With no
/// answer left it refuses a start with the text `end`; with no word left it says that the wait failed, with that text.
#[derive(Drop)]
pub struct MemorySpawner {
    begun: Given<Begun>,
    said: Given<Said>,
}

fn last_word(alloc: Global) -> Mem<Boxed<Text>>
    ensures { IfOk result (λ text. text ≡ silent_text) }
{
    Boxed::new(alloc, Text::from_str(alloc, LAST_WORD)?)
}

impl MemorySpawner {
    /// A spawner that was asked for nothing and has said nothing.
    pub fn new(begun: List<Begun>, said: List<Said>) -> Self
        ensures begun { result.begun.items ≡ begun }
        ensures said { result.said.items ≡ said }
        ensures begun_at { result.begun.at ≡ 0 }
        ensures said_at { result.said.at ≡ 0 }
    {
        MemorySpawner {
            begun: Given::new(begun),
            said: Given::new(said),
        }
    }

    /// The same lists, each from the front again.
    pub(crate) fn again(self) -> Self
        ensures begun { result.begun.items ≡ self.begun.items }
        ensures said { result.said.items ≡ self.said.items }
        ensures begun_at { result.begun.at ≡ 0 }
        ensures said_at { result.said.at ≡ 0 }
    {
        MemorySpawner {
            begun: self.begun.again(),
            said: self.said.again(),
        }
    }
}

impl Spawner for MemorySpawner {
    ghost use Rattle.run_drive.specs.InMemory.{IsFed};

    ghost has_said = { λ s heard. IsFed s.begun.items s.begun.at s.said.items s.said.at heard };

    fn start(&mut self, alloc: Global, _ask: &StartAsk) -> Mem<Begun> {
        match self.begun.next(alloc)? {
            Some(begun) => Ok(begun),
            None => Ok(Begun::Refused {
                error: last_word(alloc)?,
            }),
        }
    }

    fn next(&mut self, alloc: Global) -> Mem<Said> {
        match self.said.next(alloc)? {
            Some(said) => Ok(said),
            None => Ok(Said::WaitFailed {
                error: last_word(alloc)?,
            }),
        }
    }
}
