// A host whose spawners and times are given.
ghost use Rattle.std.specs.Prelude.{◌≡◌, ◌+◌, ℕ, List as Items, [], ◌∷◌, ◌++◌, None, Some, length, slice_index_or};
ghost use Rattle.std.specs.Vec.Iter.{into_iter_items, into_iter_len};
ghost use Rattle.run_drive.specs.InMemory.{HandsOut, HandsTicker, IsFed, WereGiven};

use crate::{Host, MemorySpawner, Ticker};
use run_capture::List;
use std::alloc::Global;
use std::vec::IntoIter;

/// How far time goes where a ticker has no further steps: a millisecond.
const USUAL_STEP: u64 = 1_000_000;

/// A ticker in memory: it answers its steps in order, then 1,000,000. It never waits.
#[derive(Drop)]
pub struct MemoryTicker {
    steps: List<u64>,
    at: usize,
}

impl MemoryTicker {
    /// A ticker of these steps, in nanoseconds.
    pub fn new(steps: List<u64>) -> Self
        ensures steps { result.steps ≡ steps }
        ensures at { result.at ≡ 0 }
    {
        MemoryTicker { steps, at: 0 }
    }
}

impl Ticker for MemoryTicker {
    ghost use Rattle.run_drive.specs.InMemory.{WereGiven};

    ghost has_told = { λ s told. WereGiven s.steps 1000000 s.at told };

    #[tactic(auto, using(crate::proofs::InMemoryLemmas::told_step, crate::proofs::InMemoryLemmas::told_last))]
    fn next(&mut self) -> u64
        ensures told { (ns : Items ℕ) → WereGiven self.old.steps 1000000 self.old.at ns
            → WereGiven self.new.steps 1000000 self.new.at (ns ++ result ∷ []) }
        ensures step { result ≡ slice_index_or self.old.steps self.old.at 1000000 }
        ensures steps { self.new.steps ≡ self.old.steps }
    {
        let steps = self.steps.as_slice();
        if self.at < steps.len() {
            let step = steps[self.at];
            self.at += 1;
            step
        } else {
            USUAL_STEP
        }
    }
}

/// A host in memory: it hands out its spawners in order, each with its lists from the front, and after them ones with
/// empty lists; its ticker, and after it ones with no steps; and one word at each call.
#[derive(Drop)]
pub struct MemoryHost {
    spawners: IntoIter<MemorySpawner>,
    ticker: Option<MemoryTicker>,
    word: u32,
    ghost counted: { into_iter_len spawners ≡ length (into_iter_items spawners) },
}

impl MemoryHost {
    /// A host of these spawners, in order, this ticker and this word.
    pub fn new(
        alloc: Global,
        spawners: List<MemorySpawner>,
        ticker: MemoryTicker,
        word: u32,
    ) -> Self
        ensures spawners { into_iter_items result.spawners ≡ spawners }
        ensures ticker { result.ticker ≡ Some ticker }
        ensures word { result.word ≡ word }
    {
        MemoryHost {
            spawners: spawners.into_vec(alloc).into_iter(),
            ticker: Some(ticker),
            word,
        }
    }
}

impl Host for MemoryHost {
    type Worker = MemorySpawner;

    type Tick = MemoryTicker;

    #[tactic(auto, using(crate::proofs::InMemoryLemmas::fed_none, crate::proofs::InMemoryLemmas::hands_first, crate::proofs::InMemoryLemmas::hands_none))]
    fn spawner(&mut self) -> MemorySpawner
        ensures silent { IsFed result.begun.items result.begun.at result.said.items result.said.at [] }
        ensures next { HandsOut (into_iter_items self.old.spawners) result (into_iter_items self.new.spawners) }
        ensures ticker { self.new.ticker ≡ self.old.ticker }
        ensures word { self.new.word ≡ self.old.word }
    {
        match self.spawners.next() {
            Some(spawner) => spawner.again(),
            None => MemorySpawner::new(List::new(), List::new()),
        }
    }

    #[tactic(auto, using(crate::proofs::InMemoryLemmas::told_none))]
    fn ticker(&mut self) -> MemoryTicker
        ensures silent { WereGiven result.steps 1000000 result.at [] }
        ensures next { HandsTicker self.old.ticker result }
        ensures none { self.new.ticker ≡ None }
        ensures spawners { self.new.spawners ≡ self.old.spawners }
        ensures word { self.new.word ≡ self.old.word }
    {
        match self.ticker.take() {
            Some(ticker) => MemoryTicker::new(ticker.steps),
            None => MemoryTicker::new(List::new()),
        }
    }

    fn word(&mut self) -> u32
        ensures word { result ≡ self.old.word }
        ensures same { self.new ≡ self.old }
    {
        self.word
    }
}
