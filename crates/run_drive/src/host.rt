// Where a run's workers, its time and its random words come from.
ghost use Rattle.std.specs.Prelude.{[], ◌∷◌, ◌++◌, ℕ, List};

use crate::Spawner;

/// What tells how time goes by. What it told needn't be kept: that it is a list is a relation.
pub trait Ticker {
    /// It has told these steps, oldest first.
    ghost has_told: { Self → List ℕ → Type 0 };

    /// The nanoseconds since the last answer. It may wait first.
    fn next(&mut self) -> u64
        ensures told { (ns : List ℕ) → has_told self.old ns → has_told self.new (ns ++ result ∷ []) };
}

/// A host: it makes a spawner for each worker, and a ticker.
pub trait Host {
    type Worker: Spawner + Send + Drop;

    type Tick: Ticker + Send + Drop;

    /// A spawner that was asked for nothing and has said nothing.
    fn spawner(&mut self) -> Self::Worker
        ensures { Self.Worker.has_said result [] };

    /// A ticker that has told nothing.
    fn ticker(&mut self) -> Self::Tick
        ensures { Self.Tick.has_told result [] };

    /// A random word, by which units decide what comes after an attempt.
    fn word(&mut self) -> u32;
}
