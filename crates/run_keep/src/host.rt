// Where a run's keepers, its time and its random words come from.
ghost use Rattle.std.specs.Prelude.{[]};

use crate::Keeper;
use run_drive::Ticker;

/// A host of keepers: it makes a keeper for each worker, and a ticker.
pub trait KeeperHost {
    type Worker: Keeper + Send + Drop;

    type Tick: Ticker + Send + Drop;

    /// A keeper that was asked for nothing and has said nothing.
    fn keeper(&mut self) -> Self::Worker
        ensures { Self.Worker.has_heard result [] };

    /// A ticker that has told nothing.
    fn ticker(&mut self) -> Self::Tick
        ensures { Self.Tick.has_told result [] };

    /// A random word, by which units decide what comes after an attempt.
    fn word(&mut self) -> u32;
}
