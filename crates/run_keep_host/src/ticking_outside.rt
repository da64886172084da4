// The outside of a run whose display draws anew.
ghost use Rattle.std.specs.Prelude.{◌≡◌, []};

use run_capture::Mem;
use run_host::ClockTicker;
use run_keep::{Came, Outside};
use std::alloc::Global;
use std::time::Clock;

/// An outside from which a tick comes too, where nothing else does and so long has gone by since the tick before.
#[derive(Drop)]
pub struct TickingOutside<O: Outside + Drop, C: Clock + Drop> {
    outside: O,
    ticker: ClockTicker<C>,
    /// A tick comes after so many nanoseconds, if any does.
    every: Option<u64>,
    /// So many have gone by.
    gone: u64,
}

impl<O: Outside + Drop, C: Clock + Drop> TickingOutside<O, C> {
    /// The same outside, with a tick each time that so many nanoseconds have gone by, if any is wanted.
    #[tactic(auto, using(crate::proofs::TickLemmas::ticked_never))]
    pub fn new(outside: O, clock: C, every: Option<u64>) -> Self
        ensures { O.has_come outside [] → ⟦<TickingOutside<O, C> as Outside>⟧.has_come result [] }
    {
        TickingOutside {
            outside,
            ticker: ClockTicker::new(clock),
            every,
            gone: 0,
        }
    }

    // Whether a tick is due; then the next is due so much later.
    fn is_due(&mut self) -> bool
        ensures { self.new.outside ≡ self.old.outside }
    {
        let Some(every) = self.every else {
            return false;
        };
        self.gone = self.gone.saturating_add(self.ticker.elapsed());
        if self.gone < every {
            return false;
        }
        self.gone = 0;
        true
    }
}

impl<O: Outside + Drop, C: Clock + Drop> Outside for TickingOutside<O, C> {
    ghost use Rattle.run_keep_host.specs.Ticks.{HasComeTicking};

    ghost has_come = { λ s came. HasComeTicking (O.has_come s.outside) came };

    #[tactic(auto, using(crate::proofs::TickLemmas::ticked_more, crate::proofs::TickLemmas::ticked_once, crate::proofs::TickLemmas::ticked_on))]
    fn next(&mut self, alloc: Global) -> Mem<Option<Came>> {
        match self.outside.next(alloc)? {
            Some(came) => Ok(Some(came)),
            None if self.is_due() => Ok(Some(Came::Tick)),
            None => Ok(None),
        }
    }

    #[tactic(auto, using(crate::proofs::TickLemmas::ticked_on))]
    fn pause(&mut self) {
        self.outside.pause();
    }
}
