// The outside where the run is told the time first.
ghost use Rattle.std.specs.Prelude.{◌≡◌};

use crate::pace::Pace;
use run_capture::{Mem, Shared};
use run_keep::{Came, Outside};
use std::alloc::Global;
use std::sync::Wait;
use std::time::Clock;

/// An outside that asks its host's ticker, if it has one, to tell the time before it says that something came. So that
/// comes at its own moment.
#[derive(Drop)]
pub struct PacedOutside<O: Outside + Drop, X: Wait + Clock + Drop> {
    rt: X,
    outside: O,
    pace: Option<Shared<Pace>>,
}

impl<O: Outside + Drop, X: Wait + Clock + Drop> PacedOutside<O, X> {
    /// The same outside, which asks the ticker with which it shares this.
    pub(crate) fn new(rt: X, outside: O, pace: Option<Shared<Pace>>) -> Self
        ensures { result.outside ≡ outside }
    {
        PacedOutside { rt, outside, pace }
    }
}

impl<O: Outside + Drop, X: Wait + Clock + Drop> Outside for PacedOutside<O, X> {
    ghost has_come = { λ s came. O.has_come s.outside came };

    fn next(&mut self, alloc: Global) -> Mem<Option<Came>> {
        let came = self.outside.next(alloc)?;
        if came.is_some() {
            if let Some(pace) = &self.pace {
                pace.get().refresh(&self.rt);
            }
        }
        Ok(came)
    }

    fn pause(&mut self) {
        self.outside.pause();
    }
}
