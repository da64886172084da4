// Who is told the events of a run.
ghost use Rattle.std.specs.Prelude.{ℕ, ◌≡◌, ◌≤◌, ◌∷◌, [], List, ◌++◌, Option, IfErr, OnOk, Result};
ghost use Rattle.run_capture.specs.Faults.{Rose};
ghost use Rattle.run_events.specs.Tell.{answered, Adds, Retains};
ghost use Rattle.run_events.specs.Counts.{CountsRefusal};

use crate::{ReporterEvent, Turn};
use run_capture::OutOfMemory;
use std::alloc::Global;
use thiserror::Error;

/// Why a reporter didn't take an event.
#[derive(Debug, Drop, PartialEq, Eq, Error)]
pub enum ReportFault<E> {
    /// It refused the event, with its error. Its count of faults rose.
    #[error("the event was refused")]
    Refused(E),
    /// Memory was wanting.
    #[error("out of memory")]
    OutOfMemory,
}

/// A reporter. It needn't store what it is told: that it has told a list is a relation, and so is that it was told of
/// turns.
pub trait Reporter {
    type Error: Drop;

    ghost use Rattle.run_events.specs.declared.events.ReporterEvent.{ReporterEvent};
    ghost use Rattle.run_events.specs.declared.turn.Turn.{Turn as TurnValue};

    /// It has told this list: each event with the error that refused it, or none.
    ghost told: { Self → List (ReporterEvent × Option Self.Error) → Type 0 };

    /// How often it has refused an event.
    ghost faults: { Self → ℕ };

    /// It was told that the run took these turns, in order. Of a reporter that doesn't heed turns it says nothing.
    ghost taken: { Self → List TurnValue → Type 0 };

    /// Tells an event.
    fn report(
        &mut self,
        alloc: Global,
        event: &ReporterEvent,
    ) -> Result<(), ReportFault<Self::Error>>
        ensures told { Adds told self.old self.new (answered event.now result) }
        ensures fault { CountsRefusal (faults self.old) (faults self.new) result }
        ensures turns { Retains taken self.old self.new };

    /// Hears that the run has taken a turn, whose events it was told before.
    fn took(&mut self, alloc: Global, turn: &Turn)
        ensures told { Retains told self.old self.new }
        ensures faults { faults self.new ≡ faults self.old }
        ensures turns { Adds taken self.old self.new (turn.now ∷ []) };
}
