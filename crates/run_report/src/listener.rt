// Who hears the events of a run, and refuses none.
ghost use Rattle.std.specs.Prelude.{◌∷◌, []};
ghost use Rattle.run_events.specs.Tell.{Adds, Retains};

use run_capture::Failed;
use run_events::{ReporterEvent, Turn};
use std::alloc::Global;

/// Who hears the events of a run, and its turns. It needn't store them: that it has heard a list is a relation.
pub trait Listener {
    ghost use Rattle.std.specs.Prelude.{List};
    ghost use Rattle.run_events.specs.declared.events.ReporterEvent.{ReporterEvent};
    ghost use Rattle.run_events.specs.declared.turn.Turn.{Turn as TurnValue};

    /// It has heard this list.
    ghost heard: { Self → List ReporterEvent → Type 0 };

    /// It has heard that the run took these turns, in order. Of a listener that doesn't heed turns it says nothing.
    ghost taken: { Self → List TurnValue → Type 0 };

    /// Hears an event.
    fn hear(&mut self, alloc: Global, event: &ReporterEvent)
        ensures heard { Adds heard self.old self.new (event.now ∷ []) }
        ensures turns { Retains taken self.old self.new };

    /// Hears that the run has taken a turn, whose events it has heard before.
    fn hear_turn(&mut self, alloc: Global, turn: &Turn)
        ensures heard { Retains heard self.old self.new }
        ensures turns { Adds taken self.old self.new (turn.now ∷ []) };
}

/// Who writes what it hears, and can show a text at its end until it writes more.
pub trait Board: Listener {
    ghost use Rattle.std.specs.Prelude.{ℕ, List, OnOk};
    ghost use Rattle.run_events.specs.declared.events.ReporterEvent.{ReporterEvent};

    /// The second is the first, once this text was shown at its end.
    ghost draws: { Self → Self → List ℕ → Type 0 };

    /// Shows a text at the end. It is no part of what was written.
    fn draw(&mut self, text: &str) -> Result<(), Failed>
        ensures heard { (events : List ReporterEvent) → Self.heard self.old events → Self.heard self.new events }
        ensures drawn { OnOk result (draws self.old self.new text.now) };
}
