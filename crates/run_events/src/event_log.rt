// A reporter that keeps what it is told.
ghost use Rattle.std.specs.Prelude.{ℕ, ◌≡◌, List, [], ◌++◌, Option};
ghost use Rattle.run_events.specs.Tell.{answered, Adds, Retains};
ghost use Rattle.run_events.specs.Counts.{CountsRefusal};

use crate::{ReportFault, Reporter, ReporterEvent, Turn};
use run_capture::{Duplicate, List};
use std::alloc::Global;
use std::convert::Infallible;
use std::marker::Model;

/// The events told, in order. It never refuses one.
#[derive(Drop)]
pub struct EventLog {
    events: List<ReporterEvent>,
}

impl Model for EventLog {
    ghost use Rattle.std.specs.Prelude.{List};
    ghost use Rattle.run_events.specs.declared.events.ReporterEvent.{ReporterEvent};

    ghost Value = { List ReporterEvent };

    ghost view = { λ l. l.events };
}

impl EventLog {
    /// A log with no event.
    pub fn new() -> Self
        ensures { result ≡ [] }
    {
        EventLog {
            events: List::new(),
        }
    }

    /// The events told.
    pub fn events(&self) -> &[ReporterEvent]
        ensures { result.now ≡ self.now }
    {
        self.events.as_slice()
    }
}

impl Reporter for EventLog {
    type Error = Infallible;

    ghost use Rattle.std.specs.Prelude.{map, ⊤};

    ghost told = { λ log xs. log ≡ map (λ x. x.0) xs };

    ghost faults = { λ _. 0 };

    // It doesn't keep turns.
    ghost taken = { λ _ _. ⊤ };

    fn report(
        &mut self,
        alloc: Global,
        event: &ReporterEvent,
    ) -> Result<(), ReportFault<Infallible>> {
        let Ok(copy) = event.copy(alloc) else {
            return Err(ReportFault::OutOfMemory);
        };
        match self.events.push(alloc, copy) {
            Ok(()) => Ok(()),
            Err(_) => Err(ReportFault::OutOfMemory),
        }
    }

    fn took(&mut self, _alloc: Global, _turn: &Turn) {}
}
