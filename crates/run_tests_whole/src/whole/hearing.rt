// A reporter that keeps what it is told, and counts the turns.
ghost use Rattle.std.specs.Prelude.{[]};

use run_events::{EventLog, ReportFault, Reporter, ReporterEvent, Turn};
use std::alloc::Global;
use std::convert::Infallible;

/// The events that it was told, and how many turns.
#[derive(Drop)]
pub struct Hearing {
    pub log: EventLog,
    pub turns: u64,
}

impl Hearing {
    /// One that was told of nothing.
    pub fn new() -> Self
        ensures { ⟦<Hearing as Reporter>⟧.told result [] }
    {
        Hearing {
            log: EventLog::new(),
            turns: 0,
        }
    }
}

impl Reporter for Hearing {
    type Error = Infallible;

    ghost told = { λ h list. ⟦<EventLog as Reporter>⟧.told h.log list };

    ghost use Rattle.std.specs.Prelude.{⊤};

    ghost faults = { λ h. ⟦<EventLog as Reporter>⟧.faults h.log };

    // It counts turns, and keeps none.
    ghost taken = { λ _ _. ⊤ };

    fn report(
        &mut self,
        alloc: Global,
        event: &ReporterEvent,
    ) -> Result<(), ReportFault<Infallible>> {
        self.log.report(alloc, event)
    }

    fn took(&mut self, _alloc: Global, _turn: &Turn) {
        self.turns = self.turns.saturating_add(1);
    }
}
