// The reporter that writes each event as a line.
ghost use Rattle.std.specs.Prelude.{◌≡◌, []};
ghost use Rattle.run_events.specs.Tell.{answered, Adds};
ghost use Rattle.run_events.specs.Counts.{CountsRefusal};

use crate::events::whole_event_line;
use run_capture::{Failed, Sink};
use run_events::{ReportFault, Reporter, ReporterEvent, Turn};
use std::alloc::Global;
use std::snapshot::Snapshot;

/// Writes each event that it is told to its sink, as a line. Where the sink fails it refuses the event,
/// of whose line a front part may have gone out, and counts it.
pub struct LineReporter<K: Sink> {
    sink: K,
    refusals: u64,
    // The sink as it was when the reporter was made.
    start: Snapshot<K>,
}

impl<K: Sink> LineReporter<K> {
    ghost use Rattle.run_output.specs.Told.{HasTold, event_lines, some_refused};

    /// A reporter that has told nothing, and starts at the sink as it is.
    pub fn new(sink: K) -> Self
        ensures start { result.start.value ≡ sink }
        ensures told { ⟦<LineReporter<K> as Reporter>⟧.told result [] }
        ensures faults { ⟦<LineReporter<K> as Reporter>⟧.faults result ≡ 0 }
    {
        let start = Snapshot::of(&sink);
        LineReporter {
            sink,
            refusals: 0,
            start,
        }
    }

    /// Whether it has refused an event.
    pub fn has_refused(&self) -> bool
        ensures { (answers : _) → ⟦<LineReporter<K> as Reporter>⟧.told self.now answers
            → result ≡ some_refused answers }
    {
        self.refusals > 0
    }

    /// Hands back the sink.
    pub fn into_sink(self) -> K
        ensures told { (answers : _) → ⟦<LineReporter<K> as Reporter>⟧.told self answers
            → HasTold (K.taken self.start.value) (K.taken result) (K.faults self.start.value)
            (K.faults result) (⟦<LineReporter<K> as Reporter>⟧.faults self) (event_lines answers) }
    {
        let LineReporter {
            sink,
            refusals: _,
            start,
        } = self;
        drop(start);
        sink
    }
}

impl<K: Sink> Reporter for LineReporter<K> {
    type Error = Failed;

    ghost use Rattle.std.specs.Prelude.{⊤};
    ghost use Rattle.run_output.specs.Told.{HasTold, event_lines};

    ghost told = { λ r answers. HasTold (K.taken r.start.value) (K.taken r.sink)
        (K.faults r.start.value) (K.faults r.sink) r.refusals (event_lines answers) };

    ghost faults = { λ r. r.refusals };

    // It doesn't keep turns.
    ghost taken = { λ _ _. ⊤ };

    fn report(&mut self, alloc: Global, event: &ReporterEvent) -> Result<(), ReportFault<Failed>>
        ensures told { Adds (λ r answers. HasTold (K.taken r.start.value) (K.taken r.sink)
            (K.faults r.start.value) (K.faults r.sink) r.refusals (event_lines answers))
            self.old self.new (answered event.now result) }
        ensures fault { CountsRefusal self.old.refusals self.new.refusals result }
        ensures start { self.new.start.value ≡ self.old.start.value }
        // It refuses an event only where the sink failed.
        ensures cause { CountsRefusal (K.faults self.old.sink) (K.faults self.new.sink) result }
    {
        let Ok(line) = whole_event_line(alloc, event) else {
            return Err(ReportFault::OutOfMemory);
        };
        match line.write_to(&mut self.sink) {
            Ok(()) => Ok(()),
            Err(failed) => {
                self.refusals = self.refusals.saturating_add(1);
                Err(ReportFault::Refused(failed))
            }
        }
    }

    fn took(&mut self, _alloc: Global, _turn: &Turn) {}
}
