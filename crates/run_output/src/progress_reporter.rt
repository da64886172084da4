// The reporter that writes live progress.
ghost use Rattle.std.specs.Prelude.{◌≡◌, []};
ghost use Rattle.run_events.specs.Tell.{answered, Adds};
ghost use Rattle.run_events.specs.Counts.{CountsRefusal};
ghost use Rattle.run_output.specs.Shown.{HasShown, first_screen, screen_of};

use crate::watcher::Watcher;
use run_capture::{Failed, List, Sink, write_all};
use run_events::{ReportFault, Reporter, ReporterEvent, RunMode, Turn};
use run_progress::MaxProgressRunning;
use std::alloc::Global;
use std::snapshot::Snapshot;

/// Writes the text of a display to its sink at each tick that isn't hidden, as a line. Where the sink fails it refuses
/// the tick, of whose text a front part may have gone out, and counts it.
pub struct ProgressReporter<K: Sink> {
    sink: K,
    watcher: Watcher,
    refusals: u64,
    // The sink and the display as they were when the reporter was made.
    start: Snapshot<K>,
    first: Snapshot<Watcher>,
}

impl<K: Sink> ProgressReporter<K> {
    ghost use Rattle.run_output.specs.Told.{HasTold, some_refused};
    ghost use Rattle.run_output.specs.Shown.{shown_lines};

    /// A reporter that has told nothing, and starts at the sink as it is. Its nth tick comes at the nth of the clocks.
    pub fn new(
        sink: K,
        mode: RunMode,
        run_count: u64,
        max: MaxProgressRunning,
        width: u32,
        clocks: List<u64>,
    ) -> Self
        ensures start { result.start.value ≡ sink }
        ensures first { screen_of result.first.value ≡ first_screen mode max width clocks }
        ensures told { ⟦<ProgressReporter<K> as Reporter>⟧.told result [] }
        ensures faults { ⟦<ProgressReporter<K> as Reporter>⟧.faults result ≡ 0 }
    {
        let start = Snapshot::of(&sink);
        let watcher = Watcher::new(mode, run_count, max, width, clocks);
        let first = Snapshot::of(&watcher);
        ProgressReporter {
            sink,
            watcher,
            refusals: 0,
            start,
            first,
        }
    }

    /// Hands back the sink.
    pub fn into_sink(self) -> K
        ensures told { (answers : _) → ⟦<ProgressReporter<K> as Reporter>⟧.told self answers
            → HasTold (K.taken self.start.value) (K.taken result) (K.faults self.start.value)
            (K.faults result) (⟦<ProgressReporter<K> as Reporter>⟧.faults self)
            (shown_lines (screen_of self.first.value) answers) }
    {
        let ProgressReporter {
            sink,
            watcher,
            refusals: _,
            start,
            first,
        } = self;
        drop(watcher);
        drop(start);
        drop(first);
        sink
    }
}

impl<K: Sink> Reporter for ProgressReporter<K> {
    type Error = Failed;

    ghost use Rattle.std.specs.Prelude.{⊤};
    ghost use Rattle.run_output.specs.Shown.{HasShown, screen_of};

    ghost told = { λ r answers. HasShown (screen_of r.first.value) r.watcher
        (K.taken r.start.value) (K.taken r.sink) (K.faults r.start.value) (K.faults r.sink)
        r.refusals answers };

    ghost faults = { λ r. r.refusals };

    // It doesn't keep turns.
    ghost taken = { λ _ _. ⊤ };

    fn report(&mut self, alloc: Global, event: &ReporterEvent) -> Result<(), ReportFault<Failed>>
        ensures told { Adds (λ r answers. HasShown (screen_of r.first.value) r.watcher
            (K.taken r.start.value) (K.taken r.sink) (K.faults r.start.value) (K.faults r.sink)
            r.refusals answers) self.old self.new (answered event.now result) }
        ensures fault { CountsRefusal self.old.refusals self.new.refusals result }
        ensures start { self.new.start.value ≡ self.old.start.value }
        ensures first { self.new.first.value ≡ self.old.first.value }
        // It refuses an event only where the sink failed.
        ensures cause { CountsRefusal (K.faults self.old.sink) (K.faults self.new.sink) result }
    {
        let Ok(line) = self.watcher.line(alloc, event) else {
            return Err(ReportFault::OutOfMemory);
        };
        match write_all(&mut self.sink, line.as_bytes()) {
            Ok(()) => Ok(()),
            Err(failed) => {
                self.refusals = self.refusals.saturating_add(1);
                Err(ReportFault::Refused(failed))
            }
        }
    }

    fn took(&mut self, _alloc: Global, _turn: &Turn) {}
}
