// The report of a run to a person.
ghost use Rattle.std.specs.Prelude.{◌≡◌, ◌∷◌, [], true, false, is_ok, is_err, Ok, IsOk, OnOk, List as Items};
ghost use Rattle.run_events.specs.Tell.{answered, Adds};
ghost use Rattle.run_events.specs.Counts.{CountsRefusal};
ghost use Rattle.run_report.specs.Hears.{heard_after};
ghost use Rattle.run_report.specs.Kept.{kept_bytes};
ghost use Rattle.run_report.specs.Pieces.{Piece, pieces_bytes};
ghost use Rattle.run_report.specs.Report.{event_pieces};
ghost use Rattle.run_report.specs.Took.{TookPart};

use crate::bar_sink::BarSink;
use crate::heard::Heard;
use crate::{Board, Listener, ReportSettings};
use run_capture::{Failed, Sink};
use run_events::{ReportFault, Reporter, ReporterEvent, Turn};
use std::alloc::Global;
use std::convert::Infallible;
use std::snapshot::Snapshot;

/// Writes what a person sees of a run, as its events are told. It refuses no event: where its sink fails, or memory is
/// wanting, it falls silent, and writes nothing from then on.
pub struct RunReport<K: Sink> {
    sink: K,
    settings: ReportSettings,
    heard: Heard,
    // How the writing went so far.
    went: Result<(), ReportFault<Failed>>,
    // The sink as it was when the report was made.
    start: Snapshot<K>,
}

// Hears an event, and writes what it adds.
fn say<K: Sink>(
    alloc: Global,
    settings: &ReportSettings,
    heard: &mut Heard,
    sink: &mut K,
    event: &ReporterEvent,
) -> Result<(), ReportFault<Failed>>
    ensures took { (late : Items Piece) → kept_bytes heard.old.kept ≡ pieces_bytes settings.now late
        → TookPart (K.taken sink.old) (K.taken sink.new)
        (pieces_bytes settings.now (event_pieces settings.now heard.old.total late event.now)) result }
    ensures fault { CountsRefusal (K.faults sink.old) (K.faults sink.new) result }
    ensures heard { OnOk result (heard.new ≡ heard_after settings.now heard.old event.now) }
{
    match heard.hear(alloc, settings, event) {
        Ok(shown) => shown.write_to(alloc, sink),
        Err(_) => Err(ReportFault::OutOfMemory),
    }
}

impl<K: Sink> RunReport<K> {
    ghost use Rattle.run_report.specs.Speaks.{Shows};

    /// A report that has heard nothing, and starts at the sink as it is.
    pub fn new(sink: K, settings: ReportSettings) -> Self
        ensures settings { result.settings ≡ settings }
        ensures start { result.start.value ≡ sink }
        ensures heard { ⟦<RunReport<K> as Listener>⟧.heard result [] }
        ensures told { ⟦<RunReport<K> as Reporter>⟧.told result [] }
    {
        let start = Snapshot::of(&sink);
        RunReport {
            sink,
            settings,
            heard: Heard::nothing(),
            went: Ok(()),
            start,
        }
    }

    /// How the writing went so far. Where it failed, or memory was wanting, the report has fallen silent.
    pub fn went(&self) -> &Result<(), ReportFault<Failed>>
        ensures { result.now ≡ self.now.went }
    {
        &self.went
    }

    /// Hands back the sink.
    pub fn into_sink(self) -> K
        ensures { (events : Items _) → ⟦<RunReport<K> as Listener>⟧.heard self events
            → Shows self.settings (K.taken self.start.value) (K.taken result) (K.faults self.start.value)
            (K.faults result) self.went events }
    {
        let RunReport {
            sink,
            settings: _,
            heard,
            went,
            start,
        } = self;
        drop(heard);
        drop(went);
        drop(start);
        sink
    }
}

impl<K: Sink> Listener for RunReport<K> {
    ghost use Rattle.std.specs.Prelude.{⊤};
    ghost use Rattle.run_report.specs.Speaks.{Speaks};

    ghost heard = { λ r events. Speaks r.settings (K.taken r.start.value) (K.taken r.sink)
        (K.faults r.start.value) (K.faults r.sink) r.went r.heard events };

    // It doesn't keep turns.
    ghost taken = { λ _ _. ⊤ };

    fn hear(&mut self, alloc: Global, event: &ReporterEvent)
        ensures heard { Adds (λ r events. Speaks r.settings (K.taken r.start.value) (K.taken r.sink)
            (K.faults r.start.value) (K.faults r.sink) r.went r.heard events) self.old self.new (event.now ∷ []) }
        ensures settings { self.new.settings ≡ self.old.settings }
        ensures start { self.new.start.value ≡ self.old.start.value }
        // Once silent, it stays so, and writes nothing.
        ensures silent { is_err self.old.went ≡ true → self.new ≡ self.old }
    {
        if self.went.is_ok() {
            self.went = say(
                alloc,
                &self.settings,
                &mut self.heard,
                &mut self.sink,
                event,
            );
        }
    }

    fn hear_turn(&mut self, _alloc: Global, _turn: &Turn) {}
}

impl<K: Sink> Board for RunReport<BarSink<K>> {
    ghost use Rattle.run_report.specs.Bar.{Draws};

    ghost draws = { λ old new text. is_err old.went ≡ false → Draws (K.taken old.sink.sink) (K.taken new.sink.sink)
        old.sink.bar new.sink.bar text };

    /// Shows a text as the bar at the end, unless it has fallen silent.
    fn draw(&mut self, text: &str) -> Result<(), Failed> {
        if self.went.is_ok() {
            self.sink.draw(text)
        } else {
            Ok(())
        }
    }
}

impl<K: Sink> Reporter for RunReport<K> {
    type Error = Infallible;

    ghost use Rattle.std.specs.Prelude.{map, ⊤};

    ghost told = { λ r answers. ⟦<RunReport<K> as Listener>⟧.heard r (map (λ answer. answer.0) answers) };

    ghost faults = { λ _. 0 };

    // It doesn't keep turns.
    ghost taken = { λ _ _. ⊤ };

    fn report(
        &mut self,
        alloc: Global,
        event: &ReporterEvent,
    ) -> Result<(), ReportFault<Infallible>>
        ensures told { Adds (λ r answers. ⟦<RunReport<K> as Listener>⟧.heard r (map (λ answer. answer.0) answers))
            self.old self.new (answered event.now result) }
        ensures fault { CountsRefusal 0 0 result }
        ensures ok { IsOk result }
        ensures silent { is_err self.old.went ≡ true → self.new ≡ self.old }
    {
        self.hear(alloc, event);
        Ok(())
    }

    fn took(&mut self, _alloc: Global, _turn: &Turn) {}
}
