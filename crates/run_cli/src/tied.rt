// A reporter of lines that is tied to where its sink stood, through code that knows it by its trait alone.
ghost use Rattle.std.specs.Prelude.{◌≡◌, [], ℕ, List, Option};

use run_capture::{Failed, Sink};
use run_events::{ReportFault, Reporter, ReporterEvent, Turn};
use run_output::LineReporter;
use std::alloc::Global;
use std::marker::{Brand, PhantomData};

/// Where a sink stood: for clauses alone. Code that is generic in it is called at `Brand`, where the call's
/// proof picks both.
pub trait Origin {
    /// The bytes that the sink had taken, where it tells them.
    ghost taken_before: { Option (List ℕ) };

    /// How often it had failed.
    ghost faults_before: { ℕ };
}

impl Origin for Brand {
    ghost use Rattle.std.specs.Prelude.{None};

    ghost taken_before = { None };

    ghost faults_before = { 0 };
}

/// A reporter of lines whose sink stood there when it was made.
pub struct TiedReporter<K: Sink, O: Origin> {
    lines: LineReporter<K>,
    origin: PhantomData<O>,
}

impl<K: Sink, O: Origin> TiedReporter<K, O> {
    ghost use Rattle.run_output.specs.Told.{HasTold, event_lines, some_refused};

    /// A reporter that has told nothing.
    pub fn new(sink: K) -> Self
        requires taken { O.taken_before ≡ K.taken sink }
        requires faults { O.faults_before ≡ K.faults sink }
        ensures told { ⟦<TiedReporter<K, O> as Reporter>⟧.told result [] }
        ensures faults { ⟦<TiedReporter<K, O> as Reporter>⟧.faults result ≡ 0 }
    {
        TiedReporter {
            lines: LineReporter::new(sink),
            origin: PhantomData,
        }
    }

    /// Whether it has refused an event.
    pub fn has_refused(&self) -> bool
        ensures { (answers : _) → ⟦<TiedReporter<K, O> as Reporter>⟧.told self.now answers
            → result ≡ some_refused answers }
    {
        self.lines.has_refused()
    }

    /// Hands back the sink.
    pub fn into_sink(self) -> K
        ensures told { (answers : _) → ⟦<TiedReporter<K, O> as Reporter>⟧.told self answers
            → HasTold O.taken_before (K.taken result) O.faults_before (K.faults result)
            (⟦<TiedReporter<K, O> as Reporter>⟧.faults self) (event_lines answers) }
    {
        let TiedReporter { lines, origin: _ } = self;
        lines.into_sink()
    }
}

impl<K: Sink, O: Origin> Reporter for TiedReporter<K, O> {
    type Error = Failed;

    ghost use Rattle.std.specs.Prelude.{◌≡◌, ⊤};

    ghost told = { λ r answers. (K.taken r.lines.start.value ≡ O.taken_before)
        × (K.faults r.lines.start.value ≡ O.faults_before)
        × ⟦<LineReporter<K> as Reporter>⟧.told r.lines answers };

    ghost faults = { λ r. ⟦<LineReporter<K> as Reporter>⟧.faults r.lines };

    // It doesn't keep turns.
    ghost taken = { λ _ _. ⊤ };

    fn report(&mut self, alloc: Global, event: &ReporterEvent) -> Result<(), ReportFault<Failed>> {
        self.lines.report(alloc, event)
    }

    fn took(&mut self, _alloc: Global, _turn: &Turn) {}
}
