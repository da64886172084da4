// A reporter of progress that is tied to where its sink stood and to its display, through code that knows it by its
// trait alone.
ghost use Rattle.std.specs.Prelude.{◌≡◌, [], ℕ, List, Option};
ghost use Rattle.run_output.specs.Shown.{Screen, first_screen};

use run_capture::{Failed, List, Sink};
use run_events::{ReportFault, Reporter, ReporterEvent, RunMode, Turn};
use run_output::ProgressReporter;
use run_progress::MaxProgressRunning;
use std::alloc::Global;
use std::marker::{Brand, PhantomData};

/// Where a sink stood, and the display at the beginning: for clauses alone. Code that is generic in it is called at
/// `Brand`, where the call's proof picks all three.
pub trait Beginning {
    /// The bytes that the sink had taken, where it tells them.
    ghost taken_before: { Option (List ℕ) };

    /// How often it had failed.
    ghost faults_before: { ℕ };

    /// The display.
    ghost display: { Screen };
}

impl Beginning for Brand {
    ghost use Rattle.std.specs.Prelude.{None, []};
    ghost use Rattle.run_output.specs.Shown.{first_screen};
    ghost use Rattle.run_events.specs.declared.retry_policy.RunMode.TheVariants.{Test};
    ghost use Rattle.run_progress.specs.declared.max_running.MaxProgressRunning.TheVariants.{Infinite};

    ghost taken_before = { None };

    ghost faults_before = { 0 };

    ghost display = { first_screen Test Infinite 0 [] };
}

/// A reporter of progress that stood so when it was made.
pub struct TiedProgress<K: Sink, O: Beginning> {
    progress: ProgressReporter<K>,
    origin: PhantomData<O>,
}

impl<K: Sink, O: Beginning> TiedProgress<K, O> {
    ghost use Rattle.run_output.specs.Told.{HasTold};
    ghost use Rattle.run_output.specs.Shown.{shown_lines};

    /// A reporter that has told nothing.
    pub fn new(
        sink: K,
        mode: RunMode,
        run_count: u64,
        max: MaxProgressRunning,
        width: u32,
        clocks: List<u64>,
    ) -> Self
        requires taken { O.taken_before ≡ K.taken sink }
        requires faults { O.faults_before ≡ K.faults sink }
        requires display { O.display ≡ first_screen mode max width clocks }
        ensures told { ⟦<TiedProgress<K, O> as Reporter>⟧.told result [] }
        ensures faults { ⟦<TiedProgress<K, O> as Reporter>⟧.faults result ≡ 0 }
    {
        TiedProgress {
            progress: ProgressReporter::new(sink, mode, run_count, max, width, clocks),
            origin: PhantomData,
        }
    }

    /// Hands back the sink.
    pub fn into_sink(self) -> K
        ensures told { (answers : _) → ⟦<TiedProgress<K, O> as Reporter>⟧.told self answers
            → HasTold O.taken_before (K.taken result) O.faults_before (K.faults result)
            (⟦<TiedProgress<K, O> as Reporter>⟧.faults self) (shown_lines O.display answers) }
    {
        let TiedProgress {
            progress,
            origin: _,
        } = self;
        progress.into_sink()
    }
}

impl<K: Sink, O: Beginning> Reporter for TiedProgress<K, O> {
    type Error = Failed;

    ghost use Rattle.std.specs.Prelude.{◌≡◌, ⊤};
    ghost use Rattle.run_output.specs.Shown.{screen_of};

    ghost told = { λ r answers. (K.taken r.progress.start.value ≡ O.taken_before)
        × (K.faults r.progress.start.value ≡ O.faults_before)
        × (screen_of r.progress.first.value ≡ O.display)
        × ⟦<ProgressReporter<K> as Reporter>⟧.told r.progress answers };

    ghost faults = { λ r. ⟦<ProgressReporter<K> as Reporter>⟧.faults r.progress };

    // It doesn't keep turns.
    ghost taken = { λ _ _. ⊤ };

    fn report(&mut self, alloc: Global, event: &ReporterEvent) -> Result<(), ReportFault<Failed>> {
        self.progress.report(alloc, event)
    }

    fn took(&mut self, _alloc: Global, _turn: &Turn) {}
}
