// The JUnit file of a run.
ghost use Rattle.std.specs.Prelude.{◌≡◌, ◌∷◌, ◌++◌, [], OnOk, List as Items};
ghost use Rattle.run_capture.specs.Bytes.{Takes};
ghost use Rattle.run_events.specs.Counts.{CountsRefusal};
ghost use Rattle.run_events.specs.Tell.{Adds};
ghost use Rattle.run_junit.specs.Document.{junit_text};
ghost use Rattle.run_junit.specs.Heard.{Remembers};

use crate::heard::Heard;
use crate::write::write_heard;
use run_capture::{Failed, Mem, OutOfMemory, Sink};
use run_events::{ReportFault, ReporterEvent, Turn};
use run_report::Listener;
use std::alloc::Global;
use std::mem;

/// Keeps of each finished test and setup script its case, as it is told, and at the end writes the JUnit file of the
/// run. It refuses no event: where memory is wanting it is given up, and says so at the end.
#[derive(Drop)]
pub struct JUnitReport {
    // When the run's clock was 0, in milliseconds since the start of 1970.
    started: Option<u64>,
    heard: Mem<Heard>,
}

impl JUnitReport {
    /// One that has heard nothing, of a run that starts so many milliseconds after the start of 1970, if that is known.
    pub fn new(alloc: Global, started: Option<u64>) -> JUnitReport
        ensures started { result.started ≡ started }
        ensures heard { ⟦<JUnitReport as Listener>⟧.heard result [] }
    {
        JUnitReport {
            started,
            heard: Heard::nothing(alloc),
        }
    }

    /// Writes the file, in pieces. After an error a front part of it may have gone out; where memory was wanting to
    /// what it heard, none.
    pub fn write<K: Sink>(&self, alloc: Global, sink: &mut K) -> Result<(), ReportFault<Failed>>
        ensures written { (events : Items _) → ⟦<JUnitReport as Listener>⟧.heard self.now events
            → OnOk result (Takes (K.taken sink.old) (K.taken sink.new) (junit_text self.now.started events)) }
        ensures fault { CountsRefusal (K.faults sink.old) (K.faults sink.new) result }
    {
        match &self.heard {
            Ok(heard) => write_heard(alloc, sink, self.started, heard),
            Err(_) => Err(ReportFault::OutOfMemory),
        }
    }
}

// Hears an event, unless memory was wanting to an earlier one.
fn hear_more(
    alloc: Global,
    started: Option<u64>,
    heard: Mem<Heard>,
    event: &ReporterEvent,
) -> Mem<Heard>
    ensures { (events : Items _) → Remembers started heard events
        → Remembers started result (events ++ event.now ∷ []) }
{
    let mut heard = heard?;
    heard.hear(alloc, started, event)?;
    Ok(heard)
}

impl Listener for JUnitReport {
    ghost use Rattle.std.specs.Prelude.{⊤};
    ghost use Rattle.run_junit.specs.Heard.{Remembers};

    ghost heard = { λ r events. Remembers r.started r.heard events };

    // It doesn't keep turns.
    ghost taken = { λ _ _. ⊤ };

    fn hear(&mut self, alloc: Global, event: &ReporterEvent)
        ensures heard { Adds (λ r events. Remembers r.started r.heard events) self.old self.new (event.now ∷ []) }
        ensures started { self.new.started ≡ self.old.started }
    {
        let heard = mem::replace(&mut self.heard, Err(OutOfMemory));
        self.heard = hear_more(alloc, self.started, heard, event);
    }

    fn hear_turn(&mut self, _alloc: Global, _turn: &Turn) {}
}
