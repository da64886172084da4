// The report of a recorded run.
ghost use Rattle.std.specs.Prelude.{◌≡◌, [], List as Items, Option, ℕ, drop};
ghost use Rattle.run_capture.specs.Faults.{RoseExactlyIf};
ghost use Rattle.run_events.specs.Tell.{Adds};
ghost use Rattle.run_events.specs.declared.events.ReporterEvent.{ReporterEvent};
ghost use Rattle.run_event_reader.specs.Counted.{failed_after_all};
ghost use Rattle.run_show.specs.FirstLines.{ahead};
ghost use Rattle.run_show.specs.Shown.{EndsBy, HearsLine, GoesTo, HasEnded, HasRead, ShowsLines};
ghost use Rattle.run_show.specs.Shown.{is_failed_read, unread_fault};

use crate::last::Told;
use crate::said::{Said, read_line};
use crate::source_lines::SourceLines;
use run_capture::{Failed, ReadError, Sink, Source};
use run_event_reader::failed_after;
use run_events::ReportFault;
use run_input::LineError;
use run_output::Fault;
use run_report::{Listener, ReportSettings, RunReport};
use std::alloc::Global;

/// What comes behind a line.
#[derive(Clone, Copy, Drop)]
pub(crate) enum Next {
    /// More lines: so many tests have failed in the run or sub-run.
    On(u64),
    /// Nothing: the run ended so.
    Last(Told),
}

// The fault that no line can be read.
fn unread_fault(error: ReadError) -> Fault
    ensures { result ≡ unread_fault error }
{
    match error {
        ReadError::Failed => Fault::Read,
        ReadError::TooLong => Fault::TooLong,
        ReadError::OutOfMemory => Fault::Memory,
    }
}

// Lets a listener hear what the line of a number tells.
#[tactic(auto, using(crate::proofs::ShownLemmas::adds_none))]
fn hear_line<K: Sink>(
    alloc: Global,
    number: u64,
    failed: u64,
    report: &mut RunReport<K>,
    line: &[u8],
) -> Result<Next, Fault>
    ensures told { (more : Items ReporterEvent)
        × Adds ⟦<RunReport<K> as Listener>⟧.heard report.old report.new more
        × HearsLine number failed line.now more result }
    ensures settings { report.new.settings ≡ report.old.settings }
    ensures start { report.new.start.value ≡ report.old.start.value }
{
    match read_line(alloc, failed, line) {
        Ok(Said::Ask) => Ok(Next::On(failed)),
        Ok(Said::Event(event)) => {
            report.hear(alloc, &event);
            Ok(Next::On(failed_after(failed, &event)))
        }
        Ok(Said::Last(told)) => Ok(Next::Last(told)),
        Err(LineError::NotInTable) => Err(Fault::Line { line: number }),
        Err(LineError::OutOfMemory) => Err(Fault::Memory),
    }
}

// Reads the line of a number, and lets a listener hear what it tells.
fn hear_next<S: Source, K: Sink>(
    alloc: Global,
    number: u64,
    failed: u64,
    lines: &mut SourceLines<S>,
    report: &mut RunReport<K>,
) -> Result<Next, Fault>
    ensures goes { (left : Option (Items ℕ)) → HasRead left
        (ahead (S.left lines.old.source) (drop lines.old.at lines.old.read.items))
        (⟦<RunReport<K> as Listener>⟧.heard report.old) failed number
        → GoesTo left (ahead (S.left lines.new.source) (drop lines.new.at lines.new.read.items))
        (⟦<RunReport<K> as Listener>⟧.heard report.new) number result }
    ensures fault { RoseExactlyIf (is_failed_read result) (S.faults lines.old.source) (S.faults lines.new.source) }
    ensures settings { report.new.settings ≡ report.old.settings }
    ensures start { report.new.start.value ≡ report.old.start.value }
{
    match lines.next_line(alloc) {
        Ok(Some(line)) => hear_line(alloc, number, failed, report, line.as_slice()),
        Ok(None) => Err(Fault::Unfinished),
        Err(error) => Err(unread_fault(error)),
    }
}

// Lets a listener hear the events that lines tell, up to the last line of their run.
fn hear_lines<S: Source, K: Sink>(
    alloc: Global,
    lines: &mut SourceLines<S>,
    report: &mut RunReport<K>,
) -> Result<Told, Fault>
    requires { ⟦<RunReport<K> as Listener>⟧.heard report.old [] }
    ensures ended { HasEnded (ahead (S.left lines.old.source) (drop lines.old.at lines.old.read.items))
        (⟦<RunReport<K> as Listener>⟧.heard report.new) result }
    ensures fault { RoseExactlyIf (is_failed_read result) (S.faults lines.old.source) (S.faults lines.new.source) }
    ensures settings { report.new.settings ≡ report.old.settings }
    ensures start { report.new.start.value ≡ report.old.start.value }
{
    let mut failed = 0;
    'lines: for number in 1..u64::MAX {
        match hear_next(alloc, number, failed, lines, report) {
            Ok(Next::On(now)) => failed = now,
            Ok(Next::Last(told)) => return Ok(told),
            Err(fault) => return Err(fault),
        }
    }
    Err(Fault::TooLong)
}

// How the report ended: as reading did, if it was written; else by why it wasn't.
fn ended(read: Result<Told, Fault>, went: &Result<(), ReportFault<Failed>>) -> Result<Told, Fault>
    ensures { EndsBy went.now read result }
{
    match went {
        Ok(()) => read,
        Err(ReportFault::Refused(_)) => Err(Fault::Report),
        Err(ReportFault::OutOfMemory) => Err(Fault::Memory),
    }
}

/// How the report of a recorded run ended, and the source and the sink.
pub struct Showed<S, K> {
    pub ending: Result<Told, Fault>,
    pub source: S,
    pub sink: K,
}

/// Reads the lines of a run from a source, and writes the report of the events that they tell to a sink. Lines of asks
/// are passed over, and no line is read behind the run's last one. Where the sink fails, or memory is wanting to the
/// report, the lines are read on, and nothing more is written.
pub fn show<S: Source, K: Sink>(
    alloc: Global,
    source: S,
    sink: K,
    settings: ReportSettings,
) -> Showed<S, K>
    ensures { ShowsLines settings (S.left source) (S.faults source) (S.faults result.source) (K.taken sink)
        (K.taken result.sink) (K.faults sink) (K.faults result.sink) result.ending }
{
    let mut lines = SourceLines::new(alloc, source);
    let mut report = RunReport::new(sink, settings);
    let read = hear_lines(alloc, &mut lines, &mut report);
    let ending = ended(read, report.went());
    Showed {
        ending,
        source: lines.into_source(),
        sink: report.into_sink(),
    }
}
