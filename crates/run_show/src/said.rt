// What a line of a run says.
ghost use Rattle.std.specs.Prelude.{◌≡◌, IfOk};
ghost use Rattle.run_show.specs.Shown.{Says};

use crate::last::{Told, last_in};
use run_event_reader::read_event_line;
use run_events::ReporterEvent;
use run_input::LineError;
use std::alloc::Global;

/// What a line says.
#[derive(Drop)]
pub(crate) enum Said {
    /// What was asked of the outside.
    Ask,
    Event(ReporterEvent),
    /// How the run ended.
    Last(Told),
}

/// What a line says, where so many tests of its run or sub-run had failed before it.
pub(crate) fn read_line(alloc: Global, failed: u64, line: &[u8]) -> Result<Said, LineError>
    ensures { IfOk result (λ said. Says failed line.now said) }
{
    if line.starts_with(b"{\"ask\":") {
        return Ok(Said::Ask);
    }
    match last_in(alloc, line)? {
        Some(told) => Ok(Said::Last(told)),
        None => {
            let event = read_event_line(alloc, failed, line)?;
            Ok(Said::Event(event))
        }
    }
}
