// The reader of event lines.
ghost use Rattle.std.specs.Prelude.{◌≡◌, IfOk, IsTrue};
ghost use Rattle.run_output.specs.Events.{event_text};
ghost use Rattle.run_event_reader.specs.Counted.{IsCounted};

use crate::counted::is_counted;
use crate::kinds::event_of;
use run_capture::{Mem, OutOfMemory, Text};
use run_events::ReporterEvent;
use run_input::{LineError, read_value};
use run_output::event_line;
use serde_json::Value;
use std::alloc::Global;

// A line as a JSON value, if it is one.
fn value_of(alloc: Global, line: &[u8]) -> Result<Value, LineError> {
    match read_value(alloc, line) {
        Ok(value) => Ok(value),
        Err(refusal) => Err(refusal.error()),
    }
}

// Whether a line is that of an event.
fn is_line_of(alloc: Global, event: &ReporterEvent, line: &[u8]) -> Mem<bool>
    ensures { IfOk result (λ is. IsTrue is → event_text event.now ≡ line.now) }
{
    let text: Text = event_line(alloc, event)?;
    Ok(text.as_bytes() == line)
}

// Whether an event is what a line tells.
fn is_told(alloc: Global, failed: u64, event: &ReporterEvent, line: &[u8]) -> Mem<bool>
    ensures line { IfOk result (λ is. IsTrue is → event_text event.now ≡ line.now) }
    ensures counted { IfOk result (λ is. IsTrue is → IsCounted failed event.now) }
{
    if !is_counted(failed, event) {
        return Ok(false);
    }
    is_line_of(alloc, event, line)
}

// The event that a line tells, if it is one; its line is to be compared.
fn event_in(alloc: Global, failed: u64, line: &[u8]) -> Result<ReporterEvent, LineError> {
    let value = value_of(alloc, line)?;
    match event_of(alloc, failed, &value) {
        Ok(event) => Ok(event),
        Err(OutOfMemory) => Err(LineError::OutOfMemory),
    }
}

/// The event whose line this is, without a line feed, where so many tests of its run or sub-run had failed before it:
/// no line has what a pass after a failed attempt counts as, but the counts tell it.
///
/// What no line has of an event is the least that it can be: a unit's number, how far a stress run is to go, the step
/// and the reason of a sub-run's end, and which line of an environment file is at fault.
pub fn read_event_line(alloc: Global, failed: u64, line: &[u8]) -> Result<ReporterEvent, LineError>
    ensures line { IfOk result (λ event. event_text event ≡ line.now) }
    ensures counted { IfOk result (λ event. IsCounted failed event) }
{
    let event = event_in(alloc, failed, line)?;
    match is_told(alloc, failed, &event, line) {
        Ok(true) => Ok(event),
        Ok(false) => Err(LineError::NotInTable),
        Err(OutOfMemory) => Err(LineError::OutOfMemory),
    }
}
