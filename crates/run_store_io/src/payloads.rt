// Whether payloads are right.
ghost use Rattle.std.specs.Prelude.{◌≡◌, Some, None, IfOk, IsOk, is_some, bytes_eq, if◌then◌else◌};
ghost use Rattle.run_input.specs.Input.{plan_line_of};
ghost use Rattle.run_output.specs.Turns.{turn_text};
ghost use Rattle.run_store.specs.Stores.{is_plan_payload};
ghost use Rattle.run_store_io.specs.Payloads.{IsTurnOf};

use crate::record::MOST_BYTES;
use run_capture::{Mem, OutOfMemory};
use run_events::Turn;
use run_input::{LineError, read_plan_line, read_turn_line};
use run_output::turn_line;
use std::alloc::Global;

// Whether bytes are a plan line.
fn is_plan_line(alloc: Global, line: &[u8]) -> Mem<bool>
    ensures { IfOk result (λ is. is ≡ is_some (plan_line_of line.now)) }
{
    match read_plan_line(alloc, line) {
        Ok(said) => {
            drop(said);
            Ok(true)
        }
        Err(LineError::NotInTable) => Ok(false),
        Err(LineError::OutOfMemory) => Err(OutOfMemory),
    }
}

/// Whether bytes are a plan line that a store can have: a plan line without a line feed, of at most 16,777,216 bytes.
pub fn is_plan_payload(alloc: Global, payload: &[u8]) -> Mem<bool>
    ensures { IfOk result (λ is. is ≡ is_plan_payload payload.now) }
{
    if payload.len() > MOST_BYTES || payload.contains(&b'\n') {
        return Ok(false);
    }
    is_plan_line(alloc, payload)
}

// Whether a payload is the line of a turn.
fn is_line_of(alloc: Global, turn: &Turn, payload: &[u8]) -> Mem<bool>
    ensures { IfOk result (λ is. is ≡ bytes_eq (turn_text turn.now) payload.now) }
{
    let line = turn_line(alloc, turn)?;
    Ok(line.as_bytes() == payload)
}

// A value, if a test that may fail says so. So a wide value is one piece meanwhile.
fn keep_if<T: Drop>(value: T, test: Mem<bool>) -> Mem<Option<T>>
    ensures kept { IfOk result (λ kept. IfOk test (λ is. kept ≡ (if is then Some value else None))) }
    ensures tested { IfOk result (λ kept. IsOk test) }
{
    match test {
        Ok(true) => Ok(Some(value)),
        Ok(false) => Ok(None),
        Err(error) => Err(error),
    }
}

/// The turn whose line a payload is, if it is one. A second spelling of a turn is none.
pub fn turn_in(alloc: Global, payload: &[u8]) -> Mem<Option<Turn>>
    ensures { IfOk result (IsTurnOf payload.now) }
{
    match read_turn_line(alloc, payload) {
        Ok(turn) => {
            let is = is_line_of(alloc, &turn, payload);
            keep_if(turn, is)
        }
        Err(LineError::NotInTable) => Ok(None),
        Err(LineError::OutOfMemory) => Err(OutOfMemory),
    }
}
