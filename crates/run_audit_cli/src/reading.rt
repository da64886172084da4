// The input of the program of audits.
ghost use Rattle.std.specs.Prelude.{◌≡◌, ◌+◌, ◌<◌, ◌≤◌, ◌^◌, [], Some, length, IfOk, IfErr, OnOk};
ghost use Rattle.run_input.specs.Lines.{lines_of};
ghost use Rattle.run_input.specs.Refused.{error_at};
ghost use Rattle.run_input.specs.declared.errors.InputError.TheVariants.{OutOfMemory};
ghost use Rattle.run_audit_cli.specs.AuditLines.{IsAuditInput, SaysLater, SaysTurns, events_said};
ghost use Rattle.run_audit_cli.specs.AuditRead.{with_last};
ghost use Rattle.run_audit_cli.specs.AuditRefused.{IsRefusedAudit, IsRefusedEventPart, IsRefusedLater};
ghost use Rattle.run_audit_cli.specs.AuditRefused.{IsRefusedTurnPart};

use crate::audit_lines::{read_seen, read_turn_or_mark};
use crate::both::both;
use run_audit_model::AuditEvent;
use run_capture::List;
use run_events::Turn;
use run_input::{Input, InputError, LineError, read_plan_line, split_line};
use std::alloc::Global;

/// What an input of the program says: that of a replay, and the events that some engine told.
pub type Said = (Input, List<AuditEvent>);

// A line's error with the line's number.
fn at_line(number: u64, error: LineError) -> InputError
    ensures { result ≡ error_at number error }
{
    match error {
        LineError::NotInTable => InputError::Line { line: number },
        LineError::OutOfMemory => InputError::OutOfMemory,
    }
}

// Reads the lines after the first, whose numbers start at 2, up to the one that event lines follow: the turns, the
// bytes of the event lines, and the number of the first of these.
fn read_turns<'a>(alloc: Global, bytes: &'a [u8]) -> Result<(List<Turn>, &'a [u8], u64), InputError>
    ensures ok { IfOk result (λ said. SaysTurns (lines_of bytes.now) said.0 (lines_of said.1.now) said.2) }
    ensures few { IfOk result (λ said. length said.0 ≤ length bytes.now) }
    ensures room { IfOk result (λ said. said.2 + length said.1.now ≤ length bytes.now + 2) }
    ensures refused { IfErr result (IsRefusedTurnPart (lines_of bytes.now)) }
{
    let mut turns = List::new();
    let mut rest = bytes;
    let mut number = 2;
    'lines: while !rest.is_empty() {
        let (line, after) = split_line(rest);
        match read_turn_or_mark(alloc, line) {
            Ok(Some(turn)) => turns.push(alloc, turn)?,
            Ok(None) => return Ok((turns, after, number + 1)),
            Err(e) => return Err(at_line(number, e)),
        }
        rest = after;
        number += 1;
    }
    Err(InputError::Line { line: number })
}

// Adds an event, where one is seen.
fn add_seen(
    alloc: Global,
    events: &mut List<AuditEvent>,
    seen: Option<AuditEvent>,
) -> Result<(), InputError>
    ensures ok { OnOk result (events.new ≡ with_last events.old seen) }
    ensures err { IfErr result (λ e. e ≡ OutOfMemory) }
{
    if let Some(event) = seen {
        events.push(alloc, event)?;
    }
    Ok(())
}

// Reads event lines, the first of which has this number.
fn read_events(alloc: Global, bytes: &[u8], start: u64) -> Result<List<AuditEvent>, InputError>
    requires { start + length bytes.now < 2 ^ 64 }
    ensures ok { IfOk result (λ events. events_said (lines_of bytes.now) ≡ Some events) }
    ensures refused { IfErr result (IsRefusedEventPart start (lines_of bytes.now)) }
{
    let mut events = List::new();
    let mut rest = bytes;
    let mut number = start;
    'lines: while !rest.is_empty() {
        let (line, after) = split_line(rest);
        match read_seen(alloc, line) {
            Ok(seen) => add_seen(alloc, &mut events, seen)?,
            Err(e) => return Err(at_line(number, e)),
        }
        rest = after;
        number += 1;
    }
    Ok(events)
}

// Reads the lines after the first: turns, and events.
fn read_later(alloc: Global, bytes: &[u8]) -> Result<(List<Turn>, List<AuditEvent>), InputError>
    ensures ok { IfOk result (λ said. SaysLater (lines_of bytes.now) said.0 said.1) }
    ensures few { IfOk result (λ said. length said.0 ≤ length bytes.now) }
    ensures refused { IfErr result (IsRefusedLater (lines_of bytes.now)) }
{
    match read_turns(alloc, bytes) {
        Ok((turns, after, start)) => both(turns, read_events(alloc, after, start)),
        Err(error) => Err(error),
    }
}

/// Reads an input: its first line is the plan line; turn lines follow, then the line that says that event lines follow,
/// and those.
pub fn read_audit_input(alloc: Global, bytes: &[u8]) -> Result<Said, InputError>
    ensures ok { IfOk result (λ said. IsAuditInput (lines_of bytes.now) said.0.keys said.0.plan said.0.turns
        said.1) }
    ensures few { IfOk result (λ said. length said.0.turns ≤ length bytes.now) }
    ensures refused { IfErr result (IsRefusedAudit (lines_of bytes.now)) }
{
    if bytes.is_empty() {
        return Err(InputError::Line { line: 1 });
    }
    let (line, after) = split_line(bytes);
    let first = match read_plan_line(alloc, line) {
        Ok(first) => first,
        Err(e) => return Err(at_line(1, e)),
    };
    let ((keys, plan), (turns, events)) = both(first, read_later(alloc, after))?;
    Ok((Input { keys, plan, turns }, events))
}
