// Lines in the forms in which turns are often written.
ghost use Rattle.std.specs.Prelude.{◌≡◌, Some, IfOk, IfSome};
ghost use Rattle.run_input.specs.Input.{turn_line_of};
ghost use Rattle.run_output.specs.Turns.{turn_text};
ghost use Rattle.run_turn_laws.specs.Order.{IsTurnText};

use crate::by_name::turn_by_name;
use crate::front::after;
use crate::shapes::{clock, exit, named, piece, started, stream_end};
use run_capture::Mem;
use run_events::Turn;
use run_turn_laws::{known_turn, turn_lines_are_read_in_any_order};
use std::alloc::Global;

// The turn whose line, as it is printed, this is, by its first key.
fn turn_by_key(alloc: Global, line: &[u8]) -> Mem<Option<Turn>>
    ensures { IfOk result (λ found. IfSome found (λ t. turn_text t ≡ line.now)) }
{
    if let Some(rest) = after(line, b"{\"turn\":\"") {
        Ok(named(rest))
    } else if let Some(rest) = after(line, b"{\"pid\":") {
        Ok(started(rest))
    } else if let Some(rest) = after(line, b"{\"code\":") {
        Ok(exit(rest))
    } else if let Some(rest) = after(line, b"{\"ns\":") {
        Ok(clock(rest))
    } else if let Some(rest) = after(line, b"{\"stream\":\"") {
        Ok(stream_end(rest))
    } else if let Some(rest) = after(line, b"{\"hex\":\"") {
        piece(alloc, rest)
    } else {
        Ok(None)
    }
}

// The same, as a line of the turn.
fn turn_as_printed(alloc: Global, line: &[u8]) -> Mem<Option<Turn>>
    ensures { IfOk result (λ found. IfSome found (λ t. IsTurnText t line.now)) }
{
    match turn_by_key(alloc, line)? {
        Some(turn) => Ok(Some(turn)),
        None => Ok(None),
    }
}

// Whether a line begins as one of those with the turn's name first that are printed otherwise.
fn has_name_first(line: &[u8]) -> bool {
    match after(line, b"{\"turn\":\"") {
        Some([b's' | b'p' | b'c', ..]) => true,
        Some([b'e', b'x', ..]) => true,
        _ => false,
    }
}

// The turn whose line this is, in either form.
fn turn_in_form(alloc: Global, line: &[u8]) -> Mem<Option<Turn>>
    ensures { IfOk result (λ found. IfSome found (λ t. IsTurnText t line.now)) }
{
    if has_name_first(line) {
        turn_by_name(alloc, line)
    } else {
        turn_as_printed(alloc, line)
    }
}

/// The turn whose line this is, without a line feed: as `turn_line` prints it, or with the turn's name first, then its
/// unit, then a stream, then the rest; of the turns that a run has often. Any other line, and another spelling of such
/// a line, has none here.
pub fn printed_turn(alloc: Global, line: &[u8]) -> Mem<Option<Turn>>
    ensures text { IfOk result (λ found. IfSome found (λ t. IsTurnText t line.now)) }
    ensures read { IfOk result (λ found. IfSome found (λ t. turn_line_of line.now ≡ Some t)) }
{
    let found = turn_in_form(alloc, line)?;
    if let Some(turn) = &found {
        known_turn(turn);
    }
    turn_lines_are_read_in_any_order();
    Ok(found)
}
