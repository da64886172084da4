// The lines after the first: turns, that event lines follow, and what an auditor sees of those.
ghost use Rattle.std.specs.Prelude.{◌≡◌, false, option_and_then};
ghost use Rattle.serde_json.specs.View.{view};
ghost use Rattle.serde_json.specs.Written.{has_float};
ghost use Rattle.run_input.specs.ReadsValue.{ReadsValue};
ghost use Rattle.run_input.specs.ValueOf.{json_value};
ghost use Rattle.run_audit_cli.specs.AuditLines.{audit_mark_of, seen_of_value, seen_line_of, turn_or_mark_of};

use run_audit_line::event_of;
use run_audit_model::AuditEvent;
use run_events::Turn;
use run_input::{LineError, ReadTurn, Refusal, Wrong, only_keys, read_value, str_at};
use run_turn_reader::TurnLines;
use serde_json::Value;
use std::alloc::Global;

// That event lines follow, as a value says it.
#[tactic(auto, unfolding(crate::specs::AuditLines::audit_mark_of))]
fn mark_from(alloc: Global, value: &Value) -> Result<(), Refusal>
    ensures { ReadsValue result (audit_mark_of (view value.now)) }
{
    only_keys(alloc, value, &["audit"], "an object")?;
    match str_at(value, "audit") {
        Some("events") => Ok(()),
        _ => Err(Refusal::at(alloc, "audit", Wrong::Not("events"))),
    }
}

// Whether a line says that event lines follow.
fn read_mark(alloc: Global, line: &[u8]) -> Result<(), LineError>
    ensures { ReadsValue result (option_and_then audit_mark_of (json_value line.now)) }
{
    match read_value(alloc, line) {
        Ok(value) => match mark_from(alloc, &value) {
            Ok(()) => Ok(()),
            Err(refusal) => Err(refusal.error()),
        },
        Err(refusal) => Err(refusal.error()),
    }
}

/// The turn that a line says, or none where it says that event lines follow.
pub fn read_turn_or_mark(alloc: Global, line: &[u8]) -> Result<Option<Turn>, LineError>
    ensures { ReadsValue result (turn_or_mark_of line.now) }
{
    match TurnLines.read_turn(alloc, line) {
        Ok(turn) => Ok(Some(turn)),
        Err(LineError::NotInTable) => match read_mark(alloc, line) {
            Ok(()) => Ok(None),
            Err(error) => Err(error),
        },
        Err(LineError::OutOfMemory) => Err(LineError::OutOfMemory),
    }
}

// The event that a value tells, or none where it has the key `ask` or `outcome`.
#[tactic(auto, unfolding(crate::specs::AuditLines::seen_of_value))]
fn seen_from(alloc: Global, value: &Value) -> Result<Option<AuditEvent>, Refusal>
    requires { has_float (view value.now) ≡ false }
    ensures { ReadsValue result (seen_of_value (view value.now)) }
{
    if value.get("ask").is_none() && value.get("outcome").is_none() {
        return Ok(Some(event_of(alloc, value)?));
    }
    Ok(None)
}

/// What an auditor sees in an event line: an event, or none where it has the key `ask` or `outcome`.
pub fn read_seen(alloc: Global, line: &[u8]) -> Result<Option<AuditEvent>, LineError>
    ensures { ReadsValue result (seen_line_of line.now) }
{
    match read_value(alloc, line) {
        Ok(value) => match seen_from(alloc, &value) {
            Ok(seen) => Ok(seen),
            Err(refusal) => Err(refusal.error()),
        },
        Err(refusal) => Err(refusal.error()),
    }
}
