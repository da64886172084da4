// What an auditor reads of an object.
ghost use Rattle.std.specs.Prelude.{◌≡◌, codes, false, option_and_then};
ghost use Rattle.serde_json.specs.Find.{as_str, get};
ghost use Rattle.serde_json.specs.View.{items_view, view};
ghost use Rattle.serde_json.specs.Written.{has_float, items_have_float};
ghost use Rattle.run_input.specs.PlanExpected.{instance_from, instance_of, instance_with};
ghost use Rattle.run_input.specs.ReadsValue.{ReadsValue};
ghost use Rattle.run_audit_line.specs.EventLine.{assignment_of, cancel_reason_at, compact_status, compact_status_at};
ghost use Rattle.run_audit_line.specs.EventLine.{compact_statuses, compact_statuses_from, group_slot_of};
ghost use Rattle.run_audit_line.specs.EventLine.{group_slot_with, reason_named, stats_reason, test_id_at};

use run_capture::{List, Text};
use run_events::{CancelReason, GroupSlot, TestInstanceId, TestSlotAssignment};
use run_input::{Refusal, Wrong, missing, no_text, str_at, text_at, u32_at};
use serde_json::Value;
use std::alloc::Global;

const PAIR: &str = "a test, as [binary, name]";

const OBJECT: &str = "a JSON object";

const OBJECTS: &str = "a list of JSON objects";

const REASON: &str = "a cancel reason";

// A copy of the text that a value is.
fn text_of(alloc: Global, value: &Value, key: &str, wanted: &'static str) -> Result<Text, Refusal>
    ensures { ReadsValue result (as_str (view value.now)) }
{
    match value.as_str() {
        Some(text) => Ok(Text::from_str(alloc, text)?),
        None => Err(Refusal::at(alloc, key, Wrong::Not(wanted))),
    }
}

fn test_id_with(alloc: Global, binary: &Value, name: &Value) -> Result<TestInstanceId, Refusal>
    ensures { ReadsValue result (instance_with (view binary.now) (view name.now)) }
{
    let binary = text_of(alloc, binary, "test", PAIR)?;
    let name = text_of(alloc, name, "test", PAIR)?;
    Ok(TestInstanceId { binary, name })
}

fn test_id_in(alloc: Global, items: &[Value]) -> Result<TestInstanceId, Refusal>
    ensures { ReadsValue result (instance_from (items_view items.now)) }
{
    match items {
        [] => Err(Refusal::at(alloc, "test", Wrong::Not(PAIR))),
        [_binary] => Err(Refusal::at(alloc, "test", Wrong::Not(PAIR))),
        [binary, name] => test_id_with(alloc, binary, name),
        [_binary, _name, _more, ..] => Err(Refusal::at(alloc, "test", Wrong::Not(PAIR))),
    }
}

fn test_id_of(alloc: Global, value: &Value) -> Result<TestInstanceId, Refusal>
    ensures { ReadsValue result (instance_of (view value.now)) }
{
    match value.as_array() {
        Some(items) => test_id_in(alloc, items.as_slice()),
        None => Err(Refusal::at(alloc, "test", Wrong::Not(PAIR))),
    }
}

/// The test that an event is of.
pub(crate) fn test_id_at(alloc: Global, event: &Value) -> Result<TestInstanceId, Refusal>
    ensures { ReadsValue result (test_id_at (view event.now)) }
{
    match event.get("test") {
        Some(value) => test_id_of(alloc, value),
        None => missing(alloc, "test"),
    }
}

fn group_slot(alloc: Global, slot: &Value) -> Result<GroupSlot, Refusal>
    ensures { ReadsValue result (group_slot_with (view slot.now)) }
{
    let number = u32_at(alloc, slot, "group")?;
    let name = text_at(alloc, slot, "name")?;
    Ok(GroupSlot { slot: number, name })
}

// The slot in a group that a slot has, if it has one.
fn group_slot_in(alloc: Global, slot: &Value) -> Result<Option<GroupSlot>, Refusal>
    ensures { ReadsValue result (group_slot_of (view slot.now)) }
{
    if slot.get("group").is_none() && slot.get("name").is_none() {
        return Ok(None);
    }
    Ok(Some(group_slot(alloc, slot)?))
}

fn assignment_of(alloc: Global, slot: &Value) -> Result<TestSlotAssignment, Refusal>
    ensures { ReadsValue result (assignment_of (view slot.now)) }
{
    let global = u32_at(alloc, slot, "global")?;
    let group = group_slot_in(alloc, slot)?;
    Ok(TestSlotAssignment { global, group })
}

/// The slots in which a test starts.
pub(crate) fn assignment_at(alloc: Global, event: &Value) -> Result<TestSlotAssignment, Refusal>
    ensures { ReadsValue result (option_and_then assignment_of (get (codes "slot") (view event.now))) }
{
    match event.get("slot") {
        Some(slot) => assignment_of(alloc, slot),
        None => missing(alloc, "slot"),
    }
}

// The text of the object that a value is, with no space.
fn compact_status(alloc: Global, value: &Value) -> Result<Text, Refusal>
    requires { has_float (view value.now) ≡ false }
    ensures { ReadsValue result (compact_status (view value.now)) }
{
    match value.as_object() {
        Some(_) => Ok(Text::from_string(value.to_string(alloc)?)),
        None => Err(Refusal::at(alloc, "status", Wrong::Not(OBJECT))),
    }
}

/// The status that an event tells.
#[tactic(auto, using(crate::proofs::FloatLemmas::at_plain))]
pub(crate) fn compact_status_at(alloc: Global, event: &Value) -> Result<Text, Refusal>
    requires { has_float (view event.now) ≡ false }
    ensures { ReadsValue result (compact_status_at (view event.now)) }
{
    match event.get("status") {
        Some(value) => compact_status(alloc, value),
        None => missing(alloc, "status"),
    }
}

fn compact_statuses_in(alloc: Global, items: &[Value]) -> Result<List<Text>, Refusal>
    requires { items_have_float (items_view items.now) ≡ false }
    ensures { ReadsValue result (compact_statuses_from (items_view items.now)) }
{
    let mut statuses = List::with_capacity(alloc, items.len())?;
    for item in items {
        statuses.push(alloc, compact_status(alloc, item)?)?;
    }
    Ok(statuses)
}

fn compact_statuses(alloc: Global, value: &Value) -> Result<List<Text>, Refusal>
    requires { has_float (view value.now) ≡ false }
    ensures { ReadsValue result (compact_statuses (view value.now)) }
{
    match value.as_array() {
        Some(items) => compact_statuses_in(alloc, items.as_slice()),
        None => Err(Refusal::at(alloc, "statuses", Wrong::Not(OBJECTS))),
    }
}

/// The statuses that a finish tells.
#[tactic(auto, using(crate::proofs::FloatLemmas::at_plain))]
pub(crate) fn compact_statuses_at(alloc: Global, event: &Value) -> Result<List<Text>, Refusal>
    requires { has_float (view event.now) ≡ false }
    ensures { ReadsValue result (option_and_then compact_statuses (get (codes "statuses") (view event.now))) }
{
    match event.get("statuses") {
        Some(value) => compact_statuses(alloc, value),
        None => missing(alloc, "statuses"),
    }
}

fn reason_named(word: &str) -> Option<CancelReason>
    ensures { result ≡ reason_named word.now }
{
    match word {
        "setup-script-failure" => Some(CancelReason::SetupScriptFailure),
        "test-failure" => Some(CancelReason::TestFailure),
        "report-error" => Some(CancelReason::ReportError),
        "global-timeout" => Some(CancelReason::GlobalTimeout),
        "test-failure-immediate" => Some(CancelReason::TestFailureImmediate),
        "signal" => Some(CancelReason::Signal),
        "interrupt" => Some(CancelReason::Interrupt),
        "second-signal" => Some(CancelReason::SecondSignal),
        _ => None,
    }
}

fn stats_reason(alloc: Global, stats: &Value) -> Result<CancelReason, Refusal>
    ensures { ReadsValue result (stats_reason (view stats.now)) }
{
    let Some(word) = str_at(stats, "cancel_reason") else {
        return Err(no_text(alloc, stats, "cancel_reason"));
    };
    match reason_named(word) {
        Some(reason) => Ok(reason),
        None => Err(Refusal::at(alloc, "cancel_reason", Wrong::Not(REASON))),
    }
}

/// The reason for which a run is cancelled, by the statistics of the event.
pub(crate) fn cancel_reason_at(alloc: Global, event: &Value) -> Result<CancelReason, Refusal>
    ensures { ReadsValue result (cancel_reason_at (view event.now)) }
{
    match event.get("stats") {
        Some(stats) => stats_reason(alloc, stats),
        None => missing(alloc, "stats"),
    }
}
