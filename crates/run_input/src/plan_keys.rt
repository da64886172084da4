// The keys of a plan line that say how its tests are run.
ghost use Rattle.std.specs.Prelude.{◌≡◌, codes, option_and_then, false};
ghost use Rattle.run_capture.specs.declared.test_output.CaptureStrategy.TheVariants as capture;
ghost use Rattle.run_events.specs.declared.input.InputHandlerKind.TheVariants as inputs;
ghost use Rattle.run_events.specs.declared.retry_policy.MaxFail.TheVariants.{All};
ghost use Rattle.run_events.specs.declared.signal.SignalHandlerKind.TheVariants as handlers;
ghost use Rattle.serde_json.specs.Find.{get};
ghost use Rattle.serde_json.specs.View.{view};
ghost use Rattle.run_input.specs.PlanLine.{capture_of, max_fail_of, terminate_of, signals_of, input_of, hearing_from};
ghost use Rattle.run_input.specs.PlanLine.{plan_version_of};
ghost use Rattle.run_input.specs.Fields.{or_usual};
ghost use Rattle.run_input.specs.ReadsValue.{ReadsValue};

use crate::fields::{truth_or, u32_at};
use crate::objects::only_keys;
use crate::refusal::{Refusal, missing, or_not, under};
use run_capture::CaptureStrategy;
use run_events::{Hearing, InputHandlerKind, MaxFail, SignalHandlerKind, TerminateMode};
use serde_json::Value;
use std::alloc::Global;

/// The way of capture that a text names, and split where there is none.
pub fn capture_at(alloc: Global, plan: &Value) -> Result<CaptureStrategy, Refusal>
    ensures { ReadsValue result (or_usual capture.Split capture_of (get (codes "capture") (view plan.now))) }
{
    match plan.get("capture") {
        Some(value) => or_not(
            alloc,
            capture_from(value),
            "capture",
            "none, split or combined",
        ),
        None => Ok(CaptureStrategy::Split),
    }
}

fn capture_from(value: &Value) -> Option<CaptureStrategy>
    ensures { result ≡ capture_of (view value.now) }
{
    match value.as_str()? {
        "none" => Some(CaptureStrategy::None),
        "split" => Some(CaptureStrategy::Split),
        "combined" => Some(CaptureStrategy::Combined),
        _ => None,
    }
}

/// After how many failures no test starts any more, and never where nothing is said.
pub fn max_fail_at(alloc: Global, plan: &Value) -> Result<MaxFail, Refusal>
    ensures { ReadsValue result (or_usual All max_fail_of (get (codes "max_fail") (view plan.now))) }
{
    match plan.get("max_fail") {
        Some(value) => under(alloc, "max_fail", max_fail_from(alloc, value)),
        None => Ok(MaxFail::All),
    }
}

#[tactic(auto, unfolding(crate::specs::PlanLine::max_fail_of))]
fn max_fail_from(alloc: Global, value: &Value) -> Result<MaxFail, Refusal>
    ensures { ReadsValue result (max_fail_of (view value.now)) }
{
    only_keys(alloc, value, &["count", "mode"], "an object")?;
    let max_fail = u32_at(alloc, value, "count")?;
    let terminate = terminate_at(alloc, value)?;
    Ok(MaxFail::Count {
        max_fail,
        terminate,
    })
}

// What becomes of the tests that run where too many have failed.
fn terminate_at(alloc: Global, max_fail: &Value) -> Result<TerminateMode, Refusal>
    ensures { ReadsValue result (option_and_then terminate_of (get (codes "mode") (view max_fail.now))) }
{
    match max_fail.get("mode") {
        Some(value) => or_not(alloc, terminate_from(value), "mode", "wait or immediate"),
        None => missing(alloc, "mode"),
    }
}

fn terminate_from(value: &Value) -> Option<TerminateMode>
    ensures { result ≡ terminate_of (view value.now) }
{
    match value.as_str()? {
        "wait" => Some(TerminateMode::Wait),
        "immediate" => Some(TerminateMode::Immediate),
        _ => None,
    }
}

// The signals that a text names, and all of them where there is none.
fn signals_at(alloc: Global, plan: &Value) -> Result<SignalHandlerKind, Refusal>
    ensures { ReadsValue result (or_usual handlers.Standard signals_of (get (codes "signals") (view plan.now))) }
{
    match plan.get("signals") {
        Some(value) => or_not(
            alloc,
            signals_from(value),
            "signals",
            "standard, debugger or noop",
        ),
        None => Ok(SignalHandlerKind::Standard),
    }
}

fn signals_from(value: &Value) -> Option<SignalHandlerKind>
    ensures { result ≡ signals_of (view value.now) }
{
    match value.as_str()? {
        "standard" => Some(SignalHandlerKind::Standard),
        "debugger" => Some(SignalHandlerKind::DebuggerMode),
        "noop" => Some(SignalHandlerKind::Noop),
        _ => None,
    }
}

// The keys that a text names, and all of them where there is none.
fn input_at(alloc: Global, plan: &Value) -> Result<InputHandlerKind, Refusal>
    ensures { ReadsValue result (or_usual inputs.Standard input_of (get (codes "input") (view plan.now))) }
{
    match plan.get("input") {
        Some(value) => or_not(alloc, input_from(value), "input", "standard or noop"),
        None => Ok(InputHandlerKind::Standard),
    }
}

fn input_from(value: &Value) -> Option<InputHandlerKind>
    ensures { result ≡ input_of (view value.now) }
{
    match value.as_str()? {
        "standard" => Some(InputHandlerKind::Standard),
        "noop" => Some(InputHandlerKind::Noop),
        _ => None,
    }
}

/// Which signals and keys a run hears.
pub fn hearing_from(alloc: Global, value: &Value) -> Result<Hearing, Refusal>
    ensures { ReadsValue result (hearing_from (view value.now)) }
{
    let signals = signals_at(alloc, value)?;
    let input = input_at(alloc, value)?;
    let quit_is_info = truth_or(alloc, false, value, "quit_is_info")?;
    Ok(Hearing {
        signals,
        input,
        quit_is_info,
    })
}

fn version_from(value: &Value) -> Option<u64>
    ensures { result ≡ plan_version_of (view value.now) }
{
    match value.as_u64()? {
        1 => Some(1),
        2 => Some(2),
        _ => None,
    }
}

/// The version of a plan line, 1 or 2: 1 where nothing is said.
pub fn version_at(alloc: Global, plan: &Value) -> Result<u64, Refusal>
    ensures { ReadsValue result (or_usual 1 plan_version_of (get (codes "version") (view plan.now))) }
{
    match plan.get("version") {
        Some(value) => or_not(alloc, version_from(value), "version", "1 or 2"),
        None => Ok(1),
    }
}
