// What a unit answers, as objects.
ghost use Rattle.std.specs.Prelude.{◌≡◌, [], option_map, Option};
ghost use Rattle.run_commands.specs.declared.errors.SetupScriptOutputError.{SetupScriptOutputError};
ghost use Rattle.run_events.specs.declared.info.UnitState.TheVariants.{Running, Terminating, Exiting, Exited, Delay};
ghost use Rattle.serde_json.specs.Data.{string};
ghost use Rattle.run_output.specs.Fields.{rows, object_of};
ghost use Rattle.run_output.specs.Info.{state_fields, method_word, terminate_word, state_data, output_data, shown_data};
ghost use Rattle.run_output.specs.Leaf.{leaf_data};
ghost use Rattle.run_output.specs.Printer.{Prints, data_tokens};
ghost use Rattle.run_output.specs.Texts.{result_text};

use crate::leaf::Leaf;
use crate::object::Object;
use crate::printer::Printer;
use crate::statuses::with_streams;
use run_capture::Mem;
use run_commands::SetupScriptOutputError;
use run_events::{
    ChildExecutionOutput, ExecutionResult, InfoResponse, TermSignal, TerminateReason, UnitState,
    Waiting,
};
use std::alloc::Global;

/// The signal that ends a child, by its word.
#[tactic(auto, unfolding(crate::specs::Info::method_word))]
pub(crate) fn method_name(method: TermSignal) -> &'static str
    ensures { result.now ≡ method_word method }
{
    match method {
        TermSignal::Interrupt => "interrupt",
        TermSignal::Term => "term",
        TermSignal::Hangup => "hangup",
        TermSignal::Quit => "quit",
        TermSignal::Kill => "kill",
    }
}

#[tactic(auto, unfolding(crate::specs::Info::terminate_word))]
fn reason_name(reason: TerminateReason) -> &'static str
    ensures { result.now ≡ terminate_word reason }
{
    match reason {
        TerminateReason::Timeout => "timeout",
        TerminateReason::Signal(_) => "signal",
    }
}

fn result_leaf(outcome: Option<ExecutionResult>) -> Leaf<'static>
    ensures { leaf_data result ≡ option_map (λ r. string (result_text r)) outcome }
{
    match outcome {
        Some(outcome) => Leaf::Result(outcome),
        None => Leaf::Absent,
    }
}

#[tactic(auto, unfolding(crate::specs::Info::state_fields))]
fn running(pid: u32, time: u64, slow_after: Option<u64>) -> [(&'static str, Leaf<'static>); 4]
    ensures { rows leaf_data result ≡ state_fields (Running pid time slow_after) }
{
    [
        ("kind", Leaf::Word("running")),
        ("pid", Leaf::Count(pid)),
        ("slow_after", Leaf::number_of(slow_after)),
        ("time", Leaf::Number(time)),
    ]
}

#[tactic(auto, unfolding(crate::specs::Info::state_fields))]
fn terminating(
    pid: u32,
    time: u64,
    reason: TerminateReason,
    method: TermSignal,
    waiting: Waiting,
) -> [(&'static str, Leaf<'static>); 7]
    ensures { rows leaf_data result
        ≡ state_fields (Terminating pid time reason method waiting) }
{
    [
        ("kind", Leaf::Word("terminating")),
        ("method", Leaf::Word(method_name(method))),
        ("pid", Leaf::Count(pid)),
        ("reason", Leaf::Word(reason_name(reason))),
        ("remaining", Leaf::Number(waiting.remaining)),
        ("time", Leaf::Number(time)),
        ("waiting", Leaf::Number(waiting.waiting)),
    ]
}

#[tactic(auto, unfolding(crate::specs::Info::state_fields))]
fn exiting(
    pid: u32,
    time: u64,
    slow_after: Option<u64>,
    outcome: Option<ExecutionResult>,
    waiting: Waiting,
) -> [(&'static str, Leaf<'static>); 7]
    ensures { rows leaf_data result
        ≡ state_fields (Exiting pid time slow_after outcome waiting) }
{
    [
        ("kind", Leaf::Word("exiting")),
        ("pid", Leaf::Count(pid)),
        ("remaining", Leaf::Number(waiting.remaining)),
        ("result", result_leaf(outcome)),
        ("slow_after", Leaf::number_of(slow_after)),
        ("time", Leaf::Number(time)),
        ("waiting", Leaf::Number(waiting.waiting)),
    ]
}

#[tactic(auto, unfolding(crate::specs::Info::state_fields))]
fn exited(
    outcome: ExecutionResult,
    time: u64,
    slow_after: Option<u64>,
) -> [(&'static str, Leaf<'static>); 4]
    ensures { (fault : Option SetupScriptOutputError) → rows leaf_data result
        ≡ state_fields (Exited outcome time slow_after fault) }
{
    [
        ("kind", Leaf::Word("exited")),
        ("result", Leaf::Result(outcome)),
        ("slow_after", Leaf::number_of(slow_after)),
        ("time", Leaf::Number(time)),
    ]
}

#[tactic(auto, unfolding(crate::specs::Info::state_fields))]
fn delay(
    outcome: ExecutionResult,
    slow: bool,
    waiting: Waiting,
) -> [(&'static str, Leaf<'static>); 5]
    ensures { rows leaf_data result ≡ state_fields (Delay outcome slow waiting) }
{
    [
        ("kind", Leaf::Word("delay")),
        ("remaining", Leaf::Number(waiting.remaining)),
        ("result", Leaf::Result(outcome)),
        ("slow", Leaf::Truth(slow)),
        ("waiting", Leaf::Number(waiting.waiting)),
    ]
}

/// What a unit is doing.
pub(crate) fn print_state(alloc: Global, out: &mut Printer, state: &UnitState) -> Mem<()>
    ensures { Prints result out.old out.new (data_tokens (state_data state.now)) }
{
    match *state {
        UnitState::Running {
            pid,
            time,
            slow_after,
        } => Object::print_of(alloc, out, &running(pid, time, slow_after)),
        UnitState::Terminating {
            pid,
            time,
            reason,
            method,
            waiting,
        } => Object::print_of(alloc, out, &terminating(pid, time, reason, method, waiting)),
        UnitState::Exiting {
            pid,
            time,
            slow_after,
            result,
            waiting,
        } => Object::print_of(alloc, out, &exiting(pid, time, slow_after, result, waiting)),
        UnitState::Exited {
            result,
            time,
            slow_after,
            ..
        } => Object::print_of(alloc, out, &exited(result, time, slow_after)),
        UnitState::Delay {
            result,
            slow,
            waiting,
        } => Object::print_of(alloc, out, &delay(result, slow, waiting)),
    }
}

fn print_output(
    alloc: Global,
    out: &mut Printer,
    child: &ChildExecutionOutput,
    fault: Option<SetupScriptOutputError>,
) -> Mem<()>
    ensures { Prints result out.old out.new (data_tokens (output_data child.now fault)) }
{
    let object = Object::of(alloc, &[("errors", Leaf::Errors(child, fault))])?;
    with_streams(object, child)?.print(alloc, out)
}

// An object with no members.
#[tactic(auto, unfolding(crate::specs::Printer::data_tokens))]
fn print_nothing(out: &mut Printer) -> Mem<()>
    ensures { Prints result out.old out.new (data_tokens (object_of [])) }
{
    out.begin_object()?;
    out.end_object()
}

/// What the unit's child wrote so far, which isn't shown in a delay.
pub(crate) fn print_shown(alloc: Global, out: &mut Printer, response: &InfoResponse) -> Mem<()>
    ensures { Prints result out.old out.new
        (data_tokens (shown_data response.now.state response.now.output)) }
{
    match response.state {
        UnitState::Delay { .. } => print_nothing(out),
        UnitState::Exited { fault, .. } => print_output(alloc, out, &response.output, fault),
        _ => print_output(alloc, out, &response.output, None),
    }
}
