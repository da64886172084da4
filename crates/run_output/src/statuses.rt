// Attempts as objects.
ghost use Rattle.std.specs.Prelude.{◌≡◌, option_map, IfOk};
ghost use Rattle.serde_json.specs.Written.{compact_text};
ghost use Rattle.run_output.specs.Fields.{array_of, put_all, rows};
ghost use Rattle.run_output.specs.Leaf.{leaf_data};
ghost use Rattle.run_output.specs.Object.{members_of};
ghost use Rattle.run_output.specs.Printer.{Prints, data_tokens};
ghost use Rattle.run_output.specs.Texts.{bytes_data};
ghost use Rattle.run_output.specs.Statuses.{
  stream_fields,
  attempt_fields,
  status_data,
  env_data,
  fault_of,
  script_fields,
  script_status_data,
};

use crate::leaf::Leaf;
use crate::object::Object;
use crate::printer::Printer;
use run_capture::{Blob, ChildOutput, Mem, Text};
use run_commands::SetupScriptOutputError;
use run_events::{ChildExecutionOutput, ExecuteStatus, ScriptEnv, SetupScriptExecuteStatus};
use std::alloc::Global;

fn hex_leaf(bytes: &Option<Blob>) -> Leaf<'_>
    ensures { leaf_data result ≡ option_map bytes_data bytes.now }
{
    match bytes {
        Some(bytes) => Leaf::Hex(bytes),
        None => Leaf::Absent,
    }
}

/// What a child wrote, by each stream that was captured, or why it couldn't be started.
#[tactic(auto, unfolding(crate::specs::Statuses::stream_fields))]
pub(crate) fn with_streams<'a>(
    object: Object<Leaf<'a>>,
    child: &'a ChildExecutionOutput,
) -> Mem<Object<Leaf<'a>>>
    ensures { IfOk result (λ o. members_of leaf_data o
        ≡ put_all (stream_fields child.now) (members_of leaf_data object.entry)) }
{
    match child {
        ChildExecutionOutput::Output {
            output: ChildOutput::Split(split),
            ..
        } => object.with(&[
            ("stderr", hex_leaf(&split.stderr)),
            ("stdout", hex_leaf(&split.stdout)),
        ]),
        ChildExecutionOutput::Output {
            output: ChildOutput::Combined { output },
            ..
        } => object.with(&[("combined", Leaf::Hex(output))]),
        ChildExecutionOutput::StartError(error) => {
            object.with(&[("start_error", Leaf::Text(error))])
        }
    }
}

#[tactic(auto, unfolding(crate::specs::Statuses::attempt_fields))]
fn attempt(status: &ExecuteStatus) -> [(&'static str, Leaf<'_>); 8]
    ensures { rows leaf_data result ≡ attempt_fields status.now }
{
    [
        ("attempt", Leaf::Count(status.attempt)),
        ("attempts", Leaf::Count(status.attempts)),
        ("delay", Leaf::Number(status.delay)),
        ("errors", Leaf::Errors(&status.output, None)),
        ("result", Leaf::Result(status.result)),
        ("slow", Leaf::Truth(status.slow)),
        ("start", Leaf::Number(status.start)),
        ("time", Leaf::Number(status.time)),
    ]
}

/// An attempt of a test.
#[tactic(auto, using(crate::proofs::FieldLemmas::put_all_more))]
pub(crate) fn print_status(alloc: Global, out: &mut Printer, status: &ExecuteStatus) -> Mem<()>
    ensures { Prints result out.old out.new (data_tokens (status_data status.now)) }
{
    let object = Object::of(alloc, &attempt(status))?;
    with_streams(object, &status.output)?.print(alloc, out)
}

/// The object of an attempt, as the lines of its events have it.
#[tactic(auto, using(crate::proofs::PrintLemmas::print_data))]
pub fn status_text(alloc: Global, status: &ExecuteStatus) -> Mem<Text>
    ensures { IfOk result (λ t. t ≡ compact_text (status_data status.now)) }
{
    let mut out = Printer::new(alloc)?;
    print_status(alloc, &mut out, status)?;
    out.into_text(alloc)
}

/// The attempts of a test, in order.
pub(crate) fn print_statuses(
    alloc: Global,
    out: &mut Printer,
    statuses: &[ExecuteStatus],
) -> Mem<()>
    ensures { Prints result out.old out.new (data_tokens (array_of status_data statuses.now)) }
{
    out.begin_array()?;
    for status in statuses {
        print_status(alloc, out, status)?;
    }
    out.end_array()
}

fn env_leaf(env: &ScriptEnv) -> Leaf<'_>
    ensures { leaf_data result ≡ env_data env.now }
{
    match env {
        ScriptEnv::Variables(map) => Leaf::Pairs(map.pairs()),
        ScriptEnv::Unread | ScriptEnv::Fault(_) => Leaf::Absent,
    }
}

fn env_fault(env: &ScriptEnv) -> Option<SetupScriptOutputError>
    ensures { result ≡ fault_of env.now }
{
    match env {
        ScriptEnv::Fault(fault) => Some(*fault),
        ScriptEnv::Unread | ScriptEnv::Variables(_) => None,
    }
}

#[tactic(auto, unfolding(crate::specs::Statuses::script_fields))]
fn script_attempt(status: &SetupScriptExecuteStatus) -> [(&'static str, Leaf<'_>); 6]
    ensures { rows leaf_data result ≡ script_fields status.now }
{
    [
        ("env", env_leaf(&status.env)),
        (
            "errors",
            Leaf::Errors(&status.output, env_fault(&status.env)),
        ),
        ("result", Leaf::Result(status.result)),
        ("slow", Leaf::Truth(status.slow)),
        ("start", Leaf::Number(status.start)),
        ("time", Leaf::Number(status.time)),
    ]
}

/// The attempt of a setup script.
#[tactic(auto, using(crate::proofs::FieldLemmas::put_all_more))]
pub(crate) fn print_script_status(
    alloc: Global,
    out: &mut Printer,
    status: &SetupScriptExecuteStatus,
) -> Mem<()>
    ensures { Prints result out.old out.new (data_tokens (script_status_data status.now)) }
{
    let object = Object::of(alloc, &script_attempt(status))?;
    with_streams(object, &status.output)?.print(alloc, out)
}

/// The object of a setup script's attempt, as the line of its event has it.
#[tactic(auto, using(crate::proofs::PrintLemmas::print_data))]
pub fn script_status_text(alloc: Global, status: &SetupScriptExecuteStatus) -> Mem<Text>
    ensures { IfOk result (λ t. t ≡ compact_text (script_status_data status.now)) }
{
    let mut out = Printer::new(alloc)?;
    print_script_status(alloc, &mut out, status)?;
    out.into_text(alloc)
}
