// The errors of an attempt as texts.
ghost use Rattle.std.specs.Prelude.{◌≡◌, ◌==◌, ◌++◌, map, length, is_none, string_bytes, IfOk};
ghost use Rattle.serde_json.specs.Data.{string};
ghost use Rattle.run_output.specs.Printer.{Prints, data_tokens, each_tokens, or_null};
ghost use Rattle.run_output.specs.Errors.{error_text, env_fault_text, child_errors, fault_errors, errors_data};

use crate::printer::Printer;
use run_capture::{ChildFdError, Mem, Text};
use run_commands::SetupScriptOutputError;
use run_events::ChildExecutionOutput;
use std::alloc::Global;

// A text after a label.
fn labelled(alloc: Global, label: &str, text: &Text) -> Mem<String>
    ensures { IfOk result (λ s. string_bytes s ≡ label.now ++ text.now) }
{
    let text = text.as_str();
    Ok(format!(in alloc; "{label}{text}")?)
}

#[tactic(auto, unfolding(crate::specs::Errors::error_text))]
fn error_string(alloc: Global, error: &ChildFdError) -> Mem<String>
    ensures { IfOk result (λ s. string_bytes s ≡ error_text error.now) }
{
    match error {
        ChildFdError::ReadStdout(text) => labelled(alloc, "stdout: ", text),
        ChildFdError::ReadStderr(text) => labelled(alloc, "stderr: ", text),
        ChildFdError::ReadCombined(text) => labelled(alloc, "combined: ", text),
        ChildFdError::Wait(text) => labelled(alloc, "wait: ", text),
    }
}

// Errors one after another.
fn print_each(alloc: Global, out: &mut Printer, errors: &[ChildFdError]) -> Mem<()>
    ensures { Prints result out.old out.new
        (each_tokens (map (λ e. string (error_text e)) errors.now)) }
{
    for error in errors {
        let text = error_string(alloc, error)?;
        out.text(text.as_str())?;
    }
    Ok(())
}

// What came up at a child that was started.
#[tactic(auto, using(crate::proofs::PrintLemmas::map_twice))]
fn print_child(alloc: Global, out: &mut Printer, child: &ChildExecutionOutput) -> Mem<()>
    ensures { Prints result out.old out.new
        (each_tokens (map string (child_errors child.now))) }
{
    match child {
        ChildExecutionOutput::Output { errors, .. } => print_each(alloc, out, errors.as_slice()),
        ChildExecutionOutput::StartError(_) => Ok(()),
    }
}

#[tactic(auto, unfolding(crate::specs::Errors::env_fault_text))]
fn fault_word(fault: SetupScriptOutputError) -> &'static str
    ensures { result.now ≡ env_fault_text fault }
{
    match fault {
        SetupScriptOutputError::EnvFileOpen => "env: open",
        SetupScriptOutputError::EnvFileParse { .. } => "env: parse",
        SetupScriptOutputError::EnvFileInvalidKey { .. } => "env: key",
        SetupScriptOutputError::EnvFileRead { .. }
        | SetupScriptOutputError::EnvFileTooLong
        | SetupScriptOutputError::OutOfMemory => "env: read",
    }
}

// The fault of an environment file, where there is one.
fn print_fault(out: &mut Printer, fault: Option<SetupScriptOutputError>) -> Mem<()>
    ensures { Prints result out.old out.new (each_tokens (map string (fault_errors fault))) }
{
    match fault {
        Some(fault) => out.text(fault_word(fault)),
        None => Ok(()),
    }
}

// Whether nothing came up at a child.
fn is_sound(child: &ChildExecutionOutput) -> bool
    ensures { result ≡ (length (child_errors child.now) == 0) }
{
    match child {
        ChildExecutionOutput::Output { errors, .. } => errors.is_empty(),
        ChildExecutionOutput::StartError(_) => true,
    }
}

/// Whether a child has no error, and its environment file no fault.
#[tactic(auto, using(crate::proofs::PrintLemmas::errors_absent))]
pub(crate) fn has_no_errors(
    child: &ChildExecutionOutput,
    fault: Option<SetupScriptOutputError>,
) -> bool
    ensures { result
        ≡ is_none (errors_data (child_errors child.now ++ fault_errors fault)) }
{
    is_sound(child) && fault.is_none()
}

/// Prints the errors of a child and then that of its environment file, or `null` where there is none.
pub(crate) fn print_errors(
    alloc: Global,
    out: &mut Printer,
    child: &ChildExecutionOutput,
    fault: Option<SetupScriptOutputError>,
) -> Mem<()>
    ensures { Prints result out.old out.new
        (data_tokens (or_null (errors_data (child_errors child.now ++ fault_errors fault)))) }
{
    if has_no_errors(child, fault) {
        return out.null();
    }
    out.begin_array()?;
    print_child(alloc, out, child)?;
    print_fault(out, fault)?;
    out.end_array()
}
