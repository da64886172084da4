// What came of the child of an attempt.
use crate::members::{items, some_bytes};
use run_capture::{Blob, ChildFdError, ChildOutput, ChildSplitOutput, List, Mem, Text};
use run_commands::SetupScriptOutputError;
use run_events::ChildExecutionOutput;
use run_input::str_at;
use serde_json::Value;
use std::alloc::Global;

// An error by its text; none of an environment file's.
fn error_of(alloc: Global, text: &str) -> Mem<Option<ChildFdError>> {
    let error = if let Some(said) = text.strip_prefix("stdout: ") {
        ChildFdError::ReadStdout(Text::from_str(alloc, said)?)
    } else if let Some(said) = text.strip_prefix("stderr: ") {
        ChildFdError::ReadStderr(Text::from_str(alloc, said)?)
    } else if let Some(said) = text.strip_prefix("combined: ") {
        ChildFdError::ReadCombined(Text::from_str(alloc, said)?)
    } else if let Some(said) = text.strip_prefix("wait: ") {
        ChildFdError::Wait(Text::from_str(alloc, said)?)
    } else {
        return Ok(None);
    };
    Ok(Some(error))
}

// The errors of a child, in order.
fn errors_in(alloc: Global, attempt: &Value) -> Mem<List<ChildFdError>> {
    let mut errors = List::new();
    for item in items(attempt, "errors") {
        if let Some(error) = error_of(alloc, item.as_str().unwrap_or(""))? {
            errors.push(alloc, error)?;
        }
    }
    Ok(errors)
}

// The fault of an environment file by its text. No line has which line of the file is at fault.
fn fault_of(text: &str) -> Option<SetupScriptOutputError> {
    match text {
        "env: open" => Some(SetupScriptOutputError::EnvFileOpen),
        "env: read" => Some(SetupScriptOutputError::EnvFileRead { line: None }),
        "env: parse" => Some(SetupScriptOutputError::EnvFileParse { line: 0 }),
        "env: key" => Some(SetupScriptOutputError::EnvFileInvalidKey { line: 0 }),
        _ => None,
    }
}

/// What was wrong with a script's environment file, if something was: the last of its errors.
pub(crate) fn env_fault_in(attempt: &Value) -> Option<SetupScriptOutputError> {
    match items(attempt, "errors").last() {
        Some(item) => fault_of(item.as_str().unwrap_or("")),
        None => None,
    }
}

// What it wrote to streams that were captured each by itself.
fn split_in(alloc: Global, attempt: &Value) -> Mem<ChildOutput> {
    let stdout = some_bytes(alloc, attempt, "stdout")?;
    let stderr = some_bytes(alloc, attempt, "stderr")?;
    Ok(ChildOutput::Split(ChildSplitOutput { stdout, stderr }))
}

// What it wrote.
fn wrote_in(alloc: Global, attempt: &Value) -> Mem<ChildOutput> {
    let combined: Option<Blob> = some_bytes(alloc, attempt, "combined")?;
    match combined {
        Some(output) => Ok(ChildOutput::Combined { output }),
        None => split_in(alloc, attempt),
    }
}

/// What came of the child of an attempt.
pub(crate) fn child_in(alloc: Global, attempt: &Value) -> Mem<ChildExecutionOutput> {
    if let Some(error) = str_at(attempt, "start_error") {
        let error = Text::from_str(alloc, error)?;
        return Ok(ChildExecutionOutput::StartError(error));
    }
    let errors = errors_in(alloc, attempt)?;
    let output = wrote_in(alloc, attempt)?;
    Ok(ChildExecutionOutput::Output { output, errors })
}
