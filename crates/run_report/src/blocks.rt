// What a child wrote, and what went wrong at it.
ghost use Rattle.std.specs.Prelude.{◌≡◌, ◌++◌, string_bytes, IfOk, OnOk};
ghost use Rattle.run_report.specs.Blocks.{
  block_shown,
  error_shown,
  errors_shown,
  fault_source,
  fault_said,
  header_shown,
  is_silent,
  is_unwritten,
  said_shown,
  says_nothing,
  silence_said,
  silence_shown,
  stream_shown,
  stream_where,
  streams_shown,
};

use crate::Style;
use crate::shown::Shown;
use crate::style::push_part;
use run_capture::{Blob, ChildFdError, ChildOutput, Duplicate, Mem};
use run_events::ChildExecutionOutput;
use std::alloc::Global;

// A line over a stream, and an empty line.
#[tactic(auto, unfolding(crate::specs::Style::spans_bytes))]
fn header(alloc: Global, color: bool, style: Style, name: &str) -> Mem<String>
    ensures { IfOk result (λ s. string_bytes s ≡ header_shown color style name.now) }
{
    let mut line = String::new(alloc);
    push_part(&mut line, color, Style::Plain, "  ")?;
    push_part(&mut line, color, style, name)?;
    line.push_str("\n\n")?;
    Ok(line)
}

// Adds a stream, unless it is empty.
fn push_stream(
    alloc: Global,
    shown: &mut Shown,
    color: bool,
    style: Style,
    name: &str,
    bytes: &Blob,
) -> Mem<()>
    ensures { OnOk result (shown.new ≡ shown.old ++ stream_shown color style name.now bytes.now) }
{
    if bytes.is_empty() {
        return Ok(());
    }
    let header = header(alloc, color, style, name)?;
    shown.push(header)?;
    shown.push_output(bytes.copy(alloc)?)
}

// Adds a stream, where it was captured.
fn push_where(
    alloc: Global,
    shown: &mut Shown,
    color: bool,
    style: Style,
    name: &str,
    bytes: &Option<Blob>,
) -> Mem<()>
    ensures { OnOk result (shown.new ≡ shown.old ++ stream_where color style name.now bytes.now) }
{
    match bytes {
        Some(bytes) => push_stream(alloc, shown, color, style, name, bytes),
        None => Ok(()),
    }
}

// Adds the streams of a child.
fn push_streams(
    alloc: Global,
    shown: &mut Shown,
    color: bool,
    style: Style,
    output: &ChildOutput,
) -> Mem<()>
    ensures { OnOk result (shown.new ≡ shown.old ++ streams_shown color style output.now) }
{
    match output {
        ChildOutput::Combined { output } => {
            push_stream(alloc, shown, color, style, "output ───", output)
        }
        ChildOutput::Split(split) => {
            push_where(alloc, shown, color, style, "stdout ───", &split.stdout)?;
            push_where(alloc, shown, color, style, "stderr ───", &split.stderr)
        }
    }
}

// Where a fault came up.
fn fault_source(fault: &ChildFdError) -> &'static str
    ensures { result.now ≡ fault_source fault.now }
{
    match fault {
        ChildFdError::ReadStdout(_) => "stdout: ",
        ChildFdError::ReadStderr(_) => "stderr: ",
        ChildFdError::ReadCombined(_) => "combined: ",
        ChildFdError::Wait(_) => "wait: ",
    }
}

// The text of its error.
fn fault_said(fault: &ChildFdError) -> &str
    ensures { result.now ≡ fault_said fault.now }
{
    match fault {
        ChildFdError::ReadStdout(text)
        | ChildFdError::ReadStderr(text)
        | ChildFdError::ReadCombined(text)
        | ChildFdError::Wait(text) => text.as_str(),
    }
}

/// An error and where it came up, as a line.
#[tactic(auto, unfolding(crate::specs::Style::spans_bytes))]
pub(crate) fn error_line(alloc: Global, color: bool, source: &str, text: &str) -> Mem<String>
    ensures { IfOk result (λ s. string_bytes s ≡ error_shown color source.now text.now) }
{
    let mut line = String::new(alloc);
    push_part(&mut line, color, Style::Plain, "  error: ")?;
    push_part(&mut line, color, Style::Plain, source)?;
    push_part(&mut line, color, Style::Plain, text)?;
    line.push_str("\n")?;
    Ok(line)
}

// Adds an error.
fn push_error(alloc: Global, shown: &mut Shown, color: bool, source: &str, text: &str) -> Mem<()>
    ensures { OnOk result (shown.new ≡ shown.old ++ error_shown color source.now text.now) }
{
    let line = error_line(alloc, color, source, text)?;
    shown.push(line)
}

// Adds the errors that came up at a child.
fn push_errors(alloc: Global, shown: &mut Shown, color: bool, errors: &[ChildFdError]) -> Mem<()>
    ensures { OnOk result (shown.new ≡ shown.old ++ errors_shown color errors.now) }
{
    for fault in errors {
        push_error(alloc, shown, color, fault_source(fault), fault_said(fault))?;
    }
    Ok(())
}

// Adds what a child wrote, and what went wrong at it.
fn push_said(
    alloc: Global,
    shown: &mut Shown,
    color: bool,
    style: Style,
    child: &ChildExecutionOutput,
) -> Mem<()>
    ensures { OnOk result (shown.new ≡ shown.old ++ said_shown color style child.now) }
{
    match child {
        ChildExecutionOutput::StartError(text) => {
            push_error(alloc, shown, color, "", text.as_str())
        }
        ChildExecutionOutput::Output { output, errors } => {
            push_streams(alloc, shown, color, style, output)?;
            push_errors(alloc, shown, color, errors.as_slice())
        }
    }
}

// Whether a stream has no byte.
fn is_unwritten(bytes: &Option<Blob>) -> bool
    ensures { result ≡ is_unwritten bytes.now }
{
    match bytes {
        Some(bytes) => bytes.is_empty(),
        None => true,
    }
}

// Whether a child wrote nothing.
fn is_silent(output: &ChildOutput) -> bool
    ensures { result ≡ is_silent output.now }
{
    match output {
        ChildOutput::Combined { output } => output.is_empty(),
        ChildOutput::Split(split) => is_unwritten(&split.stdout) && is_unwritten(&split.stderr),
    }
}

// Whether a child wrote nothing, and nothing went wrong at it.
fn says_nothing(child: &ChildExecutionOutput) -> bool
    ensures { result ≡ says_nothing child.now }
{
    match child {
        ChildExecutionOutput::StartError(_) => false,
        ChildExecutionOutput::Output { output, errors } => is_silent(output) && errors.is_empty(),
    }
}

// That there is nothing.
#[tactic(auto, unfolding(crate::specs::Style::spans_bytes))]
fn silence_line(alloc: Global, color: bool) -> Mem<String>
    ensures { IfOk result (λ s. string_bytes s ≡ silence_said color) }
{
    let mut line = String::new(alloc);
    push_part(&mut line, color, Style::Plain, "  ")?;
    push_part(&mut line, color, Style::Plain, "(no output)")?;
    line.push_str("\n")?;
    Ok(line)
}

// Adds that there is nothing, where nothing stands for a failed attempt.
fn push_silence(
    alloc: Global,
    shown: &mut Shown,
    color: bool,
    passed: bool,
    child: &ChildExecutionOutput,
) -> Mem<()>
    ensures { OnOk result (shown.new ≡ shown.old ++ silence_shown color passed child.now) }
{
    if says_nothing(child) && !passed {
        let line = silence_line(alloc, color)?;
        return shown.push(line);
    }
    Ok(())
}

/// Adds the output of an attempt, which passed or not, with its headers in this style.
#[tactic(auto, unfolding(crate::specs::Blocks::block_shown))]
pub(crate) fn push_block(
    alloc: Global,
    shown: &mut Shown,
    color: bool,
    style: Style,
    passed: bool,
    child: &ChildExecutionOutput,
) -> Mem<()>
    ensures { OnOk result (shown.new ≡ shown.old
        ++ block_shown color (record { style = style; passed = passed; child = child.now })) }
{
    push_said(alloc, shown, color, style, child)?;
    push_silence(alloc, shown, color, passed, child)
}
