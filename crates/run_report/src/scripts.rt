// Setup scripts in a report.
ghost use Rattle.std.specs.Prelude.{◌≡◌, ◌++◌, codes, not, string_bytes, true, IfOk, OnOk};
ghost use Rattle.run_events.specs.Result.{is_success};
ghost use Rattle.run_report.specs.Finished.{piece_if};
ghost use Rattle.run_report.specs.Lines.{script_spans};
ghost use Rattle.run_report.specs.Pieces.{note, output, pieces_bytes, script};
ghost use Rattle.run_report.specs.Scripts.{
  command_said,
  env_fault_said,
  env_line_said,
  env_pieces,
  env_spans,
  script_block,
  script_end_line,
  script_end_pieces,
  script_slow_line,
  script_slow_style,
  script_slow_word,
  script_start_line,
  script_style,
  which_text,
};
ghost use Rattle.run_report.specs.Style.{line_shown};

use crate::blocks::{error_line, push_block};
use crate::lines::script_line;
use crate::shown::Shown;
use crate::texts::{at_right, over, took};
use crate::words::short_word;
use crate::{ReportSettings, Style};
use run_capture::{Mem, Text};
use run_commands::SetupScriptOutputError;
use run_events::{
    ScriptEnv, ScriptFinish, ScriptSlow, ScriptStart, ScriptUnit, SetupScriptExecuteStatus,
};
use std::alloc::Global;

// Which script it is, of how many.
fn which(alloc: Global, script: &ScriptUnit) -> Mem<String>
    ensures { IfOk result (λ s. string_bytes s ≡ which_text script.now) }
{
    let number = u64::from(script.index) + 1;
    let total = script.total;
    let text = format!(in alloc; "{number}/{total}")?;
    let shown = at_right(alloc, 9, text.as_str())?;
    Ok(format!(in alloc; "[{shown}] ")?)
}

// The words of a command, behind a colon.
fn command_said(alloc: Global, command: &[Text]) -> Mem<String>
    ensures { IfOk result (λ s. string_bytes s ≡ command_said command.now) }
{
    let mut said = String::from_str(alloc, ":")?;
    for word in command {
        said.push_str(" ")?;
        said.push_str(word.as_str())?;
    }
    Ok(said)
}

// The line of a script that starts.
fn start_line(alloc: Global, color: bool, start: &ScriptStart) -> Mem<String>
    ensures { IfOk result (λ s. string_bytes s ≡ line_shown color (script_spans (script_start_line start.now))) }
{
    let which = which(alloc, &start.script)?;
    let said = command_said(alloc, start.command.as_slice())?;
    script_line(
        alloc,
        color,
        Style::Green,
        "SETUP",
        which.as_str(),
        &start.script,
        said.as_str(),
    )
}

/// Adds a script that starts.
#[tactic(auto, using(crate::proofs::PieceLemmas::one_piece))]
pub(crate) fn push_script_start(
    alloc: Global,
    shown: &mut Shown,
    settings: &ReportSettings,
    start: &ScriptStart,
) -> Mem<()>
    ensures { OnOk result (shown.new ≡ shown.old
        ++ pieces_bytes settings.now (piece_if true (script (script_start_line start.now)))) }
{
    let line = start_line(alloc, settings.color, start)?;
    shown.push(line)
}

// The style of a slow script, which is ended or not.
fn slow_style(terminates: bool) -> Style
    ensures { result ≡ script_slow_style terminates }
{
    if terminates {
        Style::Red
    } else {
        Style::Yellow
    }
}

// Its word.
fn slow_word(terminates: bool) -> &'static str
    ensures { result.now ≡ script_slow_word terminates }
{
    if terminates {
        "TERMINATING"
    } else {
        "SETUP SLOW"
    }
}

// Its line.
fn slow_line(alloc: Global, color: bool, slow: &ScriptSlow) -> Mem<String>
    ensures { IfOk result (λ s. string_bytes s ≡ line_shown color (script_spans (script_slow_line slow.now))) }
{
    let over = over(alloc, slow.elapsed_slow)?;
    let style = slow_style(slow.terminates);
    let word = slow_word(slow.terminates);
    script_line(alloc, color, style, word, over.as_str(), &slow.script, "")
}

/// Adds a slow script.
#[tactic(auto, using(crate::proofs::PieceLemmas::one_piece))]
pub(crate) fn push_script_slow(
    alloc: Global,
    shown: &mut Shown,
    settings: &ReportSettings,
    slow: &ScriptSlow,
) -> Mem<()>
    ensures { OnOk result (shown.new ≡ shown.old
        ++ pieces_bytes settings.now (piece_if true (script (script_slow_line slow.now)))) }
{
    let line = slow_line(alloc, settings.color, slow)?;
    shown.push(line)
}

// The style of a finished script.
fn script_style(status: &SetupScriptExecuteStatus) -> Style
    ensures { result ≡ script_style status.now }
{
    if status.result.is_success() {
        Style::Green
    } else {
        Style::Red
    }
}

// The line of a finished script.
fn end_line(alloc: Global, color: bool, finish: &ScriptFinish) -> Mem<String>
    ensures { IfOk result (λ s. string_bytes s ≡ line_shown color (script_spans (script_end_line finish.now))) }
{
    let status = &finish.status;
    let ended = short_word(alloc, status.result)?;
    let word = format!(in alloc; "SETUP {ended}")?;
    let took = took(alloc, status.time)?;
    script_line(
        alloc,
        color,
        script_style(status),
        word.as_str(),
        took.as_str(),
        &finish.script,
        "",
    )
}

// Adds that line.
#[tactic(auto, using(crate::proofs::PieceLemmas::one_piece))]
fn push_end_line(
    alloc: Global,
    shown: &mut Shown,
    settings: &ReportSettings,
    finish: &ScriptFinish,
) -> Mem<()>
    ensures { OnOk result (shown.new ≡ shown.old
        ++ pieces_bytes settings.now (piece_if true (script (script_end_line finish.now)))) }
{
    let line = end_line(alloc, settings.color, finish)?;
    shown.push(line)
}

// Adds the output of a script that failed.
#[tactic(auto, using(crate::proofs::PieceLemmas::one_piece))]
fn push_script_output(
    alloc: Global,
    shown: &mut Shown,
    settings: &ReportSettings,
    status: &SetupScriptExecuteStatus,
) -> Mem<()>
    ensures { OnOk result (shown.new ≡ shown.old ++ pieces_bytes settings.now
        (piece_if (not (is_success status.now.result)) (output (script_block status.now)))) }
{
    if status.result.is_success() {
        Ok(())
    } else {
        push_block(
            alloc,
            shown,
            settings.color,
            Style::Red,
            false,
            &status.output,
        )
    }
}

// What is said of a line of an environment file.
fn env_line_said(alloc: Global, line: u64, fault: &str) -> Mem<String>
    ensures { IfOk result (λ s. string_bytes s ≡ env_line_said line fault.now) }
{
    Ok(format!(in alloc; "line {line} of the environment file {fault}")?)
}

// What is said of the fault of an environment file.
#[tactic(auto, unfolding(crate::specs::Scripts::env_fault_said))]
fn env_fault_said(alloc: Global, fault: SetupScriptOutputError) -> Mem<String>
    ensures { IfOk result (λ s. string_bytes s ≡ env_fault_said fault) }
{
    let said = match fault {
        SetupScriptOutputError::EnvFileOpen => {
            String::from_str(alloc, "the environment file can't be opened")?
        }
        SetupScriptOutputError::EnvFileRead { .. } => {
            String::from_str(alloc, "the environment file can't be read")?
        }
        SetupScriptOutputError::EnvFileTooLong => {
            String::from_str(alloc, "the environment file is too long")?
        }
        SetupScriptOutputError::OutOfMemory => {
            String::from_str(alloc, "memory was wanting for the environment file")?
        }
        SetupScriptOutputError::EnvFileParse { line } => env_line_said(alloc, line, "has no =")?,
        SetupScriptOutputError::EnvFileInvalidKey { line } => {
            env_line_said(alloc, line, "has a bad name")?
        }
    };
    Ok(said)
}

// That as a line.
fn env_line(alloc: Global, color: bool, fault: SetupScriptOutputError) -> Mem<String>
    ensures { IfOk result (λ s. string_bytes s ≡ line_shown color (env_spans fault)) }
{
    let said = env_fault_said(alloc, fault)?;
    error_line(alloc, color, "", said.as_str())
}

// Adds that line.
#[tactic(auto, using(crate::proofs::PieceLemmas::one_piece))]
fn push_env_fault(
    alloc: Global,
    shown: &mut Shown,
    settings: &ReportSettings,
    fault: SetupScriptOutputError,
) -> Mem<()>
    ensures { OnOk result (shown.new ≡ shown.old
        ++ pieces_bytes settings.now (piece_if true (note (env_spans fault)))) }
{
    let line = env_line(alloc, settings.color, fault)?;
    shown.push(line)
}

// Adds the fault of a script's environment file, if there is one.
#[tactic(auto, unfolding(crate::specs::Pieces::pieces_bytes))]
fn push_env(alloc: Global, shown: &mut Shown, settings: &ReportSettings, env: &ScriptEnv) -> Mem<()>
    ensures { OnOk result (shown.new ≡ shown.old ++ pieces_bytes settings.now (env_pieces env.now)) }
{
    match env {
        ScriptEnv::Unread | ScriptEnv::Variables(_) => Ok(()),
        ScriptEnv::Fault(fault) => push_env_fault(alloc, shown, settings, *fault),
    }
}

/// Adds a finished script: its line, the fault of its environment file, and its output where it failed.
#[tactic(auto, using(crate::proofs::PieceLemmas::pieces_two))]
pub(crate) fn push_script_end(
    alloc: Global,
    shown: &mut Shown,
    settings: &ReportSettings,
    finish: &ScriptFinish,
) -> Mem<()>
    ensures { OnOk result (shown.new ≡ shown.old
        ++ pieces_bytes settings.now (script_end_pieces finish.now)) }
{
    push_end_line(alloc, shown, settings, finish)?;
    push_env(alloc, shown, settings, &finish.status.env)?;
    push_script_output(alloc, shown, settings, &finish.status)
}
