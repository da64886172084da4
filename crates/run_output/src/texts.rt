// What is printed as a text.
ghost use Rattle.std.specs.Prelude.{◌≡◌, string_bytes, IfOk};
ghost use Rattle.serde_json.specs.Data.{string};
ghost use Rattle.uuid.specs.Text.{hyphenated_text, lower};
ghost use Rattle.run_events.specs.declared.result.ExecutionResult.TheVariants.{Timeout};
ghost use Rattle.run_output.specs.Printer.{Prints, data_tokens};
ghost use Rattle.run_output.specs.Texts.{bytes_data, leaked_text, failure_text, result_text, runs_text};

use crate::printer::Printer;
use run_capture::{Blob, Duplicate, Mem};
use run_commands::StressCount;
use run_events::{ExecutionResult, FailureStatus, LeakTimeoutResult, SlowTimeoutResult};
use std::alloc::Global;
use uuid::Uuid;

/// A longer output stays bytes until its line is written.
const MOST: usize = 4096;

/// Bytes, in hex with lower case letters.
pub(crate) fn print_hex(alloc: Global, out: &mut Printer, bytes: &Blob) -> Mem<()>
    ensures { Prints result out.old out.new (data_tokens (bytes_data bytes.now)) }
{
    if bytes.len() > MOST {
        return out.output(alloc, bytes.copy(alloc)?);
    }
    let text = hex::encode(alloc, bytes.as_slice())?;
    out.text(text.as_str())
}

/// An id, in lower case with hyphens.
pub(crate) fn print_id(alloc: Global, out: &mut Printer, id: Uuid) -> Mem<()>
    ensures { Prints result out.old out.new (data_tokens (string (hyphenated_text lower id))) }
{
    let text = format!(in alloc; "{id}")?;
    out.text(text.as_str())
}

/// How often a stress run repeats, as a plan says it.
#[tactic(auto, unfolding(crate::specs::Texts::runs_text))]
pub(crate) fn print_runs(alloc: Global, out: &mut Printer, runs: StressCount) -> Mem<()>
    ensures { Prints result out.old out.new (data_tokens (string (runs_text runs))) }
{
    match runs {
        StressCount::Infinite => out.text("infinite"),
        StressCount::Count { count } => {
            let count = count.get();
            let text = format!(in alloc; "{count}")?;
            out.text(text.as_str())
        }
    }
}

fn leaked_word(leaked: bool) -> &'static str
    ensures { result.now ≡ leaked_text leaked }
{
    if leaked { " leaked" } else { "" }
}

fn failure_string(alloc: Global, failure: FailureStatus, leaked: bool) -> Mem<String>
    ensures { IfOk result (λ s. string_bytes s ≡ failure_text failure leaked) }
{
    let end = leaked_word(leaked);
    match failure {
        FailureStatus::ExitCode(code) => Ok(format!(in alloc; "fail code {code}{end}")?),
        FailureStatus::Abort(signal) => Ok(format!(in alloc; "fail signal {signal}{end}")?),
    }
}

fn print_failure(alloc: Global, out: &mut Printer, failure: FailureStatus, leaked: bool) -> Mem<()>
    ensures { Prints result out.old out.new
        (data_tokens (string (failure_text failure leaked))) }
{
    let text = failure_string(alloc, failure, leaked)?;
    out.text(text.as_str())
}

#[tactic(auto, unfolding(crate::specs::Texts::result_text))]
fn print_timeout(out: &mut Printer, ending: SlowTimeoutResult) -> Mem<()>
    ensures { Prints result out.old out.new (data_tokens (string (result_text (Timeout ending)))) }
{
    match ending {
        SlowTimeoutResult::Pass => out.text("timeout-pass"),
        SlowTimeoutResult::Fail => out.text("timeout-fail"),
    }
}

/// The result of an attempt, in words.
#[tactic(auto, unfolding(crate::specs::Texts::result_text))]
pub(crate) fn print_result(alloc: Global, out: &mut Printer, outcome: ExecutionResult) -> Mem<()>
    ensures { Prints result out.old out.new (data_tokens (string (result_text outcome))) }
{
    match outcome {
        ExecutionResult::Pass => out.text("pass"),
        ExecutionResult::Leak {
            result: LeakTimeoutResult::Pass,
        } => out.text("leak-pass"),
        ExecutionResult::Leak {
            result: LeakTimeoutResult::Fail,
        } => out.text("leak-fail"),
        ExecutionResult::Fail {
            failure_status,
            leaked,
        } => print_failure(alloc, out, failure_status, leaked),
        ExecutionResult::ExecFail => out.text("exec-fail"),
        ExecutionResult::Timeout { result } => print_timeout(out, result),
    }
}
