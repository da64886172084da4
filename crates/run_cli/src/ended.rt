// How the program ends: with an outcome or a fault, and its last lines.
ghost use Rattle.std.specs.Prelude.{◌≡◌, ◌<◌, ◌≤◌, ◌^◌, ℕ, List, length, take, Err};
ghost use Rattle.run_capture.specs.Bytes.{Takes};
ghost use Rattle.run_output.specs.declared.fault.Fault.TheVariants.{Memory};
ghost use Rattle.run_cli.specs.Call.{writing_of};
ghost use Rattle.run_cli.specs.Text.{fault_only, outcome_status};
ghost use Rattle.run_cli.specs.Commands.{form_of};
ghost use Rattle.run_cli.specs.Finish.{EndsAtFault, EndsAtOutcome, Finishes, IsReplayEnding};
ghost use Rattle.run_cli.specs.Short.{fault_of_error};

use crate::command::Command;
use crate::execution::{Executed, execute};
use crate::write::{WriteError, write_fault, write_outcome};
use run_capture::{Failed, Sink, write_all};
use run_engine::{TestRunner, TestRunnerExecuteErrors};
use run_events::{RunOutcome, RunStep, Turn};
use run_output::Fault;
use std::alloc::Global;

/// How the program ended, and its sink.
pub struct Ended<K> {
    pub ending: Result<RunOutcome, Fault>,
    pub sink: K,
}

/// The status of an outcome.
pub fn status_of_outcome(outcome: RunOutcome) -> u8
    ensures { result ≡ outcome_status outcome }
{
    match outcome {
        RunOutcome::Success => 0,
        RunOutcome::NoTestsRun => 4,
        RunOutcome::Failed {
            step: RunStep::Test,
        }
        | RunOutcome::Cancelled {
            step: RunStep::Test,
        } => 100,
        RunOutcome::Failed {
            step: RunStep::SetupScript,
        }
        | RunOutcome::Cancelled {
            step: RunStep::SetupScript,
        } => 105,
    }
}

// The line of want of memory, which takes none.
const MEMORY_LINE: &[u8] = b"{\"fault\":\"memory\",\"status\":11}\n";

// Says that memory was wanting, where the sink takes that.
fn end_for_memory<K: Sink>(sink: &mut K)
    ensures said { (n : ℕ) × Takes (K.taken sink.old) (K.taken sink.new) (take n (fault_only Memory)) }
    ensures later { K.faults sink.old ≤ K.faults sink.new }
{
    let _ = write_all(sink, MEMORY_LINE);
}

/// Ends for want of memory, and says so where the sink takes that.
pub fn end_without_memory<K: Sink>(sink: K) -> Ended<K>
    ensures ending { result.ending ≡ Err Memory }
    ensures said { (n : ℕ) × Takes (K.taken sink) (K.taken result.sink) (take n (fault_only Memory)) }
    ensures later { K.faults sink ≤ K.faults result.sink }
{
    let mut sink = sink;
    end_for_memory(&mut sink);
    Ended {
        ending: Err(Fault::Memory),
        sink,
    }
}

/// Writes lines of asks and a fault. A write that fails leaves the fault as it is.
pub fn end_at_fault<K: Sink>(alloc: Global, sink: K, asks: &[u8], fault: Fault) -> Ended<K>
    ensures { EndsAtFault (writing_of K.Sink sink result.sink) asks.now fault
        result.ending }
{
    let mut sink = sink;
    match write_fault(alloc, &mut sink, asks, fault) {
        Ok(()) | Err(WriteError::Failed) => Ended {
            ending: Err(fault),
            sink,
        },
        Err(WriteError::OutOfMemory) => end_without_memory(sink),
    }
}

/// Writes lines of asks and an outcome. A write that fails makes the outcome a fault.
pub fn end_at_outcome<K: Sink>(alloc: Global, sink: K, asks: &[u8], outcome: RunOutcome) -> Ended<K>
    ensures ends { EndsAtOutcome (writing_of K.Sink sink result.sink) asks.now outcome
        result.ending }
    ensures later { K.faults sink ≤ K.faults result.sink }
{
    let mut sink = sink;
    match write_outcome(alloc, &mut sink, asks, outcome) {
        Ok(()) => Ended {
            ending: Ok(outcome),
            sink,
        },
        Err(WriteError::Failed) => Ended {
            ending: Err(Fault::Report),
            sink,
        },
        Err(WriteError::OutOfMemory) => end_without_memory(sink),
    }
}

/// The fault that an error of the engine is.
pub fn fault_of_error<E: Drop>(error: TestRunnerExecuteErrors<E>) -> Fault
    ensures { result ≡ fault_of_error error }
{
    match error {
        TestRunnerExecuteErrors::Report(_) => Fault::Report,
        TestRunnerExecuteErrors::NotEnabled { turn } => Fault::NotEnabled { turn },
        TestRunnerExecuteErrors::ThirdSignal { turn } => Fault::ThirdSignal { turn },
        TestRunnerExecuteErrors::Unfinished => Fault::Unfinished,
        TestRunnerExecuteErrors::OutOfMemory => Fault::Memory,
    }
}

/// Writes what is left to write of a run by its answer: the lines of its asks, and then its outcome or its fault.
pub fn finish<K: Sink>(
    alloc: Global,
    sink: K,
    asks: &[u8],
    answer: Result<RunOutcome, TestRunnerExecuteErrors<Failed>>,
) -> Ended<K>
    ensures { Finishes (writing_of K.Sink sink result.sink) asks.now answer result.ending }
{
    match answer {
        Ok(outcome) => end_at_outcome(alloc, sink, asks, outcome),
        Err(error) => {
            let fault = fault_of_error(error);
            end_at_fault(alloc, sink, asks, fault)
        }
    }
}

/// Carries out the turns of a run, and writes all that the command writes.
pub fn replay<K: Sink>(
    alloc: Global,
    command: Command,
    runner: TestRunner,
    turns: &[Turn],
    sink: K,
) -> Ended<K>
    requires { length turns.now < 2 ^ 32 }
    ensures { IsReplayEnding (form_of command runner) runner turns.now (writing_of K.Sink sink result.sink)
        result.ending }
{
    let Executed { sink, asks, answer } = execute(alloc, command, runner, turns, sink);
    finish(alloc, sink, asks.as_bytes(), answer)
}
