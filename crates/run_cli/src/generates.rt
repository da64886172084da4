// The command `generate`: a generated run, and its line.
ghost use Rattle.std.specs.Prelude.{◌≡◌, ◌≤◌};
ghost use Rattle.run_capture.specs.Bytes.{Takes};
ghost use Rattle.std.specs.Prelude.{OnErr, OnOk};
ghost use Rattle.run_cli.specs.Call.{TakesFront, writing_of};
ghost use Rattle.run_cli.specs.Generates.{EndsAtSummary, IsGenerateEnd, generated_line};
ghost use Rattle.run_cli.specs.Write.{CountsWrite};

use crate::ended::{Ended, end_at_fault, end_without_memory};
use crate::write::{WriteError, write_line};
use run_capture::Sink;
use run_generate::{GenerateError, Generated, generate};
use run_laws_generate::generated_runs_end;
use run_output::{Fault, summary_line};
use std::alloc::Global;

// Writes the line of a generated run.
fn write_summary<K: Sink>(
    alloc: Global,
    sink: &mut K,
    tests: u32,
    run: &Generated,
) -> Result<(), WriteError>
    ensures ok { OnOk result (Takes (K.taken sink.old) (K.taken sink.new) (generated_line tests run.now)) }
    ensures front { OnErr result (TakesFront (K.taken sink.old) (K.taken sink.new)
        (generated_line tests run.now)) }
    ensures counted { CountsWrite (K.faults sink.old) (K.faults sink.new) result }
{
    let line = summary_line(alloc, tests, run.events, run.outcome, &run.stats, run.turns)?;
    write_line(alloc, sink, line)
}

// Writes the line of a generated run that is over. A write that fails makes the outcome a fault.
fn end_at_summary<K: Sink>(alloc: Global, sink: K, tests: u32, run: Generated) -> Ended<K>
    ensures { EndsAtSummary (writing_of K.Sink sink result.sink) tests run result.ending }
{
    let mut sink = sink;
    match write_summary(alloc, &mut sink, tests, &run) {
        Ok(()) => Ended {
            ending: Ok(run.outcome),
            sink,
        },
        Err(WriteError::Failed) => Ended {
            ending: Err(Fault::Report),
            sink,
        },
        Err(WriteError::OutOfMemory) => end_without_memory(sink),
    }
}

/// Carries out a generated run of so many tests, and writes its line.
pub fn run_generated<K: Sink>(alloc: Global, tests: u32, sink: K) -> Ended<K>
    requires { tests ≤ 20000 }
    ensures { IsGenerateEnd tests (writing_of K.Sink sink result.sink) result.ending }
{
    match generate(alloc, tests) {
        Ok(run) => end_at_summary(alloc, sink, tests, run),
        Err(GenerateError::Unfinished) => {
            generated_runs_end();
            unreachable!()
        }
        Err(GenerateError::OutOfMemory) => end_at_fault(alloc, sink, &[], Fault::Memory),
    }
}
