// How the program of jobs ends.
ghost use Rattle.std.specs.Prelude.{◌≡◌, ◌++◌, [], OnOk, OnErr};
ghost use Rattle.run_capture.specs.Bytes.{Takes};
ghost use Rattle.run_output.specs.Fields.{line_bytes};
ghost use Rattle.run_cli.specs.Call.{writing_of, TakesFront};
ghost use Rattle.run_cli.specs.Write.{CountsWrite};
ghost use Rattle.run_jobs_cli.specs.JobsEnds.{EndsAtJobsFault, EndsAtStates, jobs_fault_only};
ghost use Rattle.run_jobs_cli.specs.StateLines.{state_lines, state_text};

use crate::fault::{JobsFault, jobs_fault_line};
use crate::state_lines::{state_line, states_status};
use run_capture::Sink;
use run_cli::{Ended, Ran, WriteError, end_without_memory, write_line};
use run_jobs::{Job, JobState};
use std::alloc::Global;

// Writes the line of a fault.
fn write_jobs_fault<K: Sink>(
    alloc: Global,
    sink: &mut K,
    fault: JobsFault,
) -> Result<(), WriteError>
    ensures ok { OnOk result (Takes (K.taken sink.old) (K.taken sink.new) (jobs_fault_only fault)) }
    ensures front { OnErr result (TakesFront (K.taken sink.old) (K.taken sink.new) (jobs_fault_only fault)) }
    ensures counted { CountsWrite (K.faults sink.old) (K.faults sink.new) result }
{
    let line = jobs_fault_line(alloc, fault)?;
    write_line(alloc, sink, line)
}

/// Writes the line of a fault, and ends with its status.
pub fn end_at<K: Sink>(alloc: Global, sink: K, fault: JobsFault) -> Ran<K>
    ensures { EndsAtJobsFault (writing_of K.Sink sink result.sink) [] fault result.status }
{
    let mut sink = sink;
    match write_jobs_fault(alloc, &mut sink, fault) {
        Ok(()) | Err(WriteError::Failed) => Ran {
            status: fault.status(),
            sink,
        },
        Err(WriteError::OutOfMemory) => {
            let Ended { ending: _, sink } = end_without_memory(sink);
            Ran { status: 11, sink }
        }
    }
}

// Writes the line of the state of a job, by its number.
fn write_state<K: Sink>(
    alloc: Global,
    sink: &mut K,
    jobs: &[Job],
    job: usize,
    state: JobState,
) -> Result<(), WriteError>
    ensures ok { OnOk result (Takes (K.taken sink.old) (K.taken sink.new)
        (line_bytes (state_text jobs.now job state))) }
    ensures front { OnErr result (TakesFront (K.taken sink.old) (K.taken sink.new)
        (line_bytes (state_text jobs.now job state))) }
    ensures counted { CountsWrite (K.faults sink.old) (K.faults sink.new) result }
{
    let line = state_line(alloc, jobs, job, state)?;
    write_line(alloc, sink, line)
}

// Writes the lines of states.
fn write_states<K: Sink>(
    alloc: Global,
    sink: &mut K,
    jobs: &[Job],
    states: &[JobState],
) -> Result<(), WriteError>
    ensures ok { OnOk result (Takes (K.taken sink.old) (K.taken sink.new) (state_lines jobs.now 0 states.now)) }
    ensures front { OnErr result (TakesFront (K.taken sink.old) (K.taken sink.new)
        (state_lines jobs.now 0 states.now)) }
    ensures counted { CountsWrite (K.faults sink.old) (K.faults sink.new) result }
{
    for job in 0..states.len() {
        write_state(alloc, sink, jobs, job, states[job])?;
    }
    Ok(())
}

/// Writes the line of each job's state, and ends with their status.
pub fn end_at_states<K: Sink>(alloc: Global, sink: K, jobs: &[Job], states: &[JobState]) -> Ran<K>
    ensures { EndsAtStates (writing_of K.Sink sink result.sink) [] jobs.now states.now result.status }
{
    let mut sink = sink;
    match write_states(alloc, &mut sink, jobs, states) {
        Ok(()) => Ran {
            status: states_status(states),
            sink,
        },
        Err(WriteError::Failed) => Ran { status: 9, sink },
        Err(WriteError::OutOfMemory) => {
            let Ended { ending: _, sink } = end_without_memory(sink);
            Ran { status: 11, sink }
        }
    }
}
