// The wave that is due next.
ghost use Rattle.std.specs.Prelude.{◌≡◌, ◌<◌, ◌^◌, length, IfErr, IfOk, Ok};
ghost use Rattle.std.specs.List.{All};
ghost use Rattle.run_output.specs.declared.fault.Fault.TheVariants.{Memory};
ghost use Rattle.run_cli.specs.Call.{reading_of, writing_of};
ghost use Rattle.run_jobs_cli.specs.declared.fault.JobsFault.TheVariants.{Plain};
ghost use Rattle.run_jobs_cli.specs.NextCauses.{GetsNextWave};
ghost use Rattle.run_jobs_cli.specs.NextWaves.{AnswersNextWave, EndsAtLine, EndsAtNext, FindsNext, none_due_text};

use crate::ends::end_at;
use crate::fault::JobsFault;
use crate::fields::{Leaf, object_line};
use crate::runs::waves_fault;
use crate::top::given_jobs;
use run_capture::{List, Mem, Sink, Source, Text};
use run_cli::{Ended, Ran, WriteError, end_without_memory, write_line};
use run_events::Turn;
use run_jobs::Jobs;
use run_output::Fault;
use run_wave_line::wave_line;
use std::alloc::Global;

// The line that no wave is due.
fn none_due_line(alloc: Global) -> Mem<Text>
    ensures { IfOk result (λ text. text ≡ none_due_text) }
{
    object_line(alloc, &[("due", Leaf::Number(0))])
}

// A line with its status, unless memory was wanting for it.
fn found(line: Mem<Text>, status: u8) -> Result<(Text, u8), JobsFault>
    ensures ok { IfOk result (λ f. (line ≡ Ok f.0) × (f.1 ≡ status)) }
    ensures err { IfErr result (λ fault. fault ≡ Plain Memory) }
{
    match line {
        Ok(line) => Ok((line, status)),
        Err(_) => Err(JobsFault::Plain(Fault::Memory)),
    }
}

// The line of the wave that is due after those that lists of turns carry out, with the status of that.
fn find_next(alloc: Global, jobs: &Jobs, lists: &[List<Turn>]) -> Result<(Text, u8), JobsFault>
    requires { All (λ list. length list < 2 ^ 32) lists.now }
    ensures { FindsNext jobs.now lists.now result }
{
    match jobs.next_plan(alloc, lists) {
        Ok(Some((_, plan))) => found(wave_line(alloc, jobs.threads(), &plan), 0),
        Ok(None) => found(none_due_line(alloc), 4),
        Err(error) => Err(waves_fault(error)),
    }
}

// Writes a line, and ends with its status.
fn end_at_line<K: Sink>(alloc: Global, sink: K, line: Text, status: u8) -> Ran<K>
    ensures { EndsAtLine (writing_of K.Sink sink result.sink) line status result.status }
{
    let mut sink = sink;
    match write_line(alloc, &mut sink, line) {
        Ok(()) => Ran { status, sink },
        Err(WriteError::Failed) => Ran { status: 9, sink },
        Err(WriteError::OutOfMemory) => {
            let Ended { ending: _, sink } = end_without_memory(sink);
            Ran { status: 11, sink }
        }
    }
}

// Writes what was found.
fn end_at_next<K: Sink>(alloc: Global, sink: K, next: Result<(Text, u8), JobsFault>) -> Ran<K>
    ensures { EndsAtNext (writing_of K.Sink sink result.sink) result.status next }
{
    match next {
        Ok((line, status)) => end_at_line(alloc, sink, line, status),
        Err(fault) => end_at(alloc, sink, fault),
    }
}

/// Reads a line of jobs, and the turns of waves that ran, as `run` does, and writes the plan line of the wave that is
/// due next: status 0. Where none is due, `{"due":0}` is written: status 4.
///
/// The other statuses are those of `run` before its waves, and of the first wave that its turns don't end; 9 says that
/// the sink failed.
pub fn next_wave<S: Source, K: Sink>(alloc: Global, source: &mut S, sink: K) -> Ran<K>
    ensures says { AnswersNextWave (reading_of S.Source source.old source.new)
        (writing_of K.Sink sink result.sink) result.status }
    ensures causes { GetsNextWave (reading_of S.Source source.old source.new)
        (writing_of K.Sink sink result.sink) result.status }
{
    match given_jobs(alloc, source) {
        Ok((jobs, lists)) => {
            let next = find_next(alloc, &jobs, lists.as_slice());
            end_at_next(alloc, sink, next)
        }
        Err(fault) => end_at(alloc, sink, fault),
    }
}
