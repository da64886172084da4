// The top call: all that the program does.
ghost use Rattle.std.specs.Prelude.{◌≡◌, ◌≤◌, ◌<◌, ◌^◌, [], length, map, IfOk, IfErr, string_bytes};
ghost use Rattle.std.specs.List.{All};
ghost use Rattle.run_input.specs.Lines.{lines_of};
ghost use Rattle.run_output.specs.declared.fault.Fault.TheVariants.{Words};
ghost use Rattle.run_cli.specs.Call.{reading_of, writing_of};
ghost use Rattle.run_jobs_cli.specs.declared.fault.JobsFault.TheVariants.{Plain};
ghost use Rattle.run_jobs_cli.specs.JobsCauses.{GetsJobs, IsJobsWord};
ghost use Rattle.run_jobs_cli.specs.JobsEnds.{EndsAtJobsFault};
ghost use Rattle.run_jobs_cli.specs.JobsGiven.{AnswersJobs, AreGoodJobs, GivesLines, IsJobsFault, IsLinesFault};
ghost use Rattle.run_jobs_cli.specs.JobsGiven.{input_fault, refusal_fault};

use crate::ends::end_at;
use crate::fault::JobsFault;
use crate::jobs_line::JobsLine;
use crate::runs::run_lists;
use crate::wave_lines::read_jobs_input;
use run_capture::{List, Sink, Source};
use run_cli::{Ran, is_word, read_bytes};
use run_events::Turn;
use run_input::InputError;
use run_jobs::{Jobs, JobsError};
use run_output::Fault;
use std::alloc::Global;

// The fault that a refusal of jobs is.
fn refusal_fault(error: JobsError) -> JobsFault
    ensures { result ≡ refusal_fault error }
{
    match error {
        JobsError::ZeroThreads => JobsFault::ZeroThreads,
        JobsError::DuplicateName { job } => JobsFault::DuplicateName { job },
        JobsError::BadAfter { job, .. } => JobsFault::BadAfter { job },
        JobsError::OutOfMemory => JobsFault::Plain(Fault::Memory),
    }
}

// The fault that an error of reading lines is.
fn line_fault(error: InputError) -> JobsFault
    ensures { result ≡ input_fault error }
{
    match error {
        InputError::Line { line } => JobsFault::Plain(Fault::Line { line }),
        InputError::OutOfMemory => JobsFault::Plain(Fault::Memory),
    }
}

// The jobs and the lists of turns that bytes say, or why there are none.
fn jobs_in(alloc: Global, bytes: &[u8]) -> Result<(Jobs, List<List<Turn>>), JobsFault>
    ensures ok { IfOk result (λ said. AreGoodJobs (lines_of bytes.now) said.0 said.1) }
    ensures small { IfOk result (λ said. All (λ list. length list ≤ length bytes.now) said.1) }
    ensures refused { IfErr result (IsLinesFault (lines_of bytes.now)) }
{
    let (line, lists) = match read_jobs_input(alloc, bytes) {
        Ok(said) => said,
        Err(error) => return Err(line_fault(error)),
    };
    let JobsLine {
        run_id,
        threads,
        jobs,
    } = line;
    match Jobs::new(alloc, run_id, threads, jobs) {
        Ok(jobs) => Ok((jobs, lists)),
        Err(error) => Err(refusal_fault(error)),
    }
}

/// The jobs and the lists of turns that a source gives, or why there are none.
pub fn given_jobs<S: Source>(
    alloc: Global,
    source: &mut S,
) -> Result<(Jobs, List<List<Turn>>), JobsFault>
    ensures ok { IfOk result (λ said. GivesLines (reading_of S.Source source.old source.new)
        (λ lines. AreGoodJobs lines said.0 said.1)) }
    ensures few { IfOk result (λ said. All (λ list. length list < 2 ^ 32) said.1) }
    ensures refused { IfErr result (IsJobsFault (reading_of S.Source source.old source.new)) }
{
    match read_bytes(alloc, source) {
        Ok(bytes) => jobs_in(alloc, bytes.as_slice()),
        Err(fault) => Err(JobsFault::Plain(fault)),
    }
}

// Runs the jobs that a source gives.
fn run_given<S: Source, K: Sink>(alloc: Global, source: &mut S, sink: K) -> Ran<K>
    ensures says { AnswersJobs (reading_of S.Source source.old source.new)
        (writing_of K.Sink sink result.sink) result.status }
    ensures causes { GetsJobs (reading_of S.Source source.old source.new)
        (writing_of K.Sink sink result.sink) result.status }
{
    match given_jobs(alloc, source) {
        Ok((jobs, lists)) => run_lists(alloc, &jobs, lists.as_slice(), sink),
        Err(fault) => end_at(alloc, sink, fault),
    }
}

/// Does all that the program does: `run` reads a line of jobs and lists of turns, runs the waves that are due, each by
/// the list that is its own, and writes the lines of their events as they are told, and then the line of each job's
/// state.
///
/// Status 0: all jobs passed; 4: there are none; 100: else. Before the first wave, 10: the source could not be read;
/// 12: it is too long; 3: a line is bad; 5: the jobs are refused. Of a wave, 6 and 7: a turn may not come; 8: its run
/// isn't over, or it has no list; 14: more lists were given than waves were due. 9: the sink failed. 11: memory was
/// wanting. Other words have status 2, and then nothing is read.
pub fn run<S: Source, K: Sink>(alloc: Global, words: &[String], source: &mut S, sink: K) -> Ran<K>
    ensures says { IsJobsWord (map (λ w. string_bytes w) words.now)
        → AnswersJobs (reading_of S.Source source.old source.new)
        (writing_of K.Sink sink result.sink) result.status }
    ensures causes { IsJobsWord (map (λ w. string_bytes w) words.now)
        → GetsJobs (reading_of S.Source source.old source.new)
        (writing_of K.Sink sink result.sink) result.status }
    ensures words { ¬ IsJobsWord (map (λ w. string_bytes w) words.now)
        → EndsAtJobsFault (writing_of K.Sink sink result.sink) [] (Plain Words) result.status
        × (source.new ≡ source.old) }
{
    if is_word(words, "run") {
        run_given(alloc, source, sink)
    } else {
        end_at(alloc, sink, JobsFault::Plain(Fault::Words))
    }
}
