// Runs jobs, and writes what their waves tell.
ghost use Rattle.std.specs.Prelude.{◌≡◌, ◌<◌, ◌^◌, List, length, Result};
ghost use Rattle.std.specs.List.{All};
ghost use Rattle.run_capture.specs.declared.source.Failed.{Failed};
ghost use Rattle.run_jobs.specs.declared.job.JobState.{JobState};
ghost use Rattle.run_jobs.specs.declared.waves_error.WavesError.{WavesError};
ghost use Rattle.run_jobs.specs.Waves.{ComesTo};
ghost use Rattle.run_cli.specs.Call.{writing_of, HasWriteFault};
ghost use Rattle.run_cli.specs.Cause.{Gets};
ghost use Rattle.run_jobs_cli.specs.RunsJobs.{FinishesJobs, RunsJobs, wave_fault, waves_fault, waves_status};

use crate::ends::{end_at, end_at_states};
use crate::fault::JobsFault;
use run_capture::{Failed, List, Mem, Sink};
use run_cli::{Origin, Ran, TiedReporter};
use run_engine::TestRunnerExecuteErrors;
use run_events::{Ask, Children, Turn};
use run_jobs::{JobState, Jobs, WavesError};
use run_output::Fault;
use std::alloc::Global;
use std::marker::Brand;

// Children that keep nothing: no asks are written.
#[derive(Drop)]
struct Unasked;

impl Children for Unasked {
    ghost use Rattle.std.specs.Prelude.{⊤};

    ghost asked = { λ _ _. ⊤ };

    fn ask(&mut self, _alloc: Global, _turn: u64, _ask: &Ask) -> Mem<()> {
        Ok(())
    }
}

// The fault that an error of the turns of a wave is.
fn wave_fault<E: Drop>(wave: u32, error: TestRunnerExecuteErrors<E>) -> JobsFault
    ensures { result ≡ wave_fault wave error }
{
    match error {
        TestRunnerExecuteErrors::NotEnabled { turn } => JobsFault::NotEnabled { turn, wave },
        TestRunnerExecuteErrors::ThirdSignal { turn } => JobsFault::ThirdSignal { turn, wave },
        TestRunnerExecuteErrors::Unfinished => JobsFault::Unfinished { wave },
        TestRunnerExecuteErrors::Report(_) => JobsFault::Plain(Fault::Report),
        TestRunnerExecuteErrors::OutOfMemory => JobsFault::Plain(Fault::Memory),
    }
}

/// The fault that an error of waves is.
pub fn waves_fault<E: Drop>(error: WavesError<E>) -> JobsFault
    ensures { result ≡ waves_fault error }
{
    match error {
        WavesError::Wave { wave, error } => wave_fault(wave, error),
        WavesError::Missing { wave } => JobsFault::Unfinished { wave },
        WavesError::Extra { given, due } => JobsFault::Extra { due, given },
        WavesError::OutOfMemory => JobsFault::Plain(Fault::Memory),
    }
}

// Writes what is left to write by the answer to jobs and lists.
fn finish<K: Sink>(
    alloc: Global,
    sink: K,
    jobs: &Jobs,
    answer: Result<List<JobState>, WavesError<Failed>>,
) -> Ran<K>
    ensures { FinishesJobs (writing_of K.Sink sink result.sink) jobs.now.jobs result.status answer }
{
    match answer {
        Ok(states) => end_at_states(alloc, sink, jobs.list(), states.as_slice()),
        Err(error) => {
            let fault = waves_fault(error);
            end_at(alloc, sink, fault)
        }
    }
}

// Runs jobs, with the sink's state at the beginning as the type's.
fn run_at<K: Sink, O: Origin>(alloc: Global, jobs: &Jobs, turns: &[List<Turn>], sink: K) -> Ran<K>
    requires taken { O.taken_before ≡ K.taken sink }
    requires faults { O.faults_before ≡ K.faults sink }
    requires few { All (λ list. length list < 2 ^ 32) turns.now }
    ensures says { RunsJobs jobs.now turns.now (writing_of K.Sink sink result.sink) result.status }
    ensures comes { ¬ HasWriteFault (writing_of K.Sink sink result.sink)
        → (answer : Result (List JobState) (WavesError Failed)) → ComesTo jobs.now turns.now answer
        → Gets result.status (waves_status answer) }
{
    let mut reporter = TiedReporter::<K, O>::new(sink);
    let mut children = Unasked;
    let answer = jobs.run_waves(alloc, turns, &mut children, &mut reporter);
    let sink = reporter.into_sink();
    finish(alloc, sink, jobs, answer)
}

/// Runs jobs by these lists of turns, and writes the lines of the events as they are told, and then of the states.
pub fn run_lists<K: Sink>(alloc: Global, jobs: &Jobs, turns: &[List<Turn>], sink: K) -> Ran<K>
    requires { All (λ list. length list < 2 ^ 32) turns.now }
    ensures says { RunsJobs jobs.now turns.now (writing_of K.Sink sink result.sink) result.status }
    ensures comes { ¬ HasWriteFault (writing_of K.Sink sink result.sink)
        → (answer : Result (List JobState) (WavesError Failed)) → ComesTo jobs.now turns.now answer
        → Gets result.status (waves_status answer) }
{
    run_at::<K, Brand>(alloc, jobs, turns, sink)
}
