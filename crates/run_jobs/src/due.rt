// The wave that is due next.
ghost use Rattle.std.specs.Prelude.{◌≡◌, ◌<◌, ◌^◌, length, IfOk, IfSome, None};
ghost use Rattle.std.specs.List.{All};
ghost use Rattle.run_jobs.specs.Due.{IsPlanAt, IsPlanTaken, PlansNext, PlansNone, RunsAgain};
ghost use Rattle.run_jobs.specs.Jobs.{jobs_fault};

use crate::idle::Deaf;
use crate::job::JobState;
use crate::jobs::Jobs;
use crate::ledger::Results;
use crate::waves::{run_due, unknown};
use crate::waves_error::WavesError;
use run_capture::List;
use run_engine::TestRunnerBuilder;
use run_events::{Plan, Turn};
use std::alloc::Global;
use std::convert::Infallible;

/// The runner's settings and the plan of a wave, where one is due.
pub type NextPlan = Result<Option<(TestRunnerBuilder, Plan)>, WavesError<Infallible>>;

// How many waves were due and ran, or why they didn't, with a reporter and children that do nothing.
fn run_again(
    alloc: Global,
    jobs: &Jobs,
    turns: &[List<Turn>],
    states: &mut [Option<JobState>],
) -> Result<u32, WavesError<Infallible>>
    requires turns { All (λ list. length list < 2 ^ 32) turns.now }
    requires states { length states.old ≡ length jobs.now.jobs }
    ensures { RunsAgain jobs.now turns.now states.new result }
{
    let mut results = Results::new(alloc);
    run_due(alloc, jobs, turns, states, &mut Deaf, &mut results)
}

// The plan of this wave, by the states that are known.
fn plan_at(alloc: Global, jobs: &Jobs, wave: u32, states: &[Option<JobState>]) -> NextPlan
    ensures plan { IsPlanAt jobs.now states.now wave result }
    ensures runnable { IfOk result (λ next. IfSome next IsPlanTaken) }
    ensures sound { jobs_fault jobs.now.threads jobs.now.jobs ≡ None }
{
    let all = jobs.list();
    let _few = all.len();
    match jobs.wave_plan(alloc, wave, states) {
        Ok(Some((builder, plan))) => Ok(Some((builder, plan))),
        Ok(None) => Ok(None),
        Err(_) => Err(WavesError::OutOfMemory),
    }
}

// No plan, where all waves that were due have run, unless more lists of turns were given.
fn none_due(given: usize, due: u32) -> NextPlan
    ensures { PlansNone given due result }
{
    if given > due as usize {
        return Err(WavesError::Extra {
            given: given as u64,
            due: due as u64,
        });
    }
    Ok(None)
}

// The plan of the wave that is due next, with states of which none need be known.
fn plan_next(
    alloc: Global,
    jobs: &Jobs,
    turns: &[List<Turn>],
    states: &mut [Option<JobState>],
) -> NextPlan
    requires turns { All (λ list. length list < 2 ^ 32) turns.now }
    requires states { length states.old ≡ length jobs.now.jobs }
    ensures plans { PlansNext jobs.now turns.now result }
    ensures runnable { IfOk result (λ next. IfSome next IsPlanTaken) }
{
    match run_again(alloc, jobs, turns, states) {
        Ok(due) => none_due(turns.len(), due),
        Err(WavesError::Missing { wave }) => plan_at(alloc, jobs, wave, states),
        Err(WavesError::Wave { wave, error }) => Err(WavesError::Wave { wave, error }),
        Err(WavesError::Extra { given, due }) => Err(WavesError::Extra { given, due }),
        Err(WavesError::OutOfMemory) => Err(WavesError::OutOfMemory),
    }
}

impl Jobs {
    /// The runner's settings and the plan of the wave that is due after those that these lists of turns carry out, one
    /// list for each, fewer than 2^32 turns each: none where none is due any more. The plan is one that a builder
    /// accepts. The errors are those of `run_waves`, but that a due wave without a list is what is asked for. Each list
    /// is carried out twice, and its results alone are kept.
    pub fn next_plan(&self, alloc: Global, turns: &[List<Turn>]) -> NextPlan
        requires { All (λ list. length list < 2 ^ 32) turns.now }
        ensures plans { PlansNext self.now turns.now result }
        ensures runnable { IfOk result (λ next. IfSome next IsPlanTaken) }
    {
        match unknown(alloc, self.list().len()) {
            Ok(mut states) => plan_next(alloc, self, turns, &mut states),
            Err(_) => Err(WavesError::OutOfMemory),
        }
    }
}
