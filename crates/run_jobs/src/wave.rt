// Runs one wave.
ghost use Rattle.std.specs.Prelude.{◌≡◌, ◌<◌, ◌+◌, ◌^◌, length, slice_get, None, option_map, IfOk};
ghost use Rattle.std.specs.List.{All};
ghost use Rattle.run_engine.specs.Builder.{refusal_of, settings_of};
ghost use Rattle.run_engine.specs.World.{outside};
ghost use Rattle.run_jobs.specs.Heard.{HasResults};
ghost use Rattle.run_jobs.specs.Next.{AnswersList, AnswersNext, settings_where};
ghost use Rattle.run_jobs.specs.States.{ready_jobs};
ghost use Rattle.run_jobs.specs.WavePlan.{wave_settings};
ghost use Rattle.run_jobs.specs.Waves.{ended_cancelled};

use crate::hear::results_of;
use crate::job::JobState;
use crate::jobs::Jobs;
use crate::ledger::Results;
use crate::waves_error::WavesError;
use run_capture::{List, Mem, OutOfMemory};
use run_engine::{TestRunner, TestRunnerBuilder};
use run_events::{Children, Plan, Reporter, RunOutcome, Turn};
use std::alloc::Global;

// The runner of a plan that isn't refused.
fn built(alloc: Global, builder: TestRunnerBuilder, plan: Plan) -> Mem<TestRunner>
    requires units { length plan.scripts + length plan.tests < 2 ^ 32 }
    requires accepted { refusal_of builder plan ≡ None }
    ensures { IfOk result (λ runner. runner ≡ settings_of builder plan) }
{
    match builder.build(alloc, plan) {
        Ok(runner) => Ok(runner),
        Err(_) => Err(OutOfMemory),
    }
}

// The runner of a wave, where it has a job.
fn wave_runner(
    alloc: Global,
    jobs: &Jobs,
    wave: u32,
    states: &[Option<JobState>],
) -> Mem<Option<TestRunner>>
    ensures { IfOk result (λ runner. runner
        ≡ settings_where jobs.now (ready_jobs jobs.now.jobs states.now wave)) }
{
    let all = jobs.list();
    let _few = all.len();
    match jobs.wave_plan(alloc, wave, states) {
        Ok(Some((builder, plan))) => match built(alloc, builder, plan) {
            Ok(runner) => Ok(Some(runner)),
            Err(error) => Err(error),
        },
        Ok(None) => Ok(None),
        Err(error) => Err(error),
    }
}

// Whether a run ended cancelled.
fn ended_cancelled(outcome: RunOutcome) -> bool
    ensures { result ≡ ended_cancelled outcome }
{
    matches!(outcome, RunOutcome::Cancelled { .. })
}

// The results of a wave that ran to its end.
fn hear_wave(
    alloc: Global,
    jobs: &Jobs,
    wave: u32,
    states: &[Option<JobState>],
    turns: &[Turn],
) -> Mem<Results>
    requires { length turns.now < 2 ^ 32 }
    ensures { IfOk result (HasResults
        (wave_settings jobs.now (ready_jobs jobs.now.jobs states.now wave)) turns.now) }
{
    match wave_runner(alloc, jobs, wave, states) {
        Ok(Some(runner)) => results_of(alloc, runner, turns),
        Ok(None) | Err(_) => Err(OutOfMemory),
    }
}

// Runs a wave by its runner and its turns.
fn run_list<C: Children, R: Reporter>(
    alloc: Global,
    jobs: &Jobs,
    wave: u32,
    states: &[Option<JobState>],
    runner: TestRunner,
    turns: &[Turn],
    children: &mut C,
    report: &mut R,
) -> Result<(bool, Results), WavesError<R::Error>>
    requires turns { length turns.now < 2 ^ 32 }
    requires runner { runner ≡ wave_settings jobs.now (ready_jobs jobs.now.jobs states.now wave) }
    ensures { AnswersList R.told C.asked (outside R.faults report.old report.new children.old children.new)
        runner turns.now wave result }
{
    match runner.try_execute(alloc, turns, children, report) {
        Ok(outcome) => match hear_wave(alloc, jobs, wave, states, turns) {
            Ok(results) => Ok((ended_cancelled(outcome), results)),
            Err(_) => Err(WavesError::OutOfMemory),
        },
        Err(error) => Err(WavesError::Wave { wave, error }),
    }
}

// The list of turns that is that of a wave.
fn list_of(turns: &[List<Turn>], wave: u32) -> Option<&[Turn]>
    ensures { option_map (λ list. list.now) result ≡ slice_get turns.now wave }
{
    match turns.get(wave as usize) {
        Some(list) => Some(list.as_slice()),
        None => None,
    }
}

/// Runs the wave of this level, where it has a ready job, by the list of turns that is its own: whether it ended
/// cancelled, and its results. Its turns are taken twice, the second time for the results.
pub fn run_next<C: Children, R: Reporter>(
    alloc: Global,
    jobs: &Jobs,
    wave: u32,
    states: &[Option<JobState>],
    turns: &[List<Turn>],
    children: &mut C,
    report: &mut R,
) -> Result<Option<(bool, Results)>, WavesError<R::Error>>
    requires { All (λ list. length list < 2 ^ 32) turns.now }
    ensures { AnswersNext R.told C.asked (outside R.faults report.old report.new children.old children.new)
        jobs.now (ready_jobs jobs.now.jobs states.now wave) turns.now wave result }
{
    match wave_runner(alloc, jobs, wave, states) {
        Ok(Some(runner)) => match list_of(turns, wave) {
            Some(list) => {
                match run_list(alloc, jobs, wave, states, runner, list, children, report) {
                    Ok(ran) => Ok(Some(ran)),
                    Err(error) => Err(error),
                }
            }
            None => {
                drop(runner);
                Err(WavesError::Missing { wave })
            }
        },
        Ok(None) => Ok(None),
        Err(_) => Err(WavesError::OutOfMemory),
    }
}
