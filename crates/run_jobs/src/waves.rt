// Runs jobs wave by wave.
ghost use Rattle.std.specs.Prelude.{◌≡◌, ◌≤◌, ◌<◌, ◌+◌, ◌^◌, ◌⊎◌, List, map, length, Some, None, Result, IfOk};
ghost use Rattle.std.specs.Prelude.{IsSome, true};
ghost use Rattle.std.specs.List.{All};
ghost use Rattle.run_capture.specs.Faults.{Rose};
ghost use Rattle.run_engine.specs.World.{outside};
ghost use Rattle.run_jobs.specs.Jobs.{jobs_fault};
ghost use Rattle.run_jobs.specs.Next.{AnswersDue, FinishesWaves};
ghost use Rattle.run_jobs.specs.Settled.{AreKnown};
ghost use Rattle.run_jobs.specs.States.{Wave};
ghost use Rattle.run_jobs.specs.Waves.{AnswersWaves, ComesTo, wants_memory};

use crate::job::JobState;
use crate::jobs::Jobs;
use crate::settle::settle;
use crate::wave::run_next;
use crate::waves_error::WavesError;
use run_capture::{List, Mem};
use run_events::{Children, Reporter, Turn};
use std::alloc::Global;

/// States of which none is known.
pub fn unknown(alloc: Global, count: usize) -> Mem<Vec<Option<JobState>>>
    ensures { IfOk result (λ states. length states.items ≡ count) }
{
    let mut states = Vec::with_capacity(alloc, count)?;
    'states: while states.len() < count {
        states.push(None)?;
    }
    Ok(states)
}

// States of which each is known.
fn known(alloc: Global, states: &[Option<JobState>]) -> Mem<List<JobState>>
    requires { All IsSome states.now }
    ensures { IfOk result (λ known. map Some known ≡ states.now) }
{
    let mut known = List::with_capacity(alloc, states.len())?;
    for state in states {
        match state {
            Some(state) => known.push(alloc, *state)?,
            None => unreachable!(),
        }
    }
    Ok(known)
}

/// Runs the waves that are due, and answers how many they were.
pub fn run_due<C: Children, R: Reporter>(
    alloc: Global,
    jobs: &Jobs,
    turns: &[List<Turn>],
    states: &mut [Option<JobState>],
    children: &mut C,
    report: &mut R,
) -> Result<u32, WavesError<R::Error>>
    requires turns { All (λ list. length list < 2 ^ 32) turns.now }
    requires states { length states.old ≡ length jobs.now.jobs }
    ensures says { AnswersDue R.told C.asked (outside R.faults report.old report.new children.old children.new)
        jobs.now turns.now states.new result }
    ensures same { length states.new ≡ length states.old }
{
    let count = jobs.list().len() as u32;
    for wave in 0..count {
        match run_next(alloc, jobs, wave, states, turns, children, report) {
            Ok(Some((cancelled, results))) => {
                settle(jobs.list(), jobs.at_level(wave), &Some(results), states);
                if cancelled {
                    return Ok(wave + 1);
                }
            }
            Ok(None) => return Ok(wave),
            Err(error) => return Err(error),
        }
    }
    Ok(count)
}

// Sets the states of the jobs of the levels from this one on, whose waves weren't due.
fn settle_rest(jobs: &Jobs, from: u32, states: &mut [Option<JobState>])
    requires { length states.old ≡ length jobs.now.jobs }
    ensures known { (waves : List Wave) → length waves ≡ from → AreKnown jobs.now.jobs waves states.old from
        → AreKnown jobs.now.jobs waves states.new (length jobs.now.jobs) }
    ensures same { length states.new ≡ length states.old }
    ensures sound { jobs_fault jobs.now.threads jobs.now.jobs ≡ None }
{
    let count = jobs.list().len() as u32;
    for level in from..count {
        settle(jobs.list(), jobs.at_level(level), &None, states);
    }
}

// The states of jobs of which so many waves were due and ran, where no more lists of turns were given.
fn finish<E>(
    alloc: Global,
    jobs: &Jobs,
    given: usize,
    due: u32,
    states: &mut [Option<JobState>],
) -> Result<List<JobState>, WavesError<E>>
    requires states { length states.old ≡ length jobs.now.jobs }
    requires ran { (waves : List Wave) × (length waves ≡ due) × AreKnown jobs.now.jobs waves states.old due }
    ensures { (waves : List Wave) → length waves ≡ due → AreKnown jobs.now.jobs waves states.old due
        → FinishesWaves jobs.now waves given result }
{
    if given > due as usize {
        return Err(WavesError::Extra {
            given: given as u64,
            due: due as u64,
        });
    }
    settle_rest(jobs, due, states);
    match known(alloc, states) {
        Ok(known) => Ok(known),
        Err(_) => Err(WavesError::OutOfMemory),
    }
}

// Runs all waves that are due, with states of which none need be known.
fn run_with<C: Children, R: Reporter>(
    alloc: Global,
    jobs: &Jobs,
    turns: &[List<Turn>],
    states: &mut [Option<JobState>],
    children: &mut C,
    report: &mut R,
) -> Result<List<JobState>, WavesError<R::Error>>
    requires turns { All (λ list. length list < 2 ^ 32) turns.now }
    requires states { length states.old ≡ length jobs.now.jobs }
    ensures { AnswersWaves R.told C.asked (outside R.faults report.old report.new children.old children.new)
        jobs.now turns.now result }
{
    match run_due(alloc, jobs, turns, states, children, report) {
        Ok(due) => finish(alloc, jobs, turns.len(), due, states),
        Err(error) => Err(error),
    }
}

// Runs all waves that are due.
fn run_all<C: Children, R: Reporter>(
    alloc: Global,
    jobs: &Jobs,
    turns: &[List<Turn>],
    children: &mut C,
    report: &mut R,
) -> Result<List<JobState>, WavesError<R::Error>>
    requires { All (λ list. length list < 2 ^ 32) turns.now }
    ensures { AnswersWaves R.told C.asked (outside R.faults report.old report.new children.old children.new)
        jobs.now turns.now result }
{
    match unknown(alloc, jobs.list().len()) {
        Ok(mut states) => run_with(alloc, jobs, turns, &mut states, children, report),
        Err(_) => Err(WavesError::OutOfMemory),
    }
}

impl Jobs {
    /// Runs the waves that are due, each by the list of turns that is its own, fewer than 2^32, and answers the state
    /// of each job. Waves go by level, and the next one is due where a job of its level is ready and none before it
    /// ended cancelled.
    ///
    /// `Wave` is the answer to the turns of the first wave whose run they don't end, or of which an event was refused;
    /// `Missing` names a wave that is due and has no list; `Extra` says that all waves that were due ran, and more
    /// lists were given. After an error no later wave is run. The reporter and the children of the caller hear each
    /// wave once. Each list is then carried out once more, with no children, for the results: a run takes twice its
    /// time.
    pub fn run_waves<C: Children, R: Reporter>(
        &self,
        alloc: Global,
        turns: &[List<Turn>],
        children: &mut C,
        report: &mut R,
    ) -> Result<List<JobState>, WavesError<R::Error>>
        requires { All (λ list. length list < 2 ^ 32) turns.now }
        ensures says { AnswersWaves R.told C.asked
            (outside R.faults report.old report.new children.old children.new) self.now turns.now result }
        ensures comes { ¬ Rose (R.faults report.old) (R.faults report.new)
            → (answer : Result (List JobState) (WavesError R.Error)) → ComesTo self.now turns.now answer
            → (result ≡ answer) ⊎ (wants_memory result ≡ true) }
    {
        run_all(alloc, self, turns, children, report)
    }
}
