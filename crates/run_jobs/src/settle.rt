// Sets the states of the jobs of a level.
ghost use Rattle.std.specs.Prelude.{ℕ, ◌≡◌, ◌+◌, ◌-◌, ◌<◌, ◌^◌, List, [], length, is_none, if◌then◌else◌};
ghost use Rattle.std.specs.List.{All};
ghost use Rattle.run_jobs.specs.Jobs.{after_of};
ghost use Rattle.run_jobs.specs.Levels.{AreOrdered, at_level, levels_of};
ghost use Rattle.run_jobs.specs.Settled.{AreKnown, GivesResults, ready_kept, state_kept_with};
ghost use Rattle.run_jobs.specs.States.{Wave, first_unpassed};

use crate::job::{Job, JobState};
use crate::ledger::Results;
use crate::ready::first_unpassed;

// The state of a ready job, by the results of its wave, where that ran, and its number there.
fn ready_state(results: &Option<Results>, unit: u32) -> JobState
    ensures { result ≡ ready_kept results.now unit }
{
    match results {
        Some(results) => results.state_of(unit),
        None => JobState::Cancelled,
    }
}

// The state of a job, by the first that it waits for that didn't pass, and the number of the next ready job.
fn next_state(results: &Option<Results>, unpassed: Option<u32>, unit: u32) -> (JobState, u32)
    requires { unit < 2 ^ 32 - 1 }
    ensures state { result.0 ≡ state_kept_with unpassed results.now unit }
    ensures unit { result.1 ≡ (if is_none unpassed then unit + 1 else unit) }
{
    match unpassed {
        Some(by) => (JobState::Blocked { by }, unit),
        None => (ready_state(results, unit), unit + 1),
    }
}

/// Sets the state of each job of a level, by the results of its wave, where that ran.
pub fn settle(
    jobs: &[Job],
    level: &[u32],
    results: &Option<Results>,
    states: &mut [Option<JobState>],
)
    requires jobs { All (λ k. k < length jobs.now) level.now }
    requires states { length states.old ≡ length jobs.now }
    requires few { length level.now < 2 ^ 32 }
    ensures { (w : ℕ) (waves : List Wave) → AreOrdered jobs.now → level.now ≡ at_level w 0 (levels_of jobs.now)
        → GivesResults results.now waves w
        → AreKnown jobs.now waves states.old w → AreKnown jobs.now waves states.new (w + 1) }
{
    let mut unit = 0;
    for number in level {
        let unpassed = first_unpassed(states, jobs[*number as usize].after.as_slice());
        let (state, next) = next_state(results, unpassed, unit);
        states[*number as usize] = Some(state);
        unit = next;
    }
}
