// Which jobs are ready.
ghost use Rattle.std.specs.Prelude.{◌≡◌};
ghost use Rattle.run_jobs.specs.declared.job.Job.{Job};
ghost use Rattle.run_jobs.specs.States.{first_unpassed, job_passed};

use crate::job::JobState;

// Whether a job passed, by the states that are known.
fn has_passed(states: &[Option<JobState>], job: u32) -> bool
    ensures { result ≡ job_passed states.now job }
{
    matches!(states.get(job as usize), Some(Some(JobState::Passed)))
}

/// The first of these jobs that didn't pass, by the states that are known.
pub fn first_unpassed(states: &[Option<JobState>], after: &[u32]) -> Option<u32>
    ensures { result ≡ first_unpassed states.now after.now }
{
    for job in after {
        if !has_passed(states, *job) {
            return Some(*job);
        }
    }
    None
}
