// What is wrong with jobs.
ghost use Rattle.std.specs.Prelude.{◌≡◌, ◌<◌, ◌^◌, [], length, IfOk};
ghost use Rattle.run_jobs.specs.declared.job.Job.{Job};
ghost use Rattle.run_jobs.specs.Jobs.{fault_here, first_fault, first_not_below};

use crate::job::{Job, JobsError};
use run_capture::Mem;
use std::alloc::Global;
use std::collections::HashSet;

// The first of these numbers that isn't below a number.
fn first_not_below(number: u32, after: &[u32]) -> Option<u32>
    ensures { result ≡ first_not_below number after.now }
{
    for a in after {
        if *a >= number {
            return Some(*a);
        }
    }
    None
}

// What is wrong with the job of this number, which has the name of an earlier one or not.
fn fault_here(job: u32, repeats: bool, after: &[u32]) -> Option<JobsError>
    ensures { result ≡ fault_here job repeats after.now }
{
    if repeats {
        return Some(JobsError::DuplicateName { job });
    }
    match first_not_below(job, after) {
        Some(after) => Some(JobsError::BadAfter { job, after }),
        None => None,
    }
}

/// What is wrong with the first job with which something is.
pub fn first_fault(alloc: Global, jobs: &[Job]) -> Mem<Option<JobsError>>
    requires { length jobs.now < 2 ^ 32 }
    ensures { IfOk result (λ fault. fault ≡ first_fault [] jobs.now) }
{
    let mut names = HashSet::with_capacity(alloc, jobs.len())?;
    for (place, job) in jobs.iter().enumerate() {
        let fresh = names.insert(&job.name)?;
        let fault = fault_here(place as u32, !fresh, job.after.as_slice());
        if fault.is_some() {
            return Ok(fault);
        }
    }
    Ok(None)
}
