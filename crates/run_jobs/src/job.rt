// Jobs, and what is said of them.
use run_capture::{List, OutOfMemory, Text};
use thiserror::Error;

/// A job. Jobs are numbered from 0, in the order of their list.
#[derive(Debug, Drop)]
pub struct Job {
    pub name: Text,
    /// The program and its arguments.
    pub command: List<Text>,
    /// The jobs that it waits for, each of a lower number.
    pub after: List<u32>,
}

/// What came of a job.
#[derive(Clone, Copy, Debug, Drop, PartialEq, Eq)]
pub enum JobState {
    /// Its last result was a success.
    Passed,
    /// Its last result was none.
    Failed,
    /// It was ready, and has no result: an earlier wave was cancelled, or its own wave never started it or left it.
    Cancelled,
    /// It was not ready: this is the first of those that it waits for that didn't pass.
    Blocked { by: u32 },
}

/// Why jobs are refused: the first rule that they break, the threads before the jobs, a name before a list.
#[derive(Clone, Copy, Debug, Drop, PartialEq, Eq, Error)]
pub enum JobsError {
    #[error("the number of threads is 0")]
    ZeroThreads,
    /// An earlier job has the name of this one.
    #[error("job {job} has the name of an earlier one")]
    DuplicateName { job: u32 },
    /// The job waits for this number, which isn't below its own.
    #[error("job {job} waits for {after}, which is no earlier job")]
    BadAfter { job: u32, after: u32 },
    #[error("out of memory")]
    OutOfMemory,
}

impl From<OutOfMemory> for JobsError {
    ghost use Rattle.std.specs.Prelude.{◌≡◌};
    ghost use Rattle.run_jobs.specs.declared.job.JobsError.TheVariants as errors;

    ghost from_gives = { λ _ e. e ≡ errors.OutOfMemory };

    fn from(_: OutOfMemory) -> Self {
        JobsError::OutOfMemory
    }
}
