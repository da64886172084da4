// Jobs that were looked at.
ghost use Rattle.std.specs.Prelude.{◌≡◌, ◌<◌, ◌^◌, [], length, IfOk, None};
ghost use Rattle.run_jobs.specs.Jobs.{IsBatch, first_fault, jobs_fault};
ghost use Rattle.run_jobs.specs.Levels.{at_level, job_level, levels_of};
ghost use Rattle.run_jobs.specs.WavePlan.{wave_of};

use crate::faults::first_fault;
use crate::job::{Job, JobState, JobsError};
use crate::levels::{levels_of, waves_of};
use crate::wave_plan::{plan_of_tests, ready_tests, wave_builder};
use run_capture::{List, Mem};
use run_engine::TestRunnerBuilder;
use run_events::Plan;
use std::alloc::Global;
use std::marker::Model;
use uuid::Uuid;

/// Jobs that can be run: each has a name of its own, and waits for earlier ones alone.
#[derive(Drop)]
pub struct Jobs {
    run_id: Uuid,
    threads: u32,
    jobs: List<Job>,
    // The level of each job, and the jobs of each level, in order.
    levels: Vec<u32>,
    waves: Vec<List<u32>>,
}

impl Model for Jobs {
    ghost use Rattle.run_jobs.specs.Jobs.{Batch};
    ghost use Rattle.run_jobs.specs.Kept.{AreKeptJobs};

    ghost Value = { Batch };

    ghost view = { λ j. record { run_id = j.run_id; threads = j.threads; jobs = j.jobs } };

    ghost invariant = { λ j. AreKeptJobs j.threads j.jobs j.levels.items j.waves.items };
}

// Jobs with which nothing is wrong.
fn make(alloc: Global, run_id: Uuid, threads: u32, jobs: List<Job>) -> Result<Jobs, JobsError>
    requires few { length jobs < 2 ^ 32 }
    requires threads { 0 < threads }
    requires sound { first_fault [] jobs ≡ None }
    ensures { IsBatch run_id threads jobs result }
{
    let levels = levels_of(alloc, jobs.as_slice())?;
    let waves = waves_of(alloc, levels.as_slice())?;
    Ok(Jobs {
        run_id,
        threads,
        jobs,
        levels,
        waves,
    })
}

impl Jobs {
    /// Jobs of one run, fewer than 2^32, of which so many may run at a time. They are refused exactly where they break
    /// a rule, with the first that they break: the number of threads isn't 0, no job has the name of an earlier one,
    /// and each waits for jobs below its own number alone.
    pub fn new(
        alloc: Global,
        run_id: Uuid,
        threads: u32,
        jobs: List<Job>,
    ) -> Result<Jobs, JobsError>
        requires { length jobs < 2 ^ 32 }
        ensures { IsBatch run_id threads jobs result }
    {
        if threads == 0 {
            return Err(JobsError::ZeroThreads);
        }
        match first_fault(alloc, jobs.as_slice()) {
            Ok(None) => make(alloc, run_id, threads, jobs),
            Ok(Some(fault)) => Err(fault),
            Err(_) => Err(JobsError::OutOfMemory),
        }
    }

    /// The level of a job: 0 where it waits for none, else one more than the greatest level of those it waits for.
    pub fn level(&self, job: u32) -> u32
        requires { job < length self.now.jobs }
        ensures { result ≡ job_level self.now.jobs job }
    {
        self.levels[job as usize]
    }

    /// The jobs of a level, in order.
    pub(crate) fn at_level(&self, level: u32) -> &[u32]
        ensures { result.now ≡ at_level level 0 (levels_of self.now.jobs) }
    {
        match self.waves.get(level as usize) {
            Some(jobs) => jobs.as_slice(),
            None => &[],
        }
    }

    /// How many of them may run at a time.
    pub fn threads(&self) -> u32
        ensures { result ≡ self.now.threads }
    {
        self.threads
    }

    /// The jobs in order.
    pub fn list(&self) -> &[Job]
        ensures jobs { result.now ≡ self.now.jobs }
        ensures few { length self.now.jobs < 2 ^ 32 }
        ensures sound { jobs_fault self.now.threads self.now.jobs ≡ None }
    {
        self.jobs.as_slice()
    }

    /// The runner's settings and the plan of a wave, by the states that are known: none where no job of its level is
    /// ready, that is, where of each some job that it waits for isn't known to have passed. Output is captured
    /// combined, no key is heard, and the tests are the ready jobs, in order.
    pub fn wave_plan(
        &self,
        alloc: Global,
        wave: u32,
        states: &[Option<JobState>],
    ) -> Mem<Option<(TestRunnerBuilder, Plan)>>
        ensures { IfOk result (λ plan. plan ≡ wave_of self.now states.now wave) }
    {
        let tests = ready_tests(alloc, self.list(), self.at_level(wave), states)?;
        if tests.is_empty() {
            return Ok(None);
        }
        let plan = plan_of_tests(alloc, self.run_id, tests)?;
        Ok(Some((wave_builder(self.threads), plan)))
    }
}
