// The plan of a wave.
ghost use Rattle.std.specs.Prelude.{◌≡◌, ◌++◌, ◌∷◌, [], filter, option_to_list, IfOk, OnOk};
ghost use Rattle.run_events.specs.Usual.{usual_hearing, usual_plan};
ghost use Rattle.run_events.specs.declared.input.InputHandlerKind.TheVariants.{Noop};
ghost use Rattle.run_jobs.specs.States.{is_job_ready};
ghost use Rattle.run_jobs.specs.WavePlan.{test_of_job, tests_of_jobs, wave_builder};

use crate::job::{Job, JobState};
use crate::ready::first_unpassed;
use run_capture::{CaptureStrategy, Duplicate, List, Mem, Text};
use run_engine::TestRunnerBuilder;
use run_events::{InputHandlerKind, Plan, PlanTest, TestInstanceId, TestThreads};
use std::alloc::Global;
use uuid::Uuid;

// The test that a job is.
fn test_of_job(alloc: Global, job: &Job) -> Mem<PlanTest>
    ensures { IfOk result (λ test. test ≡ test_of_job job.now) }
{
    let binary = Text::from_str(alloc, "job")?;
    let name = job.name.copy(alloc)?;
    let command = job.command.copy(alloc)?;
    Ok(PlanTest::usual(TestInstanceId { binary, name }, command, None))
}

// The test that a job is, by its number, where it is ready.
fn ready_test(
    alloc: Global,
    jobs: &[Job],
    number: u32,
    states: &[Option<JobState>],
) -> Mem<Option<PlanTest>>
    ensures { IfOk result (λ test. option_to_list test
        ≡ tests_of_jobs jobs.now (filter (is_job_ready jobs.now states.now) (number ∷ []))) }
{
    let Some(job) = jobs.get(number as usize) else {
        return Ok(None);
    };
    if first_unpassed(states, job.after.as_slice()).is_some() {
        return Ok(None);
    }
    Ok(Some(test_of_job(alloc, job)?))
}

// Adds a test, where there is one.
fn add_some(alloc: Global, tests: &mut List<PlanTest>, test: Option<PlanTest>) -> Mem<()>
    ensures { OnOk result (tests.new ≡ tests.old ++ option_to_list test) }
{
    match test {
        Some(test) => tests.push(alloc, test),
        None => Ok(()),
    }
}

/// The tests that the ready ones of these jobs are.
pub fn ready_tests(
    alloc: Global,
    jobs: &[Job],
    level: &[u32],
    states: &[Option<JobState>],
) -> Mem<List<PlanTest>>
    ensures { IfOk result (λ tests. tests
        ≡ tests_of_jobs jobs.now (filter (is_job_ready jobs.now states.now) level.now)) }
{
    let mut tests = List::new();
    for number in level {
        let test = ready_test(alloc, jobs, *number, states)?;
        add_some(alloc, &mut tests, test)?;
    }
    Ok(tests)
}

/// The plan of a wave of these tests.
pub fn plan_of_tests(alloc: Global, run_id: Uuid, tests: List<PlanTest>) -> Mem<Plan>
    ensures { IfOk result (λ plan. plan
        ≡ record (usual_plan run_id tests) { hearing = record usual_hearing { input = Noop } }) }
{
    let mut plan = Plan::usual(alloc, run_id, tests)?;
    plan.hearing.input = InputHandlerKind::Noop;
    Ok(plan)
}

/// What is set of the runner of a wave.
pub fn wave_builder(threads: u32) -> TestRunnerBuilder
    ensures { result ≡ wave_builder threads }
{
    let mut builder = TestRunnerBuilder::default();
    builder.set_capture_strategy(CaptureStrategy::Combined);
    builder.set_test_threads(TestThreads::Count(threads));
    builder
}
