// The plan of a generated run.
ghost use Rattle.std.specs.Prelude.{◌≡◌, ◌≤◌, ◌∷◌, [], IfOk, map, codes, Some, None, if◌then◌else◌};
ghost use Rattle.std.specs.List.{range_with_len};
ghost use Rattle.run_events.specs.Usual.{usual_test};
ghost use Rattle.run_generate.specs.Plan.{generated_builder, generated_plan, generated_settings};
ghost use Rattle.run_generate.specs.Plan.{group_at, id_at, retries_at, skip_at};
ghost use Rattle.run_generate.specs.Plan.{test_at, the_group};

use run_capture::{CaptureStrategy, List, Mem, OutOfMemory, Text};
use run_engine::{TestRunner, TestRunnerBuildError, TestRunnerBuilder};
use run_events::{Group, Plan, PlanTest, RetryPolicy, TestInstanceId, TestThreads};
use std::alloc::Global;
use uuid::Uuid;

// A text where there is to be one.
fn text_where(alloc: Global, there: bool, text: &str) -> Mem<Option<Text>>
    ensures { IfOk result (λ t. t ≡ (if there then Some text.now else None)) }
{
    if there {
        Ok(Some(Text::from_str(alloc, text)?))
    } else {
        Ok(None)
    }
}

fn id_at(alloc: Global, test: u32) -> Mem<TestInstanceId>
    ensures { IfOk result (λ id. id ≡ id_at test) }
{
    let name = format!(in alloc; "t{test}")?;
    let binary = Text::from_str(alloc, "gen")?;
    let name = Text::from_string(name);
    Ok(TestInstanceId { binary, name })
}

// The command of each test.
fn command(alloc: Global) -> Mem<List<Text>>
    ensures { IfOk result (λ words. words ≡ codes "x" ∷ []) }
{
    let mut words = List::new();
    words.push(alloc, Text::from_str(alloc, "x")?)?;
    Ok(words)
}

fn retries_at(test: u32) -> RetryPolicy
    ensures { result ≡ retries_at test }
{
    RetryPolicy::Fixed {
        count: if test % 7 == 3 { 1 } else { 0 },
        delay: 0,
        jitter: false,
    }
}

// The usual test with the name of a number, and skipped where it is to be.
fn usual_at(alloc: Global, test: u32) -> Mem<PlanTest>
    ensures { IfOk result (λ t. t ≡ usual_test (id_at test) (codes "x" ∷ []) (skip_at test)) }
{
    let id = id_at(alloc, test)?;
    let command = command(alloc)?;
    let skip = text_where(alloc, test % 11 == 10, "gen")?;
    Ok(PlanTest::usual(id, command, skip))
}

fn test_at(alloc: Global, test: u32) -> Mem<PlanTest>
    ensures { IfOk result (λ t. t ≡ test_at test) }
{
    let group = text_where(alloc, test % 5 == 0, "g")?;
    let mut planned = usual_at(alloc, test)?;
    planned.weight = 1 + test % 3;
    planned.group = group;
    planned.retries = retries_at(test);
    Ok(planned)
}

fn tests_of(alloc: Global, count: u32) -> Mem<List<PlanTest>>
    ensures { IfOk result (λ tests. tests ≡ map test_at (range_with_len 0 count)) }
{
    let mut tests = List::new();
    for test in 0..count {
        tests.push(alloc, test_at(alloc, test)?)?;
    }
    Ok(tests)
}

fn groups(alloc: Global) -> Mem<List<Group>>
    ensures { IfOk result (λ groups. groups ≡ the_group ∷ []) }
{
    let mut groups = List::new();
    let name = Text::from_str(alloc, "g")?;
    groups.push(alloc, Group { name, limit: 4 })?;
    Ok(groups)
}

fn plan_of(alloc: Global, count: u32) -> Mem<Plan>
    ensures { IfOk result (λ plan. plan ≡ generated_plan count) }
{
    let groups = groups(alloc)?;
    let tests = tests_of(alloc, count)?;
    let mut plan = Plan::usual(alloc, Uuid::nil(), tests)?;
    plan.groups = groups;
    Ok(plan)
}

fn builder() -> TestRunnerBuilder
    ensures { result ≡ generated_builder }
{
    let mut builder = TestRunnerBuilder::default();
    builder.set_capture_strategy(CaptureStrategy::Combined);
    builder.set_test_threads(TestThreads::Count(16));
    builder
}

// The one error of a plan that breaks no rule.
fn memory_of(error: TestRunnerBuildError) -> OutOfMemory
    requires { error ≡ TestRunnerBuildError.OutOfMemory }
{
    match error {
        TestRunnerBuildError::OutOfMemory => OutOfMemory,
        _ => unreachable!(),
    }
}

/// What carries out the plan of so many tests, which is never refused.
pub(crate) fn runner_of(alloc: Global, count: u32) -> Mem<TestRunner>
    requires { count ≤ 20000 }
    ensures { IfOk result (λ runner. runner ≡ generated_settings count) }
{
    let plan = plan_of(alloc, count)?;
    match builder().build(alloc, plan) {
        Ok(runner) => Ok(runner),
        Err(error) => Err(memory_of(error)),
    }
}
