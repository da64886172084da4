// The plan line as a builder and its plan.
ghost use Rattle.std.specs.Prelude.{◌≡◌, ◌+◌, ◌<◌, ◌^◌, length, option_map, option_and_then, IfOk};
ghost use Rattle.run_input.specs.ReadsValue.{ReadsValue};
ghost use Rattle.run_input.specs.ValueOf.{json_value};
ghost use Rattle.run_input.specs.PlanLine.{plan_of};
ghost use Rattle.run_engine.specs.Builder.{IsBuilt};
ghost use Rattle.run_cli.specs.Plans.{ascending, builder_of};

use run_capture::{List, Mem};
use run_engine::{TestRunner, TestRunnerBuildError, TestRunnerBuilder};
use run_events::{Plan, TestInstanceId, TestThreads};
use run_input::{LineError, RunnerKeys};
use std::alloc::Global;
use std::collections::BTreeSet;

// The tests of a list, each of them once.
fn set_of(alloc: Global, ids: List<TestInstanceId>) -> Mem<BTreeSet<TestInstanceId>>
    ensures { IfOk result (λ set. set.keys ≡ ascending ids) }
{
    let mut ids = ids.into_vec(alloc);
    let mut set = BTreeSet::new(alloc);
    while let Some(id) = ids.pop() {
        set.insert(id)?;
    }
    Ok(set)
}

// The tests that a rerun expects, where the run is one.
fn expected_of(
    alloc: Global,
    ids: Option<List<TestInstanceId>>,
) -> Mem<Option<BTreeSet<TestInstanceId>>>
    ensures { IfOk result (λ expected. option_map (λ set. set.keys) expected ≡ option_map ascending ids) }
{
    match ids {
        Some(ids) => Ok(Some(set_of(alloc, ids)?)),
        None => Ok(None),
    }
}

// The builder that keys set, of a run that expects these tests.
fn builder_with(keys: RunnerKeys, expected: Option<BTreeSet<TestInstanceId>>) -> TestRunnerBuilder
    ensures { result ≡ record (builder_of keys) { expected = option_map (λ set. set.keys) expected } }
{
    let mut builder = TestRunnerBuilder::default();
    builder.set_capture_strategy(keys.capture);
    if let Some(threads) = keys.threads {
        builder.set_test_threads(TestThreads::Count(threads));
    }
    builder.set_max_fail(keys.max_fail);
    if let Some(condition) = keys.stress {
        builder.set_stress_condition(condition);
    }
    if let Some(retries) = keys.retries {
        builder.set_retries(retries);
    }
    if let Some(flaky_result) = keys.flaky_result {
        builder.set_flaky_result(flaky_result);
    }
    builder.set_interceptor(keys.interceptor);
    if let Some(expected) = expected {
        builder.set_expected_outstanding(expected);
    }
    builder
}

// The builder that the keys of a plan line set.
fn builder_of(alloc: Global, keys: RunnerKeys) -> Mem<TestRunnerBuilder>
    ensures { IfOk result (λ builder. builder ≡ builder_of keys) }
{
    let mut keys = keys;
    let expected = keys.expected.take();
    match expected_of(alloc, expected) {
        Ok(expected) => Ok(builder_with(keys, expected)),
        Err(error) => {
            drop(keys);
            Err(error)
        }
    }
}

/// What carries out a plan with the keys of its line, of fewer than 2^32 scripts and tests together: refused as `build`
/// does, also for want of memory.
pub fn runner_of(
    alloc: Global,
    keys: RunnerKeys,
    plan: Plan,
) -> Result<TestRunner, TestRunnerBuildError>
    requires { length plan.scripts + length plan.tests < 2 ^ 32 }
    ensures { IsBuilt (builder_of keys) plan result }
{
    match builder_of(alloc, keys) {
        Ok(builder) => builder.build(alloc, plan),
        Err(_) => {
            drop(plan);
            Err(TestRunnerBuildError::OutOfMemory)
        }
    }
}

/// Reads a plan line: the builder that its keys set, and the plan that it says. A line is refused exactly where it is
/// not in its table.
pub fn read_plan_line(alloc: Global, line: &[u8]) -> Result<(TestRunnerBuilder, Plan), LineError>
    ensures { ReadsValue result (option_map (λ said. (builder_of said.0, said.1))
        (option_and_then plan_of (json_value line.now))) }
{
    match run_input::read_plan_line(alloc, line) {
        Ok((keys, plan)) => match builder_of(alloc, keys) {
            Ok(builder) => Ok((builder, plan)),
            Err(_) => {
                drop(plan);
                Err(LineError::OutOfMemory)
            }
        },
        Err(error) => Err(error),
    }
}
