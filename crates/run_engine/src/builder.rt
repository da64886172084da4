// How a runner is made of a plan.
ghost use Rattle.std.specs.Prelude.{◌≡◌, ◌+◌, ◌==◌, ◌<◌, ◌^◌, length, position, option_map, option_and_then};
ghost use Rattle.std.specs.Prelude.{IfOk, IfSome, List, OnOk, Some};
ghost use Rattle.std.specs.List.Sorted.{IsStrictlySortedBy};
ghost use Rattle.run_events.specs.declared.plan.Group.{Group};
ghost use Rattle.run_model.specs.Reruns.{AreAscending, id_order};
ghost use Rattle.run_engine.specs.declared.errors.TestRunnerBuildError.TheVariants.{ZeroLimit};
ghost use Rattle.run_engine.specs.Builder.{IsBuilt, count_of, threads_of, refusal_at, test_refusal};
ghost use Rattle.run_engine.specs.Builder.{first_refused, zero_limit, refusal_with, refusal_of, has_too_many};
ghost use Rattle.run_engine.specs.Builder.{settings_of};
ghost use Rattle.run_engine.specs.Names.{HasNames};

use crate::errors::TestRunnerBuildError;
use crate::names::{names_no_group, names_of};
use crate::runner::TestRunner;
use run_capture::{CaptureStrategy, List, Mem, OutOfMemory, Text};
use run_commands::{Interceptor, StressCondition};
use run_events::{
    FlakyResult, Group, MaxFail, Plan, PlanTest, RetryPolicy, Settings, TestInstanceId, TestThreads,
};
use run_model::retry_count;
use std::alloc::Global;
use std::collections::{BTreeSet, HashSet};
use std::fmt;
use std::fmt::{Debug, Write};
use std::marker::Model;

// The most groups that refusals can number. A plan of more takes over 100 GB.
const MOST_GROUPS: usize = 4_294_967_295;

/// What is set of a runner beside its plan: how the output of tests is captured, how many tests run at a time,
/// after how many failures no test starts any more, what tests run under, and, for all tests alike, how often a failed
/// one is tried again and what a pass counts as then; when a stress run ends, and which tests a rerun expects.
#[derive(Drop)]
pub struct TestRunnerBuilder {
    capture: CaptureStrategy,
    threads: Option<u32>,
    max_fail: MaxFail,
    retries: Option<RetryPolicy>,
    flaky_result: Option<FlakyResult>,
    interceptor: Interceptor,
    stress: Option<StressCondition>,
    expected: Option<BTreeSet<TestInstanceId>>,
}

impl Model for TestRunnerBuilder {
    ghost use Rattle.std.specs.Prelude.{option_map};
    ghost use Rattle.run_engine.specs.Builder.{Builder};

    ghost Value = { Builder };

    ghost view = { λ b. record {
      capture = b.capture;
      threads = b.threads;
      max_fail = b.max_fail;
      retries = b.retries;
      flaky_result = b.flaky_result;
      interceptor = b.interceptor;
      stress = b.stress;
      expected = option_map (λ ids. ids.keys) b.expected;
    } };
}

impl Debug for TestRunnerBuilder {
    fn fmt<W: Write>(&self, f: &mut fmt::Formatter<W>) -> fmt::Result {
        f.write_str("TestRunnerBuilder { .. }")
    }
}

/// Each stream is captured by itself, the number of threads is unset, all tests run, whatever fails, each by its own
/// retries, and none under a debugger or a tracer; the run is neither a stress run nor a rerun.
impl Default for TestRunnerBuilder {
    ghost use Rattle.std.specs.Prelude.{◌≡◌, None};
    ghost use Rattle.run_capture.specs.declared.test_output.CaptureStrategy.TheVariants as strategies;
    ghost use Rattle.run_commands.specs.declared.interceptor.Interceptor.TheVariants as interceptors;
    ghost use Rattle.run_events.specs.declared.retry_policy.MaxFail.TheVariants.{All};

    ghost is_default = { λ b. b ≡ record {
      capture = strategies.Split;
      threads = None;
      max_fail = All;
      retries = None;
      flaky_result = None;
      interceptor = interceptors.None;
      stress = None;
      expected = None;
    } };

    fn default() -> Self {
        TestRunnerBuilder {
            capture: CaptureStrategy::Split,
            threads: None,
            max_fail: MaxFail::All,
            retries: None,
            flaky_result: None,
            interceptor: Interceptor::None,
            stress: None,
            expected: None,
        }
    }
}

impl TestRunnerBuilder {
    /// Sets how the output of tests is captured.
    pub fn set_capture_strategy(&mut self, strategy: CaptureStrategy) -> &mut Self
        ensures same { result.ghost_name ≡ self.entry.ghost_name }
        ensures set { result.now ≡ record self.old { capture = strategy } }
    {
        self.capture = strategy;
        self
    }

    /// Sets how many threads there are: the greatest sum of weights that may run at a time. Where it is unset, it is
    /// one, and so it is wherever no output is captured.
    pub fn set_test_threads(&mut self, threads: TestThreads) -> &mut Self
        ensures same { result.ghost_name ≡ self.entry.ghost_name }
        ensures set { result.now ≡ record self.old { threads = Some (count_of threads) } }
    {
        let TestThreads::Count(count) = threads;
        self.threads = Some(count);
        self
    }

    /// Sets after how many failures no test starts any more, and what becomes then of those that run.
    pub fn set_max_fail(&mut self, max_fail: MaxFail) -> &mut Self
        ensures same { result.ghost_name ≡ self.entry.ghost_name }
        ensures set { result.now ≡ record self.old { max_fail = max_fail } }
    {
        self.max_fail = max_fail;
        self
    }

    /// Sets how often each test is tried again where it fails, in place of its own retries.
    pub fn set_retries(&mut self, retries: RetryPolicy) -> &mut Self
        ensures same { result.ghost_name ≡ self.entry.ghost_name }
        ensures set { result.now ≡ record self.old { retries = Some retries } }
    {
        self.retries = Some(retries);
        self
    }

    /// Sets what a pass after a failed attempt counts as, for each test in place of its own setting.
    pub fn set_flaky_result(&mut self, flaky_result: FlakyResult) -> &mut Self
        ensures same { result.ghost_name ≡ self.entry.ghost_name }
        ensures set { result.now ≡ record self.old { flaky_result = Some flaky_result } }
    {
        self.flaky_result = Some(flaky_result);
        self
    }

    /// Sets what each test runs under.
    pub fn set_interceptor(&mut self, interceptor: Interceptor) -> &mut Self
        ensures same { result.ghost_name ≡ self.entry.ghost_name }
        ensures set { result.now ≡ record self.old { interceptor = interceptor } }
    {
        self.interceptor = interceptor;
        self
    }

    /// Sets that the run is a stress run, and when it ends: after a count of sub-runs, or with the first sub-run that
    /// ends when so many nanoseconds of the run's active time have passed.
    pub fn set_stress_condition(&mut self, stress_condition: StressCondition) -> &mut Self
        ensures same { result.ghost_name ≡ self.entry.ghost_name }
        ensures set { result.now ≡ record self.old { stress = Some stress_condition } }
    {
        self.stress = Some(stress_condition);
        self
    }

    /// Sets that the run is a rerun, and the tests that it expects. Contracts see them in ascending order.
    pub fn set_expected_outstanding(&mut self, expected: BTreeSet<TestInstanceId>) -> &mut Self
        ensures same { result.ghost_name ≡ self.entry.ghost_name }
        ensures set { result.now ≡ record self.old { expected = Some expected.keys } }
    {
        self.expected = Some(expected);
        self
    }

    // How many threads there are.
    fn effective_threads(&self) -> u32
        ensures { result ≡ threads_of self.now }
    {
        match self.capture {
            CaptureStrategy::None => 1,
            CaptureStrategy::Split | CaptureStrategy::Combined => self.threads.unwrap_or(1),
        }
    }

    /// The runner of a plan of fewer than 2^32 units. A plan is refused exactly where it breaks a rule, with the first
    /// that it breaks: no limit is 0, no two tests have one id, each group that a test names is there, no weight is 0,
    /// and no test has 4,294,967,295 retries. One of 2^32 groups or more, which refusals can't number, counts as too
    /// much for memory.
    pub fn build(self, alloc: Global, plan: Plan) -> Result<TestRunner, TestRunnerBuildError>
        requires { length plan.scripts + length plan.tests < 2 ^ 32 }
        ensures built { IsBuilt self plan result }
    {
        if plan.groups.len() > MOST_GROUPS {
            drop((self, plan));
            return Err(TestRunnerBuildError::OutOfMemory);
        }
        match self.refusal_of(alloc, &plan) {
            Err(_) => {
                drop((self, plan));
                Err(TestRunnerBuildError::OutOfMemory)
            }
            Ok(Some(error)) => {
                drop((self, plan));
                Err(error)
            }
            Ok(None) => match self.into_settings(alloc, plan) {
                Ok(settings) => Ok(TestRunner::new(settings)),
                Err(_) => Err(TestRunnerBuildError::OutOfMemory),
            },
        }
    }

    // Why a plan is refused.
    fn refusal_of(&self, alloc: Global, plan: &Plan) -> Mem<Option<TestRunnerBuildError>>
        requires groups { length plan.now.groups < 2 ^ 32 }
        requires tests { length plan.now.tests < 2 ^ 32 }
        ensures { IfOk result (λ r. r ≡ refusal_of self.now plan.now) }
    {
        refusal(alloc, self.effective_threads(), self.retries, plan)
    }

    // The settings of a plan.
    fn into_settings(self, alloc: Global, plan: Plan) -> Mem<Settings>
        ensures settings { IfOk result (λ settings. settings ≡ settings_of self plan) }
        ensures ascending { IfOk result (λ settings. AreAscending settings.expected) }
    {
        let threads = self.effective_threads();
        let TestRunnerBuilder {
            capture,
            max_fail,
            retries,
            flaky_result,
            interceptor,
            stress,
            expected,
            ..
        } = self;
        let Ok(expected) = expected_of(alloc, expected) else {
            drop((plan, interceptor, stress));
            return Err(OutOfMemory);
        };
        Ok(Settings {
            plan,
            capture,
            threads,
            max_fail,
            stress,
            interceptor,
            expected,
            retries,
            flaky_result,
        })
    }
}

// The tests that a rerun expects, in ascending order.
fn expected_of(
    alloc: Global,
    expected: Option<BTreeSet<TestInstanceId>>,
) -> Mem<Option<List<TestInstanceId>>>
    ensures tests { IfOk result (λ tests. tests ≡ option_map (λ ids. ids.keys) expected) }
    ensures ascending { IfOk result AreAscending }
{
    match expected {
        Some(ids) => Ok(Some(list_of(alloc, ids)?)),
        None => Ok(None),
    }
}

// The tests of a set, in ascending order.
fn list_of(alloc: Global, ids: BTreeSet<TestInstanceId>) -> Mem<List<TestInstanceId>>
    ensures tests { IfOk result (λ tests. tests ≡ ids.keys) }
    ensures ascending { OnOk result (IsStrictlySortedBy id_order ids.keys) }
{
    let mut tests = List::new();
    for id in ids {
        tests.push(alloc, id)?;
    }
    Ok(tests)
}

// Why a plan with so many threads is refused.
fn refusal(
    alloc: Global,
    threads: u32,
    retries: Option<RetryPolicy>,
    plan: &Plan,
) -> Mem<Option<TestRunnerBuildError>>
    requires groups { length plan.now.groups < 2 ^ 32 }
    requires tests { length plan.now.tests < 2 ^ 32 }
    ensures { IfOk result (λ r. r ≡ refusal_with threads plan.now.groups retries plan.now.tests) }
{
    match zero_limit(threads, plan.groups.as_slice()) {
        Some(error) => Ok(Some(error)),
        None => tests_refusal(
            alloc,
            plan.groups.as_slice(),
            retries,
            plan.tests.as_slice(),
        ),
    }
}

// The first group whose limit is 0.
fn zero_group(groups: &[Group]) -> Option<usize>
    ensures first { result ≡ position (λ g. g.limit == 0) groups.now }
    ensures inside { IfSome result (λ place. place < length groups.now) }
{
    groups.iter().position(|group| group.limit == 0)
}

// The first limit that is 0.
fn zero_limit(threads: u32, groups: &[Group]) -> Option<TestRunnerBuildError>
    requires { length groups.now < 2 ^ 32 }
    ensures { result ≡ option_map ZeroLimit (zero_limit threads groups.now) }
{
    if threads == 0 {
        return Some(TestRunnerBuildError::ZeroLimit { group: None });
    }
    match zero_group(groups) {
        Some(place) => Some(TestRunnerBuildError::ZeroLimit {
            group: Some(place as u32),
        }),
        None => None,
    }
}

// Whether the attempts of a test don't fit in a u32.
fn has_too_many(retries: Option<RetryPolicy>, test: &PlanTest) -> bool
    ensures { result ≡ has_too_many retries test.now }
{
    let policy = retries.unwrap_or(test.retries);
    retry_count(&policy) >= u32::MAX
}

// Why a test at this place is refused.
fn refusal_at<'a>(
    test: u32,
    repeats: bool,
    names: &BTreeSet<&'a Text>,
    retries: Option<RetryPolicy>,
    planned: &'a PlanTest,
) -> Option<TestRunnerBuildError>
    ensures { (groups : List Group) → HasNames groups names.now
        → result ≡ refusal_at test repeats groups retries planned.now }
{
    if repeats {
        Some(TestRunnerBuildError::DuplicateTest { test })
    } else if names_no_group(names, planned) {
        Some(TestRunnerBuildError::UnknownGroup { test })
    } else if planned.weight == 0 {
        Some(TestRunnerBuildError::ZeroWeight { test })
    } else if has_too_many(retries, planned) {
        Some(TestRunnerBuildError::TooManyRetries { test })
    } else {
        None
    }
}

// Why the first test that is refused is refused.
fn tests_refusal<'a>(
    alloc: Global,
    groups: &'a [Group],
    retries: Option<RetryPolicy>,
    tests: &'a [PlanTest],
) -> Mem<Option<TestRunnerBuildError>>
    requires { length tests.now < 2 ^ 32 }
    ensures { IfOk result (λ r. r ≡ option_and_then (test_refusal groups.now retries tests.now)
        (first_refused groups.now retries tests.now)) }
{
    let names = names_of(alloc, groups)?;
    let mut ids = HashSet::with_capacity(alloc, tests.len())?;
    for (place, test) in tests.iter().enumerate() {
        let fresh = ids.insert(&test.id)?;
        let refusal = refusal_at(place as u32, !fresh, &names, retries, test);
        if refusal.is_some() {
            return Ok(refusal);
        }
    }
    Ok(None)
}
