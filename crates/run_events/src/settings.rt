// What a run goes by.
ghost use Rattle.std.specs.Prelude.{◌≡◌, IfOk};

use crate::copies::both;
use crate::{FlakyResult, MaxFail, Plan, RetryPolicy, TestInstanceId};
use run_capture::{CaptureStrategy, Duplicate, List, Mem};
use run_commands::{Interceptor, StressCondition};
use std::alloc::Global;

/// The effective settings of a run, with the plan that they belong to.
pub struct Settings {
    pub plan: Plan,
    pub capture: CaptureStrategy,
    /// How much may run at a time: the greatest sum of weights.
    pub threads: u32,
    pub max_fail: MaxFail,
    /// In a stress run alone: when it ends.
    pub stress: Option<StressCondition>,
    pub interceptor: Interceptor,
    /// In a rerun alone: the tests that are expected, in ascending order.
    pub expected: Option<List<TestInstanceId>>,
    /// Where it is set, it replaces every test's.
    pub retries: Option<RetryPolicy>,
    /// Where it is set, it replaces every test's.
    pub flaky_result: Option<FlakyResult>,
}

// A call of its own, which keeps the proofs of all that hold settings small.
impl Drop for Settings {
    fn drop(self) {
        let Settings {
            plan: _,
            capture: _,
            threads: _,
            max_fail: _,
            stress: _,
            interceptor: _,
            expected: _,
            retries: _,
            flaky_result: _,
        } = self;
    }
}

// What settings hold beside the plan.
#[derive(Drop)]
struct Extras {
    stress: Option<StressCondition>,
    interceptor: Interceptor,
    expected: Option<List<TestInstanceId>>,
}

fn extras_of(alloc: Global, settings: &Settings) -> Mem<Extras>
    ensures stress { IfOk result (λ extras. extras.stress ≡ settings.now.stress) }
    ensures interceptor { IfOk result (λ extras. extras.interceptor ≡ settings.now.interceptor) }
    ensures expected { IfOk result (λ extras. extras.expected ≡ settings.now.expected) }
{
    let ends = both(settings.stress.copy(alloc), settings.expected.copy(alloc));
    let ((stress, expected), interceptor) = both(ends, settings.interceptor.copy(alloc))?;
    Ok(Extras {
        stress,
        interceptor,
        expected,
    })
}

impl Duplicate for Settings {
    fn copy(&self, alloc: Global) -> Mem<Settings> {
        let (extras, plan) = both(extras_of(alloc, self), self.plan.copy(alloc))?;
        let Extras {
            stress,
            interceptor,
            expected,
        } = extras;
        Ok(Settings {
            plan,
            capture: self.capture,
            threads: self.threads,
            max_fail: self.max_fail,
            stress,
            interceptor,
            expected,
            retries: self.retries,
            flaky_result: self.flaky_result,
        })
    }
}
