// What the line of a plan says.

use run_capture::{CaptureStrategy, List, Text};
use run_commands::StressCondition;
use run_events::{FlakyResult, Group, MaxFail, PlanScript, PlanTest, RetryPolicy};
use uuid::Uuid;

/// A plan that a project and the words of a call make.
pub struct SaidPlan {
    pub run_id: Uuid,
    pub profile: Text,
    pub workspace_root: Text,
    /// The words with which the runner was called.
    pub args: List<Text>,
    pub capture: CaptureStrategy,
    /// How much may run at a time.
    pub threads: u32,
    pub max_fail: MaxFail,
    /// What each test is given in place of its own, where it is given.
    pub retries: Option<RetryPolicy>,
    pub flaky_result: Option<FlakyResult>,
    /// How often, or how long, all is repeated.
    pub stress: Option<StressCondition>,
    /// In nanoseconds.
    pub global_timeout: Option<u64>,
    pub groups: List<Group>,
    pub scripts: List<PlanScript>,
    pub tests: List<PlanTest>,
}

// A call of its own, which keeps the proofs of all that hold a plan small.
impl Drop for SaidPlan {
    fn drop(self) {
        let SaidPlan {
            run_id: _,
            profile: _,
            workspace_root: _,
            args: _,
            capture: _,
            threads: _,
            max_fail: _,
            retries: _,
            flaky_result: _,
            stress: _,
            global_timeout: _,
            groups: _,
            scripts: _,
            tests: _,
        } = self;
    }
}
