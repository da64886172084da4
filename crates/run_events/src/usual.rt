// What a plan is where it says nothing else.
ghost use Rattle.std.specs.Prelude.{◌≡◌, IfOk};
ghost use Rattle.run_events.specs.Usual.{usual_slow, usual_leak, no_retries, usual_test, usual_versions, usual_head};
ghost use Rattle.run_events.specs.Usual.{usual_hearing, usual_plan};

use crate::{
    FlakyResult, Hearing, InputHandlerKind, LeakTimeout, LeakTimeoutResult, Plan, PlanTest,
    RetryPolicy, RunHead, RunMode, SignalHandlerKind, SlowTimeout, SlowTimeoutResult,
    TestInstanceId,
};
use run_capture::{List, Mem, Text};
use run_commands::{BuildPlatform, TargetRunner, VersionEnvVars};
use semver::Version;
use std::alloc::Global;
use uuid::Uuid;

impl SlowTimeout {
    /// A test is slow after a minute, is never ended for it, and would be given ten seconds.
    pub fn usual() -> SlowTimeout
        ensures { result ≡ usual_slow }
    {
        SlowTimeout {
            period: 60_000_000_000,
            terminate_after: None,
            grace: 10_000_000_000,
            on_timeout: SlowTimeoutResult::Fail,
        }
    }
}

impl LeakTimeout {
    /// Open descriptors are waited for during 200 ms, and a leak passes.
    pub fn usual() -> LeakTimeout
        ensures { result ≡ usual_leak }
    {
        LeakTimeout {
            period: 200_000_000,
            result: LeakTimeoutResult::Pass,
        }
    }
}

impl RetryPolicy {
    /// No attempt is repeated.
    pub fn none() -> RetryPolicy
        ensures { result ≡ no_retries }
    {
        RetryPolicy::Fixed {
            count: 0,
            delay: 0,
            jitter: false,
        }
    }
}

impl PlanTest {
    /// A test of weight 1 and priority 0, in no group, with no retries and no scripts, for the target platform.
    pub fn usual(id: TestInstanceId, command: List<Text>, skip: Option<Text>) -> PlanTest
        ensures { result ≡ usual_test id command skip }
    {
        PlanTest {
            id,
            command,
            skip,
            weight: 1,
            priority: 0,
            group: None,
            retries: RetryPolicy::none(),
            flaky: FlakyResult::Pass,
            slow: SlowTimeout::usual(),
            leak: LeakTimeout::usual(),
            scripts: List::new(),
            platform: BuildPlatform::Target,
        }
    }
}

impl Hearing {
    /// All signals and keys are heard, and a quit shuts the run down.
    pub fn usual() -> Hearing
        ensures { result ≡ usual_hearing }
    {
        Hearing {
            signals: SignalHandlerKind::Standard,
            input: InputHandlerKind::Standard,
            quit_is_info: false,
        }
    }
}

fn usual_versions() -> VersionEnvVars
    ensures { result ≡ usual_versions }
{
    VersionEnvVars {
        current_version: Version::new(0, 0, 0),
        required_version: None,
        recommended_version: None,
    }
}

impl RunHead {
    /// A run of tests that began at the start of 1970, in the profile `default` and the root folder.
    pub fn usual(alloc: Global, run_id: Uuid) -> Mem<RunHead>
        ensures { IfOk result (λ head. head ≡ usual_head run_id) }
    {
        let profile = Text::from_str(alloc, "default")?;
        let workspace_root = Text::from_str(alloc, "/")?;
        Ok(RunHead {
            run_id,
            started_at: None,
            profile,
            workspace_root,
            args: List::new(),
            mode: RunMode::Test,
            versions: usual_versions(),
        })
    }
}

impl Plan {
    /// A plan of these tests alone.
    pub fn usual(alloc: Global, run_id: Uuid, tests: List<PlanTest>) -> Mem<Plan>
        ensures { IfOk result (λ plan. plan ≡ usual_plan run_id tests) }
    {
        let head = RunHead::usual(alloc, run_id)?;
        Ok(Plan {
            head,
            hearing: Hearing::usual(),
            global_timeout: None,
            groups: List::new(),
            runners: TargetRunner::empty(),
            scripts: List::new(),
            tests,
        })
    }
}
