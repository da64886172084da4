// Whether two plans are the same.
ghost use Rattle.std.specs.Prelude.{◌≡◌, ◌↔◌, IsTrue};

use crate::same::Same;
use run_events::{
    FlakyResult, Group, Hearing, LeakTimeout, Plan, PlanScript, PlanTest, RetryPolicy, RunHead,
    RunMode, SlowTimeout, TestInstanceId,
};

impl Same for TestInstanceId {
    fn same(&self, other: &TestInstanceId) -> bool {
        self.binary.same(&other.binary) && self.name.same(&other.name)
    }
}

impl Same for Group {
    fn same(&self, other: &Group) -> bool {
        self.name.same(&other.name) && self.limit == other.limit
    }
}

impl Same for SlowTimeout {
    fn same(&self, other: &SlowTimeout) -> bool {
        self.period == other.period
            && self.terminate_after.same(&other.terminate_after)
            && self.grace == other.grace
            && self.on_timeout == other.on_timeout
    }
}

impl Same for LeakTimeout {
    fn same(&self, other: &LeakTimeout) -> bool {
        self.period == other.period && self.result == other.result
    }
}

impl Same for FlakyResult {
    fn same(&self, other: &FlakyResult) -> bool {
        *self == *other
    }
}

impl Same for RetryPolicy {
    fn same(&self, other: &RetryPolicy) -> bool {
        match (self, other) {
            (
                RetryPolicy::Fixed {
                    count,
                    delay,
                    jitter,
                },
                RetryPolicy::Fixed {
                    count: other_count,
                    delay: other_delay,
                    jitter: other_jitter,
                },
            ) => *count == *other_count && *delay == *other_delay && *jitter == *other_jitter,
            (
                RetryPolicy::Exponential {
                    count,
                    delay,
                    jitter,
                    max_delay,
                },
                RetryPolicy::Exponential {
                    count: other_count,
                    delay: other_delay,
                    jitter: other_jitter,
                    max_delay: other_max_delay,
                },
            ) => {
                *count == *other_count
                    && *delay == *other_delay
                    && *jitter == *other_jitter
                    && max_delay.same(other_max_delay)
            }
            _ => false,
        }
    }
}

impl Same for PlanScript {
    fn same(&self, other: &PlanScript) -> bool {
        self.id.same(&other.id)
            && self.command.same(&other.command)
            && self.env_path.same(&other.env_path)
            && self.slow.same(&other.slow)
            && self.leak.same(&other.leak)
            && self.capture_stdout == other.capture_stdout
            && self.capture_stderr == other.capture_stderr
    }
}

impl Same for PlanTest {
    fn same(&self, other: &PlanTest) -> bool {
        self.id.same(&other.id)
            && self.command.same(&other.command)
            && self.skip.same(&other.skip)
            && self.weight == other.weight
            && self.priority == other.priority
            && self.group.same(&other.group)
            && self.retries.same(&other.retries)
            && self.flaky == other.flaky
            && self.slow.same(&other.slow)
            && self.leak.same(&other.leak)
            && self.scripts.same(&other.scripts)
            && self.platform == other.platform
    }
}

impl Same for Hearing {
    fn same(&self, other: &Hearing) -> bool {
        self.signals == other.signals
            && self.input == other.input
            && self.quit_is_info == other.quit_is_info
    }
}

impl Same for RunMode {
    fn same(&self, other: &RunMode) -> bool {
        match self {
            RunMode::Test => matches!(other, RunMode::Test),
            RunMode::Benchmark => matches!(other, RunMode::Benchmark),
        }
    }
}

impl Same for RunHead {
    fn same(&self, other: &RunHead) -> bool {
        self.run_id.same(&other.run_id)
            && self.started_at.same(&other.started_at)
            && self.profile.same(&other.profile)
            && self.workspace_root.same(&other.workspace_root)
            && self.args.same(&other.args)
            && self.mode.same(&other.mode)
            && self.versions.same(&other.versions)
    }
}

impl Same for Plan {
    fn same(&self, other: &Plan) -> bool {
        self.head.same(&other.head)
            && self.hearing.same(&other.hearing)
            && self.global_timeout.same(&other.global_timeout)
            && self.groups.same(&other.groups)
            && self.runners.same(&other.runners)
            && self.scripts.same(&other.scripts)
            && self.tests.same(&other.tests)
    }
}
