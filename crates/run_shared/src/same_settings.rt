// Whether two settings are the same.
ghost use Rattle.std.specs.Prelude.{◌≡◌, ◌↔◌, IsTrue};

use crate::same::Same;
use run_commands::{StressCondition, StressCount};
use run_events::{MaxFail, Settings, TerminateMode};

impl Same for TerminateMode {
    fn same(&self, other: &TerminateMode) -> bool {
        match self {
            TerminateMode::Wait => matches!(other, TerminateMode::Wait),
            TerminateMode::Immediate => matches!(other, TerminateMode::Immediate),
        }
    }
}

impl Same for MaxFail {
    fn same(&self, other: &MaxFail) -> bool {
        match (self, other) {
            (MaxFail::All, MaxFail::All) => true,
            (
                MaxFail::Count {
                    max_fail,
                    terminate,
                },
                MaxFail::Count {
                    max_fail: other_max_fail,
                    terminate: other_terminate,
                },
            ) => *max_fail == *other_max_fail && terminate.same(other_terminate),
            _ => false,
        }
    }
}

impl Same for StressCount {
    fn same(&self, other: &StressCount) -> bool {
        match (self, other) {
            (StressCount::Count { count }, StressCount::Count { count: other_count }) => {
                count.get() == other_count.get()
            }
            (StressCount::Infinite, StressCount::Infinite) => true,
            _ => false,
        }
    }
}

impl Same for StressCondition {
    fn same(&self, other: &StressCondition) -> bool {
        match (self, other) {
            (StressCondition::Count(a), StressCondition::Count(b)) => a.same(b),
            (StressCondition::Duration(a), StressCondition::Duration(b)) => *a == *b,
            _ => false,
        }
    }
}

impl Same for Settings {
    fn same(&self, other: &Settings) -> bool {
        self.plan.same(&other.plan)
            && self.capture == other.capture
            && self.threads == other.threads
            && self.max_fail.same(&other.max_fail)
            && self.stress.same(&other.stress)
            && self.interceptor.same(&other.interceptor)
            && self.expected.same(&other.expected)
            && self.retries.same(&other.retries)
            && self.flaky_result.same(&other.flaky_result)
    }
}
