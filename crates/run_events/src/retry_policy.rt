// How often an attempt is repeated, and when a run gives up.

/// How often a failed test is tried again, and after which delays. Times are in nanoseconds.
#[derive(Clone, Copy, Drop)]
pub enum RetryPolicy {
    /// After the same delay each time.
    Fixed {
        count: u32,
        delay: u64,
        /// Whether each delay is shortened at random, to no less than a half.
        jitter: bool,
    },
    /// After a delay that doubles each time, up to a limit.
    Exponential {
        count: u32,
        delay: u64,
        jitter: bool,
        max_delay: Option<u64>,
    },
}

/// What becomes of the tests that run where too many have failed.
#[derive(Clone, Copy, Drop)]
pub enum TerminateMode {
    /// They run on.
    Wait,
    /// They are ended.
    Immediate,
}

/// After how many failures no test starts any more.
#[derive(Clone, Copy, Drop)]
pub enum MaxFail {
    /// All tests run, whatever fails.
    All,
    /// After so many failed tests.
    Count {
        max_fail: u32,
        terminate: TerminateMode,
    },
}

/// How many tests may run at a time.
#[derive(Clone, Copy, Drop)]
pub enum TestThreads {
    Count(u32),
}

/// What the tests of a run are.
#[derive(Clone, Copy, Debug, Drop)]
pub enum RunMode {
    Test,
    Benchmark,
}
