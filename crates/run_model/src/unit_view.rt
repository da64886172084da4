// A unit as the tables see it.
use crate::Phase;
use run_capture::{ChildAccumulator, List, Shared, Text};
use run_clock::{PausableSleep, StopwatchStart};
use run_events::{
    ChildExit, ExecuteStatus, ExecutionResult, FlakyResult, LeakTimeout, Request, RetryPolicy,
    RunContext, ScriptEnv, ScriptUnit, SlowTimeout, TerminateReason, TestSlotAssignment, TestUnit,
};

/// Which streams of a child are captured.
#[derive(Clone, Copy, Drop)]
pub enum CapturedStreams {
    /// Each by itself, where it is.
    Apart { stdout: bool, stderr: bool },
    /// Both as one.
    Combined,
}

/// By which settings each attempt of a unit runs.
#[derive(Clone, Copy, Drop)]
pub struct AttemptTerms {
    pub streams: CapturedStreams,
    /// When it is slow, and what comes of that.
    pub slow: SlowTimeout,
    /// How long the streams of its ended child are waited for.
    pub leak: LeakTimeout,
    /// It is never slow: it runs under an interceptor.
    pub disables_timeouts: bool,
    /// The streams of its ended child aren't waited for: it runs under an interceptor.
    pub skips_leak_detection: bool,
    /// Its environment file is read after a good end of its child: it is that of a setup script.
    pub reads_env: bool,
    /// How often it is tried again where it fails, and after which delays.
    pub retries: RetryPolicy,
    /// Whether its child, where it runs, is asked to stop where the run stops.
    pub stops: bool,
}

/// What is the same for the children of all tests of a run, or of all its setup scripts.
pub struct Surroundings {
    pub run: Shared<RunContext>,
    /// The words of the interceptor, which stand before each command.
    pub wrapper: List<Text>,
    /// Whether each child has a process group of its own.
    pub group: bool,
    /// Whether each child reads the program's own standard input.
    pub stdin: bool,
}

// A call of its own, which keeps the proofs of all that hold a unit small.
impl Drop for Surroundings {
    fn drop(self) {
        let Surroundings {
            run: _,
            wrapper: _,
            group: _,
            stdin: _,
        } = self;
    }
}

/// The time of the current attempt, by the run's clock.
#[derive(Drop)]
pub struct Timers {
    /// It runs from where the attempt was let go.
    pub stopwatch: StopwatchStart,
    /// It is due where the attempt is slow, for the first time or again; none where it can't be.
    pub slow: Option<PausableSleep>,
    /// It is due where the time to end by itself, the wait for the streams, or the delay before a retry is over; none
    /// outside of these.
    pub wait: Option<PausableSleep>,
    /// How long that was waited for: it runs from where that timer was set.
    pub waiting: StopwatchStart,
    /// How often it was slow.
    pub slow_count: u32,
}

/// A test as a unit.
#[derive(Drop)]
pub struct TestRole {
    pub test: TestUnit,
    /// The slot that it holds until it is over.
    pub slot: TestSlotAssignment,
    /// What a pass after a failed attempt counts as.
    pub flaky: FlakyResult,
    /// The variables that its setup scripts handed on, with their values.
    pub handed: List<(Text, Text)>,
}

/// A setup script as a unit.
#[derive(Drop)]
pub struct ScriptRole {
    pub script: ScriptUnit,
    /// Where it writes the variables that it hands on.
    pub env_path: Text,
}

/// What a unit is.
pub enum UnitRole {
    Test(TestRole),
    Script(ScriptRole),
}

// A call of its own, which keeps the proofs of all that hold a unit small.
impl Drop for UnitRole {
    fn drop(self) {
        match self {
            UnitRole::Test(_) => {}
            UnitRole::Script(_) => {}
        }
    }
}

/// A setup script, or a test with its attempts, as the unit table sees it.
pub struct UnitView {
    pub role: UnitRole,
    /// Of a test the runner of its platform, where there is one, and then its own words.
    pub command: List<Text>,
    pub around: Shared<Surroundings>,
    pub terms: AttemptTerms,
    pub phase: Phase,
    /// Its current attempt, from 1; between two attempts it is the failed one.
    pub attempt: u32,
    /// The delay before its current attempt, and between two attempts that before the next; 0 before the first. In
    /// nanoseconds.
    pub delay: u64,
    pub timers: Timers,
    /// The process id of its child, from where that started.
    pub pid: u32,
    /// Why its child was asked to end, while it is given time for that.
    pub ending: TerminateReason,
    /// The requests that wait for it, the oldest first.
    pub line: List<Request>,
    /// When it took its latest turn.
    pub latest: u64,
    /// What was captured of its child so far.
    pub capture: ChildAccumulator,
    /// How its child ended, while its attempt goes on after that; none where the wait for it failed.
    pub exit: Option<ChildExit>,
    /// The result by that and by what was captured until then, while its streams are waited for: none after a failed
    /// wait that didn't time out.
    pub exit_result: Option<ExecutionResult>,
    /// Whether it left a captured stream open for too long, while its environment file is to be read.
    pub leaked: bool,
    /// What came of its environment file: it is unread of a test.
    pub env: ScriptEnv,
    /// The attempts that have ended, in order.
    pub statuses: List<ExecuteStatus>,
}

// A call of its own, which keeps the proofs of all that hold a unit small.
impl Drop for UnitView {
    fn drop(self) {
        let UnitView {
            role: _,
            command: _,
            around: _,
            terms: _,
            phase: _,
            attempt: _,
            delay: _,
            timers: _,
            pid: _,
            ending: _,
            line: _,
            latest: _,
            capture: _,
            exit: _,
            exit_result: _,
            leaked: _,
            env: _,
            statuses: _,
        } = self;
    }
}
