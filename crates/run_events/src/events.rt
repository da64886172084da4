// What a reporter is told. `running` is the number of tests told started and not told finished, and
// `scripts_running` that of setup scripts; they count the event's own change, as `stats` does.
ghost use Rattle.std.specs.Prelude.{◌≡◌, IfOk};

use crate::copies::both;
use crate::{
    AttemptFailed, InfoResponse, RunStats, ScriptFinish, ScriptSlow, ScriptStart, StressProgress,
    StressRunStats, TestFinish, TestInstanceId, TestRetry, TestSkip, TestSlow, TestStart,
};
use run_capture::{Duplicate, List, Mem, Text};
use run_commands::StressCondition;
use std::alloc::Global;
use uuid::Uuid;

/// The run started.
pub struct RunStarted {
    pub run_id: Uuid,
    /// How many tests the plan has.
    pub tests: u32,
    /// The words with which the runner was called.
    pub args: List<Text>,
    pub profile: Text,
    /// In a stress run alone.
    pub stress: Option<StressCondition>,
}

// A call of its own, which keeps the proofs of all that hold a run's start small.
impl Drop for RunStarted {
    fn drop(self) {
        let RunStarted {
            run_id: _,
            tests: _,
            args: _,
            profile: _,
            stress: _,
        } = self;
    }
}

impl Duplicate for RunStarted {
    fn copy(&self, alloc: Global) -> Mem<RunStarted> {
        let words = both(self.args.copy(alloc), self.profile.copy(alloc));
        let ((args, profile), stress) = both(words, self.stress.copy(alloc))?;
        Ok(RunStarted {
            run_id: self.run_id,
            tests: self.tests,
            args,
            profile,
            stress,
        })
    }
}

/// A sub-run of a stress run ended. Its own time is in nanoseconds.
#[derive(Clone, Copy, Drop)]
pub struct SubRunFinished {
    pub progress: StressProgress,
    pub sub_elapsed: u64,
    pub stats: RunStats,
}

/// A test started.
#[derive(Drop)]
pub struct TestStarted {
    pub start: TestStart,
    pub running: u32,
    pub stats: RunStats,
}

impl Duplicate for TestStarted {
    fn copy(&self, alloc: Global) -> Mem<TestStarted> {
        let start = self.start.copy(alloc)?;
        Ok(TestStarted {
            start,
            running: self.running,
            stats: self.stats,
        })
    }
}

/// An attempt of a test failed, and a further one follows.
#[derive(Drop)]
pub struct AttemptFailedWillRetry {
    pub failed: AttemptFailed,
    pub running: u32,
}

impl Duplicate for AttemptFailedWillRetry {
    fn copy(&self, alloc: Global) -> Mem<AttemptFailedWillRetry> {
        let failed = self.failed.copy(alloc)?;
        Ok(AttemptFailedWillRetry {
            failed,
            running: self.running,
        })
    }
}

/// A further attempt of a test started.
#[derive(Drop)]
pub struct RetryStarted {
    pub retry: TestRetry,
    pub running: u32,
}

impl Duplicate for RetryStarted {
    fn copy(&self, alloc: Global) -> Mem<RetryStarted> {
        let retry = self.retry.copy(alloc)?;
        Ok(RetryStarted {
            retry,
            running: self.running,
        })
    }
}

/// A test finished.
#[derive(Drop)]
pub struct TestFinished {
    pub finish: TestFinish,
    pub running: u32,
    pub stats: RunStats,
}

impl Duplicate for TestFinished {
    fn copy(&self, alloc: Global) -> Mem<TestFinished> {
        let finish = self.finish.copy(alloc)?;
        Ok(TestFinished {
            finish,
            running: self.running,
            stats: self.stats,
        })
    }
}

/// An information round started, with so many units asked.
#[derive(Clone, Copy, Drop)]
pub struct InfoStarted {
    pub total: u32,
    pub running: u32,
    pub stats: RunStats,
}

/// A unit answered, as the one with this index, from 0, of so many.
pub struct InfoAnswered {
    pub response: InfoResponse,
    pub index: u32,
    pub total: u32,
}

// A call of its own, which keeps the proofs of all that hold an answer small.
impl Drop for InfoAnswered {
    fn drop(self) {
        let InfoAnswered {
            response: _,
            index: _,
            total: _,
        } = self;
    }
}

impl Duplicate for InfoAnswered {
    fn copy(&self, alloc: Global) -> Mem<InfoAnswered> {
        let response = self.response.copy(alloc)?;
        Ok(InfoAnswered {
            response,
            index: self.index,
            total: self.total,
        })
    }
}

/// Counts as they are.
#[derive(Clone, Copy, Drop)]
pub struct InputEntered {
    pub running: u32,
    pub stats: RunStats,
}

/// The run begins to be cancelled, for the reason in the statistics.
#[derive(Clone, Copy, Drop)]
pub struct RunCancelled {
    pub running: u32,
    pub scripts_running: u32,
    pub stats: RunStats,
}

/// The run was stopped, or goes on.
#[derive(Clone, Copy, Drop)]
pub struct JobControlled {
    pub running: u32,
    pub scripts_running: u32,
}

/// The statistics of a run that is over: its own, or in a stress run those of its sub-runs.
#[derive(Clone, Copy, Drop)]
pub enum RunFinishedStats {
    Single(RunStats),
    Stress(StressRunStats),
}

/// The tests that were expected and not seen: the first of them, in order, and how many they are.
#[derive(Drop)]
pub struct TestsNotSeen {
    pub not_seen: List<TestInstanceId>,
    pub total_not_seen: u64,
}

impl Duplicate for TestsNotSeen {
    fn copy(&self, alloc: Global) -> Mem<TestsNotSeen> {
        let not_seen = self.not_seen.copy(alloc)?;
        Ok(TestsNotSeen {
            not_seen,
            total_not_seen: self.total_not_seen,
        })
    }
}

/// The run finished.
#[derive(Drop)]
pub struct RunFinished {
    pub stats: RunFinishedStats,
    /// In a rerun alone.
    pub not_seen: Option<TestsNotSeen>,
}

impl Duplicate for RunFinished {
    fn copy(&self, alloc: Global) -> Mem<RunFinished> {
        let not_seen = self.not_seen.copy(alloc)?;
        Ok(RunFinished {
            stats: self.stats,
            not_seen,
        })
    }
}

/// What an event says.
pub enum TestEventKind {
    RunStarted(RunStarted),
    StressSubRunStarted(StressProgress),
    StressSubRunFinished(SubRunFinished),
    SetupScriptStarted(ScriptStart),
    SetupScriptSlow(ScriptSlow),
    SetupScriptFinished(ScriptFinish),
    TestStarted(TestStarted),
    TestSlow(TestSlow),
    TestAttemptFailedWillRetry(AttemptFailedWillRetry),
    TestRetryStarted(RetryStarted),
    TestFinished(TestFinished),
    TestSkipped(TestSkip),
    InfoStarted(InfoStarted),
    InfoResponse(InfoAnswered),
    /// So many units gave no answer.
    InfoFinished { missing: u32 },
    InputEnter(InputEntered),
    RunBeginCancel(RunCancelled),
    RunBeginKill(RunCancelled),
    RunPaused(JobControlled),
    RunContinued(JobControlled),
    RunFinished(RunFinished),
}

// A call of its own, which keeps the proofs of all that hold an event small.
impl Drop for TestEventKind {
    fn drop(self) {
        match self {
            TestEventKind::RunStarted(_) => {}
            TestEventKind::StressSubRunStarted(_) => {}
            TestEventKind::StressSubRunFinished(_) => {}
            TestEventKind::SetupScriptStarted(_) => {}
            TestEventKind::SetupScriptSlow(_) => {}
            TestEventKind::SetupScriptFinished(_) => {}
            TestEventKind::TestStarted(_) => {}
            TestEventKind::TestSlow(_) => {}
            TestEventKind::TestAttemptFailedWillRetry(_) => {}
            TestEventKind::TestRetryStarted(_) => {}
            TestEventKind::TestFinished(_) => {}
            TestEventKind::TestSkipped(_) => {}
            TestEventKind::InfoStarted(_) => {}
            TestEventKind::InfoResponse(_) => {}
            TestEventKind::InfoFinished { missing: _ } => {}
            TestEventKind::InputEnter(_) => {}
            TestEventKind::RunBeginCancel(_) => {}
            TestEventKind::RunBeginKill(_) => {}
            TestEventKind::RunPaused(_) => {}
            TestEventKind::RunContinued(_) => {}
            TestEventKind::RunFinished(_) => {}
        }
    }
}

/// An event of the run, at a moment of its clock and after so much active time, in nanoseconds.
#[derive(Drop)]
pub struct TestEvent {
    pub clock: u64,
    pub elapsed: u64,
    pub kind: TestEventKind,
}

impl Duplicate for TestEvent {
    fn copy(&self, alloc: Global) -> Mem<TestEvent> {
        let kind = self.kind.copy(alloc)?;
        Ok(TestEvent {
            clock: self.clock,
            elapsed: self.elapsed,
            kind,
        })
    }
}

/// What a reporter is told.
#[derive(Drop)]
pub enum ReporterEvent {
    /// A display wants to draw anew.
    Tick,
    Test(TestEvent),
}

impl Duplicate for ReporterEvent {
    fn copy(&self, alloc: Global) -> Mem<ReporterEvent> {
        match self {
            ReporterEvent::Tick => Ok(ReporterEvent::Tick),
            ReporterEvent::Test(event) => Ok(ReporterEvent::Test(event.copy(alloc)?)),
        }
    }
}
