// What a unit tells the dispatcher.
use crate::copies::both;
use crate::{
    ExecuteStatus, FlakyResult, SetupScriptExecuteStatus, StressIndex, TestInstanceId,
    TestSlotAssignment,
};
use run_capture::{Boxed, Duplicate, List, Mem, Text};
use std::alloc::Global;

/// A test, as its messages and events name it. The unit's number isn't printed.
#[derive(Drop)]
pub struct TestUnit {
    pub unit: u32,
    pub id: TestInstanceId,
    /// In a stress run alone.
    pub stress_index: Option<StressIndex>,
}

impl Duplicate for TestUnit {
    fn copy(&self, alloc: Global) -> Mem<TestUnit> {
        let id = self.id.copy(alloc)?;
        Ok(TestUnit {
            unit: self.unit,
            id,
            stress_index: self.stress_index,
        })
    }
}

/// A setup script, as its messages and events name it.
#[derive(Drop)]
pub struct ScriptUnit {
    pub unit: u32,
    pub id: Text,
    /// Its place among the scripts, from 0.
    pub index: u32,
    /// How many scripts there are.
    pub total: u32,
    /// Whether one of its streams isn't captured, by its own settings.
    pub no_capture: bool,
    /// In a stress run alone.
    pub stress_index: Option<StressIndex>,
}

impl Duplicate for ScriptUnit {
    fn copy(&self, alloc: Global) -> Mem<ScriptUnit> {
        let id = self.id.copy(alloc)?;
        Ok(ScriptUnit {
            unit: self.unit,
            id,
            index: self.index,
            total: self.total,
            no_capture: self.no_capture,
            stress_index: self.stress_index,
        })
    }
}

/// A script is about to start.
pub struct ScriptStart {
    pub script: ScriptUnit,
    pub command: List<Text>,
}

// A call of its own, which keeps the proofs of all that hold a start small.
impl Drop for ScriptStart {
    fn drop(self) {
        let ScriptStart {
            script: _,
            command: _,
        } = self;
    }
}

impl Duplicate for ScriptStart {
    fn copy(&self, alloc: Global) -> Mem<ScriptStart> {
        let (script, command) = both(self.script.copy(alloc), self.command.copy(alloc))?;
        Ok(ScriptStart { script, command })
    }
}

/// A script has run for so long, in nanoseconds, and is ended for it or not.
pub struct ScriptSlow {
    pub script: ScriptUnit,
    pub elapsed_slow: u64,
    pub terminates: bool,
}

// A call of its own, which keeps the proofs of all that hold a report small.
impl Drop for ScriptSlow {
    fn drop(self) {
        let ScriptSlow {
            script: _,
            elapsed_slow: _,
            terminates: _,
        } = self;
    }
}

impl Duplicate for ScriptSlow {
    fn copy(&self, alloc: Global) -> Mem<ScriptSlow> {
        let script = self.script.copy(alloc)?;
        Ok(ScriptSlow {
            script,
            elapsed_slow: self.elapsed_slow,
            terminates: self.terminates,
        })
    }
}

/// A script is done.
pub struct ScriptFinish {
    pub script: ScriptUnit,
    pub status: SetupScriptExecuteStatus,
}

// A call of its own, which keeps the proofs of all that hold a finish small.
impl Drop for ScriptFinish {
    fn drop(self) {
        let ScriptFinish {
            script: _,
            status: _,
        } = self;
    }
}

impl Duplicate for ScriptFinish {
    fn copy(&self, alloc: Global) -> Mem<ScriptFinish> {
        let (script, status) = both(self.script.copy(alloc), self.status.copy(alloc))?;
        Ok(ScriptFinish { script, status })
    }
}

/// A test is about to start, in this slot.
pub struct TestStart {
    pub test: TestUnit,
    pub command: List<Text>,
    pub slot: TestSlotAssignment,
}

// A call of its own, which keeps the proofs of all that hold a start small.
impl Drop for TestStart {
    fn drop(self) {
        let TestStart {
            test: _,
            command: _,
            slot: _,
        } = self;
    }
}

impl Duplicate for TestStart {
    fn copy(&self, alloc: Global) -> Mem<TestStart> {
        let start = both(self.test.copy(alloc), self.slot.copy(alloc));
        let ((test, slot), command) = both(start, self.command.copy(alloc))?;
        Ok(TestStart {
            test,
            command,
            slot,
        })
    }
}

/// An attempt of a test has run for so long, in nanoseconds, and is ended for it or not.
pub struct TestSlow {
    pub test: TestUnit,
    /// Which attempt, from 1.
    pub attempt: u32,
    /// How many attempts the test has at most.
    pub attempts: u32,
    pub elapsed_slow: u64,
    pub terminates: bool,
}

// A call of its own, which keeps the proofs of all that hold a report small.
impl Drop for TestSlow {
    fn drop(self) {
        let TestSlow {
            test: _,
            attempt: _,
            attempts: _,
            elapsed_slow: _,
            terminates: _,
        } = self;
    }
}

impl Duplicate for TestSlow {
    fn copy(&self, alloc: Global) -> Mem<TestSlow> {
        let test = self.test.copy(alloc)?;
        Ok(TestSlow {
            test,
            attempt: self.attempt,
            attempts: self.attempts,
            elapsed_slow: self.elapsed_slow,
            terminates: self.terminates,
        })
    }
}

/// An attempt of a test failed, and the next one comes after this delay, in nanoseconds.
pub struct AttemptFailed {
    pub test: TestUnit,
    pub status: ExecuteStatus,
    pub delay_next: u64,
}

// A call of its own, which keeps the proofs of all that hold a failure small.
impl Drop for AttemptFailed {
    fn drop(self) {
        let AttemptFailed {
            test: _,
            status: _,
            delay_next: _,
        } = self;
    }
}

impl Duplicate for AttemptFailed {
    fn copy(&self, alloc: Global) -> Mem<AttemptFailed> {
        let (test, status) = both(self.test.copy(alloc), self.status.copy(alloc))?;
        Ok(AttemptFailed {
            test,
            status,
            delay_next: self.delay_next,
        })
    }
}

/// A further attempt of a test is about to start.
pub struct TestRetry {
    pub start: TestStart,
    pub attempt: u32,
    pub attempts: u32,
}

// A call of its own, which keeps the proofs of all that hold a retry small.
impl Drop for TestRetry {
    fn drop(self) {
        let TestRetry {
            start: _,
            attempt: _,
            attempts: _,
        } = self;
    }
}

impl Duplicate for TestRetry {
    fn copy(&self, alloc: Global) -> Mem<TestRetry> {
        let start = self.start.copy(alloc)?;
        Ok(TestRetry {
            start,
            attempt: self.attempt,
            attempts: self.attempts,
        })
    }
}

/// A test is done, after these attempts. What a pass after a failed attempt counts as isn't printed.
pub struct TestFinish {
    pub test: TestUnit,
    pub statuses: List<ExecuteStatus>,
    pub flaky: FlakyResult,
}

// A call of its own, which keeps the proofs of all that hold a finish small.
impl Drop for TestFinish {
    fn drop(self) {
        let TestFinish {
            test: _,
            statuses: _,
            flaky: _,
        } = self;
    }
}

impl Duplicate for TestFinish {
    fn copy(&self, alloc: Global) -> Mem<TestFinish> {
        let (test, statuses) = both(self.test.copy(alloc), self.statuses.copy(alloc))?;
        Ok(TestFinish {
            test,
            statuses,
            flaky: self.flaky,
        })
    }
}

/// A test doesn't match, and is skipped for this reason.
pub struct TestSkip {
    pub test: TestUnit,
    pub reason: Text,
}

// A call of its own, which keeps the proofs of all that hold a skip small.
impl Drop for TestSkip {
    fn drop(self) {
        let TestSkip { test: _, reason: _ } = self;
    }
}

impl Duplicate for TestSkip {
    fn copy(&self, alloc: Global) -> Mem<TestSkip> {
        let (test, reason) = both(self.test.copy(alloc), self.reason.copy(alloc))?;
        Ok(TestSkip { test, reason })
    }
}

/// A message of a unit to the dispatcher. All messages stand in one queue.
#[derive(Drop)]
pub enum Message {
    ScriptStart(Boxed<ScriptStart>),
    ScriptSlow(Boxed<ScriptSlow>),
    ScriptFinish(Boxed<ScriptFinish>),
    Start(Boxed<TestStart>),
    Slow(Boxed<TestSlow>),
    AttemptFailed(Boxed<AttemptFailed>),
    Retry(Boxed<TestRetry>),
    Finish(Boxed<TestFinish>),
    Skip(Boxed<TestSkip>),
}

impl Duplicate for Message {
    fn copy(&self, alloc: Global) -> Mem<Message> {
        match self {
            Message::ScriptStart(message) => message.copy(alloc).map(Message::ScriptStart),
            Message::ScriptSlow(message) => message.copy(alloc).map(Message::ScriptSlow),
            Message::ScriptFinish(message) => message.copy(alloc).map(Message::ScriptFinish),
            Message::Start(message) => message.copy(alloc).map(Message::Start),
            Message::Slow(message) => message.copy(alloc).map(Message::Slow),
            Message::AttemptFailed(message) => message.copy(alloc).map(Message::AttemptFailed),
            Message::Retry(message) => message.copy(alloc).map(Message::Retry),
            Message::Finish(message) => message.copy(alloc).map(Message::Finish),
            Message::Skip(message) => message.copy(alloc).map(Message::Skip),
        }
    }
}
