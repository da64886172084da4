// What a unit is doing, as it answers when it is asked.
use crate::copies::both;
use crate::{
    ChildExecutionOutput, ExecutionResult, ScriptUnit, TermSignal, TerminateReason, TestUnit,
};
use run_capture::{Duplicate, Mem};
use run_commands::SetupScriptOutputError;
use std::alloc::Global;

/// How long something has been waited for and how long it still is, in nanoseconds.
#[derive(Clone, Copy, Drop)]
pub struct Waiting {
    pub waiting: u64,
    /// The period less the time waited, at least 0.
    pub remaining: u64,
}

/// What a unit is doing. Times are in nanoseconds; `time` is that of its attempt so far.
#[derive(Clone, Copy, Drop)]
pub enum UnitState {
    /// Its child runs.
    Running {
        pid: u32,
        time: u64,
        /// Where it was reported slow: after which time.
        slow_after: Option<u64>,
    },
    /// Its child is being ended.
    Terminating {
        pid: u32,
        time: u64,
        reason: TerminateReason,
        method: TermSignal,
        waiting: Waiting,
    },
    /// Its child has ended, and open descriptors are waited for.
    Exiting {
        pid: u32,
        time: u64,
        slow_after: Option<u64>,
        /// The result so far; none after a failed wait that didn't time out.
        result: Option<ExecutionResult>,
        waiting: Waiting,
    },
    /// Its attempt has ended.
    Exited {
        result: ExecutionResult,
        time: u64,
        slow_after: Option<u64>,
        /// What was wrong with its environment file, where that is read and something was.
        fault: Option<SetupScriptOutputError>,
    },
    /// Its attempt failed, and the next one is waited for.
    Delay {
        result: ExecutionResult,
        slow: bool,
        waiting: Waiting,
    },
}

/// Which unit answers.
#[derive(Drop)]
pub enum InfoSubject {
    /// A test, at this attempt of so many at most.
    Test {
        test: TestUnit,
        attempt: u32,
        attempts: u32,
    },
    Script(ScriptUnit),
}

impl Duplicate for InfoSubject {
    fn copy(&self, alloc: Global) -> Mem<InfoSubject> {
        match self {
            InfoSubject::Test {
                test,
                attempt,
                attempts,
            } => Ok(InfoSubject::Test {
                test: test.copy(alloc)?,
                attempt: *attempt,
                attempts: *attempts,
            }),
            InfoSubject::Script(script) => Ok(InfoSubject::Script(script.copy(alloc)?)),
        }
    }
}

/// A unit's answer: what it is doing, and what its child wrote so far.
#[derive(Drop)]
pub struct InfoResponse {
    pub subject: InfoSubject,
    pub state: UnitState,
    pub output: ChildExecutionOutput,
}

impl Duplicate for InfoResponse {
    fn copy(&self, alloc: Global) -> Mem<InfoResponse> {
        let (subject, output) = both(self.subject.copy(alloc), self.output.copy(alloc))?;
        Ok(InfoResponse {
            subject,
            state: self.state,
            output,
        })
    }
}
