// Results of attempts.
ghost use Rattle.std.specs.Prelude.{◌≡◌, IfOk};
ghost use Rattle.run_events.specs.Result.{is_success, execution_result};
ghost use Rattle.run_events.specs.declared.result.ChildExecutionOutput.TheVariants.{Output};

use crate::copies::both;
use run_capture::{ChildFdError, ChildOutput, Duplicate, List, Mem, Text};
use run_commands::{EnvMap, SetupScriptOutputError};
use std::alloc::Global;

/// How a child ended.
#[derive(Clone, Copy, Drop)]
pub enum ChildExit {
    /// It exited with a code.
    Code(i32),
    /// A signal ended it.
    Signal(i32),
}

/// How a failed child ended.
#[derive(Clone, Copy, Drop, PartialEq, Eq)]
pub enum FailureStatus {
    /// It exited with a code other than 0.
    ExitCode(i32),
    /// This signal ended it.
    Abort(i32),
}

/// What a leaked descriptor means for a test's result.
#[derive(Clone, Copy, Drop, PartialEq, Eq)]
pub enum LeakTimeoutResult {
    Pass,
    Fail,
}

/// What a test that ran too long is given as its result.
#[derive(Clone, Copy, Drop, PartialEq, Eq)]
pub enum SlowTimeoutResult {
    Pass,
    Fail,
}

/// What a test that passed only after a retry is given as its result.
#[derive(Clone, Copy, Drop, PartialEq, Eq)]
pub enum FlakyResult {
    Pass,
    Fail,
}

/// The result of one attempt.
#[derive(Clone, Copy, Drop, PartialEq, Eq)]
pub enum ExecutionResult {
    /// It exited with code 0.
    Pass,
    /// It exited with code 0, and left a descriptor open.
    Leak {
        result: LeakTimeoutResult,
    },
    /// It failed.
    Fail {
        failure_status: FailureStatus,
        leaked: bool,
    },
    /// It could not be started, waited for or read.
    ExecFail,
    /// It ran too long and was ended.
    Timeout {
        result: SlowTimeoutResult,
    },
}

/// What came of the child of an attempt.
#[derive(Drop)]
pub enum ChildExecutionOutput {
    /// It was started: what it wrote, and the faults at its descriptors and of its wait, in order.
    Output {
        output: ChildOutput,
        errors: List<ChildFdError>,
    },
    /// It could not be started, with the text of the error.
    StartError(Text),
}

fn copy_output(
    alloc: Global,
    output: &ChildOutput,
    errors: &List<ChildFdError>,
) -> Mem<ChildExecutionOutput>
    ensures { IfOk result (λ o. o ≡ Output output.now errors.now) }
{
    let (output, errors) = both(output.copy(alloc), errors.copy(alloc))?;
    Ok(ChildExecutionOutput::Output { output, errors })
}

impl Duplicate for ChildExecutionOutput {
    fn copy(&self, alloc: Global) -> Mem<ChildExecutionOutput> {
        match self {
            ChildExecutionOutput::Output { output, errors } => copy_output(alloc, output, errors),
            ChildExecutionOutput::StartError(error) => {
                Ok(ChildExecutionOutput::StartError(error.copy(alloc)?))
            }
        }
    }
}

/// What came of a setup script's environment file.
#[derive(Drop)]
pub enum ScriptEnv {
    /// It wasn't read, since the script failed.
    Unread,
    /// It gave these variables.
    Variables(EnvMap),
    /// It gave none, and the script failed for it.
    Fault(SetupScriptOutputError),
}

impl Duplicate for ScriptEnv {
    fn copy(&self, alloc: Global) -> Mem<ScriptEnv> {
        match self {
            ScriptEnv::Unread => Ok(ScriptEnv::Unread),
            ScriptEnv::Variables(map) => Ok(ScriptEnv::Variables(map.copy(alloc)?)),
            ScriptEnv::Fault(fault) => Ok(ScriptEnv::Fault(*fault)),
        }
    }
}

/// The one attempt of a setup script: moments and times in nanoseconds of the run's clock.
#[derive(Drop)]
pub struct SetupScriptExecuteStatus {
    pub result: ExecutionResult,
    /// What came of its child.
    pub output: ChildExecutionOutput,
    /// Whether it was reported slow.
    pub slow: bool,
    /// When it was let go.
    pub start: u64,
    /// How long it took, without pauses.
    pub time: u64,
    /// What came of its environment file.
    pub env: ScriptEnv,
}

impl Duplicate for SetupScriptExecuteStatus {
    fn copy(&self, alloc: Global) -> Mem<SetupScriptExecuteStatus> {
        let (output, env) = both(self.output.copy(alloc), self.env.copy(alloc))?;
        Ok(SetupScriptExecuteStatus {
            result: self.result,
            output,
            slow: self.slow,
            start: self.start,
            time: self.time,
            env,
        })
    }
}

/// One attempt of a test: moments and times in nanoseconds of the run's clock.
#[derive(Drop)]
pub struct ExecuteStatus {
    /// Which attempt, from 1.
    pub attempt: u32,
    /// How many attempts the test has at most.
    pub attempts: u32,
    /// The delay before this attempt.
    pub delay: u64,
    pub result: ExecutionResult,
    /// What came of its child.
    pub output: ChildExecutionOutput,
    /// Whether it was reported slow.
    pub slow: bool,
    /// When it was let go.
    pub start: u64,
    /// How long it took, without pauses.
    pub time: u64,
}

impl Duplicate for ExecuteStatus {
    fn copy(&self, alloc: Global) -> Mem<ExecuteStatus> {
        let output = self.output.copy(alloc)?;
        Ok(ExecuteStatus {
            attempt: self.attempt,
            attempts: self.attempts,
            delay: self.delay,
            result: self.result,
            output,
            slow: self.slow,
            start: self.start,
            time: self.time,
        })
    }
}

impl ExecutionResult {
    /// Whether an attempt with this result passed.
    pub fn is_success(self) -> bool
        ensures { result ≡ is_success self }
    {
        matches!(
            self,
            ExecutionResult::Pass
                | ExecutionResult::Leak {
                    result: LeakTimeoutResult::Pass
                }
                | ExecutionResult::Timeout {
                    result: SlowTimeoutResult::Pass
                }
        )
    }
}

/// The result of an attempt whose child ended so, or could not be started, with the faults at its
/// descriptors or of its wait, by whether it left a descriptor open and what that is to mean.
pub fn create_execution_result(
    exit: Option<ChildExit>,
    errors: &[ChildFdError],
    leaked: bool,
    leak: LeakTimeoutResult,
) -> ExecutionResult
    ensures { result ≡ execution_result exit errors.now leaked leak }
{
    let Some(exit) = exit else {
        return ExecutionResult::ExecFail;
    };
    if !errors.is_empty() {
        return ExecutionResult::ExecFail;
    }
    match exit {
        ChildExit::Code(0) if leaked => ExecutionResult::Leak { result: leak },
        ChildExit::Code(0) => ExecutionResult::Pass,
        ChildExit::Code(code) => ExecutionResult::Fail {
            failure_status: FailureStatus::ExitCode(code),
            leaked,
        },
        ChildExit::Signal(signal) => ExecutionResult::Fail {
            failure_status: FailureStatus::Abort(signal),
            leaked,
        },
    }
}
