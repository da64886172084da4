// Copies of plain values, which need no memory.
ghost use Rattle.std.specs.Prelude.{◌≡◌, IfOk};

use crate::{
    CancelReason, ChildExit, ChildSignal, ExecutionResult, FailureStatus, FinalRunStats,
    FlakyResult, Heard, Hearing, InfoStarted, InputEntered, InputEvent, InputHandlerKind,
    InputHandlerStatus, JobControlled, Key, KeyCode, LeakTimeout, LeakTimeoutResult, MaxFail,
    Request, RetryPolicy, RunCancelled, RunFinishedStats, RunMode, RunOutcome, RunStats, RunStep,
    ShutdownRequest, Signal, SignalAsk, SignalHandlerKind, SlowTimeout, SlowTimeoutResult,
    StressIndex, StressProgress, StressRemaining, StressRunStats, SubRunFinished, TermSignal,
    TerminateMode, TerminateReason, TestThreads, UnitState, Waiting,
};
use run_capture::{Duplicate, Mem};
use std::alloc::Global;

impl Duplicate for CancelReason {
    fn copy(&self, _alloc: Global) -> Mem<CancelReason> {
        Ok(*self)
    }
}

impl Duplicate for ChildExit {
    fn copy(&self, _alloc: Global) -> Mem<ChildExit> {
        Ok(*self)
    }
}

impl Duplicate for ChildSignal {
    fn copy(&self, _alloc: Global) -> Mem<ChildSignal> {
        Ok(*self)
    }
}

impl Duplicate for ExecutionResult {
    fn copy(&self, _alloc: Global) -> Mem<ExecutionResult> {
        Ok(*self)
    }
}

impl Duplicate for FailureStatus {
    fn copy(&self, _alloc: Global) -> Mem<FailureStatus> {
        Ok(*self)
    }
}

impl Duplicate for FinalRunStats {
    fn copy(&self, _alloc: Global) -> Mem<FinalRunStats> {
        Ok(*self)
    }
}

impl Duplicate for FlakyResult {
    fn copy(&self, _alloc: Global) -> Mem<FlakyResult> {
        Ok(*self)
    }
}

impl Duplicate for Heard {
    fn copy(&self, _alloc: Global) -> Mem<Heard> {
        Ok(*self)
    }
}

impl Duplicate for Hearing {
    fn copy(&self, _alloc: Global) -> Mem<Hearing> {
        Ok(*self)
    }
}

impl Duplicate for InfoStarted {
    fn copy(&self, _alloc: Global) -> Mem<InfoStarted> {
        Ok(*self)
    }
}

impl Duplicate for InputEntered {
    fn copy(&self, _alloc: Global) -> Mem<InputEntered> {
        Ok(*self)
    }
}

impl Duplicate for InputEvent {
    fn copy(&self, _alloc: Global) -> Mem<InputEvent> {
        Ok(*self)
    }
}

impl Duplicate for InputHandlerKind {
    fn copy(&self, _alloc: Global) -> Mem<InputHandlerKind> {
        Ok(*self)
    }
}

impl Duplicate for InputHandlerStatus {
    fn copy(&self, _alloc: Global) -> Mem<InputHandlerStatus> {
        Ok(*self)
    }
}

impl Duplicate for JobControlled {
    fn copy(&self, _alloc: Global) -> Mem<JobControlled> {
        Ok(*self)
    }
}

impl Duplicate for Key {
    fn copy(&self, _alloc: Global) -> Mem<Key> {
        Ok(*self)
    }
}

impl Duplicate for KeyCode {
    fn copy(&self, _alloc: Global) -> Mem<KeyCode> {
        Ok(*self)
    }
}

impl Duplicate for LeakTimeout {
    fn copy(&self, _alloc: Global) -> Mem<LeakTimeout> {
        Ok(*self)
    }
}

impl Duplicate for LeakTimeoutResult {
    fn copy(&self, _alloc: Global) -> Mem<LeakTimeoutResult> {
        Ok(*self)
    }
}

impl Duplicate for MaxFail {
    fn copy(&self, _alloc: Global) -> Mem<MaxFail> {
        Ok(*self)
    }
}

impl Duplicate for Request {
    fn copy(&self, _alloc: Global) -> Mem<Request> {
        Ok(*self)
    }
}

impl Duplicate for RetryPolicy {
    fn copy(&self, _alloc: Global) -> Mem<RetryPolicy> {
        Ok(*self)
    }
}

impl Duplicate for RunCancelled {
    fn copy(&self, _alloc: Global) -> Mem<RunCancelled> {
        Ok(*self)
    }
}

impl Duplicate for RunFinishedStats {
    fn copy(&self, _alloc: Global) -> Mem<RunFinishedStats> {
        Ok(*self)
    }
}

impl Duplicate for RunMode {
    fn copy(&self, _alloc: Global) -> Mem<RunMode> {
        Ok(*self)
    }
}

impl Duplicate for RunOutcome {
    fn copy(&self, _alloc: Global) -> Mem<RunOutcome> {
        Ok(*self)
    }
}

impl Duplicate for RunStats {
    fn copy(&self, _alloc: Global) -> Mem<RunStats> {
        Ok(*self)
    }
}

impl Duplicate for RunStep {
    fn copy(&self, _alloc: Global) -> Mem<RunStep> {
        Ok(*self)
    }
}

impl Duplicate for ShutdownRequest {
    fn copy(&self, _alloc: Global) -> Mem<ShutdownRequest> {
        Ok(*self)
    }
}

impl Duplicate for Signal {
    fn copy(&self, _alloc: Global) -> Mem<Signal> {
        Ok(*self)
    }
}

impl Duplicate for SignalAsk {
    fn copy(&self, _alloc: Global) -> Mem<SignalAsk> {
        Ok(*self)
    }
}

impl Duplicate for SignalHandlerKind {
    fn copy(&self, _alloc: Global) -> Mem<SignalHandlerKind> {
        Ok(*self)
    }
}

impl Duplicate for SlowTimeout {
    fn copy(&self, _alloc: Global) -> Mem<SlowTimeout> {
        Ok(*self)
    }
}

impl Duplicate for SlowTimeoutResult {
    fn copy(&self, _alloc: Global) -> Mem<SlowTimeoutResult> {
        Ok(*self)
    }
}

impl Duplicate for StressIndex {
    fn copy(&self, _alloc: Global) -> Mem<StressIndex> {
        Ok(*self)
    }
}

impl Duplicate for StressProgress {
    fn copy(&self, _alloc: Global) -> Mem<StressProgress> {
        Ok(*self)
    }
}

impl Duplicate for StressRemaining {
    fn copy(&self, _alloc: Global) -> Mem<StressRemaining> {
        Ok(*self)
    }
}

impl Duplicate for StressRunStats {
    fn copy(&self, _alloc: Global) -> Mem<StressRunStats> {
        Ok(*self)
    }
}

impl Duplicate for SubRunFinished {
    fn copy(&self, _alloc: Global) -> Mem<SubRunFinished> {
        Ok(*self)
    }
}

impl Duplicate for TermSignal {
    fn copy(&self, _alloc: Global) -> Mem<TermSignal> {
        Ok(*self)
    }
}

impl Duplicate for TerminateMode {
    fn copy(&self, _alloc: Global) -> Mem<TerminateMode> {
        Ok(*self)
    }
}

impl Duplicate for TerminateReason {
    fn copy(&self, _alloc: Global) -> Mem<TerminateReason> {
        Ok(*self)
    }
}

impl Duplicate for TestThreads {
    fn copy(&self, _alloc: Global) -> Mem<TestThreads> {
        Ok(*self)
    }
}

impl Duplicate for UnitState {
    fn copy(&self, _alloc: Global) -> Mem<UnitState> {
        Ok(*self)
    }
}

impl Duplicate for Waiting {
    fn copy(&self, _alloc: Global) -> Mem<Waiting> {
        Ok(*self)
    }
}
