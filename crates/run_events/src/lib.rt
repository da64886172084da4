//! The plain data of a run: plan and settings, turns, messages, events and asks; results, statistics
//! and outcomes with their rules; and the two ends that a run speaks to, a `Reporter` that is told its
//! events and the `Children` that it asks for starts and signals. Every layer above speaks in these types.
#![tactic(auto)]

mod adds;
mod ask;
mod ask_list;
mod cancel;
mod children;
mod copies;
mod event_copies;
mod event_log;
mod events;
mod info;
mod input;
mod message;
mod outcome;
mod plan;
mod reporter;
mod request;
mod result;
mod retry_policy;
mod settings;
mod signal;
mod stats;
mod stress;
mod turn;
mod usual;
mod values;
mod variable_list;
mod variables;

pub use ask::{Ask, SignalAsk, StartAsk};
pub use ask_list::AskList;
pub use cancel::CancelReason;
pub use children::Children;
pub use event_log::EventLog;
pub use events::{
    AttemptFailedWillRetry, InfoAnswered, InfoStarted, InputEntered, JobControlled, ReporterEvent,
    RetryStarted, RunCancelled, RunFinished, RunFinishedStats, RunStarted, SubRunFinished,
    TestEvent, TestEventKind, TestFinished, TestStarted, TestsNotSeen,
};
pub use info::{InfoResponse, InfoSubject, UnitState, Waiting};
pub use input::{InputEvent, InputHandlerKind, InputHandlerStatus, Key, KeyCode, hears_key};
pub use message::{
    AttemptFailed, Message, ScriptFinish, ScriptSlow, ScriptStart, ScriptUnit, TestFinish,
    TestRetry, TestSkip, TestSlow, TestStart, TestUnit,
};
pub use outcome::{FinalRunStats, RunOutcome, RunStep};
pub use plan::{
    Group, GroupSlot, Hearing, LeakTimeout, Plan, PlanScript, PlanTest, RunHead, SlowTimeout,
    TestInstanceId, TestSlotAssignment,
};
pub use reporter::{ReportFault, Reporter};
pub use request::{ChildSignal, Request, ShutdownRequest, TermSignal, TerminateReason};
pub use result::{
    ChildExecutionOutput, ChildExit, ExecuteStatus, ExecutionResult, FailureStatus, FlakyResult,
    LeakTimeoutResult, ScriptEnv, SetupScriptExecuteStatus, SlowTimeoutResult,
    create_execution_result,
};
pub use retry_policy::{MaxFail, RetryPolicy, RunMode, TerminateMode, TestThreads};
pub use settings::Settings;
pub use signal::{Heard, Signal, SignalHandlerKind, hears_signal};
pub use stats::RunStats;
pub use stress::{StressIndex, StressProgress, StressRemaining, StressRunStats};
pub use turn::Turn;
pub use variables::{RunContext, ScriptVariables, TestVariables, Variables};
