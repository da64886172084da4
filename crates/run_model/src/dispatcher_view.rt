// A dispatcher as its table sees it.
use crate::RerunContext;
use run_clock::{PausableSleep, StopwatchStart};
use run_events::{Hearing, MaxFail, Request, RunOutcome, RunStarted, RunStats};

/// What a dispatcher asks of the rest of the run, to say which turns are enabled.
#[derive(Clone, Copy, Drop)]
pub struct Facts {
    /// How many units are live: they were let go and aren't over.
    pub live: u32,
    /// Whether one of them has the request of the open round in its line.
    pub held: bool,
    /// Whether an answer of the open round was given that isn't told.
    pub answer_waits: bool,
    /// Whether a message was sent that isn't delivered.
    pub message_waits: bool,
    /// Whether each script and test was admitted and is over, and each message was delivered.
    pub complete: bool,
    /// Whether the reporter refused an event.
    pub refused: bool,
}

/// What a dispatcher counts in a sub-run.
#[derive(Clone, Copy, Drop)]
pub struct Tally {
    /// How many tests were told started and not told finished.
    pub running: u32,
    /// How many setup scripts were told started and not told finished.
    pub scripts_running: u32,
    /// The statistics, with the reason for which the run is cancelled.
    pub stats: RunStats,
}

/// By which rules a run is cancelled.
#[derive(Clone, Copy, Drop)]
pub struct CancelRules {
    pub hearing: Hearing,
    pub max_fail: MaxFail,
    /// How long a sub-run may take, in nanoseconds.
    pub global_timeout: Option<u64>,
}

/// What came by now that cancels a run, or is to come.
#[derive(Drop)]
pub struct Causes {
    /// How many shutdown signals were heard: two at most.
    pub signals: u32,
    /// Whether the run was cancelled since the reporter refused an event.
    pub reported: bool,
    /// It is due where a sub-run has run out of its time; none where it has none, or was due.
    pub global: Option<PausableSleep>,
}

/// The rounds in which the live units are stopped, or asked what they are doing.
#[derive(Drop)]
pub struct Rounds {
    /// How many there were.
    pub count: u32,
    /// What the open one asks: a stop or a query; none where none is open.
    pub asks: Option<Request>,
    /// When the latest one began or told its latest answer.
    pub since: u64,
    /// How many units that one asked.
    pub total: u32,
    /// How many answers it told.
    pub told: u32,
}

/// The sub-runs that have ended.
#[derive(Clone, Copy, Drop)]
pub struct SubRuns {
    pub ended: u32,
    /// How many of them failed.
    pub failed: u32,
    /// Whether one of them was cancelled.
    pub cancelled: bool,
    /// Their outcomes put together: none where none has ended.
    pub outcome: Option<RunOutcome>,
}

/// A dispatcher, as its table sees it.
#[derive(Drop)]
pub struct DispatcherView {
    /// What is told of the run as it starts.
    pub head: RunStarted,
    pub rules: CancelRules,
    /// The statistics with which a sub-run begins.
    pub initial: RunStats,
    /// Whether a sub-run has begun and not ended.
    pub on: bool,
    /// Whether the run has ended.
    pub over: bool,
    pub causes: Causes,
    pub tally: Tally,
    /// The run's active time.
    pub watch: StopwatchStart,
    pub rounds: Rounds,
    pub sub_runs: SubRuns,
    /// The active time of the sub-run: from the end of the one before it.
    pub sub_run_watch: StopwatchStart,
    pub rerun: RerunContext,
    /// When it heard its latest turn, by the run's clock.
    pub latest: u64,
}
