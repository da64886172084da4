// The events of information rounds. In a delay no line has what a child wrote.
use crate::children::{child_in, env_fault_in};
use crate::members::{count, number, some_number, truth, word};
use crate::results::{result_in, some_result};
use crate::scripts::script_in;
use crate::stats::stats_in;
use crate::tests::test_in;
use run_capture::Mem;
use run_commands::SetupScriptOutputError;
use run_events::{
    ChildExecutionOutput, InfoAnswered, InfoResponse, InfoStarted, InfoSubject, ShutdownRequest,
    TermSignal, TerminateReason, TestEventKind, UnitState, Waiting,
};
use serde_json::Value;
use std::alloc::Global;

fn waiting_of(state: &Value) -> Waiting {
    Waiting {
        waiting: number(state, "waiting"),
        remaining: number(state, "remaining"),
    }
}

fn method_of(state: &Value) -> TermSignal {
    match word(state, "method") {
        "interrupt" => TermSignal::Interrupt,
        "term" => TermSignal::Term,
        "hangup" => TermSignal::Hangup,
        "quit" => TermSignal::Quit,
        _ => TermSignal::Kill,
    }
}

// Why a child is being ended. No line has which request asks it.
fn reason_of(state: &Value) -> TerminateReason {
    match word(state, "reason") {
        "timeout" => TerminateReason::Timeout,
        _ => TerminateReason::Signal(ShutdownRequest::Term),
    }
}

fn running(state: &Value) -> UnitState {
    UnitState::Running {
        pid: count(state, "pid"),
        time: number(state, "time"),
        slow_after: some_number(state, "slow_after"),
    }
}

fn terminating(state: &Value) -> UnitState {
    UnitState::Terminating {
        pid: count(state, "pid"),
        time: number(state, "time"),
        reason: reason_of(state),
        method: method_of(state),
        waiting: waiting_of(state),
    }
}

fn exiting(state: &Value) -> UnitState {
    UnitState::Exiting {
        pid: count(state, "pid"),
        time: number(state, "time"),
        slow_after: some_number(state, "slow_after"),
        result: some_result(state),
        waiting: waiting_of(state),
    }
}

fn exited(state: &Value, fault: Option<SetupScriptOutputError>) -> UnitState {
    UnitState::Exited {
        result: result_in(state),
        time: number(state, "time"),
        slow_after: some_number(state, "slow_after"),
        fault,
    }
}

fn delay(state: &Value) -> UnitState {
    UnitState::Delay {
        result: result_in(state),
        slow: truth(state, "slow"),
        waiting: waiting_of(state),
    }
}

// What a unit is doing, with the fault of its environment file.
fn state_of(state: &Value, fault: Option<SetupScriptOutputError>) -> UnitState {
    match word(state, "kind") {
        "running" => running(state),
        "terminating" => terminating(state),
        "exiting" => exiting(state),
        "exited" => exited(state, fault),
        _ => delay(state),
    }
}

// What stands at a key, or the event itself.
fn part_of<'a>(event: &'a Value, key: &str) -> &'a Value {
    match event.get(key) {
        Some(part) => part,
        None => event,
    }
}

fn subject_of(alloc: Global, event: &Value) -> Mem<InfoSubject> {
    if event.get("script").is_some() {
        return script_in(alloc, event).map(InfoSubject::Script);
    }
    let test = test_in(alloc, event)?;
    Ok(InfoSubject::Test {
        test,
        attempt: count(event, "attempt"),
        attempts: count(event, "attempts"),
    })
}

fn response_of(alloc: Global, event: &Value) -> Mem<InfoResponse> {
    let output = part_of(event, "output");
    let state = state_of(part_of(event, "state"), env_fault_in(output));
    let subject = subject_of(alloc, event)?;
    let output: ChildExecutionOutput = child_in(alloc, output)?;
    Ok(InfoResponse {
        subject,
        state,
        output,
    })
}

fn answered(alloc: Global, event: &Value) -> Mem<InfoAnswered> {
    let response = response_of(alloc, event)?;
    Ok(InfoAnswered {
        response,
        index: count(event, "index"),
        total: count(event, "total"),
    })
}

fn started(event: &Value) -> InfoStarted {
    InfoStarted {
        total: count(event, "total"),
        running: count(event, "running"),
        stats: stats_in(event),
    }
}

/// An event of an information round, by its word.
pub(crate) fn round_kind(alloc: Global, word: &str, event: &Value) -> Mem<TestEventKind> {
    match word {
        "info-started" => Ok(TestEventKind::InfoStarted(started(event))),
        "info-response" => answered(alloc, event).map(TestEventKind::InfoResponse),
        _ => Ok(TestEventKind::InfoFinished {
            missing: count(event, "missing"),
        }),
    }
}
