// The lines that no stored row has: of turns, with their keys in byte order, of the fault of memory, and of an answer
// by a unit that is killed after some time.
use crate::rows::{MEMORY, blob, boxed, holds, text};
use run_capture::{ChildOutput, List, Stream, Text};
use run_events::{
    ChildExecutionOutput, ChildExit, InfoAnswered, InfoResponse, InfoSubject, ReporterEvent,
    ScriptUnit, ShutdownRequest, StressIndex, TermSignal, TerminateReason, TestEvent,
    TestEventKind, Turn, UnitState, Waiting,
};
use run_output::{Fault, event_line, fault_line, turn_line};
use std::alloc::Global;
use std::process::Abort;

// A line is this text.
fn is_line(rt: &impl Abort, line: Text, wanted: &str) {
    holds(rt, wanted, line.as_str() == wanted);
}

// The line of a turn that is let go is this text.
fn is_turn(rt: &impl Abort, alloc: Global, turn: Turn, wanted: &str) {
    is_line(rt, turn_line(alloc, &turn).expect(rt, MEMORY), wanted);
}

fn piece(rt: &impl Abort, alloc: Global) -> Turn {
    Turn::Piece {
        unit: 4294967295,
        stream: Stream::Stderr,
        bytes: blob(rt, alloc, b"\n\xff"),
    }
}

fn start_failed(rt: &impl Abort, alloc: Global) -> Turn {
    Turn::StartFailed {
        unit: 0,
        error: boxed(rt, alloc, text(rt, alloc, "no \"x\"")),
    }
}

fn exit() -> Turn {
    Turn::Exit {
        unit: 7,
        exit: ChildExit::Signal(-9),
    }
}

#[test]
fn turns_print_their_keys(rt: HostRuntime) {
    let alloc = rt.alloc();
    is_turn(&rt, alloc, Turn::Begin, r#"{"turn":"begin"}"#);
    let clock = r#"{"ns":18446744073709551615,"turn":"clock"}"#;
    is_turn(&rt, alloc, Turn::Clock { ns: u64::MAX }, clock);
    let exited = r#"{"signal":-9,"turn":"exit","unit":7}"#;
    is_turn(&rt, alloc, exit(), exited);
    let wrote = r#"{"hex":"0aff","stream":"stderr","turn":"piece","unit":4294967295}"#;
    is_turn(&rt, alloc, piece(&rt, alloc), wrote);
    let failed = r#"{"text":"no \"x\"","turn":"start-failed","unit":0}"#;
    is_turn(&rt, alloc, start_failed(&rt, alloc), failed);
}

pub fn script(rt: &impl Abort, alloc: Global) -> ScriptUnit {
    ScriptUnit {
        unit: 1,
        id: text(rt, alloc, "db"),
        index: 1,
        total: 2,
        no_capture: true,
        stress_index: Some(StressIndex {
            current: 1,
            total: None,
        }),
    }
}

const KILLED: UnitState = UnitState::Terminating {
    pid: 100,
    time: 8,
    reason: TerminateReason::Signal(ShutdownRequest::Twice),
    method: TermSignal::Kill,
    waiting: Waiting {
        waiting: 30,
        remaining: 70,
    },
};

// The answer of a script that is killed after some time, and has written this.
pub fn answer(script: ScriptUnit, output: ChildOutput) -> ReporterEvent {
    let response = InfoResponse {
        subject: InfoSubject::Script(script),
        state: KILLED,
        output: ChildExecutionOutput::Output {
            output,
            errors: List::new(),
        },
    };
    ReporterEvent::Test(TestEvent {
        clock: 3,
        elapsed: 2,
        kind: TestEventKind::InfoResponse(InfoAnswered {
            response,
            index: 0,
            total: 2,
        }),
    })
}

// The line of an event that is let go.
fn event_text(rt: &impl Abort, alloc: Global, event: ReporterEvent) -> Text {
    event_line(alloc, &event).expect(rt, MEMORY)
}

#[test]
fn lines_that_no_row_has(rt: HostRuntime) {
    let alloc = rt.alloc();
    let memory = fault_line(alloc, Fault::Memory).expect(&rt, MEMORY);
    is_line(&rt, memory, r#"{"fault":"memory","status":11}"#);
    let killed = answer(script(&rt, alloc), ChildOutput::uncaptured());
    let killed = event_text(&rt, alloc, killed);
    is_line(
        &rt,
        killed,
        concat!(
            r#"{"clock":3,"elapsed":2,"event":"info-response","index":0,"output":{},"script":"db","#,
            r#""state":{"kind":"terminating","method":"kill","pid":100,"reason":"signal","#,
            r#""remaining":70,"time":8,"waiting":30},"stress_index":{"current":1},"total":2}"#,
        ),
    );
}
