// Children of tests.
use crate::given::{Given, ask, is_refused, run};
use crate::plans::{push, text};
use run_capture::{List, Stream};
use run_drive::Spawner;
use run_events::{ChildExit, StartAsk, Variables};
use run_host::ProcessSpawner;
use std::alloc::Global;
use std::fs::Files;
use std::process::{Abort, Processes};

// What a child gives, whose spawner has no fault.
fn given<R: Abort + Processes + Files + Copy + Drop>(
    rt: R,
    alloc: Global,
    ask: &StartAsk,
) -> Given {
    let mut spawner = ProcessSpawner::new(rt);
    let given = run(&rt, alloc, &mut spawner, ask);
    assert!(rt; spawner.faults() == 0);
    given
}

// A start with the variable `V`, whose streams are both captured.
fn variable_ask(rt: &impl Abort, alloc: Global) -> StartAsk {
    let mut ask = ask(rt, alloc, "sh|-c|echo \"$1 $V\"|sh|one two");
    let mut variables = List::new();
    let variable = (text(rt, alloc, "V"), text(rt, alloc, "three"));
    push(rt, alloc, &mut variables, variable);
    ask.env = Variables::listed(variables);
    push(rt, alloc, &mut ask.streams, Stream::Stderr);
    ask
}

#[test]
fn a_child_gets_its_arguments_and_variables(rt: HostRuntime) {
    let alloc = rt.alloc();
    let given = given(rt, alloc, &variable_ask(&rt, alloc));
    assert!(rt; given.is(b"one two three\n", ChildExit::Code(0)) && given.ends == 2);
}

// Whether a command writes this, and its child ends so.
fn ends<R: Abort + Processes + Files + Copy + Drop>(
    rt: R,
    alloc: Global,
    command: &str,
    output: &[u8],
    exit: ChildExit,
) -> bool {
    let given = given(rt, alloc, &ask(&rt, alloc, command));
    given.is(output, exit)
}

// Its standard input is empty, and its output need not be text.
#[test]
fn children_end(rt: HostRuntime) {
    let alloc = rt.alloc();
    let reads = ends(rt, alloc, "cat", b"", ChildExit::Code(0));
    let writes = ends(rt, alloc, "printf|\\377", b"\xff", ChildExit::Code(0));
    let dies = ends(rt, alloc, "sh|-c|kill -9 $$", b"", ChildExit::Signal(9));
    assert!(rt; reads && writes && dies);
}

#[test]
fn what_is_not_captured_is_not_read(rt: HostRuntime) {
    let alloc = rt.alloc();
    let mut ask = ask(&rt, alloc, "echo|word");
    ask.streams = List::new();
    let given = given(rt, alloc, &ask);
    assert!(rt; given.is(b"", ChildExit::Code(0)) && given.ends == 0);
}

#[test]
fn a_command_that_does_not_exist_is_refused(rt: HostRuntime) {
    let alloc = rt.alloc();
    let mut spawner = ProcessSpawner::new(rt);
    let ask = ask(&rt, alloc, "./no-such-command");
    assert!(rt; is_refused(&rt, alloc, &mut spawner, &ask, "") && spawner.faults() == 1);
}

#[test]
fn long_output_is_read_whole(rt: HostRuntime) {
    let alloc = rt.alloc();
    let given = given(rt, alloc, &ask(&rt, alloc, "head|-c|10000000|/dev/zero"));
    assert!(rt; given.output.len() == 10_000_000 && matches!(given.exit, Some(ChildExit::Code(0))));
}
