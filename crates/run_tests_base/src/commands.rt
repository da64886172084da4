// Commands and interceptors.
use crate::rows::{are_texts, copied, holds};
use run_commands::{
    DebuggerCommand, DebuggerCommandParseError, Interceptor, TracerCommand,
    TracerCommandParseError, configure_handle_inheritance,
};
use std::alloc::Global;
use std::process::Abort;

fn debugger(rt: &impl Abort, alloc: Global, text: &str) -> DebuggerCommand {
    DebuggerCommand::from_str(alloc, text).expect(rt, text)
}

// A command has these words, each argument with `|` after it.
fn has_words(
    rt: &impl Abort,
    alloc: Global,
    command: &DebuggerCommand,
    program: &str,
    args: &str,
) -> bool {
    command.program() == program && are_texts(rt, alloc, command.args(), args)
}

// The copy of a command has these words.
fn splits(rt: &impl Abort, alloc: Global, text: &str, program: &str, args: &str) {
    let command = copied(rt, alloc, debugger(rt, alloc, text));
    holds(rt, text, has_words(rt, alloc, &command, program, args));
}

fn debugger_error(alloc: Global, text: &str) -> Option<DebuggerCommandParseError> {
    DebuggerCommand::from_str(alloc, text).err()
}

fn tracer_error(alloc: Global, text: &str) -> Option<TracerCommandParseError> {
    TracerCommand::from_str(alloc, text).err()
}

// A command has no words.
fn is_empty(alloc: Global, text: &str) -> bool {
    debugger_error(alloc, text) == Some(DebuggerCommandParseError::EmptyCommand)
        && tracer_error(alloc, text) == Some(TracerCommandParseError::EmptyCommand)
}

// The quote at this byte of a command isn't closed.
fn is_open(alloc: Global, text: &str, place: usize) -> bool {
    debugger_error(alloc, text) == Some(DebuggerCommandParseError::ShellWordsParse { place })
        && tracer_error(alloc, text) == Some(TracerCommandParseError::ShellWordsParse { place })
}

// Texts, each with its program and its arguments, with `|` after each.
const COMMANDS: [(&str, &str, &str); 7] = [
    ("rust-gdb -ex run --args", "rust-gdb", "-ex|run|--args|"),
    (
        "gdb -ex \"set print pretty on\" --args",
        "gdb",
        "-ex|set print pretty on|--args|",
    ),
    ("\t a  '' \"\"\n", "a", "||"),
    ("# c 'x\na#b #d", "a#b", ""),
    ("a\\ b \\\nc d\\", "a b", "c|d\\|"),
    ("\"a\\$\\`\\\"\\\\\\x\\\nb\" 'c\\'d", "a$`\"\\\\xb", "c\\d|"),
    ("'é'ü\\ö#", "éüö#", ""),
];

#[test]
fn splits_commands(rt: HostRuntime) {
    for (text, program, args) in &COMMANDS {
        splits(&rt, rt.alloc(), text, program, args);
    }
}

const EMPTY: [&str; 4] = ["", "   ", "# a 'b", "\\\n"];

// Texts, each with the byte of the quote that isn't closed.
const OPEN: [(&str, usize); 4] = [
    ("a 'b", 2),
    ("'a' \"b\\\"", 4),
    ("\\' # '\n'", 7),
    ("é\"", 2),
];

#[test]
fn refuses_commands(rt: HostRuntime) {
    let alloc = rt.alloc();
    for text in &EMPTY {
        holds(&rt, text, is_empty(alloc, text));
    }
    for (text, place) in &OPEN {
        holds(&rt, text, is_open(alloc, text, *place));
    }
}

// What an interceptor answers to its six questions, in the order of the table.
fn answers(interceptor: &Interceptor) -> [bool; 6] {
    [
        interceptor.should_disable_timeouts(),
        interceptor.should_passthrough_stdin(),
        interceptor.should_create_process_group(),
        interceptor.should_skip_leak_detection(),
        interceptor.should_show_wrapper_command(),
        interceptor.should_send_sigtstp(),
    ]
}

// A copy of an interceptor answers so.
fn check(rt: &impl Abort, alloc: Global, interceptor: Interceptor, wanted: &[bool; 6]) {
    let found = answers(&copied(rt, alloc, interceptor));
    holds(rt, "interceptor", found == *wanted);
}

const NONE: [bool; 6] = [false, false, true, false, false, true];

const DEBUGGER: [bool; 6] = [true, true, false, true, true, false];

const TRACER: [bool; 6] = [true, false, true, true, true, true];

fn gdb(rt: &impl Abort, alloc: Global) -> Interceptor {
    Interceptor::Debugger(debugger(rt, alloc, "gdb"))
}

fn strace(rt: &impl Abort, alloc: Global) -> TracerCommand {
    TracerCommand::from_str(alloc, "strace -f").expect(rt, "strace")
}

fn is_strace(rt: &impl Abort, alloc: Global, command: &TracerCommand) -> bool {
    command.program() == "strace" && are_texts(rt, alloc, command.args(), "-f|")
}

#[test]
fn answers_for_each_interceptor(rt: HostRuntime) {
    let alloc = rt.alloc();
    check(&rt, alloc, Interceptor::default(), &NONE);
    check(&rt, alloc, gdb(&rt, alloc), &DEBUGGER);
    check(&rt, alloc, Interceptor::Tracer(strace(&rt, alloc)), &TRACER);
    holds(&rt, "words", is_strace(&rt, alloc, &strace(&rt, alloc)));
    holds(
        &rt,
        "inheritance",
        configure_handle_inheritance(true).is_ok(),
    );
}
