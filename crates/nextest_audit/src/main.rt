//! The program of audits: judges the events that some engine told of a run, by the top call of the library below. It
//! answers `--help` and `--version` itself, and says on standard error what a status means.
#![tactic(auto)]

use run_audit_cli::run;
use run_cli::{Ran, StdSink, StdSource};
use run_program::{Request, print, print_memory, request_of, say_error};
use std::process::ExitCode;

const NAME: &str = "nextest_audit";

const VERSION: &str = "nextest_audit 0.0.0";

const COMMANDS: [&str; 1] = ["audit"];

const HELP: &str = "Audits of recorded runs

Usage: nextest_audit audit < INPUT

  audit            judges the event lines of INPUT by its plan and turns, and writes the verdict
  -h, --help       prints this, also after the command
  -V, --version    prints the version

INPUT has at most 16,777,216 bytes: a plan line and turn lines as of nextest_run replay, then {\"audit\":\"events\"},
then event lines as that program writes them. Lines of asks and of the outcome are passed over.

Exit status, besides those of nextest_run replay from 2 to 12:
    0   the events keep the run
    1   they don't: written are the law that they break, from 1, and the place of the event, from 0
        law 1   the run's start and finish, and those of its sub-runs
        law 2   what is told of each test
        law 3   limits and slots of tests that run at once
        law 4   cancels, and nothing started after one
        law 5   setup scripts

docs/FORMATS.md of the repository has the formats of lines.";

// What a status means, where it is that of no verdict, or of a bad one.
fn meaning(status: u8) -> Option<&'static str> {
    match status {
        1 => Some("the events don't keep the run: see the law and the place"),
        2 => Some("the words are wrong: see nextest_audit --help"),
        3 => Some("a line is no plan, no turn or no event, or {\"audit\":\"events\"} is missing"),
        5 => Some("the plan breaks a rule"),
        6 => Some("a turn is not enabled"),
        7 => Some("a third shutdown signal came"),
        8 => Some("the run is not over after the last turn"),
        9 => Some("a write failed"),
        10 => Some("a read failed"),
        11 => Some("memory was wanting"),
        12 => Some("the input is too long"),
        _ => None,
    }
}

// Runs the words, and answers the status.
fn run_words(rt: &HostRuntime, words: &[String]) -> u8 {
    let mut source = StdSource::new(rt.stdin());
    let sink = StdSink::new(rt.stdout());
    let Ran { status, sink } = run(rt.alloc(), words, &mut source, sink);
    drop(sink);
    status
}

// Words of which one is not UTF-8 are run as no words are.
fn main(rt: HostRuntime) -> ExitCode {
    let status = match request_of(&rt, &COMMANDS) {
        Request::Help => return ExitCode::from(print(&rt, HELP)),
        Request::Version => return ExitCode::from(print(&rt, VERSION)),
        Request::NoMemory => print_memory(&rt),
        Request::Run(words) => run_words(&rt, words.as_slice()),
        Request::NoText => run_words(&rt, &[]),
    };
    say_error(&rt, NAME, meaning(status));
    ExitCode::from(status)
}
