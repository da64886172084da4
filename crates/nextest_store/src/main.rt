//! The program of stores: records the input of a replay as a store, or plays one, by the top call of the library below.
//! It answers `--help` and `--version` itself, and says on standard error what a status means.
#![tactic(auto)]

use run_cli::{Ran, StdSink, StdSource};
use run_program::{Request, print, print_memory, request_of, say_error};
use run_store_cli::run;
use std::process::ExitCode;

const NAME: &str = "nextest_store";

const VERSION: &str = "nextest_store 0.0.0";

const COMMANDS: [&str; 2] = ["record", "play"];

const HELP: &str = "Stores of recorded runs

Usage: nextest_store record < INPUT > STORE
       nextest_store play < STORE

  record           writes the store of INPUT, a plan line and turn lines, and runs nothing
  play             carries out the run that STORE tells, as nextest_run replay does
  -h, --help       prints this, also after a command
  -V, --version    prints the version

INPUT has at most 16,777,216 bytes, STORE at most 33,554,432. A store that was cut short is played as far as its turns
are there.

Exit status, besides those of nextest_run replay:
    0   the store was written; or every test passed
   14   the store is torn: its end is missing
   15   a record is in no store

docs/FORMATS.md of the repository has the formats of lines and stores.";

// What a status means, where it is that of no outcome.
fn meaning(status: u8) -> Option<&'static str> {
    match status {
        2 => Some("the words are wrong: see nextest_store --help"),
        3 => Some("a line is no plan or no turn"),
        5 => Some("the plan breaks a rule"),
        6 => Some("a turn is not enabled"),
        7 => Some("a third shutdown signal came"),
        8 => Some("the run is not over after the last turn"),
        9 => Some("a write failed"),
        10 => Some("a read failed"),
        11 => Some("memory was wanting"),
        12 => Some("the input is too long"),
        14 => Some("the store is torn: its end is missing"),
        15 => Some("a record is in no store"),
        _ => None,
    }
}

// Runs the words, and answers the status.
fn run_words(rt: &HostRuntime, words: &[String]) -> u8 {
    let mut source = StdSource::new(rt.stdin());
    let sink = StdSink::new(rt.stdout());
    let Ran { status, sink } = run(rt.alloc(), words, &mut source, sink);
    drop(sink);
    status
}

// Words of which one is not UTF-8 are run as no words are.
fn main(rt: HostRuntime) -> ExitCode {
    let status = match request_of(&rt, &COMMANDS) {
        Request::Help => return ExitCode::from(print(&rt, HELP)),
        Request::Version => return ExitCode::from(print(&rt, VERSION)),
        Request::NoMemory => print_memory(&rt),
        Request::Run(words) => run_words(&rt, words.as_slice()),
        Request::NoText => run_words(&rt, &[]),
    };
    say_error(&rt, NAME, meaning(status));
    ExitCode::from(status)
}
