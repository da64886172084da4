//! The program of reruns: makes the plan of the next run of a chain of stored ones, and says whether stored shards are
//! the whole of one plan, by the top call of the library below, over files. It answers `--help` and `--version` itself,
//! and says on standard error what a status means.
#![tactic(auto)]

use run_cli::{Ran, StdSink};
use run_program::{Request, print, print_memory, request_of, say_error};
use run_rerun_cli::{FileStores, run};
use std::process::ExitCode;

const NAME: &str = "nextest_rerun";

const VERSION: &str = "nextest_rerun 0.0.0";

const COMMANDS: [&str; 2] = ["plan", "shards"];

const HELP: &str = "Reruns of outstanding tests

Usage: nextest_rerun plan STORE..
       nextest_rerun shards STORE..

  plan STORE..     reads the stores of a chain of runs, oldest first, and writes the plan line of the next run: it runs
                   the tests that didn't pass in the latest run that has them, and skips the others
  shards STORE..   reads the stores of runs of parts of one plan, and says whether they are together the whole of it:
                   each run is over, and each test that no plan skips but as `partition` is in exactly one
  -h, --help       prints this, also after a command
  -V, --version    prints the version

Each STORE is a file as nextest_store record writes it, of at most 33,554,432 bytes. A run that was cut short counts as
far as its turns are there. Where no test is outstanding, {\"outstanding\":0} is written.

Exit status:
    0   some tests are outstanding, and the plan line was written; the shards are the whole, and all tests passed
    1   the shards aren't the whole: the line says which one is cut short or of another plan, or which test is in two or
        in none
    4   no test is outstanding; the shards are the whole, and have no test
  100   the shards are the whole, and some test didn't pass
    2   the words are wrong
    9   a write failed
   11   memory was wanting
The first store that has a fault decides, and none after it is opened. The line says which one it is, from 0:
    5   its plan breaks a rule
    6   a turn of it is not enabled
    7   a third shutdown signal came in it
   10   it could not be opened or read
   12   it is too long
   14   it has no plan: it is empty, or was cut short before its first turn
   15   a record of it is in no store

docs/FORMATS.md of the repository has the formats of lines and stores.";

// What a status means, where it is that of a fault.
fn meaning(status: u8) -> Option<&'static str> {
    match status {
        1 => Some("the shards are not the whole of one plan"),
        2 => Some("the words are wrong: see nextest_rerun --help"),
        5 => Some("the plan of a store breaks a rule"),
        6 => Some("a turn of a store is not enabled"),
        7 => Some("a third shutdown signal came in a store"),
        9 => Some("a write failed"),
        10 => Some("a store could not be opened or read"),
        11 => Some("memory was wanting"),
        12 => Some("a store is too long"),
        14 => Some("a store has no plan"),
        15 => Some("a record of a store is in no store"),
        _ => None,
    }
}

// Runs the words, and answers the status.
fn run_words(rt: &HostRuntime, words: &[String]) -> u8 {
    let mut stores = FileStores::new(rt);
    let sink = StdSink::new(rt.stdout());
    let Ran { status, sink } = run(rt.alloc(), words, &mut stores, sink);
    drop(sink);
    status
}

// Words of which one is not UTF-8 are run as no words are.
fn main(rt: HostRuntime) -> ExitCode {
    let status = match request_of(&rt, &COMMANDS) {
        Request::Help => return ExitCode::from(print(&rt, HELP)),
        Request::Version => return ExitCode::from(print(&rt, VERSION)),
        Request::NoMemory => print_memory(&rt),
        Request::Run(words) => run_words(&rt, words.as_slice()),
        Request::NoText => run_words(&rt, &[]),
    };
    say_error(&rt, NAME, meaning(status));
    ExitCode::from(status)
}
