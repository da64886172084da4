//! The program of jobs: runs batch jobs in waves, by the top call of the library below. It answers `--help` and
//! `--version` itself, and says on standard error what a status means.
#![tactic(auto)]

use run_cli::{Ran, StdSink, StdSource};
use run_jobs_cli::{next_wave, run};
use run_program::{Request, print, print_memory, request_of, say_error};
use std::process::ExitCode;

const NAME: &str = "nextest_jobs";

const VERSION: &str = "nextest_jobs 0.0.0";

const COMMANDS: [&str; 2] = ["run", "next"];

const HELP: &str = "Batch jobs in waves

Usage: nextest_jobs run < INPUT
       nextest_jobs next < INPUT

  run              runs the jobs of INPUT wave by wave, and writes the state of each
  next             writes the plan line of the wave that is due after those of INPUT, or {\"due\":0}
  -h, --help       prints this, also after the command
  -V, --version    prints the version

INPUT has at most 16,777,216 bytes. Its first line is an object of `jobs`, `run_id` and `threads`, where a job has a
`name`, a `command` and the numbers of the jobs that it waits for, `after`. Turn lines follow, with {\"wave\":\"end\"}
after those of each wave. Written are the lines of the events, and then a line for each job.

Exit status, besides those of nextest_run replay:
    0   every job passed
    4   there are no jobs
    5   the jobs break a rule
   14   more lists of turns were given than waves were due
  100   some job failed, was blocked or was cancelled

docs/FORMATS.md of the repository has the formats of lines.";

// What a status means, where it is that of a fault.
fn meaning(status: u8) -> Option<&'static str> {
    match status {
        2 => Some("the words are wrong: see nextest_jobs --help"),
        3 => Some(
            "the first line is no jobs, or a later one is neither a turn nor the end of a wave's turns",
        ),
        5 => Some(
            "the jobs break a rule: no thread, a name twice, or a job that waits for none before it",
        ),
        6 => Some("a turn is not enabled"),
        7 => Some("a third shutdown signal came"),
        8 => Some("the run of a wave is not over after its turns, or there are none for it"),
        9 => Some("a write failed"),
        10 => Some("a read failed"),
        11 => Some("memory was wanting"),
        12 => Some("the input is too long"),
        14 => Some("more lists of turns were given than waves were due"),
        _ => None,
    }
}

// Whether the words ask for the next wave.
fn ask_next(words: &[String]) -> bool {
    match words {
        [word] => word.as_str() == "next",
        _ => false,
    }
}

// Runs the words, and answers the status.
fn run_words(rt: &HostRuntime, words: &[String]) -> u8 {
    let mut source = StdSource::new(rt.stdin());
    let sink = StdSink::new(rt.stdout());
    let Ran { status, sink } = if ask_next(words) {
        next_wave(rt.alloc(), &mut source, sink)
    } else {
        run(rt.alloc(), words, &mut source, sink)
    };
    drop(sink);
    status
}

// Words of which one is not UTF-8 are run as no words are.
fn main(rt: HostRuntime) -> ExitCode {
    let status = match request_of(&rt, &COMMANDS) {
        Request::Help => return ExitCode::from(print(&rt, HELP)),
        Request::Version => return ExitCode::from(print(&rt, VERSION)),
        Request::NoMemory => print_memory(&rt),
        Request::Run(words) => run_words(&rt, words.as_slice()),
        Request::NoText => run_words(&rt, &[]),
    };
    say_error(&rt, NAME, meaning(status));
    ExitCode::from(status)
}
