//! The program of plans: makes the plan line of a project's tests, from their list, a profile file and its words, by
//! the top call of the library below. It answers `--help` and `--version` itself, and says on standard error why there
//! is no line.
#![tactic(auto)]

mod failures;
mod inputs;
mod said;

use failures::Failure;
use inputs::{args_of, call_of, given_by, processors};
use run_capture::{List, Text};
use run_plan::{Choices, NotedLine, PlanFault, Texts, plan_of, read_words};
use run_program::{Request, print, request_of, say_error};
use said::{say_failure, say_notes};
use std::alloc::Global;
use std::process::ExitCode;

const NAME: &str = "nextest_plan";

const VERSION: &str = "nextest_plan 0.0.0";

const HELP: &str = "The plan of a project's tests

Usage: nextest_plan --list FILE [OPTIONS] [NAME..]

Writes the plan line of the tests in FILE, which nextest_run carries out. A test whose name has some NAME within it
runs, or each where there is no NAME; the others are skipped.

  --list FILE                  the tests, as cargo nextest list --message-format json writes them
  --cfg FILE                   what rustc --print cfg says: the platform that overrides ask for
  --config FILE                the profile file, a nextest.toml
  -P, --profile NAME           the profile (default)
  -E, --filterset EXPR         of those, runs the tests of this filter alone; of several filters those of any
  --skip NAME                  runs no test with NAME within its name; may come again
  --exact                      each NAME is a whole name
  --ignore-default-filter      runs also what the profile's default filter leaves out
  --run-ignored WHICH          default, only or all: which tests run, of those that are ignored
  --partition KIND:M/N         runs the part M of N, by count, hash or slice
  -j, --test-threads N         how much may run at a time
  --retries N                  how often a failed test is tried again
  --flaky-result RESULT        pass or fail: what a pass after a failure counts as
  --no-fail-fast, --max-fail N[:MODE]
                               after how many failures no test starts any more: N or all; MODE is wait or immediate
  --stress-count N, --stress-duration TIME
                               repeats all so often (or infinite), or for so long
  --no-capture                 captures no output
  -h, --help                   prints this
  -V, --version                prints the version

A value stands behind a blank or =. Each option is given once, but -E and --skip.

Exit status:
    0   the plan line was written
    2   the words are wrong
    4   no test is to be run
    9   a write failed
   10   the system hands out no id for the run
   11   memory was wanting
   12   the plan is too long
   92   the profile file asks for a newer version
   94   a filter of the words is none
   96   the profile file can't be read, or is none
  102   the file of --cfg can't be read
  104   the list can't be read, or is none

docs/FORMATS.md of the repository has the format of plan lines.";

// What words choose, which stand after the program's name.
fn choices_of(alloc: Global, args: &[Text]) -> Result<Choices, Failure> {
    let words = match args {
        [_, words @ ..] => words,
        [] => &[],
    };
    Ok(read_words(alloc, words)?)
}

// What comes of a plan that was made, or not.
fn made(plan: Result<NotedLine, PlanFault>) -> Result<NotedLine, Failure> {
    match plan {
        Ok(plan) => Ok(plan),
        Err(PlanFault::OutOfMemory) => Err(Failure::OutOfMemory),
        Err(fault) => Err(Failure::Plan(fault)),
    }
}

// Makes the plan of a call of these words, which choose so, of what files say.
fn plan_of_texts(
    rt: &HostRuntime,
    processors: u32,
    args: List<Text>,
    choices: &Choices,
    texts: &Texts<'_>,
) -> Result<NotedLine, Failure> {
    let call = call_of(rt, processors, args)?;
    made(plan_of(rt.alloc(), texts, choices, &call))
}

// Makes the plan of a call of these words, which choose so.
fn plan_of_choices(
    rt: &HostRuntime,
    processors: u32,
    args: List<Text>,
    choices: &Choices,
) -> Result<NotedLine, Failure> {
    let given = given_by(rt, &choices.files)?;
    plan_of_texts(rt, processors, args, choices, &given.texts())
}

// Makes the plan of a call, on so many processors.
fn plan(rt: &HostRuntime, processors: u32, words: &[String]) -> Result<NotedLine, Failure> {
    let args = args_of(rt.alloc(), NAME, words)?;
    match choices_of(rt.alloc(), args.as_slice()) {
        Ok(choices) => {
            let plan = plan_of_choices(rt, processors, args, &choices);
            drop(choices);
            plan
        }
        Err(failure) => {
            drop(args);
            Err(failure)
        }
    }
}

// Writes the plan line, and answers the status of that.
fn write_line(rt: &HostRuntime, line: &str) -> u8 {
    let status = print(rt, line);
    if status != 0 {
        say_error(rt, NAME, Some("a write failed"));
    }
    status
}

// Does what the words say, and answers the status.
fn run_words(rt: &HostRuntime, processors: u32, words: &[String]) -> u8 {
    match plan(rt, processors, words) {
        Ok(plan) => {
            say_notes(rt, NAME, plan.notes.as_slice());
            write_line(rt, plan.line.as_str())
        }
        Err(failure) => {
            let status = failure.status();
            say_failure(rt, NAME, words, failure);
            status
        }
    }
}

fn main(rt: HostRuntime) -> ExitCode {
    let status = match request_of(&rt, &[]) {
        Request::Help => print(&rt, HELP),
        Request::Version => print(&rt, VERSION),
        Request::Run(words) => run_words(&rt, processors(&rt), words.as_slice()),
        Request::NoMemory => {
            say_error(&rt, NAME, Some("memory was wanting"));
            11
        }
        Request::NoText => {
            say_error(&rt, NAME, Some("the words are wrong: one is not UTF-8"));
            2
        }
    };
    ExitCode::from(status)
}
