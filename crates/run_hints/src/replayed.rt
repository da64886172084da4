// The run of an input once more, up to a turn, and why that turn isn't enabled.
ghost use Rattle.std.specs.Prelude.{◌+◌, ◌<◌, ◌^◌, length, IsTrue};

use crate::waiting::why_not;
use run_capture::Duplicate;
use run_cli::runner_of;
use run_engine::{Run, TestRunner};
use run_events::{AskList, EventLog, Plan, Turn};
use run_input::{Input, RunnerKeys, read_input};
use std::alloc::Global;

const MOST_UNITS: usize = 4_294_967_295;

// Whether the units of a plan can be numbered.
fn has_few_units(plan: &Plan) -> bool
    ensures { IsTrue result → length plan.now.scripts + length plan.now.tests < 2 ^ 32 }
{
    match plan.scripts.len().checked_add(plan.tests.len()) {
        Some(count) => count <= MOST_UNITS,
        None => false,
    }
}

// What carries out a plan with the keys of its line, where its units can be numbered.
fn runner_for(alloc: Global, keys: RunnerKeys, plan: Plan) -> Option<TestRunner> {
    if has_few_units(&plan) {
        runner_of(alloc, keys, plan).ok()
    } else {
        drop(plan);
        drop(keys);
        None
    }
}

// Takes a copy of a turn. Answers whether it was taken.
fn took(alloc: Global, run: &mut Run, turn: &Turn, asks: &mut AskList, log: &mut EventLog) -> bool {
    match turn.copy(alloc) {
        Ok(turn) => run.step(alloc, turn, asks, log).is_ok(),
        Err(_) => false,
    }
}

// Takes turns. Answers whether all were taken.
fn took_all(alloc: Global, run: &mut Run, turns: &[Turn]) -> bool {
    let mut asks = AskList::new();
    let mut log = EventLog::new();
    for turn in turns {
        if !took(alloc, run, turn, &mut asks, &mut log) {
            return false;
        }
    }
    true
}

// Why the turn at a place isn't enabled, once a run has taken those before it.
fn why_at(alloc: Global, run: &mut Run, turns: &[Turn], place: usize) -> Option<String> {
    match turns.get(place) {
        Some(turn) if took_all(alloc, run, &turns[..place]) && !run.is_enabled(turn) => {
            why_not(alloc, run, turn).ok()
        }
        _ => None,
    }
}

// The same, with a run of its own.
fn why_by(alloc: Global, runner: TestRunner, turns: &[Turn], place: usize) -> Option<String> {
    match runner.into_run(alloc) {
        Ok(run) => {
            let mut run = run;
            let why = why_at(alloc, &mut run, turns, place);
            drop(run);
            why
        }
        Err(_) => None,
    }
}

// The same, of what an input says.
fn why_in(alloc: Global, input: Input, place: usize) -> Option<String> {
    let Input { keys, plan, turns } = input;
    match runner_for(alloc, keys, plan) {
        Some(runner) => why_by(alloc, runner, turns.as_slice(), place),
        None => None,
    }
}

/// Why the turn of this number, counted from 0, isn't enabled after those before it. None where the input has no such
/// run: memory is wanting, or its reporter refused an event.
pub(crate) fn why_stopped(alloc: Global, input: &[u8], number: u64) -> Option<String> {
    match read_input(alloc, input) {
        Ok(input) => why_in(alloc, input, number as usize),
        Err(_) => None,
    }
}
