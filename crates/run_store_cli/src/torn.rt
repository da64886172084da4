// Playing a torn store.
ghost use Rattle.std.specs.Prelude.{◌≡◌, ◌+◌, ◌<◌, ◌^◌, length};
ghost use Rattle.run_cli.specs.Call.{writing_of};
ghost use Rattle.run_store_cli.specs.Torn.{FinishesTorn, IsTornEnd, IsTornInput, stop_of};

use crate::ends::{end_at, end_at_store};
use run_capture::{Failed, Sink};
use run_cli::{
    Command, Ended, Executed, Ran, end_at_fault, execute, fault_of_plan, runner_of,
    status_of_ending,
};
use run_engine::{TestRunner, TestRunnerExecuteErrors};
use run_events::{RunOutcome, Turn};
use run_input::Input;
use run_output::Fault;
use run_store_io::StoreFault;
use std::alloc::Global;

// The fault of turns that were not all taken, where there is one.
fn stop_of(answer: Result<RunOutcome, TestRunnerExecuteErrors<Failed>>) -> Option<Fault>
    ensures { result ≡ stop_of answer }
{
    match answer {
        Ok(_)
        | Err(TestRunnerExecuteErrors::Report(_))
        | Err(TestRunnerExecuteErrors::Unfinished) => None,
        Err(TestRunnerExecuteErrors::NotEnabled { turn }) => Some(Fault::NotEnabled { turn }),
        Err(TestRunnerExecuteErrors::ThirdSignal { turn }) => Some(Fault::ThirdSignal { turn }),
        Err(TestRunnerExecuteErrors::OutOfMemory) => Some(Fault::Memory),
    }
}

// Writes what is left to write of a torn store by the answer to its turns. Where all were taken, that it is torn stands
// in place of an outcome, and of that the run isn't over.
fn finish_torn<K: Sink>(
    alloc: Global,
    sink: K,
    asks: &[u8],
    answer: Result<RunOutcome, TestRunnerExecuteErrors<Failed>>,
    turns: u64,
) -> Ran<K>
    ensures { FinishesTorn (writing_of K.Sink sink result.sink) asks.now answer turns result.status }
{
    match stop_of(answer) {
        None => end_at_store(alloc, sink, asks, StoreFault::Torn { turns }),
        Some(fault) => {
            let Ended { ending, sink } = end_at_fault(alloc, sink, asks, fault);
            Ran {
                status: status_of_ending(ending),
                sink,
            }
        }
    }
}

// Carries out the turns of a torn store.
fn play_turns<K: Sink>(alloc: Global, runner: TestRunner, turns: &[Turn], sink: K) -> Ran<K>
    requires { length turns.now < 2 ^ 32 }
    ensures { IsTornEnd runner turns.now (writing_of K.Sink sink result.sink) result.status }
{
    let count = turns.len() as u64;
    let Executed { sink, asks, answer } = execute(alloc, Command::Replay, runner, turns, sink);
    finish_torn(alloc, sink, asks.as_bytes(), answer, count)
}

/// Carries out the plan and the turns of a torn store.
pub fn play_torn<K: Sink>(alloc: Global, input: Input, sink: K) -> Ran<K>
    requires units { length input.plan.scripts + length input.plan.tests < 2 ^ 32 }
    requires turns { length input.turns < 2 ^ 32 }
    ensures { IsTornInput input.keys input.plan input.turns
        (writing_of K.Sink sink result.sink) result.status }
{
    let Input { keys, plan, turns } = input;
    match runner_of(alloc, keys, plan) {
        Ok(runner) => play_turns(alloc, runner, turns.as_slice(), sink),
        Err(error) => end_at(alloc, sink, fault_of_plan(error)),
    }
}
