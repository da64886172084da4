// Carries out the turns of a run, and writes its events to a sink as they are told.
ghost use Rattle.std.specs.Prelude.{◌≡◌, ◌<◌, ◌^◌, length};
ghost use Rattle.run_output.specs.Shown.{first_screen};
ghost use Rattle.run_progress.specs.declared.max_running.MaxProgressRunning.TheVariants.{Count};
ghost use Rattle.run_cli.specs.Call.{writing_of};
ghost use Rattle.run_cli.specs.Clocks.{turn_clocks};
ghost use Rattle.run_cli.specs.Commands.{form_of, progress_form};
ghost use Rattle.run_cli.specs.Finish.{IsAnswered};
ghost use Rattle.run_cli.specs.Text.{whole_form};

use crate::clocks::turn_clocks;
use crate::command::Command;
use crate::tied::{Origin, TiedReporter};
use crate::tied_progress::{Beginning, TiedProgress};
use run_capture::{Failed, List, Mem, Sink};
use run_engine::{TestRunner, TestRunnerExecuteErrors};
use run_events::{Ask, Children, RunOutcome, Turn};
use run_output::AskLines;
use run_progress::MaxProgressRunning;
use std::alloc::Global;
use std::marker::Brand;

/// The answer to the turns of a run, the lines of asks that are to be written, and the sink that took its events.
pub struct Executed<K> {
    pub sink: K,
    pub asks: AskLines,
    pub answer: Result<RunOutcome, TestRunnerExecuteErrors<Failed>>,
}

// Children that keep nothing: progress writes no asks.
#[derive(Drop)]
struct Unwritten;

impl Children for Unwritten {
    ghost use Rattle.std.specs.Prelude.{⊤};

    ghost asked = { λ _ _. ⊤ };

    fn ask(&mut self, _alloc: Global, _turn: u64, _ask: &Ask) -> Mem<()> {
        Ok(())
    }
}

// Carries out the turns, with the sink's state at the beginning as the type's.
fn execute_at<K: Sink, O: Origin>(
    alloc: Global,
    runner: TestRunner,
    turns: &[Turn],
    sink: K,
) -> Executed<K>
    requires taken { O.taken_before ≡ K.taken sink }
    requires faults { O.faults_before ≡ K.faults sink }
    requires few { length turns.now < 2 ^ 32 }
    ensures { IsAnswered whole_form runner turns.now (writing_of K.Sink sink result.sink)
        result.asks result.answer }
{
    let mut reporter = TiedReporter::<K, O>::new(sink);
    let mut asks = AskLines::new(alloc);
    let answer = runner.try_execute(alloc, turns, &mut asks, &mut reporter);
    Executed {
        sink: reporter.into_sink(),
        asks,
        answer,
    }
}

// Carries out the turns, and shows progress, with the sink's state and the display at the beginning as the type's.
fn show_at<K: Sink, O: Beginning>(
    alloc: Global,
    runner: TestRunner,
    width: u32,
    clocks: List<u64>,
    turns: &[Turn],
    sink: K,
) -> Executed<K>
    requires taken { O.taken_before ≡ K.taken sink }
    requires faults { O.faults_before ≡ K.faults sink }
    requires display { O.display ≡ first_screen runner.plan.head.mode (Count 8) width clocks }
    requires clocks { clocks ≡ turn_clocks 0 turns.now }
    requires few { length turns.now < 2 ^ 32 }
    ensures { IsAnswered (progress_form runner width) runner turns.now
        (writing_of K.Sink sink result.sink) result.asks result.answer }
{
    let plan = &runner.settings().plan;
    let mode = plan.head.mode;
    let count = plan
        .tests
        .as_slice()
        .iter()
        .filter(|test| test.skip.is_none())
        .count() as u64;
    let max = MaxProgressRunning::DEFAULT_VALUE;
    let mut reporter = TiedProgress::<K, O>::new(sink, mode, count, max, width, clocks);
    let answer = runner.try_execute(alloc, turns, &mut Unwritten, &mut reporter);
    Executed {
        sink: reporter.into_sink(),
        asks: AskLines::new(alloc),
        answer,
    }
}

// Carries out the turns, and shows progress.
fn show<K: Sink>(
    alloc: Global,
    runner: TestRunner,
    width: u32,
    turns: &[Turn],
    sink: K,
) -> Executed<K>
    requires { length turns.now < 2 ^ 32 }
    ensures { IsAnswered (progress_form runner width) runner turns.now
        (writing_of K.Sink sink result.sink) result.asks result.answer }
{
    match turn_clocks(alloc, turns) {
        Ok(clocks) => show_at::<K, Brand>(alloc, runner, width, clocks, turns, sink),
        Err(_) => Executed {
            sink,
            asks: AskLines::new(alloc),
            answer: Err(TestRunnerExecuteErrors::OutOfMemory),
        },
    }
}

/// Carries out the turns, and writes to the sink what the command writes of each event as it is told.
pub fn execute<K: Sink>(
    alloc: Global,
    command: Command,
    runner: TestRunner,
    turns: &[Turn],
    sink: K,
) -> Executed<K>
    requires { length turns.now < 2 ^ 32 }
    ensures { IsAnswered (form_of command runner) runner turns.now
        (writing_of K.Sink sink result.sink) result.asks result.answer }
{
    match command {
        Command::Replay => execute_at::<K, Brand>(alloc, runner, turns, sink),
        Command::Progress(width) => show(alloc, runner, width, turns, sink),
    }
}
