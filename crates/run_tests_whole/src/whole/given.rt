// Plans and children made by hand.
ghost use Rattle.std.specs.Prelude.{◌≡◌, ◌+◌, ◌<◌, ◌^◌, length};

use crate::whole::gate::{Count, CountingKeeper};
use run_capture::{CaptureStrategy, List, Stream, Text};
use run_commands::EnvInput;
use run_drive::{Begun, Said};
use run_engine::{TestRunner, TestRunnerBuilder};
use run_events::{ChildExit, Plan, PlanTest, Signal, TestInstanceId};
use run_keep::{Came, Child, Line, MemoryKeeper};
use std::alloc::Global;
use std::process::Abort;
use std::sync::Arc;
use std::sync::atomic::AtomicU64;
use uuid::Uuid;

/// What is said where memory is wanting.
pub const MEMORY: &str = "memory";

/// A nanosecond is the unit of a plan.
const MILLISECOND: u64 = 1_000_000;

/// What is done: after how many milliseconds its test is out of time, if it is ever; after how many signals its child
/// ends, and how; whether the streams of the child stay open, and whether signals can't be sent to it; and the signals
/// that come from outside, as letters.
#[derive(Clone, Copy)]
pub struct Act {
    pub period: Option<u64>,
    pub signals: u32,
    pub exit: ChildExit,
    pub leaks: bool,
    pub refuses: bool,
    pub outside: &'static str,
}

fn text(rt: &impl Abort, alloc: Global, text: &str) -> Text {
    Text::from_str(alloc, text).expect(rt, MEMORY)
}

fn one<T: Drop>(rt: &impl Abort, alloc: Global, item: T) -> List<T>
    ensures { length result ≡ 1 }
{
    let mut list = List::new();
    list.push(alloc, item).expect(rt, MEMORY);
    list
}

// The test, which is killed 60 ms after it is out of time, so that a busy machine is in time, and whose streams are
// waited for 3 ms.
fn test(rt: &impl Abort, alloc: Global, act: &Act) -> PlanTest {
    let id = TestInstanceId {
        binary: text(rt, alloc, "b"),
        name: text(rt, alloc, "t"),
    };
    let command = one(rt, alloc, text(rt, alloc, "true"));
    let mut test = PlanTest::usual(id, command, None);
    if let Some(period) = act.period {
        test.slow.period = period.saturating_mul(MILLISECOND);
        test.slow.terminate_after = Some(1);
        test.slow.grace = 60 * MILLISECOND;
    }
    test.leak.period = 3 * MILLISECOND;
    test
}

// A plan of one test.
fn plan(rt: &impl Abort, alloc: Global, act: &Act) -> Plan
    ensures { length result.scripts + length result.tests < 2 ^ 32 }
{
    let tests = one(rt, alloc, test(rt, alloc, act));
    Plan::usual(alloc, Uuid::nil(), tests).expect(rt, MEMORY)
}

/// A runner of one test.
pub fn runner(rt: &impl Abort, alloc: Global, act: &Act) -> TestRunner {
    let plan = plan(rt, alloc, act);
    let mut builder = TestRunnerBuilder::default();
    builder.set_capture_strategy(CaptureStrategy::Split);
    builder.build(alloc, plan).expect(rt, MEMORY)
}

fn line(signals: u32, said: Said) -> Line {
    Line {
        looks: 0,
        signals,
        said,
    }
}

// What a child writes: the ends of its streams, if they end.
fn writes(rt: &impl Abort, alloc: Global, act: &Act) -> List<Line> {
    let mut lines = List::new();
    if act.leaks {
        return lines;
    }
    for stream in [Stream::Stdout, Stream::Stderr] {
        let end = line(act.signals, Said::End { stream });
        lines.push(alloc, end).expect(rt, MEMORY);
    }
    lines
}

fn child(rt: &impl Abort, alloc: Global, act: &Act) -> Child {
    let exit = act.exit;
    Child {
        begun: Begun::Started { pid: 100 },
        writes: writes(rt, alloc, act),
        end: line(act.signals, Said::Exit { exit }),
        env: EnvInput::OpenFailed,
        refuses: act.refuses,
    }
}

/// A count of nothing.
pub fn nothing(rt: &impl Abort, alloc: Global) -> Count {
    Arc::new(alloc, AtomicU64::new(0)).expect(rt, MEMORY)
}

/// A list of one keeper, of one child.
pub fn keepers(rt: &impl Abort, alloc: Global, act: &Act, count: &Count) -> Vec<CountingKeeper> {
    let children = one(rt, alloc, child(rt, alloc, act));
    let mut keepers = Vec::new(alloc);
    let keeper = CountingKeeper {
        keeper: MemoryKeeper::new(children),
        count: Some(Arc::try_clone(count).expect(rt, MEMORY)),
    };
    keepers.push(keeper).expect(rt, MEMORY);
    keepers
}

fn came_of(letter: char) -> Came {
    let signal = match letter {
        'T' => return Came::Tick,
        'S' => Signal::Tstp,
        'C' => Signal::Cont,
        _ => Signal::Int,
    };
    Came::Signal { signal }
}

/// What comes from outside.
pub fn signals(rt: &impl Abort, alloc: Global, letters: &str) -> List<Came> {
    let mut came = List::new();
    for letter in letters.chars() {
        came.push(alloc, came_of(letter)).expect(rt, MEMORY);
    }
    came
}
