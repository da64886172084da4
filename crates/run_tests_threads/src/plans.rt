// What the tests of this crate are made of.
ghost use Rattle.std.specs.Prelude.{◌≡◌, ◌+◌, ◌<◌, ◌^◌, length};
ghost use Rattle.std.specs.List.{All};

use run_capture::{CaptureStrategy, List, Text};
use run_engine::{TestRunner, TestRunnerBuilder};
use run_events::{Plan, PlanTest, TestInstanceId, TestThreads};
use std::alloc::Global;
use std::process::Abort;
use std::sync::ledger::{Ledger, Share};
use uuid::Uuid;

/// What is said where memory is wanting.
pub const MEMORY: &str = "memory";

pub fn text(rt: &impl Abort, alloc: Global, text: &str) -> Text {
    Text::from_str(alloc, text).expect(rt, MEMORY)
}

/// Adds an item at the end of a list.
pub fn push<T: Drop>(rt: &impl Abort, alloc: Global, list: &mut List<T>, item: T) {
    list.push(alloc, item).expect(rt, MEMORY);
}

// The test of this number.
fn test(rt: &impl Abort, alloc: Global, number: u32) -> PlanTest {
    let name = format!(in alloc; "t{number}").expect(rt, MEMORY);
    let id = TestInstanceId {
        binary: text(rt, alloc, "b"),
        name: text(rt, alloc, name.as_str()),
    };
    let mut command = List::new();
    push(rt, alloc, &mut command, text(rt, alloc, "true"));
    PlanTest::usual(id, command, None)
}

fn tests(rt: &impl Abort, alloc: Global, count: u32) -> List<PlanTest>
    ensures { length result ≡ count }
{
    let mut tests = List::new();
    for number in 0..count {
        tests
            .push(alloc, test(rt, alloc, number))
            .expect(rt, MEMORY);
    }
    tests
}

/// A plan of so many tests.
pub fn plan(rt: &impl Abort, alloc: Global, count: u32) -> Plan
    ensures { length result.scripts + length result.tests < 2 ^ 32 }
{
    let tests = tests(rt, alloc, count);
    Plan::usual(alloc, Uuid::nil(), tests).expect(rt, MEMORY)
}

/// A runner of so many tests on so many threads.
pub fn runner(
    rt: &impl Abort,
    alloc: Global,
    capture: CaptureStrategy,
    threads: u32,
    count: u32,
) -> TestRunner {
    let plan = plan(rt, alloc, count);
    let mut builder = TestRunnerBuilder::default();
    builder.set_capture_strategy(capture);
    builder.set_test_threads(TestThreads::Count(threads));
    builder.build(alloc, plan).expect(rt, MEMORY)
}

/// The last share.
pub fn last_share<L: Ledger>(rt: &impl Abort, shares: &mut Vec<Share<L>>) -> Share<L>
    requires { All (λ (s : Share L). (s.parts ≡ 1) × (s.amount ≡ 0)) shares.old.items }
    ensures part { 0 < result.parts }
    ensures rest { All (λ (s : Share L). (s.parts ≡ 1) × (s.amount ≡ 0)) shares.new.items }
{
    match shares.pop() {
        Some(share) => share,
        None => rt.abort(),
    }
}
