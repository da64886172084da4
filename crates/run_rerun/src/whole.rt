// The tests of the whole plan that a shard's plan is a part of.
ghost use Rattle.std.specs.Prelude.{◌≡◌, ◌↔◌, IsTrue, IfOk, IsSome, map};
ghost use Rattle.run_input.specs.Input.{plan_line_of};
ghost use Rattle.run_rerun.specs.Shards.{is_parted, unparted, wanted_of, whole_tests};

use run_capture::{Duplicate, List, Mem, OutOfMemory, Text};
use run_events::{PlanTest, TestInstanceId};
use run_input::read_plan_line;
use run_shared::Same;
use std::alloc::Global;

// Whether a test is skipped because it is of another part.
fn is_parted(skip: &Option<Text>) -> bool
    ensures { result ≡ is_parted skip.now }
{
    match skip {
        Some(reason) => reason.as_str() == "partition",
        None => false,
    }
}

// A test as the whole plan has it.
fn unparted(alloc: Global, test: &PlanTest) -> Mem<PlanTest>
    ensures { IfOk result (λ t. t ≡ unparted test.now) }
{
    let mut whole = test.copy(alloc)?;
    if is_parted(&test.skip) {
        whole.skip = None;
    }
    Ok(whole)
}

// Tests as the whole plan has them.
fn all_unparted(alloc: Global, tests: &[PlanTest]) -> Mem<List<PlanTest>>
    ensures { IfOk result (λ whole. whole ≡ map unparted tests.now) }
{
    let mut whole = Vec::with_capacity(alloc, tests.len())?;
    for test in tests {
        whole.push(unparted(alloc, test)?)?;
    }
    Ok(List::from_vec(whole))
}

/// The tests of the whole plan, by the plan line of a shard.
pub fn whole_tests(alloc: Global, line: &[u8]) -> Mem<List<PlanTest>>
    requires { IsSome (plan_line_of line.now) }
    ensures { IfOk result (λ tests. tests ≡ whole_tests line.now) }
{
    match read_plan_line(alloc, line) {
        Ok((_, plan)) => all_unparted(alloc, plan.tests.as_slice()),
        Err(_) => Err(OutOfMemory),
    }
}

/// Whether the whole plan that this plan line is of has these tests.
pub fn is_of_plan(alloc: Global, tests: &List<PlanTest>, line: &[u8]) -> Mem<bool>
    requires { IsSome (plan_line_of line.now) }
    ensures { IfOk result (λ is. IsTrue is ↔ (whole_tests line.now ≡ tests.now)) }
{
    let own = whole_tests(alloc, line)?;
    Ok(own.same(tests))
}

/// The tests of a whole plan that are wanted, in plan order.
pub fn wanted_of(alloc: Global, tests: &[PlanTest]) -> Mem<List<TestInstanceId>>
    ensures { IfOk result (λ ids. ids ≡ wanted_of tests.now) }
{
    let mut wanted = Vec::new(alloc);
    for test in tests {
        if test.skip.is_none() {
            wanted.push(test.id.copy(alloc)?)?;
        }
    }
    Ok(List::from_vec(wanted))
}
