// The tests that a run has, and those of them that passed.
ghost use Rattle.std.specs.Prelude.{ℕ, ◌≡◌, ◌+◌, ◌<◌, ◌^◌, length, map, filter, IfOk};
ghost use Rattle.run_rerun.specs.Ledgers.{is_marked};
ghost use Rattle.run_rerun.specs.Outstanding.{tests_had};

use crate::answers::RunTests;
use crate::ledger::Ledger;
use run_capture::{Duplicate, List, Mem};
use run_events::{Plan, TestInstanceId};
use std::alloc::Global;

/// The tests that a run of a plan has, each with its unit, in plan order.
pub fn tests_had(alloc: Global, plan: &Plan) -> Mem<Vec<(u32, TestInstanceId)>>
    requires units { length plan.now.scripts + length plan.now.tests < 2 ^ 32 }
    ensures { IfOk result (λ had. had.items ≡ tests_had plan.now) }
{
    let mut had = Vec::new(alloc);
    let mut unit = plan.scripts.len() as u32;
    for test in plan.tests.as_slice() {
        if test.skip.is_none() {
            had.push((unit, test.id.copy(alloc)?))?;
        }
        unit += 1;
    }
    Ok(had)
}

// The ids of those that a ledger says passed.
fn ids_marked(
    alloc: Global,
    had: &[(u32, TestInstanceId)],
    ledger: &Ledger,
) -> Mem<List<TestInstanceId>>
    ensures { IfOk result (λ ids. ids ≡ map (λ t. t.1) (filter (λ t. is_marked ledger.now t.0) had.now)) }
{
    let mut ids = Vec::new(alloc);
    for (unit, id) in had {
        if ledger.is_marked(*unit) {
            ids.push(id.copy(alloc)?)?;
        }
    }
    Ok(List::from_vec(ids))
}

// The ids of all.
fn ids_of(alloc: Global, had: Vec<(u32, TestInstanceId)>) -> Mem<List<TestInstanceId>>
    ensures { IfOk result (λ ids. ids ≡ map (λ t. t.1) had.items) }
{
    let mut ids = Vec::with_capacity(alloc, had.len())?;
    for (_, id) in had.as_slice() {
        ids.push(id.copy(alloc)?)?;
    }
    Ok(List::from_vec(ids))
}

/// The tests of a run that has these, whose ledger is this, and that is over or not.
pub fn tests_of(
    alloc: Global,
    had: Vec<(u32, TestInstanceId)>,
    ledger: &Ledger,
    over: bool,
) -> Mem<RunTests>
    ensures had { IfOk result (λ tests. tests.has ≡ map (λ t. t.1) had.items) }
    ensures passed { IfOk result
        (λ tests. tests.passed ≡ map (λ t. t.1) (filter (λ t. is_marked ledger.now t.0) had.items)) }
    ensures over { IfOk result (λ tests. tests.over ≡ over) }
{
    let passed = ids_marked(alloc, had.as_slice(), ledger)?;
    let has = ids_of(alloc, had)?;
    Ok(RunTests { has, passed, over })
}
