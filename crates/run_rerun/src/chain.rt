// Which tests a chain of runs leaves outstanding.
ghost use Rattle.std.specs.Prelude.{◌≡◌, IfOk, OnOk, if◌then◌else◌, map, not};
ghost use Rattle.std.specs.List.Sorted.{IsStrictlySortedBy};
ghost use Rattle.run_events.specs.declared.plan.TestInstanceId.{TestInstanceId};
ghost use Rattle.run_model.specs.Reruns.{id_order, is_one_test};
ghost use Rattle.run_rerun.specs.Outstanding.{AreOutstanding, has_id};

use crate::answers::{RunTests, StoredRun};
use run_capture::{Duplicate, List, Mem};
use run_events::TestInstanceId;
use std::alloc::Global;
use std::collections::BTreeSet;

/// The set of some tests.
pub fn set_of(alloc: Global, ids: &[TestInstanceId]) -> Mem<BTreeSet<TestInstanceId>>
    ensures { IfOk result (λ set. (q : TestInstanceId) → has_id set.keys q ≡ has_id ids.now q) }
{
    let mut set = BTreeSet::new(alloc);
    for id in ids {
        set.insert(id.copy(alloc)?)?;
    }
    Ok(set)
}

// Opens a test, or, if it passed, closes it.
fn set_open(
    alloc: Global,
    left: &mut BTreeSet<TestInstanceId>,
    id: &TestInstanceId,
    passed: bool,
) -> Mem<()>
    ensures { OnOk result ((q : TestInstanceId) → has_id left.new.keys q
        ≡ (if is_one_test q id.now then not passed else has_id left.old.keys q)) }
{
    if passed {
        left.remove(id);
    } else {
        left.insert(id.copy(alloc)?)?;
    }
    Ok(())
}

// Takes one more run of a chain: of the tests that it has, those that passed are open no more, and the others are.
fn take_run(alloc: Global, left: &mut BTreeSet<TestInstanceId>, run: &RunTests) -> Mem<()>
    ensures { OnOk result ((q : TestInstanceId) → has_id left.new.keys q
        ≡ (if has_id run.now.has q then not (has_id run.now.passed q) else has_id left.old.keys q)) }
{
    let passed = set_of(alloc, run.passed.as_slice())?;
    for id in run.has.as_slice() {
        set_open(alloc, left, id, passed.contains(id))?;
    }
    Ok(())
}

// The tests of a set, in ascending order.
fn list_of(alloc: Global, ids: BTreeSet<TestInstanceId>) -> Mem<List<TestInstanceId>>
    ensures tests { IfOk result (λ tests. tests ≡ ids.keys) }
    ensures ascending { OnOk result (IsStrictlySortedBy id_order ids.keys) }
{
    let mut tests = List::new();
    for id in ids {
        tests.push(alloc, id)?;
    }
    Ok(tests)
}

/// The tests that a chain of runs, oldest first, leaves outstanding: those that some run has, and that didn't pass in
/// the latest run that has them. They are in ascending order, each of them once.
pub fn outstanding(alloc: Global, chain: &[StoredRun]) -> Mem<List<TestInstanceId>>
    ensures { IfOk result (AreOutstanding (map (λ run. run.tests) chain.now)) }
{
    let mut left = BTreeSet::new(alloc);
    for run in chain {
        take_run(alloc, &mut left, &run.tests)?;
    }
    list_of(alloc, left)
}
