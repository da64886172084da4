// What a rerun expects.
ghost use Rattle.std.specs.Prelude.{◌≡◌, IfOk, take, option_map};
ghost use Rattle.run_model.specs.Reruns.{not_seen_of, without};

use run_capture::{Duplicate, List, Mem};
use run_events::{TestInstanceId, TestsNotSeen};
use std::alloc::Global;
use std::collections::BTreeSet;
use std::marker::Model;

// How many of the tests that were not seen are told by name.
const MOST_TOLD: usize = 8;

/// The tests that a rerun expects and that were not seen: none in an initial run. Contracts see them in ascending
/// order.
#[derive(Drop)]
pub struct RerunContext {
    unseen: Option<BTreeSet<TestInstanceId>>,
}

impl Model for RerunContext {
    ghost use Rattle.std.specs.Prelude.{Option, List, option_map};
    ghost use Rattle.run_events.specs.declared.plan.TestInstanceId.{TestInstanceId};

    ghost Value = { Option (List TestInstanceId) };

    ghost view = { λ context. option_map (λ ids. ids.keys) context.unseen };
}

impl RerunContext {
    /// A rerun that expects these tests, or an initial run.
    pub fn new(expected: Option<BTreeSet<TestInstanceId>>) -> RerunContext
        ensures { result ≡ option_map (λ ids. ids.keys) expected }
    {
        RerunContext { unseen: expected }
    }

    /// A test was seen.
    pub fn mark_seen(&mut self, id: &TestInstanceId)
        ensures { self.new ≡ option_map (without id.now) self.old }
    {
        if let Some(unseen) = &mut self.unseen {
            see(unseen, id);
        }
    }

    /// What is told at the end of a rerun of the tests that were not seen.
    pub fn not_seen(&self, alloc: Global) -> Mem<Option<TestsNotSeen>>
        ensures { IfOk result (λ told. told ≡ not_seen_of self.now) }
    {
        match &self.unseen {
            Some(unseen) => {
                let not_seen = first_of(alloc, unseen)?;
                Ok(Some(TestsNotSeen {
                    not_seen,
                    total_not_seen: unseen.len() as u64,
                }))
            }
            None => Ok(None),
        }
    }

    /// The same, where no test is seen any more.
    pub fn into_tests_not_seen(self, alloc: Global) -> Mem<Option<TestsNotSeen>>
        ensures { IfOk result (λ told. told ≡ not_seen_of self) }
    {
        self.not_seen(alloc)
    }
}

fn see(unseen: &mut BTreeSet<TestInstanceId>, id: &TestInstanceId)
    ensures { unseen.new.keys ≡ without id.now unseen.old.keys }
{
    if unseen.len() > 0 {
        unseen.remove(id);
    }
}

// The first tests of a set.
fn first_of(alloc: Global, ids: &BTreeSet<TestInstanceId>) -> Mem<List<TestInstanceId>>
    ensures { IfOk result (λ first. first ≡ take 8 ids.now.keys) }
{
    let mut first = List::new();
    for id in ids {
        if first.len() == MOST_TOLD {
            return Ok(first);
        }
        first.push(alloc, id.copy(alloc)?)?;
    }
    Ok(first)
}
