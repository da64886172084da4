// In how many shards tests are.
ghost use Rattle.std.specs.Prelude.{◌≡◌, ◌||◌, ◌&&◌, nat_lt, length, filter, IfOk, OnOk};
ghost use Rattle.run_events.specs.declared.plan.TestInstanceId.{TestInstanceId};
ghost use Rattle.run_rerun.specs.Outstanding.{has_id};
ghost use Rattle.run_rerun.specs.Shards.{passed_once, shards_with};
ghost use Rattle.run_rerun.specs.Found.{FindsItem};

use crate::answers::StoredRun;
use run_capture::{Duplicate, Mem};
use run_events::TestInstanceId;
use std::alloc::Global;
use std::collections::BTreeSet;

/// The tests that some shard has, and those that more than one has.
#[derive(Drop)]
pub struct Seen {
    pub once: BTreeSet<TestInstanceId>,
    pub more: BTreeSet<TestInstanceId>,
}

// Adds tests to a set.
fn add_all(alloc: Global, set: &mut BTreeSet<TestInstanceId>, ids: &[TestInstanceId]) -> Mem<()>
    ensures { OnOk result ((q : TestInstanceId) → has_id set.new.keys q
        ≡ (has_id set.old.keys q || has_id ids.now q)) }
{
    for id in ids {
        set.insert(id.copy(alloc)?)?;
    }
    Ok(())
}

// Adds those of some tests to a set that are in another one.
fn add_known(
    alloc: Global,
    set: &mut BTreeSet<TestInstanceId>,
    known: &BTreeSet<TestInstanceId>,
    ids: &[TestInstanceId],
) -> Mem<()>
    ensures { OnOk result ((q : TestInstanceId) → has_id set.new.keys q
        ≡ (has_id set.old.keys q || (has_id ids.now q && has_id known.now.keys q))) }
{
    for id in ids {
        if known.contains(id) {
            set.insert(id.copy(alloc)?)?;
        }
    }
    Ok(())
}

/// The tests that shards have, by how many have them.
pub fn seen_in(alloc: Global, shards: &[StoredRun]) -> Mem<Seen>
    ensures once { IfOk result (λ seen. (q : TestInstanceId) → has_id seen.once.keys q
        ≡ nat_lt 0 (shards_with shards.now q)) }
    ensures more { IfOk result (λ seen. (q : TestInstanceId) → has_id seen.more.keys q
        ≡ nat_lt 1 (shards_with shards.now q)) }
{
    let mut once = BTreeSet::new(alloc);
    let mut more = BTreeSet::new(alloc);
    for shard in shards {
        add_known(alloc, &mut more, &once, shard.tests.has.as_slice())?;
        add_all(alloc, &mut once, shard.tests.has.as_slice())?;
    }
    Ok(Seen { once, more })
}

/// The tests that passed in some shard.
pub fn passed_in(alloc: Global, shards: &[StoredRun]) -> Mem<BTreeSet<TestInstanceId>>
    ensures { IfOk result (λ set. (q : TestInstanceId) → has_id set.keys q ≡ passed_once shards.now q) }
{
    let mut set = BTreeSet::new(alloc);
    for shard in shards {
        add_all(alloc, &mut set, shard.tests.passed.as_slice())?;
    }
    Ok(set)
}

/// The first of some tests that is in a set, where it is not to be, or isn't, where it is.
pub fn first_amiss(
    alloc: Global,
    ids: &[TestInstanceId],
    set: &BTreeSet<TestInstanceId>,
    right: bool,
) -> Mem<Option<TestInstanceId>>
    ensures { IfOk result (FindsItem (λ id. has_id set.now.keys id ≡ right) ids.now) }
{
    for id in ids {
        if set.contains(id) != right {
            return Ok(Some(id.copy(alloc)?));
        }
    }
    Ok(None)
}

/// How many of some tests are in a set.
pub fn count_in(ids: &[TestInstanceId], set: &BTreeSet<TestInstanceId>) -> u64
    ensures { result ≡ length (filter (has_id set.now.keys) ids.now) }
{
    let mut count = 0;
    for id in ids {
        if set.contains(id) {
            count += 1;
        }
    }
    count
}
