// Whether recorded shards of one plan are together the whole of it.
ghost use Rattle.std.specs.Prelude.{◌≡◌, ◌≤◌, ◌<◌, length, nat_lt, IfOk, IsSome, true};
ghost use Rattle.std.specs.List.{All};
ghost use Rattle.run_events.specs.declared.plan.TestInstanceId.{TestInstanceId};
ghost use Rattle.run_input.specs.Input.{plan_line_of};
ghost use Rattle.run_rerun.specs.Outstanding.{has_id};
ghost use Rattle.run_rerun.specs.Shards.{AreComplete, AreOfOnePlan, SaysShards, first_line, is_entire, shards_with};
ghost use Rattle.run_rerun.specs.Shards.{whole_tests};
ghost use Rattle.run_rerun.specs.Found.{FindsPlace, SaysHad};

use crate::answers::{ShardsVerdict, StoredRun};
use crate::seen::{count_in, first_amiss, passed_in, seen_in};
use crate::whole::{is_of_plan, wanted_of, whole_tests};
use run_capture::{List, Mem};
use run_events::{PlanTest, TestInstanceId};
use std::alloc::Global;
use std::collections::BTreeSet;

// The first shard that isn't complete.
fn first_cut(shards: &[StoredRun]) -> Option<u64>
    ensures { FindsPlace (λ shard. is_entire shard ≡ true) shards.now result }
{
    for (place, shard) in shards.iter().enumerate() {
        if !(shard.whole && shard.tests.over) {
            return Some(place as u64);
        }
    }
    None
}

// The first shard whose plan doesn't have these tests.
fn first_other(alloc: Global, tests: &List<PlanTest>, shards: &[StoredRun]) -> Mem<Option<u64>>
    requires { All (λ shard. IsSome (plan_line_of shard.line)) shards.now }
    ensures { IfOk result (FindsPlace (λ shard. whole_tests shard.line ≡ tests.now) shards.now) }
{
    for (place, shard) in shards.iter().enumerate() {
        if !is_of_plan(alloc, tests, shard.line.as_slice())? {
            return Ok(Some(place as u64));
        }
    }
    Ok(None)
}

// How many of these tests there are, and how many passed.
fn counted(alloc: Global, shards: &[StoredRun], ids: &[TestInstanceId]) -> Mem<ShardsVerdict>
    requires { All (λ id. shards_with shards.now id ≡ 1) ids.now }
    ensures { IfOk result (SaysHad shards.now ids.now) }
{
    let passed = passed_in(alloc, shards)?;
    Ok(ShardsVerdict::Whole {
        tests: ids.len() as u64,
        passed: count_in(ids, &passed),
    })
}

// What shards come to that want these tests, where none of them is in two, and these are in one.
fn found_in(
    alloc: Global,
    shards: &[StoredRun],
    ids: &[TestInstanceId],
    once: &BTreeSet<TestInstanceId>,
) -> Mem<ShardsVerdict>
    requires once { (q : TestInstanceId) → has_id once.now.keys q ≡ nat_lt 0 (shards_with shards.now q) }
    requires most { All (λ id. shards_with shards.now id ≤ 1) ids.now }
    ensures { IfOk result (SaysHad shards.now ids.now) }
{
    let found = first_amiss(alloc, ids, once, true)?;
    match found {
        Some(id) => Ok(ShardsVerdict::Missing(id)),
        None => counted(alloc, shards, ids),
    }
}

// What shards come to that want these tests.
fn verdict_on(alloc: Global, shards: &[StoredRun], ids: &[TestInstanceId]) -> Mem<ShardsVerdict>
    ensures { IfOk result (SaysHad shards.now ids.now) }
{
    let seen = seen_in(alloc, shards)?;
    let found = first_amiss(alloc, ids, &seen.more, false)?;
    match found {
        Some(id) => Ok(ShardsVerdict::Twice(id)),
        None => found_in(alloc, shards, ids, &seen.once),
    }
}

// What complete shards of one plan come to, which has these tests.
fn wanted_in(alloc: Global, tests: &List<PlanTest>, shards: &[StoredRun]) -> Mem<ShardsVerdict>
    requires complete { AreComplete shards.now }
    requires one_plan { AreOfOnePlan shards.now }
    requires tests { tests.now ≡ whole_tests (first_line shards.now) }
    ensures { IfOk result (SaysShards shards.now) }
{
    let ids = wanted_of(alloc, tests.as_slice())?;
    let verdict = verdict_on(alloc, shards, ids.as_slice())?;
    Ok(verdict)
}

// What complete shards come to, the first of which has this plan line.
fn verdict_of(alloc: Global, line: &[u8], shards: &[StoredRun]) -> Mem<ShardsVerdict>
    requires lines { All (λ shard. IsSome (plan_line_of shard.line)) shards.now }
    requires line { IsSome (plan_line_of line.now) }
    requires first { line.now ≡ first_line shards.now }
    requires complete { AreComplete shards.now }
    ensures { IfOk result (SaysShards shards.now) }
{
    let tests = whole_tests(alloc, line)?;
    let other = first_other(alloc, &tests, shards)?;
    match other {
        Some(shard) => Ok(ShardsVerdict::Other { shard }),
        None => wanted_in(alloc, &tests, shards),
    }
}

/// What recorded shards come to together, one at least: they are the whole of one plan; or the first that is cut short;
/// or else the first of another plan than the first one's; or else the first test, in plan order, that more than one of
/// them has; or else the first that none has.
pub fn shards_verdict(alloc: Global, shards: &[StoredRun]) -> Mem<ShardsVerdict>
    requires some { 0 < length shards.now }
    requires lines { All (λ shard. IsSome (plan_line_of shard.line)) shards.now }
    ensures { IfOk result (SaysShards shards.now) }
{
    match first_cut(shards) {
        Some(shard) => Ok(ShardsVerdict::Cut { shard }),
        None => verdict_of(alloc, shards[0].line.as_slice(), shards),
    }
}
