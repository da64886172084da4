// What the tests that run take of the limits, and the slots that they have.
ghost use Rattle.std.specs.Prelude.{ℕ, ◌≡◌, ◌+◌, List, nat_eq, cond, Option, Some, IfOk, OnOk};
ghost use lib.Pointwise.{pointwise};
ghost use Rattle.std.specs.BTreeSet.{contains};
ghost use Rattle.run_events.specs.declared.plan.Group.{Group};
ghost use Rattle.run_laws_events.specs.PlanLimits.{group_named};
ghost use Rattle.run_audit_machines.specs.Holders.{own_group_slot, same_slot, slot_told};
ghost use Rattle.run_audit_machines.specs.Limits.{Seated};
ghost use Rattle.run_audit_passes.specs.LimitTable.{AreLimits, ChangesAll, ChangesGroups, StandsAlone, TakesAll};
ghost use Rattle.run_audit_passes.specs.LimitTable.{TakesGroups};
ghost use Rattle.run_audit_passes.specs.LimitTable.{group_slot_order, held_after, is_free_beside, left_held, told_seat};
ghost use Rattle.run_audit_passes.specs.LimitTable.{slot_in_group, sum_in};

use crate::seat_told::{SeatTold, group_slot_of, slot_of, weight_of};
use run_capture::{Duplicate, Mem, OutOfMemory, Text};
use run_events::PlanTest;
use std::alloc::Global;
use std::cmp::Ord;
use std::collections::{BTreeMap, BTreeSet};

/// What is taken of the limit on all tests, and the slots that are held.
#[derive(Drop)]
pub struct AllTaken {
    pub sum: u64,
    pub slots: BTreeSet<u32>,
}

/// What is taken of the limits of groups, by their names, and the slots that are held in them.
#[derive(Drop)]
pub struct GroupsTaken {
    pub sums: BTreeMap<Text, u64>,
    pub slots: BTreeSet<(Text, Option<u32>)>,
}

/// A sum with one of its parts replaced; without memory for it, where it is too great.
fn sum_after(sum: u64, old: u64, new: u64) -> Mem<u64>
    ensures { IfOk result (λ after. after + old ≡ sum + new) }
{
    let Some(more) = sum.checked_add(new) else {
        return Err(OutOfMemory);
    };
    match more.checked_sub(old) {
        Some(after) => Ok(after),
        None => Err(OutOfMemory),
    }
}

/// Gives a slot back.
fn give_back<K: Ord + Drop>(held: &mut BTreeSet<K>, old: &Option<K>)
    ensures { (k : K) → contains K.cmp held.new k ≡ left_held K.cmp (contains K.cmp held.old) old.now k }
{
    if let Some(slot) = old {
        held.remove(slot);
    }
}

/// Gives one slot back and takes another, if no other test has it.
fn hold<K: Ord + Drop>(held: &mut BTreeSet<K>, old: Option<K>, new: Option<K>) -> Mem<bool>
    ensures free { IfOk result (λ free. free ≡ is_free_beside K.cmp (contains K.cmp held.old) old new) }
    ensures held { OnOk result ((k : K) → contains K.cmp held.new k
        ≡ held_after K.cmp (contains K.cmp held.old) old new k) }
{
    give_back(held, &old);
    match new {
        Some(slot) => {
            let free = held.insert(slot)?;
            Ok(free)
        }
        None => Ok(true),
    }
}

/// What a test whose seat changes makes of what is taken of the limit on all tests: whether the limit is kept, and the
/// slot no other's.
pub fn change_all(
    all: &mut AllTaken,
    threads: u32,
    test: &PlanTest,
    old: &SeatTold,
    new: &SeatTold,
) -> Mem<bool>
    ensures { IfOk result (λ kept. (seats : List Seated) (place : ℕ) → TakesAll threads all.old seats
        → StandsAlone nat_eq slot_told seats place (test.now, told_seat old.now)
        → ChangesAll threads all.new (test.now, told_seat new.now) kept seats place) }
{
    let sum = sum_after(
        all.sum,
        weight_of(test, old, threads),
        weight_of(test, new, threads),
    )?;
    all.sum = sum;
    let free = hold(&mut all.slots, slot_of(old), slot_of(new))?;
    Ok(free && sum <= threads as u64)
}

/// What is taken of the limit of the group of a name.
fn sum_of(sums: &BTreeMap<Text, u64>, name: &Text) -> u64
    ensures { result ≡ sum_in sums.now name.now }
{
    match sums.get(name) {
        Some(sum) => *sum,
        None => 0,
    }
}

/// Replaces one of its parts, and answers what is taken then.
fn change_sum(
    alloc: Global,
    sums: &mut BTreeMap<Text, u64>,
    name: &Text,
    old: u64,
    new: u64,
) -> Mem<u64>
    ensures sum { IfOk result (λ sum. sum + old ≡ sum_in sums.old name.now + new) }
    ensures sums { IfOk result (λ sum. (k : List ℕ) → sum_in sums.new k
        ≡ cond (pointwise nat_eq name.now k) sum (sum_in sums.old k)) }
{
    let sum = sum_after(sum_of(sums, name), old, new)?;
    let key = name.copy(alloc)?;
    sums.insert(key, sum)?;
    Ok(sum)
}

/// Gives the slot of a test in its group back, and takes its new one, if no other test has it.
fn change_slot(
    alloc: Global,
    slots: &mut BTreeSet<(Text, Option<u32>)>,
    name: &Text,
    old: &SeatTold,
    new: &SeatTold,
) -> Mem<bool>
    ensures free { IfOk result (λ free. free ≡ is_free_beside group_slot_order (contains group_slot_order slots.old)
        (slot_in_group name.now (told_seat old.now)) (slot_in_group name.now (told_seat new.now))) }
    ensures held { OnOk result ((k : List ℕ × Option ℕ) → contains group_slot_order slots.new k
        ≡ held_after group_slot_order (contains group_slot_order slots.old)
        (slot_in_group name.now (told_seat old.now)) (slot_in_group name.now (told_seat new.now)) k) }
{
    let before = group_slot_of(alloc, name, old)?;
    let after = group_slot_of(alloc, name, new)?;
    hold(slots, before, after)
}

/// What a test whose seat changes makes of what is taken of the limit of its group, the first of this name.
fn change_group(
    alloc: Global,
    groups: &mut GroupsTaken,
    name: &Text,
    limit: u32,
    test: &PlanTest,
    old: &SeatTold,
    new: &SeatTold,
) -> Mem<bool>
    ensures { IfOk result (λ kept. (all : List Group) (group : Group) (seats : List Seated) (place : ℕ)
        → test.now.group ≡ Some name.now → group_named name.now all ≡ Some group → group.limit ≡ limit
        → TakesGroups all groups.old seats
        → StandsAlone same_slot (own_group_slot all) seats place (test.now, told_seat old.now)
        → ChangesGroups all groups.new (test.now, told_seat new.now) kept seats place) }
{
    let before = weight_of(test, old, limit);
    let after = weight_of(test, new, limit);
    let sum = change_sum(alloc, &mut groups.sums, name, before, after)?;
    let free = change_slot(alloc, &mut groups.slots, name, old, new)?;
    Ok(free && sum <= limit as u64)
}

/// The same of whatever group it names, if the plan has that.
pub fn change_groups(
    alloc: Global,
    groups: &mut GroupsTaken,
    limits: &BTreeMap<Text, u32>,
    test: &PlanTest,
    old: &SeatTold,
    new: &SeatTold,
) -> Mem<bool>
    ensures { IfOk result (λ kept. (all : List Group) (seats : List Seated) (place : ℕ)
        → AreLimits all limits.now → TakesGroups all groups.old seats
        → StandsAlone same_slot (own_group_slot all) seats place (test.now, told_seat old.now)
        → ChangesGroups all groups.new (test.now, told_seat new.now) kept seats place) }
{
    let Some(name) = &test.group else {
        return Ok(true);
    };
    match limits.get(name) {
        Some(limit) => change_group(alloc, groups, name, *limit, test, old, new),
        None => Ok(true),
    }
}
