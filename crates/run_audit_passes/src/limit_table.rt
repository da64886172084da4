// What is kept of the tests of a part, to tell by look-ups whether their limits and slots allow an event.
ghost use Rattle.std.specs.Prelude.{ℕ, ◌≡◌, ◌<◌, ◌&&◌, nat_eq, length, slice_get, cond, Some, IfOk, OnOk};
ghost use Rattle.std.specs.BTreeMap.{get};
ghost use Rattle.std.specs.Ordering.{nat_cmp};
ghost use Rattle.run_events.specs.declared.plan.PlanTest.{PlanTest as Planned};
ghost use Rattle.run_audit_passes.specs.LimitTable.{AreLimits, ChangesTable, IsTable, TakesSeat, seat_at, told_seat};

use crate::seat_told::SeatTold;
use crate::taken::{AllTaken, GroupsTaken, change_all, change_groups};
use run_capture::{Duplicate, Mem, Text};
use run_events::Settings;
use std::alloc::Global;
use std::collections::BTreeMap;

/// What was told of the tests, by their places, and what those that run take of the limits.
pub struct LimitTable {
    pub told: BTreeMap<usize, SeatTold>,
    pub all: AllTaken,
    pub groups: GroupsTaken,
}

// A call of its own, which keeps the proofs of all that hold a table small.
impl Drop for LimitTable {
    fn drop(self) {
        let LimitTable {
            told: _,
            all: _,
            groups: _,
        } = self;
    }
}

/// What was told of the test at a place.
pub fn seat(alloc: Global, told: &BTreeMap<usize, SeatTold>, place: usize) -> Mem<SeatTold>
    ensures { IfOk result (λ seat. told_seat seat ≡ seat_at (get nat_cmp told.now) place) }
{
    match told.get(&place) {
        Some(seat) => {
            let slots = seat.slots.copy(alloc)?;
            Ok(SeatTold {
                started: seat.started,
                finished: seat.finished,
                slots,
            })
        }
        None => Ok(SeatTold {
            started: 0,
            finished: 0,
            slots: None,
        }),
    }
}

/// Keeps what was told of the test at a place.
fn put(told: &mut BTreeMap<usize, SeatTold>, place: usize, new: SeatTold) -> Mem<()>
    ensures { OnOk result ((q : ℕ) → seat_at (get nat_cmp told.new) q
        ≡ cond (nat_eq place q) (told_seat new) (seat_at (get nat_cmp told.old) q)) }
{
    told.insert(place, new)?;
    Ok(())
}

/// Whether both hold.
fn both(all: bool, groups: bool) -> bool
    ensures { result ≡ (all && groups) }
{
    all && groups
}

/// What the test takes of the limits, once this is told of it: whether all limits are kept, and its slots are no
/// other's.
fn take(
    alloc: Global,
    table: &mut LimitTable,
    settings: &Settings,
    limits: &BTreeMap<Text, u32>,
    place: usize,
    new: &SeatTold,
) -> Mem<bool>
    requires { place < length settings.now.plan.tests }
    ensures { IfOk result (λ kept. (test : Planned) → slice_get settings.now.plan.tests place ≡ Some test
        → AreLimits settings.now.plan.groups limits.now → IsTable settings.now table.old
        → TakesSeat settings.now table.old table.new place (test, told_seat new.now) kept) }
{
    let test = &settings.plan.tests.as_slice()[place];
    let old = seat(alloc, &table.told, place)?;
    let all = change_all(&mut table.all, settings.threads, test, &old, new)?;
    let groups = change_groups(alloc, &mut table.groups, limits, test, &old, new)?;
    Ok(both(all, groups))
}

/// Sets what was told of the test at a place, and says whether all limits are kept, and its slots are no other's.
pub fn change(
    alloc: Global,
    table: &mut LimitTable,
    settings: &Settings,
    limits: &BTreeMap<Text, u32>,
    place: usize,
    new: SeatTold,
) -> Mem<bool>
    requires { place < length settings.now.plan.tests }
    ensures { IfOk result (λ kept. (test : Planned) → slice_get settings.now.plan.tests place ≡ Some test
        → AreLimits settings.now.plan.groups limits.now → IsTable settings.now table.old
        → ChangesTable settings.now table.old table.new place (test, told_seat new) kept) }
{
    let kept = take(alloc, table, settings, limits, place, &new)?;
    put(&mut table.told, place, new)?;
    Ok(kept)
}
