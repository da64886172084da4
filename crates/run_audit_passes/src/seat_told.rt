// What was told of a test in a part, and what it takes of the limits.
ghost use Rattle.std.specs.Prelude.{◌≡◌, ◌+◌, nat_lt, IfOk, option_map};
ghost use Rattle.run_events.specs.declared.plan.PlanTest.{PlanTest as Planned};
ghost use Rattle.run_audit_machines.specs.Holders.{slot_told};
ghost use Rattle.run_audit_machines.specs.Limits.{seat_weight};
ghost use Rattle.run_audit_passes.specs.LimitTable.{seat_finished, told_seat, seat_started, slot_in_group};

use run_capture::{Duplicate, Mem, OutOfMemory, Text};
use run_events::{PlanTest, TestSlotAssignment};
use std::alloc::Global;

/// How often a test was told started and finished, and the slots that it was told last.
pub struct SeatTold {
    pub started: u64,
    pub finished: u64,
    pub slots: Option<TestSlotAssignment>,
}

// A call of its own, which keeps the proofs of all that hold one small.
impl Drop for SeatTold {
    fn drop(self) {
        let SeatTold {
            started: _,
            finished: _,
            slots: _,
        } = self;
    }
}

/// One more; without memory for it, where it is too many.
fn one_more(count: u64) -> Mem<u64>
    ensures { IfOk result (λ more. more ≡ count + 1) }
{
    match count.checked_add(1) {
        Some(more) => Ok(more),
        None => Err(OutOfMemory),
    }
}

/// Once it was told started in these slots.
pub fn started(alloc: Global, seat: &SeatTold, slots: &TestSlotAssignment) -> Mem<SeatTold>
    ensures { IfOk result (λ after. told_seat after ≡ seat_started (told_seat seat.now) slots.now) }
{
    let started = one_more(seat.started)?;
    let slots = slots.copy(alloc)?;
    Ok(SeatTold {
        started,
        finished: seat.finished,
        slots: Some(slots),
    })
}

/// Once it was told finished.
pub fn finished(alloc: Global, seat: &SeatTold) -> Mem<SeatTold>
    ensures { IfOk result (λ after. told_seat after ≡ seat_finished (told_seat seat.now)) }
{
    let finished = one_more(seat.finished)?;
    let slots = seat.slots.copy(alloc)?;
    Ok(SeatTold {
        started: seat.started,
        finished,
        slots,
    })
}

/// Whether it was told started more often than finished.
fn runs(seat: &SeatTold) -> bool
    ensures { result ≡ nat_lt seat.now.finished seat.now.started }
{
    seat.finished < seat.started
}

/// What the test takes of a limit.
pub fn weight_of(test: &PlanTest, seat: &SeatTold, limit: u32) -> u64
    ensures { result ≡ seat_weight limit (test.now, told_seat seat.now) }
{
    if runs(seat) {
        test.weight.min(limit) as u64
    } else {
        0
    }
}

/// The slot that it has among all tests, if it runs.
pub fn slot_of(seat: &SeatTold) -> Option<u32>
    ensures { (test : Planned) → result ≡ slot_told (test, told_seat seat.now) }
{
    if !runs(seat) {
        return None;
    }
    match &seat.slots {
        Some(slots) => Some(slots.global),
        None => None,
    }
}

/// The number of the slot in a group, where one was told.
fn number_in(slots: &TestSlotAssignment) -> Option<u32>
    ensures { result ≡ option_map (λ g. g.slot) slots.now.group }
{
    match &slots.group {
        Some(group) => Some(group.slot),
        None => None,
    }
}

/// The slot that it has in the group of this name, if it runs.
pub fn group_slot_of(
    alloc: Global,
    name: &Text,
    seat: &SeatTold,
) -> Mem<Option<(Text, Option<u32>)>>
    ensures { IfOk result (λ slot. slot ≡ slot_in_group name.now (told_seat seat.now)) }
{
    if !runs(seat) {
        return Ok(None);
    }
    match &seat.slots {
        Some(slots) => {
            let name = name.copy(alloc)?;
            Ok(Some((name, number_in(slots))))
        }
        None => Ok(None),
    }
}
