// The limits and the slots of a part, event by event.
ghost use Rattle.std.specs.Prelude.{◌≡◌, ◌<◌, ◌++◌, ◌∷◌, [], List, length, map, slice_get, Some, IfOk, OnOk};
ghost use Rattle.run_events.specs.declared.plan.Group.{Group as Limited};
ghost use Rattle.run_audit_machines.specs.Limits.{Seated, no_seats};
ghost use Rattle.run_audit_passes.specs.LimitTable.{AreLimits, ChangesSeats, IsFirstTable, seat_finished, told_seat};
ghost use Rattle.run_audit_passes.specs.LimitTable.{seat_started};

use crate::limit_table::{LimitTable, change, seat};
use crate::seat_told::{SeatTold, finished, started};
use crate::taken::{AllTaken, GroupsTaken};
use crate::{PartAgain, PartLaw, PlanPlaces, TestPlaces};
use run_audit_model::AuditEvent;
use run_capture::{Duplicate, Mem, OutOfMemory, Text};
use run_events::{Group, Settings, TestSlotAssignment};
use std::alloc::Global;
use std::collections::{BTreeMap, BTreeSet};
use std::marker::Model;

/// The tests of a part, with what was told of them, and what those that run take of the limits.
#[derive(Drop)]
pub struct LimitPart<'a> {
    alloc: Global,
    settings: &'a Settings,
    places: PlanPlaces,
    limits: BTreeMap<Text, u32>,
    table: LimitTable,
    // Whether an event was refused, or one couldn't be taken for want of memory: then no further one is taken.
    broken: bool,
}

impl<'a> Model for LimitPart<'a> {
    ghost use Rattle.run_audit_machines.specs.Limits.{SeatsNow};
    ghost use Rattle.run_audit_passes.specs.LimitTable.{IsLimitPart, seats_now};

    ghost Value = { SeatsNow };

    ghost view = { λ l. seats_now l.settings.now l.table.told };

    ghost invariant = { λ l. IsLimitPart l.settings.now l.places l.limits l.broken l.table };
}

/// One group more: its limit counts, if no other before it has its name.
fn add_limit(alloc: Global, limits: &mut BTreeMap<Text, u32>, group: &Group) -> Mem<()>
    ensures { OnOk result ((groups : List Limited) → AreLimits groups limits.old
        → AreLimits (groups ++ group.now ∷ []) limits.new) }
{
    if limits.contains_key(&group.name) {
        return Ok(());
    }
    let name = group.name.copy(alloc)?;
    limits.insert(name, group.limit)?;
    Ok(())
}

/// The limits of groups, by their names.
fn limits_of(alloc: Global, groups: &[Group]) -> Mem<BTreeMap<Text, u32>>
    ensures { IfOk result (λ limits. AreLimits groups.now limits) }
{
    let mut limits = BTreeMap::new(alloc);
    for group in groups {
        add_limit(alloc, &mut limits, group)?;
    }
    Ok(limits)
}

/// Before a part: no test was told.
fn no_table(alloc: Global) -> LimitTable
    ensures { IsFirstTable result }
{
    LimitTable {
        told: BTreeMap::new(alloc),
        all: AllTaken {
            sum: 0,
            slots: BTreeSet::new(alloc),
        },
        groups: GroupsTaken {
            sums: BTreeMap::new(alloc),
            slots: BTreeSet::new(alloc),
        },
    }
}

impl<'a> LimitPart<'a> {
    /// Before a part of a run by these settings, with the places of the tests of their plan.
    pub fn new(alloc: Global, settings: &'a Settings, places: PlanPlaces) -> Mem<Self>
        requires { places ≡ map (λ test. test.id) settings.now.plan.tests }
        ensures { IfOk result (λ part. part ≡ no_seats settings.now) }
    {
        let limits = limits_of(alloc, settings.plan.groups.as_slice())?;
        Ok(LimitPart {
            alloc,
            settings,
            places,
            limits,
            table: no_table(alloc),
            broken: false,
        })
    }

    /// What was told of the test at a place.
    fn seat(&self, place: usize) -> Mem<SeatTold>
        ensures { IfOk result (λ told. (s : Seated) → slice_get self.now.seats place ≡ Some s → told_seat told ≡ s.1) }
    {
        seat(self.alloc, &self.table.told, place)
    }

    /// Sets that, and says whether all limits are kept, and its slots are no other's.
    fn set(&mut self, place: usize, new: SeatTold) -> Mem<bool>
        requires { place < length self.old.seats }
        ensures { IfOk result (λ kept. ChangesSeats self.old self.new place (told_seat new) kept) }
    {
        let broken = self.broken;
        if broken {
            return Err(OutOfMemory);
        }
        self.broken = true;
        let kept = change(
            self.alloc,
            &mut self.table,
            self.settings,
            &self.limits,
            place,
            new,
        )?;
        self.broken = !kept;
        Ok(kept)
    }

    /// A test was told started in these slots.
    fn start(&mut self, place: usize, slots: &TestSlotAssignment) -> Mem<bool>
        requires { place < length self.old.seats }
        ensures { IfOk result (λ kept. (s : Seated) → slice_get self.old.seats place ≡ Some s
            → ChangesSeats self.old self.new place (seat_started s.1 slots.now) kept) }
    {
        let old = self.seat(place)?;
        let new = started(self.alloc, &old, slots)?;
        self.set(place, new)
    }

    /// A test was told finished.
    fn finish(&mut self, place: usize) -> Mem<bool>
        requires { place < length self.old.seats }
        ensures { IfOk result (λ kept. (s : Seated) → slice_get self.old.seats place ≡ Some s
            → ChangesSeats self.old self.new place (seat_finished s.1) kept) }
    {
        let old = self.seat(place)?;
        let new = finished(self.alloc, &old)?;
        self.set(place, new)
    }
}

impl<'a> PartLaw for LimitPart<'a> {
    ghost use Rattle.run_audit_machines.specs.Laws.{HoldsAlways};
    ghost use Rattle.run_audit_machines.specs.Limits.{limit_part};
    ghost use Rattle.run_audit_machines.proofs.LimitLemmas.{limit_completes};

    ghost part = { limit_part };

    ghost holds = { HoldsAlways };

    fn take(&mut self, event: &AuditEvent) -> Mem<bool> {
        let broken = self.broken;
        if broken {
            return Err(OutOfMemory);
        }
        match event {
            AuditEvent::TestStarted { test, slot } => match self.places.place(test) {
                Some(place) => self.start(place, slot),
                None => Ok(true),
            },
            AuditEvent::Finished { test, .. } => match self.places.place(test) {
                Some(place) => self.finish(place),
                None => Ok(true),
            },
            _ => Ok(true),
        }
    }

    fn is_done(&self) -> bool {
        true
    }

    ghost completes = { limit_completes };
}

impl<'a> PartAgain for LimitPart<'a> {
    ghost use Rattle.std.specs.Prelude.{refl};
    ghost use Rattle.run_audit_machines.specs.Limits.{no_seats};
    ghost use Rattle.run_audit_machines.proofs.LimitStepLemmas.{first_kept};

    ghost first = { λ now. no_seats now.settings };

    fn begin_again(&mut self) {
        self.table = no_table(self.alloc);
        self.broken = false;
    }

    ghost kept = { first_kept };

    ghost again = { λ s. refl };
}
