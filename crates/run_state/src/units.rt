// The units of a run, with what is counted of them.
ghost use Rattle.std.specs.Prelude.{◌≡◌, ◌<◌, ◌≤◌, ℕ, length, take, slice_index_or, slice_set, IfOk, OnOk, OnErr, Some};
ghost use Rattle.std.specs.Prelude.{None, true, ◌+◌, ◌-◌, ◌^◌, cond, map, option_map};
ghost use Rattle.std.specs.List.{list_all, list_any};
ghost use Rattle.run_clock.specs.Sleep.{IsDueFrom};
ghost use Rattle.run_model.specs.declared.unit_turn.UnitTurn.TheVariants.{Take, Decide, Due};
ghost use Rattle.run_model.specs.declared.unit_view.UnitView.{UnitView};
ghost use Rattle.run_model.specs.Admission.{handed_from, is_done, is_last, open_script};
ghost use Rattle.run_model.specs.Board.{reach_all, units_after};
ghost use Rattle.run_model.specs.Story.{is_live_unit};
ghost use Rattle.run_model.specs.Turns.{live_in, unit_takes};
ghost use Rattle.run_state.specs.Counted.{holders_in, holds_asked, working_in};
ghost use Rattle.run_state.specs.Forgotten.{forgotten_at};
ghost use Rattle.run_state.specs.Placed.{is_no_script};
ghost use Rattle.run_state.specs.UnitTurns.{MayTake, unit_deed, unit_next};

use crate::broadcast::{holders, holds_asked, reach_each};
use crate::counts::{count_after, left_after};
use crate::forgetting::{forget_at, forget_each};
use crate::scripts::{handed_from, open_script};
use crate::working::{admit, leave};
use run_capture::{List, Mem, OutOfMemory, Text};
use run_clock::sooner;
use run_events::Request;
use run_model::{Phase, UnitTurn};
use run_unit::{Unit, UnitEffects, Wants};
use std::alloc::Global;
use std::marker::Model;

/// Each script and test of the plan, once it was admitted, with counts of those that aren't over and of those that are
/// live, and the numbers of those that were admitted and aren't over, so that no turn looks at all but one that asks
/// something of all. Contracts see the list of the units.
#[derive(Drop)]
pub struct Units {
    items: Vec<Option<Unit>>,
    /// How many aren't over.
    left: usize,
    /// How many are live.
    live: u32,
    /// The numbers of those that were admitted and aren't over, in ascending order.
    working: Vec<u32>,
}

impl Model for Units {
    ghost use Rattle.std.specs.Prelude.{◌≡◌, ◌<◌, ◌^◌, List, Option, count_by, length};
    ghost use Rattle.run_model.specs.declared.unit_view.UnitView.{UnitView};
    ghost use Rattle.run_model.specs.Turns.{live_in};
    ghost use Rattle.run_state.specs.Counted.{is_left, working_in};

    ghost Value = { List (Option UnitView) };

    ghost view = { λ u. u.items.items };

    ghost invariant = { λ u. (u.left ≡ count_by is_left u.items.items)
        × (u.working.items ≡ working_in u.items.items)
        × (u.live ≡ live_in u.items.items)
        × (length u.items.items < 2 ^ 32) };
}

fn unit_is_done(unit: &Option<Unit>) -> bool
    ensures { result ≡ is_done unit.now }
{
    match unit {
        Some(unit) => matches!(unit.phase(), Phase::Over),
        None => false,
    }
}

// Whether each of some units was admitted and is over.
fn are_done(units: &[Option<Unit>]) -> bool
    ensures { result ≡ list_all is_done units.now }
{
    units.iter().all(|unit| unit_is_done(unit))
}

impl Units {
    /// Units none of which was admitted.
    pub fn new(alloc: Global, items: Vec<Option<Unit>>) -> Units
        requires none { (k : ℕ) → slice_index_or items.items k None ≡ None }
        requires few { length items.items < 2 ^ 32 }
        ensures { result ≡ items.items }
    {
        let left = items.len();
        Units {
            items,
            left,
            live: 0,
            working: Vec::new(alloc),
        }
    }

    /// How many they are.
    pub fn len(&self) -> usize
        ensures count { result ≡ length self.now }
        ensures few { length self.now < 2 ^ 32 }
    {
        self.items.len()
    }

    /// Whether a unit takes a turn at a moment of the run's clock, no earlier than its latest turn; a number of no
    /// admitted unit takes none.
    pub fn takes(&self, unit: u32, turn: &UnitTurn, now: u64) -> bool
        requires later { (u : UnitView) → slice_index_or self.now unit None ≡ Some u → u.latest
            ≤ now }
        ensures { result ≡ unit_takes now (slice_index_or self.now unit None) turn.now }
    {
        match self.items.get(unit as usize) {
            Some(Some(unit)) => unit.enabled(turn, now),
            _ => false,
        }
    }

    /// Which of the turns that come by themselves a unit takes at a moment, as `takes` says of each.
    pub fn wants(&self, unit: u32, now: u64) -> Wants
        requires later { (u : UnitView) → slice_index_or self.now unit None ≡ Some u → u.latest
            ≤ now }
        ensures take { result.take ≡ unit_takes now (slice_index_or self.now unit None) Take }
        ensures decide { (word : ℕ) → result.decide
            ≡ unit_takes now (slice_index_or self.now unit None) (Decide word) }
        ensures due { result.due ≡ unit_takes now (slice_index_or self.now unit None) Due }
    {
        match self.items.get(unit as usize) {
            Some(Some(unit)) => unit.wants(now),
            _ => Wants {
                take: false,
                decide: false,
                due: false,
            },
        }
    }

    /// How many were admitted and aren't over.
    pub fn working_count(&self) -> usize
        ensures { result ≡ length (working_in self.now) }
    {
        let _ = &self.items;
        self.working.len()
    }

    /// The number of one of those, by its place among them in ascending order.
    pub fn working_at(&self, place: usize) -> u32
        requires { place < length (working_in self.now) }
        ensures { result ≡ slice_index_or (working_in self.now) place 0 }
    {
        let _ = &self.items;
        self.working[place]
    }

    // The least moment at which the timer of a unit is due.
    fn due_of(&self, unit: u32) -> Option<u64>
        ensures { IsDueFrom (λ now. unit_takes now (slice_index_or self.now unit None) Due) result }
    {
        match self.items.get(unit as usize) {
            Some(Some(unit)) => unit.next_due(),
            _ => None,
        }
    }

    /// The least moment of the run's clock at which the timer of one is due.
    pub fn next_due(&self) -> Option<u64>
        ensures { IsDueFrom (λ now. list_any (λ unit. unit_takes now unit Due) self.now) result }
    {
        let mut first = None;
        for place in 0..self.working_count() {
            first = sooner(first, self.due_of(self.working_at(place)));
        }
        first
    }

    /// The phase of a unit, if it was admitted.
    pub fn phase(&self, unit: u32) -> Option<Phase>
        ensures { result ≡ option_map (λ unit. unit.phase) (slice_index_or self.now unit None) }
    {
        match self.items.get(unit as usize) {
            Some(Some(unit)) => Some(unit.phase()),
            _ => None,
        }
    }

    /// Which attempt a unit is at, if it was admitted.
    pub fn attempt(&self, unit: u32) -> Option<u32>
        ensures { result ≡ option_map (λ unit. unit.attempt) (slice_index_or self.now unit None) }
    {
        match self.items.get(unit as usize) {
            Some(Some(unit)) => Some(unit.attempt()),
            _ => None,
        }
    }

    /// How many are live.
    pub fn live(&self) -> u32
        ensures { result ≡ live_in self.now }
    {
        let _ = &self.items;
        self.live
    }

    /// Whether one has in its line what the open round asks.
    pub fn holds(&self, unit: u32, asks: Option<Request>) -> bool
        ensures holds { result ≡ holds_asked asks (slice_index_or self.now unit None) }
        ensures few { length self.now < 2 ^ 32 }
    {
        match self.items.get(unit as usize) {
            Some(unit) => holds_asked(unit, asks),
            None => false,
        }
    }

    /// How many have in their lines what the open round asks. Each is looked at.
    pub fn holders(&self, asks: Option<Request>) -> u32
        ensures { result ≡ holders_in asks self.now }
    {
        holders(self.items.as_slice(), asks)
    }

    /// Whether each was admitted and is over.
    pub fn are_over(&self) -> bool
        ensures { result ≡ list_all is_done self.now }
    {
        let _ = &self.items;
        self.left == 0
    }

    /// Whether the first ones, so many, were admitted and are over.
    pub fn are_first_over(&self, count: usize) -> bool
        requires { count ≤ length self.now }
        ensures { result ≡ list_all is_done (take count self.now) }
    {
        are_done(&self.items[..count])
    }

    /// The place of the next script, where the first units, so many, are the scripts: the first that wasn't admitted,
    /// where each before it is over.
    pub fn open_script(&self, count: usize) -> Option<usize>
        requires { count ≤ length self.now }
        ensures { result ≡ open_script (take count self.now) }
    {
        open_script(&self.items[..count])
    }

    /// What the scripts of these numbers handed on, where the first units, so many, are the scripts. None is looked at
    /// where there is no number.
    pub fn handed(&self, alloc: Global, count: usize, numbers: &[u32]) -> Mem<List<(Text, Text)>>
        requires { count ≤ length self.now }
        ensures { IfOk result (λ handed. handed ≡ handed_from numbers.now 0 (take count self.now)) }
    {
        if numbers.is_empty() {
            return Ok(List::new());
        }
        handed_from(alloc, numbers, &self.items[..count])
    }

    /// A unit takes a turn.
    pub fn step(&mut self, alloc: Global, unit: u32, turn: UnitTurn, now: u64) -> Mem<UnitEffects>
        requires { MayTake now unit turn self.old }
        ensures after { let deed = unit_deed now unit turn self.old in
            OnOk result (self.new ≡ units_after now deed.part self.old) }
        ensures sent { let deed = unit_deed now unit turn self.old in
            IfOk result (λ e. e.sent ≡ deed.sent) }
        ensures asked { let deed = unit_deed now unit turn self.old in
            IfOk result (λ e. e.asked ≡ deed.asked) }
        ensures info { let deed = unit_deed now unit turn self.old in
            IfOk result (λ e. e.info ≡ deed.info) }
        ensures over { let next = unit_next now unit turn self.old in
            IfOk result (λ e. e.over ≡ is_done next) }
        ensures err { OnErr result (self.new ≡ self.old) }
    {
        let was_live = is_live_at(self.items.as_slice(), unit);
        let effects = step_at(&mut self.items, alloc, unit as usize, turn, now)?;
        self.left = left_after(self.left, effects.over);
        self.live = count_after(self.live, was_live, is_live_at(self.items.as_slice(), unit));
        leave(&mut self.working, unit, effects.over);
        Ok(effects)
    }

    /// A request reaches each unit that was let go and isn't over: it stands in its line. Each unit is looked at.
    pub fn broadcast(&mut self, alloc: Global, request: Request) -> Mem<()>
        ensures ok { OnOk result (self.new ≡ reach_all (Some request) self.old) }
        ensures scripts { map is_no_script self.new ≡ map is_no_script self.old }
    {
        reach_each(alloc, self.items.as_mut_slice(), request)
    }

    /// None is admitted any more. Takes no memory.
    pub fn forget(&mut self)
        ensures count { length self.new ≡ length self.old }
        ensures none { (k : ℕ) → slice_index_or self.new k None ≡ None }
    {
        forget_each(self.items.as_mut_slice());
        self.left = self.items.len();
        self.live = 0;
        self.working.truncate(0);
    }

    /// Nothing is kept of the unit of a number, if there is one, where it is over and no request waits for it.
    pub fn forget_one(&mut self, unit: u32)
        ensures { self.new ≡ forgotten_at unit self.old }
    {
        forget_at(&mut self.items, unit);
    }

    /// A unit that wasn't admitted is.
    pub fn admit(&mut self, place: u32, unit: Unit) -> Mem<()>
        requires within { place < length self.old }
        requires absent { slice_index_or self.old place None ≡ None }
        ensures ok { OnOk result (self.new ≡ slice_set self.old place (Some unit)) }
        ensures err { OnErr result (self.new ≡ self.old) }
    {
        let over = is_over(&unit);
        let live = unit.is_live();
        let Ok(()) = admit(&mut self.working, place, over) else {
            drop(unit);
            return Err(OutOfMemory);
        };
        self.left = left_after(self.left, over);
        self.live = count_after(self.live, false, live);
        put(&mut self.items, place as usize, unit);
        Ok(())
    }
}

// The unit at a place takes a turn.
fn step_at(
    units: &mut Vec<Option<Unit>>,
    alloc: Global,
    unit: usize,
    turn: UnitTurn,
    now: u64,
) -> Mem<UnitEffects>
    requires { MayTake now unit turn units.old.items }
    ensures after { let deed = unit_deed now unit turn units.old.items in
        OnOk result (units.new.items ≡ units_after now deed.part units.old.items) }
    ensures sent { let deed = unit_deed now unit turn units.old.items in
        IfOk result (λ e. e.sent ≡ deed.sent) }
    ensures asked { let deed = unit_deed now unit turn units.old.items in
        IfOk result (λ e. e.asked ≡ deed.asked) }
    ensures info { let deed = unit_deed now unit turn units.old.items in
        IfOk result (λ e. e.info ≡ deed.info) }
    ensures over { let next = unit_next now unit turn units.old.items in
        IfOk result (λ e. e.over ≡ is_done next) }
    ensures err { OnErr result (units.new.items ≡ units.old.items) }
{
    match &mut units[unit] {
        Some(member) => {
            let effects = member.step(alloc, turn, now)?;
            Ok(effects)
        }
        None => unreachable!(),
    }
}

// Whether the unit of a number is live.
fn is_live_at(units: &[Option<Unit>], unit: u32) -> bool
    ensures { result ≡ is_live_unit (slice_index_or units.now unit None) }
{
    match units.get(unit as usize) {
        Some(Some(unit)) => unit.is_live(),
        _ => false,
    }
}

fn is_over(unit: &Unit) -> bool
    ensures { result ≡ is_last unit.now.phase }
{
    matches!(unit.phase(), Phase::Over)
}

// Puts a unit at its place.
fn put(units: &mut Vec<Option<Unit>>, place: usize, unit: Unit)
    requires { place < length units.old.items }
    ensures { units.new.items ≡ slice_set units.old.items place (Some unit) }
{
    units[place] = Some(unit);
}

/// So many units, none of which was admitted.
pub fn unadmitted(alloc: Global, count: usize) -> Mem<Vec<Option<Unit>>>
    ensures count { IfOk result (λ v. length v.items ≡ count) }
    ensures none { IfOk result (λ v. (k : ℕ) → slice_index_or v.items k None ≡ None) }
{
    let mut units = Vec::with_capacity(alloc, count)?;
    for _number in 0..count {
        units.push(None)?;
    }
    Ok(units)
}
