// A unit: a setup script, or one test with its attempts.
ghost use Rattle.std.specs.Prelude.{ℕ, ◌≡◌, ◌+◌, ◌≤◌, ◌<◌, ◌^◌, length, IfOk, OnOk, OnErr, Some, option_map, slice_get};
ghost use Rattle.std.specs.Prelude.{true, false};
ghost use Rattle.std.specs.List.{list_any};
ghost use Rattle.run_clock.specs.Sleep.{IsDueFrom};
ghost use Rattle.run_model.specs.Unit.{row, takes, is_live, reached};
ghost use Rattle.run_model.specs.Admission.{first_view, script_view, skipped_view, start_message, variables_of};
ghost use Rattle.run_model.specs.Admission.{is_last, scripts_in, terms_at, unit_of_test};
ghost use Rattle.run_model.specs.Backoff.{retry_count};
ghost use Rattle.run_model.specs.declared.phase.Phase.TheVariants as phases;
ghost use Rattle.run_model.specs.declared.unit_turn.UnitTurn.TheVariants.{Take, Decide, Due};
ghost use Rattle.run_unit.specs.Alike.{alike_of};
ghost use Rattle.run_unit.specs.Effects.{IsRow};
ghost use Rattle.run_unit.specs.Gone.{gone, is_spent};
ghost use Rattle.run_unit.specs.Timely.{IsCurrent, IsTried};
ghost use Rattle.run_model.specs.Same.{is_request};

use crate::acting::{act, is_enabled};
use crate::alike::Alike;
use crate::effects::UnitEffects;
use crate::env::variables_of;
use crate::first::first_view;
use crate::messages::start_message;
use crate::requests::{has_request, holds, is_live};
use crate::script::script_view;
use crate::timing::next_due;
use crate::wants::{Wants, no_wants, wakes_of, wants_of};
use run_capture::{List, Mem, Text};
use run_events::{Message, Request, Settings, StressIndex, TestSlotAssignment};
use run_model::{Phase, UnitTurn, UnitView};
use std::alloc::Global;
use std::marker::Model;

/// A setup script, or one test with its attempts. Contracts see it as the unit table does.
#[derive(Drop)]
pub struct Unit {
    // Boxed, since it is wide and a new unit is moved often. None where the unit is over and was forgotten.
    view: Option<Box<UnitView>>,
    // Before this moment it takes no turn that comes by itself, so that most often the view isn't looked at.
    wakes: u64,
}

impl Model for Unit {
    ghost use Rattle.run_model.specs.declared.unit_view.UnitView.{UnitView};
    ghost use Rattle.run_unit.specs.Timely.{IsCurrent, IsQuietUntil, IsTried};
    ghost use Rattle.std.specs.Prelude.{option_map, unwrap_or};
    ghost use Rattle.run_unit.specs.Gone.{gone};

    ghost Value = { UnitView };

    ghost view = { λ u. unwrap_or (option_map (λ view. view.value) u.view) gone };

    ghost invariant = { λ u. let view = unwrap_or (option_map (λ view. view.value) u.view) gone in
        IsCurrent view × IsTried view × IsQuietUntil view u.wakes };
}

impl Unit {
    // A unit as it begins.
    fn begun(alloc: Global, view: UnitView) -> Mem<Unit>
        requires current { IsCurrent view }
        requires tried { IsTried view }
        ensures { IfOk result (λ u. u ≡ view) }
    {
        let wakes = wakes_of(&view);
        let view = Box::new(alloc, view)?;
        Ok(Unit {
            view: Some(view),
            wakes,
        })
    }

    /// The test at this place of the plan, admitted in this sub-run of a stress run and in this slot, where its scripts
    /// handed these variables on.
    pub fn test(
        alloc: Global,
        settings: &Settings,
        alike: &Alike,
        index: Option<StressIndex>,
        test: u32,
        slot: TestSlotAssignment,
        handed: List<(Text, Text)>,
    ) -> Mem<Unit>
        requires alike { alike.now ≡ alike_of settings.now }
        requires planned { test < length settings.now.plan.tests }
        requires numbered { unit_of_test settings.now test < 2 ^ 32 }
        requires attempts { retry_count (terms_at settings.now test).retries + 1 < 2 ^ 32 }
        ensures view { IfOk result (λ u. option_map
            (first_view settings.now index (unit_of_test settings.now test) slot handed)
            (slice_get settings.now.plan.tests test) ≡ Some u) }
        ensures phase { IfOk result (λ u. u.phase ≡ phases.StartSent) }
    {
        let planned = &settings.plan.tests.as_slice()[test as usize];
        let unit = settings.plan.scripts.len() as u32 + test;
        let view = first_view(
            alloc,
            settings,
            &alike.tests,
            index,
            unit,
            slot,
            handed,
            planned,
        )?;
        Unit::begun(alloc, view)
    }

    /// The test at this place of the plan, which doesn't match: it is over from its admission.
    pub fn skipped(
        alloc: Global,
        settings: &Settings,
        alike: &Alike,
        index: Option<StressIndex>,
        test: u32,
    ) -> Mem<Unit>
        requires alike { alike.now ≡ alike_of settings.now }
        requires planned { test < length settings.now.plan.tests }
        requires numbered { unit_of_test settings.now test < 2 ^ 32 }
        requires attempts { retry_count (terms_at settings.now test).retries + 1 < 2 ^ 32 }
        ensures view { IfOk result (λ u. option_map (skipped_view settings.now index (unit_of_test settings.now test))
            (slice_get settings.now.plan.tests test) ≡ Some u) }
        ensures phase { IfOk result (λ u. u.phase ≡ phases.Over) }
    {
        let slot = TestSlotAssignment {
            global: 0,
            group: None,
        };
        let mut unit = Unit::test(alloc, settings, alike, index, test, slot, List::new())?;
        match &mut unit.view {
            Some(view) => {
                view.phase = Phase::Over;
                unit.wakes = wakes_of(&**view);
            }
            None => unreachable!(),
        }
        Ok(unit)
    }

    /// The script at this place of the plan.
    pub fn script(
        alloc: Global,
        settings: &Settings,
        alike: &Alike,
        index: Option<StressIndex>,
        script: u32,
    ) -> Mem<Unit>
        requires alike { alike.now ≡ alike_of settings.now }
        requires planned { script < length settings.now.plan.scripts }
        requires numbered { scripts_in settings.now < 2 ^ 32 }
        ensures view { IfOk result (λ u. option_map (script_view settings.now index script)
            (slice_get settings.now.plan.scripts script) ≡ Some u) }
        ensures phase { IfOk result (λ u. u.phase ≡ phases.StartSent) }
    {
        let planned = &settings.plan.scripts.as_slice()[script as usize];
        let view = script_view(alloc, settings, &alike.scripts, index, script, planned)?;
        Unit::begun(alloc, view)
    }

    /// The message that it sends when it is admitted.
    pub fn start_message(&self, alloc: Global) -> Mem<Message>
        requires { is_last self.now.phase ≡ false }
        ensures { IfOk result (λ m. m ≡ start_message self.now.role self.now) }
    {
        match &self.view {
            Some(view) => start_message(alloc, &**view),
            None => unreachable!(),
        }
    }

    pub fn phase(&self) -> Phase
        ensures { result ≡ self.now.phase }
    {
        match &self.view {
            Some(view) => view.phase,
            None => Phase::Over,
        }
    }

    /// Which attempt it is at, from 1; between two attempts the failed one.
    pub fn attempt(&self) -> u32
        ensures { result ≡ self.now.attempt }
    {
        match &self.view {
            Some(view) => view.attempt,
            None => 1,
        }
    }

    /// The variables that it handed on, with their values: none where it is no script, or gave none.
    pub fn variables(&self) -> &[(Text, Text)]
        ensures { result.now ≡ variables_of self.now.env }
    {
        match &self.view {
            Some(view) => variables_of(&view.env),
            None => &[],
        }
    }

    /// Whether it was let go and isn't over, so that a request that is broadcast reaches it.
    pub fn is_live(&self) -> bool
        ensures { result ≡ is_live self.now.phase }
    {
        is_live(self.phase())
    }

    /// Whether it is over and no request waits for it, so that it can be forgotten.
    pub fn is_spent(&self) -> bool
        ensures { result ≡ is_spent self.now }
    {
        match &self.view {
            Some(view) => matches!(view.phase, Phase::Over) && !has_request(&view.line),
            None => true,
        }
    }

    /// Whether this request waits in its line.
    pub fn holds(&self, request: Request) -> bool
        ensures { result ≡ list_any (is_request request) self.now.line }
    {
        match &self.view {
            Some(view) => holds(view.line.as_slice(), request),
            None => false,
        }
    }

    /// A request comes last in its line. After want of memory the unit is unchanged.
    pub fn request(&mut self, alloc: Global, request: Request) -> Mem<()>
        requires live { is_live self.old.phase ≡ true }
        ensures ok { OnOk result (self.new ≡ reached request self.old) }
        ensures err { OnErr result (self.new ≡ self.old) }
    {
        match &mut self.view {
            Some(view) => view.line.push(alloc, request)?,
            None => unreachable!(),
        }
        self.wakes = 0;
        Ok(())
    }

    /// Whether the unit takes a turn at a moment of the run's clock, which is no earlier than its latest turn.
    pub fn enabled(&self, turn: &UnitTurn, now: u64) -> bool
        requires { self.now.latest ≤ now }
        ensures { result ≡ takes now self.now turn.now }
    {
        match &self.view {
            Some(view) => is_enabled(&**view, turn, now),
            None => false,
        }
    }

    /// Which of the turns that come by themselves the unit takes at a moment of the run's clock, which is no earlier
    /// than its latest turn.
    pub fn wants(&self, now: u64) -> Wants
        requires { self.now.latest ≤ now }
        ensures take { result.take ≡ takes now self.now Take }
        ensures decide { (word : ℕ) → result.decide ≡ takes now self.now (Decide word) }
        ensures due { result.due ≡ takes now self.now Due }
    {
        if now < self.wakes {
            return no_wants();
        }
        match &self.view {
            Some(view) => wants_of(&**view, now),
            None => no_wants(),
        }
    }

    /// The least moment of the run's clock at which the timer of its phase is due, none where it waits for none.
    pub fn next_due(&self) -> Option<u64>
        ensures { IsDueFrom (λ now. takes now self.now Due) result }
    {
        match &self.view {
            Some(view) => next_due(&**view),
            None => None,
        }
    }

    /// Takes a turn at a moment of the run's clock, in nanoseconds: one row of the unit table. No turn is earlier than
    /// the latest that the unit took. After want of memory the unit is unchanged.
    pub fn step(&mut self, alloc: Global, turn: UnitTurn, now: u64) -> Mem<UnitEffects>
        requires enabled { takes now self.old turn ≡ true }
        requires later { self.old.latest ≤ now }
        ensures row { IfOk result (IsRow (row now turn self.old) self.new) }
        ensures err { OnErr result (self.new ≡ self.old) }
    {
        match &mut self.view {
            Some(view) => {
                let effects = act_at(alloc, &mut **view, turn, now)?;
                self.wakes = wakes_of(&**view);
                Ok(effects)
            }
            None => unreachable!(),
        }
    }

    /// All is forgotten of a unit that is over.
    pub fn forget(&mut self)
        requires { is_last self.old.phase ≡ true }
        ensures { self.new ≡ gone }
    {
        self.view = None;
    }
}

// A unit takes a turn at this moment, which is its latest by then.
fn act_at(alloc: Global, view: &mut UnitView, turn: UnitTurn, now: u64) -> Mem<UnitEffects>
    requires enabled { takes now view.old turn ≡ true }
    requires later { view.old.latest ≤ now }
    requires current { IsCurrent view.old }
    requires tried { IsTried view.old }
    ensures row { IfOk result (IsRow (row now turn view.old) view.new) }
    ensures current { OnOk result (IsCurrent view.new) }
    ensures tried { OnOk result (IsTried view.new) }
    ensures err { OnErr result (view.new ≡ view.old) }
{
    let latest = view.latest;
    view.latest = now;
    match act(alloc, view, turn, now) {
        Ok(effects) => Ok(effects),
        Err(error) => {
            view.latest = latest;
            Err(error)
        }
    }
}
