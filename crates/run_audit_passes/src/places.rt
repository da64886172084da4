// The first place at which a list of events can't be continued to one that keeps a law, law by law.
ghost use Rattle.std.specs.Prelude.{◌≡◌, ℕ, List, Some, IfOk, length, map, reverse};
ghost use Rattle.std.specs.List.{All};
ghost use Rattle.run_events.specs.declared.settings.Settings.{Settings};
ghost use Rattle.run_model.specs.declared.happening.Happening.{Happening};
ghost use Rattle.run_model.specs.Once.{HasEachIdOnce};
ghost use Rattle.run_model.specs.Words.{ended_runs};
ghost use Rattle.run_audit_model.specs.Kept.{KeepsLaw};
ghost use Rattle.run_audit_model.specs.Parts.{is_stress};
ghost use Rattle.run_audit_machines.specs.Accounts.{accounts_seen};
ghost use Rattle.run_audit_machines.specs.Cancels.{cancel_parts};
ghost use Rattle.run_audit_machines.specs.Machines.{HoldsInParts, IsPlaceOf, first_state, one_each};
ghost use Rattle.run_audit_machines.specs.Scripts.{CanTellScripts, before_scripts, due_scripts};
ghost use Rattle.run_audit_machines.specs.Tests.{CanTellTests, TestPart as Accounts, accounts_of};
ghost use Rattle.run_audit_passes.specs.Due.{due_news, due_test_news};
ghost use Rattle.run_audit_passes.specs.declared.due_script.DueScript.{DueScript as Script};
ghost use Rattle.run_audit_passes.specs.declared.due_test.DueTest.{DueTest as Test};

use crate::{
    CancelPart, DueStatus, EndlessParts, LimitPart, Parts, ScriptPart, ShapeLaw, TestPart,
    TestPlaces, places_of,
};
use run_audit_model::{AuditEvent, first_stop};
use run_capture::Mem;
use run_events::Settings as RunSettings;
use std::alloc::Global;

/// The first place at which the events can't be continued to the shape of a run of so many sub-runs.
pub fn shape_place(stress: bool, runs: u64, events: &[AuditEvent]) -> Mem<Option<u64>>
    ensures { IfOk result (λ place. (p : Settings) (past : List Happening) → is_stress p ≡ stress
        → length (ended_runs past) ≡ runs → IsPlaceOf (KeepsLaw p past 1) events.now place) }
{
    let mut law = ShapeLaw::new(stress, runs);
    first_stop(&mut law, events)
}

/// The first place at which they can't be continued to a list whose parts tell the cancels that are due, where the law
/// is at its first state.
pub fn cancel_place(law: Parts<CancelPart>, events: &[AuditEvent]) -> Mem<Option<u64>>
    ensures { IfOk result (λ place. (p : Settings) (past : List Happening)
        → first_state one_each (is_stress p) (cancel_parts past) ≡ Some law
        → IsPlaceOf (KeepsLaw p past 4) events.now place) }
{
    let mut law = law;
    first_stop(&mut law, events)
}

/// The first place at which they can't be continued to a list whose parts tell what is due of the setup scripts, where
/// the law is at its first state, and all of it can be told.
pub fn script_place<S: DueStatus + Drop>(
    law: Parts<ScriptPart<S>>,
    events: &[AuditEvent],
) -> Mem<Option<u64>>
    requires { HoldsInParts (CanTellScripts (due_news S.status)) (All (CanTellScripts (due_news S.status))) law }
    ensures { IfOk result (λ place. (p : Settings) (past : List Happening) (dues : List (List (Script S)))
        → map (map (due_news S.status)) dues ≡ map (due_scripts p) (reverse (ended_runs past))
        → first_state one_each (is_stress p) (map before_scripts dues) ≡ Some law
        → IsPlaceOf (KeepsLaw p past 5) events.now place) }
{
    let mut law = law;
    first_stop(&mut law, events)
}

/// The first place at which they can't be continued to a list whose parts tell what is due of the tests, where the law
/// is at its first state, and all of it can be told.
pub fn test_place<N: TestPlaces + Drop, S: DueStatus + Drop>(
    law: Parts<TestPart<N, S>>,
    events: &[AuditEvent],
) -> Mem<Option<u64>>
    requires { HoldsInParts (CanTellTests (due_test_news S.status)) (All (CanTellTests (due_test_news S.status))) law }
    ensures { IfOk result (λ place. (p : Settings) (past : List Happening) (dues : List (Accounts (Test S)))
        → map (accounts_seen (due_test_news S.status)) dues ≡ map (accounts_of p) (reverse (ended_runs past))
        → first_state one_each (is_stress p) dues ≡ Some law
        → IsPlaceOf (KeepsLaw p past 2) events.now place) }
{
    let mut law = law;
    first_stop(&mut law, events)
}

/// The first place at which they can't be continued to a list in each part of which the tests that run keep the limits
/// of the plan, and have slots of their own, after each event.
pub fn limit_place(alloc: Global, settings: &RunSettings, events: &[AuditEvent]) -> Mem<Option<u64>>
    requires { HasEachIdOnce settings.now }
    ensures { IfOk result (λ place. (past : List Happening)
        → IsPlaceOf (KeepsLaw settings.now past 3) events.now place) }
{
    let found = places_of(alloc, settings.plan.tests.as_slice())?;
    let Some(places) = found else { unreachable!() };
    let part = LimitPart::new(alloc, settings, places)?;
    let mut law = EndlessParts::new(settings.stress.is_some(), part);
    first_stop(&mut law, events)
}
