// What an admission makes.
ghost use Rattle.std.specs.Prelude.{◌≡◌, ◌<◌, length, IfOk, None, Some, option_map, is_some, slice_get};
ghost use Rattle.std.specs.Prelude.{slice_index_or, true, Option};
ghost use Rattle.run_events.specs.declared.stress.StressIndex.{StressIndex};
ghost use Rattle.run_admission.specs.InUse.{admitted};
ghost use Rattle.run_model.specs.Admission.{first_view, group_slot, handed_to, limits_of, newcomer, newcomer_as};
ghost use Rattle.run_model.specs.Admission.{open_script, scripts_of, scripts_over, script_newcomer, skip_message};
ghost use Rattle.run_model.specs.Admission.{skipped_view, slots_of, start_message, test_of, unit_of_test};
ghost use Rattle.run_model.specs.Admission.{units_in, AreFew};
ghost use Rattle.run_model.specs.Environment.{number};
ghost use Rattle.run_unit.specs.Alike.{alike_of};
ghost use Rattle.run_state.specs.Held.{IsNext};

use crate::units::Units;
use run_admission::{Admission, Admitted, Candidate};
use run_capture::{Duplicate, List, Mem, Text};
use run_events::{GroupSlot, Message, PlanTest, Settings, StressIndex, TestSlotAssignment};
use run_unit::{Alike, Unit, skip_message};
use std::alloc::Global;

/// Whether all setup scripts are over.
pub fn are_scripts_over(settings: &Settings, units: &Units) -> bool
    requires { length units.now ≡ units_in settings.now }
    ensures { result ≡ scripts_over settings.now units.now }
{
    units.are_first_over(settings.plan.scripts.len())
}

/// The place of the next script: the first that wasn't admitted, where each before it is over.
pub fn next_script(settings: &Settings, units: &Units) -> Option<usize>
    requires { length units.now ≡ units_in settings.now }
    ensures { result ≡ open_script (scripts_of settings.now units.now) }
{
    units.open_script(settings.plan.scripts.len())
}

// Whether the candidate can be admitted.
fn comes_next(admission: &Admission) -> bool
    ensures { result ≡ is_some (admitted admission.now) }
{
    match admission.candidate() {
        Some(Candidate::Skip { .. }) => true,
        Some(Candidate::Fits { .. }) => true,
        Some(Candidate::Blocked { .. }) => false,
        None => false,
    }
}

/// Whether a script or a test can be admitted: the next script where those before it are over, and once all scripts are
/// over a candidate that isn't blocked.
pub fn can_admit(settings: &Settings, units: &Units, admission: &Admission) -> bool
    requires whole { length units.now ≡ units_in settings.now }
    requires seated { admission.now ≡ limits_of settings.now units.now }
    ensures { (index : Option StressIndex) → result ≡ is_some (newcomer settings.now index units.now) }
{
    if are_scripts_over(settings, units) {
        comes_next(admission)
    } else {
        next_script(settings, units).is_some()
    }
}

/// What an admission makes: a unit, and the message that it sends.
#[derive(Drop)]
pub struct Newcomer {
    pub unit: Unit,
    pub sent: Message,
}

/// What an admission makes of a script of the plan, in this sub-run of a stress run.
pub fn script_of(
    alloc: Global,
    settings: &Settings,
    alike: &Alike,
    index: Option<StressIndex>,
    place: u32,
) -> Mem<Newcomer>
    requires alike { alike.now ≡ alike_of settings.now }
    requires planned { place < length settings.now.plan.scripts }
    requires few { AreFew settings.now }
    ensures made { IfOk result (λ a. script_newcomer settings.now index place
        (slice_get settings.now.plan.scripts place)
        ≡ Some (record { unit = a.unit; sent = a.sent })) }
    ensures place { IfOk result (λ a. number a.unit ≡ place) }
{
    let unit = Unit::script(alloc, settings, alike, index, place)?;
    let sent = unit.start_message(alloc)?;
    Ok(Newcomer { unit, sent })
}

// A test that doesn't match, as it is skipped for this reason.
fn skip_test(
    alloc: Global,
    settings: &Settings,
    alike: &Alike,
    index: Option<StressIndex>,
    test: u32,
    planned: &PlanTest,
    reason: &Text,
) -> Mem<Newcomer>
    requires alike { alike.now ≡ alike_of settings.now }
    requires planned { slice_get settings.now.plan.tests test ≡ Some planned.now }
    requires few { AreFew settings.now }
    ensures unit { IfOk result (λ a. a.unit
        ≡ skipped_view settings.now index (unit_of_test settings.now test) planned.now) }
    ensures sent { IfOk result (λ a. a.sent
        ≡ skip_message index (unit_of_test settings.now test) planned.now reason.now) }
{
    let unit = Unit::skipped(alloc, settings, alike, index, test)?;
    let number = settings.plan.scripts.len() as u32 + test;
    let sent = skip_message(alloc, index, number, planned, reason)?;
    Ok(Newcomer { unit, sent })
}

// A slot within a group, with the group's name.
fn group_slot(alloc: Global, slot: Option<u32>, group: &Option<Text>) -> Mem<Option<GroupSlot>>
    ensures { IfOk result (λ s. s ≡ group_slot slot group.now) }
{
    match (slot, group) {
        (Some(slot), Some(name)) => {
            let name = name.copy(alloc)?;
            Ok(Some(GroupSlot { slot, name }))
        }
        _ => Ok(None),
    }
}

// A test that matches, as it starts in its slots with what its scripts handed on.
fn start_test(
    alloc: Global,
    settings: &Settings,
    alike: &Alike,
    index: Option<StressIndex>,
    test: u32,
    slots: TestSlotAssignment,
    handed: List<(Text, Text)>,
) -> Mem<Newcomer>
    requires alike { alike.now ≡ alike_of settings.now }
    requires planned { test < length settings.now.plan.tests }
    requires few { AreFew settings.now }
    ensures unit { IfOk result (λ a. option_map
        (first_view settings.now index (unit_of_test settings.now test) slots handed)
        (slice_get settings.now.plan.tests test) ≡ Some a.unit) }
    ensures sent { IfOk result (λ a. a.sent ≡ start_message a.unit.role a.unit) }
{
    let unit = Unit::test(alloc, settings, alike, index, test, slots, handed)?;
    let sent = unit.start_message(alloc)?;
    Ok(Newcomer { unit, sent })
}

// The slots of a test.
fn slots_of(
    alloc: Global,
    planned: &PlanTest,
    global: u32,
    slot: Option<u32>,
) -> Mem<TestSlotAssignment>
    ensures { IfOk result (λ s. s ≡ slots_of planned.now global slot) }
{
    let group = group_slot(alloc, slot, &planned.group)?;
    Ok(TestSlotAssignment { global, group })
}

// What the scripts of a test handed on to it.
fn handed_to(
    alloc: Global,
    settings: &Settings,
    units: &Units,
    planned: &PlanTest,
) -> Mem<List<(Text, Text)>>
    requires { length units.now ≡ units_in settings.now }
    ensures { IfOk result (λ handed. handed ≡ handed_to settings.now units.now planned.now) }
{
    let scripts = settings.plan.scripts.len();
    units.handed(alloc, scripts, planned.scripts.as_slice())
}

/// The place in the plan of the test that is admitted.
pub fn place_of(admitted: &Admitted) -> u32
    ensures { result ≡ test_of admitted.now }
{
    match admitted {
        Admitted::Skip { test } => *test,
        Admitted::Run { test, .. } => *test,
    }
}

/// What an admission makes of a test of the plan, in this sub-run of a stress run.
pub fn newcomer_of(
    alloc: Global,
    settings: &Settings,
    alike: &Alike,
    index: Option<StressIndex>,
    units: &Units,
    admitted: Admitted,
) -> Mem<Newcomer>
    requires alike { alike.now ≡ alike_of settings.now }
    requires whole { length units.now ≡ units_in settings.now }
    requires planned { test_of admitted < length settings.now.plan.tests }
    requires made { is_some (newcomer_as settings.now index units.now admitted
        (slice_get settings.now.plan.tests (test_of admitted))) ≡ true }
    requires few { AreFew settings.now }
    ensures made { IfOk result (λ a. newcomer_as settings.now index units.now admitted
        (slice_get settings.now.plan.tests (test_of admitted))
        ≡ Some (record { unit = a.unit; sent = a.sent })) }
    ensures place { IfOk result (λ a. number a.unit ≡ unit_of_test settings.now
        (test_of admitted)) }
{
    let planned = &settings.plan.tests.as_slice()[place_of(&admitted) as usize];
    match (admitted, &planned.skip) {
        (Admitted::Skip { test }, Some(reason)) => {
            skip_test(alloc, settings, alike, index, test, planned, reason)
        }
        (Admitted::Skip { .. }, None) => unreachable!(),
        (
            Admitted::Run {
                test,
                global_slot,
                group_slot,
            },
            _,
        ) => {
            let slots = slots_of(alloc, planned, global_slot, group_slot)?;
            let handed = handed_to(alloc, settings, units, planned)?;
            start_test(alloc, settings, alike, index, test, slots, handed)
        }
    }
}

/// What is admitted next.
#[derive(Drop)]
pub enum Next {
    /// The script at this place.
    Script(usize),
    /// The test that the rule admits.
    Test(Admitted),
}

/// The unit that comes next in this sub-run of a stress run, as a newcomer, and its number.
pub fn next_newcomer(
    alloc: Global,
    settings: &Settings,
    alike: &Alike,
    index: Option<StressIndex>,
    units: &Units,
    next: Next,
) -> Mem<(u32, Newcomer)>
    requires alike { alike.now ≡ alike_of settings.now }
    requires next { IsNext settings.now units.now next }
    requires whole { length units.now ≡ units_in settings.now }
    requires few { AreFew settings.now }
    ensures made { IfOk result (λ r. newcomer settings.now index units.now
        ≡ Some (record { unit = r.1.unit; sent = r.1.sent })) }
    ensures number { IfOk result (λ r. number r.1.unit ≡ r.0) }
    ensures within { IfOk result (λ r. r.0 < length units.now) }
    ensures absent { IfOk result (λ r. slice_index_or units.now r.0 None ≡ None) }
{
    match next {
        Next::Script(place) => {
            let place = place as u32;
            let new = script_of(alloc, settings, alike, index, place)?;
            Ok((place, new))
        }
        Next::Test(admitted) => {
            let place = settings.plan.scripts.len() as u32 + place_of(&admitted);
            let new = newcomer_of(alloc, settings, alike, index, units, admitted)?;
            Ok((place, new))
        }
    }
}
