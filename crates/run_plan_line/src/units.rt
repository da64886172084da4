// The groups, the setup scripts and the tests of a plan as values.
ghost use Rattle.std.specs.Prelude.{◌≡◌, ◌<◌, ◌^◌, false, All, IfOk, IfSome, OnOk, option_map};
ghost use Rattle.serde_json.specs.View.{members_view, view};
ghost use Rattle.run_events.specs.Usual.{usual_slow};
ghost use Rattle.run_output.specs.Fields.{array_of, count, put_all};
ghost use Rattle.run_plan_line.specs.PlanFields.{group_fields, group_object, is_no_retries, is_usual_slow};
ghost use Rattle.run_plan_line.specs.PlanFields.{list_if_any, plan_test_object};
ghost use Rattle.run_plan_line.specs.PlanFields.{name_fields, rank_fields, script_object, script_way_fields};
ghost use Rattle.run_plan_line.specs.PlanFields.{script_word_fields, tie_fields, trial_fields};
ghost use Rattle.run_input.specs.PlanScripts.{usual_script_slow};
ghost use Rattle.run_plan_line.specs.SaidPlan.{IsReadGroup, IsReadScript, IsReadTest, tries};

use crate::fields::{
    if_false, number_unless, put_some, put_text, put_text_if_any, put_words, small,
};
use crate::settings::{
    flaky_unless_pass, leak_object, platform_word, priority_unless_0, retries_if_any, slow_object,
};
use run_capture::Mem;
use run_events::{Group, PlanScript, PlanTest};
use run_wave_line::put_member;
use serde_json::{Map, Value};
use std::alloc::Global;

/// After how long a test is slow, and a script, where that is as usual.
const TEST_SLOW: u64 = 60_000_000_000;

const SCRIPT_SLOW: u64 = 946_080_000_000_000_000;

fn numbers_value(alloc: Global, numbers: &[u32]) -> Mem<Option<Value>>
    ensures is { IfOk result (λ v. option_map view v ≡ list_if_any count numbers.now) }
    ensures fits { OnOk result (All (λ n. n < 2 ^ 32) numbers.now) }
{
    if numbers.is_empty() {
        return Ok(None);
    }
    let mut values = Vec::with_capacity(alloc, numbers.len())?;
    for number in numbers {
        values.push(Value::from(small(*number)))?;
    }
    Ok(Some(Value::Array(values)))
}

// What a test is.
#[tactic(auto, unfolding(crate::specs::PlanFields::name_fields))]
fn put_names(alloc: Global, members: &mut Map<String, Value>, test: &PlanTest) -> Mem<()>
    ensures { OnOk result (members_view members.new.entries
        ≡ put_all (name_fields test.now) (members_view members.old.entries)) }
{
    put_text(alloc, members, "binary", test.id.binary.as_str())?;
    put_words(alloc, members, "command", test.command.as_slice())?;
    put_text(alloc, members, "name", test.id.name.as_str())
}

// What it is tied to.
#[tactic(auto, unfolding(crate::specs::PlanFields::tie_fields))]
fn put_ties(alloc: Global, members: &mut Map<String, Value>, test: &PlanTest) -> Mem<()>
    ensures put { OnOk result (members_view members.new.entries
        ≡ put_all (tie_fields test.now) (members_view members.old.entries)) }
    ensures fits { OnOk result (All (λ n. n < 2 ^ 32) test.now.scripts) }
{
    put_text_if_any(alloc, members, "group", &test.group)?;
    let scripts = numbers_value(alloc, test.scripts.as_slice())?;
    put_some(alloc, members, "scripts", scripts)?;
    put_text_if_any(alloc, members, "skip", &test.skip)
}

// How it runs.
#[tactic(auto, unfolding(crate::specs::PlanFields::trial_fields))]
fn put_trials(alloc: Global, members: &mut Map<String, Value>, test: &PlanTest) -> Mem<()>
    ensures put { OnOk result (members_view members.new.entries
        ≡ put_all (trial_fields test.now) (members_view members.old.entries)) }
    ensures slow { OnOk result (is_usual_slow usual_slow.period test.now.slow ≡ false
        → IfSome test.now.slow.terminate_after (λ n. n < 2 ^ 32)) }
    ensures retries { OnOk result (is_no_retries test.now.retries ≡ false → tries test.now.retries < 2 ^ 32) }
{
    let flaky = flaky_unless_pass(alloc, test.flaky)?;
    put_some(alloc, members, "flaky", flaky)?;
    let leak = leak_object(alloc, &test.leak)?;
    put_some(alloc, members, "leak", leak)?;
    let retries = retries_if_any(alloc, test.retries)?;
    put_some(alloc, members, "retries", retries)?;
    let slow = slow_object(alloc, TEST_SLOW, &test.slow)?;
    put_some(alloc, members, "slow", slow)
}

// Where it stands.
#[tactic(auto, unfolding(crate::specs::PlanFields::rank_fields))]
fn put_ranks(alloc: Global, members: &mut Map<String, Value>, test: &PlanTest) -> Mem<()>
    ensures put { OnOk result (members_view members.new.entries
        ≡ put_all (rank_fields test.now) (members_view members.old.entries)) }
    ensures weight { OnOk result (test.now.weight < 2 ^ 32) }
{
    let platform = platform_word(alloc, test.platform)?;
    put_some(alloc, members, "platform", platform)?;
    put_some(alloc, members, "priority", priority_unless_0(test.priority))?;
    put_some(
        alloc,
        members,
        "weight",
        number_unless(1, small(test.weight)),
    )
}

#[tactic(auto, unfolding(crate::specs::PlanFields::name_fields, crate::specs::PlanFields::tie_fields, crate::specs::PlanFields::trial_fields, crate::specs::PlanFields::rank_fields))]
fn test_value(alloc: Global, test: &PlanTest) -> Mem<Value>
    ensures is { IfOk result (λ v. view v ≡ plan_test_object test.now) }
    ensures read { OnOk result (IsReadTest test.now) }
{
    let mut members = Map::new(alloc);
    put_names(alloc, &mut members, test)?;
    put_ties(alloc, &mut members, test)?;
    put_trials(alloc, &mut members, test)?;
    put_ranks(alloc, &mut members, test)?;
    Ok(Value::Object(members))
}

/// The tests of a plan.
pub fn tests_value(alloc: Global, tests: &[PlanTest]) -> Mem<Value>
    ensures is { IfOk result (λ v. view v ≡ array_of plan_test_object tests.now) }
    ensures read { OnOk result (All IsReadTest tests.now) }
{
    let mut values = Vec::with_capacity(alloc, tests.len())?;
    for test in tests {
        values.push(test_value(alloc, test)?)?;
    }
    Ok(Value::Array(values))
}

#[tactic(auto, unfolding(crate::specs::PlanFields::group_fields))]
fn group_value(alloc: Global, group: &Group) -> Mem<Value>
    ensures is { IfOk result (λ v. view v ≡ group_object group.now) }
    ensures read { OnOk result (IsReadGroup group.now) }
{
    let mut members = Map::new(alloc);
    put_member(
        alloc,
        &mut members,
        "limit",
        Value::from(small(group.limit)),
    )?;
    put_text(alloc, &mut members, "name", group.name.as_str())?;
    Ok(Value::Object(members))
}

/// The groups of a plan, left out where there are none.
pub fn groups_value(alloc: Global, groups: &[Group]) -> Mem<Option<Value>>
    ensures is { IfOk result (λ v. option_map view v ≡ list_if_any group_object groups.now) }
    ensures read { OnOk result (All IsReadGroup groups.now) }
{
    if groups.is_empty() {
        return Ok(None);
    }
    let mut values = Vec::with_capacity(alloc, groups.len())?;
    for group in groups {
        values.push(group_value(alloc, group)?)?;
    }
    Ok(Some(Value::Array(values)))
}

// What a script is.
#[tactic(auto, unfolding(crate::specs::PlanFields::script_word_fields))]
fn put_script_words(alloc: Global, members: &mut Map<String, Value>, script: &PlanScript) -> Mem<()>
    ensures { OnOk result (members_view members.new.entries
        ≡ put_all (script_word_fields script.now) (members_view members.old.entries)) }
{
    put_words(alloc, members, "command", script.command.as_slice())?;
    put_text(alloc, members, "env_path", script.env_path.as_str())?;
    put_text(alloc, members, "id", script.id.as_str())
}

// How it runs.
#[tactic(auto, unfolding(crate::specs::PlanFields::script_way_fields))]
fn put_script_ways(alloc: Global, members: &mut Map<String, Value>, script: &PlanScript) -> Mem<()>
    ensures put { OnOk result (members_view members.new.entries
        ≡ put_all (script_way_fields script.now) (members_view members.old.entries)) }
    ensures slow { OnOk result (is_usual_slow usual_script_slow.period script.now.slow ≡ false
        → IfSome script.now.slow.terminate_after (λ n. n < 2 ^ 32)) }
{
    put_some(
        alloc,
        members,
        "capture_stderr",
        if_false(script.capture_stderr),
    )?;
    put_some(
        alloc,
        members,
        "capture_stdout",
        if_false(script.capture_stdout),
    )?;
    let leak = leak_object(alloc, &script.leak)?;
    put_some(alloc, members, "leak", leak)?;
    let slow = slow_object(alloc, SCRIPT_SLOW, &script.slow)?;
    put_some(alloc, members, "slow", slow)
}

#[tactic(auto, unfolding(crate::specs::PlanFields::script_word_fields, crate::specs::PlanFields::script_way_fields))]
fn script_value(alloc: Global, script: &PlanScript) -> Mem<Value>
    ensures is { IfOk result (λ v. view v ≡ script_object script.now) }
    ensures read { OnOk result (IsReadScript script.now) }
{
    let mut members = Map::new(alloc);
    put_script_words(alloc, &mut members, script)?;
    put_script_ways(alloc, &mut members, script)?;
    Ok(Value::Object(members))
}

/// The setup scripts of a plan, left out where there are none.
pub fn scripts_value(alloc: Global, scripts: &[PlanScript]) -> Mem<Option<Value>>
    ensures is { IfOk result (λ v. option_map view v ≡ list_if_any script_object scripts.now) }
    ensures read { OnOk result (All IsReadScript scripts.now) }
{
    if scripts.is_empty() {
        return Ok(None);
    }
    let mut values = Vec::with_capacity(alloc, scripts.len())?;
    for script in scripts {
        values.push(script_value(alloc, script)?)?;
    }
    Ok(Some(Value::Array(values)))
}
