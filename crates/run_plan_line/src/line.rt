// The line of a plan.
ghost use Rattle.std.specs.Prelude.{◌≡◌, ◌<◌, ◌+◌, ◌^◌, All, length, IfOk, IfSome, OnOk, Some, option_map};
ghost use Rattle.serde_json.specs.View.{members_view, view};
ghost use Rattle.uuid.specs.Text.{hyphenated_text, lower, parsed};
ghost use Rattle.run_input.specs.Input.{plan_line_of};
ghost use Rattle.run_output.specs.Fields.{object_of, put_all};
ghost use Rattle.run_plan_line.specs.PlanFields.{call_fields, capture_word, failure_fields, flaky_result_word};
ghost use Rattle.run_plan_line.specs.PlanFields.{list_fields, max_fail_object};
ghost use Rattle.run_plan_line.specs.PlanFields.{mode_word, said_plan_fields, plan_text, retries_object, run_fields};
ghost use Rattle.run_plan_line.specs.PlanFields.{limit_fields, stress_fields, way_fields};
ghost use Rattle.run_plan_line.specs.SaidPlan.{HasRank, IsReadGroup, IsReadScript, IsReadTest};
ghost use Rattle.run_plan_line.specs.SaidPlan.{most_failures, repeats_fit, said_keys, said_plan, tries};

use crate::fields::{number_of, put_some, put_text, put_words, small};
use crate::said::SaidPlan;
use crate::settings::retries_value;
use crate::stress::stress_value;
use crate::units::{groups_value, scripts_value, tests_value};
use run_capture::{CaptureStrategy, Mem, Text};
use run_events::{FlakyResult, MaxFail, RetryPolicy, TerminateMode};
use run_wave_line::{id_value, put_member, text_of, text_value};
use serde_json::{Map, Value};
use std::alloc::Global;

fn capture_word(capture: CaptureStrategy) -> &'static str
    ensures { result.now ≡ capture_word capture }
{
    match capture {
        CaptureStrategy::None => "none",
        CaptureStrategy::Split => "split",
        CaptureStrategy::Combined => "combined",
    }
}

fn mode_word(mode: TerminateMode) -> &'static str
    ensures { result.now ≡ mode_word mode }
{
    match mode {
        TerminateMode::Wait => "wait",
        TerminateMode::Immediate => "immediate",
    }
}

#[tactic(auto, unfolding(crate::specs::PlanFields::limit_fields))]
fn limit_value(alloc: Global, count: u32, mode: TerminateMode) -> Mem<Value>
    ensures is { IfOk result (λ v. view v ≡ object_of (limit_fields count mode)) }
    ensures fits { count < 2 ^ 32 }
{
    let mut members = Map::new(alloc);
    put_member(alloc, &mut members, "count", Value::from(small(count)))?;
    put_text(alloc, &mut members, "mode", mode_word(mode))?;
    Ok(Value::Object(members))
}

fn max_fail_object(alloc: Global, max_fail: MaxFail) -> Mem<Option<Value>>
    ensures is { IfOk result (λ v. option_map view v ≡ max_fail_object max_fail) }
    ensures fits { most_failures max_fail < 2 ^ 32 }
{
    match max_fail {
        MaxFail::All => Ok(None),
        MaxFail::Count {
            max_fail,
            terminate,
        } => Ok(Some(limit_value(alloc, max_fail, terminate)?)),
    }
}

fn flaky_result_word(alloc: Global, counts: Option<FlakyResult>) -> Mem<Option<Value>>
    ensures { IfOk result (λ v. option_map view v ≡ option_map flaky_result_word counts) }
{
    match counts {
        Some(FlakyResult::Pass) => Ok(Some(text_value(alloc, "pass")?)),
        Some(FlakyResult::Fail) => Ok(Some(text_value(alloc, "fail")?)),
        None => Ok(None),
    }
}

fn retries_said(alloc: Global, retries: Option<RetryPolicy>) -> Mem<Option<Value>>
    ensures is { IfOk result (λ v. option_map view v ≡ option_map retries_object retries) }
    ensures fits { IfSome retries (λ r. tries r < 2 ^ 32) }
{
    match retries {
        Some(retries) => Ok(Some(retries_value(alloc, retries)?)),
        None => Ok(None),
    }
}

// The words of the call.
#[tactic(auto, unfolding(crate::specs::PlanFields::call_fields))]
fn put_call(alloc: Global, members: &mut Map<String, Value>, plan: &SaidPlan) -> Mem<()>
    ensures { OnOk result (members_view members.new.entries
        ≡ put_all (call_fields plan.now) (members_view members.old.entries)) }
{
    put_words(alloc, members, "args", plan.args.as_slice())?;
    put_text(alloc, members, "profile", plan.profile.as_str())?;
    put_text(
        alloc,
        members,
        "workspace_root",
        plan.workspace_root.as_str(),
    )
}

// The run. The text of its id is parsed as that id.
#[tactic(auto, unfolding(crate::specs::PlanFields::run_fields))]
fn put_run(alloc: Global, members: &mut Map<String, Value>, plan: &SaidPlan) -> Mem<()>
    ensures put { OnOk result (members_view members.new.entries
        ≡ put_all (run_fields plan.now) (members_view members.old.entries)) }
    ensures parsed { OnOk result (Some plan.now.run_id ≡ parsed (hyphenated_text lower plan.now.run_id)) }
{
    put_text(alloc, members, "nextest_version", "0.9.129")?;
    let run_id = id_value(alloc, plan.run_id)?;
    put_member(alloc, members, "run_id", run_id)?;
    put_member(alloc, members, "version", Value::from(2u64))
}

// How much may run.
#[tactic(auto, unfolding(crate::specs::PlanFields::way_fields))]
fn put_ways(alloc: Global, members: &mut Map<String, Value>, plan: &SaidPlan) -> Mem<()>
    ensures put { OnOk result (members_view members.new.entries
        ≡ put_all (way_fields plan.now) (members_view members.old.entries)) }
    ensures fits { OnOk result (plan.now.threads < 2 ^ 32) }
{
    put_text(alloc, members, "capture", capture_word(plan.capture))?;
    put_some(
        alloc,
        members,
        "global_timeout",
        number_of(plan.global_timeout),
    )?;
    put_member(alloc, members, "threads", Value::from(small(plan.threads)))
}

// How often, or how long, all is repeated.
#[tactic(auto, unfolding(crate::specs::PlanFields::stress_fields))]
fn put_stress(alloc: Global, members: &mut Map<String, Value>, plan: &SaidPlan) -> Mem<()>
    ensures put { OnOk result (members_view members.new.entries
        ≡ put_all (stress_fields plan.now) (members_view members.old.entries)) }
    ensures fits { OnOk result (IfSome plan.now.stress repeats_fit) }
{
    let stress = stress_value(alloc, &plan.stress)?;
    put_some(alloc, members, "stress", stress)
}

// What becomes of failures.
#[tactic(auto, unfolding(crate::specs::PlanFields::failure_fields))]
fn put_failures(alloc: Global, members: &mut Map<String, Value>, plan: &SaidPlan) -> Mem<()>
    ensures put { OnOk result (members_view members.new.entries
        ≡ put_all (failure_fields plan.now) (members_view members.old.entries)) }
    ensures max_fail { OnOk result (most_failures plan.now.max_fail < 2 ^ 32) }
    ensures retries { OnOk result (IfSome plan.now.retries (λ r. tries r < 2 ^ 32)) }
{
    let flaky_result = flaky_result_word(alloc, plan.flaky_result)?;
    put_some(alloc, members, "flaky_result", flaky_result)?;
    let max_fail = max_fail_object(alloc, plan.max_fail)?;
    put_some(alloc, members, "max_fail", max_fail)?;
    let retries = retries_said(alloc, plan.retries)?;
    put_some(alloc, members, "retries", retries)
}

// What is to be run. Each of it is read as it was.
#[tactic(auto, unfolding(crate::specs::PlanFields::list_fields))]
fn put_lists(alloc: Global, members: &mut Map<String, Value>, plan: &SaidPlan) -> Mem<()>
    ensures put { OnOk result (members_view members.new.entries
        ≡ put_all (list_fields plan.now) (members_view members.old.entries)) }
    ensures groups { OnOk result (All IsReadGroup plan.now.groups) }
    ensures scripts { OnOk result (All IsReadScript plan.now.scripts) }
    ensures tests { OnOk result (All IsReadTest plan.now.tests) }
{
    let groups = groups_value(alloc, plan.groups.as_slice())?;
    put_some(alloc, members, "groups", groups)?;
    let scripts = scripts_value(alloc, plan.scripts.as_slice())?;
    put_some(alloc, members, "scripts", scripts)?;
    let tests = tests_value(alloc, plan.tests.as_slice())?;
    put_member(alloc, members, "tests", tests)
}

// The plan line as a value.
#[tactic(auto, unfolding(crate::specs::PlanFields::call_fields, crate::specs::PlanFields::run_fields, crate::specs::PlanFields::way_fields, crate::specs::PlanFields::stress_fields, crate::specs::PlanFields::failure_fields, crate::specs::PlanFields::list_fields))]
fn plan_value(alloc: Global, plan: &SaidPlan) -> Mem<Value>
    ensures is { IfOk result (λ v. view v ≡ object_of (said_plan_fields plan.now)) }
    ensures parsed { OnOk result (Some plan.now.run_id ≡ parsed (hyphenated_text lower plan.now.run_id)) }
    ensures threads { OnOk result (plan.now.threads < 2 ^ 32) }
    ensures max_fail { OnOk result (most_failures plan.now.max_fail < 2 ^ 32) }
    ensures retries { OnOk result (IfSome plan.now.retries (λ r. tries r < 2 ^ 32)) }
    ensures repeats { OnOk result (IfSome plan.now.stress repeats_fit) }
    ensures groups { OnOk result (All IsReadGroup plan.now.groups) }
    ensures scripts { OnOk result (All IsReadScript plan.now.scripts) }
    ensures tests { OnOk result (All IsReadTest plan.now.tests) }
{
    let mut members = Map::new(alloc);
    put_call(alloc, &mut members, plan)?;
    put_run(alloc, &mut members, plan)?;
    put_ways(alloc, &mut members, plan)?;
    put_stress(alloc, &mut members, plan)?;
    put_failures(alloc, &mut members, plan)?;
    put_lists(alloc, &mut members, plan)?;
    Ok(Value::Object(members))
}

/// The plan line of a plan: its keys in byte order, with no space, and without what is as usual. A reader of plan lines
/// reads it as that plan.
pub fn said_plan_line(alloc: Global, plan: &SaidPlan) -> Mem<Text>
    requires few { length plan.now.groups < 2 ^ 32 }
    requires units { length plan.now.scripts + length plan.now.tests < 2 ^ 32 }
    requires ranks { All HasRank plan.now.tests }
    ensures text { IfOk result (λ t. t ≡ plan_text plan.now) }
    ensures says { IfOk result (λ t. plan_line_of t ≡ Some (said_keys plan.now, said_plan plan.now)) }
{
    let value = plan_value(alloc, plan)?;
    let text = text_of(alloc, &value)?;
    Ok(text)
}
