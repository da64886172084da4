// The plan of a call.
ghost use Rattle.std.specs.Prelude.{◌≡◌, ◌<◌, ◌^◌, IfOk, List, if◌then◌else◌, length, map, option_map, unwrap_or};
ghost use Rattle.run_capture.specs.declared.test_output.CaptureStrategy.TheVariants as captures;
ghost use Rattle.run_events.specs.declared.retry_policy.MaxFail.TheVariants as limits;
ghost use Rattle.run_events.specs.declared.retry_policy.TerminateMode.TheVariants as modes;
ghost use Rattle.run_profile.specs.declared.scripts.SetupScript.{SetupScript};
ghost use Rattle.run_plan.specs.Listed.{AskedTest};
ghost use Rattle.run_plan.specs.Planned.{heads_with, parts_with, planned, word_retries};
ghost use Rattle.run_plan.specs.Rows.{asked_row};
ghost use Rattle.run_plan.specs.declared.test_list.TestList.{TestList};

use crate::asked::Call;
use crate::choices::{Choices, Ways};
use crate::planned::{plan_groups, plan_tests, threads_of_call};
use crate::rows::AskedRow;
use crate::scripted::plan_scripts;
use crate::test_list::TestList;
use run_capture::{CaptureStrategy, Duplicate, List, Mem, Text};
use run_commands::StressCondition;
use run_events::{Group, MaxFail, PlanScript, PlanTest, RetryPolicy};
use run_plan_line::SaidPlan;
use run_profile::{Profile, Project, SetupScript};
use std::alloc::Global;

// The name of the profile, the workspace's folder, and the words of the call.
type PlanHeads = (Text, Text, List<Text>);

type PlanParts = (List<Group>, List<PlanScript>, List<PlanTest>);

fn text_or(alloc: Global, text: &Option<Text>, usual: &str) -> Mem<Text>
    ensures { IfOk result (λ t. t ≡ unwrap_or text.now usual.now) }
{
    match text {
        Some(text) => text.copy(alloc),
        None => Text::from_str(alloc, usual),
    }
}

fn capture_by(no_capture: bool) -> CaptureStrategy
    ensures { result ≡ (if no_capture then captures.None else captures.Combined) }
{
    match no_capture {
        true => CaptureStrategy::None,
        false => CaptureStrategy::Combined,
    }
}

fn stress_by(alloc: Global, ways: &Ways) -> Mem<Option<StressCondition>>
    ensures { IfOk result (λ stress. stress ≡ ways.now.stress) }
{
    match &ways.stress {
        Some(stress) => Ok(Some(stress.copy(alloc)?)),
        None => Ok(None),
    }
}

fn max_fail_by(profile: &Profile, ways: &Ways) -> MaxFail
    ensures { result
        ≡ unwrap_or ways.now.max_fail (unwrap_or profile.now.run.max_fail (limits.Count 1 modes.Wait)) }
{
    match ways.max_fail {
        Some(max_fail) => max_fail,
        None => profile.max_fail(),
    }
}

fn retries_by(retries: Option<u32>) -> Option<RetryPolicy>
    ensures { result ≡ option_map word_retries retries }
{
    match retries {
        Some(count) => Some(RetryPolicy::Fixed {
            count,
            delay: 0,
            jitter: false,
        }),
        None => None,
    }
}

fn heads_by(alloc: Global, list: &TestList, ways: &Ways, call: &Call) -> Mem<PlanHeads>
    ensures { IfOk result (λ heads. heads ≡ heads_with list.now ways.now call.now) }
{
    let profile = text_or(alloc, &ways.profile, "default")?;
    let workspace_root = text_or(alloc, &list.root, "/")?;
    let args = call.args.copy(alloc)?;
    Ok((profile, workspace_root, args))
}

// The groups, the scripts and the tests of the plan.
fn parts_by(
    alloc: Global,
    list: &TestList,
    project: &Project,
    given: (&Choices, &Call),
    rows: &[AskedRow<'_>],
    scripts: &[&SetupScript],
) -> Mem<PlanParts>
    requires { length scripts.now < 2 ^ 32 }
    ensures { IfOk result (λ parts. parts ≡ parts_with list.now project.now given.entry.0.now given.entry.1.now
        (map asked_row rows.now) (map (λ s. s.now) scripts.now)) }
{
    let (choices, call) = given;
    let profile = &project.profile;
    let counts = (
        call.processors,
        threads_of_call(call, profile, &choices.ways),
    );
    let groups = plan_groups(alloc, call.processors, project.groups.as_slice())?;
    let setup = plan_scripts(alloc, list, call.run_id, scripts)?;
    let tests = plan_tests(alloc, counts, profile, &choices.picks, scripts, rows)?;
    Ok((groups, setup, tests))
}

// The plan of these parts.
#[tactic(auto, unfolding(crate::specs::Planned::planned))]
fn plan_with(
    project: &Project,
    given: (&Choices, &Call),
    heads: PlanHeads,
    stress: Option<StressCondition>,
    parts: PlanParts,
) -> SaidPlan
    ensures { (list : TestList) (rows : List AskedTest) (used : List SetupScript)
        → heads ≡ heads_with list given.entry.0.now.ways given.entry.1.now → stress ≡ given.entry.0.now.ways.stress
        → parts ≡ parts_with list project.now given.entry.0.now given.entry.1.now rows used
        → result ≡ planned list project.now given.entry.0.now given.entry.1.now rows used }
{
    let (choices, call) = given;
    let ways = &choices.ways;
    let profile = &project.profile;
    let (name, workspace_root, args) = heads;
    let (groups, scripts, tests) = parts;
    SaidPlan {
        run_id: call.run_id,
        profile: name,
        workspace_root,
        args,
        capture: capture_by(ways.no_capture),
        threads: threads_of_call(call, profile, ways),
        max_fail: max_fail_by(profile, ways),
        retries: retries_by(ways.retries),
        flaky_result: ways.flaky,
        stress,
        global_timeout: profile.run.global_timeout,
        groups,
        scripts,
        tests,
    }
}

/// The plan that a list, a project and a call make, where filters say so much of each test, and these scripts run.
pub(crate) fn planned(
    alloc: Global,
    list: &TestList,
    project: &Project,
    given: (&Choices, &Call),
    rows: &[AskedRow<'_>],
    scripts: &[&SetupScript],
) -> Mem<SaidPlan>
    requires { length scripts.now < 2 ^ 32 }
    ensures { IfOk result (λ plan. plan ≡ planned list.now project.now given.entry.0.now given.entry.1.now
        (map asked_row rows.now) (map (λ s. s.now) scripts.now)) }
{
    let stress = stress_by(alloc, &given.0.ways)?;
    let heads = heads_by(alloc, list, &given.0.ways, given.1)?;
    let parts = parts_by(alloc, list, project, given, rows, scripts)?;
    Ok(plan_with(project, given, heads, stress, parts))
}
