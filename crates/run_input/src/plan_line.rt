// The plan line: the first line of an input.
ghost use Rattle.std.specs.Prelude.{◌≡◌, ◌↔◌, [], ◌+◌, None, codes, length, nat_lt, option_map, option_and_then};
ghost use Rattle.std.specs.Prelude.{IfOk, IsSome};
ghost use Rattle.serde_json.specs.Find.{get};
ghost use Rattle.serde_json.specs.View.{view, items_view};
ghost use Rattle.run_input.specs.ReadsValue.{ReadsValue};
ghost use Rattle.run_input.specs.ValueOf.{json_value};
ghost use Rattle.run_input.specs.PlanLine.{tests_of, tests_from, plan_tests_of, groups_of, groups_from, plan_groups_of};
ghost use Rattle.run_input.specs.PlanLine.{group_from, limits_from, retrying_of, keys_of, rules_from, lists_of};
ghost use Rattle.run_input.specs.PlanLine.{plan_scripts_of, plan_with, plan_alone_of, plan_of};
ghost use Rattle.run_input.specs.Fields.{or_usual, when};

use crate::LineError;
use crate::both::both;
use crate::fields::{optional_time_at, optional_u32_at, text_at, u32_at};
use crate::misfit::{Misfit, Wrong};
use crate::objects::only_keys;
use crate::plan_expected::optional_expected_at;
use crate::plan_head::frame_from;
use crate::plan_interceptor::interceptor_at;
use crate::plan_keys::{capture_at, hearing_from, max_fail_at, version_at};
use crate::plan_retries::{optional_flaky_at, optional_retries_at};
use crate::plan_scripts::scripts_at;
use crate::plan_stress::optional_stress_at;
use crate::plan_test::test_from;
use crate::refusal::{Refusal, in_item, missing};
use crate::value::{parse, unless_float};
use run_capture::{CaptureStrategy, List, Mem};
use run_commands::{Interceptor, StressCondition, TargetRunner};
use run_events::{
    FlakyResult, Group, Hearing, MaxFail, Plan, PlanScript, PlanTest, RetryPolicy, RunHead,
    TestInstanceId,
};
use serde_json::Value;
use std::alloc::Global;

/// What the keys of a plan line set of a runner.
#[derive(Drop)]
pub struct RunnerKeys {
    pub capture: CaptureStrategy,
    /// How much may run at a time, where it is given.
    pub threads: Option<u32>,
    pub max_fail: MaxFail,
    /// When a stress run ends, where the run is one.
    pub stress: Option<StressCondition>,
    /// What each test is given in place of its own, where it is given.
    pub retries: Option<RetryPolicy>,
    pub flaky_result: Option<FlakyResult>,
    /// What each test runs under.
    pub interceptor: Interceptor,
    /// The tests that a rerun expects, where the run is one, in the order of their list.
    pub expected: Option<List<TestInstanceId>>,
}

/// Reads a plan line: what it sets of a runner, and its plan.
///
/// Its keys are `run_id` (a UUID) and `tests` (a list of tests, which may be empty), and it may have `capture` (the
/// text `none`, `split` or `combined`; `split` where it is missing), `threads` (a number), `max_fail`, `retries` and
/// `flaky_result` (each replaces that of every test), `signals` (the text `standard`, `debugger` or `noop`; `standard`
/// where it is missing), `input` (the text `standard` or `noop`; `standard` where it is missing), `quit_is_info` (a
/// truth value; `false` where it is missing), `global_timeout` (a number), `groups` (a list of groups) and `scripts` (a
/// list of setup scripts). It may also have `profile`, `workspace_root`, `args` (a list of texts), `mode` (the text
/// `test` or `benchmark`), `started_at` (a moment), `nextest_version`, `required_version`, `recommended_version`
/// (versions), `version` (the number 1 or 2; 1 where it is missing), and `runners`, which may have `host` and `target`
/// (each a program with its arguments); what is missing is as usual. `max_fail` has `count` (a number) and `mode` (the
/// text `wait` or `immediate`). A group has `limit` (a number) and `name`. A script has `command` (a list of texts) and
/// `id`, and may have `env_path` (empty where it is missing), `capture_stdout` and `capture_stderr` (truth values,
/// `true` where they are missing), `leak` and `slow`. A test has `binary`, `command` and `name`, and may have `group`
/// (the name of one), `leak`, `platform` (the text `target` or `host`; `target` where it is missing), `scripts` (a list
/// of numbers, each of a script; none where it is missing), `skip` (the reason for which it is skipped), `slow`,
/// `weight` (a number, 1 where it is missing), `retries` and `flaky` (the text `pass` or `fail`, as `flaky_result`;
/// `pass` where it is missing). `slow` may have `grace`, `on_timeout` (the text `fail` or `pass`), `period` and
/// `terminate_after`, and `leak` may have `period` and `result` (the text `fail` or `pass`); what is missing is as
/// usual for a test or a script. `retries` has `count` (a number), and may have `delay` (0 where it is missing),
/// `jitter` (`false` where it is missing), `backoff` (the text `fixed` or `exponential`; `fixed` where it is missing)
/// and, where it is exponential, `max_delay`. `interceptor` may be there too, and has `command` (a text with a word at
/// least, as a shell splits it) and `kind` (the text `debugger` or `tracer`). So may `stress`, which has `count` (the
/// text `infinite` or decimal digits) or `duration` (a number), and `expected` (a list of tests, each a list of its
/// binary and its name).
pub fn read_plan_line(alloc: Global, line: &[u8]) -> Result<(RunnerKeys, Plan), LineError>
    ensures { ReadsValue result (option_and_then plan_of (json_value line.now)) }
{
    match plan_said(alloc, line) {
        Ok(said) => Ok(said),
        Err(refusal) => Err(refusal.error()),
    }
}

/// Why `read_plan_line` refuses a line: what is wrong with it, and where, as the reader found it.
pub fn plan_line_misfit(alloc: Global, line: &[u8]) -> Mem<Option<Misfit>>
    ensures { IfOk result (λ misfit. IsSome misfit ↔ (option_and_then plan_of (json_value line.now) ≡ None)) }
{
    match plan_said(alloc, line) {
        Ok(said) => {
            drop(said);
            Ok(None)
        }
        Err(refusal) => refusal.into_misfit(),
    }
}

#[tactic(auto, using(crate::proofs::SaidLemmas::reads_line))]
fn plan_said(alloc: Global, line: &[u8]) -> Result<(RunnerKeys, Plan), Refusal>
    ensures { ReadsValue result (option_and_then plan_of (json_value line.now)) }
{
    let value = parse(alloc, line)?;
    let said = plan_from(alloc, &value);
    unless_float(alloc, &value, said)
}

/// The most groups that a plan may have, and the most scripts and tests together. No input within its limit has as
/// many.
const MOST: usize = 4_294_967_295;

const FEW: &str = "a list of fewer than 4294967296 objects";

const OBJECTS: &str = "a list of objects";

#[tactic(auto, unfolding(crate::specs::PlanLine::plan_of), using(crate::proofs::SaidLemmas::refused_version))]
fn plan_from(alloc: Global, value: &Value) -> Result<(RunnerKeys, Plan), Refusal>
    ensures { ReadsValue result (plan_of (view value.now)) }
{
    version_at(alloc, value)?;
    only_keys(
        alloc,
        value,
        &[
            "args",
            "capture",
            "expected",
            "flaky_result",
            "global_timeout",
            "groups",
            "input",
            "interceptor",
            "max_fail",
            "mode",
            "nextest_version",
            "profile",
            "quit_is_info",
            "recommended_version",
            "required_version",
            "retries",
            "run_id",
            "runners",
            "scripts",
            "signals",
            "started_at",
            "stress",
            "tests",
            "threads",
            "version",
            "workspace_root",
        ],
        "a JSON object",
    )?;
    let keys = runner_keys(alloc, value)?;
    both(keys, plan_alone(alloc, value))
}

// The plan, without what is set of a runner.
fn plan_alone(alloc: Global, value: &Value) -> Result<Plan, Refusal>
    ensures { ReadsValue result (plan_alone_of (view value.now)) }
{
    let version = version_at(alloc, value)?;
    let rules = rules_from(alloc, value)?;
    let frame = frame_from(alloc, value)?;
    let (frame, lists) = both(frame, lists_from(alloc, version, value))?;
    Ok(plan_with(rules, frame, lists))
}

// How output is captured, how many tests run at a time, and after how many failures none starts any more.
fn limits_from(
    alloc: Global,
    value: &Value,
) -> Result<(CaptureStrategy, Option<u32>, MaxFail), Refusal>
    ensures { ReadsValue result (limits_from (view value.now)) }
{
    let capture = capture_at(alloc, value)?;
    let threads = optional_u32_at(alloc, value, "threads")?;
    let max_fail = max_fail_at(alloc, value)?;
    Ok((capture, threads, max_fail))
}

// How often each test is tried again, and what a pass counts as then.
fn retrying_from(
    alloc: Global,
    value: &Value,
) -> Result<(Option<RetryPolicy>, Option<FlakyResult>), Refusal>
    ensures { ReadsValue result (retrying_of (view value.now)) }
{
    let retries = optional_retries_at(alloc, value)?;
    let flaky_result = optional_flaky_at(alloc, value)?;
    Ok((retries, flaky_result))
}

// What the keys set of a runner.
fn runner_keys(alloc: Global, value: &Value) -> Result<RunnerKeys, Refusal>
    ensures { ReadsValue result (keys_of (view value.now)) }
{
    let (capture, threads, max_fail) = limits_from(alloc, value)?;
    let (retries, flaky_result) = retrying_from(alloc, value)?;
    let stress = optional_stress_at(alloc, value)?;
    let interceptor = interceptor_at(alloc, value)?;
    let expected = optional_expected_at(alloc, value);
    let (interceptor, expected) = both(interceptor, expected)?;
    Ok(RunnerKeys {
        capture,
        threads,
        max_fail,
        stress,
        retries,
        flaky_result,
        interceptor,
        expected,
    })
}

// What a run hears, and how long it may take.
fn rules_from(alloc: Global, value: &Value) -> Result<(Hearing, Option<u64>), Refusal>
    ensures { ReadsValue result (rules_from (view value.now)) }
{
    let hearing = hearing_from(alloc, value)?;
    let global_timeout = optional_time_at(alloc, value, "global_timeout")?;
    Ok((hearing, global_timeout))
}

// A plan with these rules, of this head and these runners, with these groups, scripts and tests.
fn plan_with(
    rules: (Hearing, Option<u64>),
    frame: (RunHead, TargetRunner),
    lists: (List<Group>, List<PlanScript>, List<PlanTest>),
) -> Plan
    ensures { result ≡ plan_with rules frame lists }
{
    let (hearing, global_timeout) = rules;
    let (head, runners) = frame;
    let (groups, scripts, tests) = lists;
    Plan {
        head,
        hearing,
        global_timeout,
        groups,
        runners,
        scripts,
        tests,
    }
}

// The groups, the setup scripts and the tests of a plan: scripts and tests together are fewer than 2^32.
fn lists_from(
    alloc: Global,
    version: u64,
    value: &Value,
) -> Result<(List<Group>, List<PlanScript>, List<PlanTest>), Refusal>
    ensures { ReadsValue result (lists_of version (view value.now)) }
{
    let groups = groups_of_plan(alloc, value)?;
    let scripts = scripts_of_plan(alloc, value)?;
    let tests = tests_of_plan(alloc, version, value)?;
    all_lists(alloc, groups, scripts, tests)
}

// These lists, where scripts and tests are together fewer than 2^32.
fn all_lists(
    alloc: Global,
    groups: List<Group>,
    scripts: List<PlanScript>,
    tests: List<PlanTest>,
) -> Result<(List<Group>, List<PlanScript>, List<PlanTest>), Refusal>
    ensures { ReadsValue result (option_map (λ _. (groups, scripts, tests))
        (when (nat_lt (length scripts + length tests) 4294967296))) }
{
    if are_few(scripts.len(), tests.len()) {
        Ok((groups, scripts, tests))
    } else {
        Err(Refusal::at(alloc, "tests", Wrong::Not(FEW)))
    }
}

// Whether so many scripts and so many tests are together fewer than 2^32.
fn are_few(scripts: usize, tests: usize) -> bool
    ensures { result ≡ nat_lt (scripts + tests) 4294967296 }
{
    scripts <= MOST && tests <= MOST - scripts
}

// The groups of a plan, which are fewer than 2^32.
fn groups_of_plan(alloc: Global, plan: &Value) -> Result<List<Group>, Refusal>
    ensures { ReadsValue result (plan_groups_of (get (codes "groups") (view plan.now))) }
{
    let groups = groups_at(alloc, plan)?;
    if groups.len() > MOST {
        Err(Refusal::at(alloc, "groups", Wrong::Not(FEW)))
    } else {
        Ok(groups)
    }
}

// The setup scripts of a plan, which are fewer than 2^32.
fn scripts_of_plan(alloc: Global, plan: &Value) -> Result<List<PlanScript>, Refusal>
    ensures { ReadsValue result (plan_scripts_of (get (codes "scripts") (view plan.now))) }
{
    let scripts = scripts_at(alloc, plan)?;
    if scripts.len() > MOST {
        Err(Refusal::at(alloc, "scripts", Wrong::Not(FEW)))
    } else {
        Ok(scripts)
    }
}

#[tactic(auto, unfolding(crate::specs::PlanLine::group_from))]
fn group_from(alloc: Global, value: &Value) -> Result<Group, Refusal>
    ensures { ReadsValue result (group_from (view value.now)) }
{
    only_keys(alloc, value, &["limit", "name"], "an object")?;
    let limit = u32_at(alloc, value, "limit")?;
    let name = text_at(alloc, value, "name")?;
    Ok(Group { name, limit })
}

fn groups_in(alloc: Global, items: &[Value]) -> Result<List<Group>, Refusal>
    ensures { ReadsValue result (groups_from (items_view items.now)) }
{
    let mut groups = List::new();
    for item in items {
        let number = groups.len();
        let group = in_item(alloc, "groups", number, group_from(alloc, item))?;
        groups.push(alloc, group)?;
    }
    Ok(groups)
}

// The groups of a list, and none where there is none.
fn groups_at(alloc: Global, plan: &Value) -> Result<List<Group>, Refusal>
    ensures { ReadsValue result (or_usual [] groups_of (get (codes "groups") (view plan.now))) }
{
    match plan.get("groups") {
        Some(list) => match list.as_array() {
            Some(items) => groups_in(alloc, items.as_slice()),
            None => Err(Refusal::at(alloc, "groups", Wrong::Not(OBJECTS))),
        },
        None => Ok(List::new()),
    }
}

fn tests_in(alloc: Global, version: u64, items: &[Value]) -> Result<List<PlanTest>, Refusal>
    ensures { ReadsValue result (tests_from version (items_view items.now)) }
{
    let mut tests = List::new();
    for item in items {
        let number = tests.len();
        let test = in_item(alloc, "tests", number, test_from(alloc, version, item))?;
        tests.push(alloc, test)?;
    }
    Ok(tests)
}

// The tests of a list.
fn tests_at(alloc: Global, version: u64, plan: &Value) -> Result<List<PlanTest>, Refusal>
    ensures { ReadsValue result (option_and_then (tests_of version) (get (codes "tests") (view plan.now))) }
{
    match plan.get("tests") {
        Some(list) => match list.as_array() {
            Some(items) => tests_in(alloc, version, items.as_slice()),
            None => Err(Refusal::at(alloc, "tests", Wrong::Not(OBJECTS))),
        },
        None => missing(alloc, "tests"),
    }
}

// The tests of a plan, which are fewer than 2^32.
fn tests_of_plan(alloc: Global, version: u64, plan: &Value) -> Result<List<PlanTest>, Refusal>
    ensures { ReadsValue result (plan_tests_of version (get (codes "tests") (view plan.now))) }
{
    let tests = tests_at(alloc, version, plan)?;
    if tests.len() > MOST {
        Err(Refusal::at(alloc, "tests", Wrong::Not(FEW)))
    } else {
        Ok(tests)
    }
}
