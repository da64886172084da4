// A test of a plan line.
ghost use Rattle.std.specs.Prelude.{◌≡◌, codes};
ghost use Rattle.serde_json.specs.Find.{get};
ghost use Rattle.serde_json.specs.View.{view};
ghost use Rattle.run_events.specs.Usual.{usual_leak};
ghost use Rattle.run_input.specs.ReadsValue.{ReadsValue};
ghost use Rattle.run_commands.specs.declared.target_runner.BuildPlatform.TheVariants as platforms;
ghost use Rattle.run_input.specs.PlanTest.{id_of, named_of, platform_of, terms_from, test_from, ties_of, trials_of};
ghost use Rattle.run_input.specs.PlanTest.{priority_of, priority_said, rank_of, keys_of_test, slow_of, leak_of};
ghost use Rattle.run_input.specs.PlanTest.{timeout_of, leak_result_of};
ghost use Rattle.run_input.specs.Fields.{is_object_of, or_usual, u32_of, when};

use crate::both::both;
use crate::fields::{
    numbers_or_none, optional_text_at, optional_u32_at, text_at, texts_at, time_or, u32_or,
};
use crate::misfit::Wrong;
use crate::objects::only_keys;
use crate::plan_retries::{RESULTS, flaky_at, retries_at};
use crate::refusal::{Refusal, or_not, under};
use run_capture::{List, Text};
use run_commands::BuildPlatform;
use run_events::{
    FlakyResult, LeakTimeout, LeakTimeoutResult, PlanTest, RetryPolicy, SlowTimeout,
    SlowTimeoutResult, TestInstanceId,
};
use serde_json::Value;
use std::alloc::Global;

const PRIORITY: &str = "a whole number from -100 to 100";

// Refuses what is no object, and a key that a test doesn't have.
fn only_test_keys(alloc: Global, value: &Value) -> Result<(), Refusal>
    ensures { ReadsValue result (when (is_object_of keys_of_test (view value.now))) }
{
    let names = [
        "binary", "command", "flaky", "group", "leak", "name", "platform", "priority", "retries",
        "scripts", "skip", "slow", "weight",
    ];
    only_keys(alloc, value, &names, "an object")
}

/// A test, by its keys, in a plan line of this version.
#[tactic(auto, unfolding(crate::specs::PlanTest::test_from))]
pub fn test_from(alloc: Global, version: u64, value: &Value) -> Result<PlanTest, Refusal>
    ensures { ReadsValue result (test_from version (view value.now)) }
{
    only_test_keys(alloc, value)?;
    let terms = terms_from(alloc, value)?;
    let trials = trials_from(alloc, value)?;
    let rank = rank_from(alloc, version, value)?;
    let ties = ties_from(alloc, value)?;
    let (ties, test) = both(ties, named_from(alloc, value))?;
    Ok(set(test, terms, trials, rank, ties))
}

// A test of this weight and priority, with these time-outs and retries, for this platform, in this group, with these
// scripts.
fn set(
    test: PlanTest,
    terms: (u32, SlowTimeout, LeakTimeout),
    trials: (RetryPolicy, FlakyResult),
    rank: (BuildPlatform, i8),
    ties: (Option<Text>, List<u32>),
) -> PlanTest
    ensures { result ≡ record test {
      weight = terms.0;
      slow = terms.1;
      leak = terms.2;
      retries = trials.0;
      flaky = trials.1;
      group = ties.0;
      scripts = ties.1;
      platform = rank.0;
      priority = rank.1;
    } }
{
    let mut test = test;
    (test.weight, test.slow, test.leak) = terms;
    (test.retries, test.flaky) = trials;
    (test.platform, test.priority) = rank;
    (test.group, test.scripts) = ties;
    test
}

// The platform of a test, and the target's where nothing is said.
fn platform_at(alloc: Global, test: &Value) -> Result<BuildPlatform, Refusal>
    ensures { ReadsValue result (or_usual platforms.Target platform_of (get (codes "platform") (view test.now))) }
{
    match test.get("platform") {
        Some(value) => or_not(alloc, platform_from(value), "platform", "target or host"),
        None => Ok(BuildPlatform::Target),
    }
}

fn platform_from(value: &Value) -> Option<BuildPlatform>
    ensures { result ≡ platform_of (view value.now) }
{
    match value.as_str()? {
        "target" => Some(BuildPlatform::Target),
        "host" => Some(BuildPlatform::Host),
        _ => None,
    }
}

// A whole number from -100 to 100.
fn priority_from(value: &Value) -> Option<i8>
    ensures { result ≡ priority_of (view value.now) }
{
    let number = value.as_i64()?;
    if -100 <= number && number <= 100 {
        Some(number as i8)
    } else {
        None
    }
}

// The priority of a test in a plan line of this version, and 0 where nothing is said.
fn priority_at(alloc: Global, version: u64, test: &Value) -> Result<i8, Refusal>
    ensures { ReadsValue result (priority_said version (get (codes "priority") (view test.now))) }
{
    match test.get("priority") {
        Some(value) if version == 2 => or_not(alloc, priority_from(value), "priority", PRIORITY),
        Some(_) => Err(Refusal::at(alloc, "priority", Wrong::NotSecondVersion)),
        None => Ok(0),
    }
}

// The platform of a test, and its priority in a plan line of this version.
fn rank_from(alloc: Global, version: u64, value: &Value) -> Result<(BuildPlatform, i8), Refusal>
    ensures { ReadsValue result (rank_of version (view value.now)) }
{
    let platform = platform_at(alloc, value)?;
    let priority = priority_at(alloc, version, value)?;
    Ok((platform, priority))
}

// How often a test is tried again, and what a pass counts as then.
fn trials_from(alloc: Global, value: &Value) -> Result<(RetryPolicy, FlakyResult), Refusal>
    ensures { ReadsValue result (trials_of (view value.now)) }
{
    let retries = retries_at(alloc, value)?;
    let flaky = flaky_at(alloc, value)?;
    Ok((retries, flaky))
}

// The group of a test, and its setup scripts by number.
fn ties_from(alloc: Global, value: &Value) -> Result<(Option<Text>, List<u32>), Refusal>
    ensures { ReadsValue result (ties_of (view value.now)) }
{
    let group = optional_text_at(alloc, value, "group")?;
    let scripts = numbers_or_none(alloc, value, "scripts")?;
    Ok((group, scripts))
}

// The name of a test, its command, and why it is skipped.
fn named_from(alloc: Global, value: &Value) -> Result<PlanTest, Refusal>
    ensures { ReadsValue result (named_of (view value.now)) }
{
    let id = id_from(alloc, value)?;
    let command = texts_at(alloc, value, "command")?;
    let skip = optional_text_at(alloc, value, "skip")?;
    Ok(PlanTest::usual(id, command, skip))
}

// The weight of a test, and its time-outs.
fn terms_from(alloc: Global, value: &Value) -> Result<(u32, SlowTimeout, LeakTimeout), Refusal>
    ensures { ReadsValue result (terms_from (view value.now)) }
{
    let weight = u32_or(alloc, 1, value, "weight")?;
    let slow = slow_or(alloc, SlowTimeout::usual(), value)?;
    let leak = leak_at(alloc, value)?;
    Ok((weight, slow, leak))
}

// The name of a test.
fn id_from(alloc: Global, value: &Value) -> Result<TestInstanceId, Refusal>
    ensures { ReadsValue result (id_of (view value.now)) }
{
    let binary = text_at(alloc, value, "binary")?;
    let name = text_at(alloc, value, "name")?;
    Ok(TestInstanceId { binary, name })
}

/// When a test or a script is slow, and as is usual for it where nothing is said.
pub fn slow_or(alloc: Global, usual: SlowTimeout, object: &Value) -> Result<SlowTimeout, Refusal>
    ensures { ReadsValue result (or_usual usual (slow_of usual) (get (codes "slow") (view object.now))) }
{
    match object.get("slow") {
        Some(slow) => under(alloc, "slow", slow_from(alloc, usual, slow)),
        None => Ok(usual),
    }
}

#[tactic(auto, unfolding(crate::specs::PlanTest::slow_of))]
fn slow_from(alloc: Global, usual: SlowTimeout, value: &Value) -> Result<SlowTimeout, Refusal>
    ensures { ReadsValue result (slow_of usual (view value.now)) }
{
    let names = ["grace", "on_timeout", "period", "terminate_after"];
    only_keys(
        alloc,
        value,
        &names,
        "an object as {\"period\":60000000000}",
    )?;
    let period = time_or(alloc, usual.period, value, "period")?;
    let terminate_after = optional_u32_at(alloc, value, "terminate_after")?;
    let grace = time_or(alloc, usual.grace, value, "grace")?;
    let on_timeout = timeout_or(alloc, usual.on_timeout, value)?;
    Ok(SlowTimeout {
        period,
        terminate_after,
        grace,
        on_timeout,
    })
}

// What a time-out counts as, and the usual result where nothing is said.
fn timeout_or(
    alloc: Global,
    usual: SlowTimeoutResult,
    slow: &Value,
) -> Result<SlowTimeoutResult, Refusal>
    ensures { ReadsValue result (or_usual usual timeout_of (get (codes "on_timeout") (view slow.now))) }
{
    match slow.get("on_timeout") {
        Some(value) => or_not(alloc, timeout_from(value), "on_timeout", RESULTS),
        None => Ok(usual),
    }
}

fn timeout_from(value: &Value) -> Option<SlowTimeoutResult>
    ensures { result ≡ timeout_of (view value.now) }
{
    match value.as_str()? {
        "fail" => Some(SlowTimeoutResult::Fail),
        "pass" => Some(SlowTimeoutResult::Pass),
        _ => None,
    }
}

/// How long open descriptors are waited for, and as usual where nothing is said.
pub fn leak_at(alloc: Global, object: &Value) -> Result<LeakTimeout, Refusal>
    ensures { ReadsValue result (or_usual usual_leak leak_of (get (codes "leak") (view object.now))) }
{
    match object.get("leak") {
        Some(leak) => under(alloc, "leak", leak_from(alloc, leak)),
        None => Ok(LeakTimeout::usual()),
    }
}

#[tactic(auto, unfolding(crate::specs::PlanTest::leak_of))]
fn leak_from(alloc: Global, value: &Value) -> Result<LeakTimeout, Refusal>
    ensures { ReadsValue result (leak_of (view value.now)) }
{
    only_keys(
        alloc,
        value,
        &["period", "result"],
        "an object as {\"period\":200000000}",
    )?;
    let usual = LeakTimeout::usual();
    let period = time_or(alloc, usual.period, value, "period")?;
    let result = leak_result_at(alloc, value)?;
    Ok(LeakTimeout { period, result })
}

// What a leak counts as, and as usual where nothing is said.
fn leak_result_at(alloc: Global, leak: &Value) -> Result<LeakTimeoutResult, Refusal>
    ensures { ReadsValue result (or_usual usual_leak.result leak_result_of (get (codes "result") (view leak.now))) }
{
    match leak.get("result") {
        Some(value) => or_not(alloc, leak_result_from(value), "result", RESULTS),
        None => Ok(LeakTimeout::usual().result),
    }
}

fn leak_result_from(value: &Value) -> Option<LeakTimeoutResult>
    ensures { result ≡ leak_result_of (view value.now) }
{
    match value.as_str()? {
        "fail" => Some(LeakTimeoutResult::Fail),
        "pass" => Some(LeakTimeoutResult::Pass),
        _ => None,
    }
}
