// How often a test of a plan line is tried again, and what a pass after a failed attempt counts as.
ghost use Rattle.std.specs.Prelude.{◌≡◌, [], ◌∷◌, codes, false};
ghost use Rattle.serde_json.specs.Find.{get};
ghost use Rattle.serde_json.specs.View.{view};
ghost use Rattle.run_events.specs.Usual.{no_retries};
ghost use Rattle.run_events.specs.declared.result.FlakyResult.TheVariants.{Pass};
ghost use Rattle.run_input.specs.Fields.{is_object_of, optional, or_usual, when};
ghost use Rattle.run_input.specs.PlanRetries.{exponential_of, fixed_of, flaky_from, grows_of, retries_from};
ghost use Rattle.run_input.specs.PlanRetries.{trials_said};
ghost use Rattle.run_input.specs.ReadsValue.{ReadsValue};

use crate::fields::{optional_time_at, time_or, truth_or, u32_at};
use crate::misfit::Wrong;
use crate::objects::only_keys;
use crate::refusal::{Refusal, or_not, under};
use run_events::{FlakyResult, RetryPolicy};
use serde_json::Value;
use std::alloc::Global;

/// What results are called.
pub const RESULTS: &str = "pass or fail";

const RETRIES: &str = "an object as {\"count\":2}";

/// How often a test is tried again, and never where nothing is said.
pub fn retries_at(alloc: Global, object: &Value) -> Result<RetryPolicy, Refusal>
    ensures { ReadsValue result (or_usual no_retries retries_from (get (codes "retries") (view object.now))) }
{
    match object.get("retries") {
        Some(retries) => under(alloc, "retries", retries_from(alloc, retries)),
        None => Ok(RetryPolicy::none()),
    }
}

/// The same, where it is given for all tests alike.
pub fn optional_retries_at(alloc: Global, object: &Value) -> Result<Option<RetryPolicy>, Refusal>
    ensures { ReadsValue result (optional retries_from (get (codes "retries") (view object.now))) }
{
    match object.get("retries") {
        Some(retries) => Ok(Some(under(alloc, "retries", retries_from(alloc, retries))?)),
        None => Ok(None),
    }
}

// By whether its delays grow.
fn retries_from(alloc: Global, value: &Value) -> Result<RetryPolicy, Refusal>
    ensures { ReadsValue result (retries_from (view value.now)) }
{
    if grows_at(alloc, value)? {
        exponential_from(alloc, value)
    } else {
        fixed_from(alloc, value)
    }
}

// Refuses what is no object, and a key that retries don't have whose delays don't grow.
fn only_fixed_keys(alloc: Global, value: &Value) -> Result<(), Refusal>
    ensures { ReadsValue result (when (is_object_of
        (codes "backoff" ∷ codes "count" ∷ codes "delay" ∷ codes "jitter" ∷ []) (view value.now))) }
{
    match only_keys(
        alloc,
        value,
        &["backoff", "count", "delay", "jitter"],
        RETRIES,
    ) {
        Ok(()) => Ok(()),
        Err(refusal) => Err(refusal.knowing("max_delay", Wrong::NotExponential)),
    }
}

// How often, after which delay in nanoseconds, and whether with a jitter.
fn trials_at(alloc: Global, value: &Value) -> Result<(u32, u64, bool), Refusal>
    ensures { ReadsValue result (trials_said (view value.now)) }
{
    let count = u32_at(alloc, value, "count")?;
    let delay = time_or(alloc, 0, value, "delay")?;
    let jitter = truth_or(alloc, false, value, "jitter")?;
    Ok((count, delay, jitter))
}

#[tactic(auto, unfolding(crate::specs::PlanRetries::fixed_of))]
fn fixed_from(alloc: Global, value: &Value) -> Result<RetryPolicy, Refusal>
    ensures { ReadsValue result (fixed_of (view value.now)) }
{
    only_fixed_keys(alloc, value)?;
    let (count, delay, jitter) = trials_at(alloc, value)?;
    Ok(RetryPolicy::Fixed {
        count,
        delay,
        jitter,
    })
}

#[tactic(auto, unfolding(crate::specs::PlanRetries::exponential_of))]
fn exponential_from(alloc: Global, value: &Value) -> Result<RetryPolicy, Refusal>
    ensures { ReadsValue result (exponential_of (view value.now)) }
{
    let names = ["backoff", "count", "delay", "jitter", "max_delay"];
    only_keys(alloc, value, &names, RETRIES)?;
    let (count, delay, jitter) = trials_at(alloc, value)?;
    let max_delay = optional_time_at(alloc, value, "max_delay")?;
    Ok(RetryPolicy::Exponential {
        count,
        delay,
        jitter,
        max_delay,
    })
}

// Whether the delays grow, and that they don't where nothing is said.
fn grows_at(alloc: Global, retries: &Value) -> Result<bool, Refusal>
    ensures { ReadsValue result (or_usual false grows_of (get (codes "backoff") (view retries.now))) }
{
    match retries.get("backoff") {
        Some(value) => or_not(alloc, growth_from(value), "backoff", "fixed or exponential"),
        None => Ok(false),
    }
}

fn growth_from(value: &Value) -> Option<bool>
    ensures { result ≡ grows_of (view value.now) }
{
    match value.as_str()? {
        "fixed" => Some(false),
        "exponential" => Some(true),
        _ => None,
    }
}

/// What a pass after a failed attempt counts as, and a pass where nothing is said.
pub fn flaky_at(alloc: Global, test: &Value) -> Result<FlakyResult, Refusal>
    ensures { ReadsValue result (or_usual Pass flaky_from (get (codes "flaky") (view test.now))) }
{
    match test.get("flaky") {
        Some(value) => or_not(alloc, flaky_from(value), "flaky", RESULTS),
        None => Ok(FlakyResult::Pass),
    }
}

/// The same, where it is given for all tests alike.
pub fn optional_flaky_at(alloc: Global, plan: &Value) -> Result<Option<FlakyResult>, Refusal>
    ensures { ReadsValue result (optional flaky_from (get (codes "flaky_result") (view plan.now))) }
{
    match plan.get("flaky_result") {
        Some(value) => Ok(Some(or_not(alloc, flaky_from(value), "flaky_result", RESULTS)?)),
        None => Ok(None),
    }
}

fn flaky_from(value: &Value) -> Option<FlakyResult>
    ensures { result ≡ flaky_from (view value.now) }
{
    match value.as_str()? {
        "fail" => Some(FlakyResult::Fail),
        "pass" => Some(FlakyResult::Pass),
        _ => None,
    }
}
