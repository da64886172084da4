// The settings of tests and scripts as values.
ghost use Rattle.std.specs.Prelude.{◌≡◌, ◌<◌, ◌^◌, false, IfOk, IfSome, OnOk, option_map};
ghost use Rattle.serde_json.specs.View.{view};
ghost use Rattle.run_output.specs.Fields.{object_of};
ghost use Rattle.run_plan_line.specs.PlanFields.{flaky_unless_pass, is_no_retries, is_usual_leak, is_usual_slow};
ghost use Rattle.run_plan_line.specs.PlanFields.{leak_fields, leak_object, leak_passes, leak_result_word};
ghost use Rattle.run_plan_line.specs.PlanFields.{platform_word};
ghost use Rattle.run_plan_line.specs.PlanFields.{priority_unless_0, retries_if_any, retries_object, slow_fields};
ghost use Rattle.run_plan_line.specs.PlanFields.{slow_object, timeout_fails, timeout_result_word, retries_fields};
ghost use Rattle.run_plan_line.specs.SaidPlan.{tries};
ghost use Rattle.run_events.specs.declared.retry_policy.RetryPolicy.TheVariants.{Fixed, Exponential};

use crate::fields::{count_of, if_true, number_of, number_unless, put_some, put_text};
use run_capture::Mem;
use run_commands::BuildPlatform;
use run_events::{
    FlakyResult, LeakTimeout, LeakTimeoutResult, RetryPolicy, SlowTimeout, SlowTimeoutResult,
};
use run_wave_line::text_value;
use serde_json::{Map, Value};
use std::alloc::Global;

/// What is usual for the grace of a time-out, and for how long open descriptors are waited for.
const GRACE: u64 = 10_000_000_000;

const LEAK: u64 = 200_000_000;

fn timeout_fails(counts: SlowTimeoutResult) -> bool
    ensures { result ≡ timeout_fails counts }
{
    match counts {
        SlowTimeoutResult::Fail => true,
        SlowTimeoutResult::Pass => false,
    }
}

fn timeout_result_word(alloc: Global, counts: SlowTimeoutResult) -> Mem<Option<Value>>
    ensures { IfOk result (λ v. option_map view v ≡ timeout_result_word counts) }
{
    match counts {
        SlowTimeoutResult::Fail => Ok(None),
        SlowTimeoutResult::Pass => Ok(Some(text_value(alloc, "pass")?)),
    }
}

fn leak_passes(counts: LeakTimeoutResult) -> bool
    ensures { result ≡ leak_passes counts }
{
    match counts {
        LeakTimeoutResult::Pass => true,
        LeakTimeoutResult::Fail => false,
    }
}

fn leak_result_word(alloc: Global, counts: LeakTimeoutResult) -> Mem<Option<Value>>
    ensures { IfOk result (λ v. option_map view v ≡ leak_result_word counts) }
{
    match counts {
        LeakTimeoutResult::Pass => Ok(None),
        LeakTimeoutResult::Fail => Ok(Some(text_value(alloc, "fail")?)),
    }
}

/// What a pass after a failed attempt counts as, left out where it passes.
pub fn flaky_unless_pass(alloc: Global, counts: FlakyResult) -> Mem<Option<Value>>
    ensures { IfOk result (λ v. option_map view v ≡ flaky_unless_pass counts) }
{
    match counts {
        FlakyResult::Pass => Ok(None),
        FlakyResult::Fail => Ok(Some(text_value(alloc, "fail")?)),
    }
}

/// The platform of a test, left out where it is the target's.
pub fn platform_word(alloc: Global, platform: BuildPlatform) -> Mem<Option<Value>>
    ensures { IfOk result (λ v. option_map view v ≡ platform_word platform) }
{
    match platform {
        BuildPlatform::Target => Ok(None),
        BuildPlatform::Host => Ok(Some(text_value(alloc, "host")?)),
    }
}

/// The priority of a test, left out where it is 0.
#[tactic(auto, using(crate::proofs::FieldLemmas::priority_left_out, crate::proofs::FieldLemmas::priority_said))]
pub fn priority_unless_0(priority: i8) -> Option<Value>
    ensures { option_map view result ≡ priority_unless_0 priority }
{
    if priority == 0 {
        None
    } else {
        Some(Value::from(priority as i64))
    }
}

#[tactic(auto, unfolding(crate::specs::PlanFields::slow_fields))]
fn slow_value(alloc: Global, period: u64, slow: &SlowTimeout) -> Mem<Value>
    ensures is { IfOk result (λ v. view v ≡ object_of (slow_fields period slow.now)) }
    ensures fits { OnOk result (IfSome slow.now.terminate_after (λ n. n < 2 ^ 32)) }
{
    let mut members = Map::new(alloc);
    put_some(
        alloc,
        &mut members,
        "grace",
        number_unless(GRACE, slow.grace),
    )?;
    let on_timeout = timeout_result_word(alloc, slow.on_timeout)?;
    put_some(alloc, &mut members, "on_timeout", on_timeout)?;
    put_some(
        alloc,
        &mut members,
        "period",
        number_unless(period, slow.period),
    )?;
    put_some(
        alloc,
        &mut members,
        "terminate_after",
        count_of(slow.terminate_after),
    )?;
    Ok(Value::Object(members))
}

fn is_usual_slow(period: u64, slow: &SlowTimeout) -> bool
    ensures { result ≡ is_usual_slow period slow.now }
{
    slow.terminate_after.is_none()
        && timeout_fails(slow.on_timeout)
        && slow.grace == GRACE
        && slow.period == period
}

/// When something is slow, where that is usual after such a period; left out where all is as usual.
pub fn slow_object(alloc: Global, period: u64, slow: &SlowTimeout) -> Mem<Option<Value>>
    ensures is { IfOk result (λ v. option_map view v ≡ slow_object period slow.now) }
    ensures fits { OnOk result (is_usual_slow period slow.now ≡ false
        → IfSome slow.now.terminate_after (λ n. n < 2 ^ 32)) }
{
    if is_usual_slow(period, slow) {
        return Ok(None);
    }
    Ok(Some(slow_value(alloc, period, slow)?))
}

#[tactic(auto, unfolding(crate::specs::PlanFields::leak_fields))]
fn leak_value(alloc: Global, leak: &LeakTimeout) -> Mem<Value>
    ensures { IfOk result (λ v. view v ≡ object_of (leak_fields leak.now)) }
{
    let mut members = Map::new(alloc);
    put_some(
        alloc,
        &mut members,
        "period",
        number_unless(LEAK, leak.period),
    )?;
    let counts = leak_result_word(alloc, leak.result)?;
    put_some(alloc, &mut members, "result", counts)?;
    Ok(Value::Object(members))
}

fn is_usual_leak(leak: &LeakTimeout) -> bool
    ensures { result ≡ is_usual_leak leak.now }
{
    leak_passes(leak.result) && leak.period == LEAK
}

/// How long open descriptors are waited for, left out where all is as usual.
pub fn leak_object(alloc: Global, leak: &LeakTimeout) -> Mem<Option<Value>>
    ensures { IfOk result (λ v. option_map view v ≡ leak_object leak.now) }
{
    if is_usual_leak(leak) {
        return Ok(None);
    }
    Ok(Some(leak_value(alloc, leak)?))
}

#[tactic(auto, unfolding(crate::specs::PlanFields::retries_fields))]
fn fixed_value(alloc: Global, count: u32, delay: u64, jitter: bool) -> Mem<Value>
    ensures is { IfOk result (λ v. view v ≡ object_of (retries_fields (Fixed count delay jitter))) }
    ensures fits { count < 2 ^ 32 }
{
    let mut members = Map::new(alloc);
    put_some(
        alloc,
        &mut members,
        "count",
        Some(Value::from(count as u64)),
    )?;
    put_some(alloc, &mut members, "delay", number_unless(0, delay))?;
    put_some(alloc, &mut members, "jitter", if_true(jitter))?;
    Ok(Value::Object(members))
}

#[tactic(auto, unfolding(crate::specs::PlanFields::retries_fields))]
fn exponential_value(
    alloc: Global,
    count: u32,
    delay: u64,
    jitter: bool,
    max_delay: Option<u64>,
) -> Mem<Value>
    ensures is { IfOk result (λ v. view v ≡ object_of (retries_fields (Exponential count delay jitter max_delay))) }
    ensures fits { count < 2 ^ 32 }
{
    let mut members = Map::new(alloc);
    put_text(alloc, &mut members, "backoff", "exponential")?;
    put_some(
        alloc,
        &mut members,
        "count",
        Some(Value::from(count as u64)),
    )?;
    put_some(alloc, &mut members, "delay", number_unless(0, delay))?;
    put_some(alloc, &mut members, "jitter", if_true(jitter))?;
    put_some(alloc, &mut members, "max_delay", number_of(max_delay))?;
    Ok(Value::Object(members))
}

/// How often a test is tried again.
pub fn retries_value(alloc: Global, retries: RetryPolicy) -> Mem<Value>
    ensures is { IfOk result (λ v. view v ≡ retries_object retries) }
    ensures fits { tries retries < 2 ^ 32 }
{
    match retries {
        RetryPolicy::Fixed {
            count,
            delay,
            jitter,
        } => fixed_value(alloc, count, delay, jitter),
        RetryPolicy::Exponential {
            count,
            delay,
            jitter,
            max_delay,
        } => exponential_value(alloc, count, delay, jitter, max_delay),
    }
}

fn is_no_retries(retries: RetryPolicy) -> bool
    ensures { result ≡ is_no_retries retries }
{
    match retries {
        RetryPolicy::Fixed {
            count,
            delay,
            jitter,
        } => !jitter && count == 0 && delay == 0,
        RetryPolicy::Exponential { .. } => false,
    }
}

/// The same, left out where it is never tried again.
pub fn retries_if_any(alloc: Global, retries: RetryPolicy) -> Mem<Option<Value>>
    ensures is { IfOk result (λ v. option_map view v ≡ retries_if_any retries) }
    ensures fits { OnOk result (is_no_retries retries ≡ false → tries retries < 2 ^ 32) }
{
    if is_no_retries(retries) {
        return Ok(None);
    }
    Ok(Some(retries_value(alloc, retries)?))
}
