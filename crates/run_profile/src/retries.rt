// How often a test is tried again, as a table says.
ghost use Rattle.std.specs.Prelude.{◌≡◌, codes, None};
ghost use Rattle.toml.specs.View.{view};
ghost use Rattle.run_profile.specs.Refusals.{Agrees};
ghost use Rattle.run_profile.specs.Fields.{needed, number_read, optional_key};
ghost use Rattle.run_profile.specs.Said.{exponential_read, exponential_with, fixed_read, fixed_with, flaky_read};
ghost use Rattle.run_profile.specs.Said.{grows_read, is_below, passes_of, retries_read, retries_said};

use crate::errors::{Fault, ProfileError, dotted, refused, refused_at};
use crate::fields::{needed_time, number_from, only_keys, optional_time, optional_truth};
use run_events::{FlakyResult, RetryPolicy};
use std::alloc::Global;
use toml::Value;

/// The most times that a test may be tried again.
const MOST: u32 = 4_294_967_294;

/// Whether a text is `pass`; else it is `fail`.
pub fn passes_from(alloc: Global, path: &str, value: &Value) -> Result<bool, ProfileError>
    ensures { Agrees result (passes_of path.now (view value.now)) }
{
    match value.as_str() {
        Some("pass") => Ok(true),
        Some("fail") => Ok(false),
        Some(_) => refused(alloc, path, Fault::NotWord),
        None => refused(alloc, path, Fault::NotText),
    }
}

fn grows_from(alloc: Global, path: &str, value: &Value) -> Result<bool, ProfileError>
    ensures { Agrees result (grows_read path.now (view value.now)) }
{
    match value.as_str() {
        Some("fixed") => Ok(false),
        Some("exponential") => Ok(true),
        Some(_) => refused(alloc, path, Fault::NotWord),
        None => refused(alloc, path, Fault::NotText),
    }
}

fn grows_at(alloc: Global, path: &str, table: &Value) -> Result<bool, ProfileError>
    ensures { Agrees result (needed grows_read path.now (codes "backoff") (view table.now)) }
{
    let path = dotted(alloc, path, "backoff")?;
    match table.get("backoff") {
        Some(value) => grows_from(alloc, path.as_str(), value),
        None => refused(alloc, path.as_str(), Fault::MissingKey),
    }
}

fn count_at(alloc: Global, path: &str, least: u32, table: &Value) -> Result<u32, ProfileError>
    ensures { Agrees result (needed (number_read least 4294967294) path.now (codes "count") (view table.now)) }
{
    let path = dotted(alloc, path, "count")?;
    match table.get("count") {
        Some(value) => number_from(alloc, path.as_str(), least, MOST, value),
        None => refused(alloc, path.as_str(), Fault::MissingKey),
    }
}

fn fixed_with(
    alloc: Global,
    path: &str,
    count: u32,
    delay: u64,
    jitter: bool,
) -> Result<RetryPolicy, ProfileError>
    ensures { Agrees result (fixed_with path.now count delay jitter) }
{
    if jitter && delay == 0 {
        return refused_at(alloc, path, "jitter", Fault::WithoutDelay);
    }
    Ok(RetryPolicy::Fixed {
        count,
        delay,
        jitter,
    })
}

#[tactic(auto, unfolding(crate::specs::Said::fixed_read))]
fn fixed_from(alloc: Global, path: &str, table: &Value) -> Result<RetryPolicy, ProfileError>
    ensures { Agrees result (fixed_read path.now (view table.now)) }
{
    only_keys(alloc, path, &["backoff", "count", "delay", "jitter"], table)?;
    let count = count_at(alloc, path, 0, table)?;
    let delay = optional_time(alloc, path, table, "delay")?;
    let jitter = optional_truth(alloc, path, table, "jitter")?;
    fixed_with(
        alloc,
        path,
        count,
        delay.unwrap_or(0),
        jitter.unwrap_or(false),
    )
}

fn is_below(most: Option<u64>, delay: u64) -> bool
    ensures { result ≡ is_below most delay }
{
    match most {
        Some(most) => most < delay,
        None => false,
    }
}

fn exponential_with(
    alloc: Global,
    path: &str,
    count: u32,
    delay: u64,
    jitter: bool,
    max_delay: Option<u64>,
) -> Result<RetryPolicy, ProfileError>
    ensures { Agrees result (exponential_with path.now count delay jitter max_delay) }
{
    if delay == 0 {
        return refused_at(alloc, path, "delay", Fault::OutOfRange);
    }
    if is_below(max_delay, delay) {
        return refused_at(alloc, path, "max-delay", Fault::OutOfRange);
    }
    Ok(RetryPolicy::Exponential {
        count,
        delay,
        jitter,
        max_delay,
    })
}

#[tactic(auto, unfolding(crate::specs::Said::exponential_read))]
fn exponential_from(alloc: Global, path: &str, table: &Value) -> Result<RetryPolicy, ProfileError>
    ensures { Agrees result (exponential_read path.now (view table.now)) }
{
    let names = ["backoff", "count", "delay", "jitter", "max-delay"];
    only_keys(alloc, path, &names, table)?;
    let count = count_at(alloc, path, 1, table)?;
    let delay = needed_time(alloc, path, table, "delay")?;
    let jitter = optional_truth(alloc, path, table, "jitter")?;
    let max_delay = optional_time(alloc, path, table, "max-delay")?;
    exponential_with(
        alloc,
        path,
        count,
        delay,
        jitter.unwrap_or(false),
        max_delay,
    )
}

fn by_backoff(alloc: Global, path: &str, table: &Value) -> Result<RetryPolicy, ProfileError>
    ensures { Agrees result (retries_said None path.now (view table.now)) }
{
    if !table.is_table() {
        return refused(alloc, path, Fault::NotTable);
    }
    if grows_at(alloc, path, table)? {
        exponential_from(alloc, path, table)
    } else {
        fixed_from(alloc, path, table)
    }
}

fn retries_from(alloc: Global, path: &str, value: &Value) -> Result<RetryPolicy, ProfileError>
    ensures { Agrees result (retries_read path.now (view value.now)) }
{
    if value.is_integer() {
        let count = number_from(alloc, path, 0, MOST, value)?;
        return Ok(RetryPolicy::Fixed {
            count,
            delay: 0,
            jitter: false,
        });
    }
    by_backoff(alloc, path, value)
}

/// How often a test is tried again, where the table says that.
pub fn retries_at(
    alloc: Global,
    path: &str,
    table: &Value,
) -> Result<Option<RetryPolicy>, ProfileError>
    ensures { Agrees result (optional_key retries_read path.now (codes "retries") (view table.now)) }
{
    match table.get("retries") {
        Some(value) => {
            let path = dotted(alloc, path, "retries")?;
            Ok(Some(retries_from(alloc, path.as_str(), value)?))
        }
        None => Ok(None),
    }
}

fn flaky_from(alloc: Global, path: &str, value: &Value) -> Result<FlakyResult, ProfileError>
    ensures { Agrees result (flaky_read path.now (view value.now)) }
{
    if passes_from(alloc, path, value)? {
        Ok(FlakyResult::Pass)
    } else {
        Ok(FlakyResult::Fail)
    }
}

/// What a pass after a failed attempt counts as, where the table says that.
pub fn flaky_at(
    alloc: Global,
    path: &str,
    table: &Value,
) -> Result<Option<FlakyResult>, ProfileError>
    ensures { Agrees result (optional_key flaky_read path.now (codes "flaky-result") (view table.now)) }
{
    match table.get("flaky-result") {
        Some(value) => {
            let path = dotted(alloc, path, "flaky-result")?;
            Ok(Some(flaky_from(alloc, path.as_str(), value)?))
        }
        None => Ok(None),
    }
}
