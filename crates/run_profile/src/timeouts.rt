// The time-outs of a test, as a table says.
ghost use Rattle.std.specs.Prelude.{◌≡◌, codes};
ghost use Rattle.toml.specs.View.{view};
ghost use Rattle.run_profile.specs.Refusals.{Agrees};
ghost use Rattle.run_profile.specs.Fields.{number_read, optional_key};
ghost use Rattle.run_profile.specs.Said.{leak_read, leak_result, leak_table, passes_of};
ghost use Rattle.run_profile.specs.Said.{slow_read, slow_result, slow_table};

use crate::errors::{ProfileError, dotted};
use crate::fields::{needed_time, number_from, only_keys, optional_time, time_from};
use crate::retries::passes_from;
use run_events::{LeakTimeout, LeakTimeoutResult, SlowTimeout, SlowTimeoutResult};
use std::alloc::Global;
use toml::Value;

fn optional_count(alloc: Global, path: &str, table: &Value) -> Result<Option<u32>, ProfileError>
    ensures { Agrees result
        (optional_key (number_read 1 4294967295) path.now (codes "terminate-after") (view table.now)) }
{
    match table.get("terminate-after") {
        Some(value) => {
            let path = dotted(alloc, path, "terminate-after")?;
            Ok(Some(number_from(alloc, path.as_str(), 1, 4_294_967_295, value)?))
        }
        None => Ok(None),
    }
}

fn optional_passes(
    alloc: Global,
    path: &str,
    table: &Value,
    key: &str,
) -> Result<Option<bool>, ProfileError>
    ensures { Agrees result (optional_key passes_of path.now key.now (view table.now)) }
{
    match table.get(key) {
        Some(value) => {
            let path = dotted(alloc, path, key)?;
            Ok(Some(passes_from(alloc, path.as_str(), value)?))
        }
        None => Ok(None),
    }
}

fn slow_result(passes: Option<bool>) -> SlowTimeoutResult
    ensures { result ≡ slow_result passes }
{
    match passes {
        Some(true) => SlowTimeoutResult::Pass,
        _ => SlowTimeoutResult::Fail,
    }
}

#[tactic(auto, unfolding(crate::specs::Said::slow_table))]
fn slow_table(alloc: Global, path: &str, table: &Value) -> Result<SlowTimeout, ProfileError>
    ensures { Agrees result (slow_table path.now (view table.now)) }
{
    let names = ["grace-period", "on-timeout", "period", "terminate-after"];
    only_keys(alloc, path, &names, table)?;
    let period = needed_time(alloc, path, table, "period")?;
    let terminate_after = optional_count(alloc, path, table)?;
    let grace = optional_time(alloc, path, table, "grace-period")?;
    let passes = optional_passes(alloc, path, table, "on-timeout")?;
    Ok(SlowTimeout {
        period,
        terminate_after,
        grace: grace.unwrap_or(10_000_000_000),
        on_timeout: slow_result(passes),
    })
}

/// When something is slow, and what comes of that: a time alone, or a table.
pub fn slow_from(alloc: Global, path: &str, value: &Value) -> Result<SlowTimeout, ProfileError>
    ensures { Agrees result (slow_read path.now (view value.now)) }
{
    if !value.is_str() {
        return slow_table(alloc, path, value);
    }
    let mut slow = SlowTimeout::usual();
    slow.period = time_from(alloc, path, value)?;
    Ok(slow)
}

/// When something is slow, where the table says that.
pub fn slow_at(
    alloc: Global,
    path: &str,
    table: &Value,
) -> Result<Option<SlowTimeout>, ProfileError>
    ensures { Agrees result (optional_key slow_read path.now (codes "slow-timeout") (view table.now)) }
{
    match table.get("slow-timeout") {
        Some(value) => {
            let path = dotted(alloc, path, "slow-timeout")?;
            Ok(Some(slow_from(alloc, path.as_str(), value)?))
        }
        None => Ok(None),
    }
}

fn leak_result(passes: Option<bool>) -> LeakTimeoutResult
    ensures { result ≡ leak_result passes }
{
    match passes {
        Some(false) => LeakTimeoutResult::Fail,
        _ => LeakTimeoutResult::Pass,
    }
}

#[tactic(auto, unfolding(crate::specs::Said::leak_table))]
fn leak_table(alloc: Global, path: &str, table: &Value) -> Result<LeakTimeout, ProfileError>
    ensures { Agrees result (leak_table path.now (view table.now)) }
{
    only_keys(alloc, path, &["period", "result"], table)?;
    let period = needed_time(alloc, path, table, "period")?;
    let passes = optional_passes(alloc, path, table, "result")?;
    Ok(LeakTimeout {
        period,
        result: leak_result(passes),
    })
}

/// How long open descriptors are waited for: a time alone, or a table.
pub fn leak_from(alloc: Global, path: &str, value: &Value) -> Result<LeakTimeout, ProfileError>
    ensures { Agrees result (leak_read path.now (view value.now)) }
{
    if !value.is_str() {
        return leak_table(alloc, path, value);
    }
    let mut leak = LeakTimeout::usual();
    leak.period = time_from(alloc, path, value)?;
    Ok(leak)
}

/// How long open descriptors are waited for, where the table says that.
pub fn leak_at(
    alloc: Global,
    path: &str,
    table: &Value,
) -> Result<Option<LeakTimeout>, ProfileError>
    ensures { Agrees result (optional_key leak_read path.now (codes "leak-timeout") (view table.now)) }
{
    match table.get("leak-timeout") {
        Some(value) => {
            let path = dotted(alloc, path, "leak-timeout")?;
            Ok(Some(leak_from(alloc, path.as_str(), value)?))
        }
        None => Ok(None),
    }
}
