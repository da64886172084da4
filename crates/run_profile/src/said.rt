// What a table says of the settings of tests.
ghost use Rattle.std.specs.Prelude.{◌≡◌, codes};
ghost use Rattle.toml.specs.View.{view};
ghost use Rattle.run_profile.specs.Refusals.{Agrees};
ghost use Rattle.run_profile.specs.Fields.{optional_key, texts_read};
ghost use Rattle.run_profile.specs.Said.{known_group, group_read, is_group, priority_read};
ghost use Rattle.run_profile.specs.Said.{ranks_read, said_of, terms_read};
ghost use Rattle.run_profile.specs.Said.{ties_read};
ghost use Rattle.run_profile.specs.Said.{trials_read, weight_read};

use crate::errors::{Fault, ProfileError, dotted, refused};
use crate::fields::{number_from, texts_of};
use crate::groups::TestGroup;
use crate::retries::{flaky_at, retries_at};
use crate::settings::{Said, Weight};
use crate::timeouts::{leak_at, slow_at};
use run_capture::{List, Text};
use run_events::{FlakyResult, LeakTimeout, RetryPolicy, SlowTimeout};
use std::alloc::Global;
use toml::Value;

#[tactic(auto, unfolding(crate::specs::Said::weight_read))]
fn weight_from(alloc: Global, path: &str, value: &Value) -> Result<Weight, ProfileError>
    ensures { Agrees result (weight_read path.now (view value.now)) }
{
    match value.as_str() {
        Some("num-cpus") => Ok(Weight::Processors),
        Some("num-test-threads") => Ok(Weight::Threads),
        Some(_) => refused(alloc, path, Fault::NotWord),
        None => Ok(Weight::Count(number_from(alloc, path, 1, 4_294_967_295, value)?)),
    }
}

fn weight_at(alloc: Global, path: &str, table: &Value) -> Result<Option<Weight>, ProfileError>
    ensures { Agrees result (optional_key weight_read path.now (codes "threads-required") (view table.now)) }
{
    match table.get("threads-required") {
        Some(value) => {
            let path = dotted(alloc, path, "threads-required")?;
            Ok(Some(weight_from(alloc, path.as_str(), value)?))
        }
        None => Ok(None),
    }
}

fn priority_from(alloc: Global, path: &str, value: &Value) -> Result<i8, ProfileError>
    ensures { Agrees result (priority_read path.now (view value.now)) }
{
    let Some(number) = value.as_integer() else {
        return refused(alloc, path, Fault::NotNumber);
    };
    if -100 <= number && number <= 100 {
        Ok(number as i8)
    } else {
        refused(alloc, path, Fault::OutOfRange)
    }
}

fn priority_at(alloc: Global, path: &str, table: &Value) -> Result<Option<i8>, ProfileError>
    ensures { Agrees result (optional_key priority_read path.now (codes "priority") (view table.now)) }
{
    match table.get("priority") {
        Some(value) => {
            let path = dotted(alloc, path, "priority")?;
            Ok(Some(priority_from(alloc, path.as_str(), value)?))
        }
        None => Ok(None),
    }
}

fn is_group(groups: &[TestGroup], name: &str) -> bool
    ensures { result ≡ is_group groups.now name.now }
{
    groups.iter().any(|group| group.name.as_str() == name)
}

fn group_named(
    alloc: Global,
    groups: &[TestGroup],
    path: &str,
    name: &str,
) -> Result<Option<Text>, ProfileError>
    ensures { Agrees result (known_group groups.now path.now name.now) }
{
    if name == "@global" {
        return Ok(None);
    }
    if is_group(groups, name) {
        return Ok(Some(Text::from_str(alloc, name)?));
    }
    refused(alloc, path, Fault::UnknownName)
}

fn group_from(
    alloc: Global,
    groups: &[TestGroup],
    path: &str,
    value: &Value,
) -> Result<Option<Text>, ProfileError>
    ensures { Agrees result (group_read groups.now path.now (view value.now)) }
{
    match value.as_str() {
        Some(name) => group_named(alloc, groups, path, name),
        None => refused(alloc, path, Fault::NotText),
    }
}

fn group_at(
    alloc: Global,
    groups: &[TestGroup],
    path: &str,
    table: &Value,
) -> Result<Option<Option<Text>>, ProfileError>
    ensures { Agrees result (optional_key (group_read groups.now) path.now (codes "test-group") (view table.now)) }
{
    match table.get("test-group") {
        Some(value) => {
            let path = dotted(alloc, path, "test-group")?;
            Ok(Some(group_from(alloc, groups, path.as_str(), value)?))
        }
        None => Ok(None),
    }
}

fn extra_args_at(
    alloc: Global,
    path: &str,
    table: &Value,
) -> Result<Option<List<Text>>, ProfileError>
    ensures { Agrees result (optional_key texts_read path.now (codes "run-extra-args") (view table.now)) }
{
    match table.get("run-extra-args") {
        Some(value) => {
            let path = dotted(alloc, path, "run-extra-args")?;
            Ok(Some(texts_of(alloc, path.as_str(), value)?))
        }
        None => Ok(None),
    }
}

fn trials_from(
    alloc: Global,
    path: &str,
    table: &Value,
) -> Result<(Option<RetryPolicy>, Option<FlakyResult>), ProfileError>
    ensures { Agrees result (trials_read path.now (view table.now)) }
{
    let retries = retries_at(alloc, path, table)?;
    let flaky = flaky_at(alloc, path, table)?;
    Ok((retries, flaky))
}

/// The time-outs that a table says.
pub fn terms_from(
    alloc: Global,
    path: &str,
    table: &Value,
) -> Result<(Option<SlowTimeout>, Option<LeakTimeout>), ProfileError>
    ensures { Agrees result (terms_read path.now (view table.now)) }
{
    let slow = slow_at(alloc, path, table)?;
    let leak = leak_at(alloc, path, table)?;
    Ok((slow, leak))
}

fn ranks_from(
    alloc: Global,
    path: &str,
    table: &Value,
) -> Result<(Option<Weight>, Option<i8>), ProfileError>
    ensures { Agrees result (ranks_read path.now (view table.now)) }
{
    let weight = weight_at(alloc, path, table)?;
    let priority = priority_at(alloc, path, table)?;
    Ok((weight, priority))
}

fn ties_from(
    alloc: Global,
    groups: &[TestGroup],
    path: &str,
    table: &Value,
) -> Result<(Option<Option<Text>>, Option<List<Text>>), ProfileError>
    ensures { Agrees result (ties_read groups.now path.now (view table.now)) }
{
    let group = group_at(alloc, groups, path, table)?;
    let extra_args = extra_args_at(alloc, path, table)?;
    Ok((group, extra_args))
}

/// All that a table says of the settings of tests, whose groups are these.
#[tactic(auto, unfolding(crate::specs::Said::said_of))]
pub fn said_from(
    alloc: Global,
    groups: &[TestGroup],
    path: &str,
    table: &Value,
) -> Result<Said, ProfileError>
    ensures { Agrees result (said_of groups.now path.now (view table.now)) }
{
    let (retries, flaky) = trials_from(alloc, path, table)?;
    let (slow, leak) = terms_from(alloc, path, table)?;
    let (weight, priority) = ranks_from(alloc, path, table)?;
    let (group, extra_args) = ties_from(alloc, groups, path, table)?;
    Ok(Said {
        retries,
        flaky,
        slow,
        leak,
        weight,
        group,
        priority,
        extra_args,
    })
}
