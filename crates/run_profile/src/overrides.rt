// The overrides of a profile.
ghost use Rattle.std.specs.Prelude.{◌≡◌, codes};
ghost use Rattle.toml.specs.View.{view, items_view};
ghost use Rattle.run_profile.specs.Refusals.{Agrees, item_path};
ghost use Rattle.run_profile.specs.Fields.{only_keys, optional_key};
ghost use Rattle.run_profile.specs.Levels.{override_keys, override_of, overrides_from};
ghost use Rattle.run_profile.specs.Scope.{conditions, holds_of};
ghost use Rattle.run_profile.specs.Levels.{overrides_of};
ghost use Rattle.run_profile.specs.Levels.{scope_of};
ghost use Rattle.run_profile.specs.Fields.{or_nothing};
ghost use Rattle.run_profile.specs.Scope.{platform_said, platform_text, platformed};
ghost use Rattle.run_profile.specs.Platform.{platform_names};
ghost use Rattle.run_profile.specs.declared.cfg.TheConstants.{ROOM};
ghost use Rattle.std.specs.Prelude.{None, Some, if◌then◌else◌};

use crate::both::both;
use crate::cfg::{Cfg, platform_holds};
use crate::errors::{Fault, ProfileError, dotted, numbered, refused, refused_at};
use crate::fields::{only_keys, optional_text};
use crate::groups::TestGroup;
use crate::lists::with_some;
use crate::said::said_from;
use crate::settings::{Override, Said};
use run_capture::{List, Text};
use std::alloc::Global;
use toml::Value;

// Whether the text at a path names the platform.
fn named(alloc: Global, cfg: &Cfg, path: &str, text: &str) -> Result<bool, ProfileError>
    ensures { Agrees result (platformed path.now (platform_names ROOM cfg.now text.now)) }
{
    match platform_holds(cfg, text) {
        Ok(holds) => Ok(holds),
        Err(fault) => refused(alloc, path, Fault::Platform(fault)),
    }
}

fn platform_text(alloc: Global, cfg: &Cfg, path: &str, value: &Value) -> Result<bool, ProfileError>
    ensures { Agrees result (platform_text cfg.now path.now (view value.now)) }
{
    match value.as_str() {
        Some(text) => named(alloc, cfg, path, text),
        None => refused(alloc, path, Fault::NotText),
    }
}

fn optional_platform(
    alloc: Global,
    cfg: &Cfg,
    path: &str,
    table: &Value,
    key: &str,
) -> Result<Option<bool>, ProfileError>
    ensures { Agrees result (optional_key (platform_text cfg.now) path.now key.now (view table.now)) }
{
    match table.get(key) {
        Some(value) => {
            let path = dotted(alloc, path, key)?;
            Ok(Some(platform_text(alloc, cfg, path.as_str(), value)?))
        }
        None => Ok(None),
    }
}

// A platform for the host, and one for the target: both are this one.
fn both_hold(alloc: Global, cfg: &Cfg, path: &str, table: &Value) -> Result<bool, ProfileError>
    ensures { Agrees result (platform_said cfg.now None path.now (view table.now)) }
{
    only_keys(alloc, path, &["host", "target"], table)?;
    let host = optional_platform(alloc, cfg, path, table, "host")?;
    let target = optional_platform(alloc, cfg, path, table, "target")?;
    Ok(host.unwrap_or(true) && target.unwrap_or(true))
}

fn holds_from(alloc: Global, cfg: &Cfg, path: &str, value: &Value) -> Result<bool, ProfileError>
    ensures { Agrees result (holds_of cfg.now path.now (view value.now)) }
{
    match value.as_str() {
        Some(text) => named(alloc, cfg, path, text),
        None => both_hold(alloc, cfg, path, value),
    }
}

/// Whether the platform that a table says is this one, where it says one.
pub fn holds_at(
    alloc: Global,
    cfg: &Cfg,
    path: &str,
    table: &Value,
) -> Result<Option<bool>, ProfileError>
    ensures { Agrees result (optional_key (holds_of cfg.now) path.now (codes "platform") (view table.now)) }
{
    match table.get("platform") {
        Some(value) => {
            let path = dotted(alloc, path, "platform")?;
            Ok(Some(holds_from(alloc, cfg, path.as_str(), value)?))
        }
        None => Ok(None),
    }
}

/// Refuses what has neither a filter nor a platform, or a default filter beside a filter.
pub fn conditions(
    alloc: Global,
    path: &str,
    holds: Option<bool>,
    filter: &Option<Text>,
    default_filter: &Option<Text>,
) -> Result<(), ProfileError>
    ensures { Agrees result (conditions path.now holds filter.now default_filter.now) }
{
    if holds.is_none() && filter.is_none() {
        return refused(alloc, path, Fault::NoCondition);
    }
    if default_filter.is_some() && filter.is_some() {
        return refused_at(alloc, path, "default-filter", Fault::WithFilter);
    }
    Ok(())
}

// Whether the platform of an override is this one, its filter, and its default filter.
fn scope_from(
    alloc: Global,
    cfg: &Cfg,
    path: &str,
    table: &Value,
) -> Result<(bool, Option<Text>, Option<Text>), ProfileError>
    ensures { Agrees result (scope_of cfg.now path.now (view table.now)) }
{
    let holds = holds_at(alloc, cfg, path, table)?;
    let filter = optional_text(alloc, path, table, "filter")?;
    let default_filter = optional_text(alloc, path, table, "default-filter")?;
    conditions(alloc, path, holds, &filter, &default_filter)?;
    Ok((holds.unwrap_or(true), filter, default_filter))
}

fn only_override_keys(alloc: Global, path: &str, table: &Value) -> Result<(), ProfileError>
    ensures { Agrees result (only_keys override_keys path.now (view table.now)) }
{
    let names = [
        "bench",
        "default-filter",
        "failure-output",
        "filter",
        "flaky-result",
        "junit",
        "leak-timeout",
        "platform",
        "priority",
        "retries",
        "run-extra-args",
        "slow-timeout",
        "success-output",
        "test-group",
        "threads-required",
    ];
    only_keys(alloc, path, &names, table)
}

// An override of this scope, where its platform is this one.
fn scoped(
    profile: Text,
    number: usize,
    scope: (bool, Option<Text>, Option<Text>),
    said: Said,
) -> Option<Override>
    ensures { result ≡ if scope.0 then Some (record {
      profile = profile;
      number = number;
      filter = scope.1;
      default_filter = scope.2;
      said = said;
    }) else None }
{
    let (holds, filter, default_filter) = scope;
    if holds {
        Some(Override {
            profile,
            number,
            filter,
            default_filter,
            said,
        })
    } else {
        None
    }
}

// The override of this number in a profile of this name, where its platform is this one.
#[tactic(auto, unfolding(crate::specs::Levels::override_of))]
fn override_from(
    alloc: Global,
    cfg: &Cfg,
    groups: &[TestGroup],
    profile: &str,
    number: usize,
    path: &str,
    table: &Value,
) -> Result<Option<Override>, ProfileError>
    ensures { Agrees result (override_of cfg.now groups.now profile.now number path.now (view table.now)) }
{
    only_override_keys(alloc, path, table)?;
    let profile = Text::from_str(alloc, profile)?;
    let (profile, scope) = both(profile, scope_from(alloc, cfg, path, table))?;
    let ((profile, scope), said) = both((profile, scope), said_from(alloc, groups, path, table))?;
    Ok(scoped(profile, number, scope, said))
}

// The override of this number, at its place in the list at a path.
fn override_at(
    alloc: Global,
    cfg: &Cfg,
    groups: &[TestGroup],
    profile: &str,
    path: &str,
    number: usize,
    table: &Value,
) -> Result<Option<Override>, ProfileError>
    ensures { Agrees result
        (override_of cfg.now groups.now profile.now number (item_path path.now number) (view table.now)) }
{
    let path = numbered(alloc, path, number)?;
    override_from(alloc, cfg, groups, profile, number, path.as_str(), table)
}

fn overrides_in(
    alloc: Global,
    cfg: &Cfg,
    groups: &[TestGroup],
    profile: &str,
    path: &str,
    items: &[Value],
) -> Result<List<Override>, ProfileError>
    ensures { Agrees result (overrides_from cfg.now groups.now profile.now path.now 0 (items_view items.now)) }
{
    let mut overrides = List::new();
    let mut number = 0usize;
    for item in items {
        let first = override_at(alloc, cfg, groups, profile, path, number, item)?;
        overrides = with_some(alloc, overrides, first)?;
        number += 1;
    }
    Ok(overrides)
}

fn overrides_from(
    alloc: Global,
    cfg: &Cfg,
    groups: &[TestGroup],
    profile: &str,
    path: &str,
    value: &Value,
) -> Result<List<Override>, ProfileError>
    ensures { Agrees result (overrides_of cfg.now groups.now profile.now path.now (view value.now)) }
{
    match value.as_array() {
        Some(items) => overrides_in(alloc, cfg, groups, profile, path, items.as_slice()),
        None => refused(alloc, path, Fault::NotList),
    }
}

/// The overrides of a profile of this name that are for this platform, in their order; none where it has none.
pub fn overrides_at(
    alloc: Global,
    cfg: &Cfg,
    groups: &[TestGroup],
    profile: &str,
    path: &str,
    table: &Value,
) -> Result<List<Override>, ProfileError>
    ensures { Agrees result
        (or_nothing (overrides_of cfg.now groups.now profile.now) path.now (codes "overrides") (view table.now)) }
{
    match table.get("overrides") {
        Some(value) => {
            let path = dotted(alloc, path, "overrides")?;
            overrides_from(alloc, cfg, groups, profile, path.as_str(), value)
        }
        None => Ok(List::new()),
    }
}
