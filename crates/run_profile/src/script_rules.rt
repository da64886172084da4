// The rules of a profile that say which tests its setup scripts run before.
ghost use Rattle.std.specs.Prelude.{◌≡◌, codes, None, Some, if◌then◌else◌};
ghost use Rattle.toml.specs.View.{view, items_view};
ghost use Rattle.run_profile.specs.Refusals.{Agrees, item_path};
ghost use Rattle.run_profile.specs.Fields.{needed, or_nothing};
ghost use Rattle.run_profile.specs.Scripts.{is_known_script, known_script, one_script, rule_entries, rule_of};
ghost use Rattle.run_profile.specs.Scripts.{rule_scope, rules_read, script_name_read, scripts_named, setup_read};

use crate::both::both;
use crate::cfg::Cfg;
use crate::errors::{Fault, ProfileError, dotted, numbered, refused};
use crate::fields::{only_keys, optional_text};
use crate::lists::with_some;
use crate::overrides::{conditions, holds_at};
use crate::scripts::{ScriptRule, SetupScript};
use run_capture::{List, Text};
use std::alloc::Global;
use toml::Value;

fn is_script(scripts: &[SetupScript], name: &str) -> bool
    ensures { result ≡ is_known_script scripts.now name.now }
{
    scripts.iter().any(|script| script.name.as_str() == name)
}

// The name of a script that there is.
fn known_script(
    alloc: Global,
    scripts: &[SetupScript],
    path: &str,
    name: &str,
) -> Result<Text, ProfileError>
    ensures { Agrees result (known_script scripts.now path.now name.now) }
{
    if is_script(scripts, name) {
        return Ok(Text::from_str(alloc, name)?);
    }
    refused(alloc, path, Fault::UnknownName)
}

// The name of this number in the list at a path.
fn script_named(
    alloc: Global,
    scripts: &[SetupScript],
    path: &str,
    number: usize,
    value: &Value,
) -> Result<Text, ProfileError>
    ensures { Agrees result (script_name_read scripts.now (item_path path.now number) (view value.now)) }
{
    let path = numbered(alloc, path, number)?;
    match value.as_str() {
        Some(name) => known_script(alloc, scripts, path.as_str(), name),
        None => refused(alloc, path.as_str(), Fault::NotText),
    }
}

fn scripts_named(
    alloc: Global,
    scripts: &[SetupScript],
    path: &str,
    items: &[Value],
) -> Result<List<Text>, ProfileError>
    ensures { Agrees result (scripts_named scripts.now path.now 0 (items_view items.now)) }
{
    let mut names = List::new();
    let mut number = 0usize;
    for item in items {
        let name = script_named(alloc, scripts, path, number, item)?;
        names.push(alloc, name)?;
        number += 1;
    }
    Ok(names)
}

// One name, as a list.
fn one_script(
    alloc: Global,
    scripts: &[SetupScript],
    path: &str,
    name: &str,
) -> Result<List<Text>, ProfileError>
    ensures { Agrees result (one_script scripts.now path.now name.now) }
{
    let name = known_script(alloc, scripts, path, name)?;
    let mut names = List::new();
    names.push(alloc, name)?;
    Ok(names)
}

// The scripts of a rule: a name, or a list of names.
fn setup_from(
    alloc: Global,
    scripts: &[SetupScript],
    path: &str,
    value: &Value,
) -> Result<List<Text>, ProfileError>
    ensures { Agrees result (setup_read scripts.now path.now (view value.now)) }
{
    if let Some(name) = value.as_str() {
        return one_script(alloc, scripts, path, name);
    }
    match value.as_array() {
        Some(items) => scripts_named(alloc, scripts, path, items.as_slice()),
        None => refused(alloc, path, Fault::NotList),
    }
}

fn setup_at(
    alloc: Global,
    scripts: &[SetupScript],
    path: &str,
    table: &Value,
) -> Result<List<Text>, ProfileError>
    ensures { Agrees result (needed (setup_read scripts.now) path.now (codes "setup") (view table.now)) }
{
    let path = dotted(alloc, path, "setup")?;
    match table.get("setup") {
        Some(value) => setup_from(alloc, scripts, path.as_str(), value),
        None => refused(alloc, path.as_str(), Fault::MissingKey),
    }
}

// Whether the platform of a rule is this one, and its filter.
fn rule_scope(
    alloc: Global,
    cfg: &Cfg,
    path: &str,
    table: &Value,
) -> Result<(bool, Option<Text>), ProfileError>
    ensures { Agrees result (rule_scope cfg.now path.now (view table.now)) }
{
    let holds = holds_at(alloc, cfg, path, table)?;
    let filter = optional_text(alloc, path, table, "filter")?;
    conditions(alloc, path, holds, &filter, &None)?;
    Ok((holds.unwrap_or(true), filter))
}

// A rule of this scope, where its platform is this one.
fn scoped(
    profile: Text,
    number: usize,
    scope: (bool, Option<Text>),
    scripts: List<Text>,
) -> Option<ScriptRule>
    ensures { result ≡ if scope.0 then Some (record {
      profile = profile;
      number = number;
      filter = scope.1;
      scripts = scripts;
    }) else None }
{
    let (holds, filter) = scope;
    if holds {
        Some(ScriptRule {
            profile,
            number,
            filter,
            scripts,
        })
    } else {
        None
    }
}

// The rule of this number in a profile of this name, where its platform is this one.
#[tactic(auto, unfolding(crate::specs::Scripts::rule_of))]
fn rule_from(
    alloc: Global,
    cfg: &Cfg,
    scripts: &[SetupScript],
    profile: &str,
    number: usize,
    path: &str,
    table: &Value,
) -> Result<Option<ScriptRule>, ProfileError>
    ensures { Agrees result (rule_of cfg.now scripts.now profile.now number path.now (view table.now)) }
{
    only_keys(alloc, path, &["filter", "platform", "setup"], table)?;
    let profile = Text::from_str(alloc, profile)?;
    let (profile, scope) = both(profile, rule_scope(alloc, cfg, path, table))?;
    let ((profile, scope), names) = both((profile, scope), setup_at(alloc, scripts, path, table))?;
    Ok(scoped(profile, number, scope, names))
}

// The rule of this number, at its place in the list at a path.
fn rule_at(
    alloc: Global,
    cfg: &Cfg,
    scripts: &[SetupScript],
    profile: &str,
    path: &str,
    number: usize,
    table: &Value,
) -> Result<Option<ScriptRule>, ProfileError>
    ensures { Agrees result
        (rule_of cfg.now scripts.now profile.now number (item_path path.now number) (view table.now)) }
{
    let path = numbered(alloc, path, number)?;
    rule_from(alloc, cfg, scripts, profile, number, path.as_str(), table)
}

fn rules_in(
    alloc: Global,
    cfg: &Cfg,
    scripts: &[SetupScript],
    profile: &str,
    path: &str,
    items: &[Value],
) -> Result<List<ScriptRule>, ProfileError>
    ensures { Agrees result (rule_entries cfg.now scripts.now profile.now path.now 0 (items_view items.now)) }
{
    let mut rules = List::new();
    let mut number = 0usize;
    for item in items {
        let first = rule_at(alloc, cfg, scripts, profile, path, number, item)?;
        rules = with_some(alloc, rules, first)?;
        number += 1;
    }
    Ok(rules)
}

fn rules_from(
    alloc: Global,
    cfg: &Cfg,
    scripts: &[SetupScript],
    profile: &str,
    path: &str,
    value: &Value,
) -> Result<List<ScriptRule>, ProfileError>
    ensures { Agrees result (rules_read cfg.now scripts.now profile.now path.now (view value.now)) }
{
    match value.as_array() {
        Some(items) => rules_in(alloc, cfg, scripts, profile, path, items.as_slice()),
        None => refused(alloc, path, Fault::NotList),
    }
}

/// The rules of a profile of this name that are for this platform, in their order; none where it has none.
pub fn rules_at(
    alloc: Global,
    cfg: &Cfg,
    scripts: &[SetupScript],
    profile: &str,
    path: &str,
    table: &Value,
) -> Result<List<ScriptRule>, ProfileError>
    ensures { Agrees result
        (or_nothing (rules_read cfg.now scripts.now profile.now) path.now (codes "scripts") (view table.now)) }
{
    match table.get("scripts") {
        Some(value) => {
            let path = dotted(alloc, path, "scripts")?;
            rules_from(alloc, cfg, scripts, profile, path.as_str(), value)
        }
        None => Ok(List::new()),
    }
}
