// The groups of tests that a table names.
ghost use Rattle.std.specs.Prelude.{codes};
ghost use Rattle.toml.specs.View.{view, members_view};
ghost use Rattle.run_profile.specs.Refusals.{Agrees, dotted};
ghost use Rattle.run_profile.specs.Fields.{needed};
ghost use Rattle.run_profile.specs.Levels.{group_entry, group_entries, groups_read, threads_read};

use crate::errors::{Fault, ProfileError, dotted, refused};
use crate::fields::only_keys;
use crate::groups::{TestGroup, Threads};
use crate::run_keys::threads_from;
use run_capture::{List, Text};
use std::alloc::Global;
use toml::{Table, Value};

fn group_from(
    alloc: Global,
    path: &str,
    name: &str,
    table: &Value,
) -> Result<TestGroup, ProfileError>
    ensures { Agrees result (group_entry path.now name.now (view table.now)) }
{
    only_keys(alloc, path, &["max-threads"], table)?;
    let limit = limit_at(alloc, path, table)?;
    let name = Text::from_str(alloc, name)?;
    Ok(TestGroup { name, limit })
}

fn limit_at(alloc: Global, path: &str, table: &Value) -> Result<Threads, ProfileError>
    ensures { Agrees result (needed threads_read path.now (codes "max-threads") (view table.now)) }
{
    let path = dotted(alloc, path, "max-threads")?;
    match table.get("max-threads") {
        Some(value) => threads_from(alloc, path.as_str(), value),
        None => refused(alloc, path.as_str(), Fault::MissingKey),
    }
}

// The group of this name, of the groups at a path.
fn group_at(alloc: Global, path: &str, name: &str, table: &Value) -> Result<TestGroup, ProfileError>
    ensures { Agrees result (group_entry (dotted path.now name.now) name.now (view table.now)) }
{
    let path = dotted(alloc, path, name)?;
    group_from(alloc, path.as_str(), name, table)
}

#[tactic(auto, using(crate::proofs::LevelsLemmas::before_push))]
fn groups_in(alloc: Global, path: &str, members: &Table) -> Result<List<TestGroup>, ProfileError>
    ensures { Agrees result (group_entries path.now (members_view members.now.entries)) }
{
    let mut groups = List::new();
    for (name, value) in members.iter() {
        let group = group_at(alloc, path, name.as_str(), value)?;
        groups.push(alloc, group)?;
    }
    Ok(groups)
}

/// The groups of tests that a table names, in the order of their names.
pub fn groups_from(
    alloc: Global,
    path: &str,
    value: &Value,
) -> Result<List<TestGroup>, ProfileError>
    ensures { Agrees result (groups_read path.now (view value.now)) }
{
    match value.as_table() {
        Some(members) => groups_in(alloc, path, members),
        None => refused(alloc, path, Fault::NotTable),
    }
}
