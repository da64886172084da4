// The keys of a profile that say nothing of a plan.
ghost use Rattle.std.specs.Prelude.{◌≡◌, ◌++◌, codes, map, option_map, Some, IfOk};
ghost use Rattle.toml.specs.Data.{get, get_member};
ghost use Rattle.toml.specs.View.{view, items_view, table_view};
ghost use Rattle.run_profile.specs.Notes.{in_override, in_profile, items_in, noted, notes_from, override_notes};
ghost use Rattle.run_profile.specs.Notes.{profile_notes, table_notes};
ghost use Rattle.run_profile.specs.Refusals.{dotted, item_path};

use crate::errors::{dotted, numbered};
use crate::levels::{profile_in, profile_path, root_at};
use crate::lists::with_some;
use run_capture::{List, Mem, Text};
use std::alloc::Global;
use toml::{Table, Value};

// The path of this key, where the table has it.
fn note_at(alloc: Global, path: &str, name: &str, table: &Value) -> Mem<Option<Text>>
    ensures { IfOk result (λ note. note ≡ option_map (λ _. dotted path.now name.now) (get name.now (view table.now))) }
{
    match table.get(name) {
        Some(_) => Ok(Some(dotted(alloc, path, name)?)),
        None => Ok(None),
    }
}

// Adds the paths of those of these names that a table has.
fn noted(
    alloc: Global,
    path: &str,
    names: &[&str],
    table: &Value,
    notes: List<Text>,
) -> Mem<List<Text>>
    ensures { IfOk result (λ l. l ≡ notes ++ noted (map (λ n. n.now) names.now) path.now (view table.now)) }
{
    let mut notes = notes;
    for name in names {
        let note = note_at(alloc, path, *name, table)?;
        notes = with_some(alloc, notes, note)?;
    }
    Ok(notes)
}

// Adds those of an override.
#[tactic(auto, unfolding(crate::specs::Notes::in_override))]
fn in_override(alloc: Global, path: &str, table: &Value, notes: List<Text>) -> Mem<List<Text>>
    ensures { IfOk result (λ l. l ≡ notes ++ in_override path.now (view table.now)) }
{
    let names = ["bench", "failure-output", "junit", "success-output"];
    noted(alloc, path, &names, table, notes)
}

// Adds those of the override of this number, of the list at a path.
fn numbered_override(
    alloc: Global,
    path: &str,
    number: usize,
    table: &Value,
    notes: List<Text>,
) -> Mem<List<Text>>
    ensures { IfOk result (λ l. l ≡ notes ++ in_override (item_path path.now number) (view table.now)) }
{
    let path = numbered(alloc, path, number)?;
    in_override(alloc, path.as_str(), table, notes)
}

fn override_notes(alloc: Global, path: &str, items: &[Value], notes: List<Text>) -> Mem<List<Text>>
    ensures { IfOk result (λ l. l ≡ notes ++ override_notes path.now 0 (items_view items.now)) }
{
    let mut notes = notes;
    let mut number = 0usize;
    for item in items {
        notes = numbered_override(alloc, path, number, item, notes)?;
        number += 1;
    }
    Ok(notes)
}

// The items of a list that may be missing.
fn items_in(list: Option<&Value>) -> &[Value]
    ensures { items_view result.now ≡ items_in (option_map (λ v. view v.now) list.entry) }
{
    match list {
        Some(value) => match value.as_array() {
            Some(items) => items.as_slice(),
            None => &[],
        },
        None => &[],
    }
}

// Adds those of a profile's own table.
#[tactic(auto, unfolding(crate::specs::Notes::in_profile))]
fn in_profile(alloc: Global, path: &str, table: &Value, notes: List<Text>) -> Mem<List<Text>>
    ensures { IfOk result (λ l. l ≡ notes ++ in_profile path.now (view table.now)) }
{
    let names = [
        "archive",
        "bench",
        "failure-output",
        "final-status-level",
        "junit",
        "status-level",
        "success-output",
    ];
    noted(alloc, path, &names, table, notes)
}

fn table_notes(alloc: Global, path: &str, table: &Value, notes: List<Text>) -> Mem<List<Text>>
    ensures { IfOk result (λ l. l ≡ notes ++ table_notes path.now (Some (view table.now))) }
{
    let notes = in_profile(alloc, path, table, notes)?;
    let path = dotted(alloc, path, "overrides")?;
    override_notes(
        alloc,
        path.as_str(),
        items_in(table.get("overrides")),
        notes,
    )
}

fn profile_notes(
    alloc: Global,
    profiles: Option<&Value>,
    name: &str,
    notes: List<Text>,
) -> Mem<List<Text>>
    ensures { IfOk result (λ l. l ≡ notes ++ profile_notes (option_map (λ v. view v.now) profiles.entry) name.now) }
{
    match profile_in(profiles, name) {
        Some(table) => {
            let path = profile_path(alloc, name)?;
            table_notes(alloc, path.as_str(), table, notes)
        }
        None => Ok(notes),
    }
}

/// The paths of those keys that a file says of these profiles, and that say nothing of a plan: what only shows, reports
/// or keeps results, or is of benchmarks. In the order of the profiles; in each, its own before those of its overrides.
pub fn notes_of(alloc: Global, table: &Table, names: &[Text]) -> Mem<List<Text>>
    ensures { IfOk result (λ l. l ≡ notes_from (get_member (codes "profile") (table_view table.now)) names.now) }
{
    let profiles = root_at(table, "profile");
    let mut notes = List::new();
    for name in names {
        notes = profile_notes(alloc, profiles, name.as_str(), notes)?;
    }
    Ok(notes)
}
