// What each filter says of all tests: a column for each filter.
ghost use Rattle.std.specs.Prelude.{◌≡◌, IfOk, map};
ghost use Rattle.std.specs.List.{list_any};
ghost use Rattle.run_plan.specs.Asks.{is_any_held};
ghost use Rattle.run_plan.specs.Columns.{AreSeen, asked_at, cell, given_group, row_of};
ghost use Rattle.run_plan.specs.Rows.{listed_row};

use crate::asked::Asked;
use crate::filters::facts_of;
use crate::rows::ListRow;
use run_capture::{List, Mem, Text};
use run_filter::Facts;
use std::alloc::{AllocError, Global};

/// What the filters of a profile say of each test of a list.
#[derive(Drop)]
pub(crate) struct ProfileSays {
    /// The default filter.
    pub in_default: List<bool>,
    /// Each override's.
    pub overrides: List<List<bool>>,
    /// Each rule's.
    pub rules: List<List<bool>>,
}

fn cell(column: &[bool], place: usize) -> bool
    ensures { result ≡ cell place column.now }
{
    match column.get(place) {
        Some(held) => *held,
        None => false,
    }
}

fn given_group(groups: &[Text], place: usize) -> &str
    ensures { result.now ≡ given_group groups.now place }
{
    match groups.get(place) {
        Some(group) => group.as_str(),
        None => "@global",
    }
}

fn cells_at(alloc: Global, columns: &[List<bool>], place: usize) -> Result<Vec<bool>, AllocError>
    ensures { IfOk result (λ row. row.items ≡ row_of columns.now place) }
{
    columns
        .iter()
        .map(|column| cell(column.as_slice(), place))
        .collect(alloc)
}

/// What each of some filters says of the test at a place.
pub(crate) fn row_at(alloc: Global, columns: &[List<bool>], place: usize) -> Mem<List<bool>>
    ensures { IfOk result (λ row. row ≡ row_of columns.now place) }
{
    Ok(List::from_vec(cells_at(alloc, columns, place)?))
}

/// The tests of a list as filters see them, in these groups, and where the default filter says so much of each. Where
/// none is given, a test stands in no group, and the default filter doesn't hold.
pub(crate) fn facts_by<'a>(
    alloc: Global,
    rows: &'a [ListRow<'_>],
    groups: &'a [Text],
    in_default: &[bool],
) -> Mem<Vec<Facts<'a>>>
    ensures { IfOk result (λ tests. AreSeen (map listed_row rows.now) groups.now in_default.now tests.items) }
{
    let mut tests = Vec::with_capacity(alloc, rows.len())?;
    for place in 0..rows.len() {
        let row = &rows[place];
        let group = given_group(groups, place);
        tests.push(facts_of(row.binary, row.test, group, cell(in_default, place)))?;
    }
    Ok(tests)
}

fn any_held(held: &[bool]) -> bool
    ensures { result ≡ list_any (λ b. b) held.now }
{
    held.iter().any(|held| *held)
}

fn is_any_held(filters: &[Text], held: &[bool]) -> bool
    ensures { result ≡ is_any_held filters.now held.now }
{
    filters.len() == 0 || any_held(held)
}

// Whether a filter of the words holds of the test at a place, or they give none.
fn is_picked(alloc: Global, filters: &[Text], words: &[List<bool>], place: usize) -> Mem<bool>
    ensures { IfOk result (λ picked. picked ≡ is_any_held filters.now (row_of words.now place)) }
{
    let held = row_at(alloc, words, place)?;
    Ok(is_any_held(filters, held.as_slice()))
}

/// What is said of the test at a place.
pub(crate) fn asked_at(
    alloc: Global,
    filters: &[Text],
    says: &ProfileSays,
    words: &[List<bool>],
    place: usize,
) -> Mem<Asked>
    ensures { IfOk result (λ asked. asked ≡ asked_at filters.now says.now words.now place) }
{
    let is_picked = is_picked(alloc, filters, words, place)?;
    let overrides = row_at(alloc, says.overrides.as_slice(), place)?;
    let rules = row_at(alloc, says.rules.as_slice(), place)?;
    Ok(Asked {
        overrides,
        rules,
        is_picked,
        in_default: cell(says.in_default.as_slice(), place),
    })
}
