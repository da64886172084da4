// The values of a table, each read or refused with its path. A reader is given the path of its value; where its name
// says so, that of the table and a key.
ghost use Rattle.std.specs.Prelude.{◌≡◌, map};
ghost use Rattle.toml.specs.View.{view, items_view, members_view};
ghost use Rattle.run_profile.specs.Refusals.{Agrees, item_path};
ghost use Rattle.run_profile.specs.Fields.{number_read, only_keys, only_names, optional_key};
ghost use Rattle.run_profile.specs.Fields.{needed, text_read, item_texts};
ghost use Rattle.run_profile.specs.Fields.{texts_read};
ghost use Rattle.run_profile.specs.Fields.{time_read, truth_read, whole, within};

use crate::errors::{Fault, ProfileError, dotted, numbered, refused, refused_at};
use crate::time::{is_one_of, read_time};
use run_capture::{List, Text};
use std::alloc::Global;
use toml::{Table, Value};

/// Refuses the first key that is none of these names.
pub fn only_names(
    alloc: Global,
    path: &str,
    names: &[&str],
    members: &Table,
) -> Result<(), ProfileError>
    ensures { Agrees result (only_names path.now (map (λ n. n.now) names.now) (members_view members.now.entries)) }
{
    for (key, _) in members.iter() {
        if !is_one_of(key.as_bytes(), names) {
            return refused_at(alloc, path, key.as_str(), Fault::UnknownKey);
        }
    }
    Ok(())
}

/// Refuses what is no table, and the first key that is none of these names.
pub fn only_keys(
    alloc: Global,
    path: &str,
    names: &[&str],
    value: &Value,
) -> Result<(), ProfileError>
    ensures { Agrees result (only_keys (map (λ n. n.now) names.now) path.now (view value.now)) }
{
    match value.as_table() {
        Some(members) => only_names(alloc, path, names, members),
        None => refused(alloc, path, Fault::NotTable),
    }
}

/// A text, copied.
pub fn text_from(alloc: Global, path: &str, value: &Value) -> Result<Text, ProfileError>
    ensures { Agrees result (text_read path.now (view value.now)) }
{
    match value.as_str() {
        Some(text) => Ok(Text::from_str(alloc, text)?),
        None => refused(alloc, path, Fault::NotText),
    }
}

/// A text that may be missing, copied.
pub fn optional_text(
    alloc: Global,
    path: &str,
    table: &Value,
    key: &str,
) -> Result<Option<Text>, ProfileError>
    ensures { Agrees result (optional_key text_read path.now key.now (view table.now)) }
{
    match table.get(key) {
        Some(value) => {
            let path = dotted(alloc, path, key)?;
            Ok(Some(text_from(alloc, path.as_str(), value)?))
        }
        None => Ok(None),
    }
}

fn truth_from(alloc: Global, path: &str, value: &Value) -> Result<bool, ProfileError>
    ensures { Agrees result (truth_read path.now (view value.now)) }
{
    match value.as_bool() {
        Some(truth) => Ok(truth),
        None => refused(alloc, path, Fault::NotTruth),
    }
}

/// A truth value that may be missing.
pub fn optional_truth(
    alloc: Global,
    path: &str,
    table: &Value,
    key: &str,
) -> Result<Option<bool>, ProfileError>
    ensures { Agrees result (optional_key truth_read path.now key.now (view table.now)) }
{
    match table.get(key) {
        Some(value) => {
            let path = dotted(alloc, path, key)?;
            Ok(Some(truth_from(alloc, path.as_str(), value)?))
        }
        None => Ok(None),
    }
}

fn whole(number: i64) -> Option<u64>
    ensures { result ≡ whole number }
{
    if number < 0 {
        None
    } else {
        Some(number as u64)
    }
}

fn within(least: u32, most: u32, number: i64) -> Option<u32>
    ensures { result ≡ within least most number }
{
    match whole(number) {
        Some(number) if u64::from(least) <= number && number <= u64::from(most) => Some(
            number as u32,
        ),
        _ => None,
    }
}

/// A whole number from the least to the most that may stand here.
pub fn number_from(
    alloc: Global,
    path: &str,
    least: u32,
    most: u32,
    value: &Value,
) -> Result<u32, ProfileError>
    ensures { Agrees result (number_read least most path.now (view value.now)) }
{
    let Some(number) = value.as_integer() else {
        return refused(alloc, path, Fault::NotNumber);
    };
    match within(least, most, number) {
        Some(number) => Ok(number),
        None => refused(alloc, path, Fault::OutOfRange),
    }
}

/// A time in nanoseconds.
pub fn time_from(alloc: Global, path: &str, value: &Value) -> Result<u64, ProfileError>
    ensures { Agrees result (time_read path.now (view value.now)) }
{
    let Some(text) = value.as_str() else {
        return refused(alloc, path, Fault::NotText);
    };
    match read_time(text) {
        Ok(time) => Ok(time),
        Err(fault) => refused(alloc, path, Fault::Time(fault)),
    }
}

/// A time that may be missing.
pub fn optional_time(
    alloc: Global,
    path: &str,
    table: &Value,
    key: &str,
) -> Result<Option<u64>, ProfileError>
    ensures { Agrees result (optional_key time_read path.now key.now (view table.now)) }
{
    match table.get(key) {
        Some(value) => {
            let path = dotted(alloc, path, key)?;
            Ok(Some(time_from(alloc, path.as_str(), value)?))
        }
        None => Ok(None),
    }
}

/// A time that must be there.
pub fn needed_time(alloc: Global, path: &str, table: &Value, key: &str) -> Result<u64, ProfileError>
    ensures { Agrees result (needed time_read path.now key.now (view table.now)) }
{
    let path = dotted(alloc, path, key)?;
    match table.get(key) {
        Some(value) => time_from(alloc, path.as_str(), value),
        None => refused(alloc, path.as_str(), Fault::MissingKey),
    }
}

// The text of this number in the list at a path.
fn text_at(alloc: Global, path: &str, number: usize, value: &Value) -> Result<Text, ProfileError>
    ensures { Agrees result (text_read (item_path path.now number) (view value.now)) }
{
    let path = numbered(alloc, path, number)?;
    text_from(alloc, path.as_str(), value)
}

fn texts_in(alloc: Global, path: &str, items: &[Value]) -> Result<List<Text>, ProfileError>
    ensures { Agrees result (item_texts path.now 0 (items_view items.now)) }
{
    let mut texts = List::new();
    let mut number = 0usize;
    for item in items {
        let text = text_at(alloc, path, number, item)?;
        texts.push(alloc, text)?;
        number += 1;
    }
    Ok(texts)
}

/// A list of texts, copied.
pub fn texts_of(alloc: Global, path: &str, value: &Value) -> Result<List<Text>, ProfileError>
    ensures { Agrees result (texts_read path.now (view value.now)) }
{
    match value.as_array() {
        Some(items) => texts_in(alloc, path, items.as_slice()),
        None => refused(alloc, path, Fault::NotList),
    }
}
