// Which keys an object has.
ghost use Rattle.std.specs.Prelude.{◌≡◌, map};
ghost use Rattle.run_input.specs.declared.errors.LineError.TheVariants as errors;
ghost use Rattle.run_input.specs.Fields.{when};
ghost use Rattle.run_input.specs.ReadsValue.{ReadsValue};
ghost use Rattle.serde_json.specs.View.{view, members_view};
ghost use Rattle.run_input.specs.Fields.{is_one_of, is_object_of, has_only};

use crate::misfit::Wrong;
use crate::refusal::Refusal;
use serde_json::{Map, Value};
use std::alloc::Global;

// Whether a text is one of these names.
fn is_named(key: &str, names: &[&str]) -> bool
    ensures { result ≡ is_one_of key.now (map (λ n. n.now) names.now) }
{
    for name in names {
        if key == *name {
            return true;
        }
    }
    false
}

// Whether each key is one of these names.
fn keys_are(members: &Map<String, Value>, names: &[&str]) -> bool
    ensures { result ≡ has_only (map (λ n. n.now) names.now) (members_view members.now.entries) }
{
    for (key, _) in members.iter() {
        if !is_named(key.as_str(), names) {
            return false;
        }
    }
    true
}

/// Whether a value is an object with no key but these names.
pub fn has_keys_of(value: &Value, names: &[&str]) -> bool
    ensures { result ≡ is_object_of (map (λ n. n.now) names.now) (view value.now) }
{
    match value.as_object() {
        Some(members) => keys_are(members, names),
        None => false,
    }
}

// That a value is no object, or which of its keys is none of these names.
#[cold]
fn key_refusal(alloc: Global, value: &Value, names: &[&str], wanted: &'static str) -> Refusal
    ensures { result ≡ errors.NotInTable }
{
    let Some(members) = value.as_object() else {
        return Refusal::of(alloc, Wrong::Not(wanted));
    };
    for (key, _) in members.iter() {
        if !is_named(key.as_str(), names) {
            return Refusal::at(alloc, key.as_str(), Wrong::UnknownKey);
        }
    }
    Refusal::of(alloc, Wrong::Not(wanted))
}

/// Refuses a value that is no object, by what is wanted, and an object with a key that is none of these names.
pub fn only_keys(
    alloc: Global,
    value: &Value,
    names: &[&str],
    wanted: &'static str,
) -> Result<(), Refusal>
    ensures { ReadsValue result (when (is_object_of (map (λ n. n.now) names.now) (view value.now))) }
{
    if has_keys_of(value, names) {
        Ok(())
    } else {
        Err(key_refusal(alloc, value, names, wanted))
    }
}
