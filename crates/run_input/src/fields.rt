// The fields of an object. Each reader is given the object and a key, and refuses a missing value unless its name says
// that there is a usual one or that it is optional. What is at no key of a plan line or a turn line may be read by it
// too.
ghost use Rattle.std.specs.Prelude.{◌≡◌, [], List, ℕ, option_map, option_and_then};
ghost use Rattle.serde_json.specs.Find.{as_str, get};
ghost use Rattle.serde_json.specs.View.{view, items_view};
ghost use Rattle.run_input.specs.Fields.{optional, or_usual, u32_of, u64_of, truth_of, i32_of, texts_of, texts_from};
ghost use Rattle.run_input.specs.Fields.{numbers_of, numbers_from};
ghost use Rattle.run_input.specs.declared.errors.LineError.TheVariants as errors;
ghost use Rattle.run_input.specs.ReadsValue.{ReadsValue};

use crate::misfit::Wrong;
use crate::refusal::{Refusal, missing, or_not};
use run_capture::{List, Text};
use serde_json::Value;
use std::alloc::Global;

const U32: &str = "a whole number from 0 to 4294967295";

const U64: &str = "a whole number from 0 to 18446744073709551615";

const TIME: &str = "a whole number of nanoseconds up to 18446744073709551615";

const TRUTH: &str = "true or false";

const TEXT: &str = "a text";

const TEXTS: &str = "a list of texts";

const NUMBERS: &str = "a list of whole numbers from 0 to 4294967295";

fn plain_u32(value: &Value) -> Option<u32>
    ensures { result ≡ u32_of (view value.now) }
{
    u32::try_from(value.as_u64()?).ok()
}

/// The whole number from 0 to 4294967295 that a value is, of what stands at a key.
pub fn u32_from(alloc: Global, value: &Value, key: &str) -> Result<u32, Refusal>
    ensures { ReadsValue result (u32_of (view value.now)) }
{
    or_not(alloc, plain_u32(value), key, U32)
}

/// A whole number from 0 to 4294967295.
pub fn u32_at(alloc: Global, object: &Value, key: &str) -> Result<u32, Refusal>
    ensures { ReadsValue result (option_and_then u32_of (get key.now (view object.now))) }
{
    match object.get(key) {
        Some(value) => u32_from(alloc, value, key),
        None => missing(alloc, key),
    }
}

/// A whole number from 0 to 4294967295, and the usual one where it is missing.
pub fn u32_or(alloc: Global, usual: u32, object: &Value, key: &str) -> Result<u32, Refusal>
    ensures { ReadsValue result (or_usual usual u32_of (get key.now (view object.now))) }
{
    match object.get(key) {
        Some(value) => u32_from(alloc, value, key),
        None => Ok(usual),
    }
}

/// A whole number from 0 to 4294967295 that may be missing.
pub fn optional_u32_at(alloc: Global, object: &Value, key: &str) -> Result<Option<u32>, Refusal>
    ensures { ReadsValue result (optional u32_of (get key.now (view object.now))) }
{
    match object.get(key) {
        Some(value) => Ok(Some(u32_from(alloc, value, key)?)),
        None => Ok(None),
    }
}

// A whole number from 0 to 18446744073709551615.
fn u64_from(value: &Value) -> Option<u64>
    ensures { result ≡ u64_of (view value.now) }
{
    value.as_u64()
}

/// A whole number from 0 to 18446744073709551615.
pub fn u64_at(alloc: Global, object: &Value, key: &str) -> Result<u64, Refusal>
    ensures { ReadsValue result (option_and_then u64_of (get key.now (view object.now))) }
{
    match object.get(key) {
        Some(value) => or_not(alloc, u64_from(value), key, U64),
        None => missing(alloc, key),
    }
}

/// A time in nanoseconds.
pub fn time_at(alloc: Global, object: &Value, key: &str) -> Result<u64, Refusal>
    ensures { ReadsValue result (option_and_then u64_of (get key.now (view object.now))) }
{
    match object.get(key) {
        Some(value) => or_not(alloc, u64_from(value), key, TIME),
        None => missing(alloc, key),
    }
}

/// A time in nanoseconds, and the usual one where it is missing.
pub fn time_or(alloc: Global, usual: u64, object: &Value, key: &str) -> Result<u64, Refusal>
    ensures { ReadsValue result (or_usual usual u64_of (get key.now (view object.now))) }
{
    match object.get(key) {
        Some(value) => or_not(alloc, u64_from(value), key, TIME),
        None => Ok(usual),
    }
}

/// A time in nanoseconds that may be missing.
pub fn optional_time_at(alloc: Global, object: &Value, key: &str) -> Result<Option<u64>, Refusal>
    ensures { ReadsValue result (optional u64_of (get key.now (view object.now))) }
{
    match object.get(key) {
        Some(value) => Ok(Some(or_not(alloc, u64_from(value), key, TIME)?)),
        None => Ok(None),
    }
}

// A truth value.
fn truth_from(value: &Value) -> Option<bool>
    ensures { result ≡ truth_of (view value.now) }
{
    value.as_bool()
}

/// A truth value.
pub fn truth_at(alloc: Global, object: &Value, key: &str) -> Result<bool, Refusal>
    ensures { ReadsValue result (option_and_then truth_of (get key.now (view object.now))) }
{
    match object.get(key) {
        Some(value) => or_not(alloc, truth_from(value), key, TRUTH),
        None => missing(alloc, key),
    }
}

/// A truth value, and the usual one where it is missing.
pub fn truth_or(alloc: Global, usual: bool, object: &Value, key: &str) -> Result<bool, Refusal>
    ensures { ReadsValue result (or_usual usual truth_of (get key.now (view object.now))) }
{
    match object.get(key) {
        Some(value) => or_not(alloc, truth_from(value), key, TRUTH),
        None => Ok(usual),
    }
}

/// A whole number from -2147483648 to 2147483647.
pub fn i32_from(value: &Value) -> Option<i32>
    ensures { result ≡ i32_of (view value.now) }
{
    let number = value.as_i64()?;
    if -2147483648 <= number && number <= 2147483647 {
        Some(number as i32)
    } else {
        None
    }
}

/// A text, lent: none where no text stands there.
pub fn str_at<'a>(object: &'a Value, key: &str) -> Option<&'a str>
    ensures { option_map (λ s. s.now) result ≡ option_and_then as_str (get key.now (view object.now)) }
{
    match object.get(key) {
        Some(value) => value.as_str(),
        None => None,
    }
}

/// Why no text stands at a key.
pub fn no_text(alloc: Global, object: &Value, key: &str) -> Refusal
    ensures { result ≡ errors.NotInTable }
{
    match object.get(key) {
        Some(_) => Refusal::at(alloc, key, Wrong::Not(TEXT)),
        None => Refusal::at(alloc, key, Wrong::MissingKey),
    }
}

/// The text that a value is, copied, of what is wanted at a key.
pub fn text_from(
    alloc: Global,
    value: &Value,
    key: &str,
    wanted: &'static str,
) -> Result<Text, Refusal>
    ensures { ReadsValue result (as_str (view value.now)) }
{
    match value.as_str() {
        Some(text) => Ok(Text::from_str(alloc, text)?),
        None => Err(Refusal::at(alloc, key, Wrong::Not(wanted))),
    }
}

/// A text, copied.
pub fn text_at(alloc: Global, object: &Value, key: &str) -> Result<Text, Refusal>
    ensures { ReadsValue result (option_and_then as_str (get key.now (view object.now))) }
{
    match object.get(key) {
        Some(value) => text_from(alloc, value, key, TEXT),
        None => missing(alloc, key),
    }
}

/// A text that may be missing, copied.
pub fn optional_text_at(alloc: Global, object: &Value, key: &str) -> Result<Option<Text>, Refusal>
    ensures { ReadsValue result (optional as_str (get key.now (view object.now))) }
{
    match object.get(key) {
        Some(value) => Ok(Some(text_from(alloc, value, key, TEXT)?)),
        None => Ok(None),
    }
}

/// A text, copied, and the usual one where it is missing.
pub fn text_or(alloc: Global, usual: &str, object: &Value, key: &str) -> Result<Text, Refusal>
    ensures { ReadsValue result (or_usual usual.now as_str (get key.now (view object.now))) }
{
    match object.get(key) {
        Some(value) => text_from(alloc, value, key, TEXT),
        None => Ok(Text::from_str(alloc, usual)?),
    }
}

/// The texts of a list, copied, of what is wanted at a key.
pub fn texts_in(
    alloc: Global,
    items: &[Value],
    key: &str,
    wanted: &'static str,
) -> Result<List<Text>, Refusal>
    ensures { ReadsValue result (texts_from (items_view items.now)) }
{
    let mut texts = List::with_capacity(alloc, items.len())?;
    for item in items {
        texts.push(alloc, text_from(alloc, item, key, wanted)?)?;
    }
    Ok(texts)
}

// The list of texts that a value is.
fn texts_from(alloc: Global, value: &Value, key: &str) -> Result<List<Text>, Refusal>
    ensures { ReadsValue result (texts_of (view value.now)) }
{
    match value.as_array() {
        Some(items) => texts_in(alloc, items.as_slice(), key, TEXTS),
        None => Err(Refusal::at(alloc, key, Wrong::Not(TEXTS))),
    }
}

/// A list of texts, copied.
pub fn texts_at(alloc: Global, object: &Value, key: &str) -> Result<List<Text>, Refusal>
    ensures { ReadsValue result (option_and_then texts_of (get key.now (view object.now))) }
{
    match object.get(key) {
        Some(value) => texts_from(alloc, value, key),
        None => missing(alloc, key),
    }
}

/// A list of texts, copied, and none where it is missing.
pub fn texts_or_none(alloc: Global, object: &Value, key: &str) -> Result<List<Text>, Refusal>
    ensures { ReadsValue result (or_usual [] texts_of (get key.now (view object.now))) }
{
    match object.get(key) {
        Some(value) => texts_from(alloc, value, key),
        None => Ok(List::new()),
    }
}

// The numbers of a list, each from 0 to 4294967295.
fn numbers_in(alloc: Global, items: &[Value], key: &str) -> Result<List<u32>, Refusal>
    ensures { ReadsValue result (numbers_from (items_view items.now)) }
{
    let mut numbers = List::with_capacity(alloc, items.len())?;
    for item in items {
        let number = or_not(alloc, plain_u32(item), key, NUMBERS)?;
        numbers.push(alloc, number)?;
    }
    Ok(numbers)
}

/// A list of whole numbers from 0 to 4294967295, and none where it is missing.
pub fn numbers_or_none(alloc: Global, object: &Value, key: &str) -> Result<List<u32>, Refusal>
    ensures { ReadsValue result (or_usual [] numbers_of (get key.now (view object.now))) }
{
    match object.get(key) {
        Some(list) => match list.as_array() {
            Some(items) => numbers_in(alloc, items.as_slice(), key),
            None => Err(Refusal::at(alloc, key, Wrong::Not(NUMBERS))),
        },
        None => Ok(List::new()),
    }
}
