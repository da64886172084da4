// What stands at the keys of an object, with a usual value where nothing of its kind does.
use hex::FromHexError;
use run_capture::{Blob, List, Mem, OutOfMemory, Text};
use run_input::str_at;
use serde_json::Value;
use std::alloc::Global;

/// A number, if one stands there.
pub(crate) fn some_number(object: &Value, key: &str) -> Option<u64> {
    match object.get(key) {
        Some(value) => value.as_u64(),
        None => None,
    }
}

/// A number.
pub(crate) fn number(object: &Value, key: &str) -> u64 {
    some_number(object, key).unwrap_or(0)
}

/// A number below 2^32, if one stands there.
pub(crate) fn some_count(object: &Value, key: &str) -> Option<u32> {
    match some_number(object, key) {
        Some(number) => u32::try_from(number).ok(),
        None => None,
    }
}

/// A number below 2^32.
pub(crate) fn count(object: &Value, key: &str) -> u32 {
    some_count(object, key).unwrap_or(0)
}

/// A truth value.
pub(crate) fn truth(object: &Value, key: &str) -> bool {
    match object.get(key) {
        Some(value) => value.as_bool().unwrap_or(false),
        None => false,
    }
}

/// A text, lent.
pub(crate) fn word<'a>(object: &'a Value, key: &str) -> &'a str {
    str_at(object, key).unwrap_or("")
}

/// A text.
pub(crate) fn text(alloc: Global, object: &Value, key: &str) -> Mem<Text> {
    Text::from_str(alloc, word(object, key))
}

/// The items of an array.
pub(crate) fn items_of(value: &Value) -> &[Value] {
    match value.as_array() {
        Some(items) => items.as_slice(),
        None => &[],
    }
}

/// The items of an array at a key.
pub(crate) fn items<'a>(object: &'a Value, key: &str) -> &'a [Value] {
    match object.get(key) {
        Some(value) => items_of(value),
        None => &[],
    }
}

// The text that a value is.
fn text_of(alloc: Global, value: &Value) -> Mem<Text> {
    Text::from_str(alloc, value.as_str().unwrap_or(""))
}

/// The text at a place of an array.
pub(crate) fn text_in(alloc: Global, items: &[Value], place: usize) -> Mem<Text> {
    match items.get(place) {
        Some(value) => text_of(alloc, value),
        None => Text::from_str(alloc, ""),
    }
}

/// An array of texts.
pub(crate) fn texts(alloc: Global, object: &Value, key: &str) -> Mem<List<Text>> {
    let mut list = List::new();
    for item in items(object, key) {
        list.push(alloc, text_of(alloc, item)?)?;
    }
    Ok(list)
}

// The bytes whose hex a text is.
fn bytes_of(alloc: Global, digits: &str) -> Mem<Blob> {
    match hex::decode(alloc, digits) {
        Ok(bytes) => Blob::from_vec(alloc, bytes),
        Err(FromHexError::OutOfMemory) => Err(OutOfMemory),
        Err(_) => Ok(Blob::new(alloc)),
    }
}

/// The bytes whose hex stands there, if a text does.
pub(crate) fn some_bytes(alloc: Global, object: &Value, key: &str) -> Mem<Option<Blob>> {
    match str_at(object, key) {
        Some(digits) => Ok(Some(bytes_of(alloc, digits)?)),
        None => Ok(None),
    }
}
