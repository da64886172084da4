// What the tests share. Memory is ample: where it is wanting, the test ends.
use run_capture::{Blob, Boxed, Duplicate, List, Text};
use std::alloc::Global;
use std::fmt::Display;
use std::process::Abort;

pub const MEMORY: &str = "memory";

// The answer for this row is yes.
pub fn holds(rt: &impl Abort, row: &str, answer: bool) {
    assert!(rt; answer, "{row}");
}

pub fn text(rt: &impl Abort, alloc: Global, text: &str) -> Text {
    Text::from_str(alloc, text).expect(rt, MEMORY)
}

/// A value in memory of its own.
pub fn boxed<T: Drop>(rt: &impl Abort, alloc: Global, value: T) -> Boxed<T> {
    Boxed::new(alloc, value).expect(rt, MEMORY)
}

pub fn blob(rt: &impl Abort, alloc: Global, bytes: &[u8]) -> Blob {
    Blob::from_slice(alloc, bytes).expect(rt, MEMORY)
}

// A list of one item.
pub fn one<T: Drop>(rt: &impl Abort, alloc: Global, item: T) -> List<T> {
    let mut list = List::new();
    list.push(alloc, item).expect(rt, MEMORY);
    list
}

// A copy of a value that is let go.
pub fn copied<T: Duplicate + Drop>(rt: &impl Abort, alloc: Global, value: T) -> T {
    value.copy(alloc).expect(rt, MEMORY)
}

// A value prints so.
pub fn is_shown<T: Display>(alloc: Global, value: &T, text: &str) -> bool {
    match format!(in alloc; "{value}") {
        Ok(shown) => shown.as_str() == text,
        Err(_) => false,
    }
}

// Words, each with `|` after it.
fn joined(rt: &impl Abort, alloc: Global, words: &[Text]) -> Text {
    let mut all = text(rt, alloc, "");
    for word in words {
        add(rt, alloc, &mut all, word.as_str(), "|");
    }
    all
}

fn add(rt: &impl Abort, alloc: Global, all: &mut Text, part: &str, end: &str) {
    all.push_str(alloc, part).expect(rt, MEMORY);
    all.push_str(alloc, end).expect(rt, MEMORY);
}

// Variables, each with `=` before its value and `|` after it.
fn joined_pairs(rt: &impl Abort, alloc: Global, pairs: &[(Text, Text)]) -> Text {
    let mut all = text(rt, alloc, "");
    for (name, value) in pairs {
        add(rt, alloc, &mut all, name.as_str(), "=");
        add(rt, alloc, &mut all, value.as_str(), "|");
    }
    all
}

// Words are these, each with `|` after it.
pub fn are_texts(rt: &impl Abort, alloc: Global, words: &[Text], wanted: &str) -> bool {
    joined(rt, alloc, words).as_str() == wanted
}

// Variables are these, each with `=` before its value and `|` after it.
pub fn are_pairs(rt: &impl Abort, alloc: Global, pairs: &[(Text, Text)], wanted: &str) -> bool {
    joined_pairs(rt, alloc, pairs).as_str() == wanted
}
