// Rows of filters: the tests that one holds of, or the place of its fault.

use run_filter::{Facts, FilterError, held_by_text};
use std::alloc::{AllocError, Global};

// The facts of a test, from a line of six words with tabs between; empty where a word is missing.
fn facts_of(line: &str) -> Facts<'_> {
    let mut words = line.split('\t');
    Facts {
        binary_id: words.next().unwrap_or(""),
        package: words.next().unwrap_or(""),
        binary: words.next().unwrap_or(""),
        kind: words.next().unwrap_or(""),
        platform: words.next().unwrap_or(""),
        test: words.next().unwrap_or(""),
        group: "@global",
        in_default: true,
    }
}

fn tests_of(alloc: Global, lines: &str) -> Result<Vec<Facts<'_>>, AllocError> {
    let mut tests = Vec::new(alloc);
    for line in lines.lines() {
        tests.push(facts_of(line))?;
    }
    Ok(tests)
}

// A `1` for each test of which a filter holds, and a `0` for each other.
fn digits_of(alloc: Global, held: &[bool]) -> Result<String, AllocError> {
    let mut digits = String::new(alloc);
    for holds in held {
        digits.push(if *holds { '1' } else { '0' })?;
    }
    Ok(digits)
}

/// Of each test whether the filter of a text holds, or the place of the fault; none where memory is wanting.
pub fn filter_row(alloc: Global, text: &str, tests: &str) -> Option<String> {
    let tests = tests_of(alloc, tests).ok()?;
    match held_by_text(alloc, text, tests.as_slice()) {
        Ok(held) => digits_of(alloc, held.as_slice()).ok(),
        Err(FilterError::Wrong { place, .. }) => format!(in alloc; "at {place}").ok(),
        Err(FilterError::OutOfMemory) => None,
    }
}
