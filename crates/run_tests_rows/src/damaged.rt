// Stores that are cut short or damaged, and what playing each of them answers, as one text.
use crate::answer::Answer;
use crate::programs::{Program, answer_to};
use crate::table::Streams;
use std::alloc::{AllocError, Global};
use std::io;

/// More bytes than an answer has.
const ROOM: usize = 65536;

// What playing a store answers.
fn played(alloc: Global, words: &[String], store: &[u8]) -> io::Result<Answer> {
    answer_to(alloc, Program::Stores, words, store, Streams::sound(), ROOM)
}

/// Of each front part of a store, from the empty one to the whole: its length, the status, and all that is written.
pub fn cuts(alloc: Global, words: &[String], store: &[u8]) -> io::Result<Vec<u8>> {
    let mut text = Vec::new(alloc);
    for end in 0..store.len().saturating_add(1) {
        let Answer { status, written } = played(alloc, words, &store[..end.min(store.len())])?;
        let head = format!(in alloc; "cut {end}: status {status}\n")?;
        text.extend_from_slice(head.as_bytes())?;
        text.extend_from_slice(written.as_slice())?;
    }
    Ok(text)
}

// A store in which one byte is another: some of its bits are turned over.
fn changed(alloc: Global, store: &[u8], place: usize, bits: u8) -> Result<Vec<u8>, AllocError> {
    let mut bytes = Vec::with_capacity(alloc, store.len())?;
    for (i, byte) in store.iter().enumerate() {
        bytes.push(if i == place { *byte ^ bits } else { *byte })?;
    }
    Ok(bytes)
}

/// Of each byte of a store, with its least and then its greatest bit turned over: its place, those bits, the status,
/// and all that is written.
pub fn changes(alloc: Global, words: &[String], store: &[u8]) -> io::Result<Vec<u8>> {
    let mut text = Vec::new(alloc);
    for number in 0..store.len().saturating_mul(2) {
        let place = number / 2;
        let bits = if number % 2 == 0 { 1u8 } else { 128u8 };
        let bytes = changed(alloc, store, place, bits)?;
        let Answer { status, written } = played(alloc, words, bytes.as_slice())?;
        let head = format!(in alloc; "byte {place} xor {bits}: status {status}\n")?;
        text.extend_from_slice(head.as_bytes())?;
        text.extend_from_slice(written.as_slice())?;
    }
    Ok(text)
}

// The last line of a text, without its line feed.
fn last_line(text: &[u8]) -> &[u8] {
    let Some((_, before)) = text.split_last() else {
        return text;
    };
    match before.iter().rposition(|byte| *byte == b'\n') {
        Some(at) => &before[at + 1..],
        None => before,
    }
}

/// Of some front parts of a store: the length, the status, how many bytes are written, and the last line.
pub fn fronts(alloc: Global, words: &[String], store: &[u8], lengths: &str) -> io::Result<Vec<u8>> {
    let mut text = Vec::new(alloc);
    for length in lengths.split_whitespace() {
        let end = length.parse::<usize>().unwrap_or(0).min(store.len());
        let Answer { status, written } = played(alloc, words, &store[..end])?;
        let count = written.len();
        let head = format!(in alloc; "cut {end}: status {status}, {count} bytes, ")?;
        text.extend_from_slice(head.as_bytes())?;
        text.extend_from_slice(last_line(written.as_slice()))?;
        text.push(b'\n')?;
    }
    Ok(text)
}
