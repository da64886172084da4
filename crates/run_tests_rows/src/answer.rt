// What a row is compared by.
use run_capture::{List, OutOfMemory};
use std::alloc::{AllocError, Global};
use std::fs::Files;
use std::{fs, io};

/// A status, and what was written.
#[derive(Drop)]
pub struct Answer {
    pub status: u8,
    pub written: Vec<u8>,
}

/// Memory was wanting.
pub fn wanting(_: OutOfMemory) -> io::Error {
    io::Error::from(AllocError)
}

/// The words that a text has between its commas; none for `-` and for `?`.
pub fn words_of(alloc: Global, text: &str) -> Result<Vec<String>, AllocError> {
    let mut words = Vec::new(alloc);
    if text != "-" && text != "?" {
        for word in text.split(',') {
            words.push(String::from_str(alloc, word)?)?;
        }
    }
    Ok(words)
}

/// The bytes of an input, none for `-`.
pub fn input_of<X: AllocGlobal + Files>(rt: &X, name: &str) -> io::Result<Vec<u8>> {
    if name == "-" {
        return Ok(Vec::new(rt.alloc()));
    }
    fs::read(rt, format!(in rt.alloc(); "{name}.in")?)
}

/// The list of a number, or of none for 0.
pub fn numbers(alloc: Global, number: u64) -> Result<List<u64>, OutOfMemory> {
    let mut list = List::new();
    if number > 0 {
        list.push(alloc, number)?;
    }
    Ok(list)
}
