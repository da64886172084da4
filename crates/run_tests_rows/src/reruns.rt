// Rows of reruns: chains of stores in memory.
use crate::answer::{Answer, numbers, wanting, words_of};
use crate::programs::filled;
use run_capture::{Blob, List, MemorySink, Text};
use run_cli::Ran;
use run_rerun_cli::{MemoryStore, MemoryStores, run};
use std::alloc::Global;
use std::fs::Files;
use std::{fs, io};

/// How the stores and the sink of a row behave.
#[derive(Clone, Copy)]
struct Outside {
    /// The number of the opening that fails, counted from 1; 0 for none.
    failing_open: u64,
    /// The same of the reads of each store, each time that it is opened.
    failing_read: u64,
    /// The same of the writes.
    failing_write: u64,
    /// So many bytes are moved at a time, at most.
    most: usize,
    /// Zero bytes are added to each store, until it has so many bytes.
    filled: usize,
}

impl Outside {
    // Stores and a sink that don't fail.
    fn sound() -> Outside {
        Outside {
            failing_open: 0,
            failing_read: 0,
            failing_write: 0,
            most: 65536,
            filled: 0,
        }
    }

    // The same with a setting, as `write=2`; none where there is no such setting.
    fn with(self, setting: &str) -> Option<Outside> {
        let (key, value) = setting.split_once('=')?;
        let number = value.parse::<u64>().ok()?;
        let mut outside = self;
        match key {
            "open" => outside.failing_open = number,
            "read" => outside.failing_read = number,
            "write" => outside.failing_write = number,
            "most" => outside.most = number as usize,
            "fill" => outside.filled = number as usize,
            _ => return None,
        }
        Some(outside)
    }
}

/// What the top call is given, and what it is to answer.
#[derive(Drop)]
pub struct Rerun<'a> {
    pub name: &'a str,
    /// The words with commas between them, or `-` for none.
    words: &'a str,
    /// The stores, as `NAME=FILE`, with commas between them, or `-` for none.
    stores: &'a str,
    pub status: u8,
    /// How many stores are opened, and given back.
    pub opened: u64,
    outside: Outside,
}

/// The row that a line of the table says, if it says one.
pub fn rerun_of(line: &str) -> Option<Rerun<'_>> {
    let mut fields = line.split_whitespace();
    let name = fields.next()?;
    let words = fields.next()?;
    let stores = fields.next()?;
    let status = fields.next()?.parse::<u8>().ok()?;
    let opened = fields.next()?.parse::<u64>().ok()?;
    let mut outside = Outside::sound();
    for setting in fields {
        outside = outside.with(setting)?;
    }
    Some(Rerun {
        name,
        words,
        stores,
        status,
        opened,
        outside,
    })
}

// A store that has the bytes of a file, under a name.
fn store_of<X: AllocGlobal + Files>(
    rt: &X,
    name: &str,
    file: &str,
    outside: Outside,
) -> io::Result<MemoryStore> {
    let alloc = rt.alloc();
    let bytes = fs::read(rt, format!(in alloc; "{file}.store")?)?;
    let bytes: Blob = filled(alloc, bytes.as_slice(), outside.filled).map_err(wanting)?;
    let fail = numbers(alloc, outside.failing_read).map_err(wanting)?;
    let name = Text::from_str(alloc, name).map_err(wanting)?;
    Ok(MemoryStore {
        name,
        bytes,
        most: outside.most,
        fail,
    })
}

// The stores of a row.
fn stores_of<X: AllocGlobal + Files>(rt: &X, row: &Rerun) -> io::Result<MemoryStores> {
    let alloc = rt.alloc();
    let mut stores = List::new();
    for part in row.stores.split(',') {
        if let Some((name, file)) = part.split_once('=') {
            let store = store_of(rt, name, file, row.outside)?;
            stores.push(alloc, store).map_err(wanting)?;
        }
    }
    let fail = numbers(alloc, row.outside.failing_open).map_err(wanting)?;
    Ok(MemoryStores::new(alloc, stores, fail))
}

// What the top call answers to words and stores, with room for so many bytes; and how many stores it opened, where it
// gave back as many.
fn carried(
    alloc: Global,
    row: &Rerun,
    stores: MemoryStores,
    room: usize,
) -> io::Result<(Answer, Option<u64>)> {
    let mut stores = stores;
    let words = words_of(alloc, row.words)?;
    let failing = numbers(alloc, row.outside.failing_write).map_err(wanting)?;
    let sink = MemorySink::new(alloc, room, row.outside.most.max(1), failing).map_err(wanting)?;
    let Ran { status, sink } = run(alloc, words.as_slice(), &mut stores, sink);
    let mut written = Vec::new(alloc);
    written.extend_from_slice(sink.bytes())?;
    let opened = Some(stores.opened()).filter(|count| *count == stores.returned());
    Ok((Answer { status, written }, opened))
}

/// What the top call answers to a row, with room for somewhat more than the bytes that are wanted; and how many stores
/// it opened, where it gave back as many.
pub fn rerun_answer<X: AllocGlobal + Files>(
    rt: &X,
    row: &Rerun,
    wanted: usize,
) -> io::Result<(Answer, Option<u64>)> {
    let stores = stores_of(rt, row)?;
    carried(rt.alloc(), row, stores, wanted.saturating_add(4096))
}
