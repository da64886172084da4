// What the top call over lines answers to a row.
use crate::answer::{Answer, input_of, numbers, wanting, words_of};
use crate::host::host_of;
use crate::table::{Row, Streams};
use run_capture::{Blob, MemorySink, MemorySource, OutOfMemory};
use run_cli::{Ran, run};
use run_hints::{KeptSource, LastLine, Seen, explain};
use std::alloc::{AllocError, Global};
use std::fs::Files;
use std::io;
use std::sync::Wait;
use std::thread::Threads;
use std::time::Clock;

// The bytes of an input, its first line filled with spaces until all have so many bytes.
fn filled(alloc: Global, bytes: &[u8], len: usize) -> Result<Vec<u8>, AllocError> {
    let end = bytes
        .iter()
        .position(|byte| *byte == b'\n')
        .unwrap_or(bytes.len());
    let mut all = Vec::with_capacity(alloc, bytes.len().max(len))?;
    all.extend_from_slice(&bytes[..end])?;
    for _ in bytes.len()..len {
        all.push(b' ')?;
    }
    all.extend_from_slice(&bytes[end..])?;
    Ok(all)
}

// The words that are explained; none where one is not UTF-8.
fn given<'a>(row: &Row, words: &'a [String]) -> Option<&'a [String]> {
    if row.words == "?" { None } else { Some(words) }
}

fn source_of(alloc: Global, bytes: &[u8], streams: Streams) -> Result<MemorySource, OutOfMemory> {
    let failing = numbers(alloc, streams.failing_read)?;
    let mut input = Blob::new(alloc);
    input.extend_from_slice(alloc, bytes)?;
    Ok(MemorySource::new(input, streams.most.max(1), failing))
}

fn sink_of(alloc: Global, room: usize, streams: Streams) -> Result<MemorySink, OutOfMemory> {
    let failing = numbers(alloc, streams.failing_write)?;
    MemorySink::new(alloc, room, streams.most.max(1), failing)
}

/// What the top call answers to a row, with room for somewhat more than the bytes that are wanted, and what standard
/// error is to say.
pub fn answer_of<X: AllocGlobal + Files + Threads + Wait + Clock + Copy + Send + Sync>(
    rt: &X,
    row: &Row,
    wanted: usize,
) -> io::Result<(Answer, String)> {
    let alloc = rt.alloc();
    let bytes = input_of(rt, row.input)?;
    let input = filled(alloc, bytes.as_slice(), row.streams.filled)?;
    let words = words_of(alloc, row.words)?;
    let source = source_of(alloc, input.as_slice(), row.streams).map_err(wanting)?;
    let mut source = KeptSource::new(alloc, source);
    let sink = sink_of(alloc, wanted.saturating_add(4096), row.streams).map_err(wanting)?;
    let sink = LastLine::new(alloc, sink);
    let mut host = host_of(alloc, *rt, row.child).map_err(wanting)?;
    let (ran, live) = run(rt, alloc, words.as_slice(), &mut source, sink, &mut host);
    drop(live);
    let Ran { status, sink } = ran;
    let given = given(row, words.as_slice());
    let (input, last) = (source.bytes(), sink.line());
    let said = explain(alloc, given, status, Seen { input, last })?;
    let mut written = Vec::new(alloc);
    written.extend_from_slice(sink.into_sink().bytes())?;
    Ok((Answer { status, written }, said))
}
