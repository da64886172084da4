// What the top calls over stores, jobs and audits answer to a row.
use crate::answer::{Answer, input_of, numbers, wanting, words_of};
use crate::table::{Row, Streams};
use run_capture::{Blob, MemorySink, MemorySource, OutOfMemory};
use run_cli::Ran;
use run_jobs_cli::next_wave;
use std::alloc::Global;
use std::fs::Files;
use std::io;

/// Whose top calls a table is of.
#[derive(Clone, Copy)]
pub enum Program {
    Stores,
    Jobs,
    Audits,
}

/// Bytes, and zeros after them until they are so many.
pub fn filled(alloc: Global, bytes: &[u8], count: usize) -> Result<Blob, OutOfMemory> {
    let mut input = Blob::new(alloc);
    input.extend_from_slice(alloc, bytes)?;
    let zeros = [0u8; 4096];
    'zeros: while input.len() < count {
        let room = count.saturating_sub(input.len());
        input.extend_from_slice(alloc, &zeros[..room.min(4096)])?;
    }
    Ok(input)
}

fn source_of(alloc: Global, bytes: &[u8], streams: Streams) -> Result<MemorySource, OutOfMemory> {
    let failing = numbers(alloc, streams.failing_read)?;
    let input = filled(alloc, bytes, streams.filled)?;
    Ok(MemorySource::new(input, streams.most.max(1), failing))
}

// Whether the words ask for the next wave.
fn asks_next(words: &[String]) -> bool {
    match words {
        [word] => word.as_str() == "next",
        _ => false,
    }
}

// What the program of jobs answers.
fn answer_of_jobs(
    alloc: Global,
    words: &[String],
    source: &mut MemorySource,
    sink: MemorySink,
) -> Ran<MemorySink> {
    if asks_next(words) {
        next_wave(alloc, source, sink)
    } else {
        run_jobs_cli::run(alloc, words, source, sink)
    }
}

/// What a top call answers to words and an input, with room for so many bytes.
pub fn answer_to(
    alloc: Global,
    program: Program,
    words: &[String],
    input: &[u8],
    streams: Streams,
    room: usize,
) -> io::Result<Answer> {
    let mut source = source_of(alloc, input, streams).map_err(wanting)?;
    let failing = numbers(alloc, streams.failing_write).map_err(wanting)?;
    let sink = MemorySink::new(alloc, room, streams.most.max(1), failing).map_err(wanting)?;
    let Ran { status, sink } = match program {
        Program::Stores => run_store_cli::run(alloc, words, &mut source, sink),
        Program::Jobs => answer_of_jobs(alloc, words, &mut source, sink),
        Program::Audits => run_audit_cli::run(alloc, words, &mut source, sink),
    };
    let mut written = Vec::new(alloc);
    written.extend_from_slice(sink.bytes())?;
    Ok(Answer { status, written })
}

/// What the top call answers to a row, with room for somewhat more than the bytes that are wanted.
pub fn answer_of<X: AllocGlobal + Files>(
    rt: &X,
    program: Program,
    row: &Row,
    wanted: usize,
) -> io::Result<Answer> {
    let alloc = rt.alloc();
    let input = input_of(rt, row.input)?;
    let words = words_of(alloc, row.words)?;
    let room = wanted.saturating_add(4096);
    answer_to(
        alloc,
        program,
        words.as_slice(),
        input.as_slice(),
        row.streams,
        room,
    )
}
