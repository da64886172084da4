// Texts, lists, sources and sinks.
use crate::rows::{MEMORY, blob, copied, holds, one, text};
use run_capture::{
    Blob, ChildFdError, Failed, List, MemorySink, MemorySource, ReadError, Sink, Source, StdSink,
    StdSource, Text, read_to_end, write_all,
};
use std::alloc::Global;
use std::process::Abort;

// A text of two parts.
fn long_text(rt: &impl Abort, alloc: Global) -> Text {
    let mut text = text(rt, alloc, "out of");
    text.push_str(alloc, " memory").expect(rt, MEMORY);
    text
}

// A list of one text with a number.
fn numbered(rt: &impl Abort, alloc: Global) -> List<(Text, Option<u64>)> {
    one(rt, alloc, (long_text(rt, alloc), Some(7)))
}

// The copy of a list equals the list.
fn copies_a_list(rt: &impl Abort, alloc: Global) -> bool {
    copied(rt, alloc, numbered(rt, alloc)) == numbered(rt, alloc)
}

fn is_wait(error: &ChildFdError, expected: &str) -> bool {
    match error {
        ChildFdError::Wait(text) => text.as_str() == expected,
        _ => false,
    }
}

fn copies_an_error(rt: &impl Abort, alloc: Global) -> bool {
    let error = copied(rt, alloc, ChildFdError::Wait(long_text(rt, alloc)));
    is_wait(&error, "out of memory")
}

// Texts are ordered by their bytes.
fn is_less(rt: &impl Abort, alloc: Global, one: &str, other: &str) -> bool {
    let (one, other) = (text(rt, alloc, one), text(rt, alloc, other));
    one < other && one != other
}

#[test]
fn copies_texts_and_lists(rt: HostRuntime) {
    let alloc = rt.alloc();
    holds(&rt, "list", copies_a_list(&rt, alloc));
    holds(&rt, "error", copies_an_error(&rt, alloc));
    for (one, other) in [("out", "out of memory"), ("out of memory", "p")] {
        holds(&rt, one, is_less(&rt, alloc, one, other));
    }
}

// A source of five bytes whose second read fails.
fn seven(rt: &impl Abort, alloc: Global) -> MemorySource {
    MemorySource::new(
        copied(rt, alloc, blob(rt, alloc, b"seven")),
        3,
        one(rt, alloc, 2),
    )
}

fn gives(source: &mut MemorySource, answer: Result<usize, Failed>, first: u8) -> bool {
    let mut buffer = [0; 8];
    source.read(&mut buffer) == answer && buffer[0] == first
}

fn fails_in_reading(rt: &impl Abort, alloc: Global) -> bool {
    let mut source = seven(rt, alloc);
    let mut whole = true;
    for (answer, first) in [(Ok(3), b's'), (Err(Failed), 0), (Ok(2), b'e'), (Ok(0), 0)] {
        whole = gives(&mut source, answer, first) && whole;
    }
    whole
}

// The third write fails, and so does the one after the room.
fn takes(sink: &mut MemorySink) -> bool {
    write_all(sink, b"one") == Ok(())
        && sink.write(b"two") == Err(Failed)
        && write_all(sink, b"two") == Err(Failed)
}

fn fails_in_writing(rt: &impl Abort, alloc: Global) -> bool {
    let mut sink = MemorySink::new(alloc, 5, 2, one(rt, alloc, 3)).expect(rt, MEMORY);
    takes(&mut sink) && sink.bytes() == b"onetw".as_slice()
}

// What reading all of ten bytes of std gives, under a limit.
fn reads_std(alloc: Global, limit: usize) -> Result<Blob, ReadError> {
    let mut source = StdSource::new(b"0123456789".as_slice());
    read_to_end(alloc, &mut source, limit)
}

fn std_is_read(alloc: Global) -> bool {
    match reads_std(alloc, 10) {
        Ok(bytes) => bytes.as_slice() == b"0123456789".as_slice(),
        Err(_) => false,
    }
}

fn std_is_too_long(alloc: Global) -> bool {
    reads_std(alloc, 9).err() == Some(ReadError::TooLong)
}

// The error of a source whose second read fails.
fn is_read_error(rt: &impl Abort, alloc: Global) -> bool {
    read_to_end(alloc, &mut seven(rt, alloc), 10).err() == Some(ReadError::Failed)
}

// Two bytes go into a room of two, and the next write takes none, which is a fault.
fn std_is_written() -> bool {
    let mut room = [0; 2];
    let mut sink = StdSink::new(room.as_mut_slice());
    sink.write(b"abc") == Ok(2) && sink.write(b"") == Ok(0) && sink.write(b"c") == Err(Failed)
}

#[test]
fn fails_in_mid_stream(rt: HostRuntime) {
    let alloc = rt.alloc();
    holds(&rt, "read", fails_in_reading(&rt, alloc));
    holds(&rt, "write", fails_in_writing(&rt, alloc));
    holds(&rt, "all", std_is_read(alloc));
    holds(&rt, "too long", std_is_too_long(alloc));
    holds(&rt, "failed", is_read_error(&rt, alloc));
    holds(&rt, "written", std_is_written());
}
