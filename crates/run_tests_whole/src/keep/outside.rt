// The outside as lines.
use run_capture::Blob;
use run_events::Signal;
use run_keep::{Came, Outside};
use run_keep_host::{FirstLineError, LineOutside};
use std::alloc::Global;
use std::io;
use std::io::Read;

const LINES: &str = "a plan
{\"turn\":\"signal\",\"name\":\"int\"}
{\"turn\":\"begin\"}
no line
{\"turn\":\"key\",\"code\":\"t\",\"modified\":false,\"press\":true}";

// An input that gives one byte again and again, so often, and then can't be read, or ends.
#[derive(Drop)]
struct Again {
    byte: u8,
    reads: u32,
    fails: bool,
}

impl Read for Again {
    fn read(&mut self, buf: &mut [u8]) -> io::Result<usize> {
        if self.reads > 0 {
            self.reads -= 1;
            buf.fill(self.byte);
            return Ok(buf.len());
        }
        if self.fails {
            Err(io::Error::from(io::ErrorKind::BrokenPipe))
        } else {
            Ok(0)
        }
    }
}

fn is_int(came: &Option<Came>) -> bool {
    matches!(
        came,
        Some(Came::Signal {
            signal: Signal::Int
        })
    )
}

// Whether nothing comes so often.
fn is_still<O: Outside>(alloc: Global, outside: &mut O, looks: u32) -> bool {
    for _ in 0..looks {
        if !matches!(outside.next(alloc), Ok(None)) {
            return false;
        }
    }
    true
}

// Whether the first line is this.
fn begins_with<I: Read + Drop, P: Eprint + Drop>(
    alloc: Global,
    outside: &mut LineOutside<I, P>,
    wanted: &str,
) -> bool {
    match outside.first_line(alloc) {
        Ok(line) => line.as_slice() == wanted.as_bytes(),
        Err(_) => false,
    }
}

// What comes of the lines, which are read as one piece, so that none is waited for: two that say nothing that comes
// from outside are dropped.
fn hears_lines<P: Eprint + Drop>(outside: P, alloc: Global) -> bool {
    let mut outside = LineOutside::new(outside, alloc, LINES.as_bytes());
    let is_begun = begins_with(alloc, &mut outside, "a plan");
    let is_int = match outside.next(alloc) {
        Ok(came) => is_int(&came),
        Err(_) => false,
    };
    is_begun && is_int && is_still(alloc, &mut outside, 2) && outside.faults() == 2
}

#[test]
fn lines_are_heard_in_order(rt: HostRuntime) {
    let is_heard = hears_lines(rt, rt.alloc());
    assert!(rt; is_heard);
}

// Whether a first line that is the last, and needs no line feed, is answered, and nothing comes after it.
fn hears_one<P: Eprint + Drop>(outside: P, alloc: Global, line: &str) -> bool {
    let mut outside = LineOutside::new(outside, alloc, line.as_bytes());
    begins_with(alloc, &mut outside, line)
        && is_still(alloc, &mut outside, 2)
        && outside.faults() == 0
}

#[test]
fn a_first_line_may_be_the_last(rt: HostRuntime) {
    let is_line = hears_one(rt, rt.alloc(), "a plan");
    let is_none = hears_one(rt, rt.alloc(), "");
    assert!(rt; is_line && is_none);
}

// A letter for each answer.
fn letter_of(first: &Result<Blob, FirstLineError>) -> char {
    match first {
        Ok(line) if line.len() > 0 => 'l',
        Ok(_) => 'e',
        Err(FirstLineError::Read) => 'r',
        Err(FirstLineError::TooLong) => 't',
        Err(FirstLineError::OutOfMemory) => 'm',
    }
}

// What comes of the first line of an input: a letter.
fn first_of<P: Eprint + Drop>(outside: P, alloc: Global, reads: u32, fails: bool) -> char {
    let byte = b'x';
    let input = Again { byte, reads, fails };
    let mut outside = LineOutside::new(outside, alloc, input);
    let first = outside.first_line(alloc);
    letter_of(&first)
}

// How often the input can be read, whether it fails then, and what comes of that.
const FIRSTS: [(u32, bool, char); 4] = [
    (0, false, 'e'),
    (0, true, 'r'),
    (1, true, 'r'),
    (3, false, 'l'),
];

#[test]
fn a_first_line_may_be_wanting(rt: HostRuntime) {
    for (reads, fails, wanted) in &FIRSTS {
        let found = first_of(rt, rt.alloc(), *reads, *fails);
        assert!(rt; found == *wanted, "{reads}");
    }
}

// Of 8,192 bytes more than a line may have.
#[test]
fn a_first_line_may_be_too_long(rt: HostRuntime) {
    let found = first_of(rt, rt.alloc(), 2049, false);
    assert!(rt; found == 't');
}
