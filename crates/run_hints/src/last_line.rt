// A sink that remembers its last line.
use memchr::memrchr;
use run_capture::{Failed, Sink};
use std::alloc::Global;

/// A longer line is remembered as far as this.
const MOST: usize = 256;

// A line as it goes by: its front part where it is long.
#[derive(Drop)]
struct Line {
    bytes: Vec<u8>,
    is_ended: bool,
    // Whether memory was there for it.
    is_kept: bool,
}

impl Line {
    // Takes bytes more, of which the last line is what counts.
    fn take(&mut self, bytes: &[u8]) {
        let (text, is_ended) = match bytes.split_last() {
            Some((b'\n', text)) => (text, true),
            Some(_) => (bytes, false),
            None => return,
        };
        let begin = memrchr(b'\n', text);
        if self.is_ended || begin.is_some() {
            self.bytes.clear();
            self.is_kept = true;
        }
        self.is_ended = is_ended;
        let line = match begin {
            Some(at) => &text[at + 1..],
            None => text,
        };
        let room = MOST.saturating_sub(self.bytes.len());
        if self
            .bytes
            .extend_from_slice(&line[..line.len().min(room)])
            .is_err()
        {
            self.is_kept = false;
        }
    }
}

/// A sink that hands on what it takes, and remembers the last line of it: its front part where it is long.
#[derive(Drop)]
pub struct LastLine<K> {
    sink: K,
    line: Line,
}

impl<K: Sink> LastLine<K> {
    /// This sink, with no line yet.
    pub fn new(alloc: Global, sink: K) -> LastLine<K> {
        let bytes = Vec::new(alloc);
        LastLine {
            sink,
            line: Line {
                bytes,
                is_ended: false,
                is_kept: true,
            },
        }
    }

    /// The last line, without its line feed; none where memory was wanting.
    pub fn line(&self) -> Option<&[u8]> {
        if self.line.is_kept {
            Some(self.line.bytes.as_slice())
        } else {
            None
        }
    }

    /// The sink beneath.
    pub fn into_sink(self) -> K {
        let LastLine { sink, line: _ } = self;
        sink
    }
}

impl<K: Sink> Sink for LastLine<K> {
    ghost taken = { λ l. K.taken l.sink };

    ghost faults = { λ l. K.faults l.sink };

    fn write(&mut self, piece: &[u8]) -> Result<usize, Failed> {
        let count = self.sink.write(piece)?;
        self.line.take(&piece[..count]);
        Ok(count)
    }
}
