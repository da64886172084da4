// Lines of an input, read without waiting.
ghost use Rattle.std.specs.Prelude.{OnOk};
ghost use Rattle.run_keep_host.specs.Lines.{HasNoFeed, IsLine};

use crate::FirstLineError;
use crate::waiting::{pause, readable};
use std::alloc::Global;
use std::io::{ErrorKind, Read};

/// The lines of standard input, whose bytes are read by `input`.
#[derive(Drop)]
pub(crate) struct Lines<I: Read + Drop> {
    input: I,
    /// What was read last.
    piece: Vec<u8>,
    /// How many bytes of it were taken.
    taken: usize,
    /// Whether the input hasn't ended.
    is_open: bool,
}

/// The most bytes that a line may have.
pub const LINE_LIMIT: usize = 16_777_216;

// How many bytes one read moves at most.
const PIECE: usize = 8192;

// The descriptor of standard input.
const STDIN: i32 = 0;

// The bytes before the first line feed, and whether there is one.
fn begin_of(bytes: &[u8]) -> (&[u8], bool)
    ensures { HasNoFeed result.0.now }
{
    match bytes.iter().position(|byte| *byte == b'\n') {
        Some(end) => (&bytes[..end], true),
        None => (bytes, false),
    }
}

// Puts bytes behind a line, which has room for them.
fn add(line: &mut Vec<u8>, bytes: &[u8]) -> Result<(), FirstLineError>
    requires { HasNoFeed bytes.now }
    ensures { OnOk result (IsLine line.old.items → IsLine line.new.items) }
{
    if bytes.len() > LINE_LIMIT.saturating_sub(line.len()) {
        return Err(FirstLineError::TooLong);
    }
    line.extend_from_slice(bytes)?;
    Ok(())
}

impl<I: Read + Drop> Lines<I> {
    /// The lines of an input of which nothing was read.
    pub fn new(alloc: Global, input: I) -> Self {
        Lines {
            input,
            piece: Vec::new(alloc),
            taken: 0,
            is_open: true,
        }
    }

    // What was read and not taken.
    fn rest(&self) -> &[u8] {
        match self.piece.get(self.taken..) {
            Some(rest) => rest,
            None => &[],
        }
    }

    /// Whether nothing more comes.
    pub fn is_over(&self) -> bool {
        !self.is_open && self.rest().is_empty()
    }

    /// Takes what was read of a line, and puts it behind its beginning. Answers whether its line feed came.
    pub fn take(&mut self, line: &mut Vec<u8>) -> Result<bool, FirstLineError>
        ensures { OnOk result (IsLine line.old.items → IsLine line.new.items) }
    {
        let (bytes, is_whole) = begin_of(self.rest());
        let added = add(line, bytes);
        let taken = bytes.len().saturating_add(usize::from(is_whole));
        self.taken = self.taken.saturating_add(taken);
        added?;
        Ok(is_whole)
    }

    /// Reads what comes, and waits for it, where all was taken.
    pub fn read(&mut self) -> Result<(), FirstLineError> {
        if !self.rest().is_empty() {
            return Ok(());
        }
        let mut buffer = [0u8; PIECE];
        match self.input.read(&mut buffer) {
            Ok(count) if count > 0 && count <= PIECE => self.hold(&buffer[..count]),
            Ok(_) => self.close(Ok(())),
            Err(error) if error.kind() == ErrorKind::Interrupted => Ok(()),
            Err(_) => self.close(Err(FirstLineError::Read)),
        }
    }

    /// Reads what comes within so many milliseconds, and waits so long where nothing does.
    pub fn read_within(&mut self, most: u16) -> Result<(), FirstLineError> {
        if !self.is_open {
            pause(most);
            return Ok(());
        }
        let (is_there, _) = readable(STDIN, -1, most);
        if is_there { self.read() } else { Ok(()) }
    }

    // Keeps what was read.
    fn hold(&mut self, bytes: &[u8]) -> Result<(), FirstLineError> {
        self.piece.clear();
        self.taken = 0;
        self.piece.extend_from_slice(bytes)?;
        Ok(())
    }

    // Nothing is read any more.
    fn close(&mut self, read: Result<(), FirstLineError>) -> Result<(), FirstLineError> {
        self.is_open = false;
        read
    }
}
