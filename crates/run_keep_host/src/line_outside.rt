// The outside as lines of standard input.
ghost use Rattle.std.specs.Prelude.{◌≡◌, IfOk};
ghost use Rattle.run_keep_host.specs.Lines.{IsLine};

use crate::FirstLineError;
use crate::lines::Lines;
use crate::waiting::pause;
use run_capture::{Blob, Mem, OutOfMemory};
use run_events::Turn;
use run_input::{LineError, read_turn_line};
use run_keep::{Came, Outside};
use std::alloc::Global;
use std::io::Read;

/// The lines of standard input, each a turn line of a signal or a key. Any other is dropped, counted, and said on
/// standard error, as is a part of 16,777,216 bytes of a longer line. Where the input ends or can't be read nothing
/// comes any more; the latter is counted and said too.
#[derive(Drop)]
pub struct LineOutside<I: Read + Drop, P: Eprint + Drop> {
    outside: P,
    lines: Lines<I>,
    /// The line so far.
    line: Vec<u8>,
    faults: u64,
}

// How many milliseconds a look waits at most.
const BEAT: u16 = 10;

// What came, where a turn is of a signal or a key.
fn came_of(turn: &Turn) -> Option<Came> {
    match turn {
        Turn::Signal { signal } => Some(Came::Signal { signal: *signal }),
        Turn::Key { key } => Some(Came::Key { key: *key }),
        _ => None,
    }
}

// What a line says that came, if it says that.
fn read_came(alloc: Global, line: &[u8]) -> Mem<Option<Came>> {
    match read_turn_line(alloc, line) {
        Ok(turn) => Ok(came_of(&turn)),
        Err(LineError::OutOfMemory) => Err(OutOfMemory),
        Err(_) => Ok(None),
    }
}

impl<I: Read + Drop, P: Eprint + Drop> LineOutside<I, P> {
    /// The lines of standard input, which `input` reads.
    pub fn new(outside: P, alloc: Global, input: I) -> Self
        ensures { result.faults ≡ 0 }
    {
        LineOutside {
            outside,
            lines: Lines::new(alloc, input),
            line: Vec::new(alloc),
            faults: 0,
        }
    }

    /// How many lines were dropped, and whether the input could not be read.
    pub fn faults(&self) -> u64
        ensures { result ≡ self.now.faults }
    {
        self.faults
    }

    /// Waits for the first line, which isn't of a turn, and answers it without its line feed; what there is at the end
    /// of the input. After an error nothing is to be read.
    pub fn first_line(&mut self, alloc: Global) -> Result<Blob, FirstLineError>
        ensures { IfOk result (λ line. IsLine line) }
    {
        let mut line = Vec::new(alloc);
        for _ in 0..u64::MAX {
            if self.lines.take(&mut line)? || self.lines.is_over() {
                break;
            }
            self.lines.read()?;
        }
        Ok(Blob::from_vec(alloc, line)?)
    }

    // Goes on with the line. Answers whether it is whole.
    fn advance(&mut self) -> Mem<bool> {
        match self.lines.take(&mut self.line) {
            Ok(is_whole) => {
                let is_last = self.lines.is_over() && !self.line.is_empty();
                Ok(is_whole || is_last)
            }
            Err(FirstLineError::OutOfMemory) => Err(OutOfMemory),
            Err(_) => {
                self.drop_line();
                Ok(false)
            }
        }
    }

    // Reads what comes soon.
    fn read(&mut self) -> Mem<()> {
        match self.lines.read_within(BEAT) {
            Ok(()) => Ok(()),
            Err(FirstLineError::OutOfMemory) => Err(OutOfMemory),
            Err(_) => {
                self.count("standard input can't be read: no signal and no key is heard");
                Ok(())
            }
        }
    }

    // What the line says that came. One that says nothing of the kind is dropped.
    fn hear(&mut self, alloc: Global) -> Mem<Option<Came>> {
        let came = read_came(alloc, self.line.as_slice())?;
        if came.is_none() {
            self.drop_line();
        }
        self.line.clear();
        Ok(came)
    }

    // Drops a line.
    fn drop_line(&mut self) {
        self.line.clear();
        self.count("a line that is no signal and no key is dropped");
    }

    // Counts a failure, and says it.
    fn count(&mut self, what: &str) {
        self.faults = self.faults.saturating_add(1);
        let _ = eprintln!(self.outside; "nextest_run: {what}");
    }
}

impl<I: Read + Drop, P: Eprint + Drop> Outside for LineOutside<I, P> {
    ghost has_come = { λ _ _. Unit {0} };

    fn next(&mut self, alloc: Global) -> Mem<Option<Came>> {
        if !self.advance()? {
            self.read()?;
            if !self.advance()? {
                return Ok(None);
            }
        }
        self.hear(alloc)
    }

    fn pause(&mut self) {
        pause(BEAT);
    }
}
