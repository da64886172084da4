// A child that is looked at, and not waited for.
use crate::streams::Streams;
use crate::target::Target;
use crate::waiting::pause;
use run_capture::Mem;
use run_drive::Said;
use run_events::ChildSignal;
use run_host::{exit_of, unwaited};
use std::alloc::Global;
use std::process::{Child, OpenProcess};

/// A child, with its streams.
pub(crate) struct KeptChild<C: OpenProcess + Drop> {
    child: Child<C>,
    streams: Streams,
    /// Whether it was waited for, or can't be.
    is_over: bool,
    /// How it ended, until that is said.
    end: Option<Said>,
    /// How many looks in a row found nothing.
    quiet: u32,
    /// How many things in a row came of its streams.
    pieces: u32,
    /// Its group, while that is stopped.
    stopped: Option<Target>,
}

// A call of its own, which keeps the proofs of all that hold one small.
impl<C: OpenProcess + Drop> Drop for KeptChild<C> {
    fn drop(self) {
        let KeptChild {
            child: _,
            streams: _,
            is_over: _,
            end: _,
            quiet: _,
            pieces: _,
            stopped: _,
        } = self;
    }
}

// After so many things of its streams in a row its end is looked for, and is said once it has ended; more than its
// pipes hold then.
const MOST_PIECES: u32 = 32;

impl<C: OpenProcess + Drop> KeptChild<C> {
    /// A child that was just started.
    pub fn new(child: Child<C>, streams: Streams) -> Self {
        KeptChild {
            child,
            streams,
            is_over: false,
            end: None,
            quiet: 0,
            pieces: 0,
            stopped: None,
        }
    }

    /// Its process id.
    pub fn pid(&self) -> u32 {
        self.child.id()
    }

    /// Whether it was waited for, or can't be: then nothing is sent to it.
    pub fn is_over(&self) -> bool {
        self.is_over
    }

    /// The child, or its group.
    pub fn target(&self, group: bool) -> Target {
        Target {
            pid: self.pid(),
            group,
        }
    }

    /// Something is about to come: it is looked at more often for a while.
    pub fn rouse(&mut self) {
        self.quiet = 0;
    }

    /// Notes that it was sent a signal, or its group.
    pub fn note_sent(&mut self, signal: ChildSignal, target: Target) {
        match signal {
            ChildSignal::Tstp if target.group => self.stopped = Some(target),
            ChildSignal::Cont => self.stopped = None,
            _ => {}
        }
    }

    /// Its group, where that is stopped.
    pub fn stopped(&self) -> Option<Target> {
        self.stopped
    }

    /// Kills it alone. Answers whether it was sent.
    pub fn kill(&mut self) -> bool {
        !self.is_over && self.child.kill().is_ok()
    }

    // How many milliseconds a look waits: few at first, 10 at most.
    fn patience(&self) -> u16 {
        if self.quiet < 10 {
            1
        } else if self.quiet < 30 {
            3
        } else {
            10
        }
    }

    /// What it does next, if it does something within 10 ms. Its streams are read only with `reads`. Once it has ended,
    /// what its streams still hold comes before its end: so a stream that ended with it is never taken for one that
    /// another process holds.
    pub fn look(&mut self, alloc: Global, reads: bool) -> Mem<Option<Said>> {
        if self.end.is_none() {
            if let Some(said) = self.look_on(alloc, reads)? {
                return Ok(Some(said));
            }
        }
        self.close(alloc, reads)
    }

    // What comes of its streams, and where nothing does whether it has ended.
    fn look_on(&mut self, alloc: Global, reads: bool) -> Mem<Option<Said>> {
        if self.is_end_due() {
            self.look_for_end(alloc)?;
            if self.end.is_some() {
                return Ok(None);
            }
        }
        if let Some(said) = self.read(alloc, reads)? {
            return Ok(Some(said));
        }
        self.look_for_end(alloc)?;
        Ok(None)
    }

    // Whether its end is to be looked for first: where its streams have just ended, and among much that it writes.
    fn is_end_due(&self) -> bool {
        self.pieces >= MOST_PIECES || (self.quiet == 0 && self.streams.is_over())
    }

    // What comes of its streams.
    fn read(&mut self, alloc: Global, reads: bool) -> Mem<Option<Said>> {
        let most = self.patience();
        let mut said = None;
        if reads {
            said = self.streams.next(alloc, most)?;
        } else {
            pause(most);
        }
        self.count(said.is_some());
        Ok(said)
    }

    // Counts what a look found.
    fn count(&mut self, came: bool) {
        if came {
            self.quiet = 0;
            self.pieces = self.pieces.saturating_add(1);
        } else {
            self.quiet = self.quiet.saturating_add(1);
            self.pieces = 0;
        }
    }

    // Looks whether it has ended, until it has.
    fn look_for_end(&mut self, alloc: Global) -> Mem<()> {
        self.pieces = 0;
        if self.is_over {
            return Ok(());
        }
        match self.child.try_wait() {
            Ok(None) => {}
            Ok(Some(status)) => {
                self.is_over = true;
                let exit = exit_of(&status);
                self.end = Some(Said::Exit { exit });
            }
            Err(error) => {
                self.is_over = true;
                self.end = Some(unwaited(alloc, &error)?);
            }
        }
        Ok(())
    }

    // Of a child that has just ended: what its streams hold, if they are read, and then its end, which is said once.
    // Another process may write on: its words are counted, and the end comes after so many.
    fn close(&mut self, alloc: Global, reads: bool) -> Mem<Option<Said>> {
        if reads && self.end.is_some() && self.pieces < MOST_PIECES {
            self.pieces += 1;
            if let Some(said) = self.streams.next(alloc, 0)? {
                return Ok(Some(said));
            }
        }
        Ok(self.end.take())
    }
}
