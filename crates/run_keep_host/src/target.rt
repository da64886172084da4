// Whom a signal is for, and how it is named.
use run_capture::{Mem, Text};
use run_events::{ChildSignal, TermSignal};
use std::alloc::{AllocError, Global};

/// A child, or its group.
#[derive(Clone, Copy, Drop)]
pub(crate) struct Target {
    pub pid: u32,
    pub group: bool,
}

impl Target {
    // As a word of `kill`: the process id, with this before it.
    fn sign(self) -> &'static str {
        if self.group { "-" } else { "" }
    }

    /// As a word of `kill`.
    pub fn word(self, alloc: Global) -> Result<String, AllocError> {
        let sign = self.sign();
        format!(in alloc; "{sign}{}", self.pid)
    }

    /// A line of a word and the target.
    pub fn line(self, alloc: Global, word: &str) -> Result<String, AllocError> {
        let sign = self.sign();
        format!(in alloc; "{word} {sign}{}\n", self.pid)
    }

    /// What is said where it can't be sent a signal.
    pub fn failure(self, alloc: Global, signal: &str) -> Mem<Text> {
        let sign = self.sign();
        let text = format!(in alloc; "cannot send {signal} to {sign}{}", self.pid)?;
        Ok(Text::from_string(text))
    }
}

/// The name of a signal. One that asks for a stop is STOP: a group with no terminal hears no TSTP.
pub(crate) fn name_of(signal: ChildSignal) -> &'static str {
    match signal {
        ChildSignal::End(TermSignal::Interrupt) => "INT",
        ChildSignal::End(TermSignal::Term) => "TERM",
        ChildSignal::End(TermSignal::Hangup) => "HUP",
        ChildSignal::End(TermSignal::Quit) => "QUIT",
        ChildSignal::End(TermSignal::Kill) => "KILL",
        ChildSignal::Tstp => "STOP",
        ChildSignal::Cont => "CONT",
    }
}
