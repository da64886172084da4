// A keeper whose children are given.
ghost use Rattle.std.specs.Prelude.{◌≡◌, [], IfOk, IfSome, IsNone, Some, None};

use crate::{Heard, Keeper, Sent};
use run_capture::{Boxed, Duplicate, List, Mem, Text};
use run_commands::EnvInput;
use run_drive::{Begun, Said};
use run_events::{SignalAsk, StartAsk};
use std::alloc::Global;

/// A word of a child, said once it was looked for so often since the last word, and so many signals were sent.
#[derive(Drop)]
pub struct Line {
    pub looks: u32,
    pub signals: u32,
    pub said: Said,
}

/// A child: how its start is answered, what it writes, how it ends, and its environment file.
#[derive(Drop)]
pub struct Child {
    pub begun: Begun,
    pub writes: List<Line>,
    pub end: Line,
    pub env: EnvInput,
    /// Whether its signals can't be sent.
    pub refuses: bool,
}

/// A keeper in memory: its children are given, and what it heard is kept. With none left it refuses a start with the
/// text `end`. It never waits.
#[derive(Drop)]
pub struct MemoryKeeper {
    children: List<Child>,
    /// How many children were started, and how many lines of the last one were said.
    started: usize,
    at: usize,
    has_ended: bool,
    looks: u32,
    signals: u32,
    /// How often a child was killed at the end.
    ends: u32,
    offered: Option<Said>,
    heard: List<Heard>,
}

const NO_CHILD: &str = "end";

// Whether a line is due after so many looks and signals.
fn is_due(line: &Line, looks: u32, signals: u32) -> bool {
    line.looks <= looks && line.signals <= signals
}

// How a start is answered.
fn answer(alloc: Global, child: Option<&Child>) -> Mem<Begun> {
    match child {
        Some(child) => child.begun.copy(alloc),
        None => Ok(Begun::Refused {
            error: Boxed::new(alloc, Text::from_str(alloc, NO_CHILD)?)?,
        }),
    }
}

// What comes of a signal to a child.
fn answer_signal(alloc: Global, child: Option<&Child>) -> Mem<Sent> {
    match child {
        Some(child) if child.refuses => Ok(Sent::Failed {
            error: Text::from_str(alloc, NO_CHILD)?,
        }),
        Some(_) => Ok(Sent::Sent),
        None => Ok(Sent::Gone),
    }
}

impl MemoryKeeper {
    /// A keeper that was asked for nothing.
    pub fn new(children: List<Child>) -> Self
        ensures { result.heard ≡ [] }
    {
        MemoryKeeper {
            children,
            started: 0,
            at: 0,
            has_ended: true,
            looks: 0,
            signals: 0,
            ends: 0,
            offered: None,
            heard: List::new(),
        }
    }

    /// What it was asked, was told and has said, oldest first.
    pub fn heard(&self) -> &[Heard]
        ensures { result.now ≡ self.now.heard }
    {
        self.heard.as_slice()
    }

    /// How often a child was killed at the end.
    pub fn ends(&self) -> u32
        ensures { result ≡ self.now.ends }
    {
        self.ends
    }

    // The child that was started last.
    fn child(&self) -> Option<&Child> {
        self.children.get(self.started.wrapping_sub(1))
    }

    // A copy of the line that is due, if one is.
    fn due(&self, alloc: Global, reads: bool) -> Mem<Option<Said>> {
        let Some(child) = self.child() else {
            return Ok(None);
        };
        if reads {
            if let Some(line) = child.writes.get(self.at) {
                if is_due(line, self.looks, self.signals) {
                    return Ok(Some(line.said.copy(alloc)?));
                }
            }
        }
        if !self.has_ended && is_due(&child.end, self.looks, self.signals) {
            return Ok(Some(child.end.said.copy(alloc)?));
        }
        Ok(None)
    }
}

impl Keeper for MemoryKeeper {
    ghost has_heard = { λ s xs. s.heard ≡ xs };

    ghost offers = { λ s said. s.offered ≡ Some said };

    fn start(&mut self, alloc: Global, ask: &StartAsk) -> Mem<Begun> {
        let begun = answer(alloc, self.children.get(self.started))?;
        let copy = begun.copy(alloc)?;
        let start = ask.copy(alloc)?;
        self.heard.push(alloc, Heard::Asked { start, begun: copy })?;
        self.started = self.started.saturating_add(1);
        self.at = 0;
        self.has_ended = false;
        self.looks = 0;
        self.signals = 0;
        self.offered = None;
        Ok(begun)
    }

    fn offer(&mut self, alloc: Global, reads: bool) -> Mem<Option<Said>> {
        let due = self.due(alloc, reads)?;
        let Some(said) = due else {
            self.looks = self.looks.saturating_add(1);
            return Ok(None);
        };
        let copy = said.copy(alloc)?;
        self.offered = Some(copy);
        Ok(Some(said))
    }

    fn accept(&mut self, alloc: Global) -> Mem<()> {
        let Some(said) = self.offered.take() else {
            return Ok(());
        };
        let ends = matches!(said, Said::Exit { .. } | Said::WaitFailed { .. });
        self.heard.push(alloc, Heard::Spoke { said })?;
        self.looks = 0;
        if ends {
            self.has_ended = true;
        } else {
            self.at = self.at.saturating_add(1);
        }
        Ok(())
    }

    fn read_env(&mut self, alloc: Global) -> Mem<EnvInput> {
        let input = match self.child() {
            Some(child) => child.env.copy(alloc)?,
            None => EnvInput::OpenFailed,
        };
        let said = Said::Env {
            input: input.copy(alloc)?,
        };
        self.heard.push(alloc, Heard::Spoke { said })?;
        Ok(input)
    }

    fn send(&mut self, alloc: Global, ask: &SignalAsk) -> Mem<Sent> {
        let sent = answer_signal(alloc, self.child())?;
        let copy = sent.copy(alloc)?;
        self.heard.push(
            alloc,
            Heard::Told {
                ask: *ask,
                sent: copy,
            },
        )?;
        self.signals = self.signals.saturating_add(1);
        Ok(sent)
    }

    fn miss(&mut self, alloc: Global, ask: &SignalAsk) -> Mem<()> {
        self.heard.push(alloc, Heard::Late { ask: *ask })
    }

    fn end(&mut self) {
        if !self.has_ended {
            self.has_ended = true;
            self.ends = self.ends.saturating_add(1);
        }
    }
}
