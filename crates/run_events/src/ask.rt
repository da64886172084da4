// What the outside is asked to do.
use crate::copies::both;
use crate::{ChildSignal, Variables};
use run_capture::{Boxed, Duplicate, List, Mem, Stream, Text};
use std::alloc::Global;

/// A child is to be started.
pub struct StartAsk {
    pub unit: u32,
    /// Which attempt, from 1.
    pub attempt: u32,
    /// The program and its arguments.
    pub command: List<Text>,
    /// The variables that it gets, in order.
    pub env: Variables,
    /// Whether it gets a process group of its own.
    pub group: bool,
    /// Whether it keeps the program's standard input.
    pub stdin: bool,
    /// The captured streams, in the order standard output, standard error, combined. Not printed.
    pub streams: List<Stream>,
    /// Where a script writes the variables that it hands on; none of a test. Not printed.
    pub env_path: Option<Text>,
}

// A call of its own, which keeps the proofs of all that hold an ask small.
impl Drop for StartAsk {
    fn drop(self) {
        let StartAsk {
            unit: _,
            attempt: _,
            command: _,
            env: _,
            group: _,
            stdin: _,
            streams: _,
            env_path: _,
        } = self;
    }
}

impl Duplicate for StartAsk {
    fn copy(&self, alloc: Global) -> Mem<StartAsk> {
        let outside = both(self.env_path.copy(alloc), self.streams.copy(alloc));
        let program = both(self.command.copy(alloc), self.env.copy(alloc));
        let ((env_path, streams), (command, env)) = both(outside, program)?;
        Ok(StartAsk {
            unit: self.unit,
            attempt: self.attempt,
            command,
            env,
            group: self.group,
            stdin: self.stdin,
            streams,
            env_path,
        })
    }
}

/// A signal is to be sent to a unit's child, or to its process group.
#[derive(Clone, Copy, Drop)]
pub struct SignalAsk {
    pub unit: u32,
    pub signal: ChildSignal,
    pub group: bool,
}

/// A request to the outside.
#[derive(Drop)]
pub enum Ask {
    Start(Boxed<StartAsk>),
    Signal(SignalAsk),
    /// The runner itself is to stop.
    StopSelf,
}

impl Duplicate for Ask {
    fn copy(&self, alloc: Global) -> Mem<Ask> {
        match self {
            Ask::Start(ask) => Ok(Ask::Start(ask.copy(alloc)?)),
            Ask::Signal(ask) => Ok(Ask::Signal(*ask)),
            Ask::StopSelf => Ok(Ask::StopSelf),
        }
    }
}
