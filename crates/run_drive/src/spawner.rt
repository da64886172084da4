// Who starts children, and tells what they do.
ghost use Rattle.std.specs.Prelude.{◌≡◌, List, [], ◌∷◌, ◌++◌, IfOk, OnErr};
ghost use Rattle.run_drive.specs.Heard.{begun_turn, said_turn};

use run_capture::{Blob, Boxed, Duplicate, Mem, Stream, Text};
use run_commands::EnvInput;
use run_events::{ChildExit, StartAsk, Turn};
use std::alloc::Global;

/// How a start was answered.
pub enum Begun {
    /// The child started, with this process id.
    Started { pid: u32 },
    /// It could not be started.
    Refused { error: Boxed<Text> },
}

/// What a child said.
pub enum Said {
    /// It wrote to a captured stream.
    Piece { stream: Stream, bytes: Blob },
    /// A captured stream ended.
    End { stream: Stream },
    /// Reading a captured stream failed.
    ReadError { stream: Stream, error: Boxed<Text> },
    /// It ended.
    Exit { exit: ChildExit },
    /// The wait for it failed.
    WaitFailed { error: Boxed<Text> },
    /// Its environment file was read, or could not be. Only a script's child has one.
    Env { input: EnvInput },
}

// A call of its own, which keeps the proofs of all that hold an answer small.
impl Drop for Begun {
    fn drop(self) {
        match self {
            Begun::Started { pid: _ } => {}
            Begun::Refused { error: _ } => {}
        }
    }
}

// The same for a word.
impl Drop for Said {
    fn drop(self) {
        match self {
            Said::Piece {
                stream: _,
                bytes: _,
            } => {}
            Said::End { stream: _ } => {}
            Said::ReadError {
                stream: _,
                error: _,
            } => {}
            Said::Exit { exit: _ } => {}
            Said::WaitFailed { error: _ } => {}
            Said::Env { input: _ } => {}
        }
    }
}

impl Begun {
    /// The turn of how a unit's start was answered.
    pub fn into_turn(self, unit: u32) -> Turn
        ensures { result ≡ begun_turn unit self }
    {
        match self {
            Begun::Started { pid } => Turn::Started { unit, pid },
            Begun::Refused { error } => Turn::StartFailed { unit, error },
        }
    }
}

impl Said {
    /// The turn of what a unit's child said.
    pub fn into_turn(self, unit: u32) -> Turn
        ensures { result ≡ said_turn unit self }
    {
        match self {
            Said::Piece { stream, bytes } => Turn::Piece {
                unit,
                stream,
                bytes,
            },
            Said::End { stream } => Turn::StreamEnd { unit, stream },
            Said::ReadError { stream, error } => Turn::ReadError {
                unit,
                stream,
                error,
            },
            Said::Exit { exit } => Turn::Exit { unit, exit },
            Said::WaitFailed { error } => Turn::WaitFailed { unit, error },
            Said::Env { input } => Turn::Env { unit, input },
        }
    }
}

impl Duplicate for Begun {
    fn copy(&self, alloc: Global) -> Mem<Begun> {
        match self {
            Begun::Started { pid } => Ok(Begun::Started { pid: *pid }),
            Begun::Refused { error } => Ok(Begun::Refused {
                error: error.copy(alloc)?,
            }),
        }
    }
}

impl Duplicate for Said {
    fn copy(&self, alloc: Global) -> Mem<Said> {
        match self {
            Said::Piece { stream, bytes } => Ok(Said::Piece {
                stream: *stream,
                bytes: bytes.copy(alloc)?,
            }),
            Said::End { stream } => Ok(Said::End { stream: *stream }),
            Said::ReadError { stream, error } => Ok(Said::ReadError {
                stream: *stream,
                error: error.copy(alloc)?,
            }),
            Said::Exit { exit } => Ok(Said::Exit { exit: *exit }),
            Said::WaitFailed { error } => Ok(Said::WaitFailed {
                error: error.copy(alloc)?,
            }),
            Said::Env { input } => Ok(Said::Env {
                input: input.copy(alloc)?,
            }),
        }
    }
}

/// What a spawner was asked, and what it said. No value of it is made.
pub enum Heard {
    Asked { start: StartAsk, begun: Begun },
    Spoke { said: Said },
}

/// A spawner: it starts one child at a time, and tells what that child does. What it was asked and what it said needn't
/// be kept: that it is a list is a relation.
pub trait Spawner {
    ghost use Rattle.run_drive.specs.declared.spawner.Heard.{Heard};

    /// It was asked and has said this list, oldest first.
    ghost has_said: { Self → List Heard → Type 0 };

    /// Starts a child.
    fn start(&mut self, alloc: Global, ask: &StartAsk) -> Mem<Begun>
        ensures asked { IfOk result (λ begun. (xs : List Heard) → has_said self.old xs
            → has_said self.new (xs ++ Heard.Asked ask.now begun ∷ [])) }
        ensures not_asked { OnErr result ((xs : List Heard) → has_said self.old xs → has_said self.new xs) };

    /// Waits for the next thing that the child does.
    fn next(&mut self, alloc: Global) -> Mem<Said>
        ensures said { IfOk result (λ said. (xs : List Heard) → has_said self.old xs
            → has_said self.new (xs ++ Heard.Spoke said ∷ [])) }
        ensures not_said { OnErr result ((xs : List Heard) → has_said self.old xs → has_said self.new xs) };
}
