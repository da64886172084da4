// How a run captures the output of its tests, and what can go wrong at a child's descriptors.
ghost use Rattle.std.specs.Prelude.{◌≡◌};
ghost use Rattle.run_capture.specs.Output.{uncaptured};

use crate::{Blob, Duplicate, Mem, Text};
use std::alloc::Global;

/// How the output of tests is captured.
#[derive(Clone, Copy, Debug, Drop, PartialEq, Eq)]
pub enum CaptureStrategy {
    /// Nothing is captured.
    None,
    /// Standard output and standard error, each by itself.
    Split,
    /// Both as one stream.
    Combined,
}

impl Duplicate for CaptureStrategy {
    fn copy(&self, _alloc: Global) -> Mem<CaptureStrategy> {
        Ok(*self)
    }
}

/// A stream of a child's output.
#[derive(Clone, Copy, Debug, Drop, PartialEq, Eq)]
pub enum Stream {
    Stdout,
    Stderr,
    /// Standard output and standard error in one.
    Combined,
}

impl Duplicate for Stream {
    fn copy(&self, _alloc: Global) -> Mem<Stream> {
        Ok(*self)
    }
}

/// A fault at a child's descriptors, or of the wait for it, with the text of its error.
#[derive(Debug, Drop)]
pub enum ChildFdError {
    /// Reading standard output failed.
    ReadStdout(Text),
    /// Reading standard error failed.
    ReadStderr(Text),
    /// Reading the combined stream failed.
    ReadCombined(Text),
    /// Waiting for the child failed.
    Wait(Text),
}

impl Duplicate for ChildFdError {
    fn copy(&self, alloc: Global) -> Mem<ChildFdError> {
        match self {
            ChildFdError::ReadStdout(text) => Ok(ChildFdError::ReadStdout(text.copy(alloc)?)),
            ChildFdError::ReadStderr(text) => Ok(ChildFdError::ReadStderr(text.copy(alloc)?)),
            ChildFdError::ReadCombined(text) => Ok(ChildFdError::ReadCombined(text.copy(alloc)?)),
            ChildFdError::Wait(text) => Ok(ChildFdError::Wait(text.copy(alloc)?)),
        }
    }
}

/// What a child wrote to its two streams, each where it was captured.
#[derive(Debug, Drop)]
pub struct ChildSplitOutput {
    pub stdout: Option<Blob>,
    pub stderr: Option<Blob>,
}

impl Duplicate for ChildSplitOutput {
    fn copy(&self, alloc: Global) -> Mem<ChildSplitOutput> {
        Ok(ChildSplitOutput {
            stdout: self.stdout.copy(alloc)?,
            stderr: self.stderr.copy(alloc)?,
        })
    }
}

/// What a child wrote.
#[derive(Debug)]
pub enum ChildOutput {
    /// Each stream by itself.
    Split(ChildSplitOutput),
    /// Both streams in one.
    Combined { output: Blob },
}

// A call of its own, which keeps the proofs of all that hold an output small.
impl Drop for ChildOutput {
    fn drop(self) {
        match self {
            ChildOutput::Split(_) => {}
            ChildOutput::Combined { output: _ } => {}
        }
    }
}

impl ChildOutput {
    /// The output of a child of which no stream is captured. Takes no memory.
    pub fn uncaptured() -> ChildOutput
        ensures { result ≡ uncaptured }
    {
        ChildOutput::Split(ChildSplitOutput {
            stdout: None,
            stderr: None,
        })
    }
}

impl Duplicate for ChildOutput {
    fn copy(&self, alloc: Global) -> Mem<ChildOutput> {
        match self {
            ChildOutput::Split(split) => Ok(ChildOutput::Split(split.copy(alloc)?)),
            ChildOutput::Combined { output } => Ok(ChildOutput::Combined {
                output: output.copy(alloc)?,
            }),
        }
    }
}
