// The output of a child while it is captured.
ghost use Rattle.std.specs.Prelude.{◌≡◌, length, option_map, IfOk, OnOk, OnErr};
ghost use Rattle.run_capture.specs.Output.{uncaptured, nothing_where, nothing_of, nothing_of_split, is_captured};
ghost use Rattle.run_capture.specs.Output.{joined, with_bytes, lengths_of};

use crate::{Blob, CaptureStrategy, ChildOutput, ChildSplitOutput, Duplicate, Mem, Stream};
use std::alloc::Global;
use std::marker::Model;

/// The output of a child so far. Contracts see it as a `ChildOutput`.
#[derive(Drop)]
pub struct ChildOutputMut {
    output: ChildOutput,
}

impl Model for ChildOutputMut {
    ghost use Rattle.run_capture.specs.declared.test_output.ChildOutput.{ChildOutput};

    ghost Value = { ChildOutput };

    ghost view = { λ o. o.output };
}

// No bytes, where the stream is captured.
fn empty_where(alloc: Global, captured: bool) -> Option<Blob>
    ensures { result ≡ nothing_where captured }
{
    if captured {
        Some(Blob::new(alloc))
    } else {
        None
    }
}

// Adds bytes to a stream that is captured.
fn extend(alloc: Global, stream: &mut Option<Blob>, bytes: &[u8]) -> Mem<()>
    ensures ok { OnOk result (stream.new ≡ joined stream.old bytes.now) }
    ensures err { OnErr result (stream.new ≡ stream.old) }
{
    match stream {
        Some(blob) => blob.extend_from_slice(alloc, bytes),
        None => Ok(()),
    }
}

fn len_of(stream: &Option<Blob>) -> Option<u64>
    ensures { result ≡ option_map length stream.now }
{
    match stream {
        Some(blob) => Some(blob.len() as u64),
        None => None,
    }
}

impl ChildOutputMut {
    pub(crate) fn split(alloc: Global, stdout: bool, stderr: bool) -> ChildOutputMut
        ensures { result ≡ nothing_of_split stdout stderr }
    {
        ChildOutputMut {
            output: ChildOutput::Split(ChildSplitOutput {
                stdout: empty_where(alloc, stdout),
                stderr: empty_where(alloc, stderr),
            }),
        }
    }

    pub(crate) fn new(alloc: Global, strategy: CaptureStrategy) -> ChildOutputMut
        ensures { result ≡ nothing_of strategy }
    {
        match strategy {
            CaptureStrategy::None => ChildOutputMut::split(alloc, false, false),
            CaptureStrategy::Split => ChildOutputMut::split(alloc, true, true),
            CaptureStrategy::Combined => ChildOutputMut {
                output: ChildOutput::Combined {
                    output: Blob::new(alloc),
                },
            },
        }
    }

    // Captures nothing.
    pub(crate) fn uncaptured() -> ChildOutputMut
        ensures { result ≡ uncaptured }
    {
        ChildOutputMut {
            output: ChildOutput::uncaptured(),
        }
    }

    // Whether a stream is captured.
    pub(crate) fn captures(&self, stream: Stream) -> bool
        ensures { result ≡ is_captured self.now stream }
    {
        match &self.output {
            ChildOutput::Split(split) => match stream {
                Stream::Stdout => split.stdout.is_some(),
                Stream::Stderr => split.stderr.is_some(),
                Stream::Combined => false,
            },
            ChildOutput::Combined { output: _ } => matches!(stream, Stream::Combined),
        }
    }

    // Adds a piece of a stream.
    pub(crate) fn join(&mut self, alloc: Global, stream: Stream, bytes: &[u8]) -> Mem<()>
        ensures ok { OnOk result (self.new ≡ with_bytes self.old stream bytes.now) }
        ensures err { OnErr result (self.new ≡ self.old) }
    {
        match &mut self.output {
            ChildOutput::Split(split) => match stream {
                Stream::Stdout => extend(alloc, &mut split.stdout, bytes),
                Stream::Stderr => extend(alloc, &mut split.stderr, bytes),
                Stream::Combined => Ok(()),
            },
            ChildOutput::Combined { output } => match stream {
                Stream::Combined => output.extend_from_slice(alloc, bytes),
                _ => Ok(()),
            },
        }
    }

    /// Copies the output so far. The capture goes on.
    pub fn snapshot(&self, alloc: Global) -> Mem<ChildOutput>
        ensures { IfOk result (λ output. output ≡ self.now) }
    {
        self.output.copy(alloc)
    }

    /// Gives the output, and takes no memory.
    pub fn freeze(self) -> ChildOutput
        ensures { result ≡ self }
    {
        self.output
    }

    /// The numbers of bytes of standard output and standard error, each where it is captured. Of combined output the
    /// first is its number of bytes, and the second is none.
    pub fn stdout_stderr_len(&self) -> (Option<u64>, Option<u64>)
        ensures { result ≡ lengths_of self.now }
    {
        match &self.output {
            ChildOutput::Split(split) => (len_of(&split.stdout), len_of(&split.stderr)),
            ChildOutput::Combined { output } => (Some(output.len() as u64), None),
        }
    }
}

impl Duplicate for ChildOutputMut {
    fn copy(&self, alloc: Global) -> Mem<ChildOutputMut> {
        let output = self.snapshot(alloc)?;
        Ok(ChildOutputMut { output })
    }
}
