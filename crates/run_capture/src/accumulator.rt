// The capture of a child's output.
ghost use Rattle.std.specs.Prelude.{◌≡◌, ◌≢◌, [], IsTrue, IfOk, OnOk, OnErr};
ghost use Rattle.run_capture.specs.Output.{uncaptured, nothing_of, nothing_of_split};
ghost use Rattle.run_capture.specs.Captured.{begun, takes, is_done, read_error, with_piece, with_end, with_error};
ghost use Rattle.run_capture.specs.Captured.{with_wait_error};

use crate::child_output_mut::ChildOutputMut;
use crate::ended::Ended;
use crate::{CaptureStrategy, ChildFdError, ChildOutput, Duplicate, List, Mem, Stream, Text};
use std::alloc::Global;
use std::marker::Model;

/// Joins the pieces of each captured stream of a child, until the stream ends or can't be read on.
pub struct ChildAccumulator {
    output: ChildOutputMut,
    ended: Ended,
    errors: List<ChildFdError>,
}

// A call of its own, which keeps the proofs of all that hold a capture small.
impl Drop for ChildAccumulator {
    fn drop(self) {
        let ChildAccumulator {
            output: _,
            ended: _,
            errors: _,
        } = self;
    }
}

impl Model for ChildAccumulator {
    ghost use Rattle.run_capture.specs.Captured.{Captured};

    ghost Value = { Captured };

    ghost view = { λ a. record { output = a.output; ended = a.ended; errors = a.errors } };
}

fn fd_error(stream: Stream, text: Text) -> ChildFdError
    ensures { result ≡ read_error stream text }
{
    match stream {
        Stream::Stdout => ChildFdError::ReadStdout(text),
        Stream::Stderr => ChildFdError::ReadStderr(text),
        Stream::Combined => ChildFdError::ReadCombined(text),
    }
}

impl ChildAccumulator {
    fn begin(output: ChildOutputMut) -> Self
        ensures { result ≡ begun output }
    {
        ChildAccumulator {
            output,
            ended: Ended {
                stdout: false,
                stderr: false,
                combined: false,
            },
            errors: List::new(),
        }
    }

    /// Captures by a strategy. Where that is none, it is done at once.
    pub fn new(alloc: Global, strategy: CaptureStrategy) -> Mem<Self>
        ensures { IfOk result (λ a. a ≡ begun (nothing_of strategy)) }
    {
        Ok(ChildAccumulator::begin(ChildOutputMut::new(alloc, strategy)))
    }

    /// Captures these of the two streams, each by itself.
    pub fn new_split(alloc: Global, stdout: bool, stderr: bool) -> Mem<Self>
        ensures { IfOk result (λ a. a ≡ begun (nothing_of_split stdout stderr)) }
    {
        Ok(ChildAccumulator::begin(ChildOutputMut::split(alloc, stdout, stderr)))
    }

    /// Captures nothing. Takes no memory.
    pub fn uncaptured() -> Self
        ensures { result ≡ begun uncaptured }
    {
        ChildAccumulator::begin(ChildOutputMut::uncaptured())
    }

    /// Whether a stream is captured and not done. A stream is done at its end or first error.
    pub fn takes(&self, stream: Stream) -> bool
        ensures { result ≡ takes self.now stream }
    {
        self.output.captures(stream) && !self.ended.has(stream)
    }

    /// Adds a piece at the end of its stream.
    pub fn piece(&mut self, alloc: Global, stream: Stream, bytes: &[u8]) -> Mem<()>
        requires taken { IsTrue (takes self.old stream) }
        requires not_empty { bytes.now ≢ [] }
        ensures ok { OnOk result (self.new ≡ with_piece self.old stream bytes.now) }
        ensures err { OnErr result (self.new ≡ self.old) }
    {
        self.output.join(alloc, stream, bytes)
    }

    /// Ends a stream.
    pub fn end(&mut self, stream: Stream)
        requires { IsTrue (takes self.old stream) }
        ensures { self.new ≡ with_end self.old stream }
    {
        self.ended = self.ended.with(stream);
    }

    /// Keeps an error in reading a stream, with its text, and ends the stream.
    pub fn error(&mut self, alloc: Global, stream: Stream, text: Text) -> Mem<()>
        requires { IsTrue (takes self.old stream) }
        ensures ok { OnOk result (self.new ≡ with_error self.old stream text) }
        ensures err { OnErr result (self.new ≡ self.old) }
    {
        self.errors.push(alloc, fd_error(stream, text))?;
        self.end(stream);
        Ok(())
    }

    /// Keeps that the wait for the child failed, with its text. No stream ends by it.
    pub fn wait_error(&mut self, alloc: Global, text: Text) -> Mem<()>
        ensures ok { OnOk result (self.new ≡ with_wait_error self.old text) }
        ensures err { OnErr result (self.new ≡ self.old) }
    {
        self.errors.push(alloc, ChildFdError::Wait(text))
    }

    /// Whether no stream is taken any more.
    pub fn is_done(&self) -> bool
        ensures { result ≡ is_done self.now }
    {
        !(self.takes(Stream::Stdout) || self.takes(Stream::Stderr) || self.takes(Stream::Combined))
    }

    /// The output so far.
    pub fn output(&self) -> &ChildOutputMut
        ensures { result.now ≡ self.now.output }
    {
        &self.output
    }

    /// The errors so far, in order.
    pub fn errors(&self) -> &[ChildFdError]
        ensures { result.now ≡ self.now.errors }
    {
        self.errors.as_slice()
    }

    /// Gives the output and the errors, and takes no memory.
    pub fn freeze(self) -> (ChildOutput, List<ChildFdError>)
        ensures output { result.0 ≡ self.output }
        ensures errors { result.1 ≡ self.errors }
    {
        let ChildAccumulator {
            output,
            ended: _,
            errors,
        } = self;
        (output.freeze(), errors)
    }
}

impl Duplicate for ChildAccumulator {
    fn copy(&self, alloc: Global) -> Mem<ChildAccumulator> {
        let output = self.output.copy(alloc)?;
        let errors = self.errors.copy(alloc)?;
        Ok(ChildAccumulator {
            output,
            ended: self.ended,
            errors,
        })
    }
}
