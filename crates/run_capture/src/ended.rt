// Which streams of a child have ended.
ghost use Rattle.std.specs.Prelude.{◌≡◌};
ghost use Rattle.run_capture.specs.Captured.{has_ended, with_ended};

use crate::Stream;

// Whether each stream has ended, or could not be read on.
#[derive(Clone, Copy)]
pub(crate) struct Ended {
    pub(crate) stdout: bool,
    pub(crate) stderr: bool,
    pub(crate) combined: bool,
}

impl Ended {
    pub(crate) fn has(self, stream: Stream) -> bool
        ensures { result ≡ has_ended self stream }
    {
        match stream {
            Stream::Stdout => self.stdout,
            Stream::Stderr => self.stderr,
            Stream::Combined => self.combined,
        }
    }

    pub(crate) fn with(mut self, stream: Stream) -> Ended
        ensures { result ≡ with_ended self stream }
    {
        match stream {
            Stream::Stdout => self.stdout = true,
            Stream::Stderr => self.stderr = true,
            Stream::Combined => self.combined = true,
        }
        self
    }
}
