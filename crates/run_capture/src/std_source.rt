// A source over a reader of std.
ghost use Rattle.std.specs.Prelude.{◌≡◌, ◌≤◌, ◌<◌, length, take, IfOk, OnErr};
ghost use Rattle.std.specs.Io.KnownBytes.{ReadConsumes};
ghost use Rattle.run_capture.specs.Bytes.{Gives, AtEnd};
ghost use Rattle.run_capture.specs.Faults.{CountsFault};
ghost use Rattle.run_capture.specs.StdStreams.{untold, reader_left, source_faults};

use crate::{Failed, Source};
use std::io::Read;

/// Bytes from a reader of std, such as the standard input. As a source it tells nothing of what is left.
#[derive(Drop)]
pub struct StdSource<R: Read> {
    inner: R,
    faults: u64,
}

impl<R: Read> StdSource<R> {
    /// A source that has not failed.
    pub fn new(inner: R) -> Self
        ensures left { reader_left R.remaining result ≡ R.remaining inner }
        ensures faults { source_faults result ≡ 0 }
    {
        StdSource { inner, faults: 0 }
    }
}

impl<R: Read> Source for StdSource<R> {
    ghost left = { λ _. untold };

    ghost faults = { source_faults };

    fn read(&mut self, buf: &mut [u8]) -> Result<usize, Failed>
        ensures within { IfOk result (λ n. n ≤ length buf.new) }
        ensures given { IfOk result (λ n. Gives untold untold (take n buf.new)) }
        ensures end { IfOk result (λ n. 0 < length buf.new → n ≡ 0 → AtEnd untold) }
        ensures err { OnErr result (untold ≡ untold) }
        ensures fault { CountsFault (source_faults self.old) (source_faults self.new) result }
        ensures reader { ReadConsumes (reader_left R.remaining self.old) (reader_left R.remaining self.new)
            result buf.new }
    {
        match self.inner.read(buf) {
            Ok(count) => Ok(count),
            Err(_) => {
                self.faults = self.faults.saturating_add(1);
                Err(Failed)
            }
        }
    }
}
