// A sink over a writer of std.
ghost use Rattle.std.specs.Prelude.{◌≡◌, ◌≤◌, ◌<◌, length, take, IfOk, OnErr, IfSome};
ghost use Rattle.std.specs.Io.KnownBytes.{Appends};
ghost use Rattle.run_capture.specs.Bytes.{Takes};
ghost use Rattle.run_capture.specs.Faults.{CountsFault};
ghost use Rattle.run_capture.specs.StdStreams.{untold, writer_holds, sink_faults};

use crate::{Failed, Sink};
use std::io::Write;

/// Takes bytes into a writer of std, such as the standard output, and flushes it after each write, which no clause
/// says. As a sink it tells nothing of what it has taken.
#[derive(Drop)]
pub struct StdSink<W: Write> {
    inner: W,
    faults: u64,
}

impl<W: Write> StdSink<W> {
    /// A sink that has not failed.
    pub fn new(inner: W) -> Self
        ensures holds { writer_holds W.contents result ≡ W.contents inner }
        ensures faults { sink_faults result ≡ 0 }
    {
        StdSink { inner, faults: 0 }
    }
}

// Writes a front part of a piece and flushes; nothing where either fails or nothing was taken.
fn write_some<W: Write>(inner: &mut W, piece: &[u8]) -> Option<usize>
    ensures within { IfSome result (λ n. n ≤ length piece.now) }
    ensures some { IfSome result (λ n. 0 < length piece.now → 0 < n) }
    ensures writer { IfSome result (λ n. Appends (W.contents inner.old) (W.contents inner.new) (take n piece.now)) }
{
    let count = inner.write(piece).ok()?;
    if count == 0 && !piece.is_empty() {
        return None;
    }
    inner.flush().ok()?;
    Some(count)
}

impl<W: Write> Sink for StdSink<W> {
    ghost taken = { λ _. untold };

    ghost faults = { sink_faults };

    fn write(&mut self, piece: &[u8]) -> Result<usize, Failed>
        ensures within { IfOk result (λ n. n ≤ length piece.now) }
        ensures some { IfOk result (λ n. 0 < length piece.now → 0 < n) }
        ensures taken { IfOk result (λ n. Takes untold untold (take n piece.now)) }
        ensures err { OnErr result (untold ≡ untold) }
        ensures fault { CountsFault (sink_faults self.old) (sink_faults self.new) result }
        ensures writer { IfOk result (λ n. Appends (writer_holds W.contents self.old) (writer_holds W.contents self.new)
            (take n piece.now)) }
    {
        match write_some(&mut self.inner, piece) {
            Some(count) => Ok(count),
            None => {
                self.faults = self.faults.saturating_add(1);
                Err(Failed)
            }
        }
    }
}
