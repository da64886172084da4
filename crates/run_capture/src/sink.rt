// Where bytes go to.
ghost use Rattle.std.specs.Prelude.{◌≡◌, ◌≤◌, ◌<◌, List, ℕ, Option, length, take, IfOk, OnErr, OnOk};
ghost use Rattle.run_capture.specs.Bytes.{Takes};
ghost use Rattle.run_capture.specs.Faults.{CountsFault};

use crate::Failed;

/// A sink of bytes.
pub trait Sink {
    /// The bytes that it has taken, where the sink tells them.
    ghost taken: { Self → Option (List ℕ) };

    /// How often it has failed.
    ghost faults: { Self → ℕ };

    /// Writes a front part of a piece, and answers its length: never 0 of a piece that isn't empty.
    fn write(&mut self, piece: &[u8]) -> Result<usize, Failed>
        ensures within { IfOk result (λ n. n ≤ length piece.now) }
        ensures some { IfOk result (λ n. 0 < length piece.now → 0 < n) }
        ensures taken { IfOk result (λ n. Takes (taken self.old) (taken self.new) (take n piece.now)) }
        ensures err { OnErr result (taken self.new ≡ taken self.old) }
        ensures fault { CountsFault (faults self.old) (faults self.new) result };
}

/// Writes a whole piece. After an error a front part of it went out, and not all.
pub fn write_all<K: Sink>(sink: &mut K, piece: &[u8]) -> Result<(), Failed>
    ensures ok { OnOk result (Takes (K.taken sink.old) (K.taken sink.new) piece.now) }
    ensures err { OnErr result ((n : ℕ) × (n < length piece.now)
        × Takes (K.taken sink.old) (K.taken sink.new) (take n piece.now)) }
    ensures fault { CountsFault (K.faults sink.old) (K.faults sink.new) result }
{
    let mut at = 0;
    while at < piece.len() {
        let n = sink.write(&piece[at..])?;
        at += n;
    }
    Ok(())
}
