// A line to be written, whose long outputs are bytes until then.
ghost use Rattle.std.specs.Prelude.{◌≡◌, ◌≤◌, ◌<◌, ◌++◌, ℕ, length, take, IfOk, OnOk, OnErr};
ghost use Rattle.hex.specs.Hex.{encode_lower};
ghost use Rattle.run_capture.specs.Bytes.{Takes};
ghost use Rattle.run_capture.specs.Faults.{CountsFault};
ghost use Rattle.run_output.specs.Fronts.{fronts_text, AreLong};

use crate::gathered::Gathered;
use run_capture::{Blob, Failed, Mem, OutOfMemory, Sink, write_all};
use std::alloc::Global;
use std::marker::Model;

/// So many bytes are turned to hex at a time.
const MOST: usize = 2048;

/// A line, which contracts see as its bytes.
#[derive(Drop)]
pub(crate) struct Line {
    /// Texts, each with the output whose hex stands after it.
    pub(crate) fronts: Vec<(Vec<u8>, Blob)>,
    pub(crate) last: Vec<u8>,
}

impl Model for Line {
    ghost use Rattle.std.specs.Prelude.{List, ℕ};
    ghost use Rattle.run_output.specs.Fronts.{line_text, IsLong};

    ghost Value = { List ℕ };

    ghost view = { λ l. line_text l.fronts.items l.last.items };

    ghost invariant = { λ l. IsLong l.fronts.items l.last.items };
}

// Writes the hex of a few bytes.
fn write_few<K: Sink>(sink: &mut K, bytes: &[u8]) -> Result<(), Failed>
    requires { length bytes.now ≤ 2048 }
    ensures ok { OnOk result (Takes (K.taken sink.old) (K.taken sink.new) (encode_lower bytes.now)) }
    ensures err { OnErr result ((n : ℕ) × (n < length (encode_lower bytes.now))
        × Takes (K.taken sink.old) (K.taken sink.new) (take n (encode_lower bytes.now))) }
    ensures fault { CountsFault (K.faults sink.old) (K.faults sink.new) result }
{
    let mut buffer = [0; 4096];
    let hex = &mut buffer[..2 * bytes.len()];
    hex::encode_to_slice(bytes, hex).unwrap();
    write_all(sink, hex)
}

// Writes the hex of bytes.
fn write_hex<K: Sink>(sink: &mut K, bytes: &[u8]) -> Result<(), Failed>
    ensures ok { OnOk result (Takes (K.taken sink.old) (K.taken sink.new) (encode_lower bytes.now)) }
    ensures err { OnErr result ((n : ℕ) × (n < length (encode_lower bytes.now))
        × Takes (K.taken sink.old) (K.taken sink.new) (take n (encode_lower bytes.now))) }
    ensures fault { CountsFault (K.faults sink.old) (K.faults sink.new) result }
{
    let mut at = 0;
    while at < bytes.len() {
        let end = at + (bytes.len() - at).min(MOST);
        write_few(sink, &bytes[at..end])?;
        at = end;
    }
    Ok(())
}

// Writes a text and the hex of the output after it.
fn write_front<K: Sink>(sink: &mut K, text: &[u8], output: &[u8]) -> Result<(), Failed>
    ensures ok { OnOk result (Takes (K.taken sink.old) (K.taken sink.new) (text.now ++ encode_lower output.now)) }
    ensures err { OnErr result ((n : ℕ) × (n < length (text.now ++ encode_lower output.now))
        × Takes (K.taken sink.old) (K.taken sink.new) (take n (text.now ++ encode_lower output.now))) }
    ensures fault { CountsFault (K.faults sink.old) (K.faults sink.new) result }
{
    write_all(sink, text)?;
    write_hex(sink, output)
}

// Writes all but the last text.
fn write_fronts<K: Sink>(sink: &mut K, fronts: &[(Vec<u8>, Blob)]) -> Result<(), Failed>
    requires { AreLong 0 fronts.now }
    ensures ok { OnOk result (Takes (K.taken sink.old) (K.taken sink.new) (fronts_text 0 fronts.now)) }
    ensures err { OnErr result ((n : ℕ) × (n < length (fronts_text 0 fronts.now))
        × Takes (K.taken sink.old) (K.taken sink.new) (take n (fronts_text 0 fronts.now))) }
    ensures fault { CountsFault (K.faults sink.old) (K.faults sink.new) result }
{
    let mut start = 0;
    for (text, output) in fronts {
        write_front(sink, &text[start..text.len() - 1], output.as_slice())?;
        start = 1;
    }
    Ok(())
}

impl Line {
    /// Writes it, with no allocation. After an error a front part of it went out, and not all.
    pub(crate) fn write_to<K: Sink>(&self, sink: &mut K) -> Result<(), Failed>
        ensures ok { OnOk result (Takes (K.taken sink.old) (K.taken sink.new) self.now) }
        ensures err { OnErr result ((n : ℕ) × (n < length self.now)
            × Takes (K.taken sink.old) (K.taken sink.new) (take n self.now)) }
        ensures fault { CountsFault (K.faults sink.old) (K.faults sink.new) result }
    {
        if self.fronts.is_empty() {
            return write_all(sink, &self.last);
        }
        write_fronts(sink, &self.fronts)?;
        write_all(sink, &self.last[1..])
    }

    /// Its bytes, in one piece.
    pub(crate) fn into_bytes(self, alloc: Global) -> Mem<Vec<u8>>
        ensures { IfOk result (λ bytes. bytes.items ≡ self) }
    {
        let mut gathered = Gathered::new(alloc);
        match self.write_to(&mut gathered) {
            Ok(()) => Ok(gathered.into_bytes()),
            Err(Failed) => Err(OutOfMemory),
        }
    }
}
