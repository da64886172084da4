// Outputs of children as they are shown.
ghost use Rattle.std.specs.Prelude.{◌≡◌, ◌≤◌, ◌++◌, ◌∷◌, [], ℕ, OnErr, OnOk, IfOk, length};
ghost use Rattle.run_report.specs.Indent.{indented_after, last_byte, output_end, output_shown};
ghost use Rattle.run_report.specs.Took.{TookPart};
ghost use Rattle.run_events.specs.Counts.{CountsRefusal};

use run_capture::{Failed, Mem, Sink, write_all};
use run_events::ReportFault;
use std::alloc::Global;

/// So many bytes are indented at a time.
const MOST: usize = 16_384;

// Adds a byte, indented where it begins a line.
fn push_byte(buffer: &mut Vec<u8>, before: u8, byte: u8) -> Mem<()>
    ensures { OnOk result (buffer.new.items ≡ buffer.old.items ++ indented_after before (byte ∷ [])) }
{
    if before == b'\n' {
        buffer.extend_from_slice(b"    ")?;
    }
    buffer.push(byte)?;
    Ok(())
}

// Adds bytes, of which each line is indented, and answers the last of them.
fn push_indented(buffer: &mut Vec<u8>, before: u8, bytes: &[u8]) -> Mem<u8>
    ensures items { IfOk result (λ _. buffer.new.items ≡ buffer.old.items ++ indented_after before bytes.now) }
    ensures last { IfOk result (λ last. last ≡ last_byte before bytes.now) }
{
    let mut last = before;
    for byte in bytes {
        push_byte(buffer, last, *byte)?;
        last = *byte;
    }
    Ok(last)
}

/// Writes bytes.
pub(crate) fn write_bytes<K: Sink>(sink: &mut K, bytes: &[u8]) -> Result<(), ReportFault<Failed>>
    ensures took { TookPart (K.taken sink.old) (K.taken sink.new) bytes.now result }
    ensures fault { CountsRefusal (K.faults sink.old) (K.faults sink.new) result }
{
    match write_all(sink, bytes) {
        Ok(()) => Ok(()),
        Err(failed) => Err(ReportFault::Refused(failed)),
    }
}

// The bytes, of which each line is indented, behind this one, and the last of them.
fn indented(alloc: Global, before: u8, bytes: &[u8]) -> Mem<(Vec<u8>, u8)>
    ensures items { IfOk result (λ both. both.0.items ≡ indented_after before bytes.now) }
    ensures last { IfOk result (λ both. both.1 ≡ last_byte before bytes.now) }
{
    let mut buffer = Vec::with_capacity(alloc, bytes.len())?;
    let last = push_indented(&mut buffer, before, bytes)?;
    Ok((buffer, last))
}

// Writes bytes, of which each line is indented, behind this one, and answers the last of them.
fn write_some<K: Sink>(
    alloc: Global,
    sink: &mut K,
    before: u8,
    bytes: &[u8],
) -> Result<u8, ReportFault<Failed>>
    ensures took { TookPart (K.taken sink.old) (K.taken sink.new) (indented_after before bytes.now) result }
    ensures fault { CountsRefusal (K.faults sink.old) (K.faults sink.new) result }
    ensures last { IfOk result (λ last. last ≡ last_byte before bytes.now) }
{
    match indented(alloc, before, bytes) {
        Ok((buffer, last)) => {
            write_bytes(sink, buffer.as_slice())?;
            Ok(last)
        }
        Err(_) => Err(ReportFault::OutOfMemory),
    }
}

// What stands behind an output that ends with this byte.
fn output_end(last: u8) -> &'static [u8]
    ensures { result.now ≡ output_end last }
{
    if last == b'\n' { b"\n" } else { b"\n\n" }
}

/// Writes an output, some of it at a time.
pub(crate) fn write_output<K: Sink>(
    alloc: Global,
    sink: &mut K,
    output: &[u8],
) -> Result<(), ReportFault<Failed>>
    ensures took { TookPart (K.taken sink.old) (K.taken sink.new) (output_shown output.now) result }
    ensures fault { CountsRefusal (K.faults sink.old) (K.faults sink.new) result }
{
    let mut at = 0;
    let mut last = b'\n';
    while at < output.len() {
        let end = at + (output.len() - at).min(MOST);
        match write_some(alloc, sink, last, &output[at..end]) {
            Ok(next) => last = next,
            Err(fault) => return Err(fault),
        }
        at = end;
    }
    write_bytes(sink, output_end(last))
}
