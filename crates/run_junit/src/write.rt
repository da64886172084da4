// A document on its way to a sink, some of it at a time.
ghost use Rattle.std.specs.Prelude.{◌≡◌, ◌++◌, [], length, string_bytes, List, ℕ, IfOk, OnOk};
ghost use Rattle.std.specs.Str.{chars};
ghost use Rattle.run_capture.specs.Bytes.{Takes};
ghost use Rattle.run_events.specs.Counts.{CountsRefusal};
ghost use Rattle.run_junit.specs.declared.escape.Place.TheVariants.{Body};
ghost use Rattle.run_junit.specs.Escape.{after_all, body_text, char_shown, shown_chars};
ghost use Rattle.run_junit.specs.Page.{part_bytes, parts_bytes};
ghost use Rattle.run_junit.specs.Put.{Puts, cases_bytes, chunk_text, heard_bytes, suite_bytes, suites_bytes};

use crate::escape::{Place, Sequence, push_char};
use crate::heads::{document_open, run_end, suite_end, suite_start};
use crate::heard::Heard;
use crate::page::{Page, Part};
use crate::suites::Kept;
use run_capture::{Failed, Mem, Sink, write_all};
use run_events::ReportFault;
use std::alloc::Global;

/// So many bytes are written at a time, and a few more.
const MOST: usize = 16_384;

// Writes what stands in a buffer.
fn flush<K: Sink>(sink: &mut K, buffer: &mut String) -> Result<(), ReportFault<Failed>>
    ensures puts { OnOk result (Puts (K.taken sink.old) (K.taken sink.new) (string_bytes buffer.old)
        (string_bytes buffer.new) []) }
    ensures empty { OnOk result (string_bytes buffer.new ≡ []) }
    ensures fault { CountsRefusal (K.faults sink.old) (K.faults sink.new) result }
{
    match write_all(sink, buffer.as_str().as_bytes()) {
        Ok(()) => {
            buffer.clear();
            Ok(())
        }
        Err(failed) => Err(ReportFault::Refused(failed)),
    }
}

// Writes what stands in a buffer, where it is much.
fn drain<K: Sink>(sink: &mut K, buffer: &mut String) -> Result<(), ReportFault<Failed>>
    ensures puts { OnOk result (Puts (K.taken sink.old) (K.taken sink.new) (string_bytes buffer.old)
        (string_bytes buffer.new) []) }
    ensures fault { CountsRefusal (K.faults sink.old) (K.faults sink.new) result }
{
    if buffer.len() < MOST {
        return Ok(());
    }
    flush(sink, buffer)
}

// Puts a character of an output, where an escape sequence is so far.
fn put_char<K: Sink>(
    sink: &mut K,
    buffer: &mut String,
    at: Sequence,
    c: char,
) -> Result<(), ReportFault<Failed>>
    ensures puts { OnOk result (Puts (K.taken sink.old) (K.taken sink.new) (string_bytes buffer.old)
        (string_bytes buffer.new) (char_shown Body at c)) }
    ensures fault { CountsRefusal (K.faults sink.old) (K.faults sink.new) result }
{
    match push_char(buffer, Place::Body, at, c) {
        Ok(()) => drain(sink, buffer),
        Err(_) => Err(ReportFault::OutOfMemory),
    }
}

// Puts characters of an output, and answers how far an escape sequence is behind them.
fn put_chars<K: Sink>(
    sink: &mut K,
    buffer: &mut String,
    at: Sequence,
    text: &str,
) -> Result<Sequence, ReportFault<Failed>>
    ensures puts { OnOk result (Puts (K.taken sink.old) (K.taken sink.new) (string_bytes buffer.old)
        (string_bytes buffer.new) (shown_chars Body at (chars text.now))) }
    ensures at { IfOk result (λ next. next ≡ after_all at (chars text.now)) }
    ensures fault { CountsRefusal (K.faults sink.old) (K.faults sink.new) result }
{
    let mut next = at;
    for c in text.chars() {
        match put_char(sink, buffer, next, c) {
            Ok(()) => next = next.after(c),
            Err(fault) => return Err(fault),
        }
    }
    Ok(next)
}

// Puts a text of an output, and U+FFFD for bytes behind it that are none.
fn put_chunk<K: Sink>(
    sink: &mut K,
    buffer: &mut String,
    at: Sequence,
    valid: &str,
    invalid: &[u8],
) -> Result<Sequence, ReportFault<Failed>>
    ensures puts { OnOk result (Puts (K.taken sink.old) (K.taken sink.new) (string_bytes buffer.old)
        (string_bytes buffer.new) (shown_chars Body at (chars (chunk_text valid.now invalid.now)))) }
    ensures at { IfOk result (λ next. next ≡ after_all at (chars (chunk_text valid.now invalid.now))) }
    ensures fault { CountsRefusal (K.faults sink.old) (K.faults sink.new) result }
{
    let next = put_chars(sink, buffer, at, valid)?;
    if invalid.is_empty() {
        return Ok(next);
    }
    put_chars(sink, buffer, next, "\u{fffd}")
}

// Puts an output.
fn put_output<K: Sink>(
    sink: &mut K,
    buffer: &mut String,
    output: &[u8],
) -> Result<(), ReportFault<Failed>>
    ensures puts { OnOk result (Puts (K.taken sink.old) (K.taken sink.new) (string_bytes buffer.old)
        (string_bytes buffer.new) (body_text output.now)) }
    ensures fault { CountsRefusal (K.faults sink.old) (K.faults sink.new) result }
{
    let mut at = Sequence::Outside;
    for chunk in output.utf8_chunks() {
        match put_chunk(sink, buffer, at, chunk.valid(), chunk.invalid()) {
            Ok(next) => at = next,
            Err(fault) => return Err(fault),
        }
    }
    Ok(())
}

fn push(buffer: &mut String, text: &str) -> Mem<()>
    ensures { OnOk result (string_bytes buffer.new ≡ string_bytes buffer.old ++ text.now) }
{
    buffer.push_str(text)?;
    Ok(())
}

// Puts a text.
fn put_text<K: Sink>(
    sink: &mut K,
    buffer: &mut String,
    text: &str,
) -> Result<(), ReportFault<Failed>>
    ensures puts { OnOk result (Puts (K.taken sink.old) (K.taken sink.new) (string_bytes buffer.old)
        (string_bytes buffer.new) text.now) }
    ensures fault { CountsRefusal (K.faults sink.old) (K.faults sink.new) result }
{
    match push(buffer, text) {
        Ok(()) => drain(sink, buffer),
        Err(_) => Err(ReportFault::OutOfMemory),
    }
}

// Puts a text, unless memory was wanting to it.
fn put_made<K: Sink>(
    sink: &mut K,
    buffer: &mut String,
    text: Mem<String>,
) -> Result<(), ReportFault<Failed>>
    ensures puts { (bytes : List ℕ) → IfOk text (λ made. string_bytes made ≡ bytes)
        → OnOk result (Puts (K.taken sink.old) (K.taken sink.new) (string_bytes buffer.old)
        (string_bytes buffer.new) bytes) }
    ensures fault { CountsRefusal (K.faults sink.old) (K.faults sink.new) result }
{
    match text {
        Ok(text) => put_text(sink, buffer, text.as_str()),
        Err(_) => Err(ReportFault::OutOfMemory),
    }
}

// Puts a part.
fn put_part<K: Sink>(
    sink: &mut K,
    buffer: &mut String,
    part: &Part,
) -> Result<(), ReportFault<Failed>>
    ensures puts { OnOk result (Puts (K.taken sink.old) (K.taken sink.new) (string_bytes buffer.old)
        (string_bytes buffer.new) (part_bytes part.now)) }
    ensures fault { CountsRefusal (K.faults sink.old) (K.faults sink.new) result }
{
    match part {
        Part::Line(line) => put_text(sink, buffer, line.as_str()),
        Part::Output(output) => put_output(sink, buffer, output.as_slice()),
    }
}

// Puts parts.
fn put_parts<K: Sink>(
    sink: &mut K,
    buffer: &mut String,
    parts: &[Part],
) -> Result<(), ReportFault<Failed>>
    ensures puts { OnOk result (Puts (K.taken sink.old) (K.taken sink.new) (string_bytes buffer.old)
        (string_bytes buffer.new) (parts_bytes parts.now)) }
    ensures fault { CountsRefusal (K.faults sink.old) (K.faults sink.new) result }
{
    for part in parts {
        match put_part(sink, buffer, part) {
            Ok(()) => {}
            Err(fault) => return Err(fault),
        }
    }
    Ok(())
}

// Puts cases.
fn put_cases<K: Sink>(
    sink: &mut K,
    buffer: &mut String,
    cases: &[Page],
) -> Result<(), ReportFault<Failed>>
    ensures puts { OnOk result (Puts (K.taken sink.old) (K.taken sink.new) (string_bytes buffer.old)
        (string_bytes buffer.new) (cases_bytes cases.now)) }
    ensures fault { CountsRefusal (K.faults sink.old) (K.faults sink.new) result }
{
    for case in cases {
        match put_parts(sink, buffer, case.parts()) {
            Ok(()) => {}
            Err(fault) => return Err(fault),
        }
    }
    Ok(())
}

// Puts a suite.
fn put_suite<K: Sink>(
    alloc: Global,
    sink: &mut K,
    buffer: &mut String,
    suite: &Kept,
) -> Result<(), ReportFault<Failed>>
    ensures puts { OnOk result (Puts (K.taken sink.old) (K.taken sink.new) (string_bytes buffer.old)
        (string_bytes buffer.new) (suite_bytes suite.now)) }
    ensures fault { CountsRefusal (K.faults sink.old) (K.faults sink.new) result }
{
    put_made(
        sink,
        buffer,
        suite_start(alloc, suite.name.as_str(), suite.counts),
    )?;
    put_cases(sink, buffer, suite.cases.as_slice())?;
    put_made(sink, buffer, suite_end(alloc))
}

// Puts suites.
fn put_suites<K: Sink>(
    alloc: Global,
    sink: &mut K,
    buffer: &mut String,
    suites: &[Kept],
) -> Result<(), ReportFault<Failed>>
    ensures puts { OnOk result (Puts (K.taken sink.old) (K.taken sink.new) (string_bytes buffer.old)
        (string_bytes buffer.new) (suites_bytes suites.now)) }
    ensures fault { CountsRefusal (K.faults sink.old) (K.faults sink.new) result }
{
    for suite in suites {
        match put_suite(alloc, sink, buffer, suite) {
            Ok(()) => {}
            Err(fault) => return Err(fault),
        }
    }
    Ok(())
}

// Puts the document of what was heard of a run that started so.
fn put_heard<K: Sink>(
    alloc: Global,
    sink: &mut K,
    buffer: &mut String,
    started: Option<u64>,
    heard: &Heard,
) -> Result<(), ReportFault<Failed>>
    ensures puts { OnOk result (Puts (K.taken sink.old) (K.taken sink.new) (string_bytes buffer.old)
        (string_bytes buffer.new) (heard_bytes started heard.now)) }
    ensures fault { CountsRefusal (K.faults sink.old) (K.faults sink.new) result }
{
    put_made(sink, buffer, document_open(alloc, started, heard))?;
    put_suites(alloc, sink, buffer, heard.suites.as_slice())?;
    put_made(sink, buffer, run_end(alloc))
}

/// Writes the document of what was heard of a run that started so.
pub(crate) fn write_heard<K: Sink>(
    alloc: Global,
    sink: &mut K,
    started: Option<u64>,
    heard: &Heard,
) -> Result<(), ReportFault<Failed>>
    ensures written { OnOk result (Takes (K.taken sink.old) (K.taken sink.new) (heard_bytes started heard.now)) }
    ensures fault { CountsRefusal (K.faults sink.old) (K.faults sink.new) result }
{
    let mut buffer = String::new(alloc);
    put_heard(alloc, sink, &mut buffer, started, heard)?;
    flush(sink, &mut buffer)
}
