// The forms of turn lines, each from what stands behind its first key.
ghost use Rattle.std.specs.Prelude.{◌≡◌, ◌<◌, ◌^◌, ◌++◌, codes, pos, IfOk, IfSome};
ghost use Rattle.std.specs.Fmt.{decimal};
ghost use Rattle.hex.specs.Hex.{encode_lower, IsBytes};
ghost use Rattle.run_events.specs.declared.result.ChildExit.TheVariants.{Code};
ghost use Rattle.run_events.specs.declared.turn.Turn.TheVariants.{Exit};
ghost use Rattle.run_output.specs.Turns.{turn_text, stream_word};

use crate::front::{after, are};
use crate::hexes::hex_front;
use crate::number::{last_number, number, number31, number32};
use run_capture::{Blob, Mem, Stream};
use run_events::{ChildExit, Turn};
use std::alloc::Global;

/// The stream with whose word bytes begin, and what stands behind it.
#[tactic(auto, using(crate::proofs::ShapeLemmas::is_combined, crate::proofs::ShapeLemmas::is_stdout, crate::proofs::ShapeLemmas::is_stderr))]
pub(crate) fn stream(bytes: &[u8]) -> Option<(Stream, &[u8])>
    ensures { IfSome result (λ r. bytes.now ≡ stream_word r.0 ++ r.1.now) }
{
    if let Some(rest) = after(bytes, b"combined") {
        return Some((Stream::Combined, rest));
    }
    if let Some(rest) = after(bytes, b"stdout") {
        return Some((Stream::Stdout, rest));
    }
    let rest = after(bytes, b"stderr")?;
    Some((Stream::Stderr, rest))
}

/// A start.
pub(crate) fn started(bytes: &[u8]) -> Option<Turn>
    ensures { IfSome result (λ t. turn_text t ≡ codes "{\"pid\":" ++ bytes.now) }
{
    let (pid, rest) = number32(bytes)?;
    let unit = last_number(after(rest, b",\"turn\":\"started\",\"unit\":")?)?;
    Some(Turn::Started { unit, pid })
}

/// The turn of an exit with a code that isn't below 0.
pub(crate) fn exit_with(unit: u32, code: u32) -> Turn
    requires { code < 2 ^ 31 }
    ensures { result ≡ Exit unit (Code (pos code)) }
{
    let exit = ChildExit::Code(code as i32);
    Turn::Exit { unit, exit }
}

/// An exit with a code.
pub(crate) fn exit(bytes: &[u8]) -> Option<Turn>
    ensures { IfSome result (λ t. turn_text t ≡ codes "{\"code\":" ++ bytes.now) }
{
    let (code, rest) = number31(bytes)?;
    let unit = last_number(after(rest, b",\"turn\":\"exit\",\"unit\":")?)?;
    Some(exit_with(unit, code))
}

/// A step of the clock.
pub(crate) fn clock(bytes: &[u8]) -> Option<Turn>
    ensures { IfSome result (λ t. turn_text t ≡ codes "{\"ns\":" ++ bytes.now) }
{
    let (ns, rest) = number(bytes)?;
    if are(rest, b",\"turn\":\"clock\"}") {
        Some(Turn::Clock { ns })
    } else {
        None
    }
}

/// The end of a stream.
pub(crate) fn stream_end(bytes: &[u8]) -> Option<Turn>
    ensures { IfSome result (λ t. turn_text t ≡ codes "{\"stream\":\"" ++ bytes.now) }
{
    let (stream, rest) = stream(bytes)?;
    let unit = last_number(after(rest, b"\",\"turn\":\"stream-end\",\"unit\":")?)?;
    Some(Turn::StreamEnd { unit, stream })
}

// What stands behind the bytes of a piece.
fn piece_end(bytes: &[u8]) -> Option<(Stream, u32)>
    ensures { IfSome result (λ r. bytes.now ≡ codes "\",\"stream\":\"" ++ (stream_word r.0
        ++ (codes "\",\"turn\":\"piece\",\"unit\":" ++ (decimal r.1 ++ codes "}")))) }
{
    let (stream, rest) = stream(after(bytes, b"\",\"stream\":\"")?)?;
    let unit = last_number(after(rest, b"\",\"turn\":\"piece\",\"unit\":")?)?;
    Some((stream, unit))
}

/// What a slice of bytes holds are bytes.
pub(crate) fn are_bytes(bytes: &[u8])
    ensures { IsBytes bytes.now }
{}

// A piece of the bytes whose hex stands in front of this.
fn piece_before(output: Blob, bytes: &[u8]) -> Option<Turn>
    ensures { IfSome result (λ t. turn_text t ≡ codes "{\"hex\":\"" ++ (encode_lower output ++ bytes.now)) }
{
    are_bytes(output.as_slice());
    let (stream, unit) = piece_end(bytes)?;
    Some(Turn::Piece {
        unit,
        stream,
        bytes: output,
    })
}

/// A piece of output.
pub(crate) fn piece(alloc: Global, bytes: &[u8]) -> Mem<Option<Turn>>
    ensures { IfOk result (λ found. IfSome found (λ t. turn_text t ≡ codes "{\"hex\":\"" ++ bytes.now)) }
{
    match hex_front(alloc, bytes)? {
        Some((output, rest)) => Ok(piece_before(output, rest)),
        None => Ok(None),
    }
}

// A turn that has a unit alone, or a word besides.
fn of_unit(bytes: &[u8]) -> Option<Turn>
    ensures { IfSome result (λ t. turn_text t ≡ codes "{\"turn\":\"" ++ bytes.now) }
{
    if let Some(rest) = after(bytes, b"decide\",\"unit\":") {
        let (unit, rest) = number32(rest)?;
        let word = last_number(after(rest, b",\"word\":")?)?;
        return Some(Turn::Decide { unit, word });
    }
    if let Some(rest) = after(bytes, b"due\",\"unit\":") {
        let unit = last_number(rest)?;
        return Some(Turn::UnitDue { unit });
    }
    let unit = last_number(after(bytes, b"take\",\"unit\":")?)?;
    Some(Turn::Take { unit })
}

/// A turn whose name is its first key.
pub(crate) fn named(bytes: &[u8]) -> Option<Turn>
    ensures { IfSome result (λ t. turn_text t ≡ codes "{\"turn\":\"" ++ bytes.now) }
{
    if are(bytes, b"deliver\"}") {
        Some(Turn::Deliver)
    } else if are(bytes, b"admit\"}") {
        Some(Turn::Admit)
    } else if are(bytes, b"answer\"}") {
        Some(Turn::Answer)
    } else if are(bytes, b"tick\"}") {
        Some(Turn::Tick)
    } else if are(bytes, b"begin\"}") {
        Some(Turn::Begin)
    } else if are(bytes, b"end\"}") {
        Some(Turn::End)
    } else {
        of_unit(bytes)
    }
}
