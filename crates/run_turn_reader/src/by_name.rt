// The forms of turn lines that begin with the turn's name, each from what stands behind that and the key after it.
ghost use Rattle.std.specs.Prelude.{◌≡◌, ◌<◌, ◌^◌, ◌++◌, codes, pos, IfOk, IfSome};
ghost use Rattle.std.specs.Fmt.{decimal};
ghost use Rattle.hex.specs.Hex.{encode_lower};
ghost use Rattle.run_events.specs.declared.result.ChildExit.TheVariants.{Signal};
ghost use Rattle.run_events.specs.declared.turn.Turn.TheVariants.{Exit};
ghost use Rattle.run_output.specs.Turns.{stream_word};
ghost use Rattle.run_turn_laws.specs.Order.{IsTurnText};

use crate::front::{after, are};
use crate::hexes::hex_front;
use crate::number::{last_number, last_number31, number, number32};
use crate::shapes::{are_bytes, exit_with, stream};
use run_capture::{Blob, Mem, Stream};
use run_events::{ChildExit, Turn};
use std::alloc::Global;

// A start.
fn start(bytes: &[u8]) -> Option<Turn>
    ensures { IfSome result (λ t. IsTurnText t (codes "{\"turn\":\"started\",\"unit\":" ++ bytes.now)) }
{
    let (unit, rest) = number32(bytes)?;
    let pid = last_number(after(rest, b",\"pid\":")?)?;
    Some(Turn::Started { unit, pid })
}

// The turn of an exit by a signal whose number isn't below 0.
fn ended_by(unit: u32, signal: u32) -> Turn
    requires { signal < 2 ^ 31 }
    ensures { result ≡ Exit unit (Signal (pos signal)) }
{
    let exit = ChildExit::Signal(signal as i32);
    Turn::Exit { unit, exit }
}

// An exit with a code.
fn code(unit: u32, bytes: &[u8]) -> Option<Turn>
    ensures { IfSome result (λ t. IsTurnText t (codes "{\"turn\":\"exit\",\"unit\":" ++ (decimal unit
        ++ (codes ",\"code\":" ++ bytes.now)))) }
{
    let code = last_number31(bytes)?;
    Some(exit_with(unit, code))
}

// An exit by a signal.
fn signal(unit: u32, bytes: &[u8]) -> Option<Turn>
    ensures { IfSome result (λ t. IsTurnText t (codes "{\"turn\":\"exit\",\"unit\":" ++ (decimal unit
        ++ (codes ",\"signal\":" ++ bytes.now)))) }
{
    let signal = last_number31(bytes)?;
    Some(ended_by(unit, signal))
}

// An exit.
fn end(bytes: &[u8]) -> Option<Turn>
    ensures { IfSome result (λ t. IsTurnText t (codes "{\"turn\":\"exit\",\"unit\":" ++ bytes.now)) }
{
    let (unit, rest) = number32(bytes)?;
    if let Some(last) = after(rest, b",\"code\":") {
        return code(unit, last);
    }
    signal(unit, after(rest, b",\"signal\":")?)
}

// A step of the clock.
fn step(bytes: &[u8]) -> Option<Turn>
    ensures { IfSome result (λ t. IsTurnText t (codes "{\"turn\":\"clock\",\"ns\":" ++ bytes.now)) }
{
    let (ns, rest) = number(bytes)?;
    if are(rest, b"}") {
        Some(Turn::Clock { ns })
    } else {
        None
    }
}

// A unit, and the stream whose word follows it.
fn unit_stream(bytes: &[u8]) -> Option<(u32, Stream, &[u8])>
    ensures { IfSome result (λ r. bytes.now ≡ decimal r.0 ++ (codes ",\"stream\":\"" ++ (stream_word r.1 ++ r.2.now))) }
{
    let (unit, rest) = number32(bytes)?;
    let (stream, rest) = stream(after(rest, b",\"stream\":\"")?)?;
    Some((unit, stream, rest))
}

// The end of a stream.
fn closed(bytes: &[u8]) -> Option<Turn>
    ensures { IfSome result (λ t. IsTurnText t (codes "{\"turn\":\"stream-end\",\"unit\":" ++ bytes.now)) }
{
    let (unit, stream, rest) = unit_stream(bytes)?;
    if are(rest, b"\"}") {
        Some(Turn::StreamEnd { unit, stream })
    } else {
        None
    }
}

// A piece of these bytes.
fn piece_with(unit: u32, stream: Stream, output: Blob) -> Turn
    ensures { IsTurnText result (codes "{\"turn\":\"piece\",\"unit\":" ++ (decimal unit ++ (codes ",\"stream\":\""
        ++ (stream_word stream ++ (codes "\",\"hex\":\"" ++ (encode_lower output ++ codes "\"}")))))) }
{
    are_bytes(output.as_slice());
    Turn::Piece {
        unit,
        stream,
        bytes: output,
    }
}

// The bytes whose hex this is, up to the end of an object.
fn last_hex(alloc: Global, bytes: &[u8]) -> Mem<Option<Blob>>
    ensures { IfOk result (λ found. IfSome found (λ output. bytes.now ≡ encode_lower output ++ codes "\"}")) }
{
    let Some((output, rest)) = hex_front(alloc, bytes)? else {
        return Ok(None);
    };
    if are(rest, b"\"}") {
        Ok(Some(output))
    } else {
        Ok(None)
    }
}

// Where the hex of a piece begins, behind its unit and its stream.
fn piece_head(bytes: &[u8]) -> Option<(u32, Stream, &[u8])>
    ensures { IfSome result (λ r. bytes.now ≡ decimal r.0 ++ (codes ",\"stream\":\"" ++ (stream_word r.1
        ++ (codes "\",\"hex\":\"" ++ r.2.now)))) }
{
    let (unit, stream, rest) = unit_stream(bytes)?;
    Some((unit, stream, after(rest, b"\",\"hex\":\"")?))
}

// A piece of output.
fn wrote(alloc: Global, bytes: &[u8]) -> Mem<Option<Turn>>
    ensures { IfOk result (λ found. IfSome found (λ t. IsTurnText t (codes "{\"turn\":\"piece\",\"unit\":"
        ++ bytes.now))) }
{
    let Some((unit, stream, rest)) = piece_head(bytes) else {
        return Ok(None);
    };
    match last_hex(alloc, rest)? {
        Some(output) => Ok(Some(piece_with(unit, stream, output))),
        None => Ok(None),
    }
}

/// The turn whose line this is, by its name.
pub(crate) fn turn_by_name(alloc: Global, line: &[u8]) -> Mem<Option<Turn>>
    ensures { IfOk result (λ found. IfSome found (λ t. IsTurnText t line.now)) }
{
    if let Some(rest) = after(line, b"{\"turn\":\"started\",\"unit\":") {
        Ok(start(rest))
    } else if let Some(rest) = after(line, b"{\"turn\":\"exit\",\"unit\":") {
        Ok(end(rest))
    } else if let Some(rest) = after(line, b"{\"turn\":\"piece\",\"unit\":") {
        wrote(alloc, rest)
    } else if let Some(rest) = after(line, b"{\"turn\":\"stream-end\",\"unit\":") {
        Ok(closed(rest))
    } else if let Some(rest) = after(line, b"{\"turn\":\"clock\",\"ns\":") {
        Ok(step(rest))
    } else {
        Ok(None)
    }
}
