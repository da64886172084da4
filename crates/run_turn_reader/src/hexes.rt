// Bytes in hex, in lower case.
ghost use Rattle.std.specs.Prelude.{◌≡◌, ◌≤◌, ◌++◌, [], length, true, IfOk, IfSome, IsTrue};
ghost use Rattle.hex.specs.Hex.{encode_lower};

use memchr::memchr;
use run_capture::{Blob, Mem};
use std::alloc::Global;

// So many digits are read at a time, at most.
const DIGITS: usize = 1024;

// Whether digits are the hex of these bytes.
fn is_hex_of(digits: &[u8], bytes: &[u8]) -> bool
    ensures { IsTrue result → encode_lower bytes.now ≡ digits.now }
{
    let mut room = [0u8; DIGITS];
    if digits.len() > DIGITS {
        return false;
    }
    let text = &mut room[..digits.len()];
    hex::encode_to_slice(bytes, text).is_ok() && *text == *digits
}

// Adds the bytes whose hex these digits are, if they are that, and few.
fn add_few(alloc: Global, bytes: &mut Blob, digits: &[u8]) -> Mem<bool>
    ensures { IfOk result (λ is. is ≡ true → encode_lower bytes.new ≡ encode_lower bytes.old ++ digits.now) }
{
    let mut room = [0u8; DIGITS];
    if digits.len() > DIGITS {
        return Ok(false);
    }
    let few = &mut room[..digits.len() / 2];
    if hex::decode_to_slice(digits, few).is_err() || !is_hex_of(digits, few) {
        return Ok(false);
    }
    bytes.extend_from_slice(alloc, few)?;
    Ok(true)
}

// No bytes, with room for so many.
#[tactic(auto, using(crate::proofs::HexLemmas::none))]
fn room(alloc: Global, len: usize) -> Mem<Blob>
    ensures { IfOk result (λ bytes. encode_lower bytes ≡ []) }
{
    Blob::from_vec(alloc, Vec::with_capacity(alloc, len)?)
}

// The bytes whose hex these digits are, if they are that. Read a part at a time, they stand in memory once.
fn bytes_of(alloc: Global, digits: &[u8]) -> Mem<Option<Blob>>
    ensures { IfOk result (λ found. IfSome found (λ bytes. encode_lower bytes ≡ digits.now)) }
{
    let mut bytes = room(alloc, digits.len() / 2)?;
    let mut rest = digits;
    'parts: while !rest.is_empty() {
        let (few, after) = rest.split_at(rest.len().min(DIGITS));
        if !add_few(alloc, &mut bytes, few)? {
            return Ok(None);
        }
        rest = after;
    }
    Ok(Some(bytes))
}

// How many bytes stand before the first quotation mark.
fn quoted_len(text: &[u8]) -> usize
    ensures { result ≤ length text.now }
{
    match memchr(b'"', text) {
        Some(place) => place,
        None => text.len(),
    }
}

/// The bytes whose hex stands before the first quotation mark, if it is that, and what begins with the mark.
pub(crate) fn hex_front(alloc: Global, text: &[u8]) -> Mem<Option<(Blob, &[u8])>>
    ensures { IfOk result (λ found. IfSome found (λ r. text.now ≡ encode_lower r.0 ++ r.1.now)) }
{
    let (digits, rest) = text.split_at(quoted_len(text));
    match bytes_of(alloc, digits)? {
        Some(bytes) => Ok(Some((bytes, rest))),
        None => Ok(None),
    }
}
