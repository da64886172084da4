// One record at the front of bytes.
ghost use Rattle.std.specs.Prelude.{◌≡◌};
ghost use Rattle.run_store.specs.Records.{is_bad_length, length_in};
ghost use Rattle.run_store_io.specs.Found.{IsFound};
ghost use Rattle.run_store_io.specs.Awaits.{awaited};

use crate::awaiting::{Awaiting, END};

/// The most bytes of a payload.
pub const MOST_BYTES: usize = 16_777_216;

/// What is there of a record that is awaited.
#[derive(Clone, Copy, Drop)]
pub enum Found<'a> {
    /// Bytes that begin none.
    Bad,
    /// A front part of one, which may be right as far as it is there.
    Cut,
    /// One whose payload is there, and the bytes after it. The payload isn't looked at.
    Whole {
        kind: u8,
        payload: &'a [u8],
        after: &'a [u8],
    },
}

// The length that a record says, if its four bytes are there.
fn length_in(bytes: &[u8]) -> Option<usize>
    ensures { result ≡ length_in bytes.now }
{
    match bytes {
        [_, a, b, c, d, ..] => Some(u32::from_be_bytes([*a, *b, *c, *d]) as usize),
        _ => None,
    }
}

// Whether no record of this kind has this length.
fn is_bad_length(kind: u8, count: usize) -> bool
    ensures { result ≡ is_bad_length kind count }
{
    count > MOST_BYTES || (kind == END && count != 4)
}

/// What is there at the front of bytes where a record is awaited.
pub fn record_in(bytes: &[u8], awaiting: Awaiting) -> Found<'_>
    ensures { IsFound (awaited awaiting) bytes.now result }
{
    let Some(kind) = bytes.first() else {
        return Found::Cut;
    };
    if !awaiting.takes(*kind) {
        return Found::Bad;
    }
    let Some(count) = length_in(bytes) else {
        return Found::Cut;
    };
    if is_bad_length(*kind, count) {
        return Found::Bad;
    }
    let rest = &bytes[5..];
    if rest.len() < count {
        return Found::Cut;
    }
    Found::Whole {
        kind: *kind,
        payload: &rest[..count],
        after: &rest[count..],
    }
}
