// The numbers of a line, in decimal.
ghost use Rattle.std.specs.Prelude.{◌≡◌, ◌<◌, ◌^◌, ◌++◌, codes, IfSome};
ghost use Rattle.std.specs.Fmt.{decimal};

use crate::front::{after, are};
use itoa::Buffer;

// What the digits say with which bytes begin.
fn value_of(bytes: &[u8]) -> u64 {
    let mut value = 0u64;
    for byte in bytes {
        if !byte.is_ascii_digit() {
            return value;
        }
        let digit = u64::from(byte.wrapping_sub(b'0'));
        value = value.wrapping_mul(10).wrapping_add(digit);
    }
    value
}

/// The number in decimal with which bytes begin, and what stands behind it.
pub(crate) fn number(bytes: &[u8]) -> Option<(u64, &[u8])>
    ensures { IfSome result (λ r. bytes.now ≡ decimal r.0 ++ r.1.now) }
{
    let value = value_of(bytes);
    let mut buffer = Buffer::new();
    let rest = after(bytes, buffer.format(value).as_bytes())?;
    Some((value, rest))
}

/// The same, of 32 bits.
pub(crate) fn number32(bytes: &[u8]) -> Option<(u32, &[u8])>
    ensures { IfSome result (λ r. bytes.now ≡ decimal r.0 ++ r.1.now) }
{
    let (value, rest) = number(bytes)?;
    if value <= u64::from(u32::MAX) {
        Some((value as u32, rest))
    } else {
        None
    }
}

/// The same, of 31 bits.
pub(crate) fn number31(bytes: &[u8]) -> Option<(u32, &[u8])>
    ensures { IfSome result (λ r. (r.0 < 2 ^ 31) × (bytes.now ≡ decimal r.0 ++ r.1.now)) }
{
    let (value, rest) = number(bytes)?;
    if value < 1 << 31 {
        Some((value as u32, rest))
    } else {
        None
    }
}

/// The number of 32 bits that ends an object.
pub(crate) fn last_number(bytes: &[u8]) -> Option<u32>
    ensures { IfSome result (λ n. bytes.now ≡ decimal n ++ codes "}") }
{
    let (value, rest) = number32(bytes)?;
    if are(rest, b"}") { Some(value) } else { None }
}

/// The number of 31 bits that ends an object.
pub(crate) fn last_number31(bytes: &[u8]) -> Option<u32>
    ensures { IfSome result (λ n. (n < 2 ^ 31) × (bytes.now ≡ decimal n ++ codes "}")) }
{
    let value = last_number(bytes)?;
    if value < 1 << 31 { Some(value) } else { None }
}
