// Runs of bytes of a kind within a text.
ghost use Rattle.std.specs.Prelude.{◌≡◌, ◌≤◌, length};
ghost use Rattle.run_profile.specs.Scan.{after_bytes, is_at, is_kind, is_blank};

/// The kinds of bytes that texts of a profile are cut by.
#[derive(Clone, Copy)]
pub enum ByteKind {
    /// A space, a tab or an end of line.
    Space,
    Digit,
    /// A letter, or a byte of a character beyond ASCII.
    Letter,
    /// What stands in a name: a letter of ASCII, a digit or `_`.
    Name,
    /// What stands between two double quotes.
    Quoted,
}

fn is_space(byte: u8) -> bool
    ensures { result ≡ is_blank byte }
{
    byte == b' ' || (b'\t' <= byte && byte <= b'\r')
}

fn is_of(kind: ByteKind, byte: u8) -> bool
    ensures { result ≡ is_kind kind byte }
{
    match kind {
        ByteKind::Space => is_space(byte),
        ByteKind::Digit => byte.is_ascii_digit(),
        ByteKind::Letter => byte.is_ascii_alphabetic() || 128 <= byte,
        ByteKind::Name => byte.is_ascii_alphabetic() || byte.is_ascii_digit() || byte == b'_',
        ByteKind::Quoted => byte != b'"',
    }
}

/// The place after the bytes of this kind that stand from this place on.
pub fn after(kind: ByteKind, text: &[u8], at: usize) -> usize
    requires { at ≤ length text.now }
    ensures place { result ≡ after_bytes kind text.now at }
    ensures start { at ≤ result }
    ensures end { result ≤ length text.now }
{
    let mut place = at;
    while place < text.len() && is_of(kind, text[place]) {
        place += 1;
    }
    place
}

/// Whether this byte stands at a place.
pub fn is_at(text: &[u8], place: usize, byte: u8) -> bool
    ensures { result ≡ is_at text.now place byte }
{
    place < text.len() && text[place] == byte
}
