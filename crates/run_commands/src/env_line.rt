// The lines of an environment file, and the variable that each sets.
ghost use Rattle.std.specs.Prelude.{◌≡◌, ◌<◌, ◌==◌, ◌∷◌, length, Ok, Err, MatchOption, MatchResult};
ghost use Rattle.std.specs.List.{position, position_or_len, list_all};
ghost use Rattle.std.specs.Str.Lines.{lines, strip_carriage_return};
ghost use Rattle.run_commands.specs.EnvLine.{pair_of, cut_at_equals, is_key, may_begin_key, may_stand_in_key};

/// The first rule that a line breaks.
#[derive(Clone, Copy)]
pub enum BrokenRule {
    /// It is UTF-8.
    Utf8,
    /// It has a `=`.
    EqualsSign,
    /// Before its first `=` stands the name of a variable that may be set.
    Key,
}

// A line without the carriage return at its end, where it has one.
fn without_return(line: &[u8]) -> &[u8]
    ensures { result.now ≡ strip_carriage_return line.now }
{
    if !line.is_empty() && line[line.len() - 1] == b'\r' {
        &line[..line.len() - 1]
    } else {
        line
    }
}

// The place of the first LF.
fn end_of_line(bytes: &[u8]) -> Option<usize>
    ensures { result ≡ position (λ b. b == 10) bytes.now }
{
    bytes.iter().position(|byte| *byte == b'\n')
}

/// The first line of some bytes, without its end, and the bytes after it.
pub fn split_line(bytes: &[u8]) -> (&[u8], &[u8])
    requires { 0 < length bytes.now }
    ensures lines { lines bytes.now ≡ result.0.now ∷ lines result.1.now }
    ensures shorter { length result.1.now < length bytes.now }
{
    match end_of_line(bytes) {
        Some(end) => (without_return(&bytes[..end]), &bytes[end + 1..]),
        None => (bytes, &[]),
    }
}

fn may_begin(byte: u8) -> bool
    ensures { result ≡ may_begin_key byte }
{
    byte.is_ascii_alphabetic() || byte == b'_'
}

fn may_stand(byte: u8) -> bool
    ensures { result ≡ may_stand_in_key byte }
{
    may_begin(byte) || byte.is_ascii_digit()
}

fn all_may_stand(bytes: &[u8]) -> bool
    ensures { result ≡ list_all may_stand_in_key bytes.now }
{
    bytes.iter().all(|byte| may_stand(*byte))
}

// Whether a script may set the variable of this name.
fn may_be_set(name: &[u8]) -> bool
    ensures { result ≡ is_key name.now }
{
    match name.split_first() {
        Some((first, others)) => {
            may_begin(*first) && all_may_stand(others) && !name.starts_with(b"NEXTEST")
        }
        None => false,
    }
}

// What stands before the first `=` of a text, and after it.
fn cut_at_equals_sign(text: &str) -> Option<(&str, &str)>
    ensures { MatchOption result (position_or_len (λ b. b == 61) text.now ≡ length text.now)
        (λ p. (position_or_len (λ b. b == 61) text.now < length text.now)
        × ((p.0.now, p.1.now) ≡ cut_at_equals text.now)) }
{
    text.split_once('=')
}

/// The name and the value that a line sets, or the first rule that it breaks.
pub fn split_pair(line: &[u8]) -> Result<(&str, &str), BrokenRule>
    ensures { MatchResult result (λ p. pair_of line.now ≡ Ok (p.0.now, p.1.now)) (λ rule. pair_of line.now ≡ Err rule) }
{
    let text = match str::from_utf8(line) {
        Ok(text) => text,
        Err(_) => return Err(BrokenRule::Utf8),
    };
    let (key, value) = match cut_at_equals_sign(text) {
        Some(pair) => pair,
        None => return Err(BrokenRule::EqualsSign),
    };
    if !may_be_set(key.as_bytes()) {
        return Err(BrokenRule::Key);
    }
    Ok((key, value))
}
