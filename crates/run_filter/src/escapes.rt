// Reads a character that stands in a text by its number, as `\u{61}`.
ghost use Rattle.std.specs.Prelude.{◌≡◌, ◌<◌, ◌==◌, IfSome, option_and_then, position, length};
ghost use Rattle.run_filter.specs.Escapes.{char_numbered, hex_digit, hex_on, numbered_char, up_to_brace};
ghost use Rattle.run_filter.specs.Escapes.{with_digit};

use crate::signs::begins;

#[tactic(auto, unfolding(crate::specs::Escapes::hex_digit))]
fn hex_digit(byte: u8) -> Option<u32>
    ensures { result ≡ hex_digit byte }
{
    char::from(byte).to_digit(16)
}

// A number with a digit more.
fn with_digit(number: u32, digit: Option<u32>) -> Option<u32>
    ensures { result ≡ with_digit number digit }
{
    number.checked_mul(16)?.checked_add(digit?)
}

// The number of hexadecimal digits.
fn hex_number(digits: &[u8]) -> Option<u32>
    ensures { result ≡ hex_on 0 digits.now }
{
    let mut number = 0u32;
    for byte in digits {
        number = with_digit(number, hex_digit(*byte))?;
    }
    Some(number)
}

fn char_numbered(number: u32) -> Option<char>
    ensures { result ≡ char_numbered number }
{
    char::from_u32(number)
}

fn hex_char(digits: &[u8]) -> Option<char>
    ensures { result ≡ option_and_then char_numbered (hex_on 0 digits.now) }
{
    char_numbered(hex_number(digits)?)
}

fn first_brace(text: &[u8]) -> Option<usize>
    ensures value { result ≡ position (λ b. b == 125) text.now }
    ensures within { IfSome result (λ close. close < length text.now) }
{
    text.iter().position(|byte| *byte == b'}')
}

// The character of the digits up to a `}`, and how many bytes stand for it.
fn up_to_brace(text: &[u8]) -> Option<(char, usize)>
    ensures { result ≡ up_to_brace text.now (position (λ b. b == 125) text.now) }
{
    let close = first_brace(text)?;
    if 1 <= close && close <= 6 {
        let c = hex_char(&text[..close])?;
        return Some((c, close + 4));
    }
    None
}

/// The character that follows a `\` by its number, and how many bytes stand for it with that.
#[tactic(auto, unfolding(crate::specs::Escapes::numbered_char))]
pub(crate) fn numbered_char(text: &[u8]) -> Option<(char, usize)>
    ensures { result ≡ numbered_char text.now }
{
    if begins(text, b"u{") {
        return up_to_brace(&text[2..]);
    }
    None
}
