// Why a line is no JSON.
use crate::misfit::Wrong;
use serde_json::Error;

/// The deepest level of lists and objects that is read.
const DEEPEST: usize = 127;

// Whether lists and objects stand in one another deeper than is read.
fn is_deep(line: &[u8]) -> bool {
    let (mut level, mut in_text, mut is_escaped) = (0usize, false, false);
    for byte in line {
        if in_text {
            in_text = is_escaped || *byte != b'"';
            is_escaped = !is_escaped && *byte == b'\\';
        } else {
            match *byte {
                b'"' => in_text = true,
                b'[' | b'{' => level = level.saturating_add(1),
                b']' | b'}' => level = level.saturating_sub(1),
                _ => {}
            }
            if level > DEEPEST {
                return true;
            }
        }
    }
    false
}

// Whether a byte is a control character that stands nowhere in JSON: a tab and a CR may stand between its words.
fn is_control(byte: u8) -> bool {
    byte < b' ' && byte != b'\t' && byte != b'\r'
}

/// What is wrong with a line that is no JSON, by the error of its reader.
#[cold]
pub fn not_json(line: &[u8], error: &Error) -> Wrong {
    let byte = error.column();
    if line.is_empty() {
        return Wrong::Empty;
    }
    if line.starts_with(b"\xef\xbb\xbf") {
        return Wrong::ByteOrderMark;
    }
    if let Err(error) = std::str::from_utf8(line) {
        let byte = error.valid_up_to().saturating_add(1);
        return Wrong::NotUtf8 { byte };
    }
    if let Some(place) = line.iter().position(|byte| is_control(*byte)) {
        let byte = place.saturating_add(1);
        return Wrong::ControlCharacter { byte };
    }
    if is_deep(line) {
        Wrong::TooDeep
    } else if error.is_eof() {
        Wrong::Unfinished
    } else {
        Wrong::NotJson { byte }
    }
}
