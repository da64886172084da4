// Why a line of input is no plan or no turn.
use run_capture::OutOfMemory;
use run_input::{Misfit, Wrong, plan_line_misfit, turn_line_misfit};
use std::alloc::{AllocError, Global};

/// What a line is to be.
#[derive(Clone, Copy, Drop)]
pub(crate) enum LineKind {
    Plan,
    Turn,
}

impl LineKind {
    /// As a word.
    pub(crate) fn noun(self) -> &'static str {
        match self {
            LineKind::Plan => "plan",
            LineKind::Turn => "turn",
        }
    }
}

/// The line of a number from 1, without its line feed; none where there is none.
pub(crate) fn line_at(bytes: &[u8], number: u64) -> Option<&[u8]> {
    let mut at = 1u64;
    for line in bytes.split(|byte| *byte == b'\n') {
        if at == number {
            return Some(line);
        }
        at = at.saturating_add(1);
    }
    None
}

/// What the reader of such lines finds wrong with a line.
pub(crate) fn misfit_of(
    alloc: Global,
    kind: LineKind,
    line: &[u8],
) -> Result<Option<Misfit>, AllocError> {
    let misfit = match kind {
        LineKind::Plan => plan_line_misfit(alloc, line),
        LineKind::Turn => turn_line_misfit(alloc, line),
    };
    match misfit {
        Ok(misfit) => Ok(misfit),
        Err(OutOfMemory) => Err(AllocError),
    }
}

/// Whether a line is the front part of what it is to be.
pub(crate) fn is_unfinished(misfit: &Option<Misfit>) -> bool {
    match misfit {
        Some(misfit) => matches!(misfit.wrong, Wrong::Unfinished),
        None => false,
    }
}

// What is wrong with the text of a line, in words.
fn line_words(alloc: Global, wrong: Wrong) -> Result<String, AllocError> {
    let words = match wrong {
        Wrong::NotUtf8 { byte } => return format!(in alloc; "not UTF-8 at byte {byte}"),
        Wrong::NotJson { byte } => return format!(in alloc; "not JSON at column {byte}"),
        Wrong::ControlCharacter { byte } => {
            return format!(in alloc; "a control character at byte {byte}");
        }
        Wrong::Empty => "the line is empty",
        Wrong::ByteOrderMark => "it begins with a byte order mark",
        Wrong::TooDeep => "nested deeper than 127",
        Wrong::Unfinished => "it ends before its JSON does",
        _ => "a number is no whole number of 64 bits",
    };
    String::from_str(alloc, words)
}

// What is wrong at a place, in words. A key of the input may have any character, so it is escaped.
fn place_words(alloc: Global, place: &str, wrong: Wrong) -> Result<String, AllocError> {
    match wrong {
        Wrong::UnknownKey => format!(in alloc; "unknown key {place:?}"),
        Wrong::MissingKey => format!(in alloc; "missing key {place:?}"),
        Wrong::UnknownTurn => format!(in alloc; "unknown turn {place:?}"),
        Wrong::Not(wanted) if place.is_empty() => format!(in alloc; "not {wanted}"),
        Wrong::Not(wanted) => format!(in alloc; "{place:?} is not {wanted}"),
        Wrong::NotOne(other) => {
            format!(in alloc; "exactly one of the keys {place:?} and {other:?} is needed")
        }
        Wrong::NotExponential => {
            format!(in alloc; "{place:?} is only for \"backoff\":\"exponential\"")
        }
        Wrong::NotSecondVersion => format!(in alloc; "{place:?} needs \"version\":2"),
        _ => line_words(alloc, wrong),
    }
}

/// What is wrong with a line, in words; none where memory was wanting when it was read.
pub(crate) fn misfit_words(
    alloc: Global,
    misfit: &Option<Misfit>,
) -> Result<Option<String>, AllocError> {
    let Some(Misfit { place, wrong }) = misfit else {
        return Ok(None);
    };
    match place {
        Some(place) => Ok(Some(place_words(alloc, place.as_str(), *wrong)?)),
        None => Ok(None),
    }
}
