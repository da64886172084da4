// How many running tests are shown.
ghost use Rattle.std.specs.Prelude.{◌≡◌, IfOk, IfErr};
ghost use Rattle.run_progress.specs.MaxRunning.{SaysMax, RefusesText, Tells, error_words};
ghost use Rattle.run_progress.specs.Seen.{shows_tests};

use run_capture::{Duplicate, Mem, Text};
use std::alloc::Global;
use std::error::Error;
use std::fmt;
use std::fmt::{Display, Write};
use std::num::IntErrorKind;

/// How many running tests are shown at most. Of none, no list of running tests is kept.
#[derive(Clone, Copy, Debug, PartialEq, Eq)]
pub enum MaxProgressRunning {
    Count(usize),
    Infinite,
}

/// Why a text says no such number.
#[derive(Debug, Drop, PartialEq, Eq)]
pub enum MaxProgressError {
    /// What is wrong with the text, in a message.
    Parse(Text),
    /// Memory was refused.
    OutOfMemory,
}

impl Duplicate for MaxProgressError {
    fn copy(&self, alloc: Global) -> Mem<MaxProgressError> {
        match self {
            MaxProgressError::Parse(text) => Ok(MaxProgressError::Parse(text.copy(alloc)?)),
            MaxProgressError::OutOfMemory => Ok(MaxProgressError::OutOfMemory),
        }
    }
}

impl MaxProgressRunning {
    /// Eight.
    pub const DEFAULT_VALUE: MaxProgressRunning = MaxProgressRunning::Count(8);

    /// Reads `infinite`, in any case of its letters, or decimal digits with an optional `+` before them.
    ///
    /// ```text
    /// MaxProgressRunning::from_str(alloc, "INFINITE") == Ok(MaxProgressRunning::Infinite)
    /// MaxProgressRunning::from_str(alloc, "12") == Ok(MaxProgressRunning::Count(12))
    /// ```
    pub fn from_str(alloc: Global, s: &str) -> Result<Self, MaxProgressError>
        ensures ok { IfOk result (SaysMax s.now) }
        ensures err { IfErr result (RefusesText s.now) }
    {
        if s.eq_ignore_ascii_case("infinite") {
            return Ok(MaxProgressRunning::Infinite);
        }
        match s.parse::<usize>() {
            Ok(count) => Ok(MaxProgressRunning::Count(count)),
            Err(error) => Err(refusal(alloc, s, *error.kind())),
        }
    }

    // Whether running tests are shown at all.
    pub(crate) fn shows_tests(self) -> bool
        ensures { result ≡ shows_tests self }
    {
        self != MaxProgressRunning::Count(0)
    }
}

// What std says of a text that is no number.
fn error_words(kind: IntErrorKind) -> &'static str
    ensures { result.now ≡ error_words kind }
{
    match kind {
        IntErrorKind::Empty => "cannot parse integer from empty string",
        IntErrorKind::InvalidDigit => "invalid digit found in string",
        IntErrorKind::PosOverflow => "number too large to fit in target type",
        IntErrorKind::NegOverflow => "number too small to fit in target type",
        IntErrorKind::Zero => "number would be zero for non-zero type",
    }
}

// The error for a text with this wrong with it.
fn refusal(alloc: Global, s: &str, kind: IntErrorKind) -> MaxProgressError
    ensures { Tells s.now kind result }
{
    let words = error_words(kind);
    match format!(in alloc; "Error: {words} parsing {s}") {
        Ok(text) => MaxProgressError::Parse(Text::from_string(text)),
        Err(_) => MaxProgressError::OutOfMemory,
    }
}

impl Default for MaxProgressRunning {
    ghost use Rattle.std.specs.Prelude.{◌≡◌};
    ghost use Rattle.run_progress.specs.declared.max_running.MaxProgressRunning.TheVariants as max;

    ghost is_default = { λ m. m ≡ max.Count 8 };

    fn default() -> MaxProgressRunning {
        MaxProgressRunning::DEFAULT_VALUE
    }
}

impl Display for MaxProgressRunning {
    ghost use Rattle.run_progress.specs.MaxRunning.{max_text};
    ghost use Rattle.std.specs.Prelude.{Some};

    ghost output = { λ m. Some (max_text m) };

    fn fmt<W: Write>(&self, f: &mut fmt::Formatter<W>) -> fmt::Result {
        match *self {
            MaxProgressRunning::Count(count) => write!(f, "{count}"),
            MaxProgressRunning::Infinite => f.write_str("infinite"),
        }
    }
}

impl Display for MaxProgressError {
    ghost use Rattle.run_progress.specs.MaxRunning.{error_message};
    ghost use Rattle.std.specs.Prelude.{Some};

    ghost output = { λ e. Some (error_message e) };

    fn fmt<W: Write>(&self, f: &mut fmt::Formatter<W>) -> fmt::Result {
        match self {
            MaxProgressError::Parse(text) => f.write_str(text.as_str()),
            MaxProgressError::OutOfMemory => f.write_str("out of memory"),
        }
    }
}

impl Error for MaxProgressError {}
