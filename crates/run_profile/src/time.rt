// A time as a text: numbers with units, added.
ghost use Rattle.std.specs.Prelude.{◌≡◌, ◌≤◌, ◌<◌, ◌+◌, ◌*◌, ◌-◌, length, map};
ghost use Rattle.std.specs.Prelude.{Option};
ghost use Rattle.run_profile.specs.Time.{one_of, number_after, number_at, time_said, unit_at, unit_named};
ghost use Rattle.run_profile.specs.Time.{within_u64, long_unit_named, next_part, short_unit_named};
ghost use Rattle.run_profile.specs.Time.{unit_end, unit_start};
ghost use Rattle.run_profile.specs.Time.{with_part, with_parts};

use crate::errors::write_at;
use crate::scan::{ByteKind, after};
use std::fmt;
use std::fmt::{Display, Write};

/// Why a text is no time. Places are bytes of the text, from 0.
#[derive(Clone, Copy, Drop)]
pub enum TimeFault {
    /// No number stands here.
    NoNumber { place: usize },
    /// No known unit stands here, after its number.
    NoUnit { place: usize },
    /// With the part that begins here the time is longer than 18446744073709551615 nanoseconds.
    TooLong { place: usize },
}

impl Display for TimeFault {
    fn fmt<W: Write>(&self, f: &mut fmt::Formatter<W>) -> fmt::Result {
        match self {
            TimeFault::NoNumber { place } => write_at(f, "no number at", *place),
            TimeFault::NoUnit { place } => write_at(f, "no unit at", *place),
            TimeFault::TooLong { place } => {
                write_at(f, "too long from", *place)?;
                f.write_str(" on")
            }
        }
    }
}

/// Whether a word is one of these names.
pub fn is_one_of(word: &[u8], names: &[&str]) -> bool
    ensures { result ≡ one_of word.now (map (λ n. n.now) names.now) }
{
    for name in names {
        if word == name.as_bytes() {
            return true;
        }
    }
    false
}

const SECOND: u64 = 1_000_000_000;

// The nanoseconds of a unit of no more than a minute.
fn short_unit(word: &[u8]) -> Option<u64>
    ensures { result ≡ short_unit_named word.now }
{
    if is_one_of(word, &["ns", "nsec"]) {
        Some(1)
    } else if is_one_of(word, &["us", "usec", "µs"]) {
        Some(1_000)
    } else if is_one_of(word, &["ms", "msec"]) {
        Some(1_000_000)
    } else if is_one_of(word, &["s", "sec", "secs", "second", "seconds"]) {
        Some(SECOND)
    } else if is_one_of(word, &["m", "min", "mins", "minute", "minutes"]) {
        Some(60 * SECOND)
    } else {
        None
    }
}

// The nanoseconds of a unit of an hour or more.
fn long_unit(word: &[u8]) -> Option<u64>
    ensures { result ≡ long_unit_named word.now }
{
    if is_one_of(word, &["h", "hr", "hrs", "hour", "hours"]) {
        Some(3_600 * SECOND)
    } else if is_one_of(word, &["d", "day", "days"]) {
        Some(86_400 * SECOND)
    } else if is_one_of(word, &["w", "wk", "wks", "week", "weeks"]) {
        Some(604_800 * SECOND)
    } else if is_one_of(word, &["M", "month", "months"]) {
        Some(2_630_016 * SECOND)
    } else if is_one_of(word, &["y", "yr", "yrs", "year", "years"]) {
        Some(31_557_600 * SECOND)
    } else {
        None
    }
}

fn unit(word: &[u8]) -> Option<u64>
    ensures { result ≡ unit_named word.now }
{
    match short_unit(word) {
        Some(unit) => Some(unit),
        None => long_unit(word),
    }
}

// A number, and a digit more.
fn with_digit(number: u64, digit: u8) -> Option<u64>
    ensures { result ≡ within_u64 (10 * number + (digit - 48)) }
{
    number
        .checked_mul(10)?
        .checked_add(u64::from(digit.saturating_sub(b'0')))
}

// The number that digits write, where 64 bits hold it.
#[tactic(auto, using(crate::proofs::TimeLemmas::fits_never, crate::proofs::TimeLemmas::fits_below, crate::proofs::TimeLemmas::fits_is))]
fn number(digits: &[u8]) -> Option<u64>
    ensures { result ≡ within_u64 (number_after 0 digits.now) }
{
    let mut number = 0u64;
    for digit in digits {
        match with_digit(number, *digit) {
            Some(more) => number = more,
            None => return None,
        }
    }
    Some(number)
}

// A sum, and a number of units more, where 64 bits hold it.
fn plus(sum: u64, number: u64, unit: u64) -> Option<u64>
    ensures { result ≡ within_u64 (sum + number * unit) }
{
    number.checked_mul(unit)?.checked_add(sum)
}

// The number of the part that begins here.
fn number_at(text: &[u8], at: usize) -> Result<u64, TimeFault>
    requires { at ≤ length text.now }
    ensures { result ≡ number_at text.now at }
{
    let end = after(ByteKind::Digit, text, at);
    if end == at {
        return Err(TimeFault::NoNumber { place: at });
    }
    match number(&text[at..end]) {
        Some(number) => Ok(number),
        None => Err(TimeFault::TooLong { place: at }),
    }
}

fn unit_start(text: &[u8], at: usize) -> usize
    requires { at ≤ length text.now }
    ensures place { result ≡ unit_start text.now at }
    ensures end { result ≤ length text.now }
{
    after(ByteKind::Space, text, after(ByteKind::Digit, text, at))
}

fn unit_end(text: &[u8], at: usize) -> usize
    requires { at ≤ length text.now }
    ensures place { result ≡ unit_end text.now at }
    ensures start { unit_start text.now at ≤ result }
    ensures end { result ≤ length text.now }
{
    after(ByteKind::Letter, text, unit_start(text, at))
}

// The place of the part after the one that begins here.
fn next_part(text: &[u8], at: usize) -> usize
    requires { at ≤ length text.now }
    ensures place { result ≡ next_part text.now at }
    ensures end { result ≤ length text.now }
{
    after(ByteKind::Space, text, unit_end(text, at))
}

// The unit of the part that begins here.
fn unit_at(text: &[u8], at: usize) -> Result<u64, TimeFault>
    requires { at ≤ length text.now }
    ensures { result ≡ unit_at text.now at }
{
    let start = unit_start(text, at);
    let end = unit_end(text, at);
    match unit(&text[start..end]) {
        Some(unit) => Ok(unit),
        None => Err(TimeFault::NoUnit { place: start }),
    }
}

// A sum, and the part that begins here.
fn with_part(text: &[u8], at: usize, sum: u64) -> Result<u64, TimeFault>
    requires { at ≤ length text.now }
    ensures { result ≡ with_part text.now at sum }
{
    let number = number_at(text, at)?;
    let unit = unit_at(text, at)?;
    match plus(sum, number, unit) {
        Some(sum) => Ok(sum),
        None => Err(TimeFault::TooLong { place: at }),
    }
}

// The sum of the parts from here on.
#[tactic(auto, using(crate::proofs::TimeLemmas::with_parts_ok, crate::proofs::TimeLemmas::with_parts_err))]
fn sum_of_parts(text: &[u8], start: usize) -> Result<u64, TimeFault>
    requires { start ≤ length text.now }
    ensures { result ≡ with_parts (length text.now) text.now start 0 }
{
    let mut sum = 0;
    let mut at = start;
    // A part has two bytes at least.
    let mut most = text.len();
    while 0 < most && at < text.len() {
        sum = with_part(text, at, sum)?;
        at = next_part(text, at);
        most -= 1;
    }
    Ok(sum)
}

/// The nanoseconds that a text says as a time: numbers with units, added, with spaces between, as `1h 30m`; or `0`.
#[tactic(auto, unfolding(crate::specs::Time::time_said))]
pub fn read_time(text: &str) -> Result<u64, TimeFault>
    ensures { result ≡ time_said text.now }
{
    let bytes = text.as_bytes();
    if text == "0" {
        return Ok(0);
    }
    let start = after(ByteKind::Space, bytes, 0);
    if start == bytes.len() {
        return Err(TimeFault::NoNumber { place: start });
    }
    sum_of_parts(bytes, start)
}
