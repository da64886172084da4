// Times and counts as they are shown.
ghost use Rattle.std.specs.Prelude.{◌≡◌, ◌++◌, decimal, string_bytes, IfOk, OnOk};
ghost use Rattle.run_progress.specs.Texts.{right};
ghost use Rattle.run_report.specs.Texts.{counter_text, dashes, delay_text, milliseconds, open_text};
ghost use Rattle.run_report.specs.Texts.{over_text, plural_text, seconds_text, took_text};

use run_capture::Mem;
use std::alloc::Global;

// Adds a text at the right of so many columns.
fn push_right(out: &mut String, width: usize, text: &str) -> Mem<()>
    ensures { OnOk result (string_bytes out.new ≡ string_bytes out.old ++ right width text.now) }
{
    for _column in 0..width.saturating_sub(text.len()) {
        out.push_str(" ")?;
    }
    out.push_str(text)?;
    Ok(())
}

/// A text at the right of so many columns.
pub(crate) fn at_right(alloc: Global, width: usize, text: &str) -> Mem<String>
    ensures { IfOk result (λ s. string_bytes s ≡ right width text.now) }
{
    let mut out = String::new(alloc);
    push_right(&mut out, width, text)?;
    Ok(out)
}

// Nanoseconds, rounded to milliseconds.
fn milliseconds(time: u64) -> u64
    ensures { result ≡ milliseconds time }
{
    time / 1_000_000 + u64::from(time % 1_000_000 >= 500_000)
}

/// Nanoseconds as seconds, with three decimals.
#[tactic(auto, using(crate::proofs::TextLemmas::padded_three), unfolding(crate::specs::Texts::seconds_text))]
pub(crate) fn seconds(alloc: Global, time: u64) -> Mem<String>
    ensures { IfOk result (λ s. string_bytes s ≡ seconds_text time) }
{
    let time = milliseconds(time);
    let whole = time / 1000;
    let rest = time % 1000;
    Ok(format!(in alloc; "{whole}.{rest:03}")?)
}

/// How long an attempt took.
pub(crate) fn took(alloc: Global, time: u64) -> Mem<String>
    ensures { IfOk result (λ s. string_bytes s ≡ took_text time) }
{
    let shown = at_right(alloc, 8, seconds(alloc, time)?.as_str())?;
    Ok(format!(in alloc; "[{shown}s] ")?)
}

/// How long an attempt has run, and runs on.
pub(crate) fn over(alloc: Global, time: u64) -> Mem<String>
    ensures { IfOk result (λ s. string_bytes s ≡ over_text time) }
{
    let shown = at_right(alloc, 7, seconds(alloc, time)?.as_str())?;
    Ok(format!(in alloc; "[>{shown}s] ")?)
}

/// How long the next attempt is waited for.
pub(crate) fn delay(alloc: Global, time: u64) -> Mem<String>
    ensures { IfOk result (λ s. string_bytes s ≡ delay_text time) }
{
    let shown = at_right(alloc, 7, seconds(alloc, time)?.as_str())?;
    Ok(format!(in alloc; "by {shown}s ")?)
}

// A number at the right of so many columns.
fn at_right_of(alloc: Global, width: usize, number: u64) -> Mem<String>
    ensures { IfOk result (λ s. string_bytes s ≡ right width (decimal number)) }
{
    let number = format!(in alloc; "{number}")?;
    at_right(alloc, width, number.as_str())
}

/// How many tests have finished, of so many, in the width of these.
pub(crate) fn counter(alloc: Global, done: u64, total: u64) -> Mem<String>
    ensures { IfOk result (λ s. string_bytes s ≡ counter_text done total) }
{
    let total = format!(in alloc; "{total}")?;
    let shown = at_right_of(alloc, total.len(), done)?;
    Ok(format!(in alloc; "({shown}/{total}) ")?)
}

/// Adds so many dashes.
pub(crate) fn push_dashes(out: &mut String, count: usize) -> Mem<()>
    ensures { OnOk result (string_bytes out.new ≡ string_bytes out.old ++ dashes count) }
{
    for _dash in 0..count {
        out.push_str("─")?;
    }
    Ok(())
}

/// In place of a counter, where no test finished: as wide as it would be.
pub(crate) fn open_counter(alloc: Global, total: u64) -> Mem<String>
    ensures { IfOk result (λ s. string_bytes s ≡ open_text total) }
{
    let total = format!(in alloc; "{total}")?;
    let mut out = String::from_str(alloc, "(")?;
    push_dashes(&mut out, total.len().saturating_mul(2).saturating_add(1))?;
    out.push_str(") ")?;
    Ok(out)
}

/// A count and what it counts.
pub(crate) fn plural(alloc: Global, count: u32, word: &str) -> Mem<String>
    ensures { IfOk result (λ s. string_bytes s ≡ plural_text count word.now) }
{
    plural_of(alloc, u64::from(count), word)
}

/// The same of a count that may be greater.
pub(crate) fn plural_of(alloc: Global, count: u64, word: &str) -> Mem<String>
    ensures { IfOk result (λ s. string_bytes s ≡ plural_text count word.now) }
{
    if count == 1 {
        Ok(format!(in alloc; "{count} {word}")?)
    } else {
        Ok(format!(in alloc; "{count} {word}s")?)
    }
}
