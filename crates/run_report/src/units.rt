// A test that goes on, in a report.
ghost use Rattle.std.specs.Prelude.{◌≡◌, ◌++◌, nat_lt, string_bytes, IfOk, OnOk, true};
ghost use Rattle.run_report.specs.Finished.{piece_if, status_block};
ghost use Rattle.run_report.specs.declared.style.Style.TheVariants.{Magenta};
ghost use Rattle.run_report.specs.Levels.{is_at_once};
ghost use Rattle.run_report.specs.Lines.{test_spans};
ghost use Rattle.run_report.specs.Pieces.{output, pieces_bytes, test};
ghost use Rattle.run_report.specs.Style.{line_shown};
ghost use Rattle.run_report.specs.Texts.{delay_text, open_text, took_text};
ghost use Rattle.run_report.specs.Units.{
  attempt_line,
  attempt_pieces,
  attempt_word,
  delay_line,
  delay_word,
  no_time_text,
  retry_line,
  retry_pieces,
  skip_line,
  skip_pieces,
  slow_level,
  slow_line,
  slow_pieces,
  slow_word,
};

use crate::finished::push_status;
use crate::lines::test_line;
use crate::shown::Shown;
use crate::texts::{delay, open_counter, over, took};
use crate::words::short_word;
use crate::{ReportSettings, StatusLevel, Style};
use run_capture::Mem;
use run_events::{AttemptFailed, ExecuteStatus, TestRetry, TestSkip, TestSlow};
use std::alloc::Global;

// The level of a slow report.
fn slow_level(slow: &TestSlow) -> StatusLevel
    ensures { result ≡ slow_level slow.now }
{
    if !slow.terminates {
        StatusLevel::Slow
    } else if slow.attempt == slow.attempts {
        StatusLevel::Fail
    } else {
        StatusLevel::Retry
    }
}

// Its word.
fn slow_word(alloc: Global, slow: &TestSlow) -> Mem<String>
    ensures { IfOk result (λ s. string_bytes s ≡ slow_word slow.now) }
{
    let attempt = slow.attempt;
    let word = match (slow.attempts > 1, slow.terminates) {
        (true, true) => format!(in alloc; "TRY {attempt} TRMNTG")?,
        (true, false) => format!(in alloc; "TRY {attempt} SLOW")?,
        (false, true) => String::from_str(alloc, "TERMINATING")?,
        (false, false) => String::from_str(alloc, "SLOW")?,
    };
    Ok(word)
}

// Its line, of so many tests.
fn slow_line(alloc: Global, color: bool, total: u64, slow: &TestSlow) -> Mem<String>
    ensures { IfOk result (λ s. string_bytes s ≡ line_shown color (test_spans (slow_line total slow.now))) }
{
    let word = slow_word(alloc, slow)?;
    let over = over(alloc, slow.elapsed_slow)?;
    let open = open_counter(alloc, total)?;
    let middle = format!(in alloc; "{over}{open}")?;
    let style = if slow.terminates {
        Style::Red
    } else {
        Style::Yellow
    };
    test_line(
        alloc,
        color,
        style,
        word.as_str(),
        middle.as_str(),
        &slow.test,
    )
}

/// Adds a slow test, of so many tests.
#[tactic(auto, using(crate::proofs::PieceLemmas::one_piece))]
pub(crate) fn push_slow(
    alloc: Global,
    shown: &mut Shown,
    settings: &ReportSettings,
    total: u64,
    slow: &TestSlow,
) -> Mem<()>
    ensures { OnOk result (shown.new ≡ shown.old
        ++ pieces_bytes settings.now (slow_pieces settings.now total slow.now)) }
{
    if settings.status.shows(slow_level(slow)) {
        let line = slow_line(alloc, settings.color, total, slow)?;
        shown.push(line)
    } else {
        Ok(())
    }
}

// The word of a failed attempt.
fn attempt_word(alloc: Global, status: &ExecuteStatus) -> Mem<String>
    ensures { IfOk result (λ s. string_bytes s ≡ attempt_word status.now) }
{
    let attempt = status.attempt;
    let ended = short_word(alloc, status.result)?;
    Ok(format!(in alloc; "TRY {attempt} {ended}")?)
}

// How long it took, of so many tests.
fn took_open(alloc: Global, time: u64, total: u64) -> Mem<String>
    ensures { IfOk result (λ s. string_bytes s ≡ took_text time ++ open_text total) }
{
    let took = took(alloc, time)?;
    let open = open_counter(alloc, total)?;
    Ok(format!(in alloc; "{took}{open}")?)
}

// The line of a failed attempt, of so many tests.
fn attempt_line(alloc: Global, color: bool, total: u64, failed: &AttemptFailed) -> Mem<String>
    ensures { IfOk result (λ s. string_bytes s ≡ line_shown color (test_spans (attempt_line total failed.now))) }
{
    let word = attempt_word(alloc, &failed.status)?;
    let middle = took_open(alloc, failed.status.time, total)?;
    test_line(
        alloc,
        color,
        Style::Magenta,
        word.as_str(),
        middle.as_str(),
        &failed.test,
    )
}

// The word of the delay after it.
fn delay_word(alloc: Global, status: &ExecuteStatus) -> Mem<String>
    ensures { IfOk result (λ s. string_bytes s ≡ delay_word status.now) }
{
    let next = u64::from(status.attempt) + 1;
    let attempts = status.attempts;
    Ok(format!(in alloc; "DELAY {next}/{attempts}")?)
}

// How long the delay is, of so many tests.
fn delay_open(alloc: Global, time: u64, total: u64) -> Mem<String>
    ensures { IfOk result (λ s. string_bytes s ≡ delay_text time ++ open_text total) }
{
    let delay = delay(alloc, time)?;
    let open = open_counter(alloc, total)?;
    Ok(format!(in alloc; "{delay}{open}")?)
}

// The line of that delay.
fn delay_line(alloc: Global, color: bool, total: u64, failed: &AttemptFailed) -> Mem<String>
    ensures { IfOk result (λ s. string_bytes s ≡ line_shown color (test_spans (delay_line total failed.now))) }
{
    let word = delay_word(alloc, &failed.status)?;
    let middle = delay_open(alloc, failed.delay_next, total)?;
    test_line(
        alloc,
        color,
        Style::Magenta,
        word.as_str(),
        middle.as_str(),
        &failed.test,
    )
}

// Adds the output of a failed attempt, where it is shown.
#[tactic(auto, using(crate::proofs::PieceLemmas::one_piece))]
fn push_attempt_output(
    alloc: Global,
    shown: &mut Shown,
    settings: &ReportSettings,
    failed: &AttemptFailed,
) -> Mem<()>
    ensures { OnOk result (shown.new ≡ shown.old ++ pieces_bytes settings.now
        (piece_if (is_at_once settings.now.failure_output) (output (status_block Magenta failed.now.status)))) }
{
    if settings.failure_output.is_at_once() {
        push_status(alloc, shown, settings.color, Style::Magenta, &failed.status)
    } else {
        Ok(())
    }
}

// Adds the line of the delay after it, where there is one.
#[tactic(auto, using(crate::proofs::PieceLemmas::one_piece))]
fn push_delay(
    alloc: Global,
    shown: &mut Shown,
    settings: &ReportSettings,
    total: u64,
    failed: &AttemptFailed,
) -> Mem<()>
    ensures { OnOk result (shown.new ≡ shown.old ++ pieces_bytes settings.now
        (piece_if (nat_lt 0 failed.now.delay_next) (test (delay_line total failed.now)))) }
{
    if failed.delay_next > 0 {
        let line = delay_line(alloc, settings.color, total, failed)?;
        shown.push(line)
    } else {
        Ok(())
    }
}

// Adds the line of a failed attempt.
#[tactic(auto, using(crate::proofs::PieceLemmas::one_piece))]
fn push_attempt(
    alloc: Global,
    shown: &mut Shown,
    settings: &ReportSettings,
    total: u64,
    failed: &AttemptFailed,
) -> Mem<()>
    ensures { OnOk result (shown.new ≡ shown.old
        ++ pieces_bytes settings.now (piece_if true (test (attempt_line total failed.now)))) }
{
    let line = attempt_line(alloc, settings.color, total, failed)?;
    shown.push(line)
}

/// Adds a failed attempt that is followed by another, of so many tests: its line, its output, and the delay.
#[tactic(auto, using(crate::proofs::PieceLemmas::pieces_two), unfolding(crate::specs::Units::attempt_pieces))]
pub(crate) fn push_failed(
    alloc: Global,
    shown: &mut Shown,
    settings: &ReportSettings,
    total: u64,
    failed: &AttemptFailed,
) -> Mem<()>
    ensures { OnOk result (shown.new ≡ shown.old
        ++ pieces_bytes settings.now (attempt_pieces settings.now total failed.now)) }
{
    if settings.status.shows(StatusLevel::Retry) {
        push_attempt(alloc, shown, settings, total, failed)?;
        push_attempt_output(alloc, shown, settings, failed)?;
        push_delay(alloc, shown, settings, total, failed)
    } else {
        Ok(())
    }
}

// In place of a time and a counter, of so many tests.
fn no_time(alloc: Global, total: u64) -> Mem<String>
    ensures { IfOk result (λ s. string_bytes s ≡ no_time_text total) }
{
    let open = open_counter(alloc, total)?;
    Ok(format!(in alloc; "[         ] {open}")?)
}

// The line of a further attempt, of so many tests.
fn retry_line(alloc: Global, color: bool, total: u64, retry: &TestRetry) -> Mem<String>
    ensures { IfOk result (λ s. string_bytes s ≡ line_shown color (test_spans (retry_line total retry.now))) }
{
    let attempt = retry.attempt;
    let attempts = retry.attempts;
    let word = format!(in alloc; "RETRY {attempt}/{attempts}")?;
    let middle = no_time(alloc, total)?;
    test_line(
        alloc,
        color,
        Style::Magenta,
        word.as_str(),
        middle.as_str(),
        &retry.start.test,
    )
}

/// Adds a further attempt, of so many tests.
#[tactic(auto, using(crate::proofs::PieceLemmas::one_piece))]
pub(crate) fn push_retry(
    alloc: Global,
    shown: &mut Shown,
    settings: &ReportSettings,
    total: u64,
    retry: &TestRetry,
) -> Mem<()>
    ensures { OnOk result (shown.new ≡ shown.old
        ++ pieces_bytes settings.now (retry_pieces settings.now total retry.now)) }
{
    if settings.status.shows(StatusLevel::All) {
        let line = retry_line(alloc, settings.color, total, retry)?;
        shown.push(line)
    } else {
        Ok(())
    }
}

// The line of a skipped test, of so many tests.
fn skip_line(alloc: Global, color: bool, total: u64, skip: &TestSkip) -> Mem<String>
    ensures { IfOk result (λ s. string_bytes s ≡ line_shown color (test_spans (skip_line total skip.now))) }
{
    let middle = no_time(alloc, total)?;
    test_line(
        alloc,
        color,
        Style::Yellow,
        "SKIP",
        middle.as_str(),
        &skip.test,
    )
}

/// Adds a skipped test, of so many tests.
#[tactic(auto, using(crate::proofs::PieceLemmas::one_piece))]
pub(crate) fn push_skip(
    alloc: Global,
    shown: &mut Shown,
    settings: &ReportSettings,
    total: u64,
    skip: &TestSkip,
) -> Mem<()>
    ensures { OnOk result (shown.new ≡ shown.old
        ++ pieces_bytes settings.now (skip_pieces settings.now total skip.now)) }
{
    if settings.status.shows(StatusLevel::Skip) {
        let line = skip_line(alloc, settings.color, total, skip)?;
        shown.push(line)
    } else {
        Ok(())
    }
}
