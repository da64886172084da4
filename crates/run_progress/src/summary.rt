// Counts of tests as they are shown.
ghost use Rattle.std.specs.Prelude.{◌≡◌, ◌++◌, codes, decimal, string_bytes, IfOk, OnOk, OnErr};
ghost use Rattle.run_progress.specs.Texts.{right};
ghost use Rattle.run_progress.specs.Summary.{
  count_text,
  counts_text,
  doing,
  failed_kinds,
  head_text,
  passed_kinds,
  progress_text,
  summary_text,
};
ghost use Rattle.run_progress.specs.Parts.{after_commas, closed, with_kind};

use crate::texts::in_brackets;
use run_capture::{Mem, Text};
use run_events::{CancelReason, RunStats};
use std::alloc::Global;

// Adds a kind of passed tests, where it has some.
fn push_kind(kinds: &mut String, count: u64, words: &str) -> Mem<()>
    ensures { OnOk result (string_bytes kinds.new ≡ with_kind count words.now (string_bytes kinds.old)) }
{
    if count > 0 {
        let lead = if kinds.is_empty() { " (" } else { ", " };
        write!(kinds, "{lead}{count}{words}")?;
    }
    Ok(())
}

// Kinds with the parenthesis that closes them.
fn close(kinds: String) -> Mem<String>
    ensures { IfOk result (λ s. string_bytes s ≡ closed (string_bytes kinds)) }
{
    let mut kinds = kinds;
    if !kinds.is_empty() {
        kinds.push_str(")")?;
    }
    Ok(kinds)
}

// Which of the passed tests were slow, flaky and leaky.
#[tactic(auto, using(crate::proofs::SummaryLemmas::kinds_closed))]
fn kinds_of_passed(alloc: Global, stats: &RunStats) -> Mem<String>
    ensures { IfOk result (λ s. string_bytes s ≡ passed_kinds stats.now) }
{
    let mut kinds = String::new(alloc);
    push_kind(&mut kinds, stats.passed_slow, " slow")?;
    push_kind(&mut kinds, stats.flaky, " flaky")?;
    push_kind(&mut kinds, stats.leaky, " leaky")?;
    close(kinds)
}

// Which of the failed tests failed for a leak.
fn kinds_of_failed(alloc: Global, stats: &RunStats) -> Mem<String>
    ensures { IfOk result (λ s. string_bytes s ≡ failed_kinds stats.now) }
{
    let leaky = stats.leaky_failed;
    if leaky > 0 {
        Ok(format!(in alloc; " ({leaky} due to being leaky)")?)
    } else {
        Ok(String::new(alloc))
    }
}

// How many tests passed, with their kinds.
fn passed_part(alloc: Global, stats: &RunStats) -> Mem<String>
    ensures { IfOk result (λ s. string_bytes s
        ≡ decimal stats.now.passed ++ (codes " passed" ++ passed_kinds stats.now)) }
{
    let kinds = kinds_of_passed(alloc, stats)?;
    let passed = stats.passed;
    Ok(format!(in alloc; "{passed} passed{kinds}")?)
}

// Adds how many tests failed, with their kinds, after a comma, where some did.
fn push_failed(alloc: Global, parts: &mut String, stats: &RunStats) -> Mem<()>
    ensures { OnOk result (string_bytes parts.new ≡ string_bytes parts.old
        ++ after_commas (count_text stats.now.failed (codes " failed" ++ failed_kinds stats.now))) }
{
    let failed = stats.failed;
    if failed > 0 {
        let kinds = kinds_of_failed(alloc, stats)?;
        write!(parts, ", {failed} failed{kinds}")?;
    }
    Ok(())
}

// Adds a part after a comma, where its count is above 0.
fn push_part(parts: &mut String, count: u64, words: &str) -> Mem<()>
    ensures { OnOk result (string_bytes parts.new
        ≡ string_bytes parts.old ++ after_commas (count_text count words.now)) }
{
    if count > 0 {
        write!(parts, ", {count}{words}")?;
    }
    Ok(())
}

// Adds the last part, how many tests were skipped.
fn push_skipped(parts: &mut String, skipped: u64) -> Mem<()>
    ensures { OnOk result (string_bytes parts.new
        ≡ string_bytes parts.old ++ (codes ", " ++ (decimal skipped ++ codes " skipped"))) }
{
    write!(parts, ", {skipped} skipped")?;
    Ok(())
}

// How many tests passed, failed, and were skipped.
fn summary(alloc: Global, stats: &RunStats) -> Mem<String>
    ensures { IfOk result (λ s. string_bytes s ≡ summary_text stats.now) }
{
    let mut parts = passed_part(alloc, stats)?;
    push_failed(alloc, &mut parts, stats)?;
    push_part(&mut parts, stats.exec_failed, " exec failed")?;
    push_part(&mut parts, stats.failed_timed_out, " timed out")?;
    push_skipped(&mut parts, stats.skipped)?;
    Ok(parts)
}

/// Adds to a text how many tests passed, with their kinds, failed, and were skipped. Counts of 0 are left out but for
/// passed and skipped tests.
///
/// ```text
/// // 3 passed (1 slow, 1 flaky), 1 failed, 0 skipped
/// write_summary_str(alloc, &stats, &mut out)?;
/// ```
pub fn write_summary_str(alloc: Global, stats: &RunStats, out: &mut Text) -> Mem<()>
    ensures ok { OnOk result (out.new ≡ out.old ++ summary_text stats.now) }
    ensures err { OnErr result (out.new ≡ out.old) }
{
    let text = summary(alloc, stats)?;
    out.push_str(alloc, text.as_str())
}

// What the run does, in twelve columns.
fn doing(reason: Option<CancelReason>) -> &'static str
    ensures { result.now ≡ right 12 (doing reason) }
{
    match reason {
        None => "     Running",
        Some(CancelReason::SecondSignal) => "     Killing",
        Some(_) => "  Cancelling",
    }
}

/// What the run does, for how long, and how many of its tests have finished.
#[tactic(auto, unfolding(crate::specs::Summary::head_text))]
pub(crate) fn head(alloc: Global, elapsed: u64, stats: &RunStats) -> Mem<String>
    ensures { IfOk result (λ s. string_bytes s ≡ head_text elapsed stats.now) }
{
    let time = in_brackets(alloc, elapsed)?;
    let doing = doing(stats.cancel_reason);
    let finished = stats.finished_count;
    let all = stats.initial_run_count;
    Ok(format!(in alloc; "{doing} {time}{finished}/{all}: ")?)
}

/// How many tests run, and how the finished ones ended.
#[tactic(auto, unfolding(crate::specs::Summary::counts_text))]
pub(crate) fn counts(alloc: Global, running: u32, stats: &RunStats) -> Mem<String>
    ensures { IfOk result (λ s. string_bytes s ≡ counts_text running stats.now) }
{
    let summary = summary(alloc, stats)?;
    Ok(format!(in alloc; "{running} running, {summary}")?)
}

/// A run's progress in one line, after so much of its active time and with so many tests running.
///
/// ```text
/// //      Running [ 00:00:00] 0/0: 0 running, 0 passed, 0 skipped
/// progress_str(alloc, 0, &RunStats::nothing(), 0)?;
/// ```
pub fn progress_str(alloc: Global, elapsed: u64, stats: &RunStats, running: u32) -> Mem<Text>
    ensures { IfOk result (λ text. text ≡ progress_text elapsed stats.now running) }
{
    let head = head(alloc, elapsed, stats)?;
    let counts = counts(alloc, running, stats)?;
    Ok(Text::from_string(format!(in alloc; "{head}{counts}")?))
}
