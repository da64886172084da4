// The end of a run or a sub-run in a report.
ghost use Rattle.std.specs.Prelude.{◌≡◌, ◌++◌, string_bytes, IfOk, OnOk, true};
ghost use Rattle.run_report.specs.Finished.{piece_if};
ghost use Rattle.run_report.specs.Pieces.{
  pieces_bytes,
  ran_count,
  ran_noun,
  ran_said,
  summary,
  summary_said,
  summary_shown,
  summary_style,
  warning,
  warning_shown,
};
ghost use Rattle.run_progress.specs.Summary.{summary_text};
ghost use Rattle.run_report.specs.Runs.{count_pieces, unrun_noun, unrun_pieces, unrun_text};

use crate::lines::word_line;
use crate::runs::{push_rule, why_text};
use crate::shown::Shown;
use crate::style::push_part;
use crate::texts::took;
use crate::{ReportSettings, Style};
use run_capture::{Mem, Text};
use run_events::RunStats;
use run_progress::write_summary_str;
use std::alloc::Global;

// How many tests ran, of how many.
fn ran_count(alloc: Global, stats: &RunStats) -> Mem<String>
    ensures { IfOk result (λ s. string_bytes s ≡ ran_count stats.now) }
{
    let done = stats.finished_count;
    let all = stats.initial_run_count;
    if done == all {
        Ok(format!(in alloc; "{done}")?)
    } else {
        Ok(format!(in alloc; "{done}/{all}")?)
    }
}

// What they are called.
fn ran_noun(stats: &RunStats) -> &'static str
    ensures { result.now ≡ ran_noun stats.now }
{
    if stats.finished_count == 1 && stats.initial_run_count == 1 {
        " test run: "
    } else {
        " tests run: "
    }
}

// How they ended.
fn ends(alloc: Global, stats: &RunStats) -> Mem<Text>
    ensures { IfOk result (λ text. text ≡ summary_text stats.now) }
{
    let mut text = Text::from_str(alloc, "")?;
    write_summary_str(alloc, stats, &mut text)?;
    Ok(text)
}

// How many ran, and how they ended.
fn ran_said(alloc: Global, stats: &RunStats) -> Mem<String>
    ensures { IfOk result (λ s. string_bytes s ≡ ran_said stats.now) }
{
    let count = ran_count(alloc, stats)?;
    let noun = ran_noun(stats);
    let ends = ends(alloc, stats)?;
    let ends = ends.as_str();
    Ok(format!(in alloc; "{count}{noun}{ends}")?)
}

// What a summary says.
#[tactic(auto, unfolding(crate::specs::Pieces::summary_said))]
fn summary_said(alloc: Global, elapsed: u64, stats: &RunStats) -> Mem<String>
    ensures { IfOk result (λ s. string_bytes s ≡ summary_said elapsed stats.now) }
{
    let took = took(alloc, elapsed)?;
    let said = ran_said(alloc, stats)?;
    Ok(format!(in alloc; "{took}{said}")?)
}

// Green where all ran and nothing failed.
fn summary_style(stats: &RunStats) -> Style
    ensures { result ≡ summary_style stats.now }
{
    if stats.has_failures() || stats.finished_count < stats.initial_run_count {
        Style::Red
    } else {
        Style::Green
    }
}

// The counts of a run or a sub-run.
fn summary_line(alloc: Global, color: bool, elapsed: u64, stats: &RunStats) -> Mem<String>
    ensures { IfOk result (λ s. string_bytes s ≡ summary_shown color elapsed stats.now) }
{
    let said = summary_said(alloc, elapsed, stats)?;
    word_line(alloc, color, summary_style(stats), "Summary", said.as_str())
}

// Adds the counts of a run or a sub-run.
#[tactic(auto, using(crate::proofs::PieceLemmas::one_piece))]
fn push_summary(
    alloc: Global,
    shown: &mut Shown,
    settings: &ReportSettings,
    elapsed: u64,
    stats: &RunStats,
) -> Mem<()>
    ensures { OnOk result (shown.new ≡ shown.old
        ++ pieces_bytes settings.now (piece_if true (summary elapsed stats.now))) }
{
    let line = summary_line(alloc, settings.color, elapsed, stats)?;
    shown.push(line)
}

/// Adds a line of dashes, and the counts of a run or a sub-run that took so long.
#[tactic(auto, using(crate::proofs::PieceLemmas::pieces_two))]
pub(crate) fn push_ended(
    alloc: Global,
    shown: &mut Shown,
    settings: &ReportSettings,
    elapsed: u64,
    stats: &RunStats,
) -> Mem<()>
    ensures { OnOk result (shown.new ≡ shown.old
        ++ pieces_bytes settings.now (count_pieces elapsed stats.now)) }
{
    push_rule(alloc, shown, settings)?;
    push_summary(alloc, shown, settings, elapsed, stats)
}

// A warning.
#[tactic(auto, unfolding(crate::specs::Style::spans_bytes))]
fn warning_line(alloc: Global, color: bool, said: &str) -> Mem<String>
    ensures { IfOk result (λ s. string_bytes s ≡ warning_shown color said.now) }
{
    let mut line = String::new(alloc);
    push_part(&mut line, color, Style::Yellow, "warning")?;
    push_part(&mut line, color, Style::Plain, ": ")?;
    push_part(&mut line, color, Style::Plain, said)?;
    line.push_str("\n")?;
    Ok(line)
}

/// Adds a warning.
#[tactic(auto, using(crate::proofs::PieceLemmas::one_piece))]
pub(crate) fn push_warning(
    alloc: Global,
    shown: &mut Shown,
    settings: &ReportSettings,
    said: &str,
) -> Mem<()>
    ensures { OnOk result (shown.new ≡ shown.old ++ pieces_bytes settings.now (piece_if true (warning said.now))) }
{
    let line = warning_line(alloc, settings.color, said)?;
    shown.push(line)
}

fn unrun_noun(all: u64) -> &'static str
    ensures { result.now ≡ unrun_noun all }
{
    if all == 1 {
        " test was not run due to "
    } else {
        " tests were not run due to "
    }
}

// What is said where not all tests ran.
fn unrun_text(alloc: Global, stats: &RunStats) -> Mem<String>
    ensures { IfOk result (λ s. string_bytes s ≡ unrun_text stats.now) }
{
    let all = stats.initial_run_count;
    let left = all.saturating_sub(stats.finished_count);
    let noun = unrun_noun(all);
    let why = why_text(stats.cancel_reason);
    Ok(format!(in alloc; "{left}/{all}{noun}{why}")?)
}

/// Adds that not all tests ran, where it is so.
pub(crate) fn push_unrun(
    alloc: Global,
    shown: &mut Shown,
    settings: &ReportSettings,
    stats: &RunStats,
) -> Mem<()>
    ensures { OnOk result (shown.new ≡ shown.old ++ pieces_bytes settings.now (unrun_pieces stats.now)) }
{
    if stats.finished_count < stats.initial_run_count {
        let said = unrun_text(alloc, stats)?;
        push_warning(alloc, shown, settings, said.as_str())
    } else {
        Ok(())
    }
}
