// The run's own events in a report.
ghost use Rattle.std.specs.Prelude.{◌≡◌, ◌++◌, codes, string_bytes, IfOk, OnOk, true};
ghost use Rattle.run_report.specs.declared.style.Style.TheVariants.{Green, Red};
ghost use Rattle.run_report.specs.Pieces.{counts, pieces_bytes, rule, rule_shown, words};
ghost use Rattle.run_report.specs.Pieces.{counts_shown};
ghost use Rattle.run_report.specs.Finished.{piece_if};
ghost use Rattle.run_report.specs.Style.{line_shown};
ghost use Rattle.run_report.specs.Runs.{
  cancel_text,
  job_text,
  next_run_text,
  run_pieces,
  run_text,
  start_pieces,
  still_text,
  sub_run_pieces,
  sub_run_text,
  tests_piece,
  titled_pieces,
  why_text,
};

use crate::lines::word_line;
use crate::shown::Shown;
use crate::style::push_part;
use crate::texts::{plural, seconds};
use crate::words::reason_text;
use crate::{ReportSettings, Style};
use run_capture::Mem;
use run_events::{CancelReason, JobControlled, RunCancelled, RunStarted, RunStats, StressProgress};
use run_progress::progress_str;
use std::alloc::Global;

// A line of dashes.
#[tactic(auto, unfolding(crate::specs::Style::spans_bytes))]
fn rule_line(alloc: Global, color: bool) -> Mem<String>
    ensures { IfOk result (λ s. string_bytes s ≡ rule_shown color) }
{
    let mut line = String::new(alloc);
    push_part(&mut line, color, Style::Plain, "────────────")?;
    line.push_str("\n")?;
    Ok(line)
}

/// Adds a line of dashes.
#[tactic(auto, using(crate::proofs::PieceLemmas::one_piece))]
pub(crate) fn push_rule(alloc: Global, shown: &mut Shown, settings: &ReportSettings) -> Mem<()>
    ensures { OnOk result (shown.new ≡ shown.old ++ pieces_bytes settings.now (piece_if true rule)) }
{
    let line = rule_line(alloc, settings.color)?;
    shown.push(line)
}

/// Adds a line that is a word in a style and what is said.
#[tactic(auto, using(crate::proofs::PieceLemmas::one_piece))]
pub(crate) fn push_words(
    alloc: Global,
    shown: &mut Shown,
    settings: &ReportSettings,
    style: Style,
    word: &str,
    said: &str,
) -> Mem<()>
    ensures { OnOk result (shown.new ≡ shown.old
        ++ pieces_bytes settings.now (piece_if true (words style word.now said.now))) }
{
    let line = word_line(alloc, settings.color, style, word, said)?;
    shown.push(line)
}

// Adds a line of dashes, and a line that is a word and what is said.
#[tactic(auto, using(crate::proofs::PieceLemmas::pieces_two))]
fn push_titled(
    alloc: Global,
    shown: &mut Shown,
    settings: &ReportSettings,
    word: &str,
    said: &str,
) -> Mem<()>
    ensures { OnOk result (shown.new ≡ shown.old
        ++ pieces_bytes settings.now (titled_pieces word.now said.now)) }
{
    push_rule(alloc, shown, settings)?;
    push_words(alloc, shown, settings, Style::Green, word, said)
}

// What is said of the run that starts.
fn run_text(alloc: Global, started: &RunStarted) -> Mem<String>
    ensures { IfOk result (λ s. string_bytes s ≡ run_text started.now) }
{
    let id = started.run_id;
    let profile = started.profile.as_str();
    Ok(format!(in alloc; "ID {id} with nextest profile: {profile}")?)
}

// Adds which run it is.
fn push_run(
    alloc: Global,
    shown: &mut Shown,
    settings: &ReportSettings,
    started: &RunStarted,
) -> Mem<()>
    ensures { OnOk result (shown.new ≡ shown.old ++ pieces_bytes settings.now (run_pieces started.now)) }
{
    let said = run_text(alloc, started)?;
    push_titled(alloc, shown, settings, "Nextest run", said.as_str())
}

// Adds how many tests it has.
fn push_tests(
    alloc: Global,
    shown: &mut Shown,
    settings: &ReportSettings,
    started: &RunStarted,
) -> Mem<()>
    ensures { OnOk result (shown.new ≡ shown.old
        ++ pieces_bytes settings.now (piece_if true (tests_piece started.now))) }
{
    let said = plural(alloc, started.tests, "test")?;
    push_words(
        alloc,
        shown,
        settings,
        Style::Green,
        "Starting",
        said.as_str(),
    )
}

/// Adds the start of a run.
#[tactic(auto, using(crate::proofs::PieceLemmas::pieces_two), unfolding(crate::specs::Runs::start_pieces))]
pub(crate) fn push_start(
    alloc: Global,
    shown: &mut Shown,
    settings: &ReportSettings,
    started: &RunStarted,
) -> Mem<()>
    ensures { OnOk result (shown.new ≡ shown.old ++ pieces_bytes settings.now (start_pieces started.now)) }
{
    push_run(alloc, shown, settings, started)?;
    push_tests(alloc, shown, settings, started)
}

// What is said of the sub-run that starts, after so many that took so long.
fn next_run_text(alloc: Global, ended: u32, elapsed: u64) -> Mem<String>
    ensures { IfOk result (λ s. string_bytes s ≡ next_run_text ended elapsed) }
{
    let next = u64::from(ended) + 1;
    let elapsed = seconds(alloc, elapsed)?;
    Ok(format!(in alloc; "iteration {next} ({elapsed}s elapsed so far)")?)
}

fn sub_run_text(alloc: Global, so_far: &StressProgress) -> Mem<String>
    ensures { IfOk result (λ s. string_bytes s ≡ sub_run_text so_far.now) }
{
    match so_far {
        StressProgress::Count {
            elapsed,
            completed,
            ..
        } => next_run_text(alloc, *completed, *elapsed),
        StressProgress::Time {
            elapsed,
            completed,
            ..
        } => next_run_text(alloc, *completed, *elapsed),
    }
}

/// Adds the start of a sub-run.
pub(crate) fn push_sub_run(
    alloc: Global,
    shown: &mut Shown,
    settings: &ReportSettings,
    so_far: &StressProgress,
) -> Mem<()>
    ensures { OnOk result (shown.new ≡ shown.old ++ pieces_bytes settings.now (sub_run_pieces so_far.now)) }
{
    let said = sub_run_text(alloc, so_far)?;
    push_titled(alloc, shown, settings, "Stress test", said.as_str())
}

/// Why a run didn't go on.
pub(crate) fn why_text(reason: Option<CancelReason>) -> &'static str
    ensures { result.now ≡ why_text reason }
{
    match reason {
        Some(reason) => reason_text(reason),
        None => "an end before they ran",
    }
}

// What still runs.
fn still_text(alloc: Global, running: u32, scripts: u32) -> Mem<String>
    ensures { IfOk result (λ s. string_bytes s ≡ still_text running scripts) }
{
    if scripts > 0 {
        plural(alloc, scripts, "setup script")
    } else {
        plural(alloc, running, "test")
    }
}

// What is said of a run that is cancelled or killed.
fn cancel_text(alloc: Global, cancelled: &RunCancelled) -> Mem<String>
    ensures { IfOk result (λ s. string_bytes s ≡ cancel_text cancelled.now) }
{
    let why = why_text(cancelled.stats.cancel_reason);
    let still = still_text(alloc, cancelled.running, cancelled.scripts_running)?;
    Ok(format!(in alloc; "due to {why}: {still} still running")?)
}

/// Adds a run that is cancelled or killed.
pub(crate) fn push_cancel(
    alloc: Global,
    shown: &mut Shown,
    settings: &ReportSettings,
    word: &str,
    cancelled: &RunCancelled,
) -> Mem<()>
    ensures { OnOk result (shown.new ≡ shown.old
        ++ pieces_bytes settings.now (piece_if true (words Red word.now (cancel_text cancelled.now)))) }
{
    let said = cancel_text(alloc, cancelled)?;
    push_words(alloc, shown, settings, Style::Red, word, said.as_str())
}

// What is stopped, or goes on.
fn job_text(alloc: Global, job: &JobControlled) -> Mem<String>
    ensures { IfOk result (λ s. string_bytes s ≡ job_text job.now) }
{
    let units = if job.scripts_running > 0 {
        plural(alloc, job.scripts_running, "setup script")?
    } else {
        plural(alloc, job.running, "running test")?
    };
    Ok(format!(in alloc; "{units} due to signal")?)
}

/// Adds a run that is stopped, or goes on.
pub(crate) fn push_job(
    alloc: Global,
    shown: &mut Shown,
    settings: &ReportSettings,
    word: &str,
    job: &JobControlled,
) -> Mem<()>
    ensures { OnOk result (shown.new ≡ shown.old
        ++ pieces_bytes settings.now (piece_if true (words Green word.now (job_text job.now)))) }
{
    let said = job_text(alloc, job)?;
    push_words(alloc, shown, settings, Style::Green, word, said.as_str())
}

// The counts of a run so far.
#[tactic(auto, unfolding(crate::specs::Style::spans_bytes))]
fn counts_line(
    alloc: Global,
    color: bool,
    elapsed: u64,
    stats: &RunStats,
    running: u32,
) -> Mem<String>
    ensures { IfOk result (λ s. string_bytes s ≡ counts_shown color elapsed stats.now running) }
{
    let text = progress_str(alloc, elapsed, stats, running)?;
    let mut line = String::new(alloc);
    push_part(&mut line, color, Style::Plain, text.as_str())?;
    line.push_str("\n")?;
    Ok(line)
}

/// Adds the counts of a run so far.
#[tactic(auto, using(crate::proofs::PieceLemmas::one_piece))]
pub(crate) fn push_counts(
    alloc: Global,
    shown: &mut Shown,
    settings: &ReportSettings,
    elapsed: u64,
    stats: &RunStats,
    running: u32,
) -> Mem<()>
    ensures { OnOk result (shown.new ≡ shown.old
        ++ pieces_bytes settings.now (piece_if true (counts elapsed stats.now running))) }
{
    let line = counts_line(alloc, settings.color, elapsed, stats, running)?;
    shown.push(line)
}
