// The end of a stress run, and of a rerun, in a report.
ghost use Rattle.std.specs.Prelude.{◌≡◌, ◌++◌, ◌∷◌, codes, string_bytes, true, IfOk, OnOk};
ghost use Rattle.std.specs.List.{flat_map};
ghost use Rattle.run_progress.specs.Lines.{name_text};
ghost use Rattle.run_report.specs.Ends.{
  all_named,
  of_runs,
  passed_runs,
  stress_pieces,
  stress_text,
  stress_style,
  unseen_pieces,
  unseen_said,
};
ghost use Rattle.run_report.specs.Finished.{piece_if};
ghost use Rattle.run_report.specs.Pieces.{pieces_bytes, warning, words};

use crate::runs::{push_rule, push_words};
use crate::shown::Shown;
use crate::summary::push_warning;
use crate::texts::{plural_of, took};
use crate::{ReportSettings, Style};
use run_capture::Mem;
use run_events::{FinalRunStats, StressRunStats, TestInstanceId, TestsNotSeen};
use std::alloc::Global;

// How many sub-runs there were to be.
fn of_runs(alloc: Global, total: Option<u32>) -> Mem<String>
    ensures { IfOk result (λ s. string_bytes s ≡ of_runs total) }
{
    match total {
        Some(total) => Ok(format!(in alloc; "/{total}")?),
        None => Ok(String::new(alloc)),
    }
}

// How many passed and failed.
#[tactic(auto, unfolding(crate::specs::Ends::passed_runs))]
fn passed_runs(alloc: Global, stats: &StressRunStats) -> Mem<String>
    ensures { IfOk result (λ s. string_bytes s ≡ passed_runs stats.now) }
{
    let passed = stats.success_count;
    let failed = stats.failed_count;
    Ok(format!(in alloc; " stress run iterations: {passed} passed, {failed} failed")?)
}

// What is said of the end of a stress run.
#[tactic(auto, unfolding(crate::specs::Ends::stress_text))]
fn stress_text(alloc: Global, elapsed: u64, stats: &StressRunStats) -> Mem<String>
    ensures { IfOk result (λ s. string_bytes s ≡ stress_text elapsed stats.now) }
{
    let took = took(alloc, elapsed)?;
    let all = of_runs(alloc, stats.completed.total)?;
    let ended = passed_runs(alloc, stats)?;
    let count = stats.completed.current;
    Ok(format!(in alloc; "{took}{count}{all}{ended}")?)
}

// Green where the last sub-run was a success.
fn stress_style(stats: &StressRunStats) -> Style
    ensures { result ≡ stress_style stats.now }
{
    match stats.last_final_stats {
        FinalRunStats::Success => Style::Green,
        FinalRunStats::NoTestsRun => Style::Red,
        FinalRunStats::Cancelled { .. } => Style::Red,
        FinalRunStats::Failed { .. } => Style::Red,
    }
}

// Adds its counts.
fn push_stress_counts(
    alloc: Global,
    shown: &mut Shown,
    settings: &ReportSettings,
    elapsed: u64,
    stats: &StressRunStats,
) -> Mem<()>
    ensures { OnOk result (shown.new ≡ shown.old ++ pieces_bytes settings.now
        (piece_if true (words (stress_style stats.now) (codes "Summary") (stress_text elapsed stats.now)))) }
{
    let said = stress_text(alloc, elapsed, stats)?;
    push_words(
        alloc,
        shown,
        settings,
        stress_style(stats),
        "Summary",
        said.as_str(),
    )
}

/// Adds the end of a stress run that took so long.
#[tactic(auto, using(crate::proofs::PieceLemmas::pieces_two))]
pub(crate) fn push_stress(
    alloc: Global,
    shown: &mut Shown,
    settings: &ReportSettings,
    elapsed: u64,
    stats: &StressRunStats,
) -> Mem<()>
    ensures { OnOk result (shown.new ≡ shown.old
        ++ pieces_bytes settings.now (stress_pieces elapsed stats.now)) }
{
    push_rule(alloc, shown, settings)?;
    push_stress_counts(alloc, shown, settings, elapsed, stats)
}

// Adds a test by its binary and its name.
fn push_named(out: &mut String, id: &TestInstanceId) -> Mem<()>
    ensures { OnOk result (string_bytes out.new ≡ string_bytes out.old ++ name_text id.now) }
{
    out.push_str(id.binary.as_str())?;
    out.push_str(" ")?;
    out.push_str(id.name.as_str())?;
    Ok(())
}

// Adds tests, each behind a comma.
fn push_others(out: &mut String, ids: &[TestInstanceId]) -> Mem<()>
    ensures { OnOk result (string_bytes out.new
        ≡ string_bytes out.old ++ flat_map (λ other. codes ", " ++ name_text other) ids.now) }
{
    for id in ids {
        out.push_str(", ")?;
        push_named(out, id)?;
    }
    Ok(())
}

// A test and others, one after another.
fn some_named(alloc: Global, first: &TestInstanceId, others: &[TestInstanceId]) -> Mem<String>
    ensures { IfOk result (λ s. string_bytes s ≡ all_named (first.now ∷ others.now)) }
{
    let mut out = String::new(alloc);
    push_named(&mut out, first)?;
    push_others(&mut out, others)?;
    Ok(out)
}

// Tests, one after another.
fn all_named(alloc: Global, ids: &[TestInstanceId]) -> Mem<String>
    ensures { IfOk result (λ s. string_bytes s ≡ all_named ids.now) }
{
    match ids.split_first() {
        Some((first, others)) => some_named(alloc, first, others),
        None => Ok(String::new(alloc)),
    }
}

// What is said of tests that were expected and not seen.
#[tactic(auto, unfolding(crate::specs::Ends::unseen_said))]
fn unseen_said(alloc: Global, tests: &TestsNotSeen) -> Mem<String>
    ensures { IfOk result (λ s. string_bytes s ≡ unseen_said tests.now) }
{
    let count = plural_of(alloc, tests.total_not_seen, "test")?;
    let names = all_named(alloc, tests.not_seen.as_slice())?;
    Ok(format!(in alloc; "{count} expected and not seen, as {names}")?)
}

/// Adds the tests that were expected and not seen, in a rerun.
#[tactic(auto, unfolding(crate::specs::Pieces::pieces_bytes))]
pub(crate) fn push_unseen(
    alloc: Global,
    shown: &mut Shown,
    settings: &ReportSettings,
    tests: &Option<TestsNotSeen>,
) -> Mem<()>
    ensures { OnOk result (shown.new ≡ shown.old ++ pieces_bytes settings.now (unseen_pieces tests.now)) }
{
    match tests {
        Some(tests) => push_some_unseen(alloc, shown, settings, tests),
        None => Ok(()),
    }
}

fn push_some_unseen(
    alloc: Global,
    shown: &mut Shown,
    settings: &ReportSettings,
    tests: &TestsNotSeen,
) -> Mem<()>
    ensures { OnOk result (shown.new ≡ shown.old
        ++ pieces_bytes settings.now (piece_if true (warning (unseen_said tests.now)))) }
{
    let said = unseen_said(alloc, tests)?;
    push_warning(alloc, shown, settings, said.as_str())
}
