// A finished test in a report.
ghost use Rattle.std.specs.Prelude.{◌≡◌, ◌++◌, string_bytes, IfOk, OnOk, true};
ghost use Rattle.run_report.specs.Blocks.{block_shown};
ghost use Rattle.run_report.specs.Finish.{last_attempt};
ghost use Rattle.run_report.specs.Lines.{test_spans};
ghost use Rattle.run_report.specs.Pieces.{again, final, output, output_again, pieces_bytes};
ghost use Rattle.run_report.specs.Style.{line_shown};
ghost use Rattle.run_report.specs.Finished.{
  again_line,
  final_line,
  finish_line,
  finish_middle,
  finish_pieces,
  is_kept,
  is_output_kept,
  is_output_told,
  is_line_told,
  kept_pieces,
  last_shown,
  output_if,
  piece_if,
  status_block,
};

use crate::blocks::push_block;
use crate::finish::{final_word, judge, told_word};
use crate::lines::test_line;
use crate::shown::Shown;
use crate::texts::{counter, took};
use crate::{ReportSettings, Style};
use run_capture::Mem;
use run_events::{ExecuteStatus, TestFinish, TestFinished};
use std::alloc::Global;

// Whether the output of a finished test is shown behind its line.
fn is_output_told(settings: &ReportSettings, finish: &TestFinish) -> bool
    ensures { result ≡ is_output_told settings.now finish.now }
{
    judge(finish).kind.output(settings).is_at_once()
}

// Whether its line is shown.
fn is_line_told(settings: &ReportSettings, finish: &TestFinish) -> bool
    ensures { result ≡ is_line_told settings.now finish.now }
{
    let level = judge(finish).kind.status_level();
    settings.status.shows(level) || is_output_told(settings, finish)
}

// Whether its output is shown at the end.
fn is_output_kept(settings: &ReportSettings, finish: &TestFinish) -> bool
    ensures { result ≡ is_output_kept settings.now finish.now }
{
    judge(finish).kind.output(settings).is_at_end()
}

/// Whether it is shown again at the end.
pub(crate) fn is_kept(settings: &ReportSettings, finish: &TestFinish) -> bool
    ensures { result ≡ is_kept settings.now finish.now }
{
    let level = judge(finish).kind.final_level();
    settings.final_status.shows(level) || is_output_kept(settings, finish)
}

// How long it took, and how many have finished with it.
fn finish_middle(alloc: Global, told: &TestFinished) -> Mem<String>
    ensures { IfOk result (λ s. string_bytes s ≡ finish_middle told.now) }
{
    let took = took(alloc, judge(&told.finish).time)?;
    let counter = counter(
        alloc,
        told.stats.finished_count,
        told.stats.initial_run_count,
    )?;
    Ok(format!(in alloc; "{took}{counter}")?)
}

// A line of a finished test, with this word.
fn finish_line(alloc: Global, color: bool, word: &str, told: &TestFinished) -> Mem<String>
    ensures { IfOk result (λ s. string_bytes s
        ≡ line_shown color (test_spans (finish_line word.now told.now))) }
{
    let middle = finish_middle(alloc, told)?;
    let style = judge(&told.finish).kind.style();
    test_line(
        alloc,
        color,
        style,
        word,
        middle.as_str(),
        &told.finish.test,
    )
}

/// Adds the output of an attempt.
pub(crate) fn push_status(
    alloc: Global,
    shown: &mut Shown,
    color: bool,
    style: Style,
    status: &ExecuteStatus,
) -> Mem<()>
    ensures { OnOk result (shown.new ≡ shown.old ++ block_shown color (status_block style status.now)) }
{
    let passed = status.result.is_success();
    push_block(alloc, shown, color, style, passed, &status.output)
}

// Adds the output of a test's last attempt.
fn push_last(alloc: Global, shown: &mut Shown, color: bool, finish: &TestFinish) -> Mem<()>
    ensures { OnOk result (shown.new ≡ shown.old ++ last_shown color finish.now (last_attempt finish.now)) }
{
    match finish.statuses.as_slice().last() {
        Some(last) => push_status(alloc, shown, color, judge(finish).kind.style(), last),
        None => Ok(()),
    }
}

// Adds its final line, where it is shown.
#[tactic(auto, using(crate::proofs::PieceLemmas::one_piece))]
fn push_final(
    alloc: Global,
    shown: &mut Shown,
    settings: &ReportSettings,
    told: &TestFinished,
) -> Mem<()>
    ensures { OnOk result (shown.new ≡ shown.old
        ++ pieces_bytes settings.now
        (piece_if (is_line_told settings.now told.now.finish) (final (final_line told.now)))) }
{
    if is_line_told(settings, &told.finish) {
        let word = told_word(alloc, judge(&told.finish))?;
        let line = finish_line(alloc, settings.color, word.as_str(), told)?;
        shown.push(line)
    } else {
        Ok(())
    }
}

// Adds its output behind its line, where it is shown there.
#[tactic(auto, using(crate::proofs::PieceLemmas::told_outputs))]
fn push_output_told(
    alloc: Global,
    shown: &mut Shown,
    settings: &ReportSettings,
    finish: &TestFinish,
) -> Mem<()>
    ensures { OnOk result (shown.new ≡ shown.old
        ++ pieces_bytes settings.now (output_if (is_output_told settings.now finish.now) output finish.now)) }
{
    if is_output_told(settings, finish) {
        push_last(alloc, shown, settings.color, finish)
    } else {
        Ok(())
    }
}

/// Adds a finished test: its final line, and its output behind it.
#[tactic(auto, using(crate::proofs::PieceLemmas::pieces_two), unfolding(crate::specs::Finished::finish_pieces))]
pub(crate) fn push_finished(
    alloc: Global,
    shown: &mut Shown,
    settings: &ReportSettings,
    told: &TestFinished,
) -> Mem<()>
    ensures { OnOk result (shown.new ≡ shown.old ++ pieces_bytes settings.now (finish_pieces settings.now told.now)) }
{
    push_final(alloc, shown, settings, told)?;
    push_output_told(alloc, shown, settings, &told.finish)
}

// Adds its line at the end.
#[tactic(auto, using(crate::proofs::PieceLemmas::one_piece))]
fn push_again(
    alloc: Global,
    shown: &mut Shown,
    settings: &ReportSettings,
    told: &TestFinished,
) -> Mem<()>
    ensures { OnOk result (shown.new ≡ shown.old
        ++ pieces_bytes settings.now (piece_if true (again (again_line told.now)))) }
{
    let word = final_word(alloc, judge(&told.finish))?;
    let line = finish_line(alloc, settings.color, word.as_str(), told)?;
    shown.push(line)
}

// Adds its output behind that, where it is shown there.
#[tactic(auto, using(crate::proofs::PieceLemmas::kept_outputs))]
fn push_output_kept(
    alloc: Global,
    shown: &mut Shown,
    settings: &ReportSettings,
    finish: &TestFinish,
) -> Mem<()>
    ensures { OnOk result (shown.new ≡ shown.old
        ++ pieces_bytes settings.now (output_if (is_output_kept settings.now finish.now) output_again finish.now)) }
{
    if is_output_kept(settings, finish) {
        push_last(alloc, shown, settings.color, finish)
    } else {
        Ok(())
    }
}

/// A finished test at the end: its line, and its output behind it.
#[tactic(auto, using(crate::proofs::PieceLemmas::pieces_two), unfolding(crate::specs::Finished::kept_pieces))]
pub(crate) fn kept_shown(
    alloc: Global,
    settings: &ReportSettings,
    told: &TestFinished,
) -> Mem<Shown>
    ensures { IfOk result (λ shown. shown ≡ pieces_bytes settings.now (kept_pieces settings.now told.now)) }
{
    let mut shown = Shown::new(alloc);
    push_again(alloc, &mut shown, settings, told)?;
    push_output_kept(alloc, &mut shown, settings, &told.finish)?;
    Ok(shown)
}
