// What units answer when they are asked, in a report.
ghost use Rattle.std.specs.Prelude.{◌≡◌, ◌++◌, ◌∷◌, [], string_bytes, true, IfOk, OnOk};
ghost use Rattle.run_report.specs.declared.style.Style.TheVariants.{Plain};
ghost use Rattle.run_report.specs.Finished.{piece_if};
ghost use Rattle.run_report.specs.Info.{
  again_said,
  answer_block,
  answer_pieces,
  answer_spans,
  answered_pieces,
  asked_pieces,
  asked_piece,
  attempt_said,
  doing_pieces,
  ended_said,
  missing_pieces,
  missing_spans,
  place_text,
  runs_said,
  slow_reported,
  slow_pieces_of,
  slow_spans,
  state_said,
  status_spans,
  subject_spans,
};
ghost use Rattle.run_report.specs.Pieces.{note, output, pieces_bytes};
ghost use Rattle.run_report.specs.Style.{line_shown, spans_bytes};

use crate::blocks::push_block;
use crate::lines::{push_id, push_lead};
use crate::runs::{push_rule, push_words};
use crate::shown::Shown;
use crate::style::push_part;
use crate::texts::{plural, seconds};
use crate::words::long_word;
use crate::{ReportSettings, Style};
use run_capture::Mem;
use run_events::{ExecutionResult, InfoAnswered, InfoResponse, InfoSubject, UnitState};
use std::alloc::Global;

// Adds how many units are asked.
fn push_asked_units(
    alloc: Global,
    shown: &mut Shown,
    settings: &ReportSettings,
    total: u32,
) -> Mem<()>
    ensures { OnOk result (shown.new ≡ shown.old ++ pieces_bytes settings.now (piece_if true (asked_piece total))) }
{
    let units = plural(alloc, total, "unit")?;
    let said = format!(in alloc; "{units} asked")?;
    push_words(alloc, shown, settings, Style::Bold, "info", said.as_str())
}

/// Adds that a round starts, with so many units asked.
#[tactic(auto, using(crate::proofs::PieceLemmas::pieces_two))]
pub(crate) fn push_asked(
    alloc: Global,
    shown: &mut Shown,
    settings: &ReportSettings,
    total: u32,
) -> Mem<()>
    ensures { OnOk result (shown.new ≡ shown.old ++ pieces_bytes settings.now (asked_pieces total)) }
{
    push_rule(alloc, shown, settings)?;
    push_asked_units(alloc, shown, settings, total)
}

// Adds which unit answers.
#[tactic(auto, using(crate::proofs::SpanLemmas::spans_two), unfolding(crate::specs::Style::spans_bytes))]
fn push_subject(alloc: Global, line: &mut String, color: bool, subject: &InfoSubject) -> Mem<()>
    ensures { OnOk result (string_bytes line.new ≡ string_bytes line.old
        ++ spans_bytes color (subject_spans subject.now)) }
{
    match subject {
        InfoSubject::Test { test, .. } => {
            push_lead(alloc, line, color, test.stress_index)?;
            push_id(line, color, &test.id)
        }
        InfoSubject::Script(script) => {
            push_lead(alloc, line, color, script.stress_index)?;
            push_part(line, color, Style::Magenta, script.id.as_str())
        }
    }
}

// Which answer it is, of how many.
fn place_text(alloc: Global, told: &InfoAnswered) -> Mem<String>
    ensures { IfOk result (λ s. string_bytes s ≡ place_text told.now) }
{
    let number = u64::from(told.index) + 1;
    let total = told.total;
    Ok(format!(in alloc; "  {number}/{total}: ")?)
}

// Which answer it is, and of which unit.
#[tactic(auto, using(crate::proofs::SpanLemmas::spans_after), unfolding(crate::specs::Info::answer_spans))]
fn answer_line(alloc: Global, color: bool, told: &InfoAnswered) -> Mem<String>
    ensures { IfOk result (λ s. string_bytes s ≡ line_shown color (answer_spans told.now)) }
{
    let place = place_text(alloc, told)?;
    let mut line = String::new(alloc);
    push_part(&mut line, color, Style::Plain, place.as_str())?;
    push_subject(alloc, &mut line, color, &told.response.subject)?;
    line.push_str("\n")?;
    Ok(line)
}

// Its attempt, where it may have several.
fn attempt_said(alloc: Global, subject: &InfoSubject) -> Mem<String>
    ensures { IfOk result (λ s. string_bytes s ≡ attempt_said subject.now) }
{
    match subject {
        InfoSubject::Test {
            attempt,
            attempts,
            ..
        } if *attempts > 1 => Ok(format!(in alloc; "attempt {attempt}/{attempts}, ")?),
        _ => Ok(String::new(alloc)),
    }
}

// For how long its child has run.
fn runs_said(alloc: Global, word: &str, time: u64, pid: u32) -> Mem<String>
    ensures { IfOk result (λ s. string_bytes s ≡ runs_said word.now time pid) }
{
    let time = seconds(alloc, time)?;
    Ok(format!(in alloc; "{word}{time}s as PID {pid}")?)
}

// How it ended.
fn ended_said(alloc: Global, ended: ExecutionResult) -> Mem<String>
    ensures { IfOk result (λ s. string_bytes s ≡ ended_said ended) }
{
    let word = long_word(alloc, ended)?;
    Ok(format!(in alloc; "ended: {word}")?)
}

// When it is tried again.
fn again_said(alloc: Global, remaining: u64) -> Mem<String>
    ensures { IfOk result (λ s. string_bytes s ≡ again_said remaining) }
{
    let time = seconds(alloc, remaining)?;
    Ok(format!(in alloc; "tried again in {time}s")?)
}

// What it is doing.
#[tactic(auto, unfolding(crate::specs::Info::state_said))]
fn state_said(alloc: Global, state: UnitState) -> Mem<String>
    ensures { IfOk result (λ s. string_bytes s ≡ state_said state) }
{
    match state {
        UnitState::Running { pid, time, .. } => runs_said(alloc, "running for ", time, pid),
        UnitState::Terminating { pid, time, .. } => {
            runs_said(alloc, "terminating for ", time, pid)
        }
        UnitState::Exiting { pid, time, .. } => {
            runs_said(alloc, "waits for its streams, ran ", time, pid)
        }
        UnitState::Exited { result: ended, .. } => ended_said(alloc, ended),
        UnitState::Delay { waiting, .. } => again_said(alloc, waiting.remaining),
    }
}

// That as a line.
fn status_line(alloc: Global, color: bool, response: &InfoResponse) -> Mem<String>
    ensures { IfOk result (λ s. string_bytes s ≡ line_shown color (status_spans response.now)) }
{
    let attempt = attempt_said(alloc, &response.subject)?;
    let said = state_said(alloc, response.state)?;
    plain_line(
        alloc,
        color,
        "    status: ",
        attempt.as_str(),
        said.as_str(),
    )
}

// Adds who answers.
#[tactic(auto, using(crate::proofs::PieceLemmas::one_piece))]
fn push_answer_line(
    alloc: Global,
    shown: &mut Shown,
    settings: &ReportSettings,
    told: &InfoAnswered,
) -> Mem<()>
    ensures { OnOk result (shown.new ≡ shown.old
        ++ pieces_bytes settings.now (piece_if true (note (answer_spans told.now)))) }
{
    let line = answer_line(alloc, settings.color, told)?;
    shown.push(line)
}

// Adds what it is doing.
#[tactic(auto, using(crate::proofs::PieceLemmas::one_piece))]
fn push_status_line(
    alloc: Global,
    shown: &mut Shown,
    settings: &ReportSettings,
    response: &InfoResponse,
) -> Mem<()>
    ensures { OnOk result (shown.new ≡ shown.old
        ++ pieces_bytes settings.now (piece_if true (note (status_spans response.now)))) }
{
    let line = status_line(alloc, settings.color, response)?;
    shown.push(line)
}

// Adds who answers, and what it is doing.
#[tactic(auto, using(crate::proofs::PieceLemmas::pieces_two))]
fn push_doing(
    alloc: Global,
    shown: &mut Shown,
    settings: &ReportSettings,
    told: &InfoAnswered,
) -> Mem<()>
    ensures { OnOk result (shown.new ≡ shown.old ++ pieces_bytes settings.now (doing_pieces told.now)) }
{
    push_answer_line(alloc, shown, settings, told)?;
    push_status_line(alloc, shown, settings, &told.response)
}

// After how long it was reported slow.
fn slow_reported(state: UnitState) -> Option<u64>
    ensures { result ≡ slow_reported state }
{
    match state {
        UnitState::Running { slow_after, .. } => slow_after,
        UnitState::Terminating { .. } => None,
        UnitState::Exiting { slow_after, .. } => slow_after,
        UnitState::Exited { slow_after, .. } => slow_after,
        UnitState::Delay { .. } => None,
    }
}

// Three parts of a line without a style.
#[tactic(auto, unfolding(crate::specs::Style::spans_bytes))]
fn plain_line(alloc: Global, color: bool, front: &str, middle: &str, back: &str) -> Mem<String>
    ensures { IfOk result (λ s. string_bytes s
        ≡ line_shown color ((Plain, front.now) ∷ (Plain, middle.now) ∷ (Plain, back.now) ∷ [])) }
{
    let mut line = String::new(alloc);
    push_part(&mut line, color, Style::Plain, front)?;
    push_part(&mut line, color, Style::Plain, middle)?;
    push_part(&mut line, color, Style::Plain, back)?;
    line.push_str("\n")?;
    Ok(line)
}

// That as a line.
fn slow_line(alloc: Global, color: bool, time: u64) -> Mem<String>
    ensures { IfOk result (λ s. string_bytes s ≡ line_shown color (slow_spans time)) }
{
    let time = seconds(alloc, time)?;
    plain_line(alloc, color, "    slow after ", time.as_str(), "s")
}

// Adds that line.
#[tactic(auto, using(crate::proofs::PieceLemmas::one_piece))]
fn push_slow_line(alloc: Global, shown: &mut Shown, settings: &ReportSettings, time: u64) -> Mem<()>
    ensures { OnOk result (shown.new ≡ shown.old
        ++ pieces_bytes settings.now (piece_if true (note (slow_spans time)))) }
{
    let line = slow_line(alloc, settings.color, time)?;
    shown.push(line)
}

// Adds that it was reported slow, where it was.
#[tactic(auto, unfolding(crate::specs::Pieces::pieces_bytes))]
fn push_slow_after(
    alloc: Global,
    shown: &mut Shown,
    settings: &ReportSettings,
    slow: Option<u64>,
) -> Mem<()>
    ensures { OnOk result (shown.new ≡ shown.old ++ pieces_bytes settings.now (slow_pieces_of slow)) }
{
    match slow {
        Some(time) => push_slow_line(alloc, shown, settings, time),
        None => Ok(()),
    }
}

// Adds what its child wrote so far.
#[tactic(auto, using(crate::proofs::PieceLemmas::one_piece))]
fn push_answer_output(
    alloc: Global,
    shown: &mut Shown,
    settings: &ReportSettings,
    response: &InfoResponse,
) -> Mem<()>
    ensures { OnOk result (shown.new ≡ shown.old
        ++ pieces_bytes settings.now (piece_if true (output (answer_block response.now)))) }
{
    push_block(
        alloc,
        shown,
        settings.color,
        Style::Bold,
        true,
        &response.output,
    )
}

/// Adds an answer.
#[tactic(auto, using(crate::proofs::PieceLemmas::pieces_two), unfolding(crate::specs::Info::answer_pieces))]
pub(crate) fn push_answer(
    alloc: Global,
    shown: &mut Shown,
    settings: &ReportSettings,
    told: &InfoAnswered,
) -> Mem<()>
    ensures { OnOk result (shown.new ≡ shown.old ++ pieces_bytes settings.now (answer_pieces told.now)) }
{
    push_doing(alloc, shown, settings, told)?;
    push_slow_after(alloc, shown, settings, slow_reported(told.response.state))?;
    push_answer_output(alloc, shown, settings, &told.response)
}

// That some gave no answer, as a line.
fn missing_line(alloc: Global, color: bool, missing: u32) -> Mem<String>
    ensures { IfOk result (λ s. string_bytes s ≡ line_shown color (missing_spans missing)) }
{
    let units = plural(alloc, missing, "unit")?;
    plain_line(
        alloc,
        color,
        "  missing: ",
        units.as_str(),
        " gave no answer",
    )
}

// Adds that line, where some gave none.
#[tactic(auto, using(crate::proofs::PieceLemmas::one_piece))]
fn push_missing(
    alloc: Global,
    shown: &mut Shown,
    settings: &ReportSettings,
    missing: u32,
) -> Mem<()>
    ensures { OnOk result (shown.new ≡ shown.old ++ pieces_bytes settings.now (missing_pieces missing)) }
{
    if missing > 0 {
        let line = missing_line(alloc, settings.color, missing)?;
        shown.push(line)
    } else {
        Ok(())
    }
}

/// Adds the end of a round, in which so many gave no answer.
#[tactic(auto, using(crate::proofs::PieceLemmas::pieces_two))]
pub(crate) fn push_answered(
    alloc: Global,
    shown: &mut Shown,
    settings: &ReportSettings,
    missing: u32,
) -> Mem<()>
    ensures { OnOk result (shown.new ≡ shown.old ++ pieces_bytes settings.now (answered_pieces missing)) }
{
    push_missing(alloc, shown, settings, missing)?;
    push_rule(alloc, shown, settings)
}
