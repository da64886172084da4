// The case of a finished test or setup script.
ghost use Rattle.std.specs.Prelude.{◌≡◌, ◌≤◌, ◌++◌, ◌∷◌, [], codes, string_bytes, Some, None, IfOk, OnOk};
ghost use Rattle.std.specs.Option.{option_copied};
ghost use Rattle.run_events.specs.declared.result.ExecutionResult.TheVariants.{ExecFail};
ghost use Rattle.run_junit.specs.declared.reason.Fault.TheVariants.{Error, Failure};
ghost use Rattle.run_junit.specs.Cases.{
  attempt_tokens,
  case_end,
  ended_test,
  ended_of,
  main_of,
  other_tag,
  other_tokens,
  others_by,
  others_tokens,
  output_tokens,
  reason_tokens,
  stream_tokens,
  streams_tokens,
  test_by,
  test_output,
  test_reason,
  test_tokens,
};
ghost use Rattle.run_junit.specs.Reasons.{child_said, fault_by_result, flaky_said, type_said};
ghost use Rattle.run_junit.specs.Tokens.{tokens_bytes};

use crate::elements::{attempt_start, bare_start, case_start, end_here, end_line, reason_line};
use crate::page::Page;
use crate::reason::{Fault, child_said, flaky_said, type_said};
use crate::tag::Tag;
use run_capture::{Blob, ChildOutput, Duplicate, Mem};
use run_events::{ChildExecutionOutput, ExecuteStatus, ExecutionResult, FlakyResult, TestFinish};
use std::alloc::Global;

/// How a finished test ended: the first that holds.
#[derive(Clone, Copy, Drop)]
pub(crate) enum Ended {
    Failed,
    /// It passed only after a retry, and that counts as a failure.
    FlakyFailed,
    Passed,
}

// Adds a stream in an element so deep.
#[tactic(auto, using(crate::proofs::TokenLemmas::stream_bytes))]
fn push_stream(alloc: Global, page: &mut Page, depth: u8, tag: Tag, bytes: &Blob) -> Mem<()>
    requires { depth ≤ 4 }
    ensures { OnOk result (page.new ≡ page.old ++ tokens_bytes (stream_tokens depth tag (Some bytes.now))) }
{
    let start = bare_start(alloc, depth, tag)?;
    let end = end_here(alloc, tag)?;
    page.push(start)?;
    page.push_output(bytes.copy(alloc)?)?;
    page.push(end)
}

// Adds a stream, where it was captured.
#[tactic(auto, using(crate::proofs::TokenLemmas::no_tokens))]
fn push_where(alloc: Global, page: &mut Page, depth: u8, tag: Tag, bytes: &Option<Blob>) -> Mem<()>
    requires { depth ≤ 4 }
    ensures { OnOk result (page.new ≡ page.old ++ tokens_bytes (stream_tokens depth tag bytes.now)) }
{
    match bytes {
        Some(bytes) => push_stream(alloc, page, depth, tag, bytes),
        None => Ok(()),
    }
}

// Adds the streams of a child.
#[tactic(auto, using(crate::proofs::TokenLemmas::tokens_two))]
fn push_streams(alloc: Global, page: &mut Page, depth: u8, output: &ChildOutput) -> Mem<()>
    requires { depth ≤ 4 }
    ensures { OnOk result (page.new ≡ page.old ++ tokens_bytes (streams_tokens depth output.now)) }
{
    match output {
        ChildOutput::Combined { output } => {
            push_stream(alloc, page, depth, Tag::SystemOut, output)
        }
        ChildOutput::Split(split) => {
            push_where(alloc, page, depth, Tag::SystemOut, &split.stdout)?;
            push_where(alloc, page, depth, Tag::SystemErr, &split.stderr)
        }
    }
}

/// Adds what a child wrote.
#[tactic(auto, using(crate::proofs::TokenLemmas::no_tokens), unfolding(crate::specs::Cases::output_tokens))]
pub(crate) fn push_output(
    alloc: Global,
    page: &mut Page,
    depth: u8,
    child: &ChildExecutionOutput,
) -> Mem<()>
    requires { depth ≤ 4 }
    ensures { OnOk result (page.new ≡ page.old ++ tokens_bytes (output_tokens depth child.now)) }
{
    match child {
        ChildExecutionOutput::Output { output, .. } => push_streams(alloc, page, depth, output),
        ChildExecutionOutput::StartError(_) => Ok(()),
    }
}

/// Adds why an attempt with this result is no success.
pub(crate) fn push_reason(
    alloc: Global,
    page: &mut Page,
    ended: ExecutionResult,
    child: &ChildExecutionOutput,
) -> Mem<()>
    ensures { OnOk result (page.new ≡ page.old
        ++ tokens_bytes (reason_tokens (fault_by_result ended) (child_said child.now) (type_said ended))) }
{
    let message = child_said(alloc, child)?;
    let kind = type_said(alloc, ended)?;
    let line = reason_line(alloc, Fault::of(ended), message.as_str(), kind.as_str())?;
    page.push(line)
}

// Adds that a test passed, and fails since it isn't to be flaky.
fn push_flaky(alloc: Global, page: &mut Page, last: &ExecuteStatus) -> Mem<()>
    ensures { OnOk result (page.new ≡ page.old
        ++ tokens_bytes (reason_tokens Failure (flaky_said last.now) (codes "flaky failure"))) }
{
    let message = flaky_said(alloc, last)?;
    let line = reason_line(alloc, Fault::Failure, message.as_str(), "flaky failure")?;
    page.push(line)
}

// Adds that a test without an attempt could not be run.
fn push_unrun(alloc: Global, page: &mut Page) -> Mem<()>
    ensures { OnOk result (page.new ≡ page.old ++ tokens_bytes (reason_tokens Error [] (type_said ExecFail))) }
{
    let kind = type_said(alloc, ExecutionResult::ExecFail)?;
    let line = reason_line(alloc, Fault::Error, "", kind.as_str())?;
    page.push(line)
}

// How a test ended whose last attempt had this result.
fn ended_test(finish: &TestFinish, last: ExecutionResult) -> Ended
    ensures { result ≡ ended_test finish.now last }
{
    if !last.is_success() {
        Ended::Failed
    } else if finish.statuses.len() > 1 && finish.flaky == FlakyResult::Fail {
        Ended::FlakyFailed
    } else {
        Ended::Passed
    }
}

/// How a finished test ended.
pub(crate) fn ended_of(finish: &TestFinish) -> Ended
    ensures { result ≡ ended_of finish.now }
{
    match finish.statuses.as_slice().last() {
        Some(last) => ended_test(finish, last.result),
        None => ended_test(finish, ExecutionResult::ExecFail),
    }
}

/// The attempt that the case of a test is.
pub(crate) fn main_of(finish: &TestFinish) -> Option<&ExecuteStatus>
    ensures { option_copied result ≡ main_of finish.now }
{
    let statuses = finish.statuses.as_slice();
    match ended_of(finish) {
        Ended::Failed => statuses.first(),
        Ended::FlakyFailed | Ended::Passed => statuses.last(),
    }
}

// The other attempts of a test that ended so.
fn others_by(ended: Ended, finish: &TestFinish) -> &[ExecuteStatus]
    ensures { result.now ≡ others_by ended finish.now }
{
    let statuses = finish.statuses.as_slice();
    match ended {
        Ended::Failed => &statuses[statuses.len().min(1)..],
        Ended::FlakyFailed | Ended::Passed => &statuses[..statuses.len().saturating_sub(1)],
    }
}

// The element of another attempt.
fn other_tag(ended: Ended, fault: Fault) -> Tag
    ensures { result ≡ other_tag ended fault }
{
    match ended {
        Ended::Passed => fault.flaky_tag(),
        Ended::FlakyFailed | Ended::Failed => fault.rerun_tag(),
    }
}

// Adds another attempt, in an element of this tag.
#[tactic(auto, using(crate::proofs::TokenLemmas::tokens_three))]
fn push_attempt(
    alloc: Global,
    page: &mut Page,
    started: Option<u64>,
    tag: Tag,
    status: &ExecuteStatus,
) -> Mem<()>
    ensures { OnOk result (page.new ≡ page.old ++ tokens_bytes (attempt_tokens started tag status.now)) }
{
    let start = attempt_start(alloc, started, tag, status)?;
    page.push(start)?;
    push_output(alloc, page, 4, &status.output)?;
    let end = end_line(alloc, 3, tag)?;
    page.push(end)
}

// Adds another attempt, unless it passed.
#[tactic(auto, using(crate::proofs::TokenLemmas::no_tokens))]
fn push_other(
    alloc: Global,
    page: &mut Page,
    started: Option<u64>,
    ended: Ended,
    status: &ExecuteStatus,
) -> Mem<()>
    ensures { OnOk result (page.new ≡ page.old ++ tokens_bytes (other_tokens started ended status.now)) }
{
    if status.result.is_success() {
        return Ok(());
    }
    let tag = other_tag(ended, Fault::of(status.result));
    push_attempt(alloc, page, started, tag, status)
}

// Adds other attempts.
fn push_others(
    alloc: Global,
    page: &mut Page,
    started: Option<u64>,
    ended: Ended,
    others: &[ExecuteStatus],
) -> Mem<()>
    ensures { OnOk result (page.new ≡ page.old ++ tokens_bytes (others_tokens started ended others.now)) }
{
    for status in others {
        push_other(alloc, page, started, ended, status)?;
    }
    Ok(())
}

// Adds why the case of a test is none of a success.
#[tactic(auto, using(crate::proofs::TokenLemmas::no_tokens))]
fn push_test_reason(alloc: Global, page: &mut Page, ended: Ended, main: &ExecuteStatus) -> Mem<()>
    ensures { OnOk result (page.new ≡ page.old ++ tokens_bytes (test_reason ended main.now)) }
{
    match ended {
        Ended::Failed => push_reason(alloc, page, main.result, &main.output),
        Ended::FlakyFailed => push_flaky(alloc, page, main),
        Ended::Passed => Ok(()),
    }
}

// Adds what its attempt wrote, where it failed.
#[tactic(auto, using(crate::proofs::TokenLemmas::no_tokens))]
fn push_test_output(alloc: Global, page: &mut Page, ended: Ended, main: &ExecuteStatus) -> Mem<()>
    ensures { OnOk result (page.new ≡ page.old ++ tokens_bytes (test_output ended main.now)) }
{
    match ended {
        Ended::Failed | Ended::FlakyFailed => push_output(alloc, page, 3, &main.output),
        Ended::Passed => Ok(()),
    }
}

/// Adds the end of a case.
pub(crate) fn push_case_end(alloc: Global, page: &mut Page) -> Mem<()>
    ensures { OnOk result (page.new ≡ page.old ++ tokens_bytes case_end) }
{
    let end = end_line(alloc, 2, Tag::TestCase)?;
    page.push(end)
}

// Adds the case of a test that is this attempt.
#[tactic(auto, using(crate::proofs::TokenLemmas::tokens_five))]
fn push_test(
    alloc: Global,
    page: &mut Page,
    started: Option<u64>,
    finish: &TestFinish,
    main: &ExecuteStatus,
) -> Mem<()>
    ensures { OnOk result (page.new ≡ page.old
        ++ tokens_bytes (test_by started finish.now (ended_of finish.now) (Some main.now))) }
{
    let ended = ended_of(finish);
    let id = &finish.test.id;
    let start = case_start(
        alloc,
        started,
        id.name.as_str(),
        id.binary.as_str(),
        main.start,
        main.time,
    )?;
    page.push(start)?;
    push_test_reason(alloc, page, ended, main)?;
    push_others(alloc, page, started, ended, others_by(ended, finish))?;
    push_test_output(alloc, page, ended, main)?;
    push_case_end(alloc, page)
}

// Adds the case of a test with no attempt.
#[tactic(auto, using(crate::proofs::TokenLemmas::tokens_three))]
fn push_unrun_test(
    alloc: Global,
    page: &mut Page,
    started: Option<u64>,
    finish: &TestFinish,
) -> Mem<()>
    ensures { OnOk result (page.new ≡ page.old
        ++ tokens_bytes (test_by started finish.now (ended_of finish.now) None)) }
{
    let id = &finish.test.id;
    let start = case_start(alloc, started, id.name.as_str(), id.binary.as_str(), 0, 0)?;
    page.push(start)?;
    push_unrun(alloc, page)?;
    push_case_end(alloc, page)
}

/// The case of a finished test.
#[tactic(auto, unfolding(crate::specs::Cases::test_tokens))]
pub(crate) fn test_page(alloc: Global, started: Option<u64>, finish: &TestFinish) -> Mem<Page>
    ensures { IfOk result (λ page. page ≡ tokens_bytes (test_tokens started finish.now)) }
{
    let mut page = Page::new(alloc);
    match main_of(finish) {
        Some(main) => push_test(alloc, &mut page, started, finish, main)?,
        None => push_unrun_test(alloc, &mut page, started, finish)?,
    }
    Ok(page)
}
