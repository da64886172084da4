// What a finished test is to a report.
ghost use Rattle.std.specs.Prelude.{◌≡◌, string_bytes, IfOk};
ghost use Rattle.run_report.specs.Finish.{
  final_level,
  final_word,
  counts_failed,
  kind_by,
  kind_style,
  output_when,
  status_level,
  told_word,
  tried_word,
  verdict_of,
};

use crate::words::{long_word, short_word};
use crate::{FinalStatusLevel, OutputDisplay, ReportSettings, StatusLevel, Style};
use run_capture::Mem;
use run_events::{ExecutionResult, FlakyResult, LeakTimeoutResult, TestFinish};
use std::alloc::Global;

/// How a test finished: the first that holds.
#[derive(Clone, Copy, Drop)]
pub(crate) enum FinishKind {
    /// It passed only after a retry, and that counts as a failure.
    FlakyFailed,
    Failed,
    /// It passed only after a retry.
    Flaky,
    Slow,
    Leaky,
    Passed,
}

/// What a report says of a finished test. The time is that of its last attempt, in nanoseconds.
#[derive(Clone, Copy, Drop)]
pub(crate) struct Verdict {
    pub kind: FinishKind,
    /// The result of its last attempt.
    pub ended: ExecutionResult,
    /// How many attempts it had.
    pub tries: usize,
    /// How many it might have had.
    pub attempts: u32,
    pub time: u64,
}

fn kind(flaky: FlakyResult, retried: bool, slow: bool, ended: ExecutionResult) -> FinishKind
    ensures { result ≡ kind_by flaky retried slow ended }
{
    if !ended.is_success() {
        FinishKind::Failed
    } else if retried && flaky == FlakyResult::Fail {
        FinishKind::FlakyFailed
    } else if retried {
        FinishKind::Flaky
    } else if slow {
        FinishKind::Slow
    } else if let ExecutionResult::Leak { .. } = ended {
        FinishKind::Leaky
    } else {
        FinishKind::Passed
    }
}

/// What is said of a finished test.
pub(crate) fn judge(finish: &TestFinish) -> Verdict
    ensures { result ≡ verdict_of finish.now }
{
    let statuses = finish.statuses.as_slice();
    match statuses.last() {
        Some(last) => Verdict {
            kind: kind(finish.flaky, statuses.len() > 1, last.slow, last.result),
            ended: last.result,
            tries: statuses.len(),
            attempts: last.attempts,
            time: last.time,
        },
        None => Verdict {
            kind: FinishKind::Failed,
            ended: ExecutionResult::ExecFail,
            tries: 0,
            attempts: 0,
            time: 0,
        },
    }
}

impl FinishKind {
    /// Whether the test counts as failed.
    pub(crate) fn counts_failed(self) -> bool
        ensures { result ≡ counts_failed self }
    {
        matches!(self, FinishKind::Failed | FinishKind::FlakyFailed)
    }

    /// The least level that shows its line.
    pub(crate) fn status_level(self) -> StatusLevel
        ensures { result ≡ status_level self }
    {
        match self {
            FinishKind::Failed | FinishKind::FlakyFailed => StatusLevel::Fail,
            FinishKind::Flaky => StatusLevel::Retry,
            FinishKind::Slow => StatusLevel::Slow,
            FinishKind::Leaky => StatusLevel::Leak,
            FinishKind::Passed => StatusLevel::Pass,
        }
    }

    /// The least level that shows its line again at the end.
    pub(crate) fn final_level(self) -> FinalStatusLevel
        ensures { result ≡ final_level self }
    {
        match self {
            FinishKind::Failed | FinishKind::FlakyFailed => FinalStatusLevel::Fail,
            FinishKind::Flaky => FinalStatusLevel::Flaky,
            FinishKind::Slow => FinalStatusLevel::Slow,
            FinishKind::Leaky => FinalStatusLevel::Leak,
            FinishKind::Passed => FinalStatusLevel::Pass,
        }
    }

    /// The style of its word.
    pub(crate) fn style(self) -> Style
        ensures { result ≡ kind_style self }
    {
        match self {
            FinishKind::Failed | FinishKind::FlakyFailed => Style::Red,
            FinishKind::Flaky | FinishKind::Slow | FinishKind::Leaky => Style::Yellow,
            FinishKind::Passed => Style::Green,
        }
    }

    /// When its output is shown.
    pub(crate) fn output(self, settings: &ReportSettings) -> OutputDisplay
        ensures { result ≡ output_when settings.now self }
    {
        if self.counts_failed() {
            settings.failure_output
        } else {
            settings.success_output
        }
    }
}

// The word of its last attempt, behind the number of that where there were others.
#[tactic(auto, unfolding(crate::specs::Finish::tried_word))]
fn tried_word(alloc: Global, verdict: Verdict) -> Mem<String>
    ensures { IfOk result (λ s. string_bytes s ≡ tried_word verdict) }
{
    if verdict.tries <= 1 {
        return long_word(alloc, verdict.ended);
    }
    let tries = verdict.tries;
    let word = short_word(alloc, verdict.ended)?;
    Ok(format!(in alloc; "TRY {tries} {word}")?)
}

/// Its word where the finish is told.
#[tactic(auto, unfolding(crate::specs::Finish::told_word))]
pub(crate) fn told_word(alloc: Global, verdict: Verdict) -> Mem<String>
    ensures { IfOk result (λ s. string_bytes s ≡ told_word verdict) }
{
    if !matches!(verdict.kind, FinishKind::FlakyFailed) {
        return tried_word(alloc, verdict);
    }
    let tries = verdict.tries;
    let attempts = verdict.attempts;
    Ok(format!(in alloc; "FLKY-FL {tries}/{attempts}")?)
}

/// Its word where it is shown again.
#[tactic(auto, unfolding(crate::specs::Finish::final_word))]
pub(crate) fn final_word(alloc: Global, verdict: Verdict) -> Mem<String>
    ensures { IfOk result (λ s. string_bytes s ≡ final_word verdict) }
{
    if !matches!(verdict.kind, FinishKind::Flaky) {
        return told_word(alloc, verdict);
    }
    let tries = verdict.tries;
    let attempts = verdict.attempts;
    Ok(format!(in alloc; "FLAKY {tries}/{attempts}")?)
}
