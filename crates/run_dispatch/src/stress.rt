// A stress run: which sub-run comes after one, and what is told of all.
ghost use Rattle.std.specs.Prelude.{ℕ, ◌≡◌, option_map, if◌then◌else◌};
ghost use Rattle.run_model.specs.Dispatch.{none_ended};
ghost use Rattle.run_model.specs.SubRuns.{index_at, is_failed, is_cancelled, outcome_with, progress_at};
ghost use Rattle.run_model.specs.SubRuns.{stress_stats, total_of, with_summary};
ghost use Rattle.run_dispatch.specs.Stress.{action_after, CanCount};

use run_capture::{Duplicate, Mem};
use run_commands::{StressCondition, StressCount};
use run_events::{
    CancelReason, FinalRunStats, RunOutcome, StressIndex, StressProgress, StressRunStats,
};
use run_model::SubRuns;
use std::alloc::Global;
use std::marker::Model;

/// What a stress run does after a sub-run.
#[derive(Clone, Copy, Debug, PartialEq, Eq, Drop)]
pub enum StressLoopAction {
    /// A further sub-run begins, this far in the run, unless as many have ended as a `u32` counts.
    Continue { next_progress: StressProgress },
    Stop,
}

impl Duplicate for StressLoopAction {
    fn copy(&self, _alloc: Global) -> Mem<StressLoopAction> {
        Ok(*self)
    }
}

impl StressLoopAction {
    /// What comes after a sub-run with this summary, in which this cause came, and which leaves the run this far.
    pub fn after_sub_run(
        last: FinalRunStats,
        reason: Option<CancelReason>,
        next: StressProgress,
    ) -> StressLoopAction
        ensures { result ≡ action_after last reason next }
    {
        if reason.is_some() || is_cancelled(last) || next.remaining().is_none() {
            StressLoopAction::Stop
        } else {
            StressLoopAction::Continue {
                next_progress: next,
            }
        }
    }
}

/// The sub-runs of a run that have ended, and when a stress run ends: none where it isn't one.
#[derive(Drop)]
pub struct StressContext {
    condition: Option<StressCondition>,
    runs: SubRuns,
}

impl Model for StressContext {
    ghost use Rattle.std.specs.Prelude.{Option};
    ghost use Rattle.run_commands.specs.declared.stress_count.StressCondition.{StressCondition};
    ghost use Rattle.run_model.specs.declared.dispatcher_view.SubRuns.{SubRuns};

    ghost Value = { Option StressCondition × SubRuns };

    ghost view = { λ context. (context.condition, context.runs) };
}

impl StressContext {
    /// A run of which no sub-run has ended.
    pub fn new(condition: Option<StressCondition>) -> StressContext
        ensures { result ≡ (condition, none_ended) }
    {
        StressContext {
            condition,
            runs: none_ended(),
        }
    }

    /// One more sub-run has ended, with this summary.
    pub fn mark_completed(&mut self, last: FinalRunStats)
        requires { CanCount self.old.1 }
        ensures { self.new ≡ (self.old.0, with_summary last self.old.1) }
    {
        self.runs = with_summary(self.runs, last);
    }

    /// How far a stress run is, after so much active time in nanoseconds; none without stress.
    pub fn progress(&self, elapsed: u64) -> Option<StressProgress>
        ensures { result ≡ option_map (λ condition. progress_at condition self.now.1.ended elapsed) self.now.0 }
    {
        match &self.condition {
            Some(condition) => Some(progress_at(condition, self.runs.ended, elapsed)),
            None => None,
        }
    }

    /// What is told of the sub-runs at the end of a stress run, whose last one has this summary; none without stress.
    pub fn run_stats(&self, last: FinalRunStats) -> Option<StressRunStats>
        ensures { result ≡ option_map (λ condition. stress_stats condition self.now.1 last) self.now.0 }
    {
        match &self.condition {
            Some(condition) => Some(stress_stats(condition, self.runs, last)),
            None => None,
        }
    }
}

/// No sub-run has ended.
pub fn none_ended() -> SubRuns
    ensures { result ≡ none_ended }
{
    SubRuns {
        ended: 0,
        failed: 0,
        cancelled: false,
        outcome: None,
    }
}

// Whether a sub-run with this summary was cancelled.
fn is_cancelled(last: FinalRunStats) -> bool
    ensures { result ≡ is_cancelled last }
{
    matches!(last, FinalRunStats::Cancelled { .. })
}

// Whether it failed, as a number.
fn failures(last: FinalRunStats) -> u32
    ensures { result ≡ (if is_failed last then 1 else 0) }
{
    match last {
        FinalRunStats::Failed { .. } => 1,
        _ => 0,
    }
}

// The outcome of a sub-run, put together with that of those before it.
fn outcome_with(earlier: Option<RunOutcome>, last: RunOutcome) -> RunOutcome
    ensures { result ≡ outcome_with earlier last }
{
    match earlier {
        Some(earlier) => earlier.combine(last),
        None => last,
    }
}

/// The sub-runs that have ended, once one more has ended with this summary.
pub fn with_summary(runs: SubRuns, last: FinalRunStats) -> SubRuns
    requires { CanCount runs }
    ensures { result ≡ with_summary last runs }
{
    let outcome = RunOutcome::from_final_stats(last);
    SubRuns {
        ended: runs.ended + 1,
        failed: runs.failed + failures(last),
        cancelled: is_cancelled(last) || runs.cancelled,
        outcome: Some(outcome_with(runs.outcome, outcome)),
    }
}

// How many sub-runs a stress run is to have, where that is a finite count.
fn total_of(condition: &StressCondition) -> Option<u32>
    ensures { result ≡ total_of condition.now }
{
    match condition {
        StressCondition::Count(StressCount::Count { count }) => Some(count.get()),
        _ => None,
    }
}

/// The place in a stress run where so many of its sub-runs have ended.
pub fn index_at(condition: &StressCondition, ended: u32) -> StressIndex
    ensures { result ≡ index_at condition.now ended }
{
    StressIndex {
        current: ended,
        total: total_of(condition),
    }
}

/// How far a stress run is, after so many sub-runs and so much active time.
pub fn progress_at(condition: &StressCondition, ended: u32, elapsed: u64) -> StressProgress
    ensures { result ≡ progress_at condition.now ended elapsed }
{
    match condition {
        StressCondition::Count(count) => StressProgress::Count {
            total: *count,
            elapsed,
            completed: ended,
        },
        StressCondition::Duration(total) => StressProgress::Time {
            total: *total,
            elapsed,
            completed: ended,
        },
    }
}

/// What is told at the end of a stress run of these sub-runs, of which the last has this summary.
pub fn stress_stats(
    condition: &StressCondition,
    runs: SubRuns,
    last: FinalRunStats,
) -> StressRunStats
    ensures { result ≡ stress_stats condition.now runs last }
{
    let cancelled = if runs.cancelled { 1 } else { 0 };
    StressRunStats {
        completed: index_at(condition, runs.ended),
        success_count: runs
            .ended
            .saturating_sub(runs.failed)
            .saturating_sub(cancelled),
        failed_count: runs.failed,
        last_final_stats: last,
    }
}
