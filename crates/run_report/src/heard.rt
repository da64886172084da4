// What each event adds to a report, and what the report remembers of it.
ghost use Rattle.std.specs.Prelude.{◌≡◌, ◌++◌, [], IfOk, OnOk, List as Items};
ghost use Rattle.run_report.specs.Hears.{heard_after, heard_after_kind};
ghost use Rattle.run_report.specs.Kept.{kept_bytes};
ghost use Rattle.run_report.specs.Pieces.{Piece, pieces_bytes};
ghost use Rattle.run_report.specs.Ends.{stress_pieces};
ghost use Rattle.run_report.specs.Report.{
  event_pieces,
  finished_pieces,
  going_pieces,
  kind_pieces,
  of_a_round,
  of_the_run,
  of_a_test,
  stats_pieces,
};
ghost use Rattle.run_report.specs.Runs.{end_pieces};

use crate::ReportSettings;
use crate::ends::{push_stress, push_unseen};
use crate::finished::push_finished;
use crate::info::{push_answer, push_answered, push_asked};
use crate::kept::{Kept, keep, push_kept};
use crate::runs::{push_cancel, push_counts, push_job, push_start, push_sub_run};
use crate::scripts::{push_script_end, push_script_slow, push_script_start};
use crate::shown::Shown;
use crate::summary::{push_ended, push_unrun};
use crate::units::{push_failed, push_retry, push_skip, push_slow};
use run_capture::{List, Mem};
use run_events::{
    ReporterEvent, RunFinished, RunFinishedStats, RunStats, StressRunStats, TestEvent,
    TestEventKind,
};
use std::alloc::Global;

/// What a report remembers of the events that it heard.
#[derive(Drop)]
pub(crate) struct Heard {
    /// How many tests there are to run.
    pub total: u64,
    /// What is shown again at the next end, in order.
    pub kept: List<Kept>,
}

// Adds an event of a test.
#[tactic(auto, unfolding(crate::specs::Pieces::pieces_bytes))]
fn push_of_test(
    alloc: Global,
    shown: &mut Shown,
    settings: &ReportSettings,
    total: u64,
    kind: &TestEventKind,
) -> Mem<()>
    ensures { OnOk result (shown.new ≡ shown.old ++ pieces_bytes settings.now (of_a_test settings.now total kind.now)) }
{
    match kind {
        TestEventKind::TestSlow(told) => push_slow(alloc, shown, settings, total, told),
        TestEventKind::TestAttemptFailedWillRetry(told) => {
            push_failed(alloc, shown, settings, total, &told.failed)
        }
        TestEventKind::TestRetryStarted(told) => {
            push_retry(alloc, shown, settings, total, &told.retry)
        }
        TestEventKind::TestFinished(told) => push_finished(alloc, shown, settings, told),
        TestEventKind::TestSkipped(told) => push_skip(alloc, shown, settings, total, told),
        _ => Ok(()),
    }
}

// Adds an event of the run, or of a script.
#[tactic(auto, unfolding(crate::specs::Pieces::pieces_bytes))]
fn push_of_run(
    alloc: Global,
    shown: &mut Shown,
    settings: &ReportSettings,
    elapsed: u64,
    kind: &TestEventKind,
) -> Mem<()>
    ensures { OnOk result (shown.new ≡ shown.old ++ pieces_bytes settings.now (of_the_run elapsed kind.now)) }
{
    match kind {
        TestEventKind::RunStarted(told) => push_start(alloc, shown, settings, told),
        TestEventKind::StressSubRunStarted(told) => push_sub_run(alloc, shown, settings, told),
        TestEventKind::SetupScriptStarted(told) => push_script_start(alloc, shown, settings, told),
        TestEventKind::SetupScriptSlow(told) => push_script_slow(alloc, shown, settings, told),
        TestEventKind::SetupScriptFinished(told) => push_script_end(alloc, shown, settings, told),
        TestEventKind::InputEnter(told) => {
            push_counts(alloc, shown, settings, elapsed, &told.stats, told.running)
        }
        TestEventKind::RunBeginCancel(told) => {
            push_cancel(alloc, shown, settings, "Cancelling", told)
        }
        TestEventKind::RunBeginKill(told) => push_cancel(alloc, shown, settings, "Killing", told),
        TestEventKind::RunPaused(told) => push_job(alloc, shown, settings, "Pausing", told),
        TestEventKind::RunContinued(told) => push_job(alloc, shown, settings, "Continuing", told),
        _ => Ok(()),
    }
}

// Adds an event of an information round.
#[tactic(auto, unfolding(crate::specs::Pieces::pieces_bytes))]
fn push_of_info(
    alloc: Global,
    shown: &mut Shown,
    settings: &ReportSettings,
    kind: &TestEventKind,
) -> Mem<()>
    ensures { OnOk result (shown.new ≡ shown.old ++ pieces_bytes settings.now (of_a_round kind.now)) }
{
    match kind {
        TestEventKind::InfoStarted(told) => push_asked(alloc, shown, settings, told.total),
        TestEventKind::InfoResponse(told) => push_answer(alloc, shown, settings, told),
        TestEventKind::InfoFinished { missing } => push_answered(alloc, shown, settings, *missing),
        _ => Ok(()),
    }
}

// What an event adds that tells no end, where there are so many tests to run.
#[tactic(auto, using(crate::proofs::PieceLemmas::pieces_two))]
fn going(alloc: Global, settings: &ReportSettings, total: u64, event: &TestEvent) -> Mem<Shown>
    ensures { IfOk result (λ shown. shown ≡ pieces_bytes settings.now
        (going_pieces settings.now total event.now.elapsed event.now.kind)) }
{
    let mut shown = Shown::new(alloc);
    push_of_run(alloc, &mut shown, settings, event.elapsed, &event.kind)?;
    push_of_info(alloc, &mut shown, settings, &event.kind)?;
    push_of_test(alloc, &mut shown, settings, total, &event.kind)?;
    Ok(shown)
}

// The end of a run or a sub-run, with what is shown again there.
#[tactic(auto, using(crate::proofs::PieceLemmas::pieces_two), unfolding(crate::specs::Runs::end_pieces))]
fn ended(
    alloc: Global,
    settings: &ReportSettings,
    kept: &[Kept],
    elapsed: u64,
    stats: &RunStats,
) -> Mem<Shown>
    ensures { (late : Items Piece) → kept_bytes kept.now ≡ pieces_bytes settings.now late
        → IfOk result (λ shown. shown ≡ pieces_bytes settings.now (end_pieces elapsed stats.now late)) }
{
    let mut shown = Shown::new(alloc);
    push_ended(alloc, &mut shown, settings, elapsed, stats)?;
    push_kept(alloc, &mut shown, kept)?;
    push_unrun(alloc, &mut shown, settings, stats)?;
    Ok(shown)
}

// The end of a stress run.
fn stressed(
    alloc: Global,
    settings: &ReportSettings,
    elapsed: u64,
    stats: &StressRunStats,
) -> Mem<Shown>
    ensures { IfOk result (λ shown. shown ≡ pieces_bytes settings.now (stress_pieces elapsed stats.now)) }
{
    let mut shown = Shown::new(alloc);
    push_stress(alloc, &mut shown, settings, elapsed, stats)?;
    Ok(shown)
}

// The counts of a run's end, with what is shown again there.
fn counted(
    alloc: Global,
    settings: &ReportSettings,
    kept: &[Kept],
    elapsed: u64,
    stats: &RunFinishedStats,
) -> Mem<Shown>
    ensures { (late : Items Piece) → kept_bytes kept.now ≡ pieces_bytes settings.now late
        → IfOk result (λ shown. shown ≡ pieces_bytes settings.now (stats_pieces elapsed stats.now late)) }
{
    match stats {
        RunFinishedStats::Single(stats) => ended(alloc, settings, kept, elapsed, stats),
        RunFinishedStats::Stress(stats) => stressed(alloc, settings, elapsed, stats),
    }
}

// The end of a run, with what is shown again there.
#[tactic(auto, using(crate::proofs::PieceLemmas::pieces_join))]
fn finished(
    alloc: Global,
    settings: &ReportSettings,
    kept: &[Kept],
    elapsed: u64,
    told: &RunFinished,
) -> Mem<Shown>
    ensures { (late : Items Piece) → kept_bytes kept.now ≡ pieces_bytes settings.now late
        → IfOk result (λ shown. shown ≡ pieces_bytes settings.now (finished_pieces elapsed told.now late)) }
{
    let mut shown = counted(alloc, settings, kept, elapsed, &told.stats)?;
    push_unseen(alloc, &mut shown, settings, &told.not_seen)?;
    Ok(shown)
}

// What an event adds.
fn added(alloc: Global, settings: &ReportSettings, heard: &Heard, event: &TestEvent) -> Mem<Shown>
    ensures { (late : Items Piece) → kept_bytes heard.now.kept ≡ pieces_bytes settings.now late
        → IfOk result (λ shown. shown ≡ pieces_bytes settings.now
        (kind_pieces settings.now heard.now.total late event.now.elapsed event.now.kind)) }
{
    let kept = heard.kept.as_slice();
    match &event.kind {
        TestEventKind::StressSubRunFinished(told) => {
            ended(alloc, settings, kept, told.sub_elapsed, &told.stats)
        }
        TestEventKind::RunFinished(told) => { finished(alloc, settings, kept, event.elapsed, told) }
        _ => going(alloc, settings, heard.total, event),
    }
}

impl Heard {
    /// Of no events.
    pub(crate) fn nothing() -> Heard
        ensures { result ≡ record { total = 0; kept = [] } }
    {
        Heard {
            total: 0,
            kept: List::new(),
        }
    }

    // Remembers an event.
    fn remember(
        &mut self,
        alloc: Global,
        settings: &ReportSettings,
        kind: &TestEventKind,
    ) -> Mem<()>
        ensures { OnOk result (self.new ≡ heard_after_kind settings.now self.old kind.now) }
    {
        match kind {
            TestEventKind::TestStarted(told) => self.total = told.stats.initial_run_count,
            TestEventKind::TestFinished(told) => keep(alloc, settings, &mut self.kept, told)?,
            TestEventKind::StressSubRunFinished(_) => self.kept = List::new(),
            TestEventKind::RunFinished(_) => self.kept = List::new(),
            _ => {}
        }
        Ok(())
    }

    /// Hears an event, and answers what it adds.
    #[tactic(auto, unfolding(crate::specs::Pieces::pieces_bytes))]
    pub(crate) fn hear(
        &mut self,
        alloc: Global,
        settings: &ReportSettings,
        event: &ReporterEvent,
    ) -> Mem<Shown>
        ensures shown { (late : Items Piece) → kept_bytes self.old.kept ≡ pieces_bytes settings.now late
            → IfOk result (λ shown. shown ≡ pieces_bytes settings.now
            (event_pieces settings.now self.old.total late event.now)) }
        ensures heard { OnOk result (self.new ≡ heard_after settings.now self.old event.now) }
    {
        match event {
            ReporterEvent::Tick => Ok(Shown::new(alloc)),
            ReporterEvent::Test(event) => {
                let shown = added(alloc, settings, self, event)?;
                self.remember(alloc, settings, &event.kind)?;
                Ok(shown)
            }
        }
    }
}
