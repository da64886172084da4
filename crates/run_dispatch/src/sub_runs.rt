// A sub-run begins, and ends.
ghost use Rattle.std.specs.Prelude.{◌≡◌, ◌+◌, ◌≤◌, ◌<◌, ◌^◌, ◌++◌, ◌∷◌, [], IfOk, OnErr, None, Some};
ghost use Rattle.std.specs.Prelude.{option_map, option_to_list};
ghost use Rattle.run_events.specs.Outcome.{summary};
ghost use Rattle.run_model.specs.Board.{deed_events};
ghost use Rattle.run_model.specs.Dispatch.{no_causes, no_rounds, tally_from};
ghost use Rattle.run_model.specs.SubRuns.{with_sub_run};
ghost use Rattle.run_model.specs.Turns.{begins_at, ends_as, ends_at, run_finished, stops_with};
ghost use Rattle.run_model.specs.Turns.{stress_finale, sub_run_finished, sub_run_started};
ghost use Rattle.run_model.specs.Words.{armed};
ghost use Rattle.run_dispatch.specs.Deeds.{Acts};
ghost use Rattle.run_dispatch.specs.Stress.{CanCount};

use crate::effects::{Fx, event_at, one_event, telling};
use crate::stress::{StressLoopAction, progress_at, stress_stats, with_summary};
use run_capture::{Duplicate, List, Mem};
use run_clock::{PausableSleep, StopwatchStart};
use run_commands::StressCondition;
use run_events::{
    ReporterEvent, RunFinished, RunFinishedStats, RunStats, SubRunFinished, TestEventKind,
};
use run_model::{Causes, DispatcherView, Rounds, Tally};
use std::alloc::Global;

// The timer of a sub-run that begins now.
fn armed(now: u64, timeout: Option<u64>) -> Option<PausableSleep>
    ensures { result ≡ armed now timeout }
{
    match timeout {
        Some(duration) => Some(PausableSleep::new(now, duration)),
        None => None,
    }
}

/// Before the first cause.
pub fn no_causes() -> Causes
    ensures { result ≡ no_causes }
{
    Causes {
        signals: 0,
        reported: false,
        global: None,
    }
}

/// Before the first round.
pub fn no_rounds() -> Rounds
    ensures { result ≡ no_rounds }
{
    Rounds {
        count: 0,
        asks: None,
        since: 0,
        total: 0,
        told: 0,
    }
}

/// What is counted as a sub-run begins, with these statistics.
pub fn tally_from(stats: RunStats) -> Tally
    ensures { result ≡ tally_from stats }
{
    Tally {
        running: 0,
        scripts_running: 0,
        stats,
    }
}

// Some events, and then one where there is one.
fn with_event(
    alloc: Global,
    mut events: List<ReporterEvent>,
    event: Option<ReporterEvent>,
) -> Mem<List<ReporterEvent>>
    ensures { IfOk result (λ all. all ≡ events ++ option_to_list event) }
{
    if let Some(event) = event {
        events.push(alloc, event)?;
    }
    Ok(events)
}

// That a sub-run of a stress run starts.
fn sub_run_started(view: &DispatcherView, now: u64) -> Option<ReporterEvent>
    requires { view.now.watch.latest ≤ now }
    ensures { result ≡ option_map (sub_run_started now view.now) view.now.head.stress }
{
    match &view.head.stress {
        Some(condition) => {
            let elapsed = view.watch.snapshot(now).active;
            let progress = progress_at(condition, view.sub_runs.ended, elapsed);
            let kind = TestEventKind::StressSubRunStarted(progress);
            Some(event_at(&view.watch, now, kind))
        }
        None => None,
    }
}

// What is told as a sub-run begins.
fn begin_events(alloc: Global, view: &DispatcherView, now: u64) -> Mem<List<ReporterEvent>>
    requires { view.now.watch.latest ≤ now }
    ensures { IfOk result (λ events. events ≡ deed_events (begins_at now view.now)) }
{
    let started = sub_run_started(view, now);
    if view.sub_runs.ended == 0 {
        let head = view.head.copy(alloc)?;
        let kind = TestEventKind::RunStarted(head);
        let events = one_event(alloc, &view.watch, now, kind)?;
        with_event(alloc, events, started)
    } else {
        with_event(alloc, List::new(), started)
    }
}

/// A sub-run begins, with nothing of those before it: the first tells that the run started, and in a stress run each
/// tells that it starts.
#[tactic(auto, using(crate::proofs::BoundLemmas::begun_after))]
pub fn begin_sub_run(alloc: Global, view: &mut DispatcherView, now: u64) -> Fx
    requires timed { view.old.watch.latest ≤ now }
    ensures does { IfOk result (Acts now view.old (begins_at now view.old) None view.new) }
    ensures err { OnErr result (view.new ≡ view.old) }
{
    let events = begin_events(alloc, view, now)?;
    view.on = true;
    view.causes = no_causes();
    view.causes.global = armed(now, view.rules.global_timeout);
    view.tally = tally_from(view.initial);
    view.rounds = no_rounds();
    view.latest = now;
    Ok(telling(events, None))
}

// The end of the run, with these statistics.
fn run_finished(
    alloc: Global,
    view: &DispatcherView,
    stats: RunFinishedStats,
    now: u64,
) -> Mem<ReporterEvent>
    requires { view.now.watch.latest ≤ now }
    ensures { IfOk result (λ event. event ≡ run_finished now view.now stats) }
{
    let not_seen = view.rerun.not_seen(alloc)?;
    let kind = TestEventKind::RunFinished(RunFinished { stats, not_seen });
    Ok(event_at(&view.watch, now, kind))
}

// The end of a sub-run of a stress run.
fn sub_run_finished(view: &DispatcherView, condition: &StressCondition, now: u64) -> ReporterEvent
    requires timed { view.now.watch.latest ≤ now }
    requires part { view.now.sub_run_watch.latest ≤ now }
    requires few { view.now.sub_runs.ended + 1 < 2 ^ 32 }
    ensures { result ≡ sub_run_finished now view.now condition.now }
{
    let elapsed = view.watch.snapshot(now).active;
    let kind = TestEventKind::StressSubRunFinished(SubRunFinished {
        progress: progress_at(condition, view.sub_runs.ended + 1, elapsed),
        sub_elapsed: view.sub_run_watch.snapshot(now).active,
        stats: view.tally.stats,
    });
    event_at(&view.watch, now, kind)
}

// Whether a stress run stops after the sub-run that is on.
fn stops_with(view: &DispatcherView, condition: &StressCondition, now: u64) -> bool
    requires timed { view.now.watch.latest ≤ now }
    requires few { view.now.sub_runs.ended + 1 < 2 ^ 32 }
    ensures { result ≡ stops_with now view.now condition.now }
{
    let elapsed = view.watch.snapshot(now).active;
    let ended = view.sub_runs.ended + 1;
    let next = progress_at(condition, ended, elapsed);
    let stats = &view.tally.stats;
    match StressLoopAction::after_sub_run(stats.summarize_final(), stats.cancel_reason, next) {
        StressLoopAction::Stop => true,
        StressLoopAction::Continue { .. } => ended == u32::MAX,
    }
}

// The statistics that are told at the end of a stress run.
fn stress_finale(view: &DispatcherView, condition: &StressCondition) -> RunFinishedStats
    requires { CanCount view.now.sub_runs }
    ensures { result ≡ stress_finale view.now condition.now }
{
    let last = view.tally.stats.summarize_final();
    let runs = with_summary(view.sub_runs, last);
    RunFinishedStats::Stress(stress_stats(condition, runs, last))
}

// Some events, and then the end of a stress run.
fn with_finale(
    alloc: Global,
    view: &DispatcherView,
    condition: &StressCondition,
    events: List<ReporterEvent>,
    now: u64,
) -> Mem<List<ReporterEvent>>
    requires count { CanCount view.now.sub_runs }
    requires timed { view.now.watch.latest ≤ now }
    ensures { IfOk result (λ all. all
        ≡ events ++ run_finished now view.now (stress_finale view.now condition.now) ∷ []) }
{
    let finale = run_finished(alloc, view, stress_finale(view, condition), now)?;
    with_event(alloc, events, Some(finale))
}

// What is told as a sub-run of a stress run ends, and whether the run ends with it.
fn stress_events(
    alloc: Global,
    view: &DispatcherView,
    condition: &StressCondition,
    now: u64,
) -> Mem<(List<ReporterEvent>, bool)>
    requires count { CanCount view.now.sub_runs }
    requires timed { view.now.watch.latest ≤ now }
    requires part { view.now.sub_run_watch.latest ≤ now }
    ensures told { IfOk result (λ p. p.0 ≡ deed_events (ends_as now view.now (Some condition.now))) }
    ensures over { IfOk result (λ p. p.1 ≡ stops_with now view.now condition.now) }
{
    let over = stops_with(view, condition, now);
    let mut events = List::new();
    events.push(alloc, sub_run_finished(view, condition, now))?;
    if !over {
        return Ok((events, over));
    }
    let events = with_finale(alloc, view, condition, events, now)?;
    Ok((events, over))
}

// What is told as a sub-run ends, and whether the run ends with it.
fn end_events(alloc: Global, view: &DispatcherView, now: u64) -> Mem<(List<ReporterEvent>, bool)>
    requires count { CanCount view.now.sub_runs }
    requires timed { view.now.watch.latest ≤ now }
    requires part { view.now.sub_run_watch.latest ≤ now }
    ensures told { IfOk result (λ p. p.0 ≡ deed_events (ends_at now view.now)) }
    ensures over { IfOk result (λ p. p.1 ≡ (ends_at now view.now).over) }
{
    match &view.head.stress {
        Some(condition) => stress_events(alloc, view, condition, now),
        None => {
            let stats = RunFinishedStats::Single(view.tally.stats);
            let event = run_finished(alloc, view, stats, now)?;
            let mut events = List::new();
            events.push(alloc, event)?;
            Ok((events, true))
        }
    }
}

/// A sub-run ends: in a stress run that is told, and the end of the run where it stops after it; any other run ends
/// with it.
#[tactic(auto, using(crate::proofs::BoundLemmas::ended_after))]
pub fn end_sub_run(alloc: Global, view: &mut DispatcherView, now: u64) -> Fx
    requires count { CanCount view.old.sub_runs }
    requires timed { view.old.watch.latest ≤ now }
    requires part { view.old.sub_run_watch.latest ≤ now }
    ensures does { IfOk result (Acts now view.old (ends_at now view.old) None view.new) }
    ensures err { OnErr result (view.new ≡ view.old) }
{
    let (events, over) = end_events(alloc, view, now)?;
    let last = view.tally.stats.summarize_final();
    view.on = false;
    view.over = over || view.over;
    view.sub_runs = with_summary(view.sub_runs, last);
    view.sub_run_watch = StopwatchStart::new(now);
    view.latest = now;
    Ok(telling(events, None))
}
