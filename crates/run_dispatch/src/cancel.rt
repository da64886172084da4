// What a cause does.
ghost use Rattle.std.specs.Prelude.{◌≡◌, ◌+◌, ◌<◌, ◌≤◌, ◌++◌, IfOk, OnOk, OnErr, None, Some};
ghost use Rattle.std.specs.Prelude.{option_map, option_to_list};
ghost use Rattle.run_model.specs.Board.{deed_events, with_cause};
ghost use Rattle.run_model.specs.Cancel.{is_above, cancelled_for, cancel_event, caused, signal_cause};
ghost use Rattle.run_model.specs.Cancel.{time_is_up, event_refused};
ghost use Rattle.run_model.specs.Dispatch.{moment_by};
ghost use Rattle.run_model.specs.Turns.{nothing_done, cancels_for};
ghost use Rattle.run_dispatch.specs.Deeds.{Acts};

use crate::cause::Cause;
use crate::effects::{DispatchEffects, Fx, event_at, telling};
use run_capture::List;
use run_clock::StopwatchStart;
use run_events::{CancelReason, ReporterEvent, RunCancelled, RunStats, Signal, TestEventKind};
use run_model::{DispatcherView, Tally};
use std::alloc::Global;

// Whether a reason is above the current one.
fn is_above(current: Option<CancelReason>, reason: CancelReason) -> bool
    ensures { result ≡ is_above current reason }
{
    match current {
        Some(current) => current.is_below(reason),
        None => true,
    }
}

// The counts with this reason.
fn cancelled_for(reason: CancelReason, tally: Tally) -> Tally
    ensures { result ≡ cancelled_for reason tally }
{
    let stats = RunStats {
        cancel_reason: Some(reason),
        ..tally.stats
    };
    Tally { stats, ..tally }
}

/// The counts with the reason of a cause, where it is above the one that they have.
pub fn with_cause(reason: CancelReason, tally: Tally) -> Tally
    ensures { result ≡ with_cause (Some reason) tally }
{
    let stats = RunStats {
        cancel_reason: CancelReason::greater(tally.stats.cancel_reason, Some(reason)),
        ..tally.stats
    };
    Tally { stats, ..tally }
}

// The event that the run is cancelled, or killed, for a reason.
fn cancel_event(reason: CancelReason, tally: Tally) -> TestEventKind
    ensures { result ≡ cancel_event reason tally }
{
    let event = RunCancelled {
        running: tally.running,
        scripts_running: tally.scripts_running,
        stats: tally.stats,
    };
    match reason {
        CancelReason::SecondSignal => TestEventKind::RunBeginKill(event),
        _ => TestEventKind::RunBeginCancel(event),
    }
}

/// What is told and asked for a cause in a run with this stopwatch, after these events and by the counts after them:
/// nothing where its reason isn't above the current one.
pub fn add_cause(
    alloc: Global,
    mut events: List<ReporterEvent>,
    cause: &Cause,
    watch: &StopwatchStart,
    tally: Tally,
    now: u64,
) -> Fx
    requires { watch.now.latest ≤ now }
    ensures { IfOk result (λ fx. fx ≡ record {
      events = events ++ option_to_list (caused (moment_by now watch.now) tally (Some cause.now) nothing_done).after;
      request = (caused (moment_by now watch.now) tally (Some cause.now) nothing_done).request;
      asked = None;
      go = None;
    }) }
{
    let reason = cause.reason();
    if !is_above(tally.stats.cancel_reason, reason) {
        return Ok(telling(events, None));
    }
    let kind = cancel_event(reason, cancelled_for(reason, tally));
    events.push(alloc, event_at(watch, now, kind))?;
    Ok(DispatchEffects {
        events,
        request: Some(cause.request()),
        asked: None,
        go: None,
    })
}

/// A finish was told by these events, and has these counts after it: it is this cause, or none.
pub fn heed(
    alloc: Global,
    view: &mut DispatcherView,
    events: List<ReporterEvent>,
    cause: Option<Cause>,
    tally: Tally,
    now: u64,
) -> Fx
    requires { view.old.watch.latest ≤ now }
    ensures gives { IfOk result (λ fx. fx ≡ record {
      events = events ++ option_to_list (caused (moment_by now view.old.watch) tally cause nothing_done).after;
      request = (caused (moment_by now view.old.watch) tally cause nothing_done).request;
      asked = None;
      go = None;
    }) }
    ensures after { OnOk result (view.new ≡ record view.old {
      tally = with_cause (option_map (λ cause. cause.reason) cause) tally;
      latest = now;
    }) }
    ensures err { OnErr result (view.new ≡ view.old) }
{
    match cause {
        Some(cause) => {
            let effects = add_cause(alloc, events, &cause, &view.watch, tally, now)?;
            view.tally = with_cause(cause.reason(), tally);
            view.latest = now;
            Ok(effects)
        }
        None => {
            view.tally = tally;
            view.latest = now;
            Ok(telling(events, None))
        }
    }
}

// A cause alone: its reason is the run's where it is above the current one.
fn cancel_for(alloc: Global, view: &mut DispatcherView, cause: &Cause, now: u64) -> Fx
    requires { view.old.watch.latest ≤ now }
    ensures told { IfOk result (λ fx. fx ≡ record {
      events = deed_events (cancels_for now view.old cause.now);
      request = (cancels_for now view.old cause.now).request;
      asked = None;
      go = None;
    }) }
    ensures after { OnOk result (view.new ≡ record view.old {
      tally = with_cause (Some cause.now.reason) view.old.tally;
      latest = now;
    }) }
    ensures err { OnErr result (view.new ≡ view.old) }
{
    let effects = add_cause(alloc, List::new(), cause, &view.watch, view.tally, now)?;
    view.tally = with_cause(cause.reason(), view.tally);
    view.latest = now;
    Ok(effects)
}

/// A shutdown signal came.
pub fn shut_down(alloc: Global, view: &mut DispatcherView, signal: Signal, now: u64) -> Fx
    requires few { view.old.causes.signals < 2 }
    requires timed { view.old.watch.latest ≤ now }
    ensures does { IfOk result
        (Acts now view.old (cancels_for now view.old (signal_cause view.old.causes.signals signal)) None view.new) }
    ensures err { OnErr result (view.new ≡ view.old) }
{
    let cause = Cause::signal(view.causes.signals, signal);
    let effects = cancel_for(alloc, view, &cause, now)?;
    view.causes.signals += 1;
    Ok(effects)
}

/// The reporter refused an event.
#[tactic(auto, using(crate::proofs::SignalLemmas::refused_after))]
pub fn refuse(alloc: Global, view: &mut DispatcherView, now: u64) -> Fx
    requires { view.old.watch.latest ≤ now }
    ensures does { IfOk result (Acts now view.old (cancels_for now view.old event_refused) None view.new) }
    ensures err { OnErr result (view.new ≡ view.old) }
{
    let effects = cancel_for(alloc, view, &Cause::event_refused(), now)?;
    view.causes.reported = true;
    Ok(effects)
}

/// The sub-run has run out of its time.
#[tactic(auto, using(crate::proofs::SignalLemmas::run_out_after))]
pub fn run_out(alloc: Global, view: &mut DispatcherView, now: u64) -> Fx
    requires { view.old.watch.latest ≤ now }
    ensures does { IfOk result (Acts now view.old (cancels_for now view.old time_is_up) None view.new) }
    ensures err { OnErr result (view.new ≡ view.old) }
{
    let effects = cancel_for(alloc, view, &Cause::time_is_up(), now)?;
    view.causes.global = None;
    Ok(effects)
}
