// The run is stopped, and goes on.
ghost use Rattle.std.specs.Prelude.{◌≡◌, ◌+◌, ◌<◌, ◌≤◌, ◌^◌, IfOk, IfSome, OnErr, None};
ghost use Rattle.run_clock.specs.Counted.{pause, resume};
ghost use Rattle.run_model.specs.Dispatch.{is_halted};
ghost use Rattle.run_model.specs.Pauses.{watch_paused, watch_resumed};
ghost use Rattle.run_model.specs.Rounds.{timer_after};
ghost use Rattle.run_model.specs.Turns.{job_event, stops_at, continues_at, stops_itself};
ghost use Rattle.run_dispatch.specs.Deeds.{Acts};

use crate::effects::{DispatchEffects, Fx, one_telling, telling};
use run_capture::List;
use run_clock::{PausableSleep, StopwatchStart};
use run_events::{Ask, JobControlled, Request, TestEventKind};
use run_model::{DispatcherView, Tally};
use std::alloc::Global;

/// Whether the run is paused.
pub fn is_halted(view: &DispatcherView) -> bool
    ensures { result ≡ is_halted view.now }
{
    view.watch.is_paused()
}

fn job_event(tally: Tally) -> JobControlled
    ensures { result ≡ job_event tally }
{
    JobControlled {
        running: tally.running,
        scripts_running: tally.scripts_running,
    }
}

fn pause_watch(watch: &mut StopwatchStart, now: u64)
    requires { watch.old.latest ≤ now }
    ensures { watch.new ≡ watch_paused now watch.old }
{
    watch.pause(now);
}

fn resume_watch(watch: &mut StopwatchStart, now: u64)
    requires { watch.old.latest ≤ now }
    ensures { watch.new ≡ watch_resumed now watch.old }
{
    watch.resume(now);
}

fn pause_timer(timer: &mut Option<PausableSleep>, now: u64)
    requires { IfSome timer.old (λ timer. timer.latest ≤ now) }
    ensures { timer.new ≡ timer_after now pause timer.old }
{
    if let Some(timer) = timer {
        timer.pause(now);
    }
}

fn resume_timer(timer: &mut Option<PausableSleep>, now: u64)
    requires { IfSome timer.old (λ timer. timer.latest ≤ now) }
    ensures { timer.new ≡ timer_after now resume timer.old }
{
    if let Some(timer) = timer {
        timer.resume(now);
    }
}

/// A stop signal came: where the run isn't paused, it is from now on, and the live units are asked to stop.
pub fn stop(alloc: Global, view: &mut DispatcherView, now: u64) -> Fx
    requires few { view.old.rounds.count + 1 < 2 ^ 32 }
    requires timed { view.old.watch.latest ≤ now }
    ensures does { IfOk result (Acts now view.old (stops_at now view.old) None view.new) }
    ensures err { OnErr result (view.new ≡ view.old) }
{
    if is_halted(view) {
        return Ok(telling(List::new(), None));
    }
    let request = Request::Stop {
        round: view.rounds.count,
    };
    let kind = TestEventKind::RunPaused(job_event(view.tally));
    let effects = one_telling(alloc, &view.watch, now, kind, Some(request))?;
    pause_watch(&mut view.watch, now);
    view.rounds.count += 1;
    view.rounds.asks = Some(request);
    view.rounds.since = now;
    view.rounds.total = 0;
    view.rounds.told = 0;
    view.latest = now;
    Ok(effects)
}

/// A continue signal came: where the run is paused, it goes on from now on, and so do the live units.
pub fn go_on(alloc: Global, view: &mut DispatcherView, now: u64) -> Fx
    requires timed { view.old.watch.latest ≤ now }
    requires timer { IfSome view.old.causes.global (λ timer. timer.latest ≤ now) }
    requires part { view.old.sub_run_watch.latest ≤ now }
    ensures does { IfOk result (Acts now view.old (continues_at now view.old) None view.new) }
    ensures err { OnErr result (view.new ≡ view.old) }
{
    if !is_halted(view) {
        return Ok(telling(List::new(), None));
    }
    let kind = TestEventKind::RunContinued(job_event(view.tally));
    let effects = one_telling(alloc, &view.watch, now, kind, Some(Request::Continue))?;
    resume_watch(&mut view.watch, now);
    resume_watch(&mut view.sub_run_watch, now);
    resume_timer(&mut view.causes.global, now);
    view.latest = now;
    Ok(effects)
}

/// The wait for stopped units is over: the global timer pauses, and the runner is asked to stop itself.
pub fn stop_itself(view: &mut DispatcherView, now: u64) -> DispatchEffects
    requires timer { IfSome view.old.causes.global (λ timer. timer.latest ≤ now) }
    requires part { view.old.sub_run_watch.latest ≤ now }
    ensures { Acts now view.old stops_itself None view.new result }
{
    pause_timer(&mut view.causes.global, now);
    pause_watch(&mut view.sub_run_watch, now);
    view.rounds.asks = None;
    view.latest = now;
    DispatchEffects {
        events: List::new(),
        request: None,
        asked: Some(Ask::StopSelf),
        go: None,
    }
}
