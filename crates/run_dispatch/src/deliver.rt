// The delivery of a message.
ghost use Rattle.std.specs.Prelude.{◌≡◌, ◌+◌, ◌<◌, ◌≤◌, ◌^◌, length, ◌∷◌, [], slice_get, IfOk, OnErr};
ghost use Rattle.run_events.specs.Stats.{AreBelow};
ghost use Rattle.run_events.specs.declared.message.Message.TheVariants as messages;
ghost use Rattle.run_model.specs.Dispatch.{CanDeliver, go_of, moment_by, event, finished_event};
ghost use Rattle.run_model.specs.Turns.{nothing_done, delivers};
ghost use Rattle.run_dispatch.specs.Deeds.{Acts, having_seen};

use crate::cancel::heed;
use crate::cause::Cause;
use crate::effects::{Fx, one_event, telling};
use crate::scripts::{hear_script_finish, hear_script_slow, hear_script_start};
use crate::tally::{with_finish, with_skip, with_start};
use run_capture::{List, Mem};
use run_clock::StopwatchStart;
use run_events::{
    AttemptFailed, AttemptFailedWillRetry, Message, ReporterEvent, RetryStarted, TestEventKind,
    TestFinish, TestFinished, TestRetry, TestSkip, TestSlow, TestStart, TestStarted,
};
use run_model::{DispatcherView, RerunContext, Tally};
use std::alloc::Global;

/// Delivers a message: a start and a retry are told and let go where nothing cancels the run; a slow report and the
/// failure of an attempt are told; a skip and a finish are counted and told; and a script that failed, or a test that
/// is the last failure, cancels the run.
pub fn hear(alloc: Global, view: &mut DispatcherView, message: Message, now: u64) -> Fx
    requires fits { CanDeliver view.old message }
    requires timed { view.old.watch.latest ≤ now }
    ensures does { IfOk result
        (Acts now view.old (delivers now view.old message nothing_done) (go_of view.old.tally message) view.new) }
    ensures err { OnErr result (view.new ≡ view.old) }
{
    match message {
        Message::ScriptStart(start) => hear_script_start(alloc, view, start.into_inner(), now),
        Message::ScriptSlow(slow) => hear_script_slow(alloc, view, slow.into_inner(), now),
        Message::ScriptFinish(finish) => hear_script_finish(alloc, view, finish.into_inner(), now),
        Message::Start(start) => hear_start(alloc, view, start.into_inner(), now),
        Message::Slow(slow) => hear_slow(alloc, view, slow.into_inner(), now),
        Message::AttemptFailed(failed) => hear_failed(alloc, view, failed.into_inner(), now),
        Message::Retry(retry) => hear_retry(alloc, view, retry.into_inner(), now),
        Message::Skip(skip) => hear_skip(alloc, view, skip.into_inner(), now),
        Message::Finish(finish) => hear_finish(alloc, view, finish.into_inner(), now),
    }
}

// The test whose start, or skip, the first event tells is seen.
fn mark_told(rerun: &mut RerunContext, events: &[ReporterEvent])
    ensures { rerun.new ≡ having_seen rerun.old (slice_get events.now 0) }
{
    if let Some(ReporterEvent::Test(event)) = events.first() {
        match &event.kind {
            TestEventKind::TestStarted(event) => rerun.mark_seen(&event.start.test.id),
            TestEventKind::TestSkipped(event) => rerun.mark_seen(&event.test.id),
            _ => {}
        }
    }
}

// A start is told and let go, unless a reason cancels the run.
fn hear_start(alloc: Global, view: &mut DispatcherView, start: TestStart, now: u64) -> Fx
    requires few { view.old.tally.running + 1 < 2 ^ 32 }
    requires timed { view.old.watch.latest ≤ now }
    ensures does { IfOk result (Acts now view.old (delivers now view.old (messages.Start start) nothing_done)
        (go_of view.old.tally (messages.Start start)) view.new) }
    ensures err { OnErr result (view.new ≡ view.old) }
{
    if view.tally.stats.cancel_reason.is_some() {
        view.latest = now;
        return Ok(telling(List::new(), Some(false)));
    }
    let tally = with_start(view.tally);
    let kind = TestEventKind::TestStarted(TestStarted {
        start,
        running: tally.running,
        stats: tally.stats,
    });
    let events = one_event(alloc, &view.watch, now, kind)?;
    mark_told(&mut view.rerun, events.as_slice());
    view.tally = tally;
    view.latest = now;
    Ok(telling(events, Some(true)))
}

fn hear_slow(alloc: Global, view: &mut DispatcherView, slow: TestSlow, now: u64) -> Fx
    requires timed { view.old.watch.latest ≤ now }
    ensures does { IfOk result (Acts now view.old (delivers now view.old (messages.Slow slow) nothing_done)
        (go_of view.old.tally (messages.Slow slow)) view.new) }
    ensures err { OnErr result (view.new ≡ view.old) }
{
    let events = one_event(alloc, &view.watch, now, TestEventKind::TestSlow(slow))?;
    view.latest = now;
    Ok(telling(events, None))
}

// The failure of an attempt that is tried again is told.
fn hear_failed(alloc: Global, view: &mut DispatcherView, failed: AttemptFailed, now: u64) -> Fx
    requires timed { view.old.watch.latest ≤ now }
    ensures does { IfOk result (Acts now view.old (delivers now view.old (messages.AttemptFailed failed) nothing_done)
        (go_of view.old.tally (messages.AttemptFailed failed)) view.new) }
    ensures err { OnErr result (view.new ≡ view.old) }
{
    let kind = TestEventKind::TestAttemptFailedWillRetry(AttemptFailedWillRetry {
        failed,
        running: view.tally.running,
    });
    let events = one_event(alloc, &view.watch, now, kind)?;
    view.latest = now;
    Ok(telling(events, None))
}

// A retry is told and let go, unless a reason cancels the run.
fn hear_retry(alloc: Global, view: &mut DispatcherView, retry: TestRetry, now: u64) -> Fx
    requires timed { view.old.watch.latest ≤ now }
    ensures does { IfOk result (Acts now view.old (delivers now view.old (messages.Retry retry) nothing_done)
        (go_of view.old.tally (messages.Retry retry)) view.new) }
    ensures err { OnErr result (view.new ≡ view.old) }
{
    if view.tally.stats.cancel_reason.is_some() {
        view.latest = now;
        return Ok(telling(List::new(), Some(false)));
    }
    let kind = TestEventKind::TestRetryStarted(RetryStarted {
        retry,
        running: view.tally.running,
    });
    let events = one_event(alloc, &view.watch, now, kind)?;
    view.latest = now;
    Ok(telling(events, Some(true)))
}

fn hear_skip(alloc: Global, view: &mut DispatcherView, skip: TestSkip, now: u64) -> Fx
    requires few { view.old.tally.stats.skipped < 2 ^ 32 }
    requires timed { view.old.watch.latest ≤ now }
    ensures does { IfOk result (Acts now view.old (delivers now view.old (messages.Skip skip) nothing_done)
        (go_of view.old.tally (messages.Skip skip)) view.new) }
    ensures err { OnErr result (view.new ≡ view.old) }
{
    let events = one_event(alloc, &view.watch, now, TestEventKind::TestSkipped(skip))?;
    mark_told(&mut view.rerun, events.as_slice());
    view.tally = with_skip(view.tally);
    view.latest = now;
    Ok(telling(events, None))
}

fn hear_finish(alloc: Global, view: &mut DispatcherView, finish: TestFinish, now: u64) -> Fx
    requires counts { AreBelow (2 ^ 32) view.old.tally.stats }
    requires attempts { 0 < length finish.statuses }
    requires runs { 0 < view.old.tally.running }
    requires timed { view.old.watch.latest ≤ now }
    ensures does { IfOk result (Acts now view.old (delivers now view.old (messages.Finish finish) nothing_done)
        (go_of view.old.tally (messages.Finish finish)) view.new) }
    ensures err { OnErr result (view.new ≡ view.old) }
{
    let tally = with_finish(view.tally, &finish);
    let events = told_finish(alloc, &view.watch, tally, finish, now)?;
    let cause = Cause::failure(view.rules.max_fail, &tally.stats);
    heed(alloc, view, events, cause, tally, now)
}

// The event of a finish, with the counts after it.
fn told_finish(
    alloc: Global,
    watch: &StopwatchStart,
    tally: Tally,
    finish: TestFinish,
    now: u64,
) -> Mem<List<ReporterEvent>>
    requires { watch.now.latest ≤ now }
    ensures { IfOk result (λ events. events ≡ event (moment_by now watch.now) (finished_event finish tally) ∷ []) }
{
    let kind = TestEventKind::TestFinished(TestFinished {
        finish,
        running: tally.running,
        stats: tally.stats,
    });
    one_event(alloc, watch, now, kind)
}
