// The delivery of a setup script's message.
ghost use Rattle.std.specs.Prelude.{◌≡◌, ◌+◌, ◌<◌, ◌≤◌, ◌^◌, IfOk, OnErr};
ghost use Rattle.run_events.specs.Stats.{AreBelow};
ghost use Rattle.run_events.specs.declared.message.Message.TheVariants as messages;
ghost use Rattle.run_model.specs.Dispatch.{go_of};
ghost use Rattle.run_model.specs.Turns.{nothing_done, delivers};
ghost use Rattle.run_dispatch.specs.Deeds.{Acts};

use crate::cancel::heed;
use crate::cause::Cause;
use crate::effects::{Fx, one_event, telling};
use crate::tally::{with_script, with_script_finish};
use run_capture::List;
use run_events::{ScriptFinish, ScriptSlow, ScriptStart, TestEventKind};
use run_model::DispatcherView;
use std::alloc::Global;

/// A script's start is told and let go, unless a reason cancels the run.
pub fn hear_script_start(
    alloc: Global,
    view: &mut DispatcherView,
    start: ScriptStart,
    now: u64,
) -> Fx
    requires few { view.old.tally.scripts_running + 1 < 2 ^ 32 }
    requires timed { view.old.watch.latest ≤ now }
    ensures does { IfOk result (Acts now view.old (delivers now view.old (messages.ScriptStart start) nothing_done)
        (go_of view.old.tally (messages.ScriptStart start)) view.new) }
    ensures err { OnErr result (view.new ≡ view.old) }
{
    if view.tally.stats.cancel_reason.is_some() {
        view.latest = now;
        return Ok(telling(List::new(), Some(false)));
    }
    let events = one_event(
        alloc,
        &view.watch,
        now,
        TestEventKind::SetupScriptStarted(start),
    )?;
    view.tally = with_script(view.tally);
    view.latest = now;
    Ok(telling(events, Some(true)))
}

/// That a script is slow is told.
pub fn hear_script_slow(alloc: Global, view: &mut DispatcherView, slow: ScriptSlow, now: u64) -> Fx
    requires timed { view.old.watch.latest ≤ now }
    ensures does { IfOk result (Acts now view.old (delivers now view.old (messages.ScriptSlow slow) nothing_done)
        (go_of view.old.tally (messages.ScriptSlow slow)) view.new) }
    ensures err { OnErr result (view.new ≡ view.old) }
{
    let events = one_event(
        alloc,
        &view.watch,
        now,
        TestEventKind::SetupScriptSlow(slow),
    )?;
    view.latest = now;
    Ok(telling(events, None))
}

/// A script's finish is counted and told, and cancels the run where the script failed.
pub fn hear_script_finish(
    alloc: Global,
    view: &mut DispatcherView,
    finish: ScriptFinish,
    now: u64,
) -> Fx
    requires counts { AreBelow (2 ^ 32) view.old.tally.stats }
    requires runs { 0 < view.old.tally.scripts_running }
    requires timed { view.old.watch.latest ≤ now }
    ensures does { IfOk result (Acts now view.old (delivers now view.old (messages.ScriptFinish finish) nothing_done)
        (go_of view.old.tally (messages.ScriptFinish finish)) view.new) }
    ensures err { OnErr result (view.new ≡ view.old) }
{
    let ended = finish.status.result;
    let tally = with_script_finish(view.tally, ended);
    let events = one_event(
        alloc,
        &view.watch,
        now,
        TestEventKind::SetupScriptFinished(finish),
    )?;
    let cause = Cause::script_failure(ended);
    heed(alloc, view, events, cause, tally, now)
}
