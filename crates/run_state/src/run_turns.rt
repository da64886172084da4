// The turns of the run that open no round and close none: where a sub-run begins and ends, ticks, and causes.
ghost use Rattle.std.specs.Prelude.{ℕ, ◌≡◌, ◌≤◌, IfOk, None, OnOk, OnErr, true, false, length, slice_index_or};
ghost use Rattle.run_admission.specs.InUse.{new_admissions as limits_begun};
ghost use Rattle.run_dispatch.specs.Stress.{CanCount};
ghost use Rattle.run_model.specs.Admission.{AreFew, limits_of};
ghost use Rattle.run_model.specs.Board.{deed_events, moved};
ghost use Rattle.run_model.specs.Cancel.{time_is_up, event_refused};
ghost use Rattle.run_model.specs.Turns.{begin_deed, cancelled, end_deed, ticks};
ghost use Rattle.run_state.specs.Done.{Done};
ghost use Rattle.run_state.specs.Held.{KeepsSeats};
ghost use Rattle.run_state.specs.Placed.{HasSeats};

use crate::broadcast::broadcast;
use crate::effects::{Effects, telling};
use crate::state::State;
use crate::units::Units;
use run_admission::Admission;
use run_capture::Mem;
use run_events::Settings;
use std::alloc::Global;

// No unit is admitted any more, and no test holds anything of the limits.
fn renew(
    alloc: Global,
    settings: &Settings,
    units: &mut Units,
    admission: &mut Admission,
) -> Mem<()>
    requires few { AreFew settings.now }
    requires held { admission.old ≡ limits_of settings.now units.old }
    requires seated { HasSeats admission.old }
    ensures count { OnOk result (length units.new ≡ length units.old) }
    ensures none { OnOk result ((k : ℕ) → slice_index_or units.new k None ≡ None) }
    ensures limits { let plan = settings.now.plan in
        OnOk result (admission.new ≡ limits_begun settings.now.threads plan.groups plan.tests) }
    ensures err { OnErr result ((units.new ≡ units.old) × (admission.new ≡ admission.old)) }
{
    let groups = settings.plan.groups.as_slice();
    let tests = settings.plan.tests.as_slice();
    if !admission.all_wait() {
        *admission = Admission::new(alloc, settings.threads, groups, tests)?;
    }
    units.forget();
    Ok(())
}

/// Begins a sub-run: no unit was admitted, and nothing waits. After want of memory the units and limits
/// alone may be anew.
pub fn begin(alloc: Global, settings: &Settings, state: &mut State) -> Mem<Effects>
    requires idle { state.old.board.dispatcher.on ≡ false }
    requires later { state.old.board.dispatcher.latest ≤ state.old.board.clock }
    requires seated { KeepsSeats settings.now state.old }
    requires few { AreFew settings.now }
    ensures after { OnOk result (state.new.board ≡ moved state.old.board (begin_deed state.old.board)) }
    ensures seated { OnOk result (KeepsSeats settings.now state.new) }
    ensures told { IfOk result (λ effects. effects.events ≡ deed_events (begin_deed state.old.board)) }
    ensures asked { IfOk result (λ effects. effects.asked ≡ (begin_deed state.old.board).asked) }
{
    renew(alloc, settings, &mut state.units, &mut state.kept.limits)?;
    state.holders = 0;
    let now = state.clock;
    let effects = state.dispatcher.begin(alloc, now)?;
    state.queue.truncate(0);
    state.answers.truncate(0);
    Ok(telling(effects))
}

/// A display wants to draw anew.
pub fn tick(alloc: Global, state: &mut State) -> Mem<Effects>
    ensures { IfOk result (Done state.old ticks state.new) }
{
    let effects = state.dispatcher.tick(alloc)?;
    Ok(telling(effects))
}

/// The sub-run has run out of its time.
pub fn run_out(alloc: Global, state: &mut State) -> Mem<Effects>
    requires later { state.old.board.dispatcher.latest ≤ state.old.board.clock }
    ensures { IfOk result (Done state.old (cancelled state.old.board time_is_up) state.new) }
{
    let now = state.clock;
    let effects = state.dispatcher.global_due(alloc, now)?;
    let asks = state.dispatcher.round_request();
    broadcast(
        alloc,
        &mut state.units,
        &mut state.holders,
        asks,
        effects.request,
    )?;
    Ok(telling(effects))
}

/// The run is cancelled since the reporter refused an event.
pub fn refuse(alloc: Global, state: &mut State) -> Mem<Effects>
    requires later { state.old.board.dispatcher.latest ≤ state.old.board.clock }
    ensures { IfOk result (Done state.old (cancelled state.old.board event_refused) state.new) }
{
    let now = state.clock;
    let effects = state.dispatcher.report_cancel(alloc, now)?;
    let asks = state.dispatcher.round_request();
    broadcast(
        alloc,
        &mut state.units,
        &mut state.holders,
        asks,
        effects.request,
    )?;
    Ok(telling(effects))
}

/// Ends a sub-run.
pub fn end(alloc: Global, state: &mut State) -> Mem<Effects>
    requires on { state.old.board.dispatcher.on ≡ true }
    requires count { CanCount state.old.board.dispatcher.sub_runs }
    requires later { state.old.board.dispatcher.latest ≤ state.old.board.clock }
    ensures { IfOk result (Done state.old (end_deed state.old.board) state.new) }
{
    let now = state.clock;
    let effects = state.dispatcher.end(alloc, now)?;
    Ok(telling(effects))
}
