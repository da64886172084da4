// What a signal does.
ghost use Rattle.std.specs.Prelude.{◌≡◌, ◌+◌, ◌<◌, ◌≤◌, ◌^◌, IfOk, IfSome, OnErr, None, true};
ghost use Rattle.run_model.specs.Dispatch.{heard_by, shuts_down, takes_signal};
ghost use Rattle.run_model.specs.Turns.{job_deed, signal_deed};
ghost use Rattle.run_dispatch.specs.Deeds.{Acts};

use crate::cancel::shut_down;
use crate::effects::{Fx, telling};
use crate::info::ask_units;
use crate::jobs::{go_on, stop};
use run_capture::List;
use run_events::{Heard, Hearing, Signal, hears_signal};
use run_model::DispatcherView;
use std::alloc::Global;

/// What a signal is to a run with these handlers, where it is heard.
pub fn heard_by(hearing: &Hearing, signal: Signal) -> Option<Heard>
    ensures { result ≡ heard_by hearing.now signal }
{
    hears_signal(hearing.signals, hearing.quit_is_info, signal)
}

/// Whether a signal shuts a run with these handlers down.
pub fn shuts_down(hearing: &Hearing, signal: Signal) -> bool
    ensures { result ≡ shuts_down hearing.now signal }
{
    matches!(heard_by(hearing, signal), Some(Heard::Shutdown))
}

/// Whether a signal is taken that is this to the run, after so many that shut it down.
pub fn takes_signal(before: u32, heard: Option<Heard>) -> bool
    ensures { result ≡ takes_signal before heard }
{
    match heard {
        Some(Heard::Shutdown) => before < 2,
        Some(Heard::JobControl | Heard::Info) => true,
        None => false,
    }
}

/// A signal came that is this to the run, on which so many units are live.
pub fn hear_signal(
    alloc: Global,
    view: &mut DispatcherView,
    signal: Signal,
    heard: Option<Heard>,
    live: u32,
    now: u64,
) -> Fx
    requires taken { takes_signal view.old.causes.signals heard ≡ true }
    requires few { view.old.rounds.count + 1 < 2 ^ 32 }
    requires timed { view.old.watch.latest ≤ now }
    requires timer { IfSome view.old.causes.global (λ timer. timer.latest ≤ now) }
    requires part { view.old.sub_run_watch.latest ≤ now }
    ensures does { IfOk result (Acts now view.old (signal_deed now live view.old signal heard) None view.new) }
    ensures err { OnErr result (view.new ≡ view.old) }
{
    match heard {
        Some(Heard::Shutdown) => shut_down(alloc, view, signal, now),
        Some(Heard::JobControl) => control(alloc, view, signal, now),
        Some(Heard::Info) => ask_units(alloc, view, live, now),
        None => Ok(telling(List::new(), None)),
    }
}

// A signal came that stops the run, or lets it go on.
fn control(alloc: Global, view: &mut DispatcherView, signal: Signal, now: u64) -> Fx
    requires few { view.old.rounds.count + 1 < 2 ^ 32 }
    requires timed { view.old.watch.latest ≤ now }
    requires timer { IfSome view.old.causes.global (λ timer. timer.latest ≤ now) }
    requires part { view.old.sub_run_watch.latest ≤ now }
    ensures does { IfOk result (Acts now view.old (job_deed now view.old signal) None view.new) }
    ensures err { OnErr result (view.new ≡ view.old) }
{
    match signal {
        Signal::Tstp => stop(alloc, view, now),
        _ => go_on(alloc, view, now),
    }
}
