// An attempt that is slow, and one that has run out of time.
ghost use Rattle.std.specs.Prelude.{◌≡◌, ◌<◌, ◌^◌, OnErr, IfOk, Some, true, false};
ghost use Rattle.run_model.specs.Admission.{is_last};
ghost use Rattle.run_model.specs.Environment.{attempts};
ghost use Rattle.run_model.specs.Slow.{one_more, is_out_of_time, slow_time};
ghost use Rattle.run_model.specs.Row.{child_ask, signal_ask};
ghost use Rattle.run_model.specs.Requests.{killed};
ghost use Rattle.run_model.specs.Unit.{slow_message, slow_row};
ghost use Rattle.run_unit.specs.Effects.{IsRow};

use crate::effects::{UnitEffects, acting};
use crate::messages::{number_of, slow_report};
use crate::requests::give_time;
use crate::timing::slow_timer_at;
use run_capture::Mem;
use run_events::{Ask, ChildSignal, Message, SignalAsk, SlowTimeout, TermSignal, TerminateReason};
use run_model::{Phase, UnitView};
use std::alloc::Global;

/// Whether an attempt that was slow so often has run out of time.
pub fn is_out_of_time(slow: &SlowTimeout, count: u32) -> bool
    ensures { result ≡ is_out_of_time slow.now count }
{
    match slow.terminate_after {
        Some(most) => most.max(1) <= count,
        None => false,
    }
}

/// Its timer is due while its child runs: it is slow once more.
#[tactic(auto, using(crate::proofs::SlowLemmas::slow_sent, crate::proofs::SlowLemmas::slow_info, crate::proofs::SlowLemmas::slow_acks))]
pub fn be_slow(alloc: Global, view: &mut UnitView, now: u64) -> Mem<UnitEffects>
    requires few { attempts view.old < 2 ^ 32 }
    requires going { is_last view.old.phase ≡ false }
    ensures row { IfOk result (IsRow (slow_row now (one_more view.old.timers.slow_count) view.old) view.new) }
    ensures err { OnErr result (view.new ≡ view.old) }
{
    let count = view.timers.slow_count.saturating_add(1);
    let sent = slow_message(alloc, view, count)?;
    let asked = count_slow(view, count, now);
    Ok(acting(sent, asked))
}

/// Its time to end by itself is over.
pub fn kill(view: &mut UnitView) -> UnitEffects
    ensures { IsRow (killed view.old) view.new result }
{
    view.phase = Phase::Running;
    view.timers.wait = None;
    acting(None, Some(signal_ask(view, TermSignal::Kill)))
}

// The message that its attempt was slow so often, where it is given some time to end by itself.
fn slow_message(alloc: Global, view: &UnitView, count: u32) -> Mem<Option<Message>>
    requires { attempts view.now < 2 ^ 32 }
    ensures { IfOk result (λ sent. sent ≡ slow_message count view.now) }
{
    if view.terms.slow.grace == 0 {
        return Ok(None);
    }
    let report = slow_report(alloc, view, count)?;
    Ok(Some(report))
}

/// The time that is reported where an attempt was slow so often.
pub fn slow_time(slow: &SlowTimeout, count: u32) -> u64
    ensures { result ≡ slow_time slow.now count }
{
    u64::from(count).saturating_mul(slow.period)
}

/// A signal that is asked for its child, and for the group of its child's processes where it has one of its own.
pub fn child_ask(view: &UnitView, signal: ChildSignal) -> Ask
    ensures { result ≡ child_ask signal view.now }
{
    Ask::Signal(SignalAsk {
        unit: number_of(&view.role),
        signal,
        group: view.around.get().group,
    })
}

/// One that ends its child.
pub fn signal_ask(view: &UnitView, signal: TermSignal) -> Ask
    ensures { result ≡ signal_ask signal view.now }
{
    child_ask(view, ChildSignal::End(signal))
}

// It was slow so often, and goes on or is ended for it: what it asks for that.
fn count_slow(view: &mut UnitView, count: u32, now: u64) -> Option<Ask>
    requires { is_last view.old.phase ≡ false }
    ensures next { view.new ≡ (slow_row now count view.old).next }
    ensures asked { result ≡ (slow_row now count view.old).asked }
    ensures going { is_last view.new.phase ≡ false }
{
    if is_out_of_time(&view.terms.slow, count) {
        Some(run_out(view, count, now))
    } else {
        view.timers.slow = slow_timer_at(now, &view.terms);
        view.timers.slow_count = count;
        None
    }
}

// It has run out of time, and is killed at once or asked to end: the signal for that.
fn run_out(view: &mut UnitView, count: u32, now: u64) -> Ask
    requires { is_out_of_time view.old.terms.slow count ≡ true }
    ensures next { view.new ≡ (slow_row now count view.old).next }
    ensures asked { Some result ≡ (slow_row now count view.old).asked }
    ensures going { is_last view.new.phase ≡ false }
{
    view.timers.slow = None;
    view.timers.slow_count = count;
    if view.terms.slow.grace == 0 {
        view.phase = Phase::KillWait;
        return signal_ask(view, TermSignal::Kill);
    }
    give_time(view, TerminateReason::Timeout, now);
    signal_ask(view, TermSignal::Term)
}
