// The requests that wait for a unit.
ghost use Rattle.std.specs.Prelude.{◌≡◌, ◌∷◌, ◌<◌, ◌^◌, if◌then◌else◌, IfOk, OnErr, Some, None, true, false};
ghost use Rattle.std.specs.List.{list_any};
ghost use Rattle.run_model.specs.Admission.{is_last};
ghost use Rattle.run_model.specs.Environment.{attempts};
ghost use Rattle.run_model.specs.Requests.{has_request, take_row, requested, asked_to_end, given_time};
ghost use Rattle.run_model.specs.Requests.{stop_ask, continue_ask, stopped, continued};
ghost use Rattle.run_model.specs.Row.{child_ask};
ghost use Rattle.run_model.specs.Story.{oldest};
ghost use Rattle.run_model.specs.Unit.{is_live};
ghost use Rattle.run_events.specs.declared.request.Request.{Request};
ghost use Rattle.run_events.specs.declared.request.Request.TheVariants as requests;
ghost use Rattle.run_unit.specs.Effects.{IsRow};
ghost use Rattle.run_model.specs.Same.{is_request};
ghost use Rattle.run_unit.specs.Taken.{is_told};
ghost use Rattle.run_unit.specs.Timely.{IsTimely, IsTried};

use crate::effects::{UnitEffects, acting, quiet};
use crate::info::{answer_now, answer_to};
use crate::pauses::{pause_all, resume_all, wait_from};
use crate::retry::end_delay;
use crate::same::is_request;
use crate::slow::{child_ask, kill, signal_ask};
use crate::terminate::terminate_method;
use run_capture::{List, Mem};
use run_events::{Ask, ChildSignal, Request, ShutdownRequest, TermSignal, TerminateReason};
use run_model::{Phase, UnitView};
use std::alloc::Global;
use std::mem;

/// Whether a unit of this phase is live: it was let go and isn't over.
pub fn is_live(phase: Phase) -> bool
    ensures { result ≡ is_live phase }
{
    !matches!(phase, Phase::StartSent | Phase::Over)
}

/// Whether a request waits in a line.
pub fn has_request(line: &List<Request>) -> bool
    ensures { result ≡ has_request line.now }
{
    !line.is_empty()
}

/// Whether this request waits in a line.
pub fn holds(line: &[Request], request: Request) -> bool
    ensures { result ≡ list_any (is_request request) line.now }
{
    line.iter().any(|other| is_request(request, *other))
}

// The oldest request of a line.
fn oldest(line: &List<Request>) -> Request
    requires { has_request line.now ≡ true }
    ensures { oldest line.now ≡ Some result }
{
    line.as_slice()[0]
}

/// It takes the oldest request of its line.
pub fn take(alloc: Global, view: &mut UnitView, now: u64) -> Mem<UnitEffects>
    requires waits { has_request view.old.line ≡ true }
    requires going { is_last view.old.phase ≡ false }
    requires timely { IsTimely view.old.timers now }
    requires tried { IsTried view.old }
    ensures row { IfOk result (IsRow (take_row now view.old.phase view.old.line view.old) view.new) }
    ensures err { OnErr result (view.new ≡ view.old) }
{
    let request = oldest(&view.line);
    if is_told(view.phase, request) {
        take_and_tell(alloc, view, request, now)
    } else {
        Ok(take_and_heed(alloc, view, now))
    }
}

// Whether it says something of a request that it takes in a phase.
fn is_told(phase: Phase, request: Request) -> bool
    ensures { result ≡ is_told phase request }
{
    match request {
        Request::GetInfo { .. } => true,
        Request::Shutdown(_) | Request::OtherCancel => matches!(phase, Phase::Delay),
        Request::Stop { .. } | Request::Continue => false,
    }
}

// It takes this request, which is the oldest of its line, and says something of it.
#[tactic(auto, using(crate::proofs::TakenLemmas::told_in_delay))]
fn take_and_tell(alloc: Global, view: &mut UnitView, request: Request, now: u64) -> Mem<UnitEffects>
    requires told { is_told view.old.phase request ≡ true }
    requires oldest { oldest view.old.line ≡ Some request }
    requires going { is_last view.old.phase ≡ false }
    requires timely { IsTimely view.old.timers now }
    requires tried { IsTried view.old }
    ensures row { IfOk result (IsRow (take_row now view.old.phase view.old.line view.old) view.new) }
    ensures err { OnErr result (view.new ≡ view.old) }
{
    match request {
        Request::GetInfo { round } => take_query(alloc, view, round, now),
        Request::Shutdown(_) | Request::OtherCancel => end_delay(alloc, view, request, now),
        Request::Stop { .. } | Request::Continue => unreachable!(),
    }
}

// It takes a query of this round, which is the oldest of its line, and answers.
#[tactic(auto, using(crate::proofs::TakenLemmas::answer_lined))]
fn take_query(alloc: Global, view: &mut UnitView, round: u32, now: u64) -> Mem<UnitEffects>
    requires oldest { oldest view.old.line ≡ Some (requests.GetInfo round) }
    requires going { is_last view.old.phase ≡ false }
    requires timely { IsTimely view.old.timers now }
    requires few { attempts view.old < 2 ^ 32 }
    ensures row { IfOk result (IsRow (take_row now view.old.phase view.old.line view.old) view.new) }
    ensures err { OnErr result (view.new ≡ view.old) }
{
    let answer = answer_now(alloc, view, now)?;
    let info = answer_to(alloc, round, answer)?;
    take_oldest(alloc, &mut view.line);
    Ok(UnitEffects {
        sent: None,
        asked: None,
        info,
        acks: 0,
        over: false,
    })
}

// It takes the oldest request of its line, of which it says nothing.
fn take_and_heed(alloc: Global, view: &mut UnitView, now: u64) -> UnitEffects
    requires waits { has_request view.old.line ≡ true }
    requires going { is_last view.old.phase ≡ false }
    requires timely { IsTimely view.old.timers now }
    requires plain { (request : Request) → oldest view.old.line ≡ Some request
        → is_told view.old.phase request ≡ false }
    ensures { IsRow (take_row now view.old.phase view.old.line view.old) view.new result }
{
    let request = take_oldest(alloc, &mut view.line);
    heed(view, request, now)
}

/// Takes the oldest request out of a line.
pub fn take_oldest(alloc: Global, line: &mut List<Request>) -> Request
    requires { has_request line.old ≡ true }
    ensures { line.old ≡ result ∷ line.new }
{
    let mut requests = mem::replace(line, List::new()).into_vec(alloc);
    let oldest = requests.remove(0);
    *line = List::from_vec(requests);
    oldest
}

// It gets a request of which it says nothing.
fn heed(view: &mut UnitView, request: Request, now: u64) -> UnitEffects
    requires going { is_last view.old.phase ≡ false }
    requires timely { IsTimely view.old.timers now }
    requires plain { is_told view.old.phase request ≡ false }
    ensures { IsRow (requested now view.old.phase request view.old) view.new result }
{
    match request {
        Request::Stop { .. } => stop(view, now),
        Request::Continue => go_on(view, now),
        Request::Shutdown(reason) => shut_down(view, reason, now),
        Request::OtherCancel | Request::GetInfo { .. } => quiet(false),
    }
}

// Its timers pause, and its child is asked to stop.
fn stop(view: &mut UnitView, now: u64) -> UnitEffects
    requires going { is_last view.old.phase ≡ false }
    requires timely { IsTimely view.old.timers now }
    ensures { IsRow (stopped now view.old.phase view.old) view.new result }
{
    let asked = stop_ask(view);
    pause_all(&mut view.timers, now);
    UnitEffects {
        sent: None,
        asked,
        info: List::new(),
        acks: 1,
        over: false,
    }
}

// What is asked of its child where it is to stop.
fn stop_ask(view: &UnitView) -> Option<Ask>
    ensures { result ≡ stop_ask view.now.phase view.now }
{
    let stops = match view.phase {
        Phase::Running => view.terms.stops,
        Phase::Grace => true,
        _ => false,
    };
    ask_where(view, stops, ChildSignal::Tstp)
}

// A signal that is asked for its child, where it is.
fn ask_where(view: &UnitView, asks: bool, signal: ChildSignal) -> Option<Ask>
    ensures { result ≡ (if asks then Some (child_ask signal view.now) else None) }
{
    if asks {
        Some(child_ask(view, signal))
    } else {
        None
    }
}

// Its timers that are paused run again, and its child is asked to go on.
fn go_on(view: &mut UnitView, now: u64) -> UnitEffects
    requires going { is_last view.old.phase ≡ false }
    requires timely { IsTimely view.old.timers now }
    ensures { IsRow (continued now view.old.phase view.old) view.new result }
{
    let asked = continue_ask(view);
    resume_all(&mut view.timers, now);
    acting(None, asked)
}

// What is asked of its child where it is to go on.
fn continue_ask(view: &UnitView) -> Option<Ask>
    ensures { result ≡ continue_ask view.now.phase view.now }
{
    let goes_on = match view.phase {
        Phase::Running => view.timers.stopwatch.is_paused(),
        Phase::Grace => true,
        _ => false,
    };
    ask_where(view, goes_on, ChildSignal::Cont)
}

// It gets a request to end its child while no delay passes, which is heeded until that ends.
fn shut_down(view: &mut UnitView, request: ShutdownRequest, now: u64) -> UnitEffects
    requires going { is_last view.old.phase ≡ false }
    requires plain { is_told view.old.phase (requests.Shutdown request) ≡ false }
    ensures { IsRow (requested now view.old.phase (requests.Shutdown request) view.old) view.new result }
{
    match view.phase {
        Phase::Running => {
            let reason = TerminateReason::Signal(request);
            let signal = terminate_method(reason, view.terms.slow.grace);
            ask_to_end(view, reason, signal, now)
        }
        Phase::Grace => kill(view),
        _ => quiet(false),
    }
}

/// Its child is given time to end by itself from now on, for this reason.
pub fn give_time(view: &mut UnitView, reason: TerminateReason, now: u64)
    ensures { view.new ≡ given_time now reason view.old }
{
    view.phase = Phase::Grace;
    wait_from(&mut view.timers, now, view.terms.slow.grace);
    view.ending = reason;
}

// Its child gets a signal that ends it for this reason, and some time to end by itself unless that kills it.
fn ask_to_end(
    view: &mut UnitView,
    reason: TerminateReason,
    signal: TermSignal,
    now: u64,
) -> UnitEffects
    requires { is_last view.old.phase ≡ false }
    ensures { IsRow (asked_to_end now reason signal view.old) view.new result }
{
    let asked = signal_ask(view, signal);
    if !matches!(signal, TermSignal::Kill) {
        give_time(view, reason, now);
    }
    acting(None, Some(asked))
}
