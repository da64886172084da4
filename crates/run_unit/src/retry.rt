// The attempts after the first: whether an attempt is tried again, after which delay, and from when on.
ghost use Rattle.std.specs.Prelude.{◌≡◌, ◌≤◌, ◌<◌, ◌^◌, OnErr, IfOk, Some, true};
ghost use Rattle.run_model.specs.Attempts.{cancels};
ghost use Rattle.run_model.specs.Backoff.{retry_count};
ghost use Rattle.run_model.specs.Environment.{attempts};
ghost use Rattle.run_model.specs.Ending.{last_status};
ghost use Rattle.run_model.specs.Retries.{has_passed, has_retry, decide_row, decided, delayed, retried, left};
ghost use Rattle.run_model.specs.Requests.{take_row};
ghost use Rattle.run_model.specs.Story.{oldest};
ghost use Rattle.run_model.specs.Unit.{row_at, begun_row, at_next};
ghost use Rattle.run_model.specs.declared.phase.Phase.TheVariants as phases;
ghost use Rattle.run_model.specs.declared.unit_turn.UnitTurn.TheVariants as turns;
ghost use Rattle.run_unit.specs.Effects.{IsRow};
ghost use Rattle.run_unit.specs.Timely.{IsTried};

use crate::effects::{UnitEffects, acting};
use crate::info::{exited_answers, stops_in};
use crate::messages::{failure_message, finish_message, retry_message};
use crate::pauses::wait_from;
use crate::requests::take_oldest;
use crate::start::let_go;
use run_capture::{List, Mem};
use run_events::{ExecuteStatus, Request};
use run_model::{Phase, UnitView, delay_by, retry_count};
use std::alloc::Global;

/// It decides: where its attempt failed and a retry is left, it is tried again after a delay, drawn with this word.
pub fn decide(alloc: Global, view: &mut UnitView, word: u32, now: u64) -> Mem<UnitEffects>
    requires first { 1 ≤ view.old.attempt }
    requires few { attempts view.old < 2 ^ 32 }
    ensures row { IfOk result (IsRow (decide_row now word view.old) view.new) }
    ensures err { OnErr result (view.new ≡ view.old) }
{
    if has_retry(view) {
        let delay = delay_by(&view.terms.retries, view.attempt - 1, word);
        wait_for_retry(alloc, view, delay, now)
    } else {
        finish(alloc, view)
    }
}

// Whether its attempt is tried again: it failed, and a retry is left.
fn has_retry(view: &UnitView) -> bool
    ensures { result ≡ has_retry view.now }
{
    !has_passed(view.statuses.as_slice()) && view.attempt <= retry_count(&view.terms.retries)
}

// Whether the last of its attempts passed.
#[tactic(auto, using(crate::proofs::RetryLemmas::last_given))]
fn has_passed(statuses: &[ExecuteStatus]) -> bool
    ensures { result ≡ has_passed (last_status statuses.now) }
{
    match statuses.last() {
        Some(status) => status.result.is_success(),
        None => false,
    }
}

// It is done: its attempts are told, each query in its line is answered, and each stop is gone.
fn finish(alloc: Global, view: &mut UnitView) -> Mem<UnitEffects>
    requires { attempts view.old < 2 ^ 32 }
    ensures row { IfOk result (IsRow (decided view.old) view.new) }
    ensures err { OnErr result (view.new ≡ view.old) }
{
    let info = exited_answers(alloc, view)?;
    let sent = finish_message(alloc, view)?;
    let acks = stops_in(view.line.as_slice());
    view.phase = Phase::Over;
    view.line = List::new();
    Ok(UnitEffects {
        sent,
        asked: None,
        info,
        acks,
        over: true,
    })
}

// It is tried again after this delay from now on: the failure of its attempt is told.
fn wait_for_retry(alloc: Global, view: &mut UnitView, delay: u64, now: u64) -> Mem<UnitEffects>
    ensures row { IfOk result (IsRow (delayed now delay view.old) view.new) }
    ensures err { OnErr result (view.new ≡ view.old) }
{
    let sent = failure_message(alloc, view, delay)?;
    view.phase = Phase::Delay;
    wait_from(&mut view.timers, now, delay);
    view.delay = delay;
    Ok(acting(sent, None))
}

/// The delay before its next attempt is over: its retry is told, and it waits to be let go.
pub fn retry(alloc: Global, view: &mut UnitView) -> Mem<UnitEffects>
    requires few { attempts view.old < 2 ^ 32 }
    requires left { view.old.attempt ≤ retry_count view.old.terms.retries }
    ensures row { IfOk result (IsRow (retried view.old) view.new) }
    ensures err { OnErr result (view.new ≡ view.old) }
{
    let sent = retry_message(alloc, view)?;
    view.phase = Phase::RetrySent;
    view.timers.wait = None;
    Ok(acting(sent, None))
}

/// It takes this request, the oldest of its line, in a delay, and ends that for it.
#[tactic(auto, using(crate::proofs::TakenLemmas::ends_delay))]
pub fn end_delay(alloc: Global, view: &mut UnitView, request: Request, now: u64) -> Mem<UnitEffects>
    requires oldest { oldest view.old.line ≡ Some request }
    requires cancels { cancels (Some request) ≡ true }
    requires phase { view.old.phase ≡ phases.Delay }
    requires tried { IsTried view.old }
    ensures row { IfOk result (IsRow (take_row now view.old.phase view.old.line view.old) view.new) }
    ensures err { OnErr result (view.new ≡ view.old) }
{
    let effects = retry(alloc, view)?;
    take_oldest(alloc, &mut view.line);
    Ok(effects)
}

/// Its retry was told: it is let go for its next attempt, or left.
pub fn answer_retry(alloc: Global, view: &mut UnitView, go: bool, now: u64) -> Mem<UnitEffects>
    requires few { attempts view.old < 2 ^ 32 }
    requires left { view.old.attempt ≤ retry_count view.old.terms.retries }
    ensures row { IfOk result (IsRow (row_at now phases.RetrySent (turns.Answered go) view.old) view.new) }
    ensures err { OnErr result (view.new ≡ view.old) }
{
    if go {
        go_again(alloc, view, now)
    } else {
        Ok(leave(view))
    }
}

// It isn't let go for its next attempt: what waits in its line is dropped.
fn leave(view: &mut UnitView) -> UnitEffects
    ensures { IsRow (left view.old) view.new result }
{
    let acks = stops_in(view.line.as_slice());
    view.phase = Phase::Over;
    view.line = List::new();
    UnitEffects {
        sent: None,
        asked: None,
        info: List::new(),
        acks,
        over: true,
    }
}

// It is let go for its next attempt.
fn go_again(alloc: Global, view: &mut UnitView, now: u64) -> Mem<UnitEffects>
    requires few { attempts view.old < 2 ^ 32 }
    requires left { view.old.attempt ≤ retry_count view.old.terms.retries }
    ensures row { IfOk result (IsRow (begun_row now (at_next view.old)) view.new) }
    ensures err { OnErr result (view.new ≡ view.old) }
{
    let attempt = view.attempt;
    view.attempt = attempt + 1;
    match let_go(alloc, view, now) {
        Ok(effects) => Ok(effects),
        Err(error) => {
            view.attempt = attempt;
            Err(error)
        }
    }
}
