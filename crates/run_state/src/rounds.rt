// Signals and keys, which may open a round, and the turns of an open one.
ghost use Rattle.std.specs.Prelude.{◌≡◌, ◌≤◌, [], IfOk, true, if◌then◌else◌};
ghost use Rattle.run_model.specs.Dispatch.{heard_by, takes_signal};
ghost use Rattle.run_model.specs.Rounds.{opens_round};
ghost use Rattle.run_model.specs.Turns.{answered_by, informs_at, keys_at, live_in, oldest_of, signals_at, stops_itself};
ghost use Rattle.run_laws.specs.Ready.{CanAnswerNext, HasRound};
ghost use Rattle.run_state.specs.Done.{Done};

use crate::broadcast::broadcast;
use crate::effects::{Effects, telling};
use crate::state::State;
use run_capture::Mem;
use run_events::{InfoResponse, Key, Request, Signal};
use std::alloc::Global;
use std::collections::VecDeque;

// No answer waits where a request opens a round.
fn make_way(answers: &mut VecDeque<InfoResponse>, request: Option<Request>)
    ensures { answers.new.items ≡ (if opens_round request then [] else answers.old.items) }
{
    match request {
        Some(Request::Stop { .. } | Request::GetInfo { .. }) => answers.truncate(0),
        _ => {}
    }
}

/// A signal came.
pub fn hear_signal(alloc: Global, state: &mut State, signal: Signal) -> Mem<Effects>
    requires taken { takes_signal state.old.board.dispatcher.causes.signals
        (heard_by state.old.board.dispatcher.rules.hearing signal) ≡ true }
    requires few { HasRound state.old.board }
    requires later { state.old.board.dispatcher.latest ≤ state.old.board.clock }
    ensures { let b = state.old.board in
        IfOk result (Done state.old (signals_at b.clock (live_in b.units) b.dispatcher signal) state.new) }
{
    let now = state.clock;
    let facts = state.facts();
    let effects = state.dispatcher.signal(alloc, signal, facts, now)?;
    make_way(&mut state.answers, effects.request);
    let asks = state.dispatcher.round_request();
    broadcast(
        alloc,
        &mut state.units,
        &mut state.holders,
        asks,
        effects.request,
    )?;
    Ok(telling(effects))
}

/// A key was pressed or let go.
pub fn hear_key(alloc: Global, state: &mut State, key: Key) -> Mem<Effects>
    requires few { HasRound state.old.board }
    requires later { state.old.board.dispatcher.latest ≤ state.old.board.clock }
    ensures { let b = state.old.board in
        IfOk result (Done state.old (keys_at b.clock (live_in b.units) b.dispatcher key) state.new) }
{
    let now = state.clock;
    let facts = state.facts();
    let effects = state.dispatcher.key(alloc, key, facts, now)?;
    make_way(&mut state.answers, effects.request);
    let asks = state.dispatcher.round_request();
    broadcast(
        alloc,
        &mut state.units,
        &mut state.holders,
        asks,
        effects.request,
    )?;
    Ok(telling(effects))
}

/// The wait for stopped units is over.
pub fn stop_itself(state: &mut State) -> Effects
    requires later { state.old.board.dispatcher.latest ≤ state.old.board.clock }
    ensures { Done state.old stops_itself state.new result }
{
    let now = state.clock;
    let effects = state.dispatcher.stop_wait_due(now);
    state.answers.truncate(0);
    state.holders = 0;
    telling(effects)
}

/// The oldest answer of the round is told.
pub fn tell_answer(alloc: Global, state: &mut State) -> Mem<Effects>
    requires can { CanAnswerNext state.old.board }
    requires later { state.old.board.dispatcher.latest ≤ state.old.board.clock }
    ensures { let b = state.old.board in
        IfOk result (Done state.old (answered_by b (oldest_of b.answers)) state.new) }
{
    match state.answers.pop_front() {
        Some(answer) => {
            let now = state.clock;
            let effects = state.dispatcher.answer(alloc, answer, now)?;
            Ok(telling(effects))
        }
        None => unreachable!(),
    }
}

/// The round of queries is over.
pub fn end_round(alloc: Global, state: &mut State) -> Mem<Effects>
    requires later { state.old.board.dispatcher.latest ≤ state.old.board.clock }
    ensures { let b = state.old.board in
        IfOk result (Done state.old (informs_at b.clock b.dispatcher) state.new) }
{
    let now = state.clock;
    let effects = state.dispatcher.info_due(alloc, now)?;
    state.answers.truncate(0);
    state.holders = 0;
    Ok(telling(effects))
}
