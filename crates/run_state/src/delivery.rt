// The oldest message is delivered.
ghost use Rattle.std.specs.Prelude.{◌≡◌, ◌≤◌, ◌++◌, [], IfOk, OnOk, IsNone, option_to_list};
ghost use Rattle.run_model.specs.Board.{moved, deed_events, reach_all};
ghost use Rattle.run_model.specs.Turns.{starting, answer_to, delivery};
ghost use Rattle.run_laws.specs.Ready.{CanAnswer, CanDeliverOldest};
ghost use Rattle.run_state.specs.Held.{KeepsSeats};

use crate::broadcast::broadcast;
use crate::effects::Effects;
use crate::state::State;
use crate::unit_turns::take_turn;
use run_capture::Mem;
use run_dispatch::DispatchEffects;
use run_events::{Ask, Message, Request, Settings};
use run_model::UnitTurn;
use std::alloc::Global;
use std::collections::VecDeque;

// Room for so many messages is kept where none waits.
const ROOM_KEPT: usize = 64;

// Takes the oldest message. Where none is left, the room that many of them took is given back.
fn take_oldest(queue: &mut VecDeque<Message>) -> Option<Message>
    ensures taken { queue.old.items ≡ option_to_list result ++ queue.new.items }
    ensures none { IsNone result → queue.old.items ≡ [] }
{
    let oldest = queue.pop_front();
    if queue.is_empty() && queue.capacity() > ROOM_KEPT {
        queue.shrink_to_fit();
    }
    oldest
}

// The unit whose start, or retry, a message is.
fn starting(message: &Message) -> Option<u32>
    ensures { result ≡ starting message.now }
{
    match message {
        Message::ScriptStart(start) => Some(start.get().script.unit),
        Message::Start(start) => Some(start.get().test.unit),
        Message::Retry(retry) => Some(retry.get().start.test.unit),
        _ => None,
    }
}

// Gives the answer to the unit that waits for it.
fn answer(
    alloc: Global,
    settings: &Settings,
    state: &mut State,
    unit: Option<u32>,
    go: Option<bool>,
) -> Mem<Option<Ask>>
    requires can { CanAnswer state.old.board unit go }
    requires seated { KeepsSeats settings.now state.old }
    ensures seated { OnOk result (KeepsSeats settings.now state.new) }
    ensures after { OnOk result (state.new.board ≡ moved state.old.board
        (answer_to state.old.board unit go)) }
    ensures asked { IfOk result (λ asked. asked ≡ (answer_to state.old.board unit go).asked) }
{
    match (unit, go) {
        (Some(unit), Some(go)) => take_turn(
            alloc,
            settings,
            state,
            unit,
            UnitTurn::Answered { go },
        ),
        _ => Ok(None),
    }
}

// Gives the answer, and then the request, if there is one, to each unit.
fn heed(
    alloc: Global,
    settings: &Settings,
    state: &mut State,
    unit: Option<u32>,
    go: Option<bool>,
    request: Option<Request>,
) -> Mem<Option<Ask>>
    requires can { CanAnswer state.old.board unit go }
    requires seated { KeepsSeats settings.now state.old }
    ensures seated { OnOk result (KeepsSeats settings.now state.new) }
    ensures after { let answered = moved state.old.board (answer_to state.old.board unit go) in
        OnOk result (state.new.board ≡ record answered { units = reach_all request answered.units }) }
    ensures asked { IfOk result (λ asked. asked ≡ (answer_to state.old.board unit go).asked) }
{
    let asked = answer(alloc, settings, state, unit, go)?;
    let asks = state.dispatcher.round_request();
    broadcast(alloc, &mut state.units, &mut state.holders, asks, request)?;
    Ok(asked)
}

/// Delivers the oldest message.
pub fn deliver(alloc: Global, settings: &Settings, state: &mut State) -> Mem<Effects>
    requires can { CanDeliverOldest state.old.board state.old.board.queue }
    requires seated { KeepsSeats settings.now state.old }
    requires later { state.old.board.dispatcher.latest ≤ state.old.board.clock }
    ensures seated { OnOk result (KeepsSeats settings.now state.new) }
    ensures after { let deed = delivery state.old.board state.old.board.queue in
        OnOk result (state.new.board ≡ moved state.old.board deed) }
    ensures told { let deed = delivery state.old.board state.old.board.queue in
        IfOk result (λ effects. effects.events ≡ deed_events deed) }
    ensures asked { let deed = delivery state.old.board state.old.board.queue in
        IfOk result (λ effects. effects.asked ≡ deed.asked) }
{
    match take_oldest(&mut state.queue) {
        Some(message) => {
            let unit = starting(&message);
            let now = state.clock;
            let DispatchEffects {
                events,
                request,
                go,
                ..
            } = state.dispatcher.deliver(alloc, message, now)?;
            let asked = heed(alloc, settings, state, unit, go, request)?;
            Ok(Effects { events, asked })
        }
        None => unreachable!(),
    }
}
