// A unit takes a turn of its own.
ghost use Rattle.std.specs.Prelude.{◌≡◌, ◌<◌, ◌≤◌, ◌-◌, ◌++◌, IfOk, OnOk, true, filter_map, option_to_list};
ghost use Rattle.std.specs.Prelude.{if◌then◌else◌, option_and_then, Some};
ghost use Rattle.std.specs.VecDeque.{deque_len, deque_capacity};
ghost use Rattle.run_admission.specs.InUse.{is_test_in_use};
ghost use Rattle.run_model.specs.Admission.{limits_of, scripts_in};
ghost use Rattle.run_model.specs.Board.{unit_in, moved, units_after};
ghost use Rattle.run_events.specs.declared.request.Request.TheVariants.{GetInfo};
ghost use Rattle.run_model.specs.Info.{round_of};
ghost use Rattle.run_model.specs.Rounds.{answer_of};
ghost use Rattle.run_model.specs.Turns.{taken_deed};
ghost use Rattle.run_laws.specs.Ready.{CanTakeTurn};
ghost use Rattle.run_state.specs.Held.{KeepsSeats, given_back};
ghost use Rattle.run_state.specs.Placed.{FitsUnits};
ghost use Rattle.run_state.specs.UnitTurns.{MayTake, unit_deed};

use crate::counts::count_after;
use crate::state::State;
use crate::units::Units;
use run_admission::Admission;
use run_capture::{List, Mem, OutOfMemory};
use run_events::{Ask, InfoResponse, Message, Request, Settings};
use run_model::UnitTurn;
use run_unit::UnitEffects;
use std::alloc::Global;
use std::collections::VecDeque;

// Puts a message at the end of the queue, which has room for it.
fn send(queue: &mut VecDeque<Message>, sent: Option<Message>)
    requires { deque_len queue.old < deque_capacity queue.old }
    ensures { queue.new.items ≡ queue.old.items ++ option_to_list sent }
{
    if let Some(message) = sent {
        queue.push_back_reserved(message);
    }
}

// A unit that is over gives back what it held of the limits, where it is a test.
fn release(settings: &Settings, admission: &mut Admission, unit: u32, over: bool)
    requires { over ≡ true → scripts_in settings.now ≤ unit
        → is_test_in_use admission.old (unit - scripts_in settings.now) ≡ true }
    ensures { admission.new ≡ (if over then given_back settings.now admission.old unit else
        admission.old) }
{
    let scripts = settings.plan.scripts.len();
    if over && unit as usize >= scripts {
        admission.release((unit as usize - scripts) as u32);
    }
}

// Makes room for a message and an answer, so that neither is lost once a unit has moved: no unit has a second query of
// the open round in its line, so it gives no second answer.
fn make_room(queue: &mut VecDeque<Message>, answers: &mut VecDeque<InfoResponse>) -> Mem<()>
    ensures queue { queue.new.items ≡ queue.old.items }
    ensures room { OnOk result (deque_len queue.new < deque_capacity queue.new) }
    ensures answers { answers.new.items ≡ answers.old.items }
{
    queue.reserve(1)?;
    answers.reserve(1)?;
    Ok(())
}

// The round of the queries that the open round asks, where it does.
fn query_round(asks: Option<Request>) -> Option<u32>
    ensures { result ≡ option_and_then round_of asks }
{
    match asks {
        Some(Request::GetInfo { round }) => Some(round),
        _ => None,
    }
}

// Puts an answer at the end of those that wait, where it is to the queries of a round.
fn keep_answer(
    answers: &mut VecDeque<InfoResponse>,
    round: u32,
    query: u32,
    answer: InfoResponse,
) -> Mem<()>
    ensures { OnOk result (answers.new.items
        ≡ answers.old.items ++ option_to_list (answer_of (Some (GetInfo round)) (query, answer))) }
{
    if query == round {
        answers.push_back(answer)?;
    }
    Ok(())
}

// Puts those of some answers that are to the queries of a round at the end of the answers that wait.
fn keep_round(
    alloc: Global,
    answers: &mut VecDeque<InfoResponse>,
    round: u32,
    info: List<(u32, InfoResponse)>,
) -> Mem<()>
    ensures { OnOk result (answers.new.items
        ≡ answers.old.items ++ filter_map (answer_of (Some (GetInfo round))) info) }
{
    for (query, answer) in info.into_vec(alloc) {
        keep_answer(answers, round, query, answer)?;
    }
    Ok(())
}

// Puts those of some answers that are to what the open round asks at the end of the answers that wait.
fn keep_answers(
    alloc: Global,
    answers: &mut VecDeque<InfoResponse>,
    asks: Option<Request>,
    info: List<(u32, InfoResponse)>,
) -> Mem<()>
    ensures { OnOk result (answers.new.items
        ≡ answers.old.items ++ filter_map (answer_of asks) info) }
{
    match query_round(asks) {
        Some(round) => keep_round(alloc, answers, round, info),
        None => Ok(()),
    }
}

// A unit takes a turn: those that hold what the open round asks are counted anew, and where it is over, what it held of
// the limits is given back.
fn act(
    alloc: Global,
    settings: &Settings,
    units: &mut Units,
    holders: &mut u32,
    admission: &mut Admission,
    asks: Option<Request>,
    unit: u32,
    turn: UnitTurn,
    now: u64,
) -> Mem<UnitEffects>
    requires takes { MayTake now unit turn units.old }
    requires fits { FitsUnits asks units.old holders.old admission.old }
    requires seated { admission.old ≡ limits_of settings.now units.old }
    ensures fits { FitsUnits asks units.new holders.new admission.new }
    ensures seated { admission.new ≡ limits_of settings.now units.new }
    ensures after { let deed = unit_deed now unit turn units.old in
        OnOk result (units.new ≡ units_after now deed.part units.old) }
    ensures sent { let deed = unit_deed now unit turn units.old in
        IfOk result (λ e. e.sent ≡ deed.sent) }
    ensures asked { let deed = unit_deed now unit turn units.old in
        IfOk result (λ e. e.asked ≡ deed.asked) }
    ensures info { let deed = unit_deed now unit turn units.old in
        IfOk result (λ e. e.info ≡ deed.info) }
{
    let held = units.holds(unit, asks);
    let effects = units.step(alloc, unit, turn, now)?;
    *holders = count_after(*holders, held, units.holds(unit, asks));
    release(settings, admission, unit, effects.over);
    Ok(effects)
}

/// A unit takes a turn of its own.
pub fn take_turn(
    alloc: Global,
    settings: &Settings,
    state: &mut State,
    unit: u32,
    turn: UnitTurn,
) -> Mem<Option<Ask>>
    requires can { CanTakeTurn state.old.board unit turn }
    requires seated { KeepsSeats settings.now state.old }
    ensures after { OnOk result (state.new.board ≡ moved state.old.board
        (taken_deed state.old.board.clock unit turn (unit_in state.old.board unit))) }
    ensures seated { OnOk result (KeepsSeats settings.now state.new) }
    ensures asked { IfOk result (λ asked. asked
        ≡ (taken_deed state.old.board.clock unit turn (unit_in state.old.board unit)).asked) }
{
    let Ok(()) = make_room(&mut state.queue, &mut state.answers) else {
        drop(turn);
        return Err(OutOfMemory);
    };
    let now = state.clock;
    let asks = state.dispatcher.round_request();
    let effects = act(
        alloc,
        settings,
        &mut state.units,
        &mut state.holders,
        &mut state.kept.limits,
        asks,
        unit,
        turn,
        now,
    )?;
    send(&mut state.queue, effects.sent);
    keep_answers(alloc, &mut state.answers, asks, effects.info)?;
    Ok(effects.asked)
}
