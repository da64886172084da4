// The turns of a run: each does to the state what its row of the tables says.
ghost use Rattle.std.specs.Prelude.{◌≡◌, ◌≤◌, IfOk, OnOk};
ghost use Rattle.run_model.specs.Admission.{AreFew};
ghost use Rattle.run_model.specs.Board.{step, deed_events};
ghost use Rattle.run_model.specs.Turns.{deed_on, run_turn, turn_of_unit};
ghost use Rattle.run_laws.specs.Ready.{CanAdvance, CanRun};
ghost use Rattle.run_state.specs.Held.{KeepsSeats};

use crate::delivery::deliver;
use crate::effects::{Effects, asking};
use crate::joining::admit;
use crate::rounds::{end_round, hear_key, hear_signal, stop_itself, tell_answer};
use crate::run_turns::{begin, end, refuse, run_out, tick};
use crate::state::State;
use crate::unit_turns::take_turn;
use run_capture::Mem;
use run_events::{Settings, Turn};
use run_model::UnitTurn;
use std::alloc::Global;

/// Takes a turn: that of a unit, as what it is to it, or one of the run's own.
pub fn advance(
    alloc: Global,
    settings: &Settings,
    state: &mut State,
    turn: &Turn,
    named: Option<(u32, UnitTurn)>,
) -> Mem<Effects>
    requires named { named ≡ turn_of_unit turn.now }
    requires can { CanAdvance settings.now state.old.board turn.now (turn_of_unit turn.now) }
    requires seated { KeepsSeats settings.now state.old }
    requires few { AreFew settings.now }
    ensures seated { OnOk result (KeepsSeats settings.now state.new) }
    ensures after { let deed = deed_on settings.now state.old.board turn.now in
        OnOk result (state.new.board ≡ step state.old.board turn.now deed) }
    ensures told { let deed = deed_on settings.now state.old.board turn.now in
        IfOk result (λ effects. effects.events ≡ deed_events deed) }
    ensures asked { let deed = deed_on settings.now state.old.board turn.now in
        IfOk result (λ effects. effects.asked ≡ deed.asked) }
{
    match named {
        Some((unit, own)) => {
            let asked = take_turn(alloc, settings, state, unit, own)?;
            Ok(asking(asked))
        }
        None => advance_run(alloc, settings, state, turn),
    }
}

// Takes a turn of the run's own; the clock moves where it is one of the clock.
fn advance_run(alloc: Global, settings: &Settings, state: &mut State, turn: &Turn) -> Mem<Effects>
    requires can { CanRun settings.now state.old.board turn.now }
    requires seated { KeepsSeats settings.now state.old }
    requires later { state.old.board.dispatcher.latest ≤ state.old.board.clock }
    requires few { AreFew settings.now }
    ensures seated { OnOk result (KeepsSeats settings.now state.new) }
    ensures after { let deed = run_turn settings.now state.old.board turn.now in
        OnOk result (state.new.board ≡ step state.old.board turn.now deed) }
    ensures told { let deed = run_turn settings.now state.old.board turn.now in
        IfOk result (λ effects. effects.events ≡ deed_events deed) }
    ensures asked { let deed = run_turn settings.now state.old.board turn.now in
        IfOk result (λ effects. effects.asked ≡ deed.asked) }
{
    match turn {
        Turn::Begin => begin(alloc, settings, state),
        Turn::Admit => {
            admit(alloc, settings, state)?;
            Ok(asking(None))
        }
        Turn::Deliver => deliver(alloc, settings, state),
        Turn::Clock { ns } => {
            state.pass(*ns);
            Ok(asking(None))
        }
        Turn::Signal { signal } => hear_signal(alloc, state, *signal),
        Turn::Key { key } => hear_key(alloc, state, *key),
        Turn::Tick => tick(alloc, state),
        Turn::StopWaitDue => Ok(stop_itself(state)),
        Turn::Answer => tell_answer(alloc, state),
        Turn::InfoDue => end_round(alloc, state),
        Turn::GlobalDue => run_out(alloc, state),
        Turn::ReportCancel => refuse(alloc, state),
        Turn::End => end(alloc, state),
        _ => unreachable!(),
    }
}
