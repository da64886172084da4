// Which turns are enabled.
ghost use Rattle.std.specs.Prelude.{◌≤◌, ◌≡◌, length, pos, IfOk, option_map};
ghost use Rattle.run_model.specs.Admission.{units_in};
ghost use Rattle.run_model.specs.Turns.{turn_of_unit, unit_takes, run_takes, enabled_on};
ghost use Rattle.run_model.specs.Board.{unit_in};
ghost use Rattle.run_laws.specs.Ready.{IsTimelyBoard};
ghost use Rattle.run_state.specs.Held.{KeepsSeats};
ghost use Rattle.run_events.specs.declared.turn.Turn.TheVariants.{StartFailed, WaitFailed, Piece, ReadError};
ghost use Rattle.run_events.specs.declared.turn.Turn.TheVariants.{Env};
ghost use Rattle.run_events.specs.declared.result.ChildExit.TheVariants.{Code};
ghost use Rattle.run_commands.specs.declared.script_helpers.EnvInput.TheVariants.{OpenFailed};
ghost use Rattle.run_model.specs.declared.unit_turn.UnitTurn.TheVariants as own;

use crate::admission::can_admit;
use crate::state::State;
use run_capture::{Blob, Duplicate, Mem, Stream, Text};
use run_commands::EnvInput;
use run_dispatch::DispatchState;
use run_events::{ChildExit, Settings, Turn};
use run_model::UnitTurn;
use std::alloc::Global;

/// The unit that a turn names, with what the turn is to it.
pub fn turn_of_unit(alloc: Global, turn: &Turn) -> Mem<Option<(u32, UnitTurn)>>
    ensures { IfOk result (λ named. named ≡ turn_of_unit turn.now) }
{
    match turn {
        Turn::Started { unit, pid } => Ok(Some((*unit, UnitTurn::Started { pid: *pid }))),
        Turn::StartFailed { unit, error } => start_failed(alloc, *unit, error.get()),
        Turn::Exit { unit, exit } => Ok(Some((*unit, UnitTurn::Exit { exit: *exit }))),
        Turn::WaitFailed { unit, error } => wait_failed(alloc, *unit, error.get()),
        Turn::Piece {
            unit,
            stream,
            bytes,
        } => piece(alloc, *unit, *stream, bytes),
        Turn::StreamEnd { unit, stream } => {
            Ok(Some((*unit, UnitTurn::StreamEnd { stream: *stream })))
        }
        Turn::ReadError {
            unit,
            stream,
            error,
        } => read_error(alloc, *unit, *stream, error.get()),
        Turn::Env { unit, input } => env(alloc, *unit, input),
        Turn::Take { unit } => Ok(Some((*unit, UnitTurn::Take))),
        Turn::UnitDue { unit } => Ok(Some((*unit, UnitTurn::Due))),
        Turn::Decide { unit, word } => Ok(Some((*unit, UnitTurn::Decide { word: *word }))),
        _ => Ok(None),
    }
}

fn start_failed(alloc: Global, unit: u32, error: &Text) -> Mem<Option<(u32, UnitTurn)>>
    ensures { IfOk result (λ named. named ≡ turn_of_unit (StartFailed unit error.now)) }
{
    let error = error.copy(alloc)?;
    Ok(Some((unit, UnitTurn::StartFailed { error })))
}

fn wait_failed(alloc: Global, unit: u32, error: &Text) -> Mem<Option<(u32, UnitTurn)>>
    ensures { IfOk result (λ named. named ≡ turn_of_unit (WaitFailed unit error.now)) }
{
    let error = error.copy(alloc)?;
    Ok(Some((unit, UnitTurn::WaitFailed { error })))
}

fn piece(alloc: Global, unit: u32, stream: Stream, bytes: &Blob) -> Mem<Option<(u32, UnitTurn)>>
    ensures { IfOk result (λ named. named ≡ turn_of_unit (Piece unit stream bytes.now)) }
{
    let bytes = bytes.copy(alloc)?;
    Ok(Some((unit, UnitTurn::Piece { stream, bytes })))
}

fn read_error(
    alloc: Global,
    unit: u32,
    stream: Stream,
    error: &Text,
) -> Mem<Option<(u32, UnitTurn)>>
    ensures { IfOk result (λ named. named ≡ turn_of_unit (ReadError unit stream error.now)) }
{
    let error = error.copy(alloc)?;
    Ok(Some((unit, UnitTurn::ReadError { stream, error })))
}

fn env(alloc: Global, unit: u32, input: &EnvInput) -> Mem<Option<(u32, UnitTurn)>>
    ensures { IfOk result (λ named. named ≡ turn_of_unit (Env unit input.now)) }
{
    let input = input.copy(alloc)?;
    Ok(Some((unit, UnitTurn::Env { input })))
}

/// Whether a sub-run has begun and not ended.
pub fn is_on(state: &State) -> bool
    ensures { result ≡ state.now.board.dispatcher.on }
{
    !matches!(state.dispatcher.state(), DispatchState::Idle)
}

// Whether a turn of the run's own is enabled where the run isn't over.
fn is_run_enabled(settings: &Settings, state: &State, turn: &Turn) -> bool
    requires whole { length state.now.board.units ≡ units_in settings.now }
    requires seated { KeepsSeats settings.now state.now }
    requires later { state.now.board.dispatcher.latest ≤ state.now.board.clock }
    ensures { result ≡ run_takes settings.now state.now.board turn.now }
{
    match turn {
        Turn::Admit => is_on(state) && can_admit(settings, &state.units, &state.kept.limits),
        Turn::Clock { ns } => state.clock.checked_add(*ns).is_some(),
        _ => state.dispatcher.enabled(turn, state.facts(), state.clock),
    }
}

// Whether the unit of this number takes a turn.
fn takes(state: &State, unit: u32, turn: UnitTurn) -> bool
    requires timely { IsTimelyBoard state.now.board }
    ensures { result ≡ unit_takes state.now.board.clock (unit_in state.now.board unit) turn }
{
    let takes = state.units.takes(unit, &turn, state.clock);
    drop(turn);
    takes
}

// Whether the unit of this number takes the end of its child, of a captured stream, or of the reading of its
// environment file.
fn takes_exit(state: &State, unit: u32) -> bool
    requires timely { IsTimelyBoard state.now.board }
    ensures { result ≡ unit_takes state.now.board.clock (unit_in state.now.board unit)
        (own.Exit (Code (pos 0))) }
{
    let exit = ChildExit::Code(0);
    takes(state, unit, UnitTurn::Exit { exit })
}

fn takes_end(state: &State, unit: u32, stream: Stream) -> bool
    requires timely { IsTimelyBoard state.now.board }
    ensures { result ≡ unit_takes state.now.board.clock (unit_in state.now.board unit)
        (own.StreamEnd stream) }
{
    takes(state, unit, UnitTurn::StreamEnd { stream })
}

fn takes_env(state: &State, unit: u32) -> bool
    requires timely { IsTimelyBoard state.now.board }
    ensures { result ≡ unit_takes state.now.board.clock (unit_in state.now.board unit)
        (own.Env OpenFailed) }
{
    let input = EnvInput::OpenFailed;
    takes(state, unit, UnitTurn::Env { input })
}

// Whether the unit that a turn names takes it, none where it names none. What a text or bytes say decides nothing, so a
// turn with none stands for each.
fn is_taken(state: &State, turn: &Turn) -> Option<bool>
    requires timely { IsTimelyBoard state.now.board }
    ensures { result ≡ option_map
        (λ named. unit_takes state.now.board.clock (unit_in state.now.board named.0) named.1)
        (turn_of_unit turn.now) }
{
    match turn {
        Turn::Started { unit, pid } => Some(takes(state, *unit, UnitTurn::Started { pid: *pid })),
        Turn::StartFailed { unit, .. } => Some(takes(state, *unit, UnitTurn::Started { pid: 0 })),
        Turn::Exit { unit, exit } => Some(takes(state, *unit, UnitTurn::Exit { exit: *exit })),
        Turn::WaitFailed { unit, .. } => Some(takes_exit(state, *unit)),
        Turn::Piece {
            unit,
            stream,
            bytes,
        } => Some(!bytes.is_empty() && takes_end(state, *unit, *stream)),
        Turn::StreamEnd { unit, stream } => Some(takes_end(state, *unit, *stream)),
        Turn::ReadError { unit, stream, .. } => Some(takes_end(state, *unit, *stream)),
        Turn::Env { unit, .. } => Some(takes_env(state, *unit)),
        Turn::Take { unit } => Some(takes(state, *unit, UnitTurn::Take)),
        Turn::UnitDue { unit } => Some(takes(state, *unit, UnitTurn::Due)),
        Turn::Decide { unit, word } => Some(takes(state, *unit, UnitTurn::Decide { word: *word })),
        _ => None,
    }
}

/// Whether a turn is enabled. No turn was taken later than the clock is. Takes no memory.
pub fn is_enabled(settings: &Settings, state: &State, turn: &Turn) -> bool
    requires whole { length state.now.board.units ≡ units_in settings.now }
    requires seated { KeepsSeats settings.now state.now }
    requires timely { IsTimelyBoard state.now.board }
    ensures { result ≡ enabled_on settings.now state.now.board turn.now }
{
    if state.dispatcher.is_over() {
        return false;
    }
    match is_taken(state, turn) {
        Some(takes) => takes,
        None => is_run_enabled(settings, state, turn),
    }
}
