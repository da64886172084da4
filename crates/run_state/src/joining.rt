// The next script or test is admitted.
ghost use Rattle.std.specs.Prelude.{◌≡◌, ◌<◌, ◌++◌, ◌∷◌, [], OnOk, OnErr, true, false, option_to_list};
ghost use Rattle.std.specs.Prelude.{None, Some, length, option_map, slice_index_or, slice_set};
ghost use Rattle.std.specs.VecDeque.{deque_len, deque_capacity};
ghost use Rattle.run_model.specs.Admission.{newcomer, scripts_over, units_in, AreFew};
ghost use Rattle.run_model.specs.Board.{moved};
ghost use Rattle.run_model.specs.Turns.{admission, index_of};
ghost use Rattle.run_laws.specs.Ready.{CanAdmit};
ghost use Rattle.run_unit.specs.Alike.{alike_of};
ghost use Rattle.run_state.specs.Held.{KeepsSeats, IsNext, units_with};

use crate::admission::{Newcomer, Next, are_scripts_over, next_newcomer, next_script};
use crate::state::State;
use crate::units::Units;
use run_capture::{Mem, OutOfMemory};
use run_events::{Message, Settings, StressIndex};
use run_unit::Alike;
use std::alloc::Global;
use std::collections::VecDeque;

/// Admits the next script, or once all scripts are over the candidate.
pub fn admit(alloc: Global, settings: &Settings, state: &mut State) -> Mem<()>
    requires can { CanAdmit settings.now state.old.board }
    requires seated { KeepsSeats settings.now state.old }
    requires few { AreFew settings.now }
    ensures after { let b = state.old.board in
        OnOk result (state.new.board
        ≡ moved b (admission (newcomer settings.now (index_of b.dispatcher) b.units))) }
    ensures seated { OnOk result (KeepsSeats settings.now state.new) }
{
    if are_scripts_over(settings, &state.units) {
        admit_test(alloc, settings, state)
    } else {
        admit_script(alloc, settings, state)
    }
}

// Admits the candidate.
fn admit_test(alloc: Global, settings: &Settings, state: &mut State) -> Mem<()>
    requires can { CanAdmit settings.now state.old.board }
    requires over { scripts_over settings.now state.old.board.units ≡ true }
    requires seated { KeepsSeats settings.now state.old }
    requires few { AreFew settings.now }
    ensures after { let b = state.old.board in
        OnOk result (state.new.board
        ≡ moved b (admission (newcomer settings.now (index_of b.dispatcher) b.units))) }
    ensures seated { OnOk result (KeepsSeats settings.now state.new) }
{
    match state.kept.limits.admit() {
        Some(admitted) => {
            let next = Next::Test(admitted);
            let index = state.dispatcher.stress_index();
            seat(
                alloc,
                settings,
                &state.kept.alike,
                index,
                &mut state.units,
                &mut state.queue,
                next,
            )?;
            Ok(())
        }
        None => unreachable!(),
    }
}

// Admits the next script, which holds nothing of the limits.
fn admit_script(alloc: Global, settings: &Settings, state: &mut State) -> Mem<()>
    requires can { CanAdmit settings.now state.old.board }
    requires before { scripts_over settings.now state.old.board.units ≡ false }
    requires seated { KeepsSeats settings.now state.old }
    requires few { AreFew settings.now }
    ensures after { let b = state.old.board in
        OnOk result (state.new.board
        ≡ moved b (admission (newcomer settings.now (index_of b.dispatcher) b.units))) }
    ensures seated { OnOk result (KeepsSeats settings.now state.new) }
{
    match next_script(settings, &state.units) {
        Some(place) => {
            let next = Next::Script(place);
            let index = state.dispatcher.stress_index();
            seat(
                alloc,
                settings,
                &state.kept.alike,
                index,
                &mut state.units,
                &mut state.queue,
                next,
            )?;
            Ok(())
        }
        None => unreachable!(),
    }
}

// The script or the test that comes next becomes a unit, and its first message is sent.
fn seat(
    alloc: Global,
    settings: &Settings,
    alike: &Alike,
    index: Option<StressIndex>,
    units: &mut Units,
    queue: &mut VecDeque<Message>,
    next: Next,
) -> Mem<()>
    requires alike { alike.now ≡ alike_of settings.now }
    requires next { IsNext settings.now units.old next }
    requires whole { length units.old ≡ units_in settings.now }
    requires few { AreFew settings.now }
    ensures units { OnOk result (units.new
        ≡ units_with settings.now units.old (newcomer settings.now index units.old)) }
    ensures queue { OnOk result (queue.new.items ≡ queue.old.items
        ++ option_to_list (option_map (λ n. n.sent) (newcomer settings.now index units.old))) }
    ensures err { OnErr result (units.new ≡ units.old) }
{
    queue.reserve(1)?;
    let (place, new) = next_newcomer(alloc, settings, alike, index, units, next)?;
    join(units, queue, place, new)
}

// A newcomer becomes the unit at a place, and its first message comes last in the queue, which has room for it.
fn join(units: &mut Units, queue: &mut VecDeque<Message>, place: u32, new: Newcomer) -> Mem<()>
    requires within { place < length units.old }
    requires absent { slice_index_or units.old place None ≡ None }
    requires room { deque_len queue.old < deque_capacity queue.old }
    ensures units { OnOk result (units.new ≡ slice_set units.old place (Some new.unit)) }
    ensures queue { OnOk result (queue.new.items ≡ queue.old.items ++ new.sent ∷ []) }
    ensures err { OnErr result (units.new ≡ units.old) }
{
    let Newcomer { unit, sent } = new;
    let Ok(()) = units.admit(place, unit) else {
        drop(sent);
        return Err(OutOfMemory);
    };
    queue.push_back_reserved(sent);
    Ok(())
}
