// Pauses by a unit's own turns, and the time that lies in none.
ghost use Rattle.std.specs.Prelude.{◌≡◌, ◌++◌, ◌∷◌, [], OnOk};
ghost use Rattle.run_clock.specs.Counted.{counted_time, is_paused, mark_of};
ghost use Rattle.run_model.specs.Timing.{pause_at, pauses_in};
ghost use Rattle.run_laws_plain.specs.Marks.{act_as, at_most};

use crate::OwnTurn;
use run_capture::{List, Mem};
use run_events::Request;
use std::alloc::Global;
use std::marker::Model;

/// What is done to a timer.
#[derive(Clone, Copy, Drop)]
pub enum Act {
    Pause,
    Resume,
}

/// A pause or its end, at a moment of the run's clock in nanoseconds.
#[derive(Drop)]
pub struct Mark {
    pub moment: u64,
    pub act: Act,
}

impl Model for Mark {
    ghost use Rattle.run_clock.specs.Counted.{Mark as Defined};
    ghost use Rattle.run_laws_plain.specs.Marks.{act_as};

    ghost Value = { Defined };

    ghost view = { λ m. record { moment = m.moment; act = act_as m.act } };
}

/// Adds an act at a moment.
pub(crate) fn add(alloc: Global, marks: &mut List<Mark>, moment: u64, act: Act) -> Mem<()>
    ensures { OnOk result (marks.new ≡ marks.old ++ mark_of (act_as act) moment ∷ []) }
{
    marks.push(alloc, Mark { moment, act })
}

/// Adds what a request does that is taken at a moment.
pub(crate) fn add_request(
    alloc: Global,
    marks: &mut List<Mark>,
    moment: u64,
    request: Option<Request>,
) -> Mem<()>
    ensures { OnOk result (marks.new ≡ marks.old ++ pause_at moment request) }
{
    match request {
        Some(Request::Stop { .. }) => add(alloc, marks, moment, Act::Pause),
        Some(Request::Continue) => add(alloc, marks, moment, Act::Resume),
        _ => Ok(()),
    }
}

/// Adds what some turns do, the newest first.
pub(crate) fn add_all(alloc: Global, marks: &mut List<Mark>, turns: &[OwnTurn]) -> Mem<()>
    ensures { OnOk result (marks.new ≡ marks.old ++ pauses_in turns.now) }
{
    let [turn, before @ ..] = turns else {
        return Ok(());
    };
    add_request(alloc, marks, turn.moment, turn.request)?;
    add_all(alloc, marks, before)
}

/// Whether a pause is open after some turns, the newest first.
pub(crate) fn is_open(turns: &[OwnTurn]) -> bool
    ensures { result ≡ is_paused (pauses_in turns.now) }
{
    let [turn, before @ ..] = turns else {
        return false;
    };
    match turn.request {
        Some(Request::Stop { .. }) => true,
        Some(Request::Continue) => false,
        _ => is_open(before),
    }
}

/// Whether a pause is open after some marks, the newest first.
pub(crate) fn is_paused(marks: &[Mark]) -> bool
    ensures { result ≡ is_paused marks.now }
{
    match marks {
        [mark, ..] => matches!(mark.act, Act::Pause),
        [] => false,
    }
}

/// The time from a start to now that lies in no pause, by the marks since the start, the newest first.
pub(crate) fn counted_time(start: u64, marks: &[Mark], now: u64) -> u64
    ensures { result ≡ at_most (counted_time start marks.now now) }
{
    let [mark, past @ ..] = marks else {
        return now.saturating_sub(start);
    };
    let stretch = if is_paused(marks) {
        0
    } else {
        now.saturating_sub(mark.moment)
    };
    counted_time(start, past, mark.moment).saturating_add(stretch)
}
