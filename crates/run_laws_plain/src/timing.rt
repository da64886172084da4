// The timing of an attempt, by its own turns: whether it leaked, and its timer.
ghost use Rattle.std.specs.Prelude.{◌≡◌, ◌++◌, IfOk, OnOk};
ghost use Rattle.run_clock.specs.Counted.{is_due};
ghost use Rattle.run_model.specs.Story.{any_is, newest_after};
ghost use Rattle.run_model.specs.Timing.{has_leaked, is_timer_due_at, leak_timer, pause_left, pauses_since, slow_timer};
ghost use Rattle.run_model.specs.Timing.{starts_child, timer_of, timer_since};
ghost use Rattle.run_laws_plain.specs.Marks.{sets_by};

use crate::OwnTurn;
use crate::pauses::{Act, Mark, add, add_request, counted_time, is_open, is_paused};
use crate::standing::{
    begins_grace, ends_wait, has_timed_out, is_due_turn, is_slow_turn, is_wait_over, standing_of,
};
use run_capture::{List, Mem};
use run_events::SlowTimeout;
use run_model::{AttemptTerms, UnitTurn};
use std::alloc::Global;
use std::marker::Model;

/// Whether an attempt has leaked: the wait for the streams of its ended child was due.
pub(crate) fn has_leaked(piece: &[OwnTurn]) -> bool
    ensures { result ≡ has_leaked piece.now }
{
    let [turn, before @ ..] = piece else {
        return false;
    };
    is_due_turn(&turn.turn) && is_wait_over(before) || has_leaked(before)
}

// Whether the child started with a turn.
fn starts_child(turn: &UnitTurn) -> bool
    ensures { result ≡ starts_child turn.now }
{
    matches!(turn, UnitTurn::Started { .. })
}

// Whether its child has started.
fn is_started(piece: &[OwnTurn]) -> bool
    ensures { result ≡ any_is starts_child piece.now }
{
    let [turn, before @ ..] = piece else {
        return false;
    };
    starts_child(&turn.turn) || is_started(before)
}

/// Which timer is set with a turn.
#[derive(Clone, Copy, Drop)]
pub enum Sets {
    /// Until it is slow.
    Slow,
    /// Until the time of its child to end by itself is over.
    Grace,
    /// Until the streams of its ended child are waited for no more.
    Leak,
}

// Whether a turn sets a timer.
fn is_set_by(which: Sets, slow: SlowTimeout, turn: &OwnTurn, before: &[OwnTurn]) -> bool
    ensures { result ≡ sets_by which slow turn.now before.now }
{
    match which {
        Sets::Slow => starts_child(&turn.turn) || is_slow_turn(slow, turn, before),
        Sets::Grace => begins_grace(slow, turn, before),
        Sets::Leak => ends_wait(&turn.turn),
    }
}

// When a timer was set last: 0 where it wasn't.
fn set_at(which: Sets, slow: SlowTimeout, piece: &[OwnTurn]) -> u64
    ensures { result ≡ newest_after (sets_by which slow) piece.now }
{
    let [turn, before @ ..] = piece else {
        return 0;
    };
    if is_set_by(which, slow, turn, before) {
        turn.moment
    } else {
        set_at(which, slow, before)
    }
}

// Adds the pauses since then.
fn add_since(
    alloc: Global,
    marks: &mut List<Mark>,
    which: Sets,
    slow: SlowTimeout,
    piece: &[OwnTurn],
) -> Mem<()>
    ensures { OnOk result (marks.new ≡ marks.old ++ pauses_since (sets_by which slow) piece.now) }
{
    let [turn, before @ ..] = piece else {
        return Ok(());
    };
    if is_set_by(which, slow, turn, before) {
        return Ok(());
    }
    add_request(alloc, marks, turn.moment, turn.request)?;
    add_since(alloc, marks, which, slow, before)
}

// Adds the pause that was open where the wait for its child was over.
fn add_left(alloc: Global, marks: &mut List<Mark>, piece: &[OwnTurn]) -> Mem<()>
    ensures { OnOk result (marks.new ≡ marks.old ++ pause_left piece.now) }
{
    let [turn, before @ ..] = piece else {
        return Ok(());
    };
    if !ends_wait(&turn.turn) {
        return add_left(alloc, marks, before);
    }
    if is_open(before) {
        return add(alloc, marks, turn.moment, Act::Pause);
    }
    Ok(())
}

/// A timer: when it was set, for how long, in nanoseconds, and its pauses, the newest first.
#[derive(Drop)]
pub struct Timer {
    pub set: u64,
    pub duration: u64,
    pub pauses: List<Mark>,
}

impl Model for Timer {
    ghost use Rattle.run_clock.specs.Counted.{Timer as Defined};

    ghost Value = { Defined };

    ghost view = { λ t. record { set = t.set; duration = t.duration; past = t.pauses } };
}

// A timer of this duration, set with the newest such turn.
fn timer_since(
    alloc: Global,
    which: Sets,
    slow: SlowTimeout,
    duration: u64,
    piece: &[OwnTurn],
) -> Mem<Timer>
    ensures { IfOk result (λ timer. timer ≡ timer_since (sets_by which slow) duration piece.now) }
{
    let mut pauses = List::new();
    add_since(alloc, &mut pauses, which, slow, piece)?;
    Ok(Timer {
        set: set_at(which, slow, piece),
        duration,
        pauses,
    })
}

// The timer until the streams of its ended child are waited for no more.
fn leak_timer(alloc: Global, terms: AttemptTerms, piece: &[OwnTurn]) -> Mem<Timer>
    ensures { IfOk result (λ timer. timer ≡ leak_timer terms.leak.period piece.now) }
{
    let mut pauses = List::new();
    add_since(alloc, &mut pauses, Sets::Leak, terms.slow, piece)?;
    add_left(alloc, &mut pauses, piece)?;
    Ok(Timer {
        set: set_at(Sets::Leak, terms.slow, piece),
        duration: terms.leak.period,
        pauses,
    })
}

// The timer until an attempt is slow: none before its child started, none once it has run out of time, and none where
// slow timers are off.
fn slow_timer(alloc: Global, terms: AttemptTerms, piece: &[OwnTurn]) -> Mem<Option<Timer>>
    ensures { IfOk result (λ timer. timer ≡ slow_timer terms piece.now) }
{
    if has_timed_out(terms.slow, piece) || terms.disables_timeouts || !is_started(piece) {
        return Ok(None);
    }
    let timer = timer_since(alloc, Sets::Slow, terms.slow, terms.slow.period, piece)?;
    Ok(Some(timer))
}

/// The timer that an attempt waits for, while it goes on.
pub(crate) fn timer_of(alloc: Global, terms: AttemptTerms, piece: &[OwnTurn]) -> Mem<Option<Timer>>
    ensures { IfOk result (λ timer. timer ≡ timer_of terms piece.now) }
{
    if is_wait_over(piece) {
        return Ok(Some(leak_timer(alloc, terms, piece)?));
    }
    if standing_of(terms.slow, piece).in_grace {
        let timer = timer_since(alloc, Sets::Grace, terms.slow, terms.slow.grace, piece)?;
        return Ok(Some(timer));
    }
    slow_timer(alloc, terms, piece)
}

/// Whether a timer is due at a moment.
pub(crate) fn is_due_at(now: u64, timer: &Timer) -> bool
    ensures { result ≡ is_due timer.now now }
{
    let pauses = timer.pauses.as_slice();
    !is_paused(pauses) && timer.duration <= counted_time(timer.set, pauses, now)
}

/// The same of a timer that may not be there.
pub(crate) fn is_timer_due_at(now: u64, timer: &Option<Timer>) -> bool
    ensures { result ≡ is_timer_due_at now timer.now }
{
    match timer {
        Some(timer) => is_due_at(now, timer),
        None => false,
    }
}
