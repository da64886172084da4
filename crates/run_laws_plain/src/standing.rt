// How an attempt stands while its child is waited for, by its own turns: how often it was slow, and whether its child
// is given time to end by itself.
ghost use Rattle.std.specs.Prelude.{◌≡◌};
ghost use Rattle.run_events.specs.declared.request.TerminateReason.TheVariants.{Signal};
ghost use Rattle.run_model.specs.Slow.{is_out_of_time};
ghost use Rattle.run_model.specs.Story.{any_is};
ghost use Rattle.run_model.specs.Terminate.{terminate_method};
ghost use Rattle.run_model.specs.Timing.{
  begins_grace,
  ends_wait,
  gives_grace,
  gives_time,
  has_timed_out,
  is_due_turn,
  is_slow_turn,
  says_slow,
  signal_of,
  slow_count,
  standing,
  standing_after,
  takes_grace,
  times_out,
};

use crate::OwnTurn;
use run_events::{Request, ShutdownRequest, SlowTimeout, TermSignal};
use run_model::UnitTurn;
use std::marker::Model;

// Whether a turn ends the wait for a child.
pub(crate) fn ends_wait(turn: &UnitTurn) -> bool
    ensures { result ≡ ends_wait turn.now }
{
    matches!(turn, UnitTurn::Exit { .. } | UnitTurn::WaitFailed { .. })
}

/// Whether the child of an attempt is waited for no more.
pub(crate) fn is_wait_over(piece: &[OwnTurn]) -> bool
    ensures { result ≡ any_is ends_wait piece.now }
{
    let [turn, before @ ..] = piece else {
        return false;
    };
    ends_wait(&turn.turn) || is_wait_over(before)
}

// Whether a timer was due with a turn.
pub(crate) fn is_due_turn(turn: &UnitTurn) -> bool
    ensures { result ≡ is_due_turn turn.now }
{
    matches!(turn, UnitTurn::Due)
}

// The signal by which a child is ended at a request, where it is given so much time to end by itself.
fn ending_signal(request: ShutdownRequest, grace: u64) -> TermSignal
    ensures { result ≡ terminate_method (Signal request) grace }
{
    if grace == 0 {
        return TermSignal::Kill;
    }
    match request {
        ShutdownRequest::Interrupt => TermSignal::Interrupt,
        ShutdownRequest::Term | ShutdownRequest::TestFailureImmediate => TermSignal::Term,
        ShutdownRequest::Hangup => TermSignal::Hangup,
        ShutdownRequest::Quit => TermSignal::Quit,
        ShutdownRequest::Twice => TermSignal::Kill,
    }
}

// The signal of a request to end the child, if it is one.
fn signal_of(slow: SlowTimeout, request: Option<Request>) -> Option<TermSignal>
    ensures { result ≡ signal_of slow request }
{
    match request {
        Some(Request::Shutdown(request)) => Some(ending_signal(request, slow.grace)),
        _ => None,
    }
}

// Whether a child is given time to end by itself after a signal.
fn gives_time(signal: Option<TermSignal>) -> bool
    ensures { result ≡ gives_time signal }
{
    !matches!(signal, None | Some(TermSignal::Kill))
}

/// How an attempt stands whose child is waited for.
#[derive(Drop)]
pub struct Standing {
    /// How often it was slow.
    pub slow_count: u32,
    /// Whether its child is given time to end by itself.
    pub in_grace: bool,
}

impl Model for Standing {
    ghost use Rattle.run_model.specs.Timing.{Standing as Defined};

    ghost Value = { Defined };

    ghost view = { λ s. record { slow_count = s.slow_count; in_grace = s.in_grace } };
}

// Whether an attempt that was slow so often has run out of time.
fn is_out_of_time(slow: SlowTimeout, count: u32) -> bool
    ensures { result ≡ is_out_of_time slow count }
{
    match slow.terminate_after {
        Some(most) => most.max(1) <= count,
        None => false,
    }
}

// Whether an attempt that stood so is slow once more with a turn.
fn says_slow(slow: SlowTimeout, was: &Standing, turn: &OwnTurn) -> bool
    ensures { result ≡ says_slow slow was.now turn.now }
{
    is_due_turn(&turn.turn) && !was.in_grace && !is_out_of_time(slow, was.slow_count)
}

// Whether it has run out of time with that.
fn times_out(slow: SlowTimeout, was: &Standing, turn: &OwnTurn) -> bool
    ensures { result ≡ times_out slow was.now turn.now }
{
    says_slow(slow, was, turn) && is_out_of_time(slow, was.slow_count.saturating_add(1))
}

// Whether its child is given time to end by itself after a turn.
fn gives_grace(slow: SlowTimeout, was: &Standing, turn: &OwnTurn) -> bool
    ensures { result ≡ gives_grace slow was.now turn.now }
{
    times_out(slow, was, turn) && slow.grace != 0
        || !was.in_grace && gives_time(signal_of(slow, turn.request))
}

// Whether that time is over with a turn.
fn takes_grace(slow: SlowTimeout, was: &Standing, turn: &OwnTurn) -> bool
    ensures { result ≡ takes_grace slow was.now turn.now }
{
    was.in_grace && (is_due_turn(&turn.turn) || signal_of(slow, turn.request).is_some())
}

// How often it was slow after one more turn.
fn count_after(slow: SlowTimeout, was: &Standing, turn: &OwnTurn) -> u32
    ensures { result ≡ (standing_after slow was.now turn.now).slow_count }
{
    if says_slow(slow, was, turn) {
        was.slow_count.saturating_add(1)
    } else {
        was.slow_count
    }
}

// How it stands after one more turn.
fn standing_after(slow: SlowTimeout, was: &Standing, turn: &OwnTurn) -> Standing
    ensures { result ≡ standing_after slow was.now turn.now }
{
    Standing {
        slow_count: count_after(slow, was, turn),
        in_grace: gives_grace(slow, was, turn) || was.in_grace && !takes_grace(slow, was, turn),
    }
}

/// How it stands after all turns of an attempt, the newest first. Those after the wait for its child change nothing.
pub(crate) fn standing_of(slow: SlowTimeout, piece: &[OwnTurn]) -> Standing
    ensures { result ≡ standing slow piece.now }
{
    let [turn, before @ ..] = piece else {
        return Standing {
            slow_count: 0,
            in_grace: false,
        };
    };
    let was = standing_of(slow, before);
    if is_wait_over(before) {
        was
    } else {
        standing_after(slow, &was, turn)
    }
}

/// How often an attempt was slow.
pub(crate) fn slow_count(slow: SlowTimeout, piece: &[OwnTurn]) -> u32
    ensures { result ≡ slow_count slow piece.now }
{
    standing_of(slow, piece).slow_count
}

/// Whether an attempt has run out of time.
pub(crate) fn has_timed_out(slow: SlowTimeout, piece: &[OwnTurn]) -> bool
    ensures { result ≡ has_timed_out slow piece.now }
{
    is_out_of_time(slow, slow_count(slow, piece))
}

/// Whether an attempt is slow with a turn.
pub(crate) fn is_slow_turn(slow: SlowTimeout, turn: &OwnTurn, before: &[OwnTurn]) -> bool
    ensures { result ≡ is_slow_turn slow turn.now before.now }
{
    !is_wait_over(before) && says_slow(slow, &standing_of(slow, before), turn)
}

/// Whether the time of its child to end by itself begins with a turn.
pub(crate) fn begins_grace(slow: SlowTimeout, turn: &OwnTurn, before: &[OwnTurn]) -> bool
    ensures { result ≡ begins_grace slow turn.now before.now }
{
    !is_wait_over(before) && gives_grace(slow, &standing_of(slow, before), turn)
}
