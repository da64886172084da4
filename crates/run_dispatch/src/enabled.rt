// Which turns the dispatcher takes.
ghost use Rattle.std.specs.Prelude.{◌≡◌, ◌≤◌, ◌+◌, ◌||◌, not, nat_le, IfSome};
ghost use Rattle.run_clock.specs.Sleep.{IsDueFrom};
ghost use Rattle.run_events.specs.declared.turn.Turn.TheVariants.{InfoDue, StopWaitDue};
ghost use Rattle.run_model.specs.Dispatch.{is_main, stop_waits, query_waits, is_overdue, dispatch_takes};

use crate::hearing::{heard_by, takes_signal};
use crate::jobs::is_halted;
use run_clock::fires_now;
use run_events::{Request, Turn, hears_key};
use run_model::{DispatcherView, Facts};

/// Whether a sub-run is on and no round is open.
pub fn is_main(view: &DispatcherView) -> bool
    ensures { result ≡ is_main view.now }
{
    view.on && view.rounds.asks.is_none()
}

fn stop_waits(asks: Option<Request>) -> bool
    ensures { result ≡ stop_waits asks }
{
    matches!(asks, Some(Request::Stop { .. }))
}

fn query_waits(asks: Option<Request>) -> bool
    ensures { result ≡ query_waits asks }
{
    matches!(asks, Some(Request::GetInfo { .. }))
}

// A round waits for units for 100 ms, from where it began or told its latest answer.
fn is_overdue(view: &DispatcherView, now: u64) -> bool
    ensures { result ≡ is_overdue view.now now }
{
    u128::from(view.rounds.since) + 100_000_000 <= u128::from(now)
}

/// Whether it takes a turn of its own, by these facts of the rest of the run, at a moment of the run's clock.
pub fn takes_turn(view: &DispatcherView, turn: &Turn, facts: Facts, now: u64) -> bool
    requires { IfSome view.now.causes.global (λ timer. timer.latest ≤ now) }
    ensures { result ≡ dispatch_takes view.now facts now turn.now }
{
    match turn {
        Turn::Begin => !view.on && !view.over,
        Turn::Deliver => is_main(view) && facts.message_waits,
        Turn::Signal { signal } => {
            is_main(view)
                && takes_signal(view.causes.signals, heard_by(&view.rules.hearing, *signal))
        }
        Turn::Key { key } => is_main(view) && hears_key(view.rules.hearing.input, *key).is_some(),
        Turn::Tick => is_main(view),
        Turn::GlobalDue => is_main(view) && fires_now(&view.causes.global, now),
        Turn::StopWaitDue => {
            view.on && stop_waits(view.rounds.asks) && (!facts.held || is_overdue(view, now))
        }
        Turn::InfoDue => is_round_over(view, facts, now),
        Turn::Answer => view.on && query_waits(view.rounds.asks) && facts.answer_waits,
        Turn::ReportCancel => is_main(view) && facts.refused && !view.causes.reported,
        Turn::End => is_main(view) && facts.complete && !is_halted(view),
        _ => false,
    }
}

// Whether a round of queries is over.
fn is_round_over(view: &DispatcherView, facts: Facts, now: u64) -> bool
    ensures { result ≡ dispatch_takes view.now facts now InfoDue }
{
    view.on
        && query_waits(view.rounds.asks)
        && (!(facts.answer_waits || facts.held) || is_overdue(view, now))
}

/// The least moment of the run's clock at which the wait of the open round is over, by these facts of the rest of the
/// run: none where no round is open.
pub fn round_due(view: &DispatcherView, facts: Facts) -> Option<u64>
    ensures { IsDueFrom (λ now. dispatch_takes view.now facts now StopWaitDue
        || dispatch_takes view.now facts now InfoDue) result }
{
    if !view.on {
        return None;
    }
    match view.rounds.asks {
        Some(Request::Stop { .. }) => wait_end(view.rounds.since, facts.held),
        Some(Request::GetInfo { .. }) => {
            wait_end(view.rounds.since, facts.answer_waits || facts.held)
        }
        _ => None,
    }
}

// The least moment at which a wait is over that began at one: at once where nothing is waited for.
fn wait_end(since: u64, waits: bool) -> Option<u64>
    ensures { IsDueFrom (λ now. not waits || nat_le (since + 100000000) now) result }
{
    if waits {
        since.checked_add(100_000_000)
    } else {
        Some(0)
    }
}
