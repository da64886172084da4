// Which of the turns that come by themselves a unit takes.
ghost use Rattle.std.specs.Prelude.{◌≡◌, ◌<◌, ◌^◌, ℕ, false};
ghost use Rattle.run_clock.specs.Sleep.{fires_now};
ghost use Rattle.run_model.specs.Requests.{has_request};
ghost use Rattle.run_model.specs.declared.unit_turn.UnitTurn.TheVariants.{Take, Decide, Due};
ghost use Rattle.run_model.specs.Unit.{takes_at};
ghost use Rattle.run_unit.specs.Timely.{IsQuietUntil, IsTimely};

use crate::requests::has_request;
use run_capture::List;
use run_clock::{PausableSleep, due_from, fires_now};
use run_events::Request;
use run_model::{Phase, UnitView};

/// Which of the turns that come by themselves a unit takes: that of a request, that it decides, and that of a timer.
#[derive(Clone, Copy, Drop)]
pub struct Wants {
    pub take: bool,
    pub decide: bool,
    pub due: bool,
}

/// None of them.
pub fn no_wants() -> Wants
    ensures take { result.take ≡ false }
    ensures decide { result.decide ≡ false }
    ensures due { result.due ≡ false }
{
    Wants {
        take: false,
        decide: false,
        due: false,
    }
}

/// Which of them a unit takes now.
pub fn wants_of(view: &UnitView, now: u64) -> Wants
    requires { IsTimely view.now.timers now }
    ensures take { result.take ≡ takes_at now view.now.phase view.now Take }
    ensures decide { (word : ℕ) → result.decide ≡ takes_at now view.now.phase view.now (Decide word) }
    ensures due { result.due ≡ takes_at now view.now.phase view.now Due }
{
    match view.phase {
        Phase::Running => Wants {
            take: has_request(&view.line),
            decide: false,
            due: fires_now(&view.timers.slow, now),
        },
        Phase::Grace | Phase::Leak | Phase::Delay => Wants {
            take: has_request(&view.line),
            decide: false,
            due: fires_now(&view.timers.wait, now),
        },
        phase => Wants {
            decide: matches!(phase, Phase::Deciding),
            ..no_wants()
        },
    }
}

// A moment before which no request waits in a line and a timer doesn't fire.
fn quiet_until(line: &List<Request>, timer: &Option<PausableSleep>) -> u64
    ensures { (now : ℕ) → now < result → now < 2 ^ 64
        → (has_request line.now ≡ false) × (fires_now now timer.now ≡ false) }
{
    if has_request(line) {
        return 0;
    }
    due_from(timer).unwrap_or(u64::MAX)
}

/// A moment before which a unit takes none of the turns that come by themselves.
pub fn wakes_of(view: &UnitView) -> u64
    ensures { IsQuietUntil view.now result }
{
    match view.phase {
        Phase::Running => quiet_until(&view.line, &view.timers.slow),
        Phase::Grace | Phase::Leak | Phase::Delay => quiet_until(&view.line, &view.timers.wait),
        Phase::Deciding => 0,
        _ => u64::MAX,
    }
}
