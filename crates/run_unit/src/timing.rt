// The timers of a unit.
ghost use Rattle.std.specs.Prelude.{◌≡◌, ◌≤◌, IfSome};
ghost use Rattle.run_clock.specs.Sleep.{IsDueFrom};
ghost use Rattle.run_model.specs.Unit.{takes_at, slow_timer_at};
ghost use Rattle.run_model.specs.declared.unit_turn.UnitTurn.TheVariants.{Due};
ghost use Rattle.run_unit.specs.Timely.{IsTimely};

use run_clock::{PausableSleep, due_from, fires_now};
use run_model::{AttemptTerms, Phase, UnitView};

/// The timer until an attempt on these terms is slow, set now: none where slow timers are off.
pub fn slow_timer_at(now: u64, terms: &AttemptTerms) -> Option<PausableSleep>
    ensures { result ≡ slow_timer_at now terms.now }
{
    if terms.disables_timeouts {
        None
    } else {
        Some(PausableSleep::new(now, terms.slow.period))
    }
}

/// Whether the timer of its phase is due.
pub fn is_timer_due(view: &UnitView, now: u64) -> bool
    requires { IsTimely view.now.timers now }
    ensures { result ≡ takes_at now view.now.phase view.now Due }
{
    match view.phase {
        Phase::Running => fires_now(&view.timers.slow, now),
        Phase::Grace | Phase::Leak | Phase::Delay => fires_now(&view.timers.wait, now),
        _ => false,
    }
}

/// The least moment at which the timer of its phase is due, none where that has none.
pub fn next_due(view: &UnitView) -> Option<u64>
    ensures { IsDueFrom (λ now. takes_at now view.now.phase view.now Due) result }
{
    match view.phase {
        Phase::Running => due_from(&view.timers.slow),
        Phase::Grace | Phase::Leak | Phase::Delay => due_from(&view.timers.wait),
        _ => None,
    }
}
