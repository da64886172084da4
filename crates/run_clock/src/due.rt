// From which moment on a timer is due.
ghost use Rattle.std.specs.Prelude.{◌||◌, ℕ, Bool};
ghost use Rattle.run_clock.specs.Sleep.{fires_now, IsDueFrom};

use crate::pausable_sleep::PausableSleep;

/// The least moment at which a timer fires, none where none is set or it fires at none.
pub fn due_from(timer: &Option<PausableSleep>) -> Option<u64>
    ensures { IsDueFrom (λ now. fires_now now timer.now) result }
{
    match timer {
        Some(timer) => timer.due_from(),
        None => None,
    }
}

/// The least moment at which one of two is due, each of which is due from such a moment on.
pub fn sooner(one: Option<u64>, other: Option<u64>) -> Option<u64>
    ensures { (f g : ℕ → Bool) → IsDueFrom f one → IsDueFrom g other
        → IsDueFrom (λ now. f now || g now) result }
{
    match (one, other) {
        (Some(one), Some(other)) => Some(if one <= other { one } else { other }),
        (Some(one), None) => Some(one),
        (None, other) => other,
    }
}
