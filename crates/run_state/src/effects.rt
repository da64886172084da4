// What a turn gives to the outside.
ghost use Rattle.std.specs.Prelude.{◌≡◌, []};

use run_capture::List;
use run_dispatch::DispatchEffects;
use run_events::{Ask, ReporterEvent};

/// What a turn tells and asks.
#[derive(Drop)]
pub struct Effects {
    pub events: List<ReporterEvent>,
    pub asked: Option<Ask>,
}

/// A turn of a unit's own tells nothing itself.
pub fn asking(asked: Option<Ask>) -> Effects
    ensures { result ≡ record { events = []; asked = asked } }
{
    Effects {
        events: List::new(),
        asked,
    }
}

/// What a call of the dispatcher tells and asks.
pub fn telling(effects: DispatchEffects) -> Effects
    ensures { result ≡ record { events = effects.events; asked = effects.asked } }
{
    Effects {
        events: effects.events,
        asked: effects.asked,
    }
}
