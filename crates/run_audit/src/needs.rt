// What is needed of a plan's settings once its run is carried out.
ghost use Rattle.std.specs.Prelude.{IfOk};
ghost use Rattle.run_model.specs.Once.{HasEachIdOnce};
ghost use Rattle.run_audit.specs.Needs.{AreNeedsOf};

use run_audit_passes::{PlanPlaces, places_of};
use run_capture::Mem;
use run_events::Settings;
use std::alloc::Global;

/// Whether the run is a stress run, how many tests the plan has, and where they stand by their ids.
#[derive(Drop)]
pub struct Needs {
    pub stress: bool,
    pub tests: usize,
    pub places: PlanPlaces,
}

/// What is needed of settings in whose plan each id stands once.
pub fn needs_of(alloc: Global, settings: &Settings) -> Mem<Needs>
    requires { HasEachIdOnce settings.now }
    ensures { IfOk result (AreNeedsOf settings.now) }
{
    let tests = settings.plan.tests.as_slice();
    match places_of(alloc, tests)? {
        Some(places) => Ok(Needs {
            stress: settings.stress.is_some(),
            tests: tests.len(),
            places,
        }),
        None => unreachable!(),
    }
}
