// The results of a run whose turns are taken again.
ghost use Rattle.std.specs.Prelude.{◌≡◌, ◌<◌, ◌^◌, [], length, IfOk, OnOk};
ghost use Rattle.run_jobs.specs.Heard.{HasResults};
ghost use Rattle.run_jobs.specs.Ledgers.{IsResultsOf};

use crate::idle::Deaf;
use crate::ledger::Results;
use run_capture::{Mem, OutOfMemory};
use run_engine::TestRunner;
use run_events::Turn;
use std::alloc::Global;

// The results of the turns of a runner, taken with results of no event.
fn take_turns(alloc: Global, runner: TestRunner, turns: &[Turn], results: &mut Results) -> Mem<()>
    requires turns { length turns.now < 2 ^ 32 }
    requires fresh { IsResultsOf results.old [] }
    ensures { OnOk result (HasResults runner turns.now results.new) }
{
    match runner.try_execute(alloc, turns, &mut Deaf, results) {
        Ok(_) => Ok(()),
        Err(_) => Err(OutOfMemory),
    }
}

/// What the turns of a run that ends tell of each test. They are taken once more, with children that do nothing.
pub fn results_of(alloc: Global, runner: TestRunner, turns: &[Turn]) -> Mem<Results>
    requires turns { length turns.now < 2 ^ 32 }
    ensures { IfOk result (HasResults runner turns.now) }
{
    let mut results = Results::new(alloc);
    match take_turns(alloc, runner, turns, &mut results) {
        Ok(()) => Ok(results),
        Err(error) => {
            drop(results);
            Err(error)
        }
    }
}
