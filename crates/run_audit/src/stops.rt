// Where events stop keeping each law of a run that is over.
ghost use Rattle.std.specs.Prelude.{IfOk};
ghost use Rattle.std.specs.List.{All};
ghost use Rattle.run_laws_audit.specs.Plain.{HasPlainStatus};
ghost use Rattle.run_audit.specs.Needs.{HasTestPlaces};
ghost use Rattle.run_audit.specs.Stops.{StopsByLaw};

use crate::due::{cancels_due, count_parts};
use crate::needs::Needs;
use crate::scripts::scripts_due;
use crate::tests::tests_due;
use run_audit_model::AuditEvent;
use run_audit_passes::{Parts, cancel_place, script_place, shape_place, test_place};
use run_capture::Mem;
use run_events::ReporterEvent;
use std::alloc::Global;

/// Where events stop having the shape of the run.
pub fn shape_stop(needs: &Needs, told: &[ReporterEvent], events: &[AuditEvent]) -> Mem<Option<u64>>
    ensures { IfOk result (StopsByLaw 1 needs.now told.now events.now) }
{
    let parts = count_parts(needs.stress, told);
    shape_place(needs.stress, parts, events)
}

/// Where they stop telling what is due of each test.
pub fn account_stop(
    alloc: Global,
    needs: &Needs,
    told: &[ReporterEvent],
    events: &[AuditEvent],
) -> Mem<Option<u64>>
    requires places { HasTestPlaces needs.now }
    requires plain { All HasPlainStatus told.now }
    ensures { IfOk result (StopsByLaw 2 needs.now told.now events.now) }
{
    let coming = tests_due(alloc, needs, told)?;
    match Parts::new(needs.stress, coming) {
        Some(law) => test_place(law, events),
        // A run that is over has told a part.
        None => Ok(None),
    }
}

/// Where they stop telling the cancels that are due.
pub fn cancel_stop(
    alloc: Global,
    needs: &Needs,
    told: &[ReporterEvent],
    events: &[AuditEvent],
) -> Mem<Option<u64>>
    ensures { IfOk result (StopsByLaw 4 needs.now told.now events.now) }
{
    let coming = cancels_due(alloc, needs.stress, told)?;
    match Parts::new(needs.stress, coming) {
        Some(law) => cancel_place(law, events),
        // A run that is over has told a part.
        None => Ok(None),
    }
}

/// Where they stop telling what is due of the setup scripts.
pub fn script_stop(
    alloc: Global,
    needs: &Needs,
    told: &[ReporterEvent],
    events: &[AuditEvent],
) -> Mem<Option<u64>>
    requires { All HasPlainStatus told.now }
    ensures { IfOk result (StopsByLaw 5 needs.now told.now events.now) }
{
    let coming = scripts_due(alloc, needs.stress, told)?;
    match Parts::new(needs.stress, coming) {
        Some(law) => script_place(law, events),
        // A run that is over has told a part.
        None => Ok(None),
    }
}
