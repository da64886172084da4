// The verdict on events, by the laws one after the other.
ghost use Rattle.std.specs.Prelude.{IfOk};
ghost use Rattle.std.specs.List.{All};
ghost use Rattle.run_laws_audit.specs.Plain.{HasPlainStatus};
ghost use Rattle.run_audit.specs.Needs.{HasTestPlaces};
ghost use Rattle.run_audit.specs.Stops.{IsRightBy};

use crate::needs::Needs;
use crate::stops::{account_stop, cancel_stop, script_stop, shape_stop};
use run_audit_model::{AuditEvent, Verdict};
use run_capture::Mem;
use run_events::ReporterEvent;
use std::alloc::Global;

/// The verdict on events of a run that has told all this, where they stop keeping the limits there: the least law that
/// they break decides.
pub fn judge(
    alloc: Global,
    needs: &Needs,
    limit: Option<u64>,
    told: &[ReporterEvent],
    events: &[AuditEvent],
) -> Mem<Verdict>
    requires places { HasTestPlaces needs.now }
    requires plain { All HasPlainStatus told.now }
    ensures { IfOk result (IsRightBy needs.now limit told.now events.now) }
{
    if let Some(place) = shape_stop(needs, told, events)? {
        return Ok(Verdict::No { law: 1, place });
    }
    if let Some(place) = account_stop(alloc, needs, told, events)? {
        return Ok(Verdict::No { law: 2, place });
    }
    if let Some(place) = limit {
        return Ok(Verdict::No { law: 3, place });
    }
    if let Some(place) = cancel_stop(alloc, needs, told, events)? {
        return Ok(Verdict::No { law: 4, place });
    }
    if let Some(place) = script_stop(alloc, needs, told, events)? {
        return Ok(Verdict::No { law: 5, place });
    }
    Ok(Verdict::Yes)
}
