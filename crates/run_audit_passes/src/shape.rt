// The shape of a run, event by event.
ghost use Rattle.std.specs.Prelude.{◌≡◌};
ghost use Rattle.run_audit_machines.specs.Shape.{before_takes, between_takes, plain_takes, shape_start, shape_takes};
ghost use Rattle.run_audit_machines.specs.Shape.{within_takes};

use run_audit_machines::ShapePlace;
use run_audit_model::{AuditEvent, Law};
use run_capture::Mem;
use std::marker::Model;

/// The law that a list has the shape of a run.
#[derive(Drop)]
pub struct ShapeLaw {
    stress: bool,
    runs: u64,
    place: ShapePlace,
}

impl Model for ShapeLaw {
    ghost use Rattle.run_audit_machines.specs.Shape.{ShapeNow};

    ghost Value = { ShapeNow };

    ghost view = { λ l. record { stress = l.stress; runs = l.runs; place = l.place } };
}

impl ShapeLaw {
    /// Before a run of so many sub-runs.
    pub fn new(stress: bool, runs: u64) -> Self
        ensures { result ≡ shape_start stress runs }
    {
        ShapeLaw {
            stress,
            runs,
            place: ShapePlace::Before,
        }
    }
}

/// Where the next event leads from a place.
fn place_after(law: &ShapeLaw, event: &AuditEvent) -> Option<ShapePlace>
    ensures { result ≡ shape_takes law.now.stress law.now.runs law.now.place event.now }
{
    match law.place {
        ShapePlace::Before => before(law, event),
        ShapePlace::Plain => plain(event),
        ShapePlace::Between { left } => between(left, event),
        ShapePlace::Within { left } => within(left, event),
        ShapePlace::Over => None,
    }
}

fn before(law: &ShapeLaw, event: &AuditEvent) -> Option<ShapePlace>
    ensures { result ≡ before_takes law.now.stress law.now.runs event.now }
{
    match event {
        AuditEvent::RunStarted => Some(if law.stress {
            ShapePlace::Between { left: law.runs }
        } else {
            ShapePlace::Plain
        }),
        _ => None,
    }
}

fn plain(event: &AuditEvent) -> Option<ShapePlace>
    ensures { result ≡ plain_takes event.now }
{
    match event {
        AuditEvent::RunFinished => Some(ShapePlace::Over),
        AuditEvent::RunStarted | AuditEvent::SubRunStarted | AuditEvent::SubRunFinished => None,
        _ => Some(ShapePlace::Plain),
    }
}

fn between(left: u64, event: &AuditEvent) -> Option<ShapePlace>
    ensures { result ≡ between_takes left event.now }
{
    match event {
        AuditEvent::RunFinished => if left == 0 {
            Some(ShapePlace::Over)
        } else {
            None
        },
        AuditEvent::SubRunStarted => if left == 0 {
            None
        } else {
            Some(ShapePlace::Within { left: left - 1 })
        },
        AuditEvent::Other => Some(ShapePlace::Between { left }),
        _ => None,
    }
}

fn within(left: u64, event: &AuditEvent) -> Option<ShapePlace>
    ensures { result ≡ within_takes left event.now }
{
    match event {
        AuditEvent::SubRunFinished => Some(ShapePlace::Between { left }),
        AuditEvent::RunStarted | AuditEvent::RunFinished | AuditEvent::SubRunStarted => None,
        _ => Some(ShapePlace::Within { left }),
    }
}

impl Law<AuditEvent> for ShapeLaw {
    ghost use Rattle.std.specs.Prelude.{◌≡◌};
    ghost use Rattle.run_audit_machines.specs.Shape.{shape_machine};
    ghost use Rattle.run_audit_machines.proofs.ShapeLemmas.{shape_completes};

    ghost machine = { shape_machine };

    ghost holds = { λ law. Unit {0} };

    fn take(&mut self, event: &AuditEvent) -> Mem<bool> {
        match place_after(self, event) {
            Some(place) => {
                self.place = place;
                Ok(true)
            }
            None => Ok(false),
        }
    }

    fn is_done(&self) -> bool {
        matches!(self.place, ShapePlace::Over)
    }

    ghost completes = { shape_completes };
}
