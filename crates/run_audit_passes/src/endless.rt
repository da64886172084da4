// A law of each part of a run, which begins each part alike.
ghost use Rattle.std.specs.Prelude.{◌≡◌, None, Some, IfOk, true, false};
ghost use Rattle.run_audit_machines.specs.Machines.{endless, first_state};

use crate::PartLaw;
use crate::parts::{closes, opens};
use run_audit_model::{AuditEvent, Law};
use run_capture::Mem;
use std::marker::Model;

/// The law of a part, which can begin again.
pub trait PartAgain: PartLaw {
    ghost use Rattle.std.specs.Prelude.{◌≡◌, Some};
    ghost use Rattle.run_audit_model.specs.declared.audit_event.AuditEvent.{AuditEvent as Seen};

    /// The state before the first event.
    ghost first: { Self → Self };

    /// Goes back to that state.
    fn begin_again(&mut self)
        ensures { self.new ≡ first self.old };

    /// No event changes what that state is.
    ghost kept: { (s : Self) (e : Seen) (t : Self) → Self.part.takes s e ≡ Some t → first t ≡ first s };

    /// Nor does going back.
    ghost again: { (s : Self) → first (first s) ≡ first s };
}

/// The law of each part, where each part begins alike, however many come: the open part, or the one before.
#[derive(Drop)]
pub struct EndlessParts<P: PartAgain + Drop> {
    stress: bool,
    open: bool,
    part: P,
}

impl<P: PartAgain + Drop> Model for EndlessParts<P> {
    ghost use Rattle.std.specs.Prelude.{Some, None, cond};
    ghost use Rattle.run_audit_machines.specs.Machines.{InParts};

    ghost Value = { InParts P P };

    ghost view = { λ l. record {
      stress = l.stress;
      within = cond l.open (Some l.part) None;
      coming = P.first l.part;
    } };
}

impl<P: PartAgain + Drop> EndlessParts<P> {
    /// At the start of a run, by the part before its first event.
    pub fn new(stress: bool, part: P) -> Self
        requires { P.first part ≡ part }
        ensures { Some result ≡ first_state endless stress part }
    {
        EndlessParts {
            stress,
            open: !stress,
            part,
        }
    }
}

impl<P: PartAgain + Drop> Law<AuditEvent> for EndlessParts<P> {
    ghost use Rattle.run_audit_machines.specs.Machines.{HoldsInParts, endless, over_parts};
    ghost use Rattle.run_audit_machines.proofs.RunLemmas.{endless_completes};

    ghost machine = { over_parts P.part endless };

    ghost holds = { HoldsInParts P.holds P.holds };

    fn take(&mut self, event: &AuditEvent) -> Mem<bool> {
        if !self.open {
            if opens(event) {
                self.part.begin_again();
                self.open = true;
            }
            return Ok(true);
        }
        if closes(self.stress, event) {
            self.open = false;
            return Ok(self.part.is_done());
        }
        self.part.take(event)
    }

    fn is_done(&self) -> bool {
        !self.open || self.part.is_done()
    }

    ghost completes = { endless_completes P.part P.holds P.completes };
}
