// A law of each part of a run, over the whole run.
ghost use Rattle.std.specs.Prelude.{◌≡◌, None, Some, true, false, IfOk};
ghost use Rattle.run_audit_model.specs.Parts.{closes_part, opens_part};
ghost use Rattle.run_audit_machines.specs.Machines.{first_state, one_each, takes_between, takes_within};

use run_audit_model::{AuditEvent, Law};
use run_capture::Mem;
use std::collections::VecDeque;
use std::marker::Model;

/// What is due of one part, as a machine that takes its events one by one.
pub trait PartLaw {
    ghost use Rattle.std.specs.Prelude.{◌≡◌, true, false, Some, None, IfOk};
    ghost use Rattle.run_audit_model.specs.Places.{Machine};
    ghost use Rattle.run_audit_model.specs.declared.audit_event.AuditEvent.{AuditEvent as Seen};
    ghost use Rattle.run_audit_machines.specs.Machines.{PartCompletes};

    /// How it takes events.
    ghost part: { Machine Self Seen };

    /// What holds of its states.
    ghost holds: { Self → Type 0 };

    /// Takes an event of the part, where that can be continued.
    fn take(&mut self, event: &AuditEvent) -> Mem<bool>
        ensures taken { IfOk result
            (λ taken. taken ≡ true → part.takes self.old event.now ≡ Some self.new) }
        ensures stopped { IfOk result
            (λ taken. taken ≡ false → part.takes self.old event.now ≡ None) };

    /// Whether the part may end here.
    fn is_done(&self) -> bool
        ensures { result ≡ part.is_done self.now };

    /// Each state that holds can be continued to an end.
    ghost completes: { PartCompletes part holds };
}

/// The law of each part: the open one, and those to come, the next one first.
#[derive(Drop)]
pub struct Parts<P: Drop> {
    stress: bool,
    within: Option<P>,
    coming: VecDeque<P>,
}

impl<P: Drop> Model for Parts<P> {
    ghost use Rattle.std.specs.Prelude.{List};
    ghost use Rattle.run_audit_machines.specs.Machines.{InParts};

    ghost Value = { InParts P (List P) };

    ghost view = { λ l. record { stress = l.stress; within = l.within; coming = l.coming.items } };
}

/// Whether an event opens a part of a stress run.
pub fn opens(event: &AuditEvent) -> bool
    ensures { result ≡ opens_part event.now }
{
    matches!(event, AuditEvent::SubRunStarted)
}

/// Whether it closes a part.
pub fn closes(stress: bool, event: &AuditEvent) -> bool
    ensures { result ≡ closes_part stress event.now }
{
    match event {
        AuditEvent::SubRunFinished => stress,
        AuditEvent::RunFinished => !stress,
        _ => false,
    }
}

impl<P: PartLaw + Drop> Parts<P> {
    /// At the start of a run, with what is due of each of its parts; none where a run without stress has no part.
    pub fn new(stress: bool, coming: VecDeque<P>) -> Option<Self>
        ensures { result ≡ first_state one_each stress coming.items }
    {
        let mut coming = coming;
        let within = if stress {
            None
        } else {
            Some(coming.pop_front()?)
        };
        Some(Parts {
            stress,
            within,
            coming,
        })
    }

    /// Takes an event where no part is open.
    fn between(&mut self, event: &AuditEvent) -> bool
        requires { self.old.within ≡ None }
        ensures taken { result ≡ true
            → takes_between one_each self.old.stress self.old.coming (opens_part event.now) ≡ Some self.new }
        ensures stopped { result ≡ false
            → takes_between one_each self.old.stress self.old.coming (opens_part event.now) ≡ None }
    {
        if !opens(event) {
            return true;
        }
        match self.coming.pop_front() {
            Some(part) => {
                self.within = Some(part);
                true
            }
            None => false,
        }
    }

    /// Takes an event within this part.
    fn take_within(&mut self, part: P, event: &AuditEvent) -> Mem<bool>
        requires { self.old.within ≡ None }
        ensures taken { IfOk result (λ taken. taken ≡ true → takes_within P.part self.old.stress self.old.coming part
            event.now (closes_part self.old.stress event.now) ≡ Some self.new) }
        ensures stopped { IfOk result (λ taken. taken ≡ false → takes_within P.part self.old.stress self.old.coming part
            event.now (closes_part self.old.stress event.now) ≡ None) }
    {
        if closes(self.stress, event) {
            return Ok(part.is_done());
        }
        let mut part = part;
        let taken = part.take(event)?;
        self.within = Some(part);
        Ok(taken)
    }
}

impl<P: PartLaw + Drop> Law<AuditEvent> for Parts<P> {
    ghost use Rattle.std.specs.Prelude.{◌≡◌};
    ghost use Rattle.std.specs.List.{All};
    ghost use Rattle.run_audit_machines.specs.Machines.{HoldsInParts, one_each, over_parts};
    ghost use Rattle.run_audit_machines.proofs.RunLemmas.{listed_completes};

    ghost machine = { over_parts P.part one_each };

    ghost holds = { HoldsInParts P.holds (All P.holds) };

    fn take(&mut self, event: &AuditEvent) -> Mem<bool> {
        match self.within.take() {
            Some(part) => self.take_within(part, event),
            None => Ok(self.between(event)),
        }
    }

    fn is_done(&self) -> bool {
        match &self.within {
            Some(part) => part.is_done() && self.coming.is_empty(),
            None => self.coming.is_empty(),
        }
    }

    ghost completes = { listed_completes P.part P.holds P.completes };
}
