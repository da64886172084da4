// The cancels of a part, event by event.
ghost use Rattle.std.specs.Prelude.{◌≡◌, ◌==◌, true, false, Some, None};
ghost use Rattle.run_events.specs.Cancel.{rank};
ghost use Rattle.run_audit_machines.specs.Cancels.{is_same_cancel};
ghost use Rattle.run_audit_machines.specs.Machines.{due_after};

use crate::PartLaw;
use run_audit_model::AuditEvent;
use run_capture::Mem;
use run_events::CancelReason;
use std::collections::VecDeque;
use std::marker::Model;

/// What is still due of a part's cancels, each with whether the run is told killed, and whether one was told.
#[derive(Drop)]
pub struct CancelPart {
    due: VecDeque<(CancelReason, bool)>,
    told: bool,
}

impl Model for CancelPart {
    ghost use Rattle.run_audit_machines.specs.Cancels.{CancelPart as Part};

    ghost Value = { Part };

    ghost view = { λ c. (c.due.items, c.told) };
}

/// Whether two reasons are the same.
fn is_same_reason(a: CancelReason, b: CancelReason) -> bool
    ensures { result ≡ (rank a == rank b) }
{
    !a.is_below(b) && !b.is_below(a)
}

/// Whether what is due is this reason, and killed where this is.
fn is_same(due: (CancelReason, bool), reason: CancelReason, kill: bool) -> bool
    ensures { result ≡ is_same_cancel due (reason, kill) }
{
    is_same_reason(due.0, reason) && if due.1 { kill } else { !kill }
}

/// Takes a cancel, where it is due next.
fn take_cancel(due: &mut VecDeque<(CancelReason, bool)>, reason: CancelReason, kill: bool) -> bool
    ensures taken { result ≡ true
        → due_after is_same_cancel due.old.items (Some (reason, kill)) ≡ Some due.new.items }
    ensures stopped { result ≡ false → due_after is_same_cancel due.old.items (Some (reason, kill)) ≡ None }
{
    match due.pop_front() {
        Some(next) => is_same(next, reason, kill),
        None => false,
    }
}

impl CancelPart {
    /// Before a part of which these are due.
    pub fn new(due: VecDeque<(CancelReason, bool)>) -> Self
        ensures { result ≡ (due.items, false) }
    {
        CancelPart { due, told: false }
    }
}

impl PartLaw for CancelPart {
    ghost use Rattle.std.specs.Prelude.{◌≡◌};
    ghost use Rattle.run_audit_machines.specs.Cancels.{cancel_part};
    ghost use Rattle.run_audit_machines.specs.Laws.{HoldsAlways};
    ghost use Rattle.run_audit_machines.proofs.CancelLemmas.{cancel_part_completes};

    ghost part = { cancel_part };

    ghost holds = { HoldsAlways };

    fn take(&mut self, event: &AuditEvent) -> Mem<bool> {
        match event {
            AuditEvent::Cancel { reason, kill } => {
                self.told = true;
                Ok(take_cancel(&mut self.due, *reason, *kill))
            }
            AuditEvent::ScriptStarted { .. }
            | AuditEvent::TestStarted { .. }
            | AuditEvent::RetryStarted { .. } => Ok(!self.told),
            _ => Ok(true),
        }
    }

    fn is_done(&self) -> bool {
        self.due.is_empty()
    }

    ghost completes = { cancel_part_completes };
}
