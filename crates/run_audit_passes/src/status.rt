// What is due of a status.

use run_capture::{Mem, Text};

/// What of a status is compared, as it is due.
pub trait DueStatus {
    ghost use Rattle.std.specs.Prelude.{◌≡◌, Bool, IfOk};
    ghost use Rattle.run_audit_model.specs.Statuses.{Compared, compared};
    ghost use Rattle.run_audit_machines.specs.Machines.{IsSame};

    /// What is due.
    ghost status: { Self → Compared };

    /// How two are compared.
    ghost same: { Compared → Compared → Bool };

    /// Whether a text has what is due.
    fn is_told_by(&self, text: &Text) -> Mem<bool>
        ensures ok { IfOk result (λ told. told ≡ same (status self.now) (compared text.now)) };

    /// It tells whether two are the same.
    ghost decides: { IsSame same };
}
