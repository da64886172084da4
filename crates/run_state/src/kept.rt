// What a run keeps of its plan beside its units.
ghost use Rattle.std.specs.Prelude.{ℕ, ◌≡◌, ◌^◌, ◌<◌, IfOk, None, length, slice_index_or};
ghost use Rattle.run_admission.specs.InUse.{new_admissions};
ghost use Rattle.run_model.specs.Admission.{units_in};
ghost use Rattle.run_unit.specs.Alike.{alike_of};

use crate::units::{Units, unadmitted};
use run_admission::Admission;
use run_capture::Mem;
use run_events::Settings;
use run_unit::Alike;
use std::alloc::Global;

/// What a run keeps of its plan beside its units.
pub struct Kept {
    /// What the tests hold of the limits.
    pub limits: Admission,
    /// What the children of its units have alike.
    pub alike: Alike,
}

// A call of its own, which keeps the proofs of all that hold one small.
impl Drop for Kept {
    fn drop(self) {
        let Kept {
            limits: _,
            alike: _,
        } = self;
    }
}

// So many units, none of which was admitted, and the limits, of which no test holds anything.
fn new_parts(alloc: Global, settings: &Settings, count: usize) -> Mem<(Units, Admission)>
    requires few { count < 2 ^ 32 }
    requires tests { length settings.now.plan.tests < 2 ^ 32 }
    ensures count { IfOk result (λ parts. length parts.0 ≡ count) }
    ensures none { IfOk result (λ parts. (k : ℕ) → slice_index_or parts.0 k None ≡ None) }
    ensures limits { let plan = settings.now.plan in
        IfOk result (λ parts. parts.1 ≡ new_admissions settings.now.threads plan.groups plan.tests) }
{
    let units = unadmitted(alloc, count)?;
    let groups = settings.plan.groups.as_slice();
    let tests = settings.plan.tests.as_slice();
    let admission = Admission::new(alloc, settings.threads, groups, tests)?;
    Ok((Units::new(alloc, units), admission))
}

/// The units of a plan, none of which was admitted, and what is kept beside them.
pub fn first_parts(alloc: Global, settings: &Settings) -> Mem<(Units, Kept)>
    requires few { units_in settings.now < 2 ^ 32 }
    ensures whole { IfOk result (λ parts. length parts.0 ≡ units_in settings.now) }
    ensures none { IfOk result (λ parts. (k : ℕ) → slice_index_or parts.0 k None ≡ None) }
    ensures limits { let plan = settings.now.plan in
        IfOk result (λ parts. parts.1.limits ≡ new_admissions settings.now.threads plan.groups plan.tests) }
    ensures alike { IfOk result (λ parts. parts.1.alike ≡ alike_of settings.now) }
{
    let count = settings.plan.scripts.len() + settings.plan.tests.len();
    let alike = Alike::new(alloc, settings)?;
    let (units, limits) = new_parts(alloc, settings, count)?;
    Ok((units, Kept { limits, alike }))
}
