// The names of a plan's groups, and whether a test names one of them.
ghost use Rattle.std.specs.Prelude.{◌≡◌, IfOk, List};
ghost use Rattle.run_events.specs.declared.plan.Group.{Group};
ghost use Rattle.run_engine.specs.Builder.{names_no_group};
ghost use Rattle.run_engine.specs.Names.{HasNames};

use run_capture::{Mem, Text};
use run_events::{Group, PlanTest};
use std::alloc::Global;
use std::collections::BTreeSet;

/// The names of groups.
pub(crate) fn names_of(alloc: Global, groups: &[Group]) -> Mem<BTreeSet<&Text>>
    ensures { IfOk result (λ names. HasNames groups.now names) }
{
    let mut names = BTreeSet::new(alloc);
    for group in groups {
        names.insert(&group.name)?;
    }
    Ok(names)
}

/// Whether a test names a group that isn't among these.
pub(crate) fn names_no_group<'a>(names: &BTreeSet<&'a Text>, test: &'a PlanTest) -> bool
    ensures { (groups : List Group) → HasNames groups names.now
        → result ≡ names_no_group groups test.now }
{
    match &test.group {
        Some(name) => !names.contains(&name),
        None => false,
    }
}
