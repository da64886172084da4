// The groups of a plan by their names.
ghost use Rattle.std.specs.Prelude.{◌≡◌, IfOk, List};
ghost use Rattle.run_admission.specs.InUse.{group_of};
ghost use Rattle.run_admission.specs.Names.{HasPlaces};
ghost use Rattle.run_events.specs.declared.plan.Group.{Group};

use run_capture::{Duplicate, Mem, Text};
use run_events::Group;
use std::alloc::Global;
use std::collections::BTreeMap;

/// The place of the first group of each name.
pub fn places_of(alloc: Global, groups: &[Group]) -> Mem<BTreeMap<Text, usize>>
    ensures { IfOk result (λ m. HasPlaces groups.now m) }
{
    let mut places = BTreeMap::new(alloc);
    for (place, group) in groups.iter().enumerate() {
        if !places.contains_key(&group.name) {
            places.insert(group.name.copy(alloc)?, place)?;
        }
    }
    Ok(places)
}

/// The place of the first group of this name.
pub fn place_of(places: &BTreeMap<Text, usize>, name: &Text) -> Option<usize>
    ensures { (groups : List Group) → HasPlaces groups places.now → result ≡ group_of groups name.now }
{
    places.get(name).copied()
}
