// What the tests of a plan claim, and the limits of its groups.
ghost use Rattle.std.specs.Prelude.{ℕ, ◌≡◌, ◌<◌, ◌^◌, length, map, slice_index, slice_index_or, IfOk, List, Some};
ghost use Rattle.run_admission.specs.InUse.{claim_of};
ghost use Rattle.run_admission.specs.Names.{HasPlaces};
ghost use Rattle.run_events.specs.declared.plan.Group.{Group};
ghost use Rattle.run_admission.specs.Kept.{AreMembers, nobody, unused_each};

use crate::names::{place_of, places_of};
use crate::room::Room;
use crate::seat::Claim;
use run_capture::{Mem, Text};
use run_events::{Group, PlanTest};
use std::alloc::Global;
use std::collections::BTreeMap;

// What a test claims, by the places of the groups' names.
fn claim_of(places: &BTreeMap<Text, usize>, test: &PlanTest) -> Claim
    ensures { (groups : List Group) → HasPlaces groups places.now → result ≡ claim_of groups test.now }
{
    let group = match &test.group {
        Some(name) => place_of(places, name),
        None => None,
    };
    Claim {
        matched: test.skip.is_none(),
        weight: test.weight,
        priority: test.priority,
        group,
    }
}

/// What the tests claim, in order.
pub fn claims_of(alloc: Global, groups: &[Group], tests: &[PlanTest]) -> Mem<Vec<Claim>>
    ensures { IfOk result (λ v. v.items ≡ map (claim_of groups.now) tests.now) }
{
    let places = places_of(alloc, groups)?;
    let mut claims = Vec::new(alloc);
    for test in tests {
        claims.push(claim_of(&places, test))?;
    }
    Ok(claims)
}

/// How many tests are of each of so many groups.
pub fn members_of(alloc: Global, groups: usize, claims: &[Claim]) -> Mem<Vec<usize>>
    requires few { length claims.now < 2 ^ 32 }
    requires there { (k g : ℕ) → (slice_index_or claims.now k nobody.0).group ≡ Some g → g < groups }
    ensures { IfOk result (λ v. AreMembers groups claims.now v.items) }
{
    let mut counts = vec![in alloc; 0; groups]?;
    for claim in claims {
        match claim.group {
            Some(group) => counts[group] += 1,
            None => {}
        }
    }
    Ok(counts)
}

/// The limits of the groups, in order, of which nothing is in use, each with so many slots.
pub fn rooms_of(alloc: Global, groups: &[Group], slots: &[usize]) -> Mem<Vec<Room>>
    requires all { length slots.now ≡ length groups.now }
    requires few { (g : ℕ) → g < length groups.now → slice_index slots.now g < 2 ^ 32 }
    ensures { IfOk result (λ v. v.items ≡ unused_each slots.now groups.now) }
{
    let mut rooms = Vec::new(alloc);
    for (place, group) in groups.iter().enumerate() {
        let room = Room::new(alloc, group.limit, slots[place])?;
        rooms.push(room)?;
    }
    Ok(rooms)
}
