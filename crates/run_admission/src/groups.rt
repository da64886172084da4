// What the limits of groups leave for their tests, and what a test takes of its group's limit.
ghost use Rattle.std.specs.Prelude.{◌≡◌, ◌<◌, ◌≤◌, ℕ, length, map, slice_get, Some};
ghost use Rattle.run_admission.specs.InUse.{fits_beside, candidate_at};
ghost use Rattle.run_admission.specs.Kept.{Use, CanTake, CanGive, free_within, take_in, give_in};
ghost use Rattle.run_admission.specs.Lined.{line_of, room_of, weight_of};

use crate::room::Room;
use crate::seat::{Candidate, Claim};

/// The line in which a test waits: that of its group, or the last, which always has room.
pub fn line_of(groups: &[Room], claim: &Claim) -> usize
    ensures { result ≡ line_of (map (λ u. u.limit) groups.now) claim.now }
{
    match claim.group {
        Some(group) if claim.matched => group,
        _ => groups.len(),
    }
}

/// What a test takes of its line's limit.
pub fn weight_of(groups: &[Room], claim: &Claim) -> u32
    requires { (g : ℕ) → claim.now.group ≡ Some g → g < length groups.now }
    ensures { result ≡ weight_of (map (λ u. u.limit) groups.now) claim.now }
{
    match claim.group {
        Some(group) if claim.matched => groups[group].cut(claim.weight),
        _ => 0,
    }
}

/// How much is left of the limit of a line.
pub fn room_of(groups: &[Room], line: usize) -> u32
    requires { (g : ℕ) (u : Use) → slice_get groups.now g ≡ Some u → u.used ≤ u.limit }
    ensures { result ≡ room_of groups.now line }
{
    if line < groups.len() {
        groups[line].left()
    } else {
        0
    }
}

/// How a test comes next.
pub fn candidate_at(whole: &Room, test: u32, claim: &Claim) -> Candidate
    requires { whole.now.used ≤ whole.now.limit }
    ensures { result ≡ candidate_at test claim.now
        (fits_beside whole.now.used whole.now.limit claim.now.weight) }
{
    if !claim.matched {
        Candidate::Skip { test }
    } else if whole.has_room(claim.weight) {
        Candidate::Fits { test }
    } else {
        Candidate::Blocked { test }
    }
}

/// A test takes of its group's limit, if it has a group: its slot within it.
pub fn take_in_group(
    groups: &mut [Room],
    group: Option<usize>,
    test: u32,
    weight: u32,
) -> Option<u32>
    requires there { (g : ℕ) → group ≡ Some g → g < length groups.old }
    requires room { (g : ℕ) (u : Use) → group ≡ Some g → slice_get groups.old g ≡ Some u → CanTake u weight }
    ensures slot { result ≡ free_within groups.old group }
    ensures after { groups.new ≡ take_in groups.old group test weight }
{
    match group {
        Some(place) => {
            let room = &mut groups[place];
            Some(room.take(test, weight))
        }
        None => None,
    }
}

/// A test gives back to its group's limit, if it has a group.
pub fn give_in_group(groups: &mut [Room], group: Option<usize>, slot: Option<u32>, weight: u32)
    requires there { (g : ℕ) → group ≡ Some g → g < length groups.old }
    requires held { (g n : ℕ) (u : Use) → group ≡ Some g → slot ≡ Some n → slice_get groups.old g ≡ Some u
        → CanGive u n weight }
    ensures { groups.new ≡ give_in groups.old group slot weight }
{
    if let (Some(place), Some(slot)) = (group, slot) {
        let room = &mut groups[place];
        room.give_back(slot, weight);
    }
}
