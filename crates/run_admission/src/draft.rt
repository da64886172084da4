// The lines of a sub-run as it begins, built test by test.
ghost use Rattle.std.specs.Prelude.{ℕ, ◌≡◌, ◌+◌, ◌<◌, ◌≤◌, ◌^◌, length, map, replicate, slice_get, slice_index};
ghost use Rattle.std.specs.Prelude.{slice_index_or};
ghost use Rattle.std.specs.Prelude.{IfOk, Some};
ghost use Rattle.run_admission.specs.declared.seat.Seat.TheVariants.{Waiting};
ghost use Rattle.run_admission.specs.Kept.{Use, nobody};
ghost use Rattle.run_admission.specs.Lined.{HasFirsts, IsInOrder, IsLineup, IsQueued, empty, joined};

use crate::groups::{line_of, room_of, weight_of};
use crate::line::Line;
use crate::lines::Lines;
use crate::order::{claims_in, order_of};
use crate::room::Room;
use crate::seat::Claim;
use run_capture::Mem;
use std::alloc::Global;
use std::marker::Model;

// A line that tests join.
#[derive(Drop)]
struct Draft {
    tests: Vec<usize>,
    weights: Vec<usize>,
}

impl Model for Draft {
    ghost use Rattle.run_admission.specs.Lined.{Queue};

    ghost Value = { Queue };

    ghost view = { λ d. record { tests = d.tests.items; weights = d.weights.items } };
}

impl Draft {
    // A test joins, at the end: its place.
    fn join(&mut self, test: usize, weight: u32) -> Mem<usize>
        ensures place { IfOk result (λ place. place ≡ length self.old.tests) }
        ensures after { IfOk result (λ place. self.new ≡ joined self.old test weight) }
    {
        let place = self.tests.len();
        self.tests.push(test)?;
        self.weights.push(weight as usize)?;
        Ok(place)
    }
}

// So many lines, which no test has joined.
fn drafts_of(alloc: Global, many: usize) -> Mem<Vec<Draft>>
    ensures { IfOk result (λ v. v.items ≡ replicate many empty) }
{
    let mut drafts = Vec::new(alloc);
    for _ in 0..many {
        drafts.push(Draft {
            tests: Vec::new(alloc),
            weights: Vec::new(alloc),
        })?;
    }
    Ok(drafts)
}

// The lines that were built.
fn lines_from(alloc: Global, drafts: Vec<Draft>) -> Mem<Vec<Line>>
    requires { (l : ℕ) → l < length drafts.items
        → IsInOrder (slice_index_or drafts.items l empty).tests (slice_index_or drafts.items l empty).weights }
    ensures { IfOk result (λ v. v.items ≡ drafts.items) }
{
    let mut lines = Vec::new(alloc);
    for draft in drafts {
        lines.push(Line::new(alloc, draft.tests, &draft.weights)?)?;
    }
    Ok(lines)
}

// The first test of each line that there is room for.
fn firsts_of(alloc: Global, rooms: &[Room], lines: &[Line]) -> Mem<Vec<usize>>
    requires { (g : ℕ) (u : Use) → slice_get rooms.now g ≡ Some u → u.used ≤ u.limit }
    ensures { IfOk result (λ v. HasFirsts rooms.now lines.now (length lines.now) v.items) }
{
    let mut firsts = Vec::new(alloc);
    for place in 0..lines.len() {
        let room = room_of(rooms, place);
        firsts.push(lines[place].first(room))?;
    }
    Ok(firsts)
}

// The lines of tests that all wait.
fn lines_of(alloc: Global, rooms: &[Room], claims: &[Claim]) -> Mem<Lines>
    requires few { length claims.now < 2 ^ 32 }
    requires within { (g : ℕ) (u : Use) → slice_get rooms.now g ≡ Some u → u.used ≤ u.limit }
    requires there { (k g : ℕ) → (slice_index_or claims.now k nobody.0).group ≡ Some g → g < length rooms.now }
    ensures { IfOk result (λ q. IsQueued rooms.now claims.now (replicate (length claims.now) Waiting) q) }
{
    let mut drafts = drafts_of(alloc, rooms.len() + 1)?;
    let mut places = Vec::new(alloc);
    for test in 0..claims.len() {
        let line = line_of(rooms, &claims[test]);
        let weight = weight_of(rooms, &claims[test]);
        let place = drafts[line].join(test, weight)?;
        places.push(place)?;
    }
    let lines = lines_from(alloc, drafts)?;
    let firsts = firsts_of(alloc, rooms, &lines)?;
    let queues = Lines::new(alloc, lines, places, &firsts)?;
    Ok(queues)
}

/// The tests in the order in which they come, and their lines, where all wait.
pub fn queue_of(alloc: Global, rooms: &[Room], claims: &[Claim]) -> Mem<(Vec<usize>, Lines)>
    requires few { length claims.now < 2 ^ 32 }
    requires within { (g : ℕ) (u : Use) → slice_get rooms.now g ≡ Some u → u.used ≤ u.limit }
    requires there { (k g : ℕ) → (slice_index_or claims.now k nobody.0).group ≡ Some g → g < length rooms.now }
    ensures { IfOk result (λ q. IsLineup rooms.now claims.now q.0.items q.1) }
{
    let order = order_of(alloc, claims)?;
    let queue = claims_in(alloc, claims, &order)?;
    let lines = lines_of(alloc, rooms, &queue)?;
    Ok((order, lines))
}
