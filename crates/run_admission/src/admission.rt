// Which test comes next, and the slots that it gets.
ghost use Rattle.std.specs.Prelude.{◌≡◌, ◌<◌, ◌^◌, length, IfOk, Some, true, slice_set};
ghost use Rattle.run_admission.specs.declared.seat.Seat.TheVariants.{Gone};
ghost use Rattle.run_admission.specs.declared.seat.Candidate.TheVariants.{Skip, Fits};
ghost use Rattle.run_admission.specs.InUse.{new_admissions, candidate, admitted};
ghost use Rattle.run_admission.specs.InUse.{after_admission, is_test_in_use, released};
ghost use Rattle.run_admission.specs.InUse.{is_done, is_waiting};
ghost use Rattle.std.specs.List.{list_all};
ghost use Rattle.run_admission.specs.Laws.{KeepsLimits, HasOwnSlots};

use crate::claims::{claims_of, members_of, rooms_of};
use crate::draft::queue_of;
use crate::groups::{candidate_at, give_in_group, line_of, room_of, take_in_group};
use crate::lines::Lines;
use crate::min_tree::NONE;
use crate::room::Room;
use crate::seat::{Admitted, Candidate, Claim, Seat};
use run_capture::Mem;
use run_events::{Group, PlanTest};
use std::alloc::Global;
use std::marker::Model;

/// Which tests of a sub-run wait, are in use and are gone. A test's weight counts as at most each limit: a test fits
/// where the weight in use and its own, both cut so, are within the limit. Contracts see the record `Admissions`.
#[derive(Drop)]
pub struct Admission {
    /// How many tests wait.
    waiting: usize,
    /// The limit on all tests.
    whole: Room,
    /// The limits of the groups.
    groups: Vec<Room>,
    /// The lines, in which each test stands by its place in `order`.
    lines: Lines,
    /// The tests by descending priority, and those of equal priority in plan order.
    order: Vec<usize>,
    claims: Vec<Claim>,
    seats: Vec<Seat>,
}

impl Model for Admission {
    ghost use Rattle.run_admission.specs.InUse.{Admissions};

    ghost Value = { Admissions };

    ghost use Rattle.run_admission.specs.Kept.{seen};
    ghost use Rattle.run_admission.specs.Lined.{IsReady};

    ghost view = { λ a. seen a.whole a.groups.items a.claims.items a.seats.items };

    ghost invariant = { λ a. IsReady a.waiting a.whole a.groups.items a.lines a.order.items a.claims.items
        a.seats.items };
}

impl Admission {
    /// A sub-run as it begins. This call alone takes memory.
    pub fn new(alloc: Global, threads: u32, groups: &[Group], tests: &[PlanTest]) -> Mem<Admission>
        requires { length tests.now < 2 ^ 32 }
        ensures { IfOk result (λ a. a ≡ new_admissions threads groups.now tests.now) }
    {
        let whole = Room::new(alloc, threads, tests.len())?;
        let claims = claims_of(alloc, groups, tests)?;
        let members = members_of(alloc, groups.len(), &claims)?;
        let rooms = rooms_of(alloc, groups, &members)?;
        let queue = queue_of(alloc, &rooms, &claims)?;
        let seats = vec![in alloc; Seat::Waiting; tests.len()]?;
        let (order, lines) = queue;
        Ok(Admission {
            waiting: tests.len(),
            whole,
            groups: rooms,
            lines,
            order,
            claims,
            seats,
        })
    }

    /// The first test, by descending priority and then in plan order, that waits and is to be skipped or fits within
    /// its group. A group without room is passed over. A candidate that doesn't fit within the limit on all tests
    /// blocks all later tests of that order.
    pub fn candidate(&self) -> Option<Candidate>
        ensures { result ≡ candidate self.now }
    {
        let first = self.lines.first();
        if first == NONE {
            return None;
        }
        let test = self.order[first];
        let claim = &self.claims[test];
        Some(candidate_at(&self.whole, test as u32, claim))
    }

    /// Admits the candidate, unless it is blocked.
    pub fn admit(&mut self) -> Option<Admitted>
        ensures admitted { result ≡ admitted self.old }
        ensures after { self.new ≡ after_admission self.old }
    {
        match self.candidate() {
            Some(Candidate::Skip { test }) => {
                self.skip(test);
                Some(Admitted::Skip { test })
            }
            Some(Candidate::Fits { test }) => Some(self.run(test)),
            Some(Candidate::Blocked { .. }) | None => None,
        }
    }

    // The candidate is skipped.
    fn skip(&mut self, test: u32)
        requires { candidate self.old ≡ Some (Skip test) }
        ensures { self.new ≡ after_admission self.old }
    {
        let first = self.lines.first();
        let line = line_of(&self.groups, &self.claims[test as usize]);
        let room = room_of(&self.groups, line);
        self.lines.leave(line, first);
        self.lines.refresh(line, room);
        self.seats[test as usize] = Seat::Gone;
        self.waiting -= 1;
    }

    // The candidate runs.
    fn run(&mut self, test: u32) -> Admitted
        requires { candidate self.old ≡ Some (Fits test) }
        ensures admitted { admitted self.old ≡ Some result }
        ensures after { self.new ≡ after_admission self.old }
    {
        let first = self.lines.first();
        let claim = self.claims[test as usize];
        let line = line_of(&self.groups, &claim);
        let global = self.whole.take(test, claim.weight);
        let group = take_in_group(&mut self.groups, claim.group, test, claim.weight);
        let room = room_of(&self.groups, line);
        self.lines.leave(line, first);
        self.lines.refresh(line, room);
        self.seats[test as usize] = Seat::InUse { global, group };
        self.waiting -= 1;
        Admitted::Run {
            test,
            global_slot: global,
            group_slot: group,
        }
    }

    /// Gives back what a test in use holds.
    pub fn release(&mut self, test: u32)
        requires { is_test_in_use self.old test ≡ true }
        ensures { self.new ≡ released self.old test }
    {
        if let Seat::InUse { global, group } = self.seats[test as usize] {
            let claim = self.claims[test as usize];
            self.whole.give_back(global, claim.weight);
            give_in_group(&mut self.groups, claim.group, group, claim.weight);
            self.seats[test as usize] = Seat::Gone;
            if let Some(line) = claim.group {
                let room = room_of(&self.groups, line);
                self.lines.refresh(line, room);
            }
        }
    }

    /// Whether all tests wait, as they do when a sub-run begins.
    pub fn all_wait(&self) -> bool
        ensures { result ≡ list_all is_waiting self.now.seats }
    {
        self.waiting == self.seats.len()
    }

    /// Whether no test waits.
    pub fn done(&self) -> bool
        ensures { result ≡ is_done self.now }
    {
        self.waiting == 0
    }

    /// A law: after any admissions and releases no limit is passed.
    pub fn keeps_limits(&self)
        ensures { KeepsLimits self.now }
    {
        let _ = &self.whole;
    }

    /// A law: no two tests in use hold one slot, and no two tests of a group one slot within it.
    pub fn gives_own_slots(&self)
        ensures { HasOwnSlots self.now }
    {
        let _ = &self.whole;
    }
}
