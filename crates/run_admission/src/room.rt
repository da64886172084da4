// One limit on tests, with how much of it is in use, and which test holds each slot.
ghost use Rattle.std.specs.Prelude.{◌≡◌, ◌<◌, ◌≤◌, ◌+◌, ◌-◌, ◌^◌, min, length, IfOk};
ghost use Rattle.run_admission.specs.InUse.{fits_beside};
ghost use Rattle.run_admission.specs.Kept.{CanTake, CanGive, unused, free_in, take_of, give_back};

use crate::min_tree::{MinTree, NONE};
use run_capture::Mem;
use std::alloc::Global;
use std::marker::Model;

/// A limit, as `Use` of `specs/Kept.antt`.
#[derive(Drop)]
pub struct Room {
    limit: u32,
    used: u32,
    holders: Vec<Option<u32>>,
    /// At the place of each free slot 0, and at another `NONE`.
    free: MinTree,
}

impl Model for Room {
    ghost use Rattle.run_admission.specs.Kept.{Use, IsMarked};

    ghost Value = { Use };

    ghost view = { λ r. record { limit = r.limit; used = r.used; holders = r.holders.items } };

    ghost invariant = { λ r. IsMarked r.holders.items r.free };
}

impl Room {
    /// A limit of which nothing is in use, with so many slots.
    pub fn new(alloc: Global, limit: u32, slots: usize) -> Mem<Room>
        requires { slots < 2 ^ 32 }
        ensures { IfOk result (λ r. r ≡ unused slots limit) }
    {
        let holders = vec![in alloc; None; slots]?;
        let marks = vec![in alloc; 0; slots]?;
        let free = MinTree::new(alloc, &marks)?;
        Ok(Room {
            limit,
            used: 0,
            holders,
            free,
        })
    }

    /// Whether so much more fits.
    pub fn has_room(&self, weight: u32) -> bool
        requires { self.now.used ≤ self.now.limit }
        ensures { result ≡ fits_beside self.now.used self.now.limit weight }
    {
        self.cut(weight) <= self.left()
    }

    /// How much of the limit is left.
    pub fn left(&self) -> u32
        requires { self.now.used ≤ self.now.limit }
        ensures { result ≡ self.now.limit - self.now.used }
    {
        self.limit - self.used
    }

    /// What a test of this weight takes of the limit.
    pub fn cut(&self, weight: u32) -> u32
        ensures { result ≡ min weight self.now.limit }
    {
        weight.min(self.limit)
    }

    /// The first slot that no test holds.
    fn free_slot(&self) -> usize
        requires { free_in self.now < length self.now.holders }
        ensures { result ≡ free_in self.now }
    {
        self.free.first_within(0)
    }

    /// A test takes the first free slot, and its weight of the limit.
    pub fn take(&mut self, test: u32, weight: u32) -> u32
        requires { CanTake self.old weight }
        ensures slot { result ≡ free_in self.old }
        ensures after { self.new ≡ take_of self.old test weight }
    {
        let slot = self.free_slot();
        self.holders[slot] = Some(test);
        self.free.set(slot, NONE);
        self.used += weight.min(self.limit);
        slot as u32
    }

    /// A test gives its slot and its weight back.
    pub fn give_back(&mut self, slot: u32, weight: u32)
        requires { CanGive self.old slot weight }
        ensures { self.new ≡ give_back self.old slot weight }
    {
        self.holders[slot as usize] = None;
        self.free.set(slot as usize, 0);
        self.used -= weight.min(self.limit);
    }
}
