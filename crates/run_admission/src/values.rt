// Copies of plain values, which need no memory.
ghost use Rattle.std.specs.Prelude.{◌≡◌, IfOk};

use crate::{Admitted, Candidate, Claim, Seat};
use run_capture::{Duplicate, Mem};
use std::alloc::Global;

impl Duplicate for Admitted {
    fn copy(&self, _alloc: Global) -> Mem<Admitted> {
        Ok(*self)
    }
}

impl Duplicate for Candidate {
    fn copy(&self, _alloc: Global) -> Mem<Candidate> {
        Ok(*self)
    }
}

impl Duplicate for Claim {
    fn copy(&self, _alloc: Global) -> Mem<Claim> {
        Ok(*self)
    }
}

impl Duplicate for Seat {
    fn copy(&self, _alloc: Global) -> Mem<Seat> {
        Ok(*self)
    }
}
