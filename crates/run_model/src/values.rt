// Copies of plain values, which need no memory.
ghost use Rattle.std.specs.Prelude.{◌≡◌, IfOk};

use crate::{AttemptTerms, CancelRules, CapturedStreams, Facts, Phase, Tally};
use run_capture::{Duplicate, Mem};
use std::alloc::Global;

impl Duplicate for AttemptTerms {
    fn copy(&self, _alloc: Global) -> Mem<AttemptTerms> {
        Ok(*self)
    }
}

impl Duplicate for CancelRules {
    fn copy(&self, _alloc: Global) -> Mem<CancelRules> {
        Ok(*self)
    }
}

impl Duplicate for CapturedStreams {
    fn copy(&self, _alloc: Global) -> Mem<CapturedStreams> {
        Ok(*self)
    }
}

impl Duplicate for Facts {
    fn copy(&self, _alloc: Global) -> Mem<Facts> {
        Ok(*self)
    }
}

impl Duplicate for Phase {
    fn copy(&self, _alloc: Global) -> Mem<Phase> {
        Ok(*self)
    }
}

impl Duplicate for Tally {
    fn copy(&self, _alloc: Global) -> Mem<Tally> {
        Ok(*self)
    }
}
