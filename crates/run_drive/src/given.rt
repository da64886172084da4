// A list that is gone through once.
ghost use Rattle.std.specs.Prelude.{◌≡◌, ◌+◌, IfOk, OnErr, IsSome, IsNone, slice_get};

use run_capture::{Duplicate, List, Mem};
use std::alloc::Global;

/// Items that are given out from the front, each once.
#[derive(Drop)]
pub(crate) struct Given<T> {
    items: List<T>,
    at: usize,
}

impl<T> Given<T> {
    pub(crate) fn new(items: List<T>) -> Self
        ensures items { result.items ≡ items }
        ensures at { result.at ≡ 0 }
    {
        Given { items, at: 0 }
    }

    /// The same items, from the front again.
    pub(crate) fn again(self) -> Self
        ensures items { result.items ≡ self.items }
        ensures at { result.at ≡ 0 }
    {
        Given {
            items: self.items,
            at: 0,
        }
    }
}

impl<T: Duplicate> Given<T> {
    /// A copy of the next item; none past the end.
    #[tactic(auto, using(std::proofs::lemmas::Option::slice_get_read, std::proofs::lemmas::Option::slice_get_past))]
    pub(crate) fn next(&mut self, alloc: Global) -> Mem<Option<T>>
        ensures item { IfOk result (λ o. o ≡ slice_get self.old.items self.old.at) }
        ensures some { IfOk result (λ o. IsSome o → self.new.at ≡ self.old.at + 1) }
        ensures none { IfOk result (λ o. IsNone o → self.new.at ≡ self.old.at) }
        ensures err { OnErr result (self.new.at ≡ self.old.at) }
        ensures items { self.new.items ≡ self.old.items }
    {
        let items = self.items.as_slice();
        if self.at < items.len() {
            let copy = items[self.at].copy(alloc)?;
            self.at += 1;
            Ok(Some(copy))
        } else {
            Ok(None)
        }
    }
}
