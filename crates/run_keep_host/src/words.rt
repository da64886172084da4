// The words of a child that are offered.
ghost use Rattle.std.specs.Prelude.{◌≡◌, IfOk, Some, None};
ghost use Rattle.run_keep_host.specs.Offered.{offered};

use run_capture::{Duplicate, Mem};
use run_drive::Said;
use std::alloc::Global;

/// What a child said, and what is offered of it until it is accepted: one word of its streams, and one of its end.
pub(crate) struct Words {
    written: Option<Said>,
    end: Option<Said>,
    /// Whether the word of its end was offered last.
    offers_end: bool,
}

// A call of its own, which keeps the proofs of all that hold one small.
impl Drop for Words {
    fn drop(self) {
        let Words {
            written: _,
            end: _,
            offers_end: _,
        } = self;
    }
}

/// Whether a word tells that a child has ended, or can't be waited for.
pub(crate) fn is_end(said: &Said) -> bool {
    matches!(said, Said::Exit { .. } | Said::WaitFailed { .. })
}

// A copy of a word.
fn copy_of(alloc: Global, word: &Option<Said>) -> Mem<Option<Said>>
    ensures { IfOk result (λ o. o ≡ word.now) }
{
    match word {
        Some(said) => Ok(Some(said.copy(alloc)?)),
        None => Ok(None),
    }
}

impl Words {
    /// No word.
    pub fn new() -> Words
        ensures { offered result ≡ None }
    {
        Words {
            written: None,
            end: None,
            offers_end: false,
        }
    }

    /// The word that is offered again: with `reads` the one of its streams first.
    pub fn again(&mut self, alloc: Global, reads: bool) -> Mem<Option<Said>>
        ensures offered { IfOk result (λ o. offered self.new ≡ o) }
        ensures written { self.new.written ≡ self.old.written }
        ensures end { self.new.end ≡ self.old.end }
    {
        self.offers_end = !reads || self.written.is_none();
        if self.offers_end {
            copy_of(alloc, &self.end)
        } else {
            copy_of(alloc, &self.written)
        }
    }

    /// Keeps a new word, and offers it.
    pub fn add(&mut self, alloc: Global, said: Said) -> Mem<Option<Said>>
        ensures same { IfOk result (λ o. o ≡ Some said) }
        ensures offered { IfOk result (λ o. offered self.new ≡ o) }
    {
        let copy = said.copy(alloc)?;
        self.offers_end = is_end(&said);
        if self.offers_end {
            self.end = Some(said);
        } else {
            self.written = Some(said);
        }
        Ok(Some(copy))
    }

    /// The word that is offered was accepted.
    pub fn accept(&mut self)
        ensures { offered self.new ≡ None }
    {
        if self.offers_end {
            self.end = None;
        } else {
            self.written = None;
        }
    }
}
