// What can be wrong with a word.

use run_capture::OutOfMemory;
use std::alloc::AllocError;

/// What is wrong with a word.
#[derive(Clone, Copy, Drop)]
pub enum WordFault {
    /// No word is so.
    Unknown,
    /// A value is to follow it.
    NoValue,
    /// It has no value.
    HasValue,
    /// It is no value of its setting.
    BadValue,
    /// Its setting was said before.
    Twice,
}

/// Why words choose nothing.
#[derive(Clone, Copy, Drop)]
pub enum WordError {
    /// The first word that is wrong, from 0; the number of words where a value is missing at their end.
    Wrong { place: usize, fault: WordFault },
    OutOfMemory,
}

/// Why a word is not taken.
#[derive(Clone, Copy, Drop)]
pub(crate) enum Untaken {
    Fault(WordFault),
    OutOfMemory,
}

impl From<OutOfMemory> for Untaken {
    ghost use Rattle.std.specs.Prelude.{◌≡◌};
    ghost use Rattle.run_plan.specs.declared.word_fault.Untaken.TheVariants as untaken;

    ghost from_gives = { λ _ e. e ≡ untaken.OutOfMemory };

    fn from(_: OutOfMemory) -> Self {
        Untaken::OutOfMemory
    }
}

impl From<AllocError> for Untaken {
    ghost use Rattle.std.specs.Prelude.{◌≡◌};
    ghost use Rattle.run_plan.specs.declared.word_fault.Untaken.TheVariants as untaken;

    ghost from_gives = { λ _ e. e ≡ untaken.OutOfMemory };

    fn from(_: AllocError) -> Self {
        Untaken::OutOfMemory
    }
}
