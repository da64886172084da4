// Why a store was not written or read.
use run_capture::{Failed, OutOfMemory};
use thiserror::Error;

/// Why a store was not written or read.
#[derive(Clone, Copy, Debug, Drop, PartialEq, Eq, Error)]
pub enum StoreError {
    /// The sink failed.
    #[error("writing failed")]
    Write,
    /// An earlier turn was refused, and the writer takes no more.
    #[error("the writer is closed")]
    Closed,
    /// The source failed.
    #[error("reading failed")]
    Read,
    /// The source gave more bytes than a store may have; or a turn's line is longer than a record may be, or the store
    /// has as many turns as it may.
    #[error("there is more than a store may have")]
    TooLong,
    /// The first record that no store has there, counted from 0. The header is part of record 0.
    #[error("record {place} is in no store")]
    Bad { place: u64 },
    /// The bytes end before the record of the plan line does.
    #[error("the store has no plan")]
    NoPlan,
    /// Memory was refused.
    #[error("out of memory")]
    OutOfMemory,
}

impl From<OutOfMemory> for StoreError {
    ghost use Rattle.std.specs.Prelude.{◌≡◌};
    ghost use Rattle.run_store_io.specs.declared.error.StoreError.TheVariants as errors;

    ghost from_gives = { λ _ e. e ≡ errors.OutOfMemory };

    fn from(_: OutOfMemory) -> Self {
        StoreError::OutOfMemory
    }
}

impl From<Failed> for StoreError {
    ghost use Rattle.std.specs.Prelude.{◌≡◌};
    ghost use Rattle.run_store_io.specs.declared.error.StoreError.TheVariants as errors;

    ghost from_gives = { λ _ e. e ≡ errors.Write };

    fn from(_: Failed) -> Self {
        StoreError::Write
    }
}
