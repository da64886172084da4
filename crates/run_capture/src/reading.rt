// All bytes of a source.
ghost use Rattle.std.specs.Prelude.{◌≡◌, ◌≤◌, ℕ, List, length, IfOk, IfErr};
ghost use Rattle.run_capture.specs.Bytes.{Gives, AtEnd};
ghost use Rattle.run_capture.specs.Faults.{RoseExactlyIf};
ghost use Rattle.run_capture.specs.Reading.{IsUnreadAfter, has_failed};

use crate::{Blob, Failed, OutOfMemory, Source};
use std::alloc::Global;
use thiserror::Error;

/// Why a source was not read to its end.
#[derive(Clone, Copy, Debug, Drop, PartialEq, Eq, Error)]
pub enum ReadError {
    /// The source failed.
    #[error("reading failed")]
    Failed,
    /// The source gave more bytes than the limit.
    #[error("there are more bytes than may be read")]
    TooLong,
    /// Memory was refused.
    #[error("out of memory")]
    OutOfMemory,
}

impl From<Failed> for ReadError {
    ghost use Rattle.std.specs.Prelude.{◌≡◌};
    ghost use Rattle.run_capture.specs.declared.reading.ReadError.TheVariants as errors;

    ghost from_gives = { λ _ e. e ≡ errors.Failed };

    fn from(_: Failed) -> Self {
        ReadError::Failed
    }
}

impl From<OutOfMemory> for ReadError {
    ghost use Rattle.std.specs.Prelude.{◌≡◌};
    ghost use Rattle.run_capture.specs.declared.reading.ReadError.TheVariants as errors;

    ghost from_gives = { λ _ e. e ≡ errors.OutOfMemory };

    fn from(_: OutOfMemory) -> Self {
        ReadError::OutOfMemory
    }
}

/// Reads a source to its end, where it gives no more bytes than a limit.
///
/// After an error the bytes that the source gave until then are lost.
pub fn read_to_end<S: Source>(
    alloc: Global,
    source: &mut S,
    limit: usize,
) -> Result<Blob, ReadError>
    ensures given { IfOk result (λ bytes. Gives (S.left source.old) (S.left source.new) bytes) }
    ensures end { IfOk result (λ bytes. AtEnd (S.left source.new)) }
    ensures within { IfOk result (λ bytes. length bytes ≤ limit) }
    ensures refused { IfErr result (λ e. (lost : List ℕ) × Gives (S.left source.old) (S.left source.new) lost
        × IsUnreadAfter limit e (length lost)) }
    ensures fault { RoseExactlyIf (has_failed result) (S.faults source.old) (S.faults source.new) }
{
    let mut bytes = Blob::new(alloc);
    let mut chunk = [0u8; 8192];
    'chunks: while bytes.len() <= limit {
        let count = source.read(&mut chunk)?;
        if count == 0 {
            return Ok(bytes);
        }
        bytes.extend_from_slice(alloc, &chunk[..count])?;
    }
    Err(ReadError::TooLong)
}
