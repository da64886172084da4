// Reading a store from a source.
ghost use Rattle.run_capture.specs.Faults.{RoseExactlyIf};
ghost use Rattle.run_store_io.specs.Reads.{ReadsStore, source_failed};

use crate::StoreError;
use crate::stored::{Stored, read_stored};
use run_capture::{ReadError, Source, read_to_end};
use std::alloc::Global;

/// The most bytes that a store may have.
pub const STORE_LIMIT: usize = 33_554_432;

/// Reads a source to its end, as a store.
///
/// `Read` says that the source failed, `TooLong` that it gave more than `STORE_LIMIT` bytes; else its bytes are read as
/// `read_stored` reads them. After an error the bytes that the source gave are lost.
pub fn read_store<S: Source>(alloc: Global, source: &mut S) -> Result<Stored, StoreError>
    ensures says { ReadsStore (S.left source.old) (S.left source.new) result }
    ensures fault { RoseExactlyIf (source_failed result) (S.faults source.old) (S.faults source.new) }
{
    match read_to_end(alloc, source, STORE_LIMIT) {
        Ok(bytes) => read_stored(alloc, bytes.as_slice()),
        Err(ReadError::Failed) => Err(StoreError::Read),
        Err(ReadError::TooLong) => Err(StoreError::TooLong),
        Err(ReadError::OutOfMemory) => Err(StoreError::OutOfMemory),
    }
}
