// All bytes of a run's input.
ghost use Rattle.std.specs.Prelude.{◌≡◌, ◌≤◌, ℕ, List, length, IfOk, IfErr};
ghost use Rattle.run_capture.specs.Bytes.{Gives, AtEnd};
ghost use Rattle.run_capture.specs.Faults.{RoseExactlyIf};
ghost use Rattle.run_capture.specs.Reading.{IsUnreadAfter, has_failed};

use crate::ReadAllError;
use run_capture::{Blob, Source, read_to_end};
use std::alloc::Global;

/// The most bytes that an input may have.
pub const INPUT_LIMIT: usize = 16_777_216;

/// Reads a source to its end, where it gives no more than `INPUT_LIMIT` bytes.
///
/// After an error the bytes that the source gave until then are lost.
pub fn read_all<S: Source>(alloc: Global, source: &mut S) -> Result<Blob, ReadAllError>
    ensures given { IfOk result (λ bytes. Gives (S.left source.old) (S.left source.new) bytes) }
    ensures end { IfOk result (λ bytes. AtEnd (S.left source.new)) }
    ensures within { IfOk result (λ bytes. length bytes ≤ INPUT_LIMIT) }
    ensures refused { IfErr result (λ e. (lost : List ℕ) × Gives (S.left source.old) (S.left source.new) lost
        × IsUnreadAfter INPUT_LIMIT e (length lost)) }
    ensures fault { RoseExactlyIf (has_failed result) (S.faults source.old) (S.faults source.new) }
{
    read_to_end(alloc, source, INPUT_LIMIT)
}
