// Recording an input.
ghost use Rattle.std.specs.Prelude.{◌≡◌, ◌<◌, ◌≤◌, ◌^◌, ◌∷◌, ℕ, List, length, IfOk, IfErr};
ghost use Rattle.run_capture.specs.Faults.{RoseExactlyIf};
ghost use Rattle.run_input.specs.Lines.{lines_of};
ghost use Rattle.run_input.specs.Input.{IsInput};
ghost use Rattle.run_store_io.specs.Recorded.{HasRecorded, IsRecordError, is_record_write, recorded_faults};

use crate::{StoreError, write_store};
use run_capture::Sink;
use run_input::{Input, InputError, read_input, split_line};
use std::alloc::Global;

/// Why an input was not recorded.
#[derive(Clone, Copy, Debug, Drop)]
pub enum RecordError {
    /// The first line that is not in its table, counted from 1. An input with no line has the bad line 1.
    Line { line: u64 },
    /// The store was not written.
    Store(StoreError),
}

// The first line of some bytes, without its end.
fn first_line(bytes: &[u8]) -> &[u8]
    requires { 0 < length bytes.now }
    ensures { (others : List (List ℕ)) × (lines_of bytes.now ≡ result.now ∷ others) }
{
    split_line(bytes).0
}

// Writes the store of what an input says.
fn record_said<K: Sink>(
    alloc: Global,
    bytes: &[u8],
    input: Input,
    sink: K,
) -> Result<K, (RecordError, K)>
    requires says { IsInput (lines_of bytes.now) input.keys input.plan input.turns }
    requires within { length bytes.now ≤ 2 ^ 24 }
    ensures ok { IfOk result (λ k. HasRecorded bytes.now (K.taken sink) (K.taken k)) }
    ensures err { IfErr result (λ e. IsRecordError bytes.now (K.taken sink) (K.taken e.1) e.0) }
    ensures fault { RoseExactlyIf (is_record_write result) (K.faults sink) (recorded_faults K.Sink result) }
{
    let Input { keys, plan, turns } = input;
    drop(keys);
    drop(plan);
    match write_store(alloc, sink, first_line(bytes), turns.as_slice()) {
        Ok(sink) => Ok(sink),
        Err((error, sink)) => Err((RecordError::Store(error), sink)),
    }
}

/// Records an input of at most 16,777,216 bytes, a plan line and turn lines: writes the store of them, and hands back
/// the sink. Nothing is run, and the plan line is kept byte by byte.
///
/// `Line` says that a line is bad, and then nothing is written. After another error the sink has taken a front part of
/// the store text, and not all.
pub fn record_input<K: Sink>(alloc: Global, bytes: &[u8], sink: K) -> Result<K, (RecordError, K)>
    requires { length bytes.now ≤ 2 ^ 24 }
    ensures ok { IfOk result (λ k. HasRecorded bytes.now (K.taken sink) (K.taken k)) }
    ensures err { IfErr result (λ e. IsRecordError bytes.now (K.taken sink) (K.taken e.1) e.0) }
    ensures fault { RoseExactlyIf (is_record_write result) (K.faults sink) (recorded_faults K.Sink result) }
{
    match read_input(alloc, bytes) {
        Ok(input) => record_said(alloc, bytes, input, sink),
        Err(InputError::Line { line }) => Err((RecordError::Line { line }, sink)),
        Err(InputError::OutOfMemory) => Err((RecordError::Store(StoreError::OutOfMemory), sink)),
    }
}
