// Recording an input.
ghost use Rattle.std.specs.Prelude.{◌≡◌, ◌≤◌, ◌^◌, length};
ghost use Rattle.run_cli.specs.Call.{Reading, reading_of, writing_of};
ghost use Rattle.run_cli.specs.Given.{IsAllOf};
ghost use Rattle.run_store_cli.specs.Causes.{GetsRecorded};
ghost use Rattle.run_store_cli.specs.Records.{RecordsSo, store_error_status};

use crate::ends::end_at;
use run_capture::{Sink, Source};
use run_cli::Ran;
use run_input::{ReadAllError, read_all};
use run_output::Fault;
use run_store_io::{RecordError, StoreError, record_input};
use std::alloc::Global;

// The status of a store that wasn't written whole.
fn status_of_error(error: StoreError) -> u8
    ensures { result ≡ store_error_status error }
{
    match error {
        StoreError::Write => 9,
        StoreError::TooLong => 12,
        _ => 11,
    }
}

// Writes the store of an input.
fn record_bytes<K: Sink>(alloc: Global, bytes: &[u8], sink: K) -> Ran<K>
    requires { length bytes.now ≤ 2 ^ 24 }
    ensures { (r : Reading) → IsAllOf r bytes.now → r.faults_after ≡ r.faults
        → RecordsSo r (writing_of K.Sink sink result.sink) result.status }
{
    match record_input(alloc, bytes, sink) {
        Ok(sink) => Ran { status: 0, sink },
        Err((RecordError::Line { line }, sink)) => end_at(alloc, sink, Fault::Line { line }),
        Err((RecordError::Store(error), sink)) => Ran {
            status: status_of_error(error),
            sink,
        },
    }
}

// Reads the input of a replay, and writes its store.
fn record_source<S: Source, K: Sink>(alloc: Global, source: &mut S, sink: K) -> Ran<K>
    ensures { RecordsSo (reading_of S.Source source.old source.new)
        (writing_of K.Sink sink result.sink) result.status }
{
    match read_all(alloc, source) {
        Ok(bytes) => record_bytes(alloc, bytes.as_slice(), sink),
        Err(ReadAllError::Failed) => end_at(alloc, sink, Fault::Read),
        Err(ReadAllError::TooLong) => end_at(alloc, sink, Fault::TooLong),
        Err(ReadAllError::OutOfMemory) => end_at(alloc, sink, Fault::Memory),
    }
}

/// Reads the input of a replay, and writes its store: status 0. Nothing is run, and the plan isn't looked at.
///
/// Statuses 3, 9, 10, 11 and 12 are those of a replay. 12 is also that of turns that no store can have. After 9, 11 and
/// this 12 the sink may have taken a front part of the store, which is read as a torn one.
pub fn record<S: Source, K: Sink>(alloc: Global, source: &mut S, sink: K) -> Ran<K>
    ensures says { RecordsSo (reading_of S.Source source.old source.new)
        (writing_of K.Sink sink result.sink) result.status }
    ensures causes { GetsRecorded (reading_of S.Source source.old source.new)
        (writing_of K.Sink sink result.sink) result.status }
{
    record_source(alloc, source, sink)
}
