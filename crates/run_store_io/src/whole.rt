// Writing a store at once.
ghost use Rattle.std.specs.Prelude.{◌≡◌, [], ℕ, List, Option, true, false, IfOk, IfErr, OnOk};
ghost use Rattle.run_capture.specs.Bytes.{Takes};
ghost use Rattle.run_capture.specs.Faults.{RoseExactlyIf};
ghost use Rattle.run_store.specs.Stores.{store_text, is_plan_payload, IsStorable};
ghost use Rattle.run_store_io.specs.Taken.{TakesPart, is_write};
ghost use Rattle.run_store_io.specs.Written.{IsOpen, IsStoreError, is_closed, sink_of, ended_faults, is_end_write};

use crate::{StoreError, StoreWriter};
use run_capture::Sink;
use run_events::Turn;
use std::alloc::Global;

// Adds turns to a store that has none, up to the first that is refused.
fn add_turns<K: Sink>(
    alloc: Global,
    writer: &mut StoreWriter<K>,
    turns: &[Turn],
) -> Result<(), StoreError>
    requires { is_closed writer.old ≡ false }
    ensures ok { OnOk result ((start : Option (List ℕ)) (plan : List ℕ)
        → IsOpen K.Sink start plan [] writer.old → IsOpen K.Sink start plan turns.now writer.new) }
    ensures unclosed { OnOk result (is_closed writer.new ≡ false) }
    ensures err { IfErr result (λ e. (start : Option (List ℕ)) (plan : List ℕ)
        → IsOpen K.Sink start plan [] writer.old → IsStoreError plan turns.now e
        × TakesPart start (K.taken (sink_of writer.new)) (store_text plan turns.now)) }
    ensures fault { RoseExactlyIf (is_write result) (K.faults (sink_of writer.old))
        (K.faults (sink_of writer.new)) }
{
    for turn in turns {
        match writer.turn(alloc, turn) {
            Ok(()) => {}
            Err(error) => return Err(error),
        }
    }
    Ok(())
}

// Adds turns to a store that has none, and ends it.
fn write_rest<K: Sink>(
    alloc: Global,
    writer: StoreWriter<K>,
    turns: &[Turn],
) -> Result<K, (StoreError, K)>
    requires { is_closed writer ≡ false }
    ensures ok { IfOk result (λ k. (start : Option (List ℕ)) (plan : List ℕ)
        → IsOpen K.Sink start plan [] writer → IsStorable plan turns.now
        × Takes start (K.taken k) (store_text plan turns.now)) }
    ensures err { IfErr result (λ e. (start : Option (List ℕ)) (plan : List ℕ)
        → IsOpen K.Sink start plan [] writer → IsStoreError plan turns.now e.0
        × TakesPart start (K.taken e.1) (store_text plan turns.now)) }
    ensures fault { RoseExactlyIf (is_end_write result) (K.faults (sink_of writer))
        (ended_faults K.Sink result) }
{
    let mut writer = writer;
    match add_turns(alloc, &mut writer, turns) {
        Ok(()) => writer.finish(),
        Err(error) => Err((error, writer.into_sink())),
    }
}

/// Writes a store of a plan line, which `is_plan_payload` accepts, and these turns, and hands back the sink.
///
/// `TooLong` says that no store can have these turns: one of them has a line of more than 16,777,216 bytes, or they are
/// 2^32 or more. `Write` says that the sink failed. After an error the sink has taken a front part of the store text,
/// and not all.
pub fn write_store<K: Sink>(
    alloc: Global,
    sink: K,
    plan_line: &[u8],
    turns: &[Turn],
) -> Result<K, (StoreError, K)>
    requires { is_plan_payload plan_line.now ≡ true }
    ensures ok { IfOk result (λ k. IsStorable plan_line.now turns.now
        × Takes (K.taken sink) (K.taken k) (store_text plan_line.now turns.now)) }
    ensures err { IfErr result (λ e. IsStoreError plan_line.now turns.now e.0
        × TakesPart (K.taken sink) (K.taken e.1) (store_text plan_line.now turns.now)) }
    ensures fault { RoseExactlyIf (is_end_write result) (K.faults sink) (ended_faults K.Sink result) }
{
    match StoreWriter::begin(sink, plan_line) {
        Ok(writer) => write_rest(alloc, writer, turns),
        Err(refused) => Err(refused),
    }
}
