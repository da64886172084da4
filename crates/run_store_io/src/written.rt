// Writing records.
ghost use Rattle.std.specs.Prelude.{◌<◌, ◌^◌, [], length, OnOk, OnErr};
ghost use Rattle.run_capture.specs.Bytes.{Takes};
ghost use Rattle.run_capture.specs.Faults.{CountsFault, RoseExactlyIf};
ghost use Rattle.run_store.specs.Records.{framed};
ghost use Rattle.run_store.specs.Stores.{front};
ghost use Rattle.run_store_io.specs.Taken.{TakesPart, IsTurnWritten, is_write};

use crate::StoreError;
use crate::awaiting::{PLAN, TURN};
use crate::record::MOST_BYTES;
use crate::stored::HEADER;
use run_capture::{Failed, Sink, write_all};
use run_events::Turn;
use run_output::turn_line;
use run_turn_laws::known_turn;
use std::alloc::Global;

/// Writes a record.
pub fn write_record<K: Sink>(sink: &mut K, kind: u8, payload: &[u8]) -> Result<(), Failed>
    requires { length payload.now < 2 ^ 32 }
    ensures ok { OnOk result (Takes (K.taken sink.old) (K.taken sink.new) (framed kind payload.now)) }
    ensures err { OnErr result (TakesPart (K.taken sink.old) (K.taken sink.new)
        (framed kind payload.now)) }
    ensures fault { CountsFault (K.faults sink.old) (K.faults sink.new) result }
{
    let [a, b, c, d] = (payload.len() as u32).to_be_bytes();
    write_all(sink, &[kind, a, b, c, d])?;
    write_all(sink, payload)
}

/// Writes the header and the record of a plan line.
pub fn write_front<K: Sink>(sink: &mut K, plan_line: &[u8]) -> Result<(), Failed>
    requires { length plan_line.now < 2 ^ 32 }
    ensures ok { OnOk result (Takes (K.taken sink.old) (K.taken sink.new) (front plan_line.now [])) }
    ensures err { OnErr result (TakesPart (K.taken sink.old) (K.taken sink.new)
        (front plan_line.now [])) }
    ensures fault { CountsFault (K.faults sink.old) (K.faults sink.new) result }
{
    write_all(sink, HEADER)?;
    write_record(sink, PLAN, plan_line)
}

/// Writes the record of one more turn after so many.
pub fn write_turn<K: Sink>(
    alloc: Global,
    sink: &mut K,
    turns: u32,
    turn: &Turn,
) -> Result<(), StoreError>
    ensures says { IsTurnWritten (K.taken sink.old) (K.taken sink.new) turns turn.now result }
    ensures fault { RoseExactlyIf (is_write result) (K.faults sink.old) (K.faults sink.new) }
{
    if turns == u32::MAX {
        return Err(StoreError::TooLong);
    }
    let line = turn_line(alloc, turn)?;
    if line.len() > MOST_BYTES {
        return Err(StoreError::TooLong);
    }
    known_turn(turn);
    write_record(sink, TURN, line.as_bytes())?;
    Ok(())
}
