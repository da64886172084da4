// How the lines after a run are written.
ghost use Rattle.std.specs.Prelude.{◌≡◌, ◌++◌, ◌∷◌, [], List, ℕ, OnErr, OnOk};
ghost use Rattle.run_capture.specs.Bytes.{Takes};
ghost use Rattle.run_output.specs.Fields.{line_bytes};
ghost use Rattle.run_output.specs.Outcomes.{outcome_text};
ghost use Rattle.run_output.specs.Faults.{fault_text};
ghost use Rattle.run_cli.specs.Call.{TakesFront};
ghost use Rattle.run_cli.specs.Write.{CountsWrite};

use run_capture::{Failed, Mem, OutOfMemory, Sink, Text, write_all};
use run_events::RunOutcome;
use run_output::{Fault, fault_line, outcome_line, with_line_feed};
use std::alloc::Global;

/// Why a line wasn't written whole.
#[derive(Clone, Copy, Debug, Drop, PartialEq, Eq)]
pub enum WriteError {
    /// The sink failed. Its count of faults rose.
    Failed,
    /// Memory was wanting.
    OutOfMemory,
}

impl From<OutOfMemory> for WriteError {
    ghost use Rattle.std.specs.Prelude.{◌≡◌};
    ghost use Rattle.run_cli.specs.declared.write.WriteError.TheVariants as errors;

    ghost from_gives = { λ _ e. e ≡ errors.OutOfMemory };

    fn from(_: OutOfMemory) -> Self {
        WriteError::OutOfMemory
    }
}

impl From<Failed> for WriteError {
    ghost use Rattle.std.specs.Prelude.{◌≡◌};
    ghost use Rattle.run_cli.specs.declared.write.WriteError.TheVariants as errors;

    ghost from_gives = { λ _ e. e ≡ errors.Failed };

    fn from(_: Failed) -> Self {
        WriteError::Failed
    }
}

/// Writes a line.
pub fn write_line<K: Sink>(alloc: Global, sink: &mut K, line: Text) -> Result<(), WriteError>
    ensures ok { OnOk result (Takes (K.taken sink.old) (K.taken sink.new) (line_bytes line)) }
    ensures front { OnErr result (TakesFront (K.taken sink.old) (K.taken sink.new)
        (line_bytes line)) }
    ensures counted { CountsWrite (K.faults sink.old) (K.faults sink.new) result }
{
    let line = with_line_feed(alloc, line)?;
    write_all(sink, line.as_bytes())?;
    Ok(())
}

/// Writes these lines of asks, and then a last line.
pub fn write_rest<K: Sink>(
    alloc: Global,
    sink: &mut K,
    asks: &[u8],
    last: Text,
) -> Result<(), WriteError>
    ensures ok { OnOk result (Takes (K.taken sink.old) (K.taken sink.new)
        (asks.now ++ line_bytes last)) }
    ensures front { OnErr result
        (TakesFront (K.taken sink.old) (K.taken sink.new) (asks.now ++ line_bytes last)) }
    ensures counted { CountsWrite (K.faults sink.old) (K.faults sink.new) result }
{
    write_all(sink, asks)?;
    write_line(alloc, sink, last)
}

/// Writes these lines of asks and that of an outcome.
pub fn write_outcome<K: Sink>(
    alloc: Global,
    sink: &mut K,
    asks: &[u8],
    outcome: RunOutcome,
) -> Result<(), WriteError>
    ensures ok { OnOk result (Takes (K.taken sink.old) (K.taken sink.new)
        (asks.now ++ line_bytes (outcome_text outcome))) }
    ensures front { OnErr result (TakesFront (K.taken sink.old) (K.taken sink.new)
        (asks.now ++ line_bytes (outcome_text outcome))) }
    ensures counted { CountsWrite (K.faults sink.old) (K.faults sink.new) result }
{
    let last = outcome_line(alloc, outcome)?;
    write_rest(alloc, sink, asks, last)
}

/// Writes these lines of asks and that of a fault.
pub fn write_fault<K: Sink>(
    alloc: Global,
    sink: &mut K,
    asks: &[u8],
    fault: Fault,
) -> Result<(), WriteError>
    ensures ok { OnOk result (Takes (K.taken sink.old) (K.taken sink.new)
        (asks.now ++ line_bytes (fault_text fault))) }
    ensures front { OnErr result (TakesFront (K.taken sink.old) (K.taken sink.new)
        (asks.now ++ line_bytes (fault_text fault))) }
    ensures counted { CountsWrite (K.faults sink.old) (K.faults sink.new) result }
{
    let last = fault_line(alloc, fault)?;
    write_rest(alloc, sink, asks, last)
}
