// The store of a run, from its plan line to its end.
ghost use Rattle.std.specs.Prelude.{◌≡◌, ◌∷◌, ◌++◌, [], ℕ, List, Option, None, Ok as AnOk, false, true};
ghost use Rattle.run_events.specs.declared.turn.Turn.{Turn as TurnValue};
ghost use Rattle.run_store.specs.Stores.{is_plan_payload};
ghost use Rattle.run_store_io.specs.Written.{IsOpen, is_closed, sink_of};
ghost use Rattle.run_record.specs.Kept.{IsUnderway, outcome_for, writing_since};
ghost use Rattle.run_record.specs.Recorded.{IsRunRecord};

use crate::RecordOutcome;
use run_capture::{OutOfMemory, Sink};
use run_events::Turn;
use run_store_io::{StoreError, StoreWriter, is_plan_payload};
use std::alloc::Global;

// A store that was begun, or why there is none, with its sink.
pub(crate) type Begun<F> = Result<StoreWriter<F>, (RecordOutcome, F)>;

// What becomes of a record, by why its store wasn't written.
fn outcome_for(error: StoreError) -> RecordOutcome
    ensures { result ≡ outcome_for error }
{
    match error {
        StoreError::Write => RecordOutcome::Unwritten,
        StoreError::TooLong => RecordOutcome::Unstorable,
        _ => RecordOutcome::NoMemory,
    }
}

// Begins a store with its plan line.
fn begin_with<F: Sink>(line: &[u8], sink: F) -> Begun<F>
    requires { is_plan_payload line.now ≡ true }
    ensures { IsUnderway F.Sink (F.taken sink) (F.faults sink) line.now result [] None }
{
    match StoreWriter::begin(sink, line) {
        Ok(writer) => Ok(writer),
        Err((_, sink)) => Err((RecordOutcome::Unwritten, sink)),
    }
}

// Begins the store of a run, if its line is a plan line.
pub(crate) fn begin<F: Sink>(alloc: Global, line: &[u8], sink: F) -> Begun<F>
    ensures { IsUnderway F.Sink (F.taken sink) (F.faults sink) line.now result [] None }
{
    match is_plan_payload(alloc, line) {
        Ok(true) => begin_with(line, sink),
        Ok(false) => Err((RecordOutcome::Planless, sink)),
        Err(OutOfMemory) => Err((RecordOutcome::NoMemory, sink)),
    }
}

// Adds a turn to a store, or says what becomes of the record.
fn add_turn<F: Sink>(
    alloc: Global,
    writer: &mut StoreWriter<F>,
    turn: &Turn,
) -> Option<RecordOutcome>
    ensures { (taken : Option (List ℕ)) (faults : ℕ) (line : List ℕ) (turns : List TurnValue)
        → IsUnderway F.Sink taken faults line (AnOk writer.old) turns None
        → IsUnderway F.Sink taken faults line (AnOk writer.new) (turns ++ turn.now ∷ []) result }
{
    match writer.turn(alloc, turn) {
        Ok(()) => None,
        Err(error) => Some(outcome_for(error)),
    }
}

// Adds a turn to a store that was begun and isn't given up, and answers whether it is given up then.
pub(crate) fn add_to<F: Sink>(
    alloc: Global,
    begun: &mut Begun<F>,
    given_up: Option<RecordOutcome>,
    turn: &Turn,
) -> Option<RecordOutcome>
    ensures { (taken : Option (List ℕ)) (faults : ℕ) (line : List ℕ) (turns : List TurnValue)
        → IsUnderway F.Sink taken faults line begun.old turns given_up
        → IsUnderway F.Sink taken faults line begun.new (turns ++ turn.now ∷ []) result }
{
    match given_up {
        Some(_) => given_up,
        None => match begun {
            Ok(writer) => add_turn(alloc, writer, turn),
            Err(_) => None,
        },
    }
}

// Ends a store, where the run is over.
pub(crate) fn end<F: Sink>(writer: StoreWriter<F>, over: bool) -> (RecordOutcome, F)
    requires { is_closed writer ≡ false }
    ensures { (taken : Option (List ℕ)) (faults : ℕ) (line : List ℕ) (turns : List TurnValue)
        → IsOpen F.Sink taken line turns writer → F.faults (sink_of writer) ≡ faults
        → IsRunRecord over line turns (writing_since F.Sink taken faults result.1) result.0 }
{
    if !over {
        return (RecordOutcome::Recorded, writer.into_sink());
    }
    match writer.finish() {
        Ok(sink) => (RecordOutcome::Recorded, sink),
        Err((_, sink)) => (RecordOutcome::Unwritten, sink),
    }
}
