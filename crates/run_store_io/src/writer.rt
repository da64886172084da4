// Writing a store.
use crate::StoreError;
use crate::awaiting::END;
use crate::written::{write_front, write_record, write_turn};
use run_capture::Sink;
use run_events::Turn;
use std::alloc::Global;

/// Writes a store: the plan line first, then turns as they come, and the last record where it is finished.
#[derive(Drop)]
pub struct StoreWriter<K: Sink> {
    sink: K,
    turns: u32,
    closed: bool,
}

impl<K: Sink> StoreWriter<K> {
    ghost use Rattle.std.specs.Prelude.{◌≡◌, ◌↔◌, ◌∷◌, ◌++◌, [], ℕ, List, Option, length, IfOk, IfErr, OnOk};
    ghost use Rattle.std.specs.Prelude.{Err, true, is_err};
    ghost use Rattle.run_capture.specs.Bytes.{Takes};
    ghost use Rattle.run_capture.specs.Faults.{RoseExactlyIf};
    ghost use Rattle.run_events.specs.declared.turn.Turn.{Turn as TurnValue};
    ghost use Rattle.run_store.specs.Stores.{front, store_text, is_plan_payload};
    ghost use Rattle.run_store_io.specs.Taken.{TakesPart, turns_tried, HasRoom, is_turn_error, is_write};
    ghost use Rattle.run_store_io.specs.Written.{IsOpen, IsShut, is_closed, IsFinishError, begun_faults, ended_faults};
    ghost use Rattle.run_store_io.specs.Written.{is_end_write};
    ghost use Rattle.run_store_io.specs.declared.error.StoreError.TheVariants.{Write, Closed, TooLong};

    /// Begins a store with a plan line, which `is_plan_payload` accepts: writes the header and its record. An error is
    /// `Write`, with the sink.
    pub fn begin(sink: K, plan_line: &[u8]) -> Result<StoreWriter<K>, (StoreError, K)>
        requires { is_plan_payload plan_line.now ≡ true }
        ensures ok { IfOk result (λ w. IsOpen K.Sink (K.taken sink) plan_line.now [] w) }
        ensures err { IfErr result (λ e. (e.0 ≡ Write)
            × TakesPart (K.taken sink) (K.taken e.1) (front plan_line.now [])) }
        ensures fault { RoseExactlyIf (is_err result) (K.faults sink) (begun_faults K.Sink result) }
    {
        let mut sink = sink;
        match write_front(&mut sink, plan_line) {
            Ok(()) => Ok(StoreWriter {
                sink,
                turns: 0,
                closed: false,
            }),
            Err(_) => Err((StoreError::Write, sink)),
        }
    }

    /// Adds a turn: writes its record.
    ///
    /// `Closed` says that an earlier turn was refused, `TooLong` that the turn's line has more than 16,777,216 bytes or
    /// the store 2^32 - 1 turns, `Write` that the sink failed, which may have taken a front part of the record. After
    /// an error nothing more is written.
    pub fn turn(&mut self, alloc: Global, turn: &Turn) -> Result<(), StoreError>
        ensures ok { OnOk result ((start : Option (List ℕ)) (plan : List ℕ) (turns : List TurnValue)
            → IsOpen K.Sink start plan turns self.old
            → IsOpen K.Sink start plan (turns ++ turn.now ∷ []) self.new) }
        ensures err { IfErr result (λ e. (start : Option (List ℕ)) (plan : List ℕ) (turns : List TurnValue)
            → IsOpen K.Sink start plan turns self.old
            → IsShut K.Sink start plan (turns_tried e turns turn.now) self.new) }
        ensures stays { (start : Option (List ℕ)) (plan : List ℕ) (turns : List TurnValue)
            → IsShut K.Sink start plan turns self.old → IsShut K.Sink start plan turns self.new }
        ensures known { IfErr result (λ e. is_turn_error e ≡ true) }
        ensures closed { (result ≡ Err Closed) ↔ (is_closed self.old ≡ true) }
        ensures closes { is_closed self.new ≡ is_err result }
        ensures too_long { (start : Option (List ℕ)) (plan : List ℕ) (turns : List TurnValue)
            → IsOpen K.Sink start plan turns self.old → result ≡ Err TooLong
            → ¬ HasRoom (length turns) turn.now }
        ensures fault { RoseExactlyIf (is_write result) (K.faults self.old.sink) (K.faults self.new.sink) }
    {
        if self.closed {
            return Err(StoreError::Closed);
        }
        match write_turn(alloc, &mut self.sink, self.turns, turn) {
            Ok(()) => {
                self.turns += 1;
                Ok(())
            }
            Err(error) => {
                self.closed = true;
                Err(error)
            }
        }
    }

    /// Hands back the sink, and writes nothing more.
    pub fn into_sink(self) -> K
        ensures { result ≡ self.sink }
    {
        let StoreWriter {
            sink,
            turns: _,
            closed: _,
        } = self;
        sink
    }

    /// Ends the store: writes the last record, and hands back the sink.
    ///
    /// `Closed` says that a turn was refused, and then nothing is written; `Write` that the sink failed.
    pub fn finish(self) -> Result<K, (StoreError, K)>
        ensures ok { IfOk result (λ k. (start : Option (List ℕ)) (plan : List ℕ) (turns : List TurnValue)
            → IsOpen K.Sink start plan turns self → Takes start (K.taken k) (store_text plan turns)) }
        ensures err { IfErr result (λ e. IsFinishError (is_closed self) e.0
            × ((start : Option (List ℕ)) (plan : List ℕ) (turns : List TurnValue)
            → IsOpen K.Sink start plan turns self → TakesPart start (K.taken e.1) (store_text plan turns))) }
        ensures stays { IfErr result (λ e. is_closed self ≡ true → e.1 ≡ self.sink) }
        ensures closed { is_closed self ≡ true → is_err result ≡ true }
        ensures fault { RoseExactlyIf (is_end_write result) (K.faults self.sink) (ended_faults K.Sink result) }
    {
        let StoreWriter {
            sink,
            turns,
            closed,
        } = self;
        let mut sink = sink;
        if closed {
            return Err((StoreError::Closed, sink));
        }
        let count = turns.to_be_bytes();
        match write_record(&mut sink, END, count.as_slice()) {
            Ok(()) => Ok(sink),
            Err(_) => Err((StoreError::Write, sink)),
        }
    }
}
