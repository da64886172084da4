// Playing a store.
ghost use Rattle.std.specs.Prelude.{◌≡◌, ◌+◌, ◌<◌, ◌^◌, length, true};
ghost use Rattle.run_store.specs.Stores.{is_plan_payload};
ghost use Rattle.run_cli.specs.Call.{Reading, reading_of, writing_of};
ghost use Rattle.run_store_cli.specs.Causes.{GetsPlayed};
ghost use Rattle.run_store_cli.specs.Plays.{GivesStore, PlaysInput, PlaysRead, PlaysSo};

use crate::ends::{end_at, end_at_store};
use crate::torn::play_torn;
use run_capture::{Sink, Source};
use run_cli::{Command, Ended, Ran, replay_input, status_of_ending};
use run_input::{Input, read_plan_line};
use run_output::Fault;
use run_store_io::{StoreError, StoreFault, Stored, read_store};
use std::alloc::Global;

// Replays a plan and turns.
fn play_whole<K: Sink>(alloc: Global, input: Input, sink: K) -> Ran<K>
    requires units { length input.plan.scripts + length input.plan.tests < 2 ^ 32 }
    requires turns { length input.turns < 2 ^ 32 }
    ensures { PlaysInput input.keys input.plan input.turns (writing_of K.Sink sink result.sink) result.status }
{
    let Ended { ending, sink } = replay_input(alloc, Command::Replay, input, sink);
    Ran {
        status: status_of_ending(ending),
        sink,
    }
}

// Plays what a store has. Its plan line is one, so that only memory can be wanting for reading it.
fn play_stored<K: Sink>(alloc: Global, stored: Stored, sink: K) -> Ran<K>
    requires plan { is_plan_payload stored.plan ≡ true }
    requires turns { length stored.turns < 2 ^ 32 }
    ensures { (r : Reading) → GivesStore r stored
        → PlaysRead r (writing_of K.Sink sink result.sink) result.status }
{
    let Stored { plan, turns, whole } = stored;
    match read_plan_line(alloc, plan.as_slice()) {
        Ok((keys, plan)) if whole => play_whole(alloc, Input { keys, plan, turns }, sink),
        Ok((keys, plan)) => play_torn(alloc, Input { keys, plan, turns }, sink),
        Err(_) => end_at(alloc, sink, Fault::Memory),
    }
}

// Reads a store, and plays it.
fn play_source<S: Source, K: Sink>(alloc: Global, source: &mut S, sink: K) -> Ran<K>
    ensures { PlaysSo (reading_of S.Source source.old source.new)
        (writing_of K.Sink sink result.sink) result.status }
{
    match read_store(alloc, source) {
        Ok(stored) => play_stored(alloc, stored, sink),
        Err(StoreError::Bad { place }) => {
            end_at_store(alloc, sink, &[], StoreFault::Bad { record: place })
        }
        Err(StoreError::NoPlan) => end_at_store(alloc, sink, &[], StoreFault::Torn { turns: 0 }),
        Err(StoreError::Read) => end_at(alloc, sink, Fault::Read),
        Err(StoreError::TooLong) => end_at(alloc, sink, Fault::TooLong),
        Err(_) => end_at(alloc, sink, Fault::Memory),
    }
}

/// Reads a store, and writes what `replay` writes of its plan line and turns, with the same status.
///
/// Where the store is torn, status 14 is in place of an outcome's and of 8 and 9, and the last line says how many turns
/// are there. Where the bytes have no plan, only that line is written. Where a record is bad, nothing is run: status
/// 15, and the line has the number of the record. Statuses 10, 11 and 12 are those of a replay, but for the limit,
/// which is that of a store.
pub fn play<S: Source, K: Sink>(alloc: Global, source: &mut S, sink: K) -> Ran<K>
    ensures says { PlaysSo (reading_of S.Source source.old source.new)
        (writing_of K.Sink sink result.sink) result.status }
    ensures causes { GetsPlayed (reading_of S.Source source.old source.new)
        (writing_of K.Sink sink result.sink) result.status }
{
    play_source(alloc, source, sink)
}
