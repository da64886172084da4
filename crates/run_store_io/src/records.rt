// The records after a plan line.
ghost use Rattle.std.specs.Prelude.{◌<◌, length, IfSome};
ghost use Rattle.run_store_io.specs.Steps.{IsStep, IsTurnStep, IsEndStep, AreRecords};

use crate::StoreError;
use crate::awaiting::{Awaiting, TURN};
use crate::payloads::turn_in;
use crate::record::{Found, record_in};
use run_capture::List;
use run_events::Turn;
use std::alloc::Global;

/// One record after a plan line.
#[derive(Drop)]
pub enum Step<'a> {
    /// It is a turn's, and these bytes are after it.
    Turn(Turn, &'a [u8]),
    /// Its end isn't there.
    Cut,
    /// It is the last, and nothing is after it.
    End,
}

// A turn's record with this payload, after so many turns.
fn turn_step<'a>(
    alloc: Global,
    turns: u32,
    payload: &[u8],
    after: &'a [u8],
) -> Result<Step<'a>, StoreError>
    ensures { IsTurnStep turns payload.now after.now result }
{
    match turn_in(alloc, payload) {
        Ok(Some(turn)) => Ok(Step::Turn(turn, after)),
        Ok(None) => Err(StoreError::Bad {
            place: turns as u64 + 1,
        }),
        Err(_) => Err(StoreError::OutOfMemory),
    }
}

// The last record with this payload, after so many turns.
fn end_step<'a>(turns: u32, payload: &[u8], after: &'a [u8]) -> Result<Step<'a>, StoreError>
    ensures { IsEndStep turns payload.now after.now result }
{
    let count = turns.to_be_bytes();
    if payload != count.as_slice() {
        return Err(StoreError::Bad {
            place: turns as u64 + 1,
        });
    }
    if after.is_empty() {
        Ok(Step::End)
    } else {
        Err(StoreError::Bad {
            place: turns as u64 + 2,
        })
    }
}

// The next record after so many turns.
fn next_step(alloc: Global, rest: &[u8], turns: u32) -> Result<Step<'_>, StoreError>
    ensures { IsStep turns rest.now result }
{
    match record_in(rest, Awaiting::After { turns }) {
        Found::Bad => Err(StoreError::Bad {
            place: turns as u64 + 1,
        }),
        Found::Cut => Ok(Step::Cut),
        Found::Whole {
            kind,
            payload,
            after,
        } => {
            if kind == TURN {
                turn_step(alloc, turns, payload, after)
            } else {
                end_step(turns, payload, after)
            }
        }
    }
}

// The bytes after the record at the front, if it is a turn's by its kind and its length.
fn after_turn(bytes: &[u8]) -> Option<&[u8]>
    ensures { IfSome result (λ after. length after.now < length bytes.now) }
{
    match record_in(bytes, Awaiting::After { turns: 0 }) {
        Found::Whole {
            kind: TURN,
            after,
            ..
        } => Some(after),
        _ => None,
    }
}

// How many records of turns come first, by their kinds and lengths. So a list of them is made with its room, and never
// moved.
fn count_turns(records: &[u8]) -> usize {
    let mut rest = records;
    let mut count = 0usize;
    'turns: while !rest.is_empty() {
        match after_turn(rest) {
            Some(after) => {
                count = count.saturating_add(1);
                rest = after;
            }
            None => return count,
        }
    }
    count
}

/// The turns of the records after a plan line, and whether the last record is there.
pub fn read_records(alloc: Global, records: &[u8]) -> Result<(List<Turn>, bool), StoreError>
    ensures { AreRecords records.now result }
{
    let mut turns = List::with_capacity(alloc, count_turns(records))?;
    let mut rest = records;
    'records: while !rest.is_empty() {
        match next_step(alloc, rest, turns.len() as u32) {
            Ok(Step::Turn(turn, after)) => {
                turns.push(alloc, turn)?;
                rest = after;
            }
            Ok(Step::Cut) => return Ok((turns, false)),
            Ok(Step::End) => return Ok((turns, true)),
            Err(error) => return Err(error),
        }
    }
    Ok((turns, false))
}
