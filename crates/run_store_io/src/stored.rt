// A store that was read.
ghost use Rattle.std.specs.Prelude.{◌≡◌};
ghost use Rattle.run_store.specs.Stores.{agrees};
ghost use Rattle.run_store_io.specs.Reads.{IsReadAs, IsReadAfter, IsReadHeaded};

use crate::StoreError;
use crate::awaiting::Awaiting;
use crate::payloads::is_plan_payload;
use crate::record::{Found, record_in};
use crate::records::read_records;
use run_capture::{Blob, List};
use run_events::Turn;
use std::alloc::Global;

/// What a store has.
#[derive(Drop)]
pub struct Stored {
    /// The plan line, without a line feed.
    pub plan: Blob,
    /// The turns whose records are there, in order.
    pub turns: List<Turn>,
    /// Whether the last record is there: else the store is torn.
    pub whole: bool,
}

/// The bytes that a store begins with.
pub const HEADER: &[u8] = b"NXRUN001";

// Whether bytes are those of a text, as far as both go.
fn agrees(bytes: &[u8], text: &[u8]) -> bool
    ensures { result ≡ agrees bytes.now text.now }
{
    let count = bytes.len().min(text.len());
    bytes[..count] == text[..count]
}

// The store whose plan line is this, with these records after it.
fn read_after(alloc: Global, plan: &[u8], records: &[u8]) -> Result<Stored, StoreError>
    ensures { IsReadAfter plan.now records.now result }
{
    let plan = Blob::from_slice(alloc, plan)?;
    match read_records(alloc, records) {
        Ok((turns, whole)) => Ok(Stored { plan, turns, whole }),
        Err(error) => Err(error),
    }
}

// The store whose bytes after the header are these.
fn read_headed(alloc: Global, bytes: &[u8]) -> Result<Stored, StoreError>
    ensures { IsReadHeaded bytes.now result }
{
    match record_in(bytes, Awaiting::First) {
        Found::Bad => Err(StoreError::Bad { place: 0 }),
        Found::Cut => Err(StoreError::NoPlan),
        Found::Whole { payload, after, .. } => {
            if !is_plan_payload(alloc, payload)? {
                return Err(StoreError::Bad { place: 0 });
            }
            read_after(alloc, payload, after)
        }
    }
}

/// Reads bytes as a store.
///
/// `Bad` has the number of the first record that no store has there: the header is part of record 0, and bytes after
/// the last record are the next one. `NoPlan` is for bytes that end before the plan line's record does. Else the store
/// has the turns whose records are there.
pub fn read_stored(alloc: Global, bytes: &[u8]) -> Result<Stored, StoreError>
    ensures { IsReadAs bytes.now result }
{
    if !agrees(bytes, HEADER) {
        return Err(StoreError::Bad { place: 0 });
    }
    let begin = bytes.len().min(HEADER.len());
    read_headed(alloc, &bytes[begin..])
}
