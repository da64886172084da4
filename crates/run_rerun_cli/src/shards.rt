// What the stores of shards come to, and its line.
ghost use Rattle.std.specs.Prelude.{ℕ, ◌≡◌, ◌<◌, List, IfOk, IsSome, length, map, string_bytes};
ghost use Rattle.std.specs.List.{All};
ghost use Rattle.run_input.specs.Input.{plan_line_of};
ghost use Rattle.run_rerun_cli.specs.Shelves.{doing_of, shelf_of};
ghost use Rattle.run_rerun_cli.specs.ShardEnds.{SaysEnd, ShardsComeTo, end_status, end_text, end_unwritten};

use crate::chain::{ChainError, read_chain};
use crate::faults::RerunFault;
use crate::lines::rerun_fault_line;
use crate::stores::Stores;
use run_capture::{Mem, OutOfMemory, Text};
use run_rerun::{ShardsVerdict, StoredRun, shards_line, shards_verdict};
use std::alloc::Global;

/// What the stores of shards come to.
#[derive(Drop)]
pub enum ShardsEnd {
    Shards(ShardsVerdict),
    /// The store at this place, from 0, has the first fault.
    Faulty { store: u64, fault: RerunFault },
}

impl ShardsEnd {
    /// The status that goes with its line.
    pub fn status(&self) -> u8
        ensures { result ≡ end_status self.now }
    {
        match self {
            ShardsEnd::Shards(verdict) => verdict.status(),
            ShardsEnd::Faulty { fault, .. } => fault.status(),
        }
    }

    /// The status where its line could not be written.
    pub fn unwritten_status(&self) -> u8
        ensures { result ≡ end_unwritten self.now }
    {
        match self {
            ShardsEnd::Shards(_) => 9,
            ShardsEnd::Faulty { fault, .. } => fault.status(),
        }
    }

    /// Its line, without its line feed.
    pub fn into_line(self, alloc: Global) -> Mem<Text>
        ensures { IfOk result (λ t. t ≡ end_text self) }
    {
        match self {
            ShardsEnd::Shards(verdict) => shards_line(alloc, &verdict),
            ShardsEnd::Faulty { store, fault } => rerun_fault_line(alloc, store, fault),
        }
    }
}

// What runs come to as shards.
fn end_of(alloc: Global, runs: &[StoredRun]) -> Mem<ShardsEnd>
    requires some { 0 < length runs.now }
    requires lines { All (λ run. IsSome (plan_line_of run.line)) runs.now }
    ensures { IfOk result (SaysEnd runs.now) }
{
    let verdict = shards_verdict(alloc, runs)?;
    Ok(ShardsEnd::Shards(verdict))
}

/// What the stores of shards with these names come to. The first store that has a fault decides, and none after it is
/// opened.
pub fn shards_end<T: Stores>(alloc: Global, stores: &mut T, names: &[String]) -> Mem<ShardsEnd>
    requires { 0 < length names.now }
    ensures says { ShardsComeTo (map (λ w. string_bytes w) names.now) (shelf_of T.Stores stores.old stores.new)
        (doing_of T.Stores stores.old stores.new) result }
    ensures same { (n : List ℕ) → T.bytes stores.new n ≡ T.bytes stores.old n }
{
    match read_chain(alloc, stores, names) {
        Ok(runs) => end_of(alloc, runs.as_slice()),
        Err(ChainError::Store { store, fault }) => Ok(ShardsEnd::Faulty { store, fault }),
        Err(ChainError::OutOfMemory) => Err(OutOfMemory),
    }
}
