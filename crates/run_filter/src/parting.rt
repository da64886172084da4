// Which tests stand in a part.
ghost use Rattle.std.specs.Prelude.{◌≡◌, ◌≢◌, ℕ, ◌≤◌, ◌+◌, ◌++◌, ◌∷◌, [], ◌<◌, ◌^◌, IfOk, OnOk, vec_len, slice_index};
ghost use Rattle.std.specs.Prelude.{if◌then◌else◌, ◌==◌, ◌&&◌, ◌%◌, nat_eq};
ghost use Rattle.run_filter.specs.declared.partition.PartitionKind.TheVariants.{Hash};
ghost use Rattle.run_filter.specs.Partition.{hash_of, turn_key, parted};

use crate::hashing::xxh64;
use crate::partition::{Candidate, Partition, PartitionKind};
use run_capture::Mem;
use std::alloc::Global;

fn hash_of(alloc: Global, name: &str) -> Mem<u64>
    ensures { IfOk result (λ hash. hash ≡ hash_of name.now) }
{
    let mut bytes = Vec::from_slice(alloc, name.as_bytes())?;
    bytes.push(255)?;
    Ok(xxh64(bytes.as_slice()))
}

fn turn_key(kind: PartitionKind, candidate: &Candidate<'_>) -> usize
    ensures { result ≡ turn_key kind candidate.now }
{
    let ignored = usize::from(candidate.is_ignored);
    match kind {
        PartitionKind::Hash => 0,
        PartitionKind::Count => candidate.binary as usize * 2 + ignored,
        PartitionKind::Slice => ignored,
    }
}

// Makes room for a count at a key.
fn make_room(counts: &mut Vec<u64>, key: usize) -> Mem<()>
    ensures room { OnOk result (key < vec_len counts.new) }
    ensures same { OnOk result ((k : ℕ) → slice_index counts.new.items k ≡ slice_index counts.old.items k) }
{
    while counts.len() <= key {
        counts.push(0)?;
    }
    Ok(())
}

// Counts one more at a key, and says how many there were.
fn take_turn(counts: &mut Vec<u64>, key: usize) -> Mem<u64>
    requires { slice_index counts.old.items key + 1 < 2 ^ 64 }
    ensures before { IfOk result (λ turn. turn ≡ slice_index counts.old.items key) }
    ensures after { OnOk result ((k : ℕ) → slice_index counts.new.items k
        ≡ (if k == key then slice_index counts.old.items k + 1 else slice_index counts.old.items k)) }
{
    make_room(counts, key)?;
    let turn = counts[key];
    counts[key] = turn + 1;
    Ok(turn)
}

fn by_hash(alloc: Global, partition: &Partition, candidates: &[Candidate<'_>]) -> Mem<Vec<bool>>
    requires { partition.now.kind ≡ Hash }
    ensures { IfOk result (λ kept. kept.items
        ≡ parted partition.now.kind partition.now.part partition.now.parts [] candidates.now) }
{
    let mut kept = Vec::with_capacity(alloc, candidates.len())?;
    for candidate in candidates {
        let mut is_in = false;
        if candidate.passes {
            is_in = hash_of(alloc, candidate.name)? % partition.parts + 1 == partition.part;
        }
        kept.push(is_in)?;
    }
    Ok(kept)
}

// Whether a test stands in a part by its turn, which is counted.
fn is_turn(counts: &mut Vec<u64>, partition: &Partition, candidate: &Candidate<'_>) -> Mem<bool>
    requires { slice_index counts.old.items (turn_key partition.now.kind candidate.now) + 1 < 2 ^ 64 }
    ensures is_in { IfOk result (λ b. b ≡ (candidate.now.passes && nat_eq
        (slice_index counts.old.items (turn_key partition.now.kind candidate.now) % partition.now.parts + 1)
        partition.now.part)) }
    ensures counts { OnOk result ((k : ℕ) → slice_index counts.new.items k ≡ slice_index counts.old.items k
        + (if candidate.now.passes && nat_eq (turn_key partition.now.kind candidate.now) k then 1 else 0)) }
{
    if !candidate.passes {
        return Ok(false);
    }
    let turn = take_turn(counts, turn_key(partition.kind, candidate))?;
    Ok(turn % partition.parts + 1 == partition.part)
}

fn by_turn(alloc: Global, partition: &Partition, candidates: &[Candidate<'_>]) -> Mem<Vec<bool>>
    requires { partition.now.kind ≢ Hash }
    ensures { IfOk result (λ kept. kept.items
        ≡ parted partition.now.kind partition.now.part partition.now.parts [] candidates.now) }
{
    let mut counts = Vec::new(alloc);
    let mut kept = Vec::with_capacity(alloc, candidates.len())?;
    for candidate in candidates {
        let is_in = is_turn(&mut counts, partition, candidate)?;
        kept.push(is_in)?;
    }
    Ok(kept)
}

/// Which of the tests of a list stand in a part: of those that all else lets run, alone.
pub fn parted(alloc: Global, partition: &Partition, candidates: &[Candidate<'_>]) -> Mem<Vec<bool>>
    ensures { IfOk result (λ kept. kept.items
        ≡ parted partition.now.kind partition.now.part partition.now.parts [] candidates.now) }
{
    match partition.kind {
        PartitionKind::Hash => by_hash(alloc, partition, candidates),
        _ => by_turn(alloc, partition, candidates),
    }
}
