// One part of a partition, and the tests that partitions divide.
ghost use Rattle.std.specs.Prelude.{◌≤◌};

use thiserror::Error;

/// How a partition divides tests into parts.
#[derive(Clone, Copy, Drop)]
pub enum PartitionKind {
    /// By the hash of the test's name.
    Hash,
    /// In turn, anew in each binary.
    Count,
    /// In turn, over all binaries.
    Slice,
}

/// One part of a partition, as `hash:2/3`: the second of three.
#[derive(Clone, Copy, Drop)]
pub struct Partition {
    pub kind: PartitionKind,
    /// Which part, from 1.
    pub part: u64,
    /// How many parts there are.
    pub parts: u64,
    ghost from_one: { 1 ≤ part },
    ghost within: { part ≤ parts },
}

/// A test of a list, as partitions see it.
#[derive(Clone, Copy)]
pub struct Candidate<'a> {
    /// The place of its binary in the list.
    pub binary: u32,
    pub name: &'a str,
    pub is_ignored: bool,
    /// Whether all else lets it run.
    pub passes: bool,
}

/// Why a word is no partition.
#[derive(Clone, Copy, Debug, Drop, Error)]
pub enum PartitionError {
    #[error("expected `hash:`, `count:` or `slice:`")]
    Kind,
    #[error("expected the part and the number of parts, as `1/3`")]
    Slash,
    #[error("the part before the `/` is no number below 2^64")]
    Part,
    #[error("the number of parts after the `/` is no number below 2^64")]
    Parts,
    #[error("the part must be from 1 to the number of parts")]
    Range,
}
