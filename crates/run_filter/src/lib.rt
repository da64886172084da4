//! Which tests a run takes: the language of filters, the globs in it, and partitions. `read_filter` reads
//! a text as a `Filter`, `tests_held` says of which tests it holds, and `parted` which tests a part of a
//! partition has; `held_by_text` reads a text and says of which tests it holds. The layer stands on the
//! texts of run_capture; it reads no file and no list.
#![tactic(auto)]

mod bits;
mod class_text;
mod escapes;
mod facts;
mod fault;
mod filter;
mod glob;
mod glob_text;
mod hashing;
mod held;
mod laws;
mod matching;
mod operators;
mod parting;
mod partition;
mod partition_word;
mod places;
mod predicates;
mod regexes;
mod signs;

pub use facts::{Facts, Subject};
pub use fault::{FilterError, FilterFault};
pub use filter::{Filter, Matcher};
pub use glob::{Glob, Piece, Range};
pub use hashing::xxh64;
pub use held::{held_by_text, tests_held};
pub use laws::parts_share_tests;
pub use operators::read_filter;
pub use parting::parted;
pub use partition::{Candidate, Partition, PartitionError, PartitionKind};
pub use partition_word::read_partition;
