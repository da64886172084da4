//! The text of a store of recorded runs: what it is, and what bytes that are cut short or damaged are read as. The
//! laws are public functions with an empty body, whose contracts are theorems over the definitions.
#![tactic(auto)]

mod laws;

pub use laws::{no_front_is_bad, stores_are_read_one_way, turns_are_stored};
