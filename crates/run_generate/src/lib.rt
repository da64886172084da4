//! A run of a generated plan, whose children are made up: how the engine does with many tests. The plan of a number of
//! tests and the turns of its run are definitions; `generate` carries them out and sums the run up.
#![tactic(auto)]

mod child;
mod generated;
mod hearers;
mod on_way;
mod plan;

pub use generated::{GenerateError, Generated, generate};
