//! The recorded run of a plan: the run of the layer below, of which a second sink takes the store, each turn as the run
//! takes it. It stands on that run, and on the writer of stores.
#![tactic(auto)]

mod filling;
mod keeping;
mod outcome;
mod top;

pub use outcome::{RecordOutcome, is_over};
pub use top::{Recorded, run_recorded};
