//! The admission rule: which test of a sub-run comes next, whether it fits within the limits (a number of threads, and
//! a limit for each group of tests), and the slots that it gets. It stands on the plan's types alone (`run_events`).
//! The layer above asks `Admission`, and reads of it the record of `specs/InUse.antt`.
#![tactic(auto)]

mod admission;
mod claims;
mod draft;
mod groups;
mod line;
mod lines;
mod min_tree;
mod names;
mod order;
mod room;
mod seat;
mod values;

pub use admission::Admission;
pub use seat::{Admitted, Candidate, Claim, Seat};
