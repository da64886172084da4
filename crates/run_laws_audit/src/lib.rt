//! The laws of what an auditor sees of a run: what a legal journal tells whose run is over keeps that run. One law each
//! for the shape and the parts of it, what is told of tests, limits and slots, cancels, and setup scripts; and one for
//! all of them. Each is a public function with an empty body, whose contract is a theorem over the definitions of
//! `run_audit_model`. It stands on the lemmas of the other crates of laws.
#![tactic(auto)]

mod known;
mod laws;

pub use known::{known_script_status, known_status, known_told};
pub use laws::{
    told_accounts_are_kept, told_cancels_are_kept, told_events_are_kept, told_limits_are_kept,
    told_of_sub_runs, told_parts_are_sub_runs, told_scripts_are_kept, told_shapes_are_kept,
    what_is_due_was_told,
};
