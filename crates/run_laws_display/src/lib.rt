//! The laws of what a display shows over every legal journal, and of what `==`, `cmp` and `hash` answer at plain values
//! that callers compare: public functions with an empty body, whose contracts are theorems over the definitions of
//! `run_model` and `run_progress`, and speak of what the derived methods answer.
#![tactic(auto)]

mod compared;
mod laws;

pub use compared::{equal_values_are_the_same, kinds_are_told_apart_by_hash, values_are_ordered};
pub use laws::{
    built_plans_have_ids_once, displays_count_pauses, displays_show_running_tests,
    events_find_their_tests,
};
