//! The laws of what events say, over every legal journal: whom each one names, what it says of a test's own settings,
//! its retries and its slots, its moment and its counts; the order in which tests are admitted, the limits by the
//! plan's own numbers, and how a run starts. Public functions with an empty body, whose contracts are theorems over the
//! definitions of `run_model`.
#![tactic(auto)]

mod counted;
mod laws;

pub use counted::{
    admits_what_has_room, events_say_their_counts, events_say_their_moment, idle_runs_admit,
    limits_are_of_the_plan, run_starts_with_its_plan,
};
pub use laws::{
    events_name_the_plan, finishes_say_flaky, retries_are_numbered_in_accounts,
    retries_are_told_in_order, slots_are_of_the_rule, slow_reports_say_attempts,
    tests_come_in_order,
};
