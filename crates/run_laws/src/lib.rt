//! The laws of every legal journal: public functions with an empty body, whose contracts are theorems
//! over the definitions of `run_model`, and the lemmas behind them, on which the engine stands.
#![tactic(auto)]

mod laws;

pub use laws::{
    a_list_of_turns_has_one_course, accounts_hold, attempts_are_their_own_turns,
    attempts_are_told_once, boards_step, cancels_are_caused, delays_are_own_turns,
    each_script_has_its_fate, each_test_has_its_fate, enabled_turns_can_be_taken, events_extend,
    limits_hold, lines_are_broadcasts, reports_are_own_turns, scripts_are_told_as_read,
    scripts_come_first, starts_are_planned, starts_have_their_words, turns_are_timely,
};
