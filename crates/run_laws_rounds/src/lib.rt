//! More laws of every legal journal: what units take of the requests to them, what they answer, what is told of rounds
//! of information, the time without pauses, and the counts of live units. Each is a public function with an empty body.
#![tactic(auto)]

mod laws;

pub use laws::{
    active_time_is_counted, answers_are_own_turns, live_counts_move, queries_are_told,
    requests_are_answered, unit_turns_are_own,
};
