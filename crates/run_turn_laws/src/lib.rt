//! The laws of turn lines: the line that `run_output` prints of a turn is read by `run_input` as just that turn, so is
//! its line with its fields in another order, and lines of different turns differ. They are public functions with an
//! empty body, over turns whose parts fit their types; `known_turn` gives that of each turn that a program has.
#![tactic(auto)]

mod known;
mod laws;

pub use known::known_turn;
pub use laws::{turn_lines_are_read, turn_lines_are_read_in_any_order, turn_lines_differ};
