//! The state of a run, which contracts see as the board that turns read: which turns are enabled on it, and what each
//! does to it. It stands on the units and the dispatcher, and counts the units so that no turn looks at all of them.
#![tactic(auto)]

mod admission;
mod broadcast;
mod counts;
mod delivery;
mod effects;
mod enabled;
mod forgetting;
mod joining;
mod kept;
mod rounds;
mod run_turns;
mod scripts;
mod search;
mod settle;
mod state;
mod turns;
mod unit_turns;
mod units;
mod working;

pub use effects::Effects;
pub use enabled::{is_enabled, turn_of_unit};
pub use settle::{Settled, next_settled};
pub use state::State;
pub use turns::advance;
