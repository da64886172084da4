//! Real children, the clock, and words of its low bits: what a run of real children stands on outside. A spawner starts
//! one process at a time and reads what it writes as it comes; a ticker tells how time goes by. They tell nothing of
//! what they gave: each counts its failures, and is tested.
#![tactic(auto)]

mod clock_ticker;
mod process_spawner;
mod running;
mod starting;
mod std_host;
mod telling;

pub use clock_ticker::ClockTicker;
pub use process_spawner::ProcessSpawner;
pub use starting::{
    add_arguments, add_variables, clear_env_file, is_refused, no_command, not_started, refused,
};
pub use std_host::StdHost;
pub use telling::{env_input, error_text, exit_of, piece, unread, unwaited};
