//! Real children that are sent signals, lines of the outside, and who stops the program: what a run whose signals are
//! delivered stands on outside. A keeper starts one process at a time in a group of its own, waits for nothing longer
//! than 10 ms, and sends signals by a shell that also ends the group where this program ends. They tell nothing of what
//! they gave: each counts its failures, and is tested.
#![tactic(auto)]

mod call;
mod first_line_error;
mod guard;
mod kept_child;
mod line_outside;
mod lines;
mod pace;
mod paced_outside;
mod paced_ticker;
mod process_keeper;
mod sender;
mod signalling;
mod starting;
mod std_keeper_host;
mod stop_halter;
mod streams;
mod target;
mod ticking_outside;
mod waiting;
mod words;

pub use first_line_error::FirstLineError;
pub use line_outside::LineOutside;
pub use lines::LINE_LIMIT;
pub use paced_outside::PacedOutside;
pub use paced_ticker::PacedTicker;
pub use process_keeper::ProcessKeeper;
pub use std_keeper_host::StdKeeperHost;
pub use stop_halter::StopHalter;
pub use ticking_outside::TickingOutside;
