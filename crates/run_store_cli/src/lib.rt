//! The program of stores as a library: its top call `run` reads the words. `record` reads the input of a replay and
//! writes its store, without running it. `play` reads a store, and carries out its plan and turns as a replay does. It
//! stands on run_cli's replay and run_store_io's stores.
#![tactic(auto)]

mod ends;
mod laws;
mod played;
mod recorded;
mod top;
mod torn;

pub use laws::records_play_as_replays;
pub use played::play;
pub use recorded::record;
pub use top::run;
