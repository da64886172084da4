//! The dispatcher of a run: it begins and ends the run and its sub-runs, hears the messages of the units one by one,
//! tells the events, counts the setup scripts and tests that run and that finished, lets units go or not, stops the run
//! and lets it go on, asks the units what they are doing, and cancels the run. Each acting call is a row of the
//! dispatcher's table.
#![tactic(auto)]

mod cancel;
mod cause;
mod deliver;
mod dispatcher;
mod effects;
mod enabled;
mod hearing;
mod info;
mod jobs;
mod scripts;
mod stress;
mod sub_runs;
mod tally;
mod view;

pub use dispatcher::Dispatcher;
pub use effects::{DispatchEffects, Fx};
pub use stress::{StressContext, StressLoopAction};
pub use view::DispatchState;
