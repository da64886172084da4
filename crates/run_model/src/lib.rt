//! The definitions of a run: the tables of turns, of a unit and of the dispatcher, row by row, and the
//! words over a run's history that every contract above cites. It stands on `run_clock`, `run_admission`
//! and what that stands on. A history lists what each turn did, the newest first; a word is a recursion,
//! a sum or a filter over it.
#![tactic(auto)]

mod backoff;
mod dispatcher_view;
mod entry;
mod happening;
mod phase;
mod rerun;
mod unit_turn;
mod unit_view;
mod values;

pub use backoff::{BackoffIter, delay_by, retry_count};
pub use dispatcher_view::{CancelRules, Causes, DispatcherView, Facts, Rounds, SubRuns, Tally};
pub use entry::Entry;
pub use happening::{Happening, UnitPart};
pub use phase::Phase;
pub use rerun::RerunContext;
pub use unit_turn::UnitTurn;
pub use unit_view::{
    AttemptTerms, CapturedStreams, ScriptRole, Surroundings, TestRole, Timers, UnitRole, UnitView,
};
