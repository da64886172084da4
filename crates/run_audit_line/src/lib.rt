//! The reader of event lines for an auditor: what an auditor sees of the event that a line tells. It wants the keys of
//! that, in their kinds, and passes over all others, so that lines of any engine may say more. It stands on the readers
//! of `run_input`.
#![tactic(auto)]

mod event_name;
mod line;
mod reading;

pub use line::{event_of, read_event_line};
