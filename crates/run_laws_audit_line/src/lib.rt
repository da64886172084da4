//! The laws of event lines: the line that `run_output` prints of an event is read by `run_audit_line` as what an
//! auditor sees of that event, if the event's data are plain, the numbers that are seen fit 32 bits, and a cancel has a
//! reason; and each cancel that is told of a run has one. They are public functions with an empty body; `known_event`
//! gives for each event that a program has that its numbers fit.
#![tactic(auto)]

mod known;
mod laws;

pub use known::known_event;
pub use laws::{cancels_have_reasons, event_lines_are_read, told_lines_are_read};
