//! What a run tells and asks, as lines of JSON: the texts of events, asks, outcomes and faults, the
//! reporter that writes each event's line to a sink, and the one that writes live progress. It stands on the
//! data of `run_events`, the sink of `run_capture` and the display of `run_progress`. The layer above prints
//! these lines and rests on their texts.
#![tactic(auto)]

mod ask_lines;
mod asks;
mod errors;
mod events;
mod events_of_info;
mod events_of_run;
mod events_of_scripts;
mod events_of_tests;
mod fault;
mod faults;
mod field;
mod gathered;
mod info;
mod leaf;
mod line;
mod line_feed;
mod line_reporter;
mod lists;
mod object;
mod outcomes;
mod printer;
mod progress_reporter;
mod receipts;
mod rows;
mod slots;
mod stats;
mod statuses;
mod stress;
mod summaries;
mod texts;
mod turns;
mod watcher;

pub use ask_lines::AskLines;
pub use asks::ask_line;
pub use events::event_line;
pub use fault::{Fault, PlanFault};
pub use faults::fault_line;
pub use line_feed::with_line_feed;
pub use line_reporter::LineReporter;
pub use outcomes::outcome_line;
pub use progress_reporter::ProgressReporter;
pub use receipts::{mismatch_line, other_settings_line, repeated_line};
pub use statuses::{script_status_text, status_text};
pub use summaries::summary_line;
pub use turns::turn_line;
