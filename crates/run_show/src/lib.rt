//! The report of a recorded run: `show` reads the lines that a run wrote, a line at a time, and writes to a sink what
//! `run_report` says of the events that they tell. It stands on that and on the reader of event lines; the layer above
//! makes the settings, opens the streams, and makes the status.
#![tactic(auto)]

mod last;
mod recorded;
mod said;
mod source_lines;

pub use last::Told;
pub use recorded::{Showed, show};
pub use source_lines::LINE_LIMIT;
