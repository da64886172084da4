//! The reader of event lines: the event whose line a line is, as `run_output` prints it. A line's JSON value is read as
//! an event, loosely, and a line is refused unless it is that event's own line. What no line has of an event is made
//! up; what a pass after a failed attempt counts as is told by the counts. The layers above replay what was told.
#![tactic(auto)]

mod attempts;
mod children;
mod counted;
mod ends;
mod kinds;
mod line;
mod members;
mod results;
mod rounds;
mod scripts;
mod stats;
mod tests;

pub use counted::failed_after;
pub use line::read_event_line;
