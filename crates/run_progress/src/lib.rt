//! Live progress, for whoever shows a run to a person: the list of running tests, made of the events that a reporter is
//! told (`ProgressState`; `LiveProgress`, where many tests run), the texts of a display, and a terminal's own progress.
//! It stands on `run_events`; nothing is printed here, no clock is read, and the moment is handed in. Moments and times
//! are whole nanoseconds.
#![tactic(auto)]

mod edits;
mod lines;
mod live_progress;
mod live_tests;
mod max_running;
mod progress_state;
mod running_test;
mod seen;
mod show;
mod shown_tests;
mod summary;
mod terminal;
mod tests_by_start;
mod texts;
mod values;

pub use live_progress::LiveProgress;
pub use max_running::{MaxProgressError, MaxProgressRunning};
pub use progress_state::ProgressState;
pub use running_test::{RunningTest, RunningTestStatus};
pub use show::{ShowProgress, ShowTerminalProgress, TermSetting};
pub use summary::{progress_str, write_summary_str};
pub use terminal::{TermProgress, term_progress_percent, terminal_progress_value};
