//! What a person sees of a run: a report of its events, as they are told, that goes to a sink of its own. Contracts see
//! its text as a function of the told events, in pieces. `RunReport` writes it, and refuses no event; `Both` tells each
//! event to another reporter first. It stands on the events of `run_events` and the texts of `run_progress`; the layer
//! above makes the settings, and opens the sink.
#![tactic(auto)]

mod bar_report;
mod bar_sink;
mod blocks;
mod both;
mod ends;
mod finish;
mod finished;
mod heard;
mod indent;
mod info;
mod kept;
mod laws;
mod levels;
mod lines;
mod listener;
mod report;
mod runs;
mod scripts;
mod shown;
mod style;
mod summary;
mod texts;
mod units;
mod words;

pub use bar_report::BarReport;
pub use bar_sink::BarSink;
pub use both::Both;
pub use laws::{
    an_output_is_its_own, each_finish_has_its_line, no_line_is_forged, summaries_are_told,
};
pub use levels::{FinalStatusLevel, OutputDisplay, ReportSettings, StatusLevel};
pub use listener::{Board, Listener};
pub use report::RunReport;
pub use style::Style;
