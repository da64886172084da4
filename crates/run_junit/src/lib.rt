//! The JUnit file of a run. `JUnitReport` listens to the events of a run, as they are told, keeps of each finished test
//! and setup script its case, and writes the document at the end, in pieces. Contracts see its text as a function of
//! the told events, by tokens. `Pair` is a listener with another beside it. It stands on the events of `run_events` and
//! the listeners of `run_report`; the layer above opens the file, and knows when the run started.
#![tactic(auto)]

mod case;
mod elements;
mod escape;
mod heads;
mod heard;
mod laws;
mod moment;
mod page;
mod pair;
mod reason;
mod report;
mod script;
mod suites;
mod tag;
mod texts;
mod write;

pub use laws::{cases_are_finishes, counts_are_those_below, faults_are_counted, no_text_is_form};
pub use pair::Pair;
pub use report::JUnitReport;
