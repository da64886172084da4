//! The program of audits as a library: its top call `run` reads a plan, turns and the events that some engine told of
//! them, and writes the verdict on those events. The plan and the turns are read as those of a replay. It stands on
//! run_audit's verdict, on run_audit_line's reader of event lines, and on run_cli for plans, sources and sinks.
#![tactic(auto)]

mod audit_lines;
mod both;
mod ends;
mod judging;
mod reading;
mod top;
mod verdict_line;

pub use top::run;
