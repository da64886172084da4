//! The run of a plan whose asked signals are delivered, as a program: its top call reads the plan from its line, runs
//! it by threads, writes the lines of its events, of its asks and of its outcome or fault to a sink, and answers the
//! status with what is left of the run. It stands on the run of the layer below and on the lines and the reporter of
//! the program without signals. The program above hands in the line, a host of keepers, the outside and who stops the
//! program.
#![tactic(auto)]

mod left;
mod lines;
mod order_fault;
mod plan;
mod running;
mod top;

pub use left::{WholeEnding, WholeLeft, WholeRun};
pub use order_fault::order_line;
// What a caller of `run_plan` names besides, of the crates below.
pub use run_cli::Ran;
pub use run_whole::{Around, CutOff, Ear, Ended, Rounds, WholeError, Workers};
pub use top::run_plan;
