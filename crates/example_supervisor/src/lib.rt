//! An example of a program on the library: a supervisor that runs the jobs of a plan, with a reporter and children of
//! its own, and reports just one result of each job. The page docs/LIBRARY.md walks through it.
#![tactic(auto)]

mod outside;
mod supervisor;

pub use outside::JobResult;
pub use supervisor::{Report, SupervisorError, supervise};
