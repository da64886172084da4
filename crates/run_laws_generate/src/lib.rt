//! The laws of generated runs: each of them ends, and its plan and its exits by counts. Each is a public function with
//! an empty body, whose contract is a theorem over the definitions of `run_generate`. It stands on `run_generate` and
//! on the laws of every legal journal.
#![tactic(auto)]

mod laws;

pub use laws::{generated_exits_are_counted, generated_plans_are_counted, generated_runs_end};
