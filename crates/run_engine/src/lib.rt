//! The engine: a run stands for its journal, and each step of it is one turn of the tables. It is built
//! from a plan by `TestRunnerBuilder`, and carried out turn by turn by `Run`, by `LeanRun` with no journal kept, or at
//! once by `TestRunner`.
#![tactic(auto)]

mod builder;
mod carry;
mod course;
mod errors;
mod lean;
mod names;
mod refusals;
mod run;
mod runner;
mod tell;

pub use builder::TestRunnerBuilder;
pub use errors::{StepError, TestRunnerBuildError, TestRunnerExecuteErrors};
pub use lean::LeanRun;
pub use run::Run;
pub use run_model::{Entry, Phase};
pub use runner::TestRunner;
