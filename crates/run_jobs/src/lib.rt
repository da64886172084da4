//! Batch jobs in waves. Jobs name the jobs that they wait for, and are run wave by wave, each wave the tests of one
//! run of the engine: those of one level whose own all passed. It stands on run_engine. The layer above reads jobs and
//! turns, and writes their states.
#![tactic(auto)]

mod due;
mod faults;
mod hear;
mod idle;
mod job;
mod jobs;
mod laws;
mod ledger;
mod levels;
mod ready;
mod settle;
mod wave;
mod wave_plan;
mod waves;
mod waves_error;

pub use due::NextPlan;
pub use job::{Job, JobState, JobsError};
pub use jobs::Jobs;
pub use laws::jobs_are_told_once;
pub use waves_error::WavesError;
