//! The run of a plan whose asked signals are delivered: any number of workers, the ticker, and who hears the outside
//! and stops the program, each on a thread of its own, on one locked run. It answers the run's journal with the
//! receipts of each, which it has compared, and has looked that each signal and each stop that was asked was handed on
//! once. What a host makes (keepers, tickers, random words), the outside and who stops the program are known by the
//! traits of the layer below alone.
#![tactic(auto)]

mod closing;
mod delivering;
mod ear_thread;
mod ending;
mod gathering;
mod jobs;
mod left;
mod running;
mod starting;
mod threads;
mod ticker_thread;
mod together;
mod worker_thread;

pub use closing::Ran;
pub use left::{Around, CutOff, Ear, Ended, GivenUp, Rounds, Whole, WholeError, Workers};
pub use running::whole;
