//! A run of real children: any number of workers and the ticker, each on a thread of its own, on one locked run. It
//! answers the run's journal with the receipts of each worker and of the ticker, which it has compared: every turn of
//! the journal has one receipt, and what a worker's receipts tell of children is what its spawner said. What a host
//! makes (spawners, tickers, random words) is known by the traits of the layer below alone.
#![tactic(auto)]

mod ending;
mod gathering;
mod jobs;
mod lived;
mod pieces;
mod running;
mod ticker_thread;
mod together;
mod worker_thread;

pub use ending::{is_memory, report_left, report_of};
pub use jobs::TickJob;
pub use lived::{Live, Lived};
pub use pieces::{both, push_each};
pub use running::live;
pub use ticker_thread::begin;
