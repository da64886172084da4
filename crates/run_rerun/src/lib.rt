//! The tests that a chain of recorded runs leaves outstanding, and the plan of the next run. `run_passed` says which
//! tests a stored run has and which of them passed, `outstanding` which ones of a chain didn't pass where they were
//! last, and `rerun_plan` makes the plan line of a rerun. It stands on run_engine's runs and run_store_io's stores.
#![tactic(auto)]

mod answers;
mod chain;
mod idle;
mod ledger;
mod made;
mod passed;
mod plan_made;
mod seen;
mod shard_lines;
mod shards;
mod stored;
mod tests;
mod whole;

pub use answers::{RerunError, RunTests, ShardsVerdict, StoredRun};
pub use chain::outstanding;
pub use plan_made::rerun_plan;
pub use shard_lines::shards_line;
pub use shards::shards_verdict;
pub use stored::run_passed;
