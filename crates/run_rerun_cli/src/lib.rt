//! The program of reruns as a library: its top call `run` reads a chain of stored runs, oldest first, and writes the
//! plan line of the next one, which runs the tests that the chain leaves outstanding. Stores are opened by their names,
//! one at a time, through the trait `Stores`: `MemoryStores` has them in memory, `FileStores` opens files. It stands on
//! run_rerun's tests and plans and on run_store_io's stores.
#![tactic(auto)]

mod chain;
mod counted_source;
mod ends;
mod faults;
mod file_stores;
mod found;
mod lines;
mod memory_stores;
mod shards;
mod stores;
mod top;
mod verdicts;

pub use counted_source::CountedSource;
pub use faults::{FoundError, RerunFault};
pub use file_stores::FileStores;
pub use lines::rerun_fault_line;
pub use memory_stores::{MemoryStore, MemoryStores};
pub use stores::Stores;
pub use top::run;
