//! A store of recorded runs, read and written. `StoreWriter` writes a plan line and turns as they come, each record
//! whole, so that what is there after it stops is read back up to there. `read_store` reads a source as such a store:
//! it is whole, torn, has no plan, or has a bad record. What these say stands in `run_store`. The layer above uses
//! both with any `Source` and `Sink`.
#![tactic(auto)]

mod awaiting;
mod error;
mod fault_lines;
mod laws;
mod payloads;
mod reader;
mod record;
mod recording;
mod records;
mod stored;
mod whole;
mod writer;
mod written;

pub use error::StoreError;
pub use fault_lines::{StoreFault, store_fault_line};
pub use laws::recorded_stores_are_read;
pub use payloads::is_plan_payload;
pub use reader::{STORE_LIMIT, read_store};
pub use recording::{RecordError, record_input};
pub use stored::{Stored, read_stored};
pub use whole::write_store;
pub use writer::StoreWriter;
