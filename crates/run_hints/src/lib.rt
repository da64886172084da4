//! What the program says on standard error: one line of what is wrong and where, and one that helps. It is said after
//! the run, from the words, the status, the input and the last line that was written, which a source and a sink of this
//! crate remember. What is wrong with a line of input is what its reader answers. Where a turn isn't enabled, a run in
//! memory takes the turns before it once more, and is asked what it waits for. The lines are tested and not proved; the
//! top call knows nothing of them.
#![tactic(auto)]

mod kept_source;
mod last_line;
mod line_fault;
mod message;
mod replayed;
mod saying;
mod waiting;
mod words;

pub use kept_source::KeptSource;
pub use last_line::LastLine;
pub use saying::{Seen, explain};
