//! The program as a library: its top call `run` reads the words and the input, carries out the turns, and
//! writes the lines and answers the status. Its contract says what each status means, from the bytes that come
//! in to the bytes that go out. The readers and writers of single lines are handed on from below.
#![tactic(auto)]

mod clocks;
mod command;
mod ended;
mod execution;
mod generates;
mod given;
mod live;
mod plan_line;
mod receipts;
mod tied;
mod tied_progress;
mod top;
mod write;

pub use command::Command;
pub use ended::{
    Ended, end_at_fault, end_without_memory, fault_of_error, finish, replay, status_of_outcome,
};
pub use execution::{Executed, execute};
pub use given::{is_word, read_bytes};
pub use live::{LiveEnding, fault_after, last_lines, open_fault, refusal_after, workers_of};
pub use plan_line::{read_plan_line, runner_of};
pub use receipts::{RefusalLines, write_refusal};
pub use tied::{Origin, TiedReporter};
// What a caller of `run` names besides, of the crates below.
pub use run_capture::{StdSink, StdSource};
pub use run_drive::{
    Begun, Host, MemoryHost, MemorySpawner, MemoryTicker, Said, Spawner, Ticker, drive,
};
pub use run_input::{InputError, LineError, read_turn_line};
pub use run_live::Live;
pub use run_output::{
    Fault, LineReporter, ask_line, event_line, fault_line, outcome_line, turn_line,
};
pub use top::{Ran, fault_of_plan, replay_input, run, status_of_ending};
pub use write::{WriteError, write_line, write_rest};
