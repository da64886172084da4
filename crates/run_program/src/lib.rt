//! What a program does beside its top call: it finds out what its words ask for, prints its help or its version, and
//! says on standard error why it ended.
#![tactic(auto)]

mod request;
mod said;

pub use request::{Request, request_of};
pub use said::{print, print_memory, say_error};
