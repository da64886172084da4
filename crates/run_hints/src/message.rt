// What is said of a fault.
use std::alloc::{AllocError, Global};

/// What is wrong, and what helps.
#[derive(Drop)]
pub(crate) struct Message {
    pub(crate) error: String,
    pub(crate) hint: String,
}

/// What is wrong, where memory is there, and what helps.
pub(crate) fn message_of(
    alloc: Global,
    error: Result<String, AllocError>,
    hint: &str,
) -> Result<Message, AllocError> {
    Ok(Message {
        error: error?,
        hint: String::from_str(alloc, hint)?,
    })
}

/// What is wrong, and what helps.
pub(crate) fn plain(alloc: Global, error: &str, hint: &str) -> Result<Message, AllocError> {
    message_of(alloc, String::from_str(alloc, error), hint)
}
