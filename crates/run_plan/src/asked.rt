// What is known of a call, and what filters say of its tests.

use run_capture::{List, Text};
use uuid::Uuid;

/// A call of the program, beside what its words choose.
#[derive(Drop)]
pub struct Call {
    pub run_id: Uuid,
    pub processors: u32,
    /// The words of the call, with the program's name before them.
    pub args: List<Text>,
}

/// What filters say of a test.
#[derive(Drop)]
pub struct Asked {
    /// Of each override of the profile, in order of precedence, whether it matches.
    pub overrides: List<bool>,
    /// Of each rule of setup scripts, in the same order, whether it matches.
    pub rules: List<bool>,
    /// Whether a filter of the words holds, or they give none.
    pub is_picked: bool,
    /// Whether the default filter holds.
    pub in_default: bool,
}
