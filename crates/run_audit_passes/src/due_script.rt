// What is due of a setup script.

/// What is due of a setup script: its start, or its finish with a status.
#[derive(Drop)]
pub enum DueScript<S: Drop> {
    Began { index: u32 },
    Ended { index: u32, status: S },
}
