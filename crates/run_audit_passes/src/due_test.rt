// What is due of a test.

/// What is due of a test: its start, a failed attempt, the start of a further one, its finish or its skip.
#[derive(Drop)]
pub enum DueTest<S: Drop> {
    Began,
    Failed { status: S },
    Retried { attempt: u32 },
    Finished { statuses: Vec<S> },
    Skipped,
}
