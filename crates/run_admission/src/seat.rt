// What a test claims of the limits, where it stands, and what is said of it.

/// What a test claims: whether it is to run, how much of the limits it takes, its priority, and the place of its group
/// in the plan.
#[derive(Clone, Copy, Drop)]
pub struct Claim {
    /// Whether it is to run; another is skipped.
    pub matched: bool,
    pub weight: u32,
    pub priority: i8,
    pub group: Option<usize>,
}

/// Where a test of a sub-run stands.
#[derive(Clone, Copy, Drop)]
pub enum Seat {
    /// It wasn't admitted.
    Waiting,
    /// It runs, and holds these slots.
    InUse { global: u32, group: Option<u32> },
    /// It was skipped, or has ended.
    Gone,
}

/// The test that comes next.
#[derive(Clone, Copy, Drop)]
pub enum Candidate {
    /// It is to be skipped.
    Skip { test: u32 },
    /// It can run.
    Fits { test: u32 },
    /// It waits for room, and each later test waits for it.
    Blocked { test: u32 },
}

/// A test that was admitted.
#[derive(Clone, Copy, Drop)]
pub enum Admitted {
    /// It is skipped.
    Skip {
        test: u32,
    },
    /// It runs in these slots.
    Run {
        test: u32,
        global_slot: u32,
        group_slot: Option<u32>,
    },
}
