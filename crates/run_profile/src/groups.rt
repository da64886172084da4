// The groups of tests that a project names.
ghost use Rattle.std.specs.Prelude.{◌≡◌};
ghost use Rattle.run_profile.specs.Threads.{threads_count};

use run_capture::Text;

/// How many tests may run at a time.
#[derive(Clone, Copy, Drop)]
pub enum Threads {
    Count(u32),
    /// As many as there are processors, less so many, and one at least.
    Processors { less: u32 },
}

impl Threads {
    /// The number, with so many processors.
    pub fn count(self, processors: u32) -> u32
        ensures { result ≡ threads_count processors self }
    {
        match self {
            Threads::Count(count) => count,
            Threads::Processors { less } => processors.saturating_sub(less).max(1),
        }
    }
}

/// Tests that share a limit on how much of them runs at a time.
#[derive(Drop)]
pub struct TestGroup {
    pub name: Text,
    pub limit: Threads,
}
