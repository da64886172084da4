// A test that runs, as a display shows it.
ghost use Rattle.std.specs.Prelude.{◌≡◌, IfOk};

use run_capture::{Duplicate, Mem};
use run_events::TestInstanceId;
use std::alloc::Global;

/// What a running test does. Times are in nanoseconds.
#[derive(Clone, Copy, Debug, Drop, PartialEq, Eq)]
pub enum RunningTestStatus {
    /// Its first attempt runs.
    Running,
    /// Its attempt was told slow.
    Slow,
    /// An attempt failed, and the next one comes after so long a delay.
    Delay(u64),
    /// A further attempt runs.
    Retry,
}

/// A test that was started and hasn't finished.
#[derive(Debug, Drop, PartialEq, Eq)]
pub struct RunningTest {
    pub test: TestInstanceId,
    pub status: RunningTestStatus,
    /// When its status began, but for `Slow`.
    pub start: u64,
    /// How long the run was paused since then, in the pauses that have ended.
    pub paused: u64,
}

impl Duplicate for RunningTest {
    fn copy(&self, alloc: Global) -> Mem<RunningTest> {
        let test = self.test.copy(alloc)?;
        Ok(RunningTest {
            test,
            status: self.status,
            start: self.start,
            paused: self.paused,
        })
    }
}
