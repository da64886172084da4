// Copies of plain values, which need no memory.
ghost use Rattle.std.specs.Prelude.{◌≡◌, IfOk};

use crate::{
    MaxProgressRunning, RunningTestStatus, ShowProgress, ShowTerminalProgress, TermProgress,
    TermSetting,
};
use run_capture::{Duplicate, Mem};
use std::alloc::Global;

impl Duplicate for MaxProgressRunning {
    fn copy(&self, _alloc: Global) -> Mem<MaxProgressRunning> {
        Ok(*self)
    }
}

impl Duplicate for RunningTestStatus {
    fn copy(&self, _alloc: Global) -> Mem<RunningTestStatus> {
        Ok(*self)
    }
}

impl Duplicate for ShowProgress {
    fn copy(&self, _alloc: Global) -> Mem<ShowProgress> {
        Ok(*self)
    }
}

impl Duplicate for ShowTerminalProgress {
    fn copy(&self, _alloc: Global) -> Mem<ShowTerminalProgress> {
        Ok(*self)
    }
}

impl Duplicate for TermProgress {
    fn copy(&self, _alloc: Global) -> Mem<TermProgress> {
        Ok(*self)
    }
}

impl Duplicate for TermSetting {
    fn copy(&self, _alloc: Global) -> Mem<TermSetting> {
        Ok(*self)
    }
}
