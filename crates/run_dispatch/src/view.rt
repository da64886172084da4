// What the dispatcher waits for.
ghost use Rattle.std.specs.Prelude.{◌≡◌, IfOk};

use run_capture::{Duplicate, Mem};
use std::alloc::Global;

/// What the dispatcher waits for.
#[derive(Clone, Copy, Debug, Drop, PartialEq, Eq)]
pub enum DispatchState {
    /// No sub-run is on.
    Idle,
    /// It takes turns.
    Main,
    /// The live units were asked to stop, and are waited for.
    StopWait,
    /// The live units were asked what they are doing, and their answers are waited for.
    InfoRound,
}

impl Duplicate for DispatchState {
    fn copy(&self, _alloc: Global) -> Mem<DispatchState> {
        Ok(*self)
    }
}
