// Who stops this program.
ghost use Rattle.std.specs.Prelude.{◌≡◌};

use crate::sender::is_want;
use crate::signalling::send_by_shell;
use crate::target::Target;
use run_capture::{Mem, OutOfMemory};
use run_keep::Halter;
use std::alloc::Global;
use std::process::Processes;

/// Stops this program by SIGSTOP, which a shell sends it. Where that fails the program goes on, and the failure is
/// counted.
#[derive(Drop)]
pub struct StopHalter<P: Processes + Drop> {
    outside: P,
    pid: u32,
    faults: u64,
}

impl<P: Processes + Drop> StopHalter<P> {
    /// Who stops the program with this process id, which is to be its own.
    pub fn new(outside: P, pid: u32) -> Self
        ensures { result.faults ≡ 0 }
    {
        StopHalter {
            outside,
            pid,
            faults: 0,
        }
    }

    /// How often the program could not be stopped.
    pub fn faults(&self) -> u64
        ensures { result ≡ self.now.faults }
    {
        self.faults
    }

    // The program itself, and not its group.
    fn target(&self) -> Target {
        Target {
            pid: self.pid,
            group: false,
        }
    }
}

impl<P: Processes + Drop> Halter for StopHalter<P> {
    ghost has_halted = { λ _ _. Unit {0} };

    fn halt(&mut self, alloc: Global) -> Mem<()> {
        match send_by_shell(&self.outside, alloc, "STOP", self.target()) {
            Ok(true) => {}
            Err(error) if is_want(&error) => return Err(OutOfMemory),
            _ => self.faults = self.faults.saturating_add(1),
        }
        Ok(())
    }
}
