// Children of a run whose turns are given: they hear nothing.
use run_capture::Mem;
use run_events::{Ask, Children};
use std::alloc::Global;

/// Children that do nothing. No clause needs what they were asked, so that `asked` says nothing.
#[derive(Clone, Copy, Drop)]
pub struct Absent;

impl Children for Absent {
    ghost use Rattle.std.specs.Prelude.{⊤};

    ghost asked = { λ _ _. ⊤ };

    fn ask(&mut self, _alloc: Global, _turn: u64, _ask: &Ask) -> Mem<()> {
        Ok(())
    }
}
