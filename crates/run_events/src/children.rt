// Who is asked for starts and signals.
ghost use Rattle.std.specs.Prelude.{ℕ, ◌≡◌, List, [], ◌∷◌, ◌++◌, OnOk, OnErr};
ghost use Rattle.run_events.specs.Tell.{Adds};

use crate::Ask;
use run_capture::Mem;
use std::alloc::Global;

/// The children of a run. That they were asked a list is a relation.
pub trait Children {
    ghost use Rattle.run_events.specs.declared.ask.Ask.{Ask};

    /// They were asked this list: each ask with the turn that asked it, counted from 0.
    ghost asked: { Self → List (ℕ × Ask) → Type 0 };

    /// Asks them.
    fn ask(&mut self, alloc: Global, turn: u64, ask: &Ask) -> Mem<()>
        ensures ok { OnOk result (Adds asked self.old self.new ((turn, ask.now) ∷ [])) }
        ensures err { OnErr result (Adds asked self.old self.new []) };
}
