// Children that only keep what they are asked.
ghost use Rattle.std.specs.Prelude.{ℕ, ◌≡◌, List, [], ◌∷◌, ◌++◌, OnOk, OnErr};
ghost use Rattle.run_events.specs.Tell.{Adds};

use crate::{Ask, Children};
use run_capture::{Duplicate, List, Mem};
use std::alloc::Global;
use std::marker::Model;

/// The asks, each with its turn, in order.
#[derive(Drop)]
pub struct AskList {
    asks: List<(u64, Ask)>,
}

impl Model for AskList {
    ghost use Rattle.std.specs.Prelude.{ℕ, List};
    ghost use Rattle.run_events.specs.declared.ask.Ask.{Ask};

    ghost Value = { List (ℕ × Ask) };

    ghost view = { λ l. l.asks };
}

impl AskList {
    /// A list with no ask.
    pub fn new() -> Self
        ensures { result ≡ [] }
    {
        AskList { asks: List::new() }
    }

    /// The asks, each with the turn that asked it, counted from 0.
    pub fn asks(&self) -> &[(u64, Ask)]
        ensures { result.now ≡ self.now }
    {
        self.asks.as_slice()
    }
}

impl Children for AskList {
    ghost asked = { λ list xs. list ≡ xs };

    fn ask(&mut self, alloc: Global, turn: u64, ask: &Ask) -> Mem<()> {
        self.asks.push(alloc, (turn, ask.copy(alloc)?))
    }
}
