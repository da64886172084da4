// Children that keep the line of each ask.
ghost use Rattle.std.specs.Prelude.{◌≡◌, [], IfOk};

use crate::asks::ask_bytes;
use run_capture::Mem;
use run_events::{Ask, Children};
use std::alloc::Global;
use std::marker::Model;

/// Children that keep the line of each ask, in order, each with its line feed. Contracts see these lines.
#[derive(Drop)]
pub struct AskLines {
    bytes: Vec<u8>,
}

impl Model for AskLines {
    ghost use Rattle.std.specs.Prelude.{List, ℕ};

    ghost Value = { List ℕ };

    ghost view = { λ lines. lines.bytes.items };
}

impl AskLines {
    ghost use Rattle.run_output.specs.Asks.{ask_lines};

    /// No asks.
    pub fn new(alloc: Global) -> Self
        ensures { result ≡ [] }
    {
        AskLines {
            bytes: Vec::new(alloc),
        }
    }

    /// The lines of these asks, each with the turn that asked it, counted from 0.
    pub fn of(alloc: Global, asks: &[(u64, Ask)]) -> Mem<AskLines>
        ensures { IfOk result (λ lines. lines ≡ ask_lines asks.now) }
    {
        let mut lines = AskLines::new(alloc);
        for (turn, ask) in asks {
            lines.ask(alloc, *turn, ask)?;
        }
        Ok(lines)
    }

    /// The lines.
    pub fn as_bytes(&self) -> &[u8]
        ensures { result.now ≡ self.now }
    {
        self.bytes.as_slice()
    }
}

impl Children for AskLines {
    ghost use Rattle.run_output.specs.Asks.{ask_lines};

    ghost asked = { λ lines asks. lines ≡ ask_lines asks };

    #[tactic(auto, using(crate::proofs::AskLemmas::one_more_ask, crate::proofs::AskLemmas::no_more_asks))]
    fn ask(&mut self, alloc: Global, turn: u64, ask: &Ask) -> Mem<()> {
        let line = ask_bytes(alloc, turn, ask)?;
        self.bytes.extend_from_slice(&line)?;
        Ok(())
    }
}
