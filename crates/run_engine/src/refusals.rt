// The reporter's answers to the events of a turn.
ghost use Rattle.std.specs.Prelude.{◌≡◌, ◌++◌, ◌∷◌, [], IfOk, OnOk};
ghost use Rattle.std.specs.List.{list_any};

use run_capture::{List, Mem};
use std::alloc::Global;
use std::marker::Model;

/// Of each event of a turn, in order, whether the reporter refused it. It takes no memory before the first refusal.
#[derive(Drop)]
pub struct Refusals {
    /// How many were not refused before those that are kept.
    accepted: u32,
    kept: List<bool>,
}

impl Model for Refusals {
    ghost use Rattle.std.specs.Prelude.{List, Bool, false, replicate, ◌++◌};

    ghost Value = { List Bool };

    ghost view = { λ r. replicate r.accepted false ++ r.kept };
}

impl Refusals {
    /// Those to no event.
    pub fn new() -> Refusals
        ensures { result ≡ [] }
    {
        Refusals {
            accepted: 0,
            kept: List::new(),
        }
    }

    /// One more answer.
    pub fn push(&mut self, alloc: Global, refused: bool) -> Mem<()>
        ensures { OnOk result (self.new ≡ self.old ++ refused ∷ []) }
    {
        if refused || !self.kept.is_empty() || self.accepted == u32::MAX {
            self.kept.push(alloc, refused)?;
            return Ok(());
        }
        self.accepted += 1;
        Ok(())
    }

    /// Some of the answers, of which one says that it was refused where one of all does.
    pub fn kept(&self) -> &[bool]
        ensures { list_any (λ refused. refused) result.now
            ≡ list_any (λ refused. refused) self.now }
    {
        self.kept.as_slice()
    }

    /// The answers as a list.
    pub fn to_list(&self, alloc: Global) -> Mem<List<bool>>
        ensures { IfOk result (λ list. list ≡ self.now) }
    {
        let mut list = List::new();
        for _ in 0..self.accepted {
            list.push(alloc, false)?;
        }
        for refused in self.kept.as_slice() {
            list.push(alloc, *refused)?;
        }
        Ok(list)
    }
}
