// The journal of a run.
use run_capture::{Duplicate, List, Mem};
use run_events::Turn;
use std::alloc::Global;

/// A turn of the journal, and of each event that it told whether the reporter refused it.
#[derive(Drop)]
pub struct Entry {
    pub turn: Turn,
    pub refused: List<bool>,
}

impl Duplicate for Entry {
    fn copy(&self, alloc: Global) -> Mem<Entry> {
        Ok(Entry {
            turn: self.turn.copy(alloc)?,
            refused: self.refused.copy(alloc)?,
        })
    }
}
