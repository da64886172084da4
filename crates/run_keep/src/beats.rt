// What the threads of a run note for one another.
use std::sync::atomic::{AtomicU64, Ordering};

/// How often the clock was moved, and how many signals were handed on.
#[derive(Drop)]
pub struct Beats {
    ticks: AtomicU64,
    orders: AtomicU64,
}

impl Beats {
    /// Nothing yet.
    pub fn new() -> Beats {
        Beats {
            ticks: AtomicU64::new(0),
            orders: AtomicU64::new(0),
        }
    }

    pub(crate) fn note_tick(&self) {
        self.ticks.fetch_add(1, Ordering::SeqCst);
    }

    pub(crate) fn ticks(&self) -> u64 {
        self.ticks.load(Ordering::SeqCst)
    }

    pub(crate) fn note_order(&self) {
        self.orders.fetch_add(1, Ordering::SeqCst);
    }

    pub(crate) fn orders(&self) -> u64 {
        self.orders.load(Ordering::SeqCst)
    }
}
