// A keeper, an outside and a host in memory. What comes from outside waits for what a keeper was asked.
use run_capture::{List, Mem};
use run_commands::EnvInput;
use run_drive::{Begun, Said, Ticker};
use run_events::{SignalAsk, StartAsk};
use run_keep::{Came, Keeper, KeeperHost, MemoryKeeper, Outside, Sent};
use std::alloc::Global;
use std::sync::Arc;
use std::sync::atomic::{AtomicU64, Ordering};
use std::thread;
use std::time::{Clock, Duration};

/// How many starts and signals keepers were asked.
pub(crate) type Count = Arc<AtomicU64, Global>;

/// A keeper in memory that counts what it was asked.
#[derive(Drop)]
pub(crate) struct CountingKeeper {
    pub(crate) keeper: MemoryKeeper,
    pub(crate) count: Option<Count>,
}

impl CountingKeeper {
    // One more was asked.
    fn note(&self) {
        if let Some(count) = &self.count {
            count.fetch_add(1, Ordering::SeqCst);
        }
    }
}

impl Keeper for CountingKeeper {
    ghost has_heard = { λ _ _. Unit {0} };

    ghost offers = { λ _ _. Unit {0} };

    fn start(&mut self, alloc: Global, ask: &StartAsk) -> Mem<Begun> {
        self.note();
        self.keeper.start(alloc, ask)
    }

    fn offer(&mut self, alloc: Global, reads: bool) -> Mem<Option<Said>> {
        thread::yield_now();
        self.keeper.offer(alloc, reads)
    }

    fn accept(&mut self, alloc: Global) -> Mem<()> {
        self.keeper.accept(alloc)
    }

    fn read_env(&mut self, alloc: Global) -> Mem<EnvInput> {
        self.keeper.read_env(alloc)
    }

    fn send(&mut self, alloc: Global, ask: &SignalAsk) -> Mem<Sent> {
        self.note();
        self.keeper.send(alloc, ask)
    }

    fn miss(&mut self, alloc: Global, ask: &SignalAsk) -> Mem<()> {
        self.keeper.miss(alloc, ask)
    }

    fn end(&mut self) {
        self.keeper.end();
    }
}

/// An outside of given signals and ticks. The first signal comes once a keeper was asked something, each other once one
/// more was; a tick comes behind what is before it.
#[derive(Drop)]
pub(crate) struct WaitingOutside {
    pub(crate) signals: List<Came>,
    pub(crate) at: usize,
    /// So many were asked of a keeper before the last signal came.
    pub(crate) asked: u64,
    pub(crate) count: Count,
}

impl Outside for WaitingOutside {
    ghost has_come = { λ _ _. Unit {0} };

    fn next(&mut self, _alloc: Global) -> Mem<Option<Came>> {
        thread::yield_now();
        if self.count.load(Ordering::SeqCst) <= self.asked {
            return Ok(None);
        }
        let came = self.signals.get(self.at).copied();
        if came.is_some() {
            self.at = self.at.saturating_add(1);
        }
        if let Some(Came::Signal { .. }) = came {
            self.asked = self.asked.saturating_add(1);
        }
        Ok(came)
    }

    fn pause(&mut self) {
        thread::yield_now();
    }
}

/// A ticker of a millisecond.
#[derive(Drop)]
pub(crate) struct Milliseconds<C> {
    clock: C,
}

impl<C: Clock> Ticker for Milliseconds<C> {
    ghost has_told = { λ s told. Unit {0} };

    fn next(&mut self) -> u64 {
        thread::sleep(&self.clock, Duration::from_millis(1));
        1_000_000
    }
}

/// A host with the keepers that were made for it.
#[derive(Drop)]
pub(crate) struct CountingHost<C> {
    pub(crate) clock: C,
    pub(crate) keepers: Vec<CountingKeeper>,
}

impl<C: Clock + Copy + Send + Drop> KeeperHost for CountingHost<C> {
    type Worker = CountingKeeper;

    type Tick = Milliseconds<C>;

    fn keeper(&mut self) -> CountingKeeper {
        match self.keepers.pop() {
            Some(keeper) => keeper,
            None => CountingKeeper {
                keeper: MemoryKeeper::new(List::new()),
                count: None,
            },
        }
    }

    fn ticker(&mut self) -> Milliseconds<C> {
        Milliseconds { clock: self.clock }
    }

    fn word(&mut self) -> u32 {
        7
    }
}
