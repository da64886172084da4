// A host whose children end only once two of them run at a time.
use run_capture::{Boxed, Mem, Stream, Text};
use run_drive::{Begun, Host, Said, Spawner, Ticker};
use run_events::{ChildExit, StartAsk};
use std::alloc::Global;
use std::sync::Arc;
use std::sync::atomic::{AtomicU64, Ordering};
use std::thread;
use std::time::{Clock, Duration};

/// How many children run at a time where the gate opens.
const AT_A_TIME: u64 = 2;

// How often a child looks whether the gate is open.
const LOOKS: u32 = 100_000_000;

/// A spawner whose child waits until so many were started at a time, says the ends of its streams, and exits with 0.
/// The spawners of a host share the count of the children that were started.
#[derive(Drop)]
pub(crate) struct GateSpawner {
    started: Option<Arc<AtomicU64, Global>>,
    said: u8,
}

impl GateSpawner {
    pub(crate) fn new(started: Option<Arc<AtomicU64, Global>>) -> GateSpawner {
        GateSpawner { started, said: 0 }
    }

    // Whether so many children were started, after some time.
    fn is_open(&self) -> bool {
        let Some(started) = &self.started else {
            return false;
        };
        for _ in 0..LOOKS {
            if started.load(Ordering::SeqCst) >= AT_A_TIME {
                return true;
            }
            thread::yield_now();
        }
        false
    }

    // The next thing that a child says whose gate is open.
    fn word(&mut self) -> Said {
        match self.said {
            0 => {
                self.said = 1;
                Said::End {
                    stream: Stream::Stdout,
                }
            }
            1 => {
                self.said = 2;
                Said::End {
                    stream: Stream::Stderr,
                }
            }
            _ => Said::Exit {
                exit: ChildExit::Code(0),
            },
        }
    }
}

impl Spawner for GateSpawner {
    ghost has_said = { λ s xs. Unit {0} };

    fn start(&mut self, _alloc: Global, _ask: &StartAsk) -> Mem<Begun> {
        self.said = 0;
        if let Some(started) = &self.started {
            started.fetch_add(1, Ordering::SeqCst);
        }
        Ok(Begun::Started { pid: 100 })
    }

    fn next(&mut self, alloc: Global) -> Mem<Said> {
        if self.said == 0 && !self.is_open() {
            let error = Boxed::new(alloc, Text::from_str(alloc, "gate")?)?;
            return Ok(Said::WaitFailed { error });
        }
        Ok(self.word())
    }
}

/// A ticker of a millisecond.
#[derive(Drop)]
pub(crate) struct Milliseconds<C> {
    clock: C,
}

impl<C: Clock> Ticker for Milliseconds<C> {
    ghost has_told = { λ s told. Unit {0} };

    fn next(&mut self) -> u64 {
        thread::sleep(&self.clock, Duration::from_millis(1));
        1_000_000
    }
}

/// A host with the spawners that were made for it.
#[derive(Drop)]
pub(crate) struct GateHost<C> {
    pub(crate) clock: C,
    pub(crate) spawners: Vec<GateSpawner>,
}

impl<C: Clock + Copy + Send> Host for GateHost<C> {
    type Worker = GateSpawner;

    type Tick = Milliseconds<C>;

    fn spawner(&mut self) -> GateSpawner {
        match self.spawners.pop() {
            Some(spawner) => spawner,
            None => GateSpawner::new(None),
        }
    }

    fn ticker(&mut self) -> Milliseconds<C> {
        Milliseconds { clock: self.clock }
    }

    fn word(&mut self) -> u32 {
        7
    }
}
