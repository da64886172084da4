// How time goes by, by the clock of the machine.
ghost use Rattle.std.specs.Prelude.{◌≡◌};

use run_drive::Ticker;
use std::thread;
use std::time::{Clock, Duration, Instant};

/// A ticker that waits 10 ms before each answer. Where the clock can't be read it answers 0, and counts that.
#[derive(Drop)]
pub struct ClockTicker<C: Clock + Drop> {
    clock: C,
    last: Option<Instant>,
    faults: u64,
}

impl<C: Clock + Drop> ClockTicker<C> {
    /// A ticker whose time begins now.
    pub fn new(clock: C) -> Self
        ensures { result.faults ≡ 0 }
    {
        let last = Instant::now(&clock).ok();
        ClockTicker {
            clock,
            last,
            faults: 0,
        }
    }

    /// How often the clock could not be read.
    pub fn faults(&self) -> u64
        ensures { result ≡ self.now.faults }
    {
        self.faults
    }

    /// The nanoseconds since the answer before; 0 where the clock can't be read, which is counted.
    pub fn elapsed(&mut self) -> u64 {
        match Instant::now(&self.clock) {
            Ok(now) => {
                let ns = between(self.last, now);
                self.last = Some(now);
                ns
            }
            Err(_) => {
                self.faults = self.faults.saturating_add(1);
                0
            }
        }
    }
}

// The nanoseconds between two moments; 0 where there is no first.
fn between(last: Option<Instant>, now: Instant) -> u64 {
    match last {
        Some(last) => now.duration_since(last).as_nanos().min(u64::MAX as u128) as u64,
        None => 0,
    }
}

impl<C: Clock + Drop> Ticker for ClockTicker<C> {
    ghost has_told = { λ s told. Unit {0} };

    fn next(&mut self) -> u64 {
        thread::sleep(&self.clock, Duration::from_millis(10));
        self.elapsed()
    }
}
