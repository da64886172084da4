// The host of real children.
use crate::{ClockTicker, ProcessSpawner};
use run_drive::Host;
use std::fs::Files;
use std::process::{OpenProcess, Processes};
use std::time::{Clock, SystemTime};

/// Makes spawners of processes and tickers by the clock of the machine. Its words are the low 32 bits of the
/// nanoseconds of the system's clock, and 0 where that can't be read.
#[derive(Drop)]
pub struct StdHost<P: Processes + Files + Clock + Copy + Drop> {
    outside: P,
}

impl<P: Processes + Files + Clock + Copy + Drop> StdHost<P> {
    /// A host over what is outside.
    pub fn new(outside: P) -> Self {
        StdHost { outside }
    }
}

impl<P: Processes + Files + Clock + Copy + Send + Drop> Host for StdHost<P>
where
    P::Started: Send,
    <P::Started as OpenProcess>::Stdin: Send,
    <P::Started as OpenProcess>::Stdout: Send,
    <P::Started as OpenProcess>::Stderr: Send,
{
    type Worker = ProcessSpawner<P>;

    type Tick = ClockTicker<P>;

    fn spawner(&mut self) -> ProcessSpawner<P> {
        ProcessSpawner::new(self.outside)
    }

    fn ticker(&mut self) -> ClockTicker<P> {
        ClockTicker::new(self.outside)
    }

    fn word(&mut self) -> u32 {
        match SystemTime::now(&self.outside) {
            Ok(now) => low_word(now),
            Err(_) => 0,
        }
    }
}

// The low 32 bits of the nanoseconds since the start of 1970.
fn low_word(now: SystemTime) -> u32 {
    match now.duration_since(SystemTime::UNIX_EPOCH) {
        Ok(since) => (since.as_nanos() & 0xffff_ffff) as u32,
        Err(_) => 0,
    }
}
