// The host of real children that are sent signals.
ghost use Rattle.std.specs.Prelude.{◌≡◌};

use crate::pace::Pace;
use crate::{PacedOutside, PacedTicker, ProcessKeeper};
use run_capture::Shared;
use run_drive::Host;
use run_host::StdHost;
use run_keep::{KeeperHost, Outside};
use std::alloc::Global;
use std::fs::Files;
use std::process::{OpenProcess, Processes};
use std::sync::Wait;
use std::time::Clock;

/// Makes keepers of processes, and tickers that answer once one of them asks. Its words are those of a `StdHost`.
#[derive(Drop)]
pub struct StdKeeperHost<
    P: Processes + Files + Clock + Eprint + Copy + Drop,
    X: Wait + Clock + Copy + Drop,
> {
    outside: P,
    rt: X,
    host: StdHost<P>,
    pace: Option<Shared<Pace>>,
}

impl<
    P: Processes + Files + Clock + Eprint + Copy + Drop,
    X: Wait + Clock + Copy + Drop,
> StdKeeperHost<P, X> {
    /// A host over what is outside.
    pub fn new(outside: P, rt: X, alloc: Global) -> Self {
        StdKeeperHost {
            outside,
            rt,
            host: StdHost::new(outside),
            pace: Shared::new(alloc, Pace::new()).ok(),
        }
    }

    /// An outside that asks the host's tickers for the time before it says that something came.
    pub fn paced<O: Outside + Drop>(&self, outside: O) -> PacedOutside<O, X>
        ensures { result.outside ≡ outside }
    {
        PacedOutside::new(self.rt, outside, self.pace())
    }

    // What its keepers and tickers share, if they share something.
    fn pace(&self) -> Option<Shared<Pace>> {
        match &self.pace {
            Some(pace) => pace.share().ok(),
            None => None,
        }
    }
}

impl<
    P: Processes + Files + Clock + Eprint + Copy + Send + Drop,
    X: Wait + Clock + Copy + Send + Drop,
> KeeperHost for StdKeeperHost<P, X>
where
    P::Started: Send,
    <P::Started as OpenProcess>::Stdin: Send,
    <P::Started as OpenProcess>::Stdout: Send,
    <P::Started as OpenProcess>::Stderr: Send,
{
    type Worker = ProcessKeeper<P, X>;

    type Tick = PacedTicker<X>;

    fn keeper(&mut self) -> ProcessKeeper<P, X> {
        ProcessKeeper::paced(self.outside, self.rt, self.pace())
    }

    fn ticker(&mut self) -> PacedTicker<X> {
        PacedTicker::new(self.rt, self.pace())
    }

    fn word(&mut self) -> u32 {
        self.host.word()
    }
}
