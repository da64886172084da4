// How time goes by where keepers ask for it.
use crate::pace::Pace;
use run_capture::Shared;
use run_drive::Ticker;
use run_host::ClockTicker;
use std::sync::Wait;
use std::time::Clock;

/// A ticker that answers once a keeper asks, and after 10 ms else. Where memory was wanting for what they share it
/// answers each 10 ms.
#[derive(Drop)]
pub struct PacedTicker<X: Wait + Clock + Drop> {
    rt: X,
    ticker: ClockTicker<X>,
    pace: Option<Shared<Pace>>,
}

impl<X: Wait + Clock + Copy + Drop> PacedTicker<X> {
    /// A ticker whose time begins now.
    pub(crate) fn new(rt: X, pace: Option<Shared<Pace>>) -> Self {
        PacedTicker {
            rt,
            ticker: ClockTicker::new(rt),
            pace,
        }
    }
}

impl<X: Wait + Clock + Copy + Drop> Ticker for PacedTicker<X> {
    ghost has_told = { λ s told. Unit {0} };

    fn next(&mut self) -> u64 {
        match &self.pace {
            Some(pace) => {
                pace.get().rest(&self.rt);
                self.ticker.elapsed()
            }
            None => self.ticker.next(),
        }
    }
}
