// A display that hears a run's events, and gives the line of each.
ghost use Rattle.std.specs.Prelude.{◌≡◌, IfOk, OnErr, unwrap_or, slice_get};
ghost use Rattle.run_output.specs.Shown.{IsScreen, line_in, screen_after, after_tick, first_screen, shown_in};
ghost use Rattle.run_output.specs.Shown.{next_tick};
ghost use Rattle.run_events.specs.declared.events.ReporterEvent.TheVariants.{Tick, Test};

use run_capture::{List, Mem, Text};
use run_events::{ReporterEvent, RunMode, TestEvent};
use run_progress::{LiveProgress, MaxProgressRunning};
use std::alloc::Global;

/// A display on a terminal of a width, with the clocks of the ticks that come, and how many came.
#[derive(Drop)]
pub(crate) struct Watcher {
    pub width: u32,
    pub state: LiveProgress,
    pub clocks: List<u64>,
    pub ticks: usize,
}

impl Watcher {
    /// One that has heard no event.
    pub(crate) fn new(
        mode: RunMode,
        run_count: u64,
        max: MaxProgressRunning,
        width: u32,
        clocks: List<u64>,
    ) -> Watcher
        ensures { IsScreen result (first_screen mode max width clocks) }
    {
        Watcher {
            width,
            state: LiveProgress::new(mode, run_count, max),
            clocks,
            ticks: 0,
        }
    }

    // The clock of the tick that comes next.
    fn now(&self) -> u64
        ensures { result ≡ unwrap_or (slice_get self.now.clocks self.now.ticks) 0 }
    {
        match self.clocks.get(self.ticks) {
            Some(clock) => *clock,
            None => 0,
        }
    }

    // How many ticks came, after one more.
    fn next_tick(&self) -> usize
        ensures { result ≡ next_tick self.now.clocks self.now.ticks }
    {
        if self.ticks < self.clocks.len() {
            self.ticks + 1
        } else {
            self.ticks
        }
    }

    // The line of a tick that comes at this clock, and how the display shows after it.
    fn text(&mut self, alloc: Global) -> Mem<Text>
        ensures ok { IfOk result (λ line. (w : _) → IsScreen self.old w
            → (line ≡ line_in w Tick) × IsScreen self.new (shown_in w)) }
        ensures err { OnErr result (self.new ≡ self.old) }
    {
        if self.state.hidden() {
            return Ok(Text::from_string(String::new(alloc)));
        }
        let now = self.now();
        let line = self.state.tick_line(alloc, now, self.width)?;
        Ok(line)
    }

    // The line of a tick.
    fn tick(&mut self, alloc: Global) -> Mem<Text>
        ensures ok { IfOk result (λ line. (w : _) → IsScreen self.old w
            → (line ≡ line_in w Tick) × IsScreen self.new (after_tick w)) }
        ensures err { OnErr result (self.new ≡ self.old) }
    {
        let line = self.text(alloc)?;
        self.ticks = self.next_tick();
        Ok(line)
    }

    // The line of another event, which has none.
    fn hear(&mut self, alloc: Global, event: &TestEvent) -> Mem<Text>
        ensures ok { IfOk result (λ line. (w : _) → IsScreen self.old w
            → (line ≡ line_in w (Test event.now))
            × IsScreen self.new (screen_after w (Test event.now))) }
        ensures err { OnErr result (self.new ≡ self.old) }
    {
        self.state.apply(alloc, event)?;
        Ok(Text::from_string(String::new(alloc)))
    }

    /// The line of an event, with its line feed: a text of no bytes where the event has none.
    pub(crate) fn line(&mut self, alloc: Global, event: &ReporterEvent) -> Mem<Text>
        ensures ok { IfOk result (λ line. (w : _) → IsScreen self.old w
            → (line ≡ line_in w event.now) × IsScreen self.new (screen_after w event.now)) }
        ensures err { OnErr result (self.new ≡ self.old) }
    {
        match event {
            ReporterEvent::Tick => self.tick(alloc),
            ReporterEvent::Test(event) => self.hear(alloc, event),
        }
    }
}
