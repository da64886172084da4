// A stopwatch that can be paused.
ghost use Rattle.std.specs.Prelude.{◌≡◌, ◌+◌, ◌-◌, ◌≤◌, [], is_some, IsSome, IsNone, IfSome, Option, Some, None};
ghost use Rattle.run_clock.specs.Counted.{pause, resume, is_paused, counted_time, paused_time};
ghost use Rattle.run_clock.specs.Stopwatch.{started_at, active_by, Times, ForHistory, ForHistoryBy, AddsToHistory};

use std::marker::Model;

/// A stopwatch, from its start on. Moments and times are whole nanoseconds. A call is given no earlier moment than the
/// latest that the stopwatch was given when it was started, paused or resumed.
#[derive(Clone, Debug, Drop)]
pub struct StopwatchStart {
    latest: u64,
    start: u64,
    paused: u64,
    opened: Option<u64>,
}

impl Model for StopwatchStart {
    ghost use Rattle.std.specs.Prelude.{◌≤◌, ◌+◌, unwrap_or};
    ghost use Rattle.run_clock.specs.Stopwatch.{Watch};

    ghost Value = { Watch };

    ghost view = { λ s. record { latest = s.latest; start = s.start; paused = s.paused; opened = s.opened } };

    ghost invariant = { λ s. (s.start + s.paused ≤ unwrap_or s.opened s.latest)
        × (unwrap_or s.opened s.latest ≤ s.latest) };
}

/// What a stopwatch shows at a moment.
#[derive(Clone, Copy, Debug)]
pub struct StopwatchSnapshot {
    /// The moment of its start.
    pub start: u64,
    /// The time since then that lies in no pause.
    pub active: u64,
    /// The rest of the time since then. A pause that is open counts as paused.
    pub paused: u64,
}

impl StopwatchSnapshot {
    /// A copy, which takes no memory.
    pub fn copy(&self) -> StopwatchSnapshot
        ensures { result ≡ self.now }
    {
        *self
    }
}

impl StopwatchStart {
    /// Starts a stopwatch, running.
    pub fn new(now: u64) -> Self
        ensures started { result ≡ started_at now }
        ensures history { Times now [] result }
    {
        StopwatchStart {
            latest: now,
            start: now,
            paused: 0,
            opened: None,
        }
    }

    /// Opens a pause. Where one is open it does nothing.
    pub fn pause(&mut self, now: u64)
        requires { self.old.latest ≤ now }
        ensures opens { IsNone self.old.opened →
            self.new ≡ record self.old { latest = now; opened = Some now } }
        ensures idle { IsSome self.old.opened → self.new ≡ record self.old { latest = now } }
        ensures history { AddsToHistory pause self.old self.new now }
    {
        if self.opened.is_none() {
            self.opened = Some(now);
        }
        self.latest = now;
    }

    /// Closes the pause that is open. Where none is it does nothing.
    pub fn resume(&mut self, now: u64)
        requires { self.old.latest ≤ now }
        ensures closes { IfSome self.old.opened (λ opened.
            self.new ≡ record self.old {
              latest = now;
              paused = self.old.paused + (now - opened);
              opened = None;
            }) }
        ensures idle { IsNone self.old.opened → self.new ≡ record self.old { latest = now } }
        ensures history { AddsToHistory resume self.old self.new now }
    {
        if let Some(opened) = self.opened {
            self.paused += now - opened;
            self.opened = None;
        }
        self.latest = now;
    }

    /// Whether a pause is open.
    pub fn is_paused(&self) -> bool
        ensures opened { result ≡ is_some self.now.opened }
        ensures history { ForHistory self.now (λ start past. result ≡ is_paused past) }
    {
        self.opened.is_some()
    }

    /// What it shows at a moment.
    #[tactic(auto, using(crate::proofs::CountedLemmas::time_adds_up))]
    pub fn snapshot(&self, now: u64) -> StopwatchSnapshot
        requires { self.now.latest ≤ now }
        ensures start { result.start ≡ self.now.start }
        ensures active { result.active ≡ active_by self.now now }
        ensures whole { result.active + result.paused ≡ now - result.start }
        ensures counted { ForHistoryBy self.now now (λ start past.
            result.active ≡ counted_time start past now) }
        ensures paused { ForHistoryBy self.now now (λ start past.
            result.paused ≡ paused_time start past now) }
    {
        let active = self.opened.unwrap_or(now) - self.start - self.paused;
        StopwatchSnapshot {
            start: self.start,
            active,
            paused: now - self.start - active,
        }
    }
}
