// A sleep that can be paused.
ghost use Rattle.std.specs.Prelude.{◌≡◌, ◌+◌, ◌≤◌, [], IfSome};
ghost use Rattle.run_clock.specs.Counted.{pause, resume, is_paused, is_due};
ghost use Rattle.run_clock.specs.Sleep.{set_at, is_stopped, paused_at, resumed_at, reset_at, fires_at, IsOutOfReach};
ghost use Rattle.run_clock.specs.Sleep.{fires_now, ready_where, IsDueFrom, Keeps};
ghost use Rattle.run_clock.specs.Sleep.{ForTimer, ForTimerBy, AddsToTimer, SetsAgain};

use crate::poll::Poll;
use crate::sleep_state::SleepState;
use std::marker::Model;

/// A sleep of a duration, which can be paused and set again. Moments and times are whole nanoseconds. A call is given
/// no earlier moment than the latest that the sleep was given when it was made or changed.
#[derive(Debug, Drop)]
pub struct PausableSleep {
    latest: u64,
    last_duration: u64,
    state: SleepState,
}

impl Model for PausableSleep {
    ghost use Rattle.std.specs.Prelude.{◌≤◌};
    ghost use Rattle.run_clock.specs.Sleep.{Sleep, remaining_at};

    ghost Value = { Sleep };

    ghost view = { λ s. record { latest = s.latest; last_duration = s.last_duration; state = s.state } };

    ghost invariant = { λ s. remaining_at s.state s.latest ≤ s.last_duration };
}

impl PausableSleep {
    /// Starts a sleep, running, whose deadline is now plus its duration. One past the greatest `u64` never fires.
    pub fn new(now: u64, duration: u64) -> Self
        ensures started { result ≡ set_at now duration }
        ensures timer { Keeps (record { set = now; duration = duration; past = [] }) result }
    {
        PausableSleep {
            latest: now,
            last_duration: duration,
            state: SleepState::until(now, duration),
        }
    }

    /// Pauses the sleep, which keeps the remaining time, 0 past the deadline. A paused sleep stays as it is.
    pub fn pause(&mut self, now: u64)
        requires { self.old.latest ≤ now }
        ensures paused { self.new ≡ record self.old {
          latest = now;
          state = paused_at self.old.state now;
        } }
        ensures timer { AddsToTimer pause self.old self.new now }
    {
        if let SleepState::Running { deadline } = self.state {
            self.state = SleepState::Paused {
                remaining: deadline.saturating_sub(u128::from(now)) as u64,
            };
        }
        self.latest = now;
    }

    /// Runs the sleep again, with the deadline at now plus the remaining time. A running sleep stays as it is.
    pub fn resume(&mut self, now: u64)
        requires { self.old.latest ≤ now }
        ensures resumed { self.new ≡ record self.old {
          latest = now;
          state = resumed_at self.old.state now;
        } }
        ensures timer { AddsToTimer resume self.old self.new now }
    {
        if let SleepState::Paused { remaining } = self.state {
            self.state = SleepState::until(now, remaining);
        }
        self.latest = now;
    }

    /// Sets the sleep again, with this duration. A running sleep has its deadline at now plus the duration, a paused
    /// one stays paused and has the duration as its remaining time.
    pub fn reset(&mut self, now: u64, duration: u64)
        requires { self.old.latest ≤ now }
        ensures reset { self.new ≡ record {
          latest = now;
          last_duration = duration;
          state = reset_at self.old.state now duration;
        } }
        ensures timer { SetsAgain duration self.old self.new now }
    {
        self.state = match self.state {
            SleepState::Running { .. } => SleepState::until(now, duration),
            SleepState::Paused { .. } => SleepState::Paused {
                remaining: duration,
            },
        };
        self.last_duration = duration;
        self.latest = now;
    }

    /// Sets the sleep again, with the duration that it was given last.
    pub fn reset_last_duration(&mut self, now: u64)
        requires { self.old.latest ≤ now }
        ensures reset { self.new ≡ record self.old {
          latest = now;
          state = reset_at self.old.state now self.old.last_duration;
        } }
        ensures timer { SetsAgain self.old.last_duration self.old self.new now }
    {
        self.reset(now, self.last_duration);
    }

    /// Whether it is paused.
    pub fn is_paused(&self) -> bool
        ensures paused { result ≡ is_stopped self.now.state }
        ensures timer { ForTimer self.now (λ timer. result ≡ is_paused timer.past) }
    {
        matches!(self.state, SleepState::Paused { .. })
    }

    /// Ready exactly where the sleep isn't paused and now isn't before its deadline. It may be asked again after that.
    pub fn poll_at(&self, now: u64) -> Poll<()>
        requires { self.now.latest ≤ now }
        ensures fires { result ≡ ready_where (fires_at self.now.state now) }
        ensures never { IsOutOfReach self.now.state → result ≡ Poll.Pending }
        ensures due { ForTimerBy self.now now (λ timer. result ≡ ready_where (is_due timer now)) }
    {
        let fires = match self.state {
            SleepState::Running { deadline } => deadline <= u128::from(now),
            SleepState::Paused { .. } => false,
        };
        if fires {
            Poll::Ready(())
        } else {
            Poll::Pending
        }
    }

    /// The least moment at which it fires: none where it is paused, or its deadline is past the greatest `u64`.
    pub fn due_from(&self) -> Option<u64>
        ensures { IsDueFrom (fires_at self.now.state) result }
    {
        match self.state {
            SleepState::Running { deadline } => {
                if deadline > u128::from(u64::MAX) {
                    None
                } else {
                    Some(deadline as u64)
                }
            }
            SleepState::Paused { .. } => None,
        }
    }
}

/// Whether a timer is set and fires at now.
pub fn fires_now(timer: &Option<PausableSleep>, now: u64) -> bool
    requires { IfSome timer.now (λ timer. timer.latest ≤ now) }
    ensures { result ≡ fires_now now timer.now }
{
    match timer {
        Some(timer) => matches!(timer.poll_at(now), Poll::Ready(())),
        None => false,
    }
}
