// What a run is asked. No answer takes memory.
ghost use Rattle.std.specs.Prelude.{◌≡◌, ◌&&◌, ◌||◌, length, nat_le, not, if◌then◌else◌, option_map, Some, None, true};
ghost use Rattle.std.specs.Prelude.{false};
ghost use Rattle.run_clock.specs.Sleep.{IsDueFrom};
ghost use Rattle.run_model.specs.Board.{board, unit_in};
ghost use Rattle.run_model.specs.Dispatch.{is_halted};
ghost use Rattle.run_model.specs.Journal.{outcome};
ghost use Rattle.run_model.specs.Turns.{enabled};
ghost use Rattle.run_model.specs.Words.{clock, is_over, sub_run, stats, running};
ghost use Rattle.run_state.specs.Due.{is_any_due};
ghost use Rattle.run_engine.specs.Standing.{IsRunnable};
ghost use Rattle.run_engine.specs.World.{history_of};

use crate::run::{MOST_TURNS, Run};
use run_events::{Request, RunOutcome, RunStats, Turn};
use run_model::Phase;
use run_state::is_enabled;

impl Run {
    /// Whether the run is over.
    pub fn is_over(&self) -> bool
        ensures over { result ≡ is_over (history_of self.now) }
        ensures runnable { IsRunnable self.now.settings self.now.journal }
    {
        !self.broken && self.state.is_over()
    }

    /// The outcome of a run that is over, and none of one that isn't.
    pub fn outcome(&self) -> Option<RunOutcome>
        ensures outcome { result ≡ outcome self.now.settings (history_of self.now) }
        ensures runnable { IsRunnable self.now.settings self.now.journal }
    {
        if self.broken || !self.state.is_over() {
            return None;
        }
        self.state.outcome()
    }

    /// Whether the run takes no turn any more: it is over, or broken, or its journal is full.
    pub fn is_done(&self) -> bool
        ensures { result ≡ (self.now.broken || is_over (history_of self.now)
            || nat_le 4294967295 (length self.now.journal)) }
    {
        self.broken || self.is_over() || self.journal.len() >= MOST_TURNS
    }

    /// Whether a turn is enabled after the journal: `step` takes it, but where the journal is full or memory is
    /// wanting. None is in a broken run.
    pub fn is_enabled(&self, turn: &Turn) -> bool
        ensures { result ≡ (not self.now.broken
            && enabled self.now.settings (history_of self.now) turn.now) }
    {
        if self.broken {
            return false;
        }
        is_enabled(self.settings.get(), &self.state, turn)
    }

    /// The moment of the run's clock, in nanoseconds: what its turns of the clock come to; none of a broken run. A turn
    /// of the clock takes a step from here, and `next_due` answers a moment.
    pub fn now(&self) -> Option<u64>
        ensures { result ≡ (if self.now.broken then None else Some (clock (history_of self.now))) }
    {
        if self.broken {
            return None;
        }
        Some(self.state.now())
    }

    /// The least moment of the run's clock, in nanoseconds, at which a timer is due: with the clock there the turn of
    /// the run's timer, of the open round's wait or of a unit's timer is enabled, and with the clock at an earlier
    /// moment none is. None where none is due at any moment of a `u64`, and of a broken run.
    pub fn next_due(&self) -> Option<u64>
        ensures due { self.now.broken ≡ false → IsDueFrom
            (is_any_due self.now.settings (board self.now.settings (history_of self.now))) result }
        ensures broken { self.now.broken ≡ true → result ≡ None }
    {
        if self.broken {
            return None;
        }
        self.state.next_due()
    }

    /// Whether the run is stopped; a broken run isn't.
    pub fn is_paused(&self) -> bool
        ensures { result ≡ (not self.now.broken && is_halted
            (board self.now.settings (history_of self.now)).dispatcher) }
    {
        !self.broken && self.state.is_paused()
    }

    /// What the open round asks of each live unit: none where no round is open, and in a broken run.
    pub fn round(&self) -> Option<Request>
        ensures { result ≡ (if self.now.broken then None
            else (board self.now.settings (history_of self.now)).dispatcher.rounds.asks) }
    {
        if self.broken {
            return None;
        }
        self.state.round()
    }

    /// The statistics of the newest sub-run so far, none of a broken run.
    pub fn stats(&self) -> Option<RunStats>
        ensures { result ≡ (if self.now.broken then None
            else Some (stats self.now.settings (sub_run (history_of self.now)))) }
    {
        if self.broken {
            return None;
        }
        Some(self.state.stats())
    }

    /// How many tests of the newest sub-run were told started and not told finished, none of a broken run.
    pub fn running(&self) -> Option<u32>
        ensures { result ≡ (if self.now.broken then None
            else Some (running self.now.settings (sub_run (history_of self.now)))) }
    {
        if self.broken {
            return None;
        }
        Some(self.state.running())
    }

    /// The phase of a script or test of the newest sub-run, which says what turns it waits for: none before its
    /// admission, and none in a broken run.
    pub fn phase(&self, unit: u32) -> Option<Phase>
        ensures { result ≡ (if self.now.broken then None else option_map (λ unit. unit.phase)
            (unit_in (board self.now.settings (history_of self.now)) unit)) }
    {
        if self.broken {
            return None;
        }
        self.state.phase(unit)
    }
}
