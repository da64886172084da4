// What a run keeps of its history.
ghost use Rattle.std.specs.Prelude.{◌≡◌, ◌<◌, ◌+◌, ◌^◌, [], IfOk, false, length, option_map};
ghost use Rattle.run_clock.specs.Sleep.{IsDueFrom};
ghost use Rattle.run_events.specs.declared.settings.Settings.{Settings};
ghost use Rattle.run_model.specs.Admission.{units_in};
ghost use Rattle.run_model.specs.Reruns.{AreAscending};
ghost use Rattle.std.specs.List.{list_any};
ghost use Rattle.run_model.specs.Board.{board, answered, unit_in};
ghost use Rattle.run_model.specs.Dispatch.{is_halted};
ghost use Rattle.run_model.specs.Turns.{facts, is_held, is_third_signal};
ghost use Rattle.run_state.specs.Due.{is_any_due};
ghost use Rattle.run_state.specs.Forgotten.{test_forgotten};
ghost use Rattle.run_state.specs.Held.{held, KeepsSeats};
ghost use Rattle.run_state.specs.Placed.{FitsUnits};

use crate::kept::{Kept, first_parts};
use crate::units::Units;
use run_capture::Mem;
use run_clock::sooner;
use run_dispatch::Dispatcher;
use run_events::{InfoResponse, Message, Request, RunOutcome, RunStats, Settings, Turn};
use run_model::{Facts, Phase};
use std::alloc::Global;
use std::collections::VecDeque;
use std::marker::Model;

/// What a run keeps of its history. Contracts see it as the board that turns read, and what is kept beside that. Its
/// last units are tests, one for each seat.
#[derive(Drop)]
pub struct State {
    /// Each script and test of the plan, once it was admitted.
    pub(crate) units: Units,
    /// The messages that wait, the oldest first.
    pub(crate) queue: VecDeque<Message>,
    /// The answers of the open round of queries that wait to be told, the oldest first.
    pub(crate) answers: VecDeque<InfoResponse>,
    pub(crate) dispatcher: Dispatcher,
    /// How many units have in their lines what the open round asks.
    pub(crate) holders: u32,
    /// The run's clock, in nanoseconds.
    pub(crate) clock: u64,
    /// Whether the reporter refused an event.
    pub(crate) refused: bool,
    /// What is kept of the plan beside the units.
    pub(crate) kept: Kept,
}

impl Model for State {
    ghost use Rattle.run_state.specs.Held.{Held};
    ghost use Rattle.run_state.specs.Placed.{FitsUnits};

    ghost Value = { Held };

    ghost view = { λ s. record {
      board = record {
        units = s.units;
        queue = s.queue.items;
        answers = s.answers.items;
        dispatcher = s.dispatcher;
        clock = s.clock;
        refused = s.refused;
      };
      kept = s.kept;
    } };

    ghost invariant = { λ s. FitsUnits s.dispatcher.rounds.asks s.units s.holders s.kept.limits };
}

// Whether one of these was refused.
fn is_one_refused(refused: &[bool]) -> bool
    ensures { result ≡ list_any (λ refused. refused) refused.now }
{
    refused.iter().any(|refused| *refused)
}

// A state of these parts, at the clock's 0, in which nothing waits.
fn at_rest(alloc: Global, units: Units, dispatcher: Dispatcher, kept: Kept) -> State
    requires { FitsUnits dispatcher.rounds.asks units 0 kept.limits }
    ensures board { result.board ≡ record {
      units = units;
      queue = [];
      answers = [];
      dispatcher = dispatcher;
      clock = 0;
      refused = false;
    } }
    ensures kept { result.kept ≡ kept }
{
    State {
        units,
        queue: VecDeque::new(alloc),
        answers: VecDeque::new(alloc),
        dispatcher,
        holders: 0,
        clock: 0,
        refused: false,
        kept,
    }
}

impl State {
    /// The state of a run that has taken no turn.
    pub fn new(alloc: Global, settings: &Settings) -> Mem<State>
        requires few { units_in settings.now < 2 ^ 32 }
        requires ascending { AreAscending settings.now.expected }
        ensures { IfOk result (λ s. s ≡ held settings.now (board settings.now [])) }
    {
        let (units, kept) = first_parts(alloc, settings)?;
        let dispatcher = Dispatcher::new(alloc, settings)?;
        Ok(at_rest(alloc, units, dispatcher, kept))
    }

    /// The clock moves by so many nanoseconds.
    pub(crate) fn pass(&mut self, ns: u64)
        requires { self.old.board.clock + ns < 2 ^ 64 }
        ensures { self.new
            ≡ record self.old { board = record self.old.board { clock = self.old.board.clock + ns } } }
    {
        self.clock += ns;
    }

    /// The reporter answered to the events of a turn: of each, whether it refused it.
    pub fn hear_answers(&mut self, refused: &[bool])
        ensures { self.new ≡ record self.old { board = answered self.old.board refused.now } }
    {
        self.refused = is_one_refused(refused) || self.refused;
    }

    /// Nothing is kept of a unit but that it is over, where it is a test that is over and no request waits for it.
    pub fn forget(&mut self, settings: &Settings, unit: u32)
        ensures board { self.new.board ≡ record self.old.board {
          units = test_forgotten settings.now unit self.old.board.units;
        } }
        ensures kept { self.new.kept ≡ self.old.kept }
        ensures seated { KeepsSeats settings.now self.old → KeepsSeats settings.now self.new }
    {
        if (unit as usize) < settings.plan.scripts.len() {
            return;
        }
        self.units.forget_one(unit);
    }

    /// Whether a turn is a shutdown signal that would be taken, but that two came before it.
    pub fn is_third_signal(&self, turn: &Turn) -> bool
        ensures { result ≡ is_third_signal self.now.board turn.now }
    {
        self.dispatcher.is_third_signal(turn)
    }

    /// Whether the run has ended.
    pub fn is_over(&self) -> bool
        ensures { result ≡ self.now.board.dispatcher.over }
    {
        self.dispatcher.is_over()
    }

    /// The run's clock, in nanoseconds.
    pub fn now(&self) -> u64
        ensures { result ≡ self.now.board.clock }
    {
        self.clock
    }

    /// The statistics of the newest sub-run so far.
    pub fn stats(&self) -> RunStats
        ensures { result ≡ self.now.board.dispatcher.tally.stats }
    {
        self.dispatcher.stats()
    }

    /// The outcomes of the sub-runs that have ended, put together: none where none has.
    pub fn outcome(&self) -> Option<RunOutcome>
        ensures { result ≡ self.now.board.dispatcher.sub_runs.outcome }
    {
        self.dispatcher.outcome()
    }

    /// How many tests of the newest sub-run were told started and not told finished.
    pub fn running(&self) -> u32
        ensures { result ≡ self.now.board.dispatcher.tally.running }
    {
        self.dispatcher.running()
    }

    /// The phase of a unit, if it was admitted.
    pub fn phase(&self, unit: u32) -> Option<Phase>
        ensures { result ≡ option_map (λ unit. unit.phase) (unit_in self.now.board unit) }
    {
        self.units.phase(unit)
    }

    /// Which attempt a unit is at, from 1, if it was admitted; between two attempts the failed one.
    pub fn attempt(&self, unit: u32) -> Option<u32>
        ensures { result ≡ option_map (λ unit. unit.attempt) (unit_in self.now.board unit) }
    {
        self.units.attempt(unit)
    }

    /// What the dispatcher asks of the rest of the run. Takes no look at all units.
    pub(crate) fn facts(&self) -> Facts
        ensures { result ≡ facts self.now.board }
    {
        let message_waits = !self.queue.is_empty();
        Facts {
            live: self.units.live(),
            held: self.is_held(),
            answer_waits: !self.answers.is_empty(),
            message_waits,
            complete: !message_waits && self.units.are_over(),
            refused: self.refused,
        }
    }

    // Whether a unit has in its line what the open round asks.
    fn is_held(&self) -> bool
        ensures { result ≡ is_held self.now.board.dispatcher.rounds.asks self.now.board.units }
    {
        self.holders > 0
    }

    /// Whether the run is paused.
    pub fn is_paused(&self) -> bool
        ensures { result ≡ is_halted self.now.board.dispatcher }
    {
        self.dispatcher.is_paused()
    }

    /// What the open round asks of each live unit, where one is open.
    pub fn round(&self) -> Option<Request>
        ensures { result ≡ self.now.board.dispatcher.rounds.asks }
    {
        self.dispatcher.round_request()
    }

    /// The least moment of the run's clock at which a timer is due: that of the run, of the open round, or of a unit.
    /// It looks at the units that were admitted and aren't over.
    pub fn next_due(&self) -> Option<u64>
        ensures { (p : Settings) → length self.now.board.units ≡ units_in p
            → IsDueFrom (is_any_due p self.now.board) result }
    {
        if self.dispatcher.is_over() {
            return None;
        }
        let own = sooner(
            self.dispatcher.next_due(),
            self.dispatcher.round_due(self.facts()),
        );
        sooner(own, self.units.next_due())
    }
}
