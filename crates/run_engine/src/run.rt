// A run, turn by turn.
ghost use Rattle.std.specs.Prelude.{◌≤◌, ◌≡◌, ◌<◌, ◌+◌, ◌^◌, ◌∷◌, ◌++◌, [], length, map, zip, not, is_none};
ghost use Rattle.std.specs.Prelude.{option_to_list};
ghost use Rattle.std.specs.Prelude.{vec_len, vec_capacity, IfOk, IfErr, OnOk, OnErr, IsErrOf, IsTrue, Option, Some};
ghost use Rattle.std.specs.Prelude.{option_map};
ghost use Rattle.std.specs.Prelude.{ℕ, is_some, None, true, false, IsSome, IsNone, slice_get, if◌then◌else◌};
ghost use Rattle.std.specs.VecDeque.{deque_len, deque_capacity};
ghost use Rattle.std.specs.List.{list_all};
ghost use Rattle.run_events.specs.Tell.{Adds, Retains};
ghost use Rattle.run_laws.specs.Ready.{CanAdvance, IsTimelyBoard};
ghost use Rattle.run_model.specs.Journal.{past_of, IsLegal};
ghost use Rattle.run_model.specs.Admission.{AreFew, units_in};
ghost use Rattle.run_model.specs.Turns.{enabled, enabled_on, turn_of_unit, deed_on};
ghost use Rattle.run_model.specs.Words.{is_over};
ghost use Rattle.run_model.specs.Board.{board, step, answered, deed_events};
ghost use Rattle.run_engine.specs.Broken.{TellsPart, BreaksOff};
ghost use Rattle.run_engine.specs.Starts.{start_among, starts_of};
ghost use Rattle.run_engine.specs.Heard.{IsHeard};
ghost use Rattle.run_engine.specs.Settling.{first_settled, Settles, IsUnsettled};
ghost use Rattle.run_state.specs.Settle.{settled_turn};
ghost use Rattle.run_events.specs.declared.turn.Turn.{Turn};
ghost use Rattle.run_engine.specs.World.{TakesTurn, TellsEvents, CountsErrors, IsUntouched, Breaks, outside};
ghost use Rattle.run_engine.specs.World.{history_of};
ghost use Rattle.run_state.specs.Held.{KeepsSeats, held};
ghost use Rattle.run_engine.specs.Standing.{IsRunnable, unbroken, sound};
ghost use Rattle.run_engine.specs.Refused.{IsRefused, IsNotNamed, IfNotMemory};

mod questions;

use crate::carry::{carry_out, named_if_enabled, named_of};
use crate::errors::StepError;
use run_capture::{List, Whole};
use run_events::{Children, Reporter, Settings, StartAsk, Turn};
use run_model::{Entry, UnitTurn};
use run_state::{Settled, State, next_settled};
use std::alloc::Global;
use std::collections::VecDeque;
use std::marker::Model;

/// The most turns that a journal holds.
pub const MOST_TURNS: usize = 4_294_967_295;

/// A run: the settings that it goes by, its journal, and how many of the starts that it asked were claimed. Once memory
/// was wanting, or it was given up, it is broken.
#[derive(Drop)]
pub struct Run {
    settings: Whole<Settings>,
    journal: Vec<Entry>,
    state: State,
    broken: bool,
    /// The starts that were asked and not claimed, the earliest first.
    starts: VecDeque<StartAsk>,
    claimed: u64,
}

impl Model for Run {
    ghost use Rattle.run_engine.specs.World.{World};
    ghost use Rattle.run_engine.specs.Standing.{IsStanding};

    ghost Value = { World };

    ghost view = { λ r. record {
      settings = r.settings;
      journal = r.journal.items;
      broken = r.broken;
      claimed = r.claimed;
    } };

    ghost invariant = { λ r. IsStanding r.settings r.journal.items r.state r.broken r.starts.items
        r.claimed };
}

impl Run {
    // A run that has taken no turn.
    pub(crate) fn begin(alloc: Global, settings: Whole<Settings>, state: State) -> Self
        requires few { AreFew settings }
        requires stands { state ≡ held settings (board settings []) }
        ensures { result ≡ sound settings [] }
    {
        Run {
            settings,
            journal: Vec::new(alloc),
            state,
            broken: false,
            starts: VecDeque::new(alloc),
            claimed: 0,
        }
    }

    // Takes a turn as `step` does, and answers the error of the reporter, where it refused the turn's event.
    pub(crate) fn take<C: Children, R: Reporter>(
        &mut self,
        alloc: Global,
        turn: Turn,
        children: &mut C,
        report: &mut R,
    ) -> Result<Option<R::Error>, StepError>
        ensures takes { let o = outside R.faults report.old report.new children.old children.new in
            IfOk result (TakesTurn R.told C.asked o turn self.old self.new) }
        ensures room { OnOk result (length self.old.journal < 4294967295) }
        ensures stays_broken { self.old.broken ≡ true → IsErrOf result StepError.OutOfMemory }
        ensures refused { IfErr result (IsRefused self.old turn) }
        ensures unchanged { let o = outside R.faults report.old report.new
            children.old children.new in
            IfErr result (λ e. IfNotMemory e (IsUntouched self.old self.new o)) }
        ensures broken { IsErrOf result StepError.OutOfMemory → Breaks self.old self.new }
        ensures part { let o = outside R.faults report.old report.new children.old children.new in
            IsErrOf result StepError.OutOfMemory
            → BreaksOff R.told C.asked o self.old.settings self.old.journal turn }
        ensures idle { let o = outside R.faults report.old report.new children.old children.new in
            self.old.broken ≡ true → IsUntouched self.old self.new o }
        ensures heard { IsHeard R.told C.asked report.old children.old self.old
            → IsHeard R.told C.asked report.new children.new self.new }
        ensures turns { Retains R.taken report.old report.new }
    {
        match self.admit(alloc, &turn) {
            Ok(named) => self.take_named(alloc, turn, named, children, report),
            Err(error) => {
                drop(turn);
                Err(error)
            }
        }
    }

    // The unit that a turn names, with what the turn is to it, where the run can take the turn.
    fn admit(&mut self, alloc: Global, turn: &Turn) -> Result<Option<(u32, UnitTurn)>, StepError>
        ensures named { IfOk result (λ named. named ≡ turn_of_unit turn.now) }
        ensures enabled { OnOk result (enabled self.old.settings (history_of self.old) turn.now
            ≡ true) }
        ensures room { OnOk result (length self.old.journal < 4294967295) }
        ensures sound { OnOk result (self.old.broken ≡ false) }
        ensures same { OnOk result (self.new ≡ self.old) }
        ensures refused { IfErr result (IsRefused self.old turn.now) }
        ensures unchanged { IfErr result (λ e. IfNotMemory e (self.new ≡ self.old)) }
        ensures broken { IsErrOf result StepError.OutOfMemory → Breaks self.old self.new }
        ensures stays_broken { self.old.broken ≡ true → IsErrOf result StepError.OutOfMemory }
        ensures idle { self.old.broken ≡ true → self.new ≡ self.old }
    {
        if self.broken {
            return Err(StepError::OutOfMemory);
        }
        if self.journal.len() >= MOST_TURNS {
            return Err(StepError::Full);
        }
        match named_if_enabled(alloc, self.settings.get(), &self.state, turn) {
            Ok(named) => Ok(named),
            Err(StepError::OutOfMemory) => {
                self.broken = true;
                Err(StepError::OutOfMemory)
            }
            Err(error) => Err(error),
        }
    }

    // Takes an enabled turn, by the unit that it names.
    fn take_named<C: Children, R: Reporter>(
        &mut self,
        alloc: Global,
        turn: Turn,
        named: Option<(u32, UnitTurn)>,
        children: &mut C,
        report: &mut R,
    ) -> Result<Option<R::Error>, StepError>
        requires named { named ≡ turn_of_unit turn }
        requires enabled { enabled self.old.settings (history_of self.old) turn ≡ true }
        requires room { length self.old.journal < 4294967295 }
        requires sound { self.old.broken ≡ false }
        ensures takes { let o = outside R.faults report.old report.new children.old children.new in
            IfOk result (TakesTurn R.told C.asked o turn self.old self.new) }
        ensures memory { IfErr result (λ e. e ≡ StepError.OutOfMemory) }
        ensures broken { IsErrOf result StepError.OutOfMemory → Breaks self.old self.new }
        ensures part { let o = outside R.faults report.old report.new children.old children.new in
            OnErr result (BreaksOff R.told C.asked o self.old.settings self.old.journal turn) }
        ensures turns { Retains R.taken report.old report.new }
    {
        let settings = self.settings.get();
        match carry_out(
            alloc,
            settings,
            &mut self.state,
            &mut self.journal,
            &mut self.starts,
            turn,
            named,
            children,
            report,
        ) {
            Ok(refusal) => Ok(refusal),
            Err(_) => {
                self.broken = true;
                Err(StepError::OutOfMemory)
            }
        }
    }

    /// Takes a turn, and answers its place in the journal, counted from 0. The turn is enabled after the journal,
    /// which grows by it and the reporter's answers; its event is told and its ask asked as the tables say. A run
    /// that want of memory broke answers that ever after.
    pub fn step<C: Children, R: Reporter>(
        &mut self,
        alloc: Global,
        turn: Turn,
        children: &mut C,
        report: &mut R,
    ) -> Result<u64, StepError>
        ensures place { IfOk result (λ place. place ≡ length self.old.journal) }
        ensures takes { let o = outside R.faults report.old report.new children.old children.new in
            OnOk result ((refusal : Option R.Error)
            × TakesTurn R.told C.asked o turn self.old self.new refusal) }

        ensures refused { IfErr result (IsRefused self.old turn) }
        ensures not_full { OnOk result (length self.old.journal < 4294967295) }
        ensures unchanged { let o = outside R.faults report.old report.new
            children.old children.new in
            IfErr result (λ e. IfNotMemory e (IsUntouched self.old self.new o)) }

        ensures broken { IsErrOf result StepError.OutOfMemory → Breaks self.old self.new }
        ensures part { let o = outside R.faults report.old report.new children.old children.new in
            IsErrOf result StepError.OutOfMemory
            → BreaksOff R.told C.asked o self.old.settings self.old.journal turn }
        ensures stays_broken { self.old.broken ≡ true → IsErrOf result StepError.OutOfMemory }
        ensures idle { let o = outside R.faults report.old report.new children.old children.new in
            self.old.broken ≡ true → IsUntouched self.old self.new o }
        ensures heard { IsHeard R.told C.asked report.old children.old self.old
            → IsHeard R.told C.asked report.new children.new self.new }
        ensures turns { Retains R.taken report.old report.new }
    {
        let place = self.journal.len() as u64;
        match self.take(alloc, turn, children, report) {
            Ok(_) => Ok(place),
            Err(error) => Err(error),
        }
    }

    // The first enabled turn of those that the run takes by itself.
    fn next(&self, word: u32) -> Option<Settled>
        requires { self.now.broken ≡ false }
        ensures { option_map settled_turn result ≡ first_settled self.now word }
    {
        next_settled(self.settings.get(), &self.state, word)
    }

    /// Takes the first enabled turn of these, always of the least unit: begin, report-cancel, deliver, take, decide
    /// with this word, due of a unit, due of the global timer, admit, end. The answer is the turn that was taken, and
    /// none where none of them is enabled.
    pub fn settle<C: Children, R: Reporter>(
        &mut self,
        alloc: Global,
        word: u32,
        children: &mut C,
        report: &mut R,
    ) -> Result<Option<Turn>, StepError>
        ensures first { IfOk result (λ turn. turn ≡ first_settled self.old word) }
        ensures settles { let o = outside R.faults report.old report.new children.old children.new
            in
            IfOk result (Settles R.told C.asked o self.old self.new) }
        ensures refused { IfErr result (IsUnsettled self.old word) }
        ensures unchanged { let o = outside R.faults report.old report.new
            children.old children.new in
            IfErr result (λ e. IfNotMemory e (IsUntouched self.old self.new o)) }
        ensures broken { IsErrOf result StepError.OutOfMemory → Breaks self.old self.new }
        ensures part { let o = outside R.faults report.old report.new children.old children.new in
            IsErrOf result StepError.OutOfMemory → self.old.broken ≡ false
            → (turn : Turn) × (first_settled self.old word ≡ Some turn)
            × BreaksOff R.told C.asked o self.old.settings self.old.journal turn }
        ensures stays_broken { self.old.broken ≡ true → IsErrOf result StepError.OutOfMemory }
        ensures idle { let o = outside R.faults report.old report.new children.old children.new in
            self.old.broken ≡ true → IsUntouched self.old self.new o }
        ensures heard { IsHeard R.told C.asked report.old children.old self.old
            → IsHeard R.told C.asked report.new children.new self.new }
        ensures turns { Retains R.taken report.old report.new }
    {
        if self.broken {
            return Err(StepError::OutOfMemory);
        }
        let settled = match self.next(word) {
            Some(_) if self.journal.len() >= MOST_TURNS => return Err(StepError::Full),
            Some(settled) => settled,
            None => return Ok(None),
        };
        match self.take_named(alloc, settled.turn(), named_of(settled), children, report) {
            Ok(_) => Ok(Some(settled.turn())),
            Err(error) => Err(error),
        }
    }

    /// Claims the earliest start that was asked and that nobody has claimed, if there is one.
    pub fn claim(&mut self) -> Option<StartAsk>
        ensures start { result ≡ slice_get (starts_of self.old.settings self.old.journal)
            self.old.claimed }
        ensures claimed { IsSome result → self.new
            ≡ record self.old { claimed = self.old.claimed + 1 } }
        ensures none { IsNone result → self.new ≡ self.old }
    {
        match self.starts.pop_front() {
            Some(start) => {
                self.claimed += 1;
                Some(start)
            }
            None => None,
        }
    }

    /// Whether a start was asked that nobody has claimed.
    pub fn has_start(&self) -> bool
        ensures { result ≡ is_some (slice_get (starts_of self.now.settings self.now.journal)
            self.now.claimed) }
    {
        if self.starts.is_empty() {
            return false;
        }
        true
    }

    /// Gives the run up: it is broken as by want of memory, but that nothing is told or asked. One that is over stays
    /// as it is.
    pub fn give_up(&mut self)
        ensures { self.new
            ≡ (if is_over (history_of self.old) then self.old else record self.old
            { broken = true }) }
    {
        if !self.is_over() {
            self.broken = true;
        }
    }

    /// The turns that it has taken, in order, each with the reporter's answers.
    pub fn journal(&self) -> &[Entry]
        ensures journal { result.now ≡ self.now.journal }
        ensures runnable { IsRunnable self.now.settings self.now.journal }
    {
        self.journal.as_slice()
    }

    /// The turns that it has taken, as `journal`, by value. Takes no memory.
    pub fn into_journal(self) -> List<Entry>
        ensures journal { result ≡ self.journal }
        ensures runnable { IsRunnable self.settings self.journal }
        ensures unfinished { self.broken ≡ true → is_over (history_of self) ≡ false }
    {
        List::from_vec(self.journal)
    }

    /// The settings that it goes by.
    pub fn settings(&self) -> &Settings
        ensures { result.now ≡ self.now.settings }
    {
        self.settings.get()
    }
}
