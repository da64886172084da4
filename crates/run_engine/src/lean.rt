// A run that keeps no journal, turn by turn.
ghost use Rattle.std.specs.Prelude.{◌≡◌, ◌<◌, [], List, IfOk, IfErr, OnOk, OnErr, IfSome, IsErrOf, IsNone, false};
ghost use Rattle.std.specs.Prelude.{true};
ghost use Rattle.std.specs.Prelude.{option_map, Some};
ghost use Rattle.run_model.specs.declared.entry.Entry.{Entry};
ghost use Rattle.run_model.specs.Admission.{AreFew, is_last};
ghost use Rattle.run_model.specs.Board.{board};
ghost use Rattle.run_model.specs.Journal.{past_of, outcome};
ghost use Rattle.run_model.specs.Turns.{enabled_on, turn_of_unit};
ghost use Rattle.run_model.specs.Words.{stats, sub_run};
ghost use Rattle.run_state.specs.First.{IsFirstIn, NoneIsIn};
ghost use Rattle.run_state.specs.Held.{held};
ghost use Rattle.run_state.specs.Settle.{settled_turn};
ghost use Rattle.run_engine.specs.World.{outside};
ghost use Rattle.run_engine.specs.Standing.{sound};
ghost use Rattle.run_engine.specs.Broken.{BreaksOff};
ghost use Rattle.run_engine.specs.Refused.{IsRefused, IfNotMemory};
ghost use Rattle.run_engine.specs.Settling.{IsUnsettled};
ghost use Rattle.run_engine.specs.Lean.{StandsForJournal, TakesOne, IsAsBefore, SettlesOne, attempt_at, settled_next};

use crate::carry::{carry_unkept, named_if_enabled, named_of};
use crate::errors::StepError;
use crate::run::MOST_TURNS;
use run_capture::Whole;
use run_events::{Children, Reporter, RunOutcome, RunStats, Settings, Turn};
use run_model::{Phase, UnitTurn};
use run_state::{Settled, State, next_settled};
use std::alloc::Global;
use std::marker::Model;

/// A run that keeps no journal: its state stands for it. Its calls say what holds after each journal that it stands
/// for, which is one at least until memory was wanting: then it is broken, and takes no turn any more.
#[derive(Drop)]
pub struct LeanRun {
    settings: Whole<Settings>,
    state: State,
    turns: u64,
    broken: bool,
}

impl Model for LeanRun {
    ghost use Rattle.run_engine.specs.Lean.{Lean, StandsUnlessBroken};

    ghost Value = { Lean };

    ghost view = { λ r. record { settings = r.settings; state = r.state; turns = r.turns; broken = r.broken } };

    ghost invariant = { λ r. StandsUnlessBroken r.settings r.state r.turns r.broken };
}

impl LeanRun {
    // A run that has taken no turn.
    pub(crate) fn begin(settings: Whole<Settings>, state: State) -> Self
        requires few { AreFew settings }
        requires stands { state ≡ held settings (board settings []) }
        ensures stands { StandsForJournal result [] }
        ensures settings { result.settings ≡ settings }
        ensures sound { result.broken ≡ false }
    {
        LeanRun {
            settings,
            state,
            turns: 0,
            broken: false,
        }
    }

    /// Takes a turn, as `Run::step` does, after each journal that the run stands for, and answers the error of the
    /// reporter, where it refused the turn's event. A run that want of memory broke answers that ever after.
    pub fn step<C: Children, R: Reporter>(
        &mut self,
        alloc: Global,
        turn: &Turn,
        children: &mut C,
        report: &mut R,
    ) -> Result<Option<R::Error>, StepError>
        ensures takes { let o = outside R.faults report.old report.new children.old children.new in
            IfOk result (λ refusal. (journal : List Entry) → StandsForJournal self.old journal
            → TakesOne R.told C.asked o self.old self.new journal turn.now refusal) }
        ensures sound { OnOk result (self.new.broken ≡ false) }
        ensures refused { IfErr result (λ error. (journal : List Entry) → StandsForJournal self.old journal
            → IsRefused (sound self.old.settings journal) turn.now error) }
        ensures unchanged { let o = outside R.faults report.old report.new
            children.old children.new in
            IfErr result (λ error. IfNotMemory error (IsAsBefore self.old self.new o)) }
        ensures part { let o = outside R.faults report.old report.new children.old children.new in
            IsErrOf result StepError.OutOfMemory
            → (journal : List Entry) → StandsForJournal self.old journal
            → BreaksOff R.told C.asked o self.old.settings journal turn.now }
        ensures broken { IsErrOf result StepError.OutOfMemory → self.new.broken ≡ true }
        ensures stays_broken { self.old.broken ≡ true → IsErrOf result StepError.OutOfMemory }
        ensures idle { let o = outside R.faults report.old report.new children.old children.new in
            self.old.broken ≡ true → IsAsBefore self.old self.new o }
    {
        if self.broken {
            return Err(StepError::OutOfMemory);
        }
        if self.turns >= MOST_TURNS as u64 {
            return Err(StepError::Full);
        }
        match named_if_enabled(alloc, self.settings.get(), &self.state, turn) {
            Ok(named) => self.take(alloc, turn, named, children, report),
            Err(StepError::OutOfMemory) => {
                self.broken = true;
                Err(StepError::OutOfMemory)
            }
            Err(error) => Err(error),
        }
    }

    // Takes an enabled turn, by the unit that it names.
    fn take<C: Children, R: Reporter>(
        &mut self,
        alloc: Global,
        turn: &Turn,
        named: Option<(u32, UnitTurn)>,
        children: &mut C,
        report: &mut R,
    ) -> Result<Option<R::Error>, StepError>
        requires sound { self.old.broken ≡ false }
        requires named { named ≡ turn_of_unit turn.now }
        requires enabled { enabled_on self.old.settings self.old.state.board turn.now ≡ true }
        requires room { self.old.turns < 4294967295 }
        ensures takes { let o = outside R.faults report.old report.new children.old children.new in
            IfOk result (λ refusal. (journal : List Entry) → StandsForJournal self.old journal
            → TakesOne R.told C.asked o self.old self.new journal turn.now refusal) }
        ensures sound { OnOk result (self.new.broken ≡ false) }
        ensures memory { IfErr result (λ error. error ≡ StepError.OutOfMemory) }
        ensures broken { OnErr result (self.new.broken ≡ true) }
        ensures part { let o = outside R.faults report.old report.new children.old children.new in
            OnErr result ((journal : List Entry) → StandsForJournal self.old journal
            → BreaksOff R.told C.asked o self.old.settings journal turn.now) }
    {
        let place = self.turns;
        let settings = self.settings.get();
        match carry_unkept(
            alloc,
            settings,
            &mut self.state,
            place,
            turn,
            named,
            children,
            report,
        ) {
            Ok(refusal) => {
                self.turns = place + 1;
                Ok(refusal)
            }
            Err(_) => {
                self.broken = true;
                Err(StepError::OutOfMemory)
            }
        }
    }

    // The first enabled turn of those that the run takes by itself.
    fn next(&self, word: u32) -> Option<Settled>
        requires { self.now.broken ≡ false }
        ensures { option_map settled_turn result ≡ settled_next self.now word }
    {
        next_settled(self.settings.get(), &self.state, word)
    }

    /// Takes the first enabled turn of those that the run takes by itself, as `Run::settle` does, after each journal
    /// that the run stands for. The answer is the turn, and none where none of them is enabled. A run that want of
    /// memory broke answers that ever after.
    pub fn settle<C: Children, R: Reporter>(
        &mut self,
        alloc: Global,
        word: u32,
        children: &mut C,
        report: &mut R,
    ) -> Result<Option<Turn>, StepError>
        ensures first { IfOk result (λ turn. turn ≡ settled_next self.old word) }
        ensures settles { let o = outside R.faults report.old report.new children.old children.new
            in
            IfOk result (SettlesOne R.told C.asked o self.old self.new) }
        ensures refused { IfErr result (λ error. (journal : List Entry) → StandsForJournal self.old journal
            → IsUnsettled (sound self.old.settings journal) word error) }
        ensures unchanged { let o = outside R.faults report.old report.new
            children.old children.new in
            IfErr result (λ error. IfNotMemory error (IsAsBefore self.old self.new o)) }
        ensures part { let o = outside R.faults report.old report.new children.old children.new in
            IsErrOf result StepError.OutOfMemory → self.old.broken ≡ false
            → (turn : Turn) × (settled_next self.old word ≡ Some turn)
            × ((journal : List Entry) → StandsForJournal self.old journal
            → BreaksOff R.told C.asked o self.old.settings journal turn) }
        ensures sound { OnOk result (self.new.broken ≡ false) }
        ensures broken { IsErrOf result StepError.OutOfMemory → self.new.broken ≡ true }
        ensures stays_broken { self.old.broken ≡ true → IsErrOf result StepError.OutOfMemory }
        ensures idle { let o = outside R.faults report.old report.new children.old children.new in
            self.old.broken ≡ true → IsAsBefore self.old self.new o }
    {
        if self.broken {
            return Err(StepError::OutOfMemory);
        }
        let settled = match self.next(word) {
            Some(_) if self.turns >= MOST_TURNS as u64 => return Err(StepError::Full),
            Some(settled) => settled,
            None => return Ok(None),
        };
        let turn = settled.turn();
        match self.take(alloc, &turn, named_of(settled), children, report) {
            Ok(refusal) => {
                drop(refusal);
                Ok(Some(turn))
            }
            Err(error) => {
                drop(turn);
                Err(error)
            }
        }
    }

    /// Whether want of memory broke it. One that isn't broken stands for a journal.
    pub fn is_broken(&self) -> bool
        ensures broken { result ≡ self.now.broken }
        ensures stands { self.now.broken ≡ false
            → (journal : List Entry) × StandsForJournal self.now journal }
    {
        self.broken
    }

    /// How many turns it has taken.
    pub fn turns(&self) -> u64
        ensures { result ≡ self.now.turns }
    {
        self.turns
    }

    /// The outcome of a run that is over, and none of one that isn't.
    pub fn outcome(&self) -> Option<RunOutcome>
        ensures { (journal : List Entry) → StandsForJournal self.now journal
            → result ≡ outcome self.now.settings (past_of self.now.settings journal) }
    {
        if !self.state.is_over() {
            return None;
        }
        self.state.outcome()
    }

    /// The statistics of the newest sub-run so far.
    pub fn stats(&self) -> RunStats
        ensures { (journal : List Entry) → StandsForJournal self.now journal
            → result ≡ stats self.now.settings (sub_run (past_of self.now.settings journal)) }
    {
        self.state.stats()
    }

    /// The least script or test that is in a phase that isn't the last, none where none is.
    pub fn first_in(&self, phase: Phase) -> Option<u32>
        requires { is_last phase ≡ false }
        ensures first { IfSome result (IsFirstIn self.now.state.board.units phase) }
        ensures none { IsNone result → NoneIsIn self.now.state.board.units phase }
    {
        self.state.first_in(phase)
    }

    /// Which attempt a script or test is at, from 1: none before its admission, and none once it is over. Between two
    /// attempts it is the failed one.
    pub fn attempt(&self, unit: u32) -> Option<u32>
        ensures board { result ≡ attempt_at self.now.state.board unit }
        ensures journal { (journal : List Entry) → StandsForJournal self.now journal
            → result ≡ attempt_at (board self.now.settings (past_of self.now.settings journal)) unit }
    {
        match self.state.phase(unit) {
            Some(Phase::Over) | None => None,
            Some(_) => self.state.attempt(unit),
        }
    }
}
