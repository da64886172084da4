// A runner carries out the turns of a run.
ghost use Rattle.std.specs.Prelude.{◌≡◌, ◌<◌, ◌^◌, [], length, IfOk, IsErrOf, Option, None, List, pos, IfSome};
ghost use Rattle.run_events.specs.Tell.{Adds};
ghost use Rattle.run_model.specs.declared.entry.Entry.{Entry};
ghost use Rattle.run_model.specs.Admission.{AreFew};
ghost use Rattle.run_model.specs.Reruns.{AreAscending};
ghost use Rattle.run_model.specs.Board.{board};
ghost use Rattle.run_state.specs.Held.{held};
ghost use Rattle.run_engine.specs.World.{outside};
ghost use Rattle.run_engine.specs.Handlers.{handler_status};
ghost use Rattle.run_model.specs.Once.{HasEachIdOnce};
ghost use Rattle.run_engine.specs.Standing.{sound};
ghost use Rattle.run_engine.specs.Execution.{Carries, Executes, AnswersCourse, UnlessMemory, IsFinal};
ghost use Rattle.run_engine.specs.Broken.{RunsOut};
ghost use Rattle.run_engine.specs.Unkept.{outcome_on};
ghost use Rattle.run_engine.specs.Lean.{StandsForJournal};
ghost use Rattle.run_capture.specs.Faults.{Rose};
ghost use Rattle.run_laws.specs.Course.{refuses_none};

use crate::course::{Stop, take_all};
use crate::errors::TestRunnerExecuteErrors;
use crate::lean::LeanRun;
use crate::run::Run;
use jiff::Timestamp;
use run_capture::{Mem, Whole};
use run_events::{
    Children, EventLog, InputHandlerKind, InputHandlerStatus, Reporter, RunOutcome, Settings, Turn,
};
use run_state::State;
use std::alloc::Global;
use std::convert::Infallible;
use std::fmt;
use std::fmt::{Debug, Write};
use std::marker::Model;
use uuid::Uuid;

/// Carries out runs of a plan.
#[derive(Drop)]
pub struct TestRunner {
    settings: Whole<Settings>,
}

impl Model for TestRunner {
    ghost use Rattle.run_model.specs.Admission.{AreFew};
    ghost use Rattle.run_model.specs.Reruns.{AreAscending};
    ghost use Rattle.run_events.specs.declared.settings.Settings.{Settings};
    ghost use Rattle.run_model.specs.Once.{HasEachIdOnce};

    ghost Value = { Settings };

    ghost view = { λ r. r.settings };

    ghost invariant = { λ r. AreFew r.settings × AreAscending r.settings.expected
        × HasEachIdOnce r.settings };
}

impl Debug for TestRunner {
    fn fmt<W: Write>(&self, f: &mut fmt::Formatter<W>) -> fmt::Result {
        f.write_str("TestRunner { .. }")
    }
}

// What a run that has taken all turns answers.
fn answer<E: Drop>(
    state: &State,
    refusal: Option<E>,
) -> Result<RunOutcome, TestRunnerExecuteErrors<E>>
    ensures { IsFinal (outcome_on state.now.board) refusal result }
{
    let outcome = if state.is_over() {
        state.outcome()
    } else {
        None
    };
    match (outcome, refusal) {
        (None, _) => Err(TestRunnerExecuteErrors::Unfinished),
        (Some(outcome), None) => Ok(outcome),
        (Some(_), Some(error)) => Err(TestRunnerExecuteErrors::Report(error)),
    }
}

// Takes all turns with the state of a run that has taken none, and answers what a journal of them says.
fn run_all<C: Children, R: Reporter>(
    alloc: Global,
    settings: &Settings,
    state: &mut State,
    turns: &[Turn],
    children: &mut C,
    report: &mut R,
) -> Result<RunOutcome, TestRunnerExecuteErrors<R::Error>>
    requires fresh { state.old ≡ held settings.now (board settings.now []) }
    requires units { AreFew settings.now }
    requires few { length turns.now < 2 ^ 32 }
    ensures carries { let o = outside R.faults report.old report.new children.old children.new in
        UnlessMemory result (Carries R.told C.asked o settings.now turns.now result) }
    ensures memory { let o = outside R.faults report.old report.new children.old children.new in
        IsErrOf result TestRunnerExecuteErrors.OutOfMemory
        → (journal : List Entry) × RunsOut R.told C.asked o settings.now turns.now journal }
{
    match take_all(alloc, settings, state, turns, children, report) {
        Ok(refusal) => answer(state, refusal),
        Err(Stop::NotEnabled { turn }) => Err(TestRunnerExecuteErrors::NotEnabled { turn }),
        Err(Stop::ThirdSignal { turn }) => Err(TestRunnerExecuteErrors::ThirdSignal { turn }),
        Err(Stop::OutOfMemory) => Err(TestRunnerExecuteErrors::OutOfMemory),
    }
}

// The moment of a plan as jiff's own.
fn of_jiff(moment: jiff_core::Timestamp) -> Timestamp
    ensures { result ≡ moment }
{
    match Timestamp::from_nanosecond(moment.nanosecond) {
        Ok(same) => same,
        Err(_) => unreachable!(),
    }
}

impl TestRunner {
    // A runner with these settings.
    pub(crate) fn new(settings: Settings) -> Self
        requires few { AreFew settings }
        requires ascending { AreAscending settings.expected }
        requires once { HasEachIdOnce settings }
        ensures { result ≡ settings }
    {
        TestRunner {
            settings: Whole::new(settings),
        }
    }

    /// The id of the run.
    pub fn run_id(&self) -> Uuid
        ensures { result ≡ self.now.plan.head.run_id }
    {
        self.settings.get().plan.head.run_id
    }

    /// Whether the run hears keys, and which one asks for information.
    pub fn input_handler_status(&self) -> InputHandlerStatus
        ensures { result ≡ handler_status self.now.plan.hearing.input }
    {
        match self.settings.get().plan.hearing.input {
            InputHandlerKind::Standard => InputHandlerStatus::Enabled { info_char: 't' },
            InputHandlerKind::Noop => InputHandlerStatus::Disabled,
        }
    }

    /// The moment at which the run's clock is 0: the start of 1970 where the plan gives none.
    pub fn started_at(&self) -> Timestamp
        ensures given { IfSome self.now.plan.head.started_at (λ moment. result ≡ moment) }
        ensures usual { self.now.plan.head.started_at ≡ None → result.nanosecond ≡ pos 0 }
    {
        match self.settings.get().plan.head.started_at {
            Some(moment) => of_jiff(moment),
            None => Timestamp::UNIX_EPOCH,
        }
    }

    /// How many tests may run at a time.
    pub fn test_threads(&self) -> u32
        ensures { result ≡ self.now.threads }
    {
        self.settings.get().threads
    }

    /// The effective settings, with the plan, in which each test has an id of its own.
    pub fn settings(&self) -> &Settings
        ensures is { result.now ≡ self.now }
        ensures once { HasEachIdOnce self.now }
    {
        self.settings.get()
    }

    /// A run that has taken no turn.
    pub fn into_run(self, alloc: Global) -> Mem<Run>
        ensures { IfOk result (λ run. run ≡ sound self []) }
    {
        match State::new(alloc, self.settings.get()) {
            Ok(state) => Ok(Run::begin(alloc, self.settings, state)),
            Err(error) => {
                drop(self);
                Err(error)
            }
        }
    }

    /// A run that has taken no turn, and keeps no journal.
    pub fn into_lean_run(self, alloc: Global) -> Mem<LeanRun>
        ensures stands { IfOk result (λ run. StandsForJournal run []) }
        ensures settings { IfOk result (λ run. run.settings ≡ self) }
    {
        match State::new(alloc, self.settings.get()) {
            Ok(state) => Ok(LeanRun::begin(self.settings, state)),
            Err(error) => {
                drop(self);
                Err(error)
            }
        }
    }

    /// Carries out the turns of a run, fewer than 2^32. The reporter is told each event, also after it refused one. The
    /// answer is the outcome of a run that is over; else the first turn that isn't enabled, as a third shutdown signal
    /// where it is one, or that the run isn't over, or the reporter's first error in a run that is over. What was told
    /// and asked by then stands after each of these. After want of memory what was told and asked is that of a journal
    /// of the first turns, and a part of what the turn after them tells and asks.
    pub fn try_execute<C: Children, R: Reporter>(
        self,
        alloc: Global,
        turns: &[Turn],
        children: &mut C,
        report: &mut R,
    ) -> Result<RunOutcome, TestRunnerExecuteErrors<R::Error>>
        requires { length turns.now < 2 ^ 32 }
        ensures executes { let o = outside R.faults report.old report.new children.old
            children.new in
            UnlessMemory result (Executes R.told C.asked o self turns.now result) }
        ensures course { let o = outside R.faults report.old report.new children.old children.new in
            ¬ Rose (R.faults report.old) (R.faults report.new)
            → AnswersCourse o self turns.now refuses_none result }
        ensures memory { let o = outside R.faults report.old report.new children.old children.new in
            IsErrOf result TestRunnerExecuteErrors.OutOfMemory
            → (journal : List Entry) × RunsOut R.told C.asked o self turns.now journal }
    {
        self.carry_out(alloc, turns, children, report)
    }

    // Carries out the turns, and answers what the journal of the call says.
    fn carry_out<C: Children, R: Reporter>(
        self,
        alloc: Global,
        turns: &[Turn],
        children: &mut C,
        report: &mut R,
    ) -> Result<RunOutcome, TestRunnerExecuteErrors<R::Error>>
        requires { length turns.now < 2 ^ 32 }
        ensures carries { let o = outside R.faults report.old report.new children.old children.new
            in
            UnlessMemory result (Carries R.told C.asked o self turns.now result) }
        ensures memory { let o = outside R.faults report.old report.new children.old children.new in
            IsErrOf result TestRunnerExecuteErrors.OutOfMemory
            → (journal : List Entry) × RunsOut R.told C.asked o self turns.now journal }
    {
        let settings = self.settings.get();
        match State::new(alloc, settings) {
            Ok(mut state) => {
                let answer = run_all(alloc, settings, &mut state, turns, children, report);
                drop(state);
                answer
            }
            Err(_) => Err(TestRunnerExecuteErrors::OutOfMemory),
        }
    }

    /// Carries out the turns of a run, as `try_execute` does, with a log that refuses no event.
    pub fn execute<C: Children>(
        self,
        alloc: Global,
        turns: &[Turn],
        children: &mut C,
        log: &mut EventLog,
    ) -> Result<RunOutcome, TestRunnerExecuteErrors<Infallible>>
        requires { length turns.now < 2 ^ 32 }
        ensures executes { UnlessMemory result (Executes ⟦<EventLog as Reporter>⟧.told C.asked
            (outside (λ log. 0) log.old log.new children.old children.new) self turns.now result) }
        ensures course { AnswersCourse
            (outside (λ log. 0) log.old log.new children.old children.new) self turns.now
            refuses_none result }
        ensures memory { IsErrOf result TestRunnerExecuteErrors.OutOfMemory → (journal : List Entry)
            × RunsOut ⟦<EventLog as Reporter>⟧.told C.asked
            (outside (λ log. 0) log.old log.new children.old children.new) self turns.now journal }
    {
        self.try_execute(alloc, turns, children, log)
    }
}
