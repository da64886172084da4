// The dispatcher and its rows.
ghost use Rattle.std.specs.Prelude.{ℕ, ◌≡◌, ◌+◌, ◌<◌, ◌≤◌, ◌^◌, ◌||◌, IfOk, OnErr, None, true, false};
ghost use Rattle.std.specs.List.Sorted.{IsStrictlySortedBy};
ghost use Rattle.run_clock.specs.Sleep.{IsDueFrom};
ghost use Rattle.run_events.specs.declared.turn.Turn.TheVariants.{GlobalDue, StopWaitDue, InfoDue};
ghost use Rattle.run_model.specs.Admission.{tests_in};
ghost use Rattle.run_model.specs.Cancel.{time_is_up, event_refused};
ghost use Rattle.run_model.specs.Dispatch.{head_of, unbegun, dispatch_takes, go_of, is_third, CanDeliver};
ghost use Rattle.run_model.specs.Dispatch.{heard_by, takes_signal, is_halted};
ghost use Rattle.run_model.specs.Dispatch.{rules_of};
ghost use Rattle.run_model.specs.Reruns.{AreAscending, id_order};
ghost use Rattle.run_model.specs.Words.{initial_stats, time_limit};
ghost use Rattle.run_model.specs.Turns.{index_of, nothing_done, begins_at, ends_at, delivers, cancels_for};
ghost use Rattle.run_model.specs.Turns.{signals_at, keys_at, ticks, stops_itself, answers_at, informs_at};
ghost use Rattle.run_model.specs.declared.dispatcher_view.Facts.{Facts};
ghost use Rattle.run_dispatch.specs.Deeds.{Does};
ghost use Rattle.run_dispatch.specs.Dispatch.{state_of};
ghost use Rattle.run_dispatch.specs.Stress.{CanCount};

use crate::cancel::{refuse, run_out};
use crate::deliver::hear;
use crate::effects::{DispatchEffects, Fx};
use crate::enabled::{is_main, round_due, takes_turn};
use crate::hearing::{hear_signal, heard_by, shuts_down};
use crate::info::{end_round, hear_key, tell_answer, tick};
use crate::jobs::{is_halted, stop_itself};
use crate::stress::{index_at, none_ended};
use crate::sub_runs::{begin_sub_run, end_sub_run, no_causes, no_rounds, tally_from};
use crate::tally::count_matched;
use crate::view::DispatchState;
use run_capture::{Duplicate, List, Mem};
use run_clock::{StopwatchStart, due_from};
use run_events::{
    CancelReason, InfoResponse, Key, Message, Request, RunOutcome, RunStarted, RunStats, Settings,
    Signal, StressIndex, TestInstanceId, Turn, hears_key,
};
use run_model::{CancelRules, DispatcherView, Facts, RerunContext};
use std::alloc::Global;
use std::collections::BTreeSet;
use std::marker::Model;

/// The dispatcher of a run. Contracts see it as its table does.
#[derive(Drop)]
pub struct Dispatcher {
    view: DispatcherView,
}

impl Model for Dispatcher {
    ghost use Rattle.run_model.specs.declared.dispatcher_view.DispatcherView.{DispatcherView};
    ghost use Rattle.run_dispatch.specs.Timely.{IsTimerCurrent};

    ghost Value = { DispatcherView };

    ghost view = { λ d. d.view };

    ghost invariant = { λ d. IsTimerCurrent d.view };
}

// What is told of a run as it starts.
fn head_of(alloc: Global, settings: &Settings) -> Mem<RunStarted>
    requires { tests_in settings.now < 2 ^ 32 }
    ensures { IfOk result (λ head. head ≡ head_of settings.now) }
{
    let args = settings.plan.head.args.copy(alloc)?;
    let profile = settings.plan.head.profile.copy(alloc)?;
    let stress = settings.stress.copy(alloc)?;
    Ok(RunStarted {
        run_id: settings.plan.head.run_id,
        tests: settings.plan.tests.len() as u32,
        args,
        profile,
        stress,
    })
}

// How long a sub-run may take, if that has a limit: it has none under an interceptor.
fn time_limit(settings: &Settings) -> Option<u64>
    ensures { result ≡ time_limit settings.now }
{
    if settings.interceptor.should_disable_timeouts() {
        None
    } else {
        settings.plan.global_timeout
    }
}

// By which rules the run is cancelled.
fn rules_of(settings: &Settings) -> CancelRules
    ensures { result ≡ rules_of settings.now }
{
    CancelRules {
        hearing: settings.plan.hearing,
        max_fail: settings.max_fail,
        global_timeout: time_limit(settings),
    }
}

// The statistics with which a sub-run begins: all scripts, and all tests that match, are to run.
fn initial_stats(settings: &Settings) -> RunStats
    ensures { result ≡ initial_stats settings.now }
{
    let scripts = settings.plan.scripts.len() as u64;
    let matched = count_matched(settings.plan.tests.as_slice()) as u64;
    RunStats::started(scripts, matched)
}

// The tests that a rerun expects.
fn rerun_of(alloc: Global, expected: &Option<List<TestInstanceId>>) -> Mem<RerunContext>
    requires { AreAscending expected.now }
    ensures { IfOk result (λ rerun. rerun ≡ expected.now) }
{
    match expected {
        Some(ids) => Ok(RerunContext::new(Some(set_of(alloc, ids.as_slice())?))),
        None => Ok(RerunContext::new(None)),
    }
}

// A set of tests in ascending order.
fn set_of(alloc: Global, ids: &[TestInstanceId]) -> Mem<BTreeSet<TestInstanceId>>
    requires { IsStrictlySortedBy id_order ids.now }
    ensures { IfOk result (λ set. set.keys ≡ ids.now) }
{
    let mut set = BTreeSet::new(alloc);
    for id in ids {
        set.insert(id.copy(alloc)?)?;
    }
    Ok(set)
}

impl Dispatcher {
    /// The dispatcher of a run that hasn't begun.
    pub fn new(alloc: Global, settings: &Settings) -> Mem<Dispatcher>
        requires few { tests_in settings.now < 2 ^ 32 }
        requires ascending { AreAscending settings.now.expected }
        ensures { IfOk result (λ d. d ≡ unbegun settings.now) }
    {
        let initial = initial_stats(settings);
        let head = head_of(alloc, settings)?;
        let rerun = rerun_of(alloc, &settings.expected)?;
        Ok(Dispatcher {
            view: DispatcherView {
                head,
                rules: rules_of(settings),
                initial,
                on: false,
                over: false,
                causes: no_causes(),
                tally: tally_from(initial),
                watch: StopwatchStart::new(0),
                rounds: no_rounds(),
                sub_runs: none_ended(),
                sub_run_watch: StopwatchStart::new(0),
                rerun,
                latest: 0,
            },
        })
    }

    /// What it waits for.
    pub fn state(&self) -> DispatchState
        ensures { result ≡ state_of self.now }
    {
        if !self.view.on {
            return DispatchState::Idle;
        }
        match self.view.rounds.asks {
            Some(Request::Stop { .. }) => DispatchState::StopWait,
            Some(_) => DispatchState::InfoRound,
            None => DispatchState::Main,
        }
    }

    /// Whether the run is paused.
    pub fn is_paused(&self) -> bool
        ensures { result ≡ is_halted self.now }
    {
        is_halted(&self.view)
    }

    /// What the open round asks of each live unit, where one is open.
    pub fn round_request(&self) -> Option<Request>
        ensures { result ≡ self.now.rounds.asks }
    {
        self.view.rounds.asks
    }

    /// Which sub-run of a stress run is on; none without stress.
    pub fn stress_index(&self) -> Option<StressIndex>
        ensures { result ≡ index_of self.now }
    {
        match &self.view.head.stress {
            Some(condition) => Some(index_at(condition, self.view.sub_runs.ended)),
            None => None,
        }
    }

    /// Whether the run has ended.
    pub fn is_over(&self) -> bool
        ensures { result ≡ self.now.over }
    {
        self.view.over
    }

    /// Why the run is cancelled, where it is.
    pub fn reason(&self) -> Option<CancelReason>
        ensures { result ≡ self.now.tally.stats.cancel_reason }
    {
        self.view.tally.stats.cancel_reason
    }

    /// The statistics so far.
    pub fn stats(&self) -> RunStats
        ensures { result ≡ self.now.tally.stats }
    {
        self.view.tally.stats
    }

    /// The outcomes of the sub-runs that have ended, put together: none where none has.
    pub fn outcome(&self) -> Option<RunOutcome>
        ensures { result ≡ self.now.sub_runs.outcome }
    {
        self.view.sub_runs.outcome
    }

    /// How many tests were told started and not told finished.
    pub fn running(&self) -> u32
        ensures { result ≡ self.now.tally.running }
    {
        self.view.tally.running
    }

    /// Whether a turn of the dispatcher's own is enabled, by these facts of the rest of the run, at a moment of the
    /// run's clock in nanoseconds. False for all other turns.
    pub fn enabled(&self, turn: &Turn, facts: Facts, now: u64) -> bool
        requires later { self.now.latest ≤ now }
        ensures { result ≡ dispatch_takes self.now facts now turn.now }
    {
        takes_turn(&self.view, turn, facts, now)
    }

    /// The least moment of the run's clock at which the global timer is due, whatever the facts of the rest of the run:
    /// none where it isn't set or is paused, and none outside of the main state.
    pub fn next_due(&self) -> Option<u64>
        ensures { (facts : Facts)
            → IsDueFrom (λ now. dispatch_takes self.now facts now GlobalDue) result }
    {
        if is_main(&self.view) {
            due_from(&self.view.causes.global)
        } else {
            None
        }
    }

    /// The least moment of the run's clock at which the wait of the open round is over, by these facts of the rest of
    /// the run: none where no round is open.
    pub fn round_due(&self, facts: Facts) -> Option<u64>
        ensures { IsDueFrom (λ now. dispatch_takes self.now facts now StopWaitDue
            || dispatch_takes self.now facts now InfoDue) result }
    {
        round_due(&self.view, facts)
    }

    /// Whether a turn is a shutdown signal that would be taken, but that two came before it.
    pub fn is_third_signal(&self, turn: &Turn) -> bool
        ensures { result ≡ is_third self.now turn.now }
    {
        match turn {
            Turn::Signal { signal } => {
                !self.view.over
                    && is_main(&self.view)
                    && shuts_down(&self.view.rules.hearing, *signal)
                    && self.view.causes.signals >= 2
            }
            _ => false,
        }
    }

    /// Begins a sub-run, with nothing of those before it, and sets the global timer: the first tells that the run
    /// started, and in a stress run each tells that it starts. As for each call at a moment of the run's clock, in
    /// nanoseconds, that moment is no earlier than the latest before it.
    pub fn begin(&mut self, alloc: Global, now: u64) -> Fx
        requires idle { self.old.on ≡ false }
        requires later { self.old.latest ≤ now }
        ensures does { IfOk result (Does now self.old (begins_at now self.old) None self.new) }
        ensures err { OnErr result (self.new ≡ self.old) }
    {
        begin_sub_run(alloc, &mut self.view, now)
    }

    /// Delivers a message: a start and a retry are told and let go where nothing cancels the run; a slow report and the
    /// failure of an attempt are told; a skip and a finish are counted and told; and a script that failed, or a test
    /// that is the last failure, cancels the run.
    pub fn deliver(&mut self, alloc: Global, message: Message, now: u64) -> Fx
        requires fits { CanDeliver self.old message }
        requires later { self.old.latest ≤ now }
        ensures does { IfOk result
            (Does now self.old (delivers now self.old message nothing_done) (go_of self.old.tally message) self.new) }
        ensures err { OnErr result (self.new ≡ self.old) }
    {
        hear(alloc, &mut self.view, message, now)
    }

    /// A signal came, while so many units are live as the facts say: the first that shuts the run down asks each child
    /// to end, and the second kills it; a stop pauses the run where it isn't paused, and a continue lets it go on; one
    /// that asks for information asks each live unit what it is doing.
    pub fn signal(&mut self, alloc: Global, signal: Signal, facts: Facts, now: u64) -> Fx
        requires taken { takes_signal self.old.causes.signals (heard_by self.old.rules.hearing signal) ≡ true }
        requires few { self.old.rounds.count + 1 < 2 ^ 32 }
        requires later { self.old.latest ≤ now }
        ensures does { IfOk result
            (Does now self.old (signals_at now facts.live self.old signal) None self.new) }
        ensures err { OnErr result (self.new ≡ self.old) }
    {
        let heard = heard_by(&self.view.rules.hearing, signal);
        hear_signal(alloc, &mut self.view, signal, heard, facts.live, now)
    }

    /// A key was pressed: an empty line is told, or each of so many live units asked what it is doing.
    pub fn key(&mut self, alloc: Global, key: Key, facts: Facts, now: u64) -> Fx
        requires few { self.old.rounds.count + 1 < 2 ^ 32 }
        requires later { self.old.latest ≤ now }
        ensures does { IfOk result
            (Does now self.old (keys_at now facts.live self.old key) None self.new) }
        ensures err { OnErr result (self.new ≡ self.old) }
    {
        let heard = hears_key(self.view.rules.hearing.input, key);
        hear_key(alloc, &mut self.view, heard, facts.live, now)
    }

    /// A display wants to draw anew: that is told.
    pub fn tick(&mut self, alloc: Global) -> Fx
        ensures does { IfOk result (λ fx. (now : ℕ) → Does now self.old ticks None self.new fx) }
        ensures err { OnErr result (self.new ≡ self.old) }
    {
        tick(alloc, &self.view)
    }

    /// The wait for stopped units is over: the global timer pauses, and the runner is asked to stop itself.
    pub fn stop_wait_due(&mut self, now: u64) -> DispatchEffects
        requires later { self.old.latest ≤ now }
        ensures { Does now self.old stops_itself None self.new result }
    {
        stop_itself(&mut self.view, now)
    }

    /// An answer is told, as the next of its round.
    pub fn answer(&mut self, alloc: Global, response: InfoResponse, now: u64) -> Fx
        requires few { self.old.rounds.told + 1 < 2 ^ 32 }
        requires later { self.old.latest ≤ now }
        ensures does { IfOk result (Does now self.old (answers_at now self.old response) None self.new) }
        ensures err { OnErr result (self.new ≡ self.old) }
    {
        tell_answer(alloc, &mut self.view, response, now)
    }

    /// The round of queries is over: how many units gave no answer is told.
    pub fn info_due(&mut self, alloc: Global, now: u64) -> Fx
        requires later { self.old.latest ≤ now }
        ensures does { IfOk result (Does now self.old (informs_at now self.old) None self.new) }
        ensures err { OnErr result (self.new ≡ self.old) }
    {
        end_round(alloc, &mut self.view, now)
    }

    /// Cancels the run since the reporter refused an event.
    pub fn report_cancel(&mut self, alloc: Global, now: u64) -> Fx
        requires later { self.old.latest ≤ now }
        ensures does { IfOk result (Does now self.old (cancels_for now self.old event_refused) None self.new) }
        ensures err { OnErr result (self.new ≡ self.old) }
    {
        refuse(alloc, &mut self.view, now)
    }

    /// Cancels the run since the sub-run has run out of its time.
    pub fn global_due(&mut self, alloc: Global, now: u64) -> Fx
        requires later { self.old.latest ≤ now }
        ensures does { IfOk result (Does now self.old (cancels_for now self.old time_is_up) None self.new) }
        ensures err { OnErr result (self.new ≡ self.old) }
    {
        run_out(alloc, &mut self.view, now)
    }

    /// Ends a sub-run: in a stress run that is told, and the end of the run with the statistics of its sub-runs where
    /// it stops after this one; any other run ends with it, and its statistics are told. In a rerun the end tells the
    /// tests that were expected and not seen.
    pub fn end(&mut self, alloc: Global, now: u64) -> Fx
        requires on { self.old.on ≡ true }
        requires count { CanCount self.old.sub_runs }
        requires later { self.old.latest ≤ now }
        ensures does { IfOk result (Does now self.old (ends_at now self.old) None self.new) }
        ensures err { OnErr result (self.new ≡ self.old) }
    {
        end_sub_run(alloc, &mut self.view, now)
    }
}
