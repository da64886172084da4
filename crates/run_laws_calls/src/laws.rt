// Theorems on what is told by the calls, over every legal journal.
ghost use Rattle.run_laws_calls.specs.Counts.{EachByItsFate, EachOnce, EachOnceAtMost, OneJustOnce};
ghost use Rattle.run_laws_calls.specs.Endings.{RunsEndSo, SubRunsEndSo};
ghost use Rattle.run_laws_calls.specs.Numbers.{EventsAreNumbered, NoScriptIsTold};
ghost use Rattle.run_laws_calls.specs.Outcomes.{OneOutcomeIsTold, OutcomesAreTold};
ghost use Rattle.run_laws_calls.specs.Reasons.{RanksArePlaces, ReasonsRise};
ghost use Rattle.run_laws_calls.specs.Stops.{CausesAreTold, NothingStops};
ghost use Rattle.run_laws_calls.specs.StressStops.{RunsStop};
ghost use Rattle.run_laws_calls.specs.SubRunEnds.{CancelledIsLast, SubRunsAreTold};
ghost use Rattle.run_laws_calls.specs.Success.{FailedScriptsCancel, OneSuccessIsOfAll, OneUncancelledOutcome};
ghost use Rattle.run_laws_calls.specs.Success.{SuccessIsOfAll, UncancelledOutcomes};
ghost use Rattle.run_laws_calls.specs.Whole.{OneMoreIsTold, RunsAreOne};

/// One more entry at the end of a journal is one more happening: its events are told after those before it, and it asks
/// what it asks after all that was asked before, with its place in the journal.
pub fn told_of_one_more()
    ensures { OneMoreIsTold }
{}

/// Of a run that is no stress run, the whole history of a legal journal tells, asks and sends the same as its newest
/// sub-run, with the same causes, and with the same units never started and left; and its newest sub-run is the one
/// that ended where the run is over, and else none has.
pub fn a_run_has_one_sub_run()
    ensures { RunsAreOne }
{}

/// Each event of a script that a legal journal tells has the number of a script of the plan, and each event of a test
/// that of a test; so none is of a script where the plan has none.
pub fn events_are_numbered()
    ensures numbered { EventsAreNumbered }
    ensures none { NoScriptIsTold }
{}

/// After every legal journal a cause came in the newest sub-run exactly where an event of it told that the run is
/// cancelled or killed, and the reason of the sub-run is that of the latest such event.
pub fn causes_are_told()
    ensures { CausesAreTold }
{}

/// The reasons for which a run is cancelled stand in one order: a failed script, test failures, a refused event, the
/// global timer, test failures that end the run at once, a signal, an interrupt, a second signal; the rank of a reason
/// is its place there. Each turn of a legal journal that is a cause tells its reason exactly where each reason that was
/// told in the sub-run stands before it.
pub fn reasons_rise()
    ensures places { RanksArePlaces }
    ensures turns { ReasonsRise }
{}

/// After every legal journal, where no event of the newest sub-run told that the run is cancelled or killed, no script
/// or test was denied its start in it, or left between two attempts; and in each sub-run that has ended, where none
/// told that, each script and each test that matches was told started just once and finished just once. So it is of all
/// events of a run that is over, and no stress run.
pub fn nothing_stops_without_a_cause()
    ensures stops { NothingStops }
    ensures each { EachOnce }
    ensures one { OneJustOnce }
{}

/// In each sub-run of every legal journal each script, and each test that matches, is told started once at most and
/// finished at most as often, each other test is told skipped once at most, and no other number is told so. Where the
/// sub-run has ended, each of these is told just once, but for the start and the finish of one that was never started,
/// and the finish of one that was left.
pub fn each_unit_finishes_once()
    ensures at_most { EachOnceAtMost }
    ensures at_end { EachByItsFate }
{}

/// A turn of a legal journal tells the end of a sub-run exactly where it ends one of a stress run, with its statistics
/// and how many have ended, and the end of a stress run exactly where it ends that, with how many sub-runs it had, how
/// many of them passed and failed, and how the last one ended: all by the events of each. A sub-run that is cancelled
/// is the last.
pub fn sub_runs_are_told()
    ensures ends { SubRunsAreTold }
    ensures last { CancelledIsLast }
{}

/// Where the run of a legal journal is over, its outcome is put together, in order, of those of its sub-runs, each that
/// of the statistics counted over the events of the sub-run; else it has none. Where it is no stress run, it is that of
/// the statistics counted over all events.
pub fn an_outcome_is_of_what_was_told()
    ensures each { OutcomesAreTold }
    ensures one { OneOutcomeIsTold }
{}

/// Each sub-run of a legal journal that has ended is a success exactly where some test was told finished in it, each
/// script and each test that matches was told finished just once, and none of these failed; so a run that is over, and
/// no stress run, is one exactly where that was told.
pub fn a_success_is_of_all()
    ensures each { SuccessIsOfAll }
    ensures one { OneSuccessIsOfAll }
{}

/// Where no event of a sub-run told that the run is cancelled or killed, none told that a script failed; and where the
/// sub-run has ended too, it failed at its tests exactly where a test was told to fail, else it is a success where some
/// test was told finished, and else no test ran. Where it is no stress run, that is the outcome of a run that is over.
pub fn an_uncancelled_run_ends_as_told()
    ensures scripts { FailedScriptsCancel }
    ensures each { UncancelledOutcomes }
    ensures one { OneUncancelledOutcome }
{}

/// Each sub-run of a legal journal that has ended has the outcome that its events give, the first that holds: it failed
/// at its scripts where one was told to fail, was cancelled there where not each was told finished, failed at its tests
/// where one was told to fail, was cancelled there where not each that matches was told finished, is a success where
/// some test was told finished, and else no test ran. It is said to be cancelled where it failed, too, where the latest
/// event that told so had a reason above the failure of a test. So ends a run that is over, and no stress run.
pub fn runs_end_as_told()
    ensures each { SubRunsEndSo }
    ensures one { RunsEndSo }
{}

/// A turn of a legal journal ends the run only where it ends a sub-run. There it ends the run exactly where that is
/// no stress run, an event of the sub-run told that the run is cancelled, as many sub-runs have ended as the stress
/// run is to have, its active time, as the event of the end tells it, has reached its duration, or 2^32 - 1 sub-runs
/// have ended.
pub fn runs_stop()
    ensures { RunsStop }
{}
