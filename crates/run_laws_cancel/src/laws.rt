// Theorems on causes, pauses and rounds over every legal journal.
ghost use Rattle.run_laws_cancel.specs.Ends.{EndsAreAsked};
ghost use Rattle.run_laws_cancel.specs.Groups.{SignalsGoToGroups};
ghost use Rattle.run_laws_cancel.specs.Keys.{KeysDoTheirs, KnownKeysCome};
ghost use Rattle.run_laws_cancel.specs.Pauses.{PausedRunsGoOn, PausesAlternate, PausesAreOfSignals};
ghost use Rattle.run_laws_cancel.specs.Pauses.{RunnerIsAskedToStop};
ghost use Rattle.run_laws_cancel.specs.Reach.{RequestsReachTheLive};
ghost use Rattle.run_laws_cancel.specs.Requests.{RequestsAreOfCauses};
ghost use Rattle.run_laws_cancel.specs.Rounds.{AnswersAreTold, QueriesAreWaitedFor, StopsAreWaitedFor};
ghost use Rattle.run_laws_cancel.specs.Rounds.{KeysAreHeard, TicksAreFree};
ghost use Rattle.run_laws_cancel.specs.RunTurns.{BeginsComeBetween, ClockFits, DeliveriesComeFree};
ghost use Rattle.run_laws_cancel.specs.Scripts.{ScriptsAreAdmittedInTurn, ScriptsComeOneByOne};
ghost use Rattle.run_laws_cancel.specs.Stops.{StopsAreAsked};
ghost use Rattle.run_laws_cancel.specs.SubRunTime.{SubRunsAreTimed};
ghost use Rattle.run_laws_cancel.specs.Enabled.{GlobalTimerIsCounted, RefusalsAreReportedOnce};
ghost use Rattle.run_laws_cancel.specs.Enabled.{SignalsAreHeardTwice};

/// Each turn of a legal journal that is a cause, for a reason above each reason before it in its sub-run, asks of each
/// live unit what is asked for that: a first signal to end its child by that signal, a second one to kill it, the
/// global timer to end it by a term, too many failures to end it where the plan says at once; a failed script, too many
/// failures else, and a refused event to start no further attempt. A tstp asks of them to stop where the run isn't
/// paused, and a cont to go on where it is; a signal or a key that asks what the run is doing asks that of them. Each
/// stop and each query says its round, and all rounds are counted on from 0. Each other turn asks nothing of them.
pub fn requests_are_of_causes()
    ensures { RequestsAreOfCauses }
{}

/// After every legal journal the global timer is due exactly where the newest sub-run goes on, no round of stops or of
/// queries is open and the runner isn't stopped, the plan has a limit and there is no interceptor, the nanoseconds by
/// which the turns of the sub-run moved the clock while the runner wasn't stopped reach the limit, and it was not due
/// before in the sub-run.
pub fn the_global_timer_is_counted()
    ensures { GlobalTimerIsCounted }
{}

/// After every legal journal the report of a refused event is enabled exactly where the newest sub-run goes on, no
/// round of stops or of queries is open, the reporter refused an event, and none was reported before in the sub-run.
pub fn refusals_are_reported_once()
    ensures { RefusalsAreReportedOnce }
{}

/// After every legal journal a signal is enabled exactly where the newest sub-run goes on, no round of stops or of
/// queries is open, and by the handlers of the plan the signal shuts a run down, and at most one that does so came
/// before in the sub-run, or it is heard as one that pauses the run, lets it go on or asks what it is doing.
pub fn signals_are_heard_twice()
    ensures { SignalsAreHeardTwice }
{}

/// Each turn of a legal journal tells that the run is paused exactly where it is a tstp that comes while the run isn't
/// paused, and that it goes on exactly where it is a cont that comes while it is. A tstp and a cont tell and ask
/// nothing else: so a tstp in a pause, and a cont outside of one, tells and asks nothing at all. And the pauses and
/// continues that a legal journal tells alternate, beginning with a pause.
pub fn pauses_are_of_signals()
    ensures signals { PausesAreOfSignals }
    ensures alternate { PausesAlternate }
{}

/// After every legal journal the run can end exactly where the newest sub-run goes on, no round of stops or of queries
/// is open, each message was delivered, each script and each test was admitted and is over, and the run isn't paused.
pub fn a_paused_run_goes_on()
    ensures { PausedRunsGoOn }
{}

/// Each turn of a legal journal asks of the runner to stop itself exactly where it is the end of the wait for stopped
/// units.
pub fn the_runner_stops_itself()
    ensures { RunnerIsAskedToStop }
{}

/// After every legal journal the wait for stopped units can be over exactly where the newest sub-run goes on, a round
/// of stops is open, and no unit has its stop in its line, or the turns since the round began moved the clock by 100
/// ms. A round of queries can be over exactly where one is open, and no unit has its query in its line and no answer
/// waits, or the turns since the round began, or since it told its latest answer, moved the clock by 100 ms. And an
/// answer can be told exactly where a round of queries is open and one waits.
pub fn rounds_are_waited_for()
    ensures stops { StopsAreWaitedFor }
    ensures queries { QueriesAreWaitedFor }
    ensures answers { AnswersAreTold }
{}

/// After every legal journal a sub-run can begin exactly where the run isn't over and the latest begin or end is no
/// begin. A message can be delivered exactly where the newest sub-run goes on, no round of stops or of queries is open,
/// and fewer messages were delivered in it than sent. The clock can move exactly where the run isn't over, and by so
/// much that all that moved it comes to less than 2^64 ns.
pub fn runs_take_turns()
    ensures begins { BeginsComeBetween }
    ensures deliveries { DeliveriesComeFree }
    ensures clock { ClockFits }
{}

/// After every legal journal a key that the handlers of the plan hear, and a tick, can come exactly where the newest
/// sub-run goes on and no round of stops or of queries is open, and no other key can.
pub fn keys_and_ticks_come_freely()
    ensures keys { KeysAreHeard }
    ensures ticks { TicksAreFree }
{}

/// After every legal journal a key can come exactly where the newest sub-run goes on, no round of stops or of queries
/// is open, the plan's handlers hear keys, and it is `t`, pressed with no modifier, or enter, pressed: also in a pause.
/// Each turn of a legal journal that is such a `t` opens a round in which the live units are asked what they are
/// doing, and tells that; each that is enter tells that it was pressed, and asks nothing. A key does nothing else, and
/// no other turn tells that enter was pressed.
pub fn keys_are_t_and_enter()
    ensures come { KnownKeysCome }
    ensures turns { KeysDoTheirs }
{}

/// After every legal journal each script and test of the newest sub-run is live exactly where its own turns say so:
/// it was let go, and it was neither decided that it isn't tried again nor was it left; what was broadcast to it is
/// what was broadcast while it was so, where a turn of its own comes before the request of that turn; and while it is
/// live all of that waits in its line, but for as many requests as it took.
pub fn requests_reach_the_live()
    ensures { RequestsReachTheLive }
{}

/// Each start and each signal that is asked in the newest sub-run of a legal journal, be it one that ends a child,
/// stops it or lets it go on, is for a child with a group of processes of its own exactly where the child is a
/// script's, or no debugger stands before the tests.
pub fn signals_go_to_groups()
    ensures { SignalsGoToGroups }
{}

/// Each turn of a legal journal asks a child to stop exactly where its unit takes a stop with it, after it was let go
/// and before its child ended, and either no debugger stands before the tests, or its child was asked to end and not
/// killed since. It asks a child to go on exactly where its unit takes a continue so, and either the latest stop or
/// continue that it took in its attempt is a stop, whether its child was asked to stop or not, or its child was asked
/// to end and not killed since.
pub fn stops_are_asked()
    ensures { StopsAreAsked }
{}

/// With each turn of a legal journal a unit that takes a request to end its child, after it was let go and before its
/// child ended, kills the child where that was asked to end and not killed since, and else asks it to end by the signal
/// of the request: an interrupt, a hangup and a quit by the same, a term and too many failures by a term, a second
/// signal by a kill; and by a kill where the plan gives its child no time to end by itself. A timer of the unit that is
/// due kills a child that was asked to end and not killed since, and asks another one to end, where it asks that, by a
/// term, or by a kill where the plan gives it no time. No other turn asks a child to end.
pub fn children_are_ended()
    ensures { EndsAreAsked }
{}

/// In the newest sub-run of every legal journal setup scripts are told started one by one, in the order of the plan:
/// before the start of one each that was told started at all has a lower number and was told finished. And before one
/// that was admitted each was never started, since a cause came first, or its attempt was decided on.
pub fn scripts_come_one_by_one()
    ensures told { ScriptsComeOneByOne }
    ensures admitted { ScriptsAreAdmittedInTurn }
{}

/// An end of a legal journal that tells how long its sub-run took tells by how much the turns since the end before
/// it, or since the start of the run, moved the clock while the runner was not stopped: neither a pause of the run
/// alone nor a sub-run that hasn't begun yet stops that time.
pub fn sub_runs_are_timed()
    ensures { SubRunsAreTimed }
{}
