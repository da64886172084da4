// Theorems over every legal journal.
ghost use Rattle.run_laws.specs.Laws.{AccountsHold, AttemptsAreOwnTurns, BoardsStep, EventsExtend};
ghost use Rattle.run_laws.specs.Laws.{EachHasFate, OverHasEnded};
ghost use Rattle.run_laws.specs.Limits.{LimitsHold};
ghost use Rattle.run_laws.specs.Once.{AttemptsToldOnce};
ghost use Rattle.run_laws.specs.Reports.{ReportsAreOwnTurns};
ghost use Rattle.run_laws.specs.Scripts.{ScriptsComeFirst, ScriptsHaveFates, ScriptsToldAsRead};
ghost use Rattle.run_laws.specs.Starts.{StartsArePlanned, StartsHaveWords};
ghost use Rattle.run_laws.specs.Delays.{DelaysAreOwnTurns};
ghost use Rattle.run_laws.specs.Cancels.{CancelsAreCaused, LinesAreBroadcasts};
ghost use Rattle.run_laws.specs.Course.{CoursesExclude, NoneRefused};
ghost use Rattle.run_laws.specs.Ready.{AllAreTimely, ClockMoves, EnabledCan};

/// What is told of each script and test in the newest sub-run, and what waits to be told, is its account, after every
/// legal journal.
pub fn accounts_hold()
    ensures { AccountsHold }
{}

/// The attempts of each script and test in the newest sub-run are its own turns, cut where it was let go: their
/// results, outputs, starts and times, and where their timers are due, after every legal journal.
pub fn attempts_are_their_own_turns()
    ensures { AttemptsAreOwnTurns }
{}

/// The attempts of each test in the newest sub-run that were told as they ended are the first of those that its own
/// turns made, in order and each once, and a finish is told with just those, after every legal journal.
pub fn attempts_are_told_once()
    ensures { AttemptsToldOnce }
{}

/// The signals that are asked for the child of each script and test in the newest sub-run, and the reports that it is
/// slow, told and waiting, are those of its own turns, after every legal journal.
pub fn reports_are_own_turns()
    ensures { ReportsAreOwnTurns }
{}

/// The delays that are told with the failed attempts of each test in the newest sub-run, followed by those that wait to
/// be told, are those of its own turns, which the statuses of its further attempts have, after every legal journal.
pub fn delays_are_own_turns()
    ensures { DelaysAreOwnTurns }
{}

/// Each turn of a legal journal tells that the run is cancelled exactly where it is a cause whose reason is above that
/// of each cause before it in its sub-run, after all else and with its reason; that the run is killed exactly for a
/// second signal; and a start, told or asked, only where no cause came before.
pub fn cancels_are_caused()
    ensures { CancelsAreCaused }
{}

/// The line of each script and test that is let go and isn't over holds what was broadcast while it was live, but for
/// as many requests as it took, in the newest sub-run after every legal journal.
pub fn lines_are_broadcasts()
    ensures { LinesAreBroadcasts }
{}

/// Each enabled turn after a legal journal moves the board by its step and the reporter's answers.
pub fn boards_step()
    ensures { BoardsStep }
{}

/// Each turn that is enabled after a legal journal can be taken: what its parts need holds.
pub fn enabled_turns_can_be_taken()
    ensures { EnabledCan }
{}

/// After every legal journal neither the dispatcher nor a unit has taken a turn later than the clock is, which the
/// turns of the clock alone move, each by its nanoseconds.
pub fn turns_are_timely()
    ensures timely { AllAreTimely }
    ensures clock { ClockMoves }
{}

/// In every sub-run that has ended, also in the newest of a run that is over, each test has its fate: one that doesn't
/// match was told skipped once and nothing else; any other was told started once, then the failure of each attempt that
/// was tried again and its retry, by its number, and finished once, with the results of its own turns, or, exactly
/// where a cause came before the delivery of its start or of a retry, was never started or was left there. Of a
/// finished one each attempt but the last failed, and the last passed or no retry was left; of one that was left each
/// failed, a retry was left, and they are as many as had been delivered. Each attempt that was let go has ended, and
/// has its status.
pub fn each_test_has_its_fate()
    ensures fates { EachHasFate }
    ensures over { OverHasEnded }
{}

/// In every sub-run that has ended each script was told started once and then finished, with the one result of its own
/// turns, or, exactly where a cause came before the delivery of its start, nothing was told of it.
pub fn each_script_has_its_fate()
    ensures { ScriptsHaveFates }
{}

/// In the newest sub-run of every legal journal each script that was told started at all is told finished before any
/// test is told started.
pub fn scripts_come_first()
    ensures { ScriptsComeFirst }
{}

/// In the newest sub-run of every legal journal what came of a script's environment file is told with its finish as its
/// own turns say it.
pub fn scripts_are_told_as_read()
    ensures { ScriptsToldAsRead }
{}

/// In the newest sub-run of every legal journal one start is asked of each script and test for each attempt that was
/// let go, in order, with the command, the variables and all else that the plan says: a test's in the slots with which
/// it was told started, and with the variables that the scripts it lists gave by their own turns, where they passed.
/// Each start that is told is that of the plan too.
pub fn starts_are_planned()
    ensures { StartsArePlanned }
{}

/// The start of a test that the plan gives has the words of the interceptor, then those of its platform's runner, then
/// its own; that of a script its own alone. Their variables have the names of the rule, in order, a test's last those
/// that its scripts handed on.
pub fn starts_have_their_words()
    ensures { StartsHaveWords }
{}

/// After each event that is told in the newest sub-run of a legal journal, the tests told started and not told finished
/// keep the limit on all tests and that of each group, and no two of them hold the same slot among all tests or within
/// a group, by the slots that their starts were told with.
pub fn limits_hold()
    ensures { LimitsHold }
{}

/// The events of a legal journal are the first events of every legal journal that extends it.
pub fn events_extend()
    ensures { EventsExtend }
{}

/// A list of turns has one journal at most with a reporter, and one course: it stops at one place, or it leaves the run
/// unfinished, or it ends the run with one outcome. Where no event was refused, the reporter is the one that refuses
/// none.
pub fn a_list_of_turns_has_one_course()
    ensures one { CoursesExclude }
    ensures unrefused { NoneRefused }
{}
