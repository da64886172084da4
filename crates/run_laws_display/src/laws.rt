// Theorems over every legal journal: which tests are displayed, and for how long a display takes the run to be paused.
ghost use Rattle.run_laws_display.specs.Displays.{DisplaysHaveNoTwins, DisplaysShowRunning, DisplaysShowThePlan};
ghost use Rattle.run_laws_display.specs.Displays.{BuiltPlansHaveIdsOnce, EventsFindTheirTests};
ghost use Rattle.run_laws_display.specs.Offsets.{DisplaysCountPauses, PausesHide};

/// A plan of which `build` makes a runner has each id once.
pub fn built_plans_have_ids_once()
    ensures { BuiltPlansHaveIdsOnce }
{}

/// After every legal journal of a plan that has each id once, each test of the plan is displayed exactly where it was
/// told started in the newest sub-run and not told finished in it: one that was left before a retry still is. After any
/// legal journal each displayed test is one of the plan; and none is ever displayed twice.
pub fn displays_show_running_tests()
    ensures running { DisplaysShowRunning }
    ensures plan { DisplaysShowThePlan }
    ensures twins { DisplaysHaveNoTwins }
{}

/// Each event of a legal journal of such a plan that tells that a test is slow, failed an attempt, is tried again or
/// finished finds that test displayed, and each that tells the start of one doesn't.
pub fn events_find_their_tests()
    ensures { EventsFindTheirTests }
{}

/// After every legal journal by which the run isn't paused, how long a display takes it to have been paused, by the
/// event that told last that it goes on, is how long it was: the time of the clock that isn't the run's active time.
/// While the run is paused, and then alone, a pause hides the display.
pub fn displays_count_pauses()
    ensures counts { DisplaysCountPauses }
    ensures hides { PausesHide }
{}
