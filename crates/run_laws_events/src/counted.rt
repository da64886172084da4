// Theorems over every legal journal.
ghost use Rattle.run_laws_events.specs.Admits.{AdmitsWhatHasRoom};
ghost use Rattle.run_laws_events.specs.Moments.{EventsSayMoment};
ghost use Rattle.run_laws_events.specs.Counts.{EventsSayCounts};
ghost use Rattle.run_laws_events.specs.Idle.{IdleRunsAdmit};
ghost use Rattle.run_laws_events.specs.PlanLimits.{LimitsAreOfPlan};
ghost use Rattle.run_laws_events.specs.RunStart.{RunStartsWithPlan};

/// Each event that a turn of a legal journal tells, but a tick, says the moment of that turn, which is the sum of what
/// the turns before it moved the clock, and the run's active time, which is the part of it that lies in no pause of the
/// run.
pub fn events_say_their_moment()
    ensures { EventsSayMoment }
{}

/// Each event that a turn of a legal journal tells, and that says how many tests or setup scripts run, or statistics,
/// says those of what was told in its sub-run up to and with it: how many were told started and not told finished,
/// and counts of the skips and finishes, with the greatest reason of the causes before it, or for the event of a
/// cause up to that.
pub fn events_say_their_counts()
    ensures { EventsSayCounts }
{}

/// A turn of a legal journal tells that the run starts exactly where it is a begin, which is the first turn of its
/// sub-run, and with the run's id, the number of tests, the arguments, the profile and the stress condition that its
/// settings and their plan say.
pub fn run_starts_with_its_plan()
    ensures { RunStartsWithPlan }
{}

/// After each event that is told in the newest sub-run of a legal journal the tests of the plan that were told
/// started and not told finished keep its limits: their weights, each cut to the number of threads, sum to no more
/// than that, and those of the tests that name a group, each cut to the group's limit, to no more than the limit.
/// Each of them was told its slots, one within its group exactly where that is one of the plan; no two have the same
/// slot among all tests, nor the same one of a group.
pub fn limits_are_of_the_plan()
    ensures { LimitsAreOfPlan }
{}

/// No limit keeps out what would run alone: after a legal journal whose sub-run is on, and of which each script and
/// test that was admitted is over, the next one is admitted by an enabled turn, as long as one of the plan wasn't,
/// whatever its weight.
pub fn idle_runs_admit()
    ensures { IdleRunsAdmit }
{}

/// After a legal journal a script or test can be admitted exactly where its sub-run goes on, and either a script wasn't
/// admitted in it and each script before that one is over, or each script is over, and the test that comes first, by
/// the order in which tests are admitted, is to be skipped, or its weight, cut to the number of threads, comes to no
/// more than that number together with the weights, each cut so, of the tests that hold slots. So tests run side by
/// side as long as there is room, and no cause, no pause and no open round keeps one out.
pub fn admits_what_has_room()
    ensures { AdmitsWhatHasRoom }
{}
