// Theorems over every legal journal: what events say of the plan.
ghost use Rattle.run_laws_events.specs.Names.{EventsNameThePlan, FinishesSayFlaky, SlowReportsSayAttempts};
ghost use Rattle.run_laws_events.specs.Order.{TestsComeInOrder};
ghost use Rattle.run_laws_events.specs.Retries.{RetriesNumbered, RetriesToldFew, RetriesToldInOrder};
ghost use Rattle.run_laws_events.specs.Slots.{SlotsAreLeast, StartsInSlots};

/// Each event of a unit that is told in the newest sub-run of a legal journal, and each answer of one to a query, names
/// the plan's own test of its unit's number by its id, or the plan's own script, by its id, its place, how many scripts
/// there are and whether it captures both streams; it names that very sub-run of a stress run, by how many had ended
/// before it and how many there are to be, and none of another run; and a test is told skipped for its own reason. A
/// plan that was built has each id once, so a reader who sees ids alone knows each test by what is printed.
pub fn events_name_the_plan()
    ensures { EventsNameThePlan }
{}

/// Each report in the newest sub-run of a legal journal that a test is slow says how many attempts it has at most: one
/// more than the retries of the plan's test, or of the settings where they set them for all tests.
pub fn slow_reports_say_attempts()
    ensures { SlowReportsSayAttempts }
{}

/// Each finish of a test that is told in the newest sub-run of a legal journal says what a pass after a failed attempt
/// counts as: what the plan's test says, or the settings where they set it for all tests.
pub fn finishes_say_flaky()
    ensures { FinishesSayFlaky }
{}

/// The retries of each test that are told in the newest sub-run of a legal journal are told as its attempts 2, 3, 4 and
/// so on, in order, each with as many attempts as the plan's test has at most, with the words of its platform's runner
/// and then its own, under its own id, and in the slots that its start was told with; and no more of them than the plan
/// gives it.
pub fn retries_are_told_in_order()
    ensures order { RetriesToldInOrder }
    ensures few { RetriesToldFew }
{}

/// What the account of each test in the newest sub-run of a legal journal has between its start and its finish is told
/// with these numbers: that attempt 1 failed, the retry as attempt 2, that attempt 2 failed, the retry as attempt 3,
/// and so on, for as many as were told.
pub fn retries_are_numbered_in_accounts()
    ensures { RetriesNumbered }
{}

/// Each test that a turn of a legal journal admits, but one that is skipped, joins in the least slot that is held by no
/// test which was admitted and isn't over, and, where the plan has a group of the name that the plan's test has, in the
/// least slot that none of them holds in that group, beside that name; else in none. Each start of a test that is told
/// in the newest sub-run has the slots with which it joined.
pub fn slots_are_of_the_rule()
    ensures least { SlotsAreLeast }
    ensures told { StartsInSlots }
{}

/// Each turn of a legal journal that admits a test admits the one that comes first of those that were not admitted in
/// the sub-run before and are not held back: of the greatest priority, and of those that have it the first in the plan.
/// A test is held back exactly where it isn't skipped, and its weight, cut to the limit of the group that it names,
/// passes that limit together with the weights of the tests of that group that hold slots.
pub fn tests_come_in_order()
    ensures { TestsComeInOrder }
{}
