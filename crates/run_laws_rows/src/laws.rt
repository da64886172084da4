// Theorems on single rows of the tables, over every legal journal.
ghost use Rattle.run_laws_rows.specs.Delays.{DelaysAreWhole};
ghost use Rattle.run_laws_rows.specs.Numbers.{SlowTimesAreWhole, UsualTestsHaveNumbers};
ghost use Rattle.run_laws_rows.specs.Results.{PassesAreThree, ResultsAreByChildren, ScriptsFailLate};
ghost use Rattle.run_laws_rows.specs.Statistics.{StatisticsCountFinishes};
ghost use Rattle.run_laws_rows.specs.Terms.{ScriptsGoByThemselves, SlowReportsAreOfPeriods};
ghost use Rattle.run_laws_rows.specs.Terms.{UnitsKeepTheirTerms};

/// Each attempt that a legal journal tells in its newest sub-run, with its failure or with a finish, has a result by
/// its own turns. It is a time-out exactly where the attempt ran out of time, its start was not refused and its
/// environment file not at fault; that counts as the plan says, and of a script as a failure. It is a failure to run
/// exactly where its start was refused, its file was at fault, or it did not run out of time and its child has no
/// end, or a stream or the wait for the child failed. Else it is a pass exactly where its child exited with code 0,
/// and it did not leak or leaks pass; it tells a leak exactly where its child exited with code 0 and it leaked, and
/// else with which code or by which signal its child ended, and whether it leaked. A pass, a leak that passes and a
/// time-out that passes are the results with which an attempt passed.
pub fn results_are_by_children()
    ensures results { ResultsAreByChildren }
    ensures passes { PassesAreThree }
    ensures scripts { ScriptsFailLate }
{}

/// Each attempt that a legal journal tells in its newest sub-run has no delay as the first of its unit, and else the
/// delay that the plan says for its place: the same each time, or doubled each time, at most to the greatest u64, and
/// then at most the limit; and where delays are drawn, the least whole number that is no less than so many of 2^33
/// parts of that as 2^32 + 1 and the word come to with which the attempt before it was decided on.
pub fn delays_are_whole()
    ensures { DelaysAreWhole }
{}

/// After every legal journal the statistics of the newest sub-run count the finishes that were told in it. Of tests,
/// by the last result: those that passed, unless they passed after a retry where that is to fail; of these the slow
/// ones that did not run out of time, those that did, those that were tried again, and those that leaked; those that
/// failed, as their child did, by a leak that fails or by passing only after a retry, and of these the slow ones;
/// those whose leak fails; those that ran out of time and failed; and those that failed to run. Of scripts: those
/// that passed, that failed, that ran out of time and that failed to run.
pub fn statistics_count_finishes()
    ensures { StatisticsCountFinishes }
{}

/// A usual test is slow after 60 s and is never ended for that, would be given 10 s to end by itself, has its streams
/// waited for during 200 ms, passes where it leaks and where it passes after a failed attempt, fails where it runs out
/// of time, and has weight 1, priority 0, no group, no retry and no script. The time of a slow report is as many
/// periods as the attempt was slow times, added one by one, at most to the greatest u64.
pub fn usual_values_are_numbers()
    ensures tests { UsualTestsHaveNumbers }
    ensures slow { SlowTimesAreWhole }
{}

/// Each slow report that a legal journal tells of a script or test in its newest sub-run tells a time of whole periods
/// of the plan's, one at least, and that the attempt has run out of time exactly where those are as many as the plan
/// gives it, of which 0 is 1. Each script and test that was admitted goes by the terms of its number in the plan. By
/// those of a script it is tried once, its timers count, the streams of its child are waited for and its environment
/// file is read; and the interceptor before the tests, and the retries and the flaky result that are set for all tests,
/// change nothing in them, but whether its child is asked to stop.
pub fn units_go_by_the_plan()
    ensures reports { SlowReportsAreOfPeriods }
    ensures terms { UnitsKeepTheirTerms }
    ensures scripts { ScriptsGoByThemselves }
{}
