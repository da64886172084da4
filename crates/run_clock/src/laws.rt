// Laws of counted time.
ghost use Rattle.run_clock.specs.Laws.{TimeAddsUp, PassingTimeCounts, SameMomentCountsNothing, IdleMarkCountsNothing};
ghost use Rattle.run_clock.specs.Laws.{IdleMarkNeedsNoCall};

/// Counted and paused time add up to the time since the start, an open pause counted as paused.
pub fn time_adds_up()
    ensures { TimeAddsUp }
{}

/// Time that passes counts where no pause is open, and else it doesn't.
pub fn passing_time_counts()
    ensures { PassingTimeCounts }
{}

/// A pause and a resume at one moment change nothing that is counted.
pub fn same_moment_counts_nothing()
    ensures { SameMomentCountsNothing }
{}

/// A pause in a pause, a resume of a running timer and any other act change nothing that is counted.
pub fn idle_marks_count_nothing()
    ensures { IdleMarkCountsNothing }
{}

/// A stopwatch and a sleep need not be told of a mark that changes nothing that is counted.
pub fn idle_marks_need_no_call()
    ensures { IdleMarkNeedsNoCall }
{}
