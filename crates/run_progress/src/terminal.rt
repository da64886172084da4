// A terminal's own progress.
ghost use Rattle.std.specs.Prelude.{◌≡◌};
ghost use Rattle.run_progress.specs.Percent.{percent_of};
ghost use Rattle.run_progress.specs.Terminal.{done_percent, by_stats, term_progress};

use run_events::{RunStats, TestEvent, TestEventKind};
use std::fmt;
use std::fmt::{Display, Write};

/// What a terminal is told of a run's progress, with percents. It prints as the escape text for it, `None` as nothing.
#[derive(Clone, Copy, Debug, PartialEq, Eq)]
pub enum TermProgress {
    None,
    Running(u8),
    Errored(u8),
    Remove,
}

impl Display for TermProgress {
    ghost use Rattle.run_progress.specs.Terminal.{term_text};
    ghost use Rattle.std.specs.Prelude.{Some};

    ghost output = { λ t. Some (term_text t) };

    fn fmt<W: Write>(&self, f: &mut fmt::Formatter<W>) -> fmt::Result {
        match *self {
            TermProgress::None => f.write_str(""),
            TermProgress::Running(percent) => write!(f, "\x1b]9;4;1;{percent}\x1b\\"),
            TermProgress::Errored(percent) => write!(f, "\x1b]9;4;2;{percent}\x1b\\"),
            TermProgress::Remove => f.write_str("\x1b]9;4;0;\x1b\\"),
        }
    }
}

/// How much of the total is done, to the nearest percent, a half upwards: 100 at most, and of nothing.
///
/// ```text
/// term_progress_percent(1, 8) == 13
/// ```
pub fn term_progress_percent(done: u64, total: u64) -> u8
    ensures { result ≡ percent_of done total }
{
    if total == 0 {
        return 100;
    }
    let total = u128::from(total);
    let percent = (200 * u128::from(done) + total) / (2 * total);
    percent.min(100) as u8
}

fn done_percent(stats: &RunStats) -> u8
    ensures { result ≡ done_percent stats.now }
{
    term_progress_percent(stats.finished_count, stats.initial_run_count)
}

fn by_stats(stats: &RunStats) -> TermProgress
    ensures { result ≡ by_stats stats.now }
{
    let percent = done_percent(stats);
    if stats.has_failures() || stats.cancel_reason.is_some() {
        TermProgress::Errored(percent)
    } else {
        TermProgress::Running(percent)
    }
}

/// What a terminal is told at this event.
///
/// ```text
/// // of the start of a test, where 3 of 10 tests have finished and none failed
/// terminal_progress_value(&event) == TermProgress::Running(30)
/// ```
pub fn terminal_progress_value(event: &TestEvent) -> TermProgress
    ensures { result ≡ term_progress event.now.kind }
{
    match &event.kind {
        TestEventKind::TestStarted(told) => by_stats(&told.stats),
        TestEventKind::TestFinished(told) => by_stats(&told.stats),
        TestEventKind::RunBeginCancel(told) | TestEventKind::RunBeginKill(told) => {
            TermProgress::Errored(done_percent(&told.stats))
        }
        TestEventKind::RunPaused(_)
        | TestEventKind::RunContinued(_)
        | TestEventKind::RunFinished(_) => TermProgress::Remove,
        _ => TermProgress::None,
    }
}
