// What a pass after a failed attempt counts as, by the counts that events tell.
ghost use Rattle.std.specs.Prelude.{◌≡◌, IsTrue};
ghost use Rattle.run_event_reader.specs.Counted.{
  counted_flaky,
  failed_after,
  failed_after_kind,
  IsCounted,
  IsCountedKind,
};

use run_events::{FlakyResult, ReporterEvent, TestEvent, TestEventKind, TestFinished};

// How many tests have failed after an event of a kind, of so many before it.
fn failed_after_kind(failed: u64, kind: &TestEventKind) -> u64
    ensures { result ≡ failed_after_kind failed kind.now }
{
    match kind {
        TestEventKind::TestFinished(told) => told.stats.failed,
        TestEventKind::StressSubRunStarted(_) => 0,
        _ => failed,
    }
}

/// How many tests have failed after an event, of so many before it: in the run, or in a stress run in its sub-run.
pub fn failed_after(failed: u64, event: &ReporterEvent) -> u64
    ensures { result ≡ failed_after failed event.now }
{
    match event {
        ReporterEvent::Tick => failed,
        ReporterEvent::Test(event) => failed_after_kind(failed, &event.kind),
    }
}

/// What a pass after a failed attempt counts as, where so many tests failed before it and with it.
pub(crate) fn counted_flaky(before: u64, now: u64) -> FlakyResult
    ensures { result ≡ counted_flaky before now }
{
    if before < now {
        FlakyResult::Fail
    } else {
        FlakyResult::Pass
    }
}

// Whether a finish says so.
fn is_counted_finish(failed: u64, told: &TestFinished) -> bool
    ensures { IsTrue result → told.now.finish.flaky ≡ counted_flaky failed told.now.stats.failed }
{
    told.finish.flaky == counted_flaky(failed, told.stats.failed)
}

fn is_counted_event(failed: u64, event: &TestEvent) -> bool
    ensures { IsTrue result → IsCountedKind failed event.now.kind }
{
    match &event.kind {
        TestEventKind::TestFinished(told) => is_counted_finish(failed, told),
        _ => true,
    }
}

/// Whether an event says so, where so many tests had failed before it.
pub(crate) fn is_counted(failed: u64, event: &ReporterEvent) -> bool
    ensures { IsTrue result → IsCounted failed event.now }
{
    match event {
        ReporterEvent::Tick => true,
        ReporterEvent::Test(event) => is_counted_event(failed, event),
    }
}
