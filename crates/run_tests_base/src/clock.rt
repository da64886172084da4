// Stopwatches and sleeps at worked rows, and over any list of calls.
ghost use Rattle.std.specs.Prelude.{◌≡◌, ◌≤◌, Ok};
ghost use Rattle.run_clock.specs.Counted.{IsInOrder, is_due, counted_time, paused_time};
ghost use Rattle.run_clock.specs.Stopwatch.{Times};
ghost use Rattle.run_clock.specs.Sleep.{Keeps, ready_where};
ghost use Rattle.run_tests_base.specs.Marks.{marks_of};

use crate::rows::holds;
use run_clock::{PausableSleep, Poll, StopwatchSnapshot, StopwatchStart};
use std::alloc::AllocError;

// A stopwatch after any list of calls, the newest first: pauses (true) and resumes.
fn watch_after(start: u64, calls: &[(u64, bool)], now: u64) -> StopwatchStart
    requires { IsInOrder start (marks_of calls.now) now }
    ensures times { Times start (marks_of calls.now) result }
    ensures latest { result.latest ≤ now }
{
    match calls.split_first() {
        None => StopwatchStart::new(start),
        Some(((moment, pauses), before)) => {
            let mut watch = watch_after(start, before, *moment);
            if *pauses {
                watch.pause(*moment);
            } else {
                watch.resume(*moment);
            }
            watch
        }
    }
}

// What it shows is the counted time of its calls.
fn shown_after(start: u64, calls: &[(u64, bool)], now: u64) -> StopwatchSnapshot
    requires { IsInOrder start (marks_of calls.now) now }
    ensures active { result.active ≡ counted_time start (marks_of calls.now) now }
    ensures paused { result.paused ≡ paused_time start (marks_of calls.now) now }
{
    watch_after(start, calls, now).snapshot(now)
}

// A sleep that was set with this duration, after any list of such calls.
fn sleep_after(set: u64, duration: u64, calls: &[(u64, bool)], now: u64) -> PausableSleep
    requires { IsInOrder set (marks_of calls.now) now }
    ensures timer { Keeps (record { set = set; duration = duration; past = marks_of calls.now }) result }
    ensures latest { result.latest ≤ now }
{
    match calls.split_first() {
        None => PausableSleep::new(set, duration),
        Some(((moment, pauses), before)) => {
            let mut sleep = sleep_after(set, duration, before, *moment);
            if *pauses {
                sleep.pause(*moment);
            } else {
                sleep.resume(*moment);
            }
            sleep
        }
    }
}

// It is ready exactly where its timer is due.
fn polled_after(set: u64, duration: u64, calls: &[(u64, bool)], now: u64) -> Poll<()>
    requires { IsInOrder set (marks_of calls.now) now }
    ensures { result ≡ ready_where
        (is_due (record { set = set; duration = duration; past = marks_of calls.now }) now) }
{
    sleep_after(set, duration, calls, now).poll_at(now)
}

// A clone is the stopwatch itself, and takes no memory.
fn copied(watch: &StopwatchStart) -> Result<StopwatchStart, AllocError>
    ensures { result ≡ Ok watch.now }
{
    watch.clone()
}

fn shows(shown: StopwatchSnapshot, start: u64, active: u64, paused: u64) -> bool {
    shown.start == start && shown.active == active && shown.paused == paused
}

// A stopwatch that is paused twice in a row.
fn counts_pauses() -> bool {
    let mut watch = StopwatchStart::new(0);
    watch.pause(0);
    watch.resume(250);
    watch.pause(250);
    let paused = watch.is_paused() && shows(watch.snapshot(600), 0, 0, 600);
    watch.resume(550);
    paused && !watch.is_paused() && shows(watch.snapshot(600), 0, 50, 550)
}

fn is_copied(watch: &StopwatchStart) -> bool {
    match copied(watch) {
        Ok(copy) => copy.is_paused() == watch.is_paused(),
        Err(_) => false,
    }
}

fn counts_any_calls() -> bool {
    let calls = [(550, false), (250, true), (250, false), (0, true)];
    shows(shown_after(0, &calls, 600), 0, 50, 550)
}

fn is_ready(sleep: &PausableSleep, now: u64) -> bool
    requires { sleep.now.latest ≤ now }
{
    sleep.poll_at(now) == Poll::Ready(())
}

// A sleep that is set again while it is paused, with the duration that it has, and past the greatest moment.
fn fires_where_due() -> bool {
    let mut sleep = PausableSleep::new(0, 1);
    sleep.pause(0);
    sleep.reset(0, 500);
    let paused = sleep.is_paused() && !is_ready(&sleep, 1000);
    sleep.resume(1000);
    let resumed = !is_ready(&sleep, 1499) && is_ready(&sleep, 1500);
    sleep.reset_last_duration(1500);
    let again = !is_ready(&sleep, 1999) && is_ready(&sleep, 2000);
    sleep.reset(2000, u64::MAX - 1999);
    paused && resumed && again && !is_ready(&sleep, u64::MAX)
}

// Whether a sleep of 100 from 10 is ready after any calls.
fn is_due_at(now: u64) -> bool
    requires { 210 ≤ now }
{
    let calls = [(210, false), (200, false), (90, true), (70, true)];
    polled_after(10, 100, &calls, now) == Poll::Ready(())
}

#[test]
fn pauses_are_not_counted(rt: HostRuntime) {
    holds(&rt, "stopwatch", counts_pauses());
    holds(&rt, "any calls", counts_any_calls());
    holds(&rt, "copy", is_copied(&StopwatchStart::new(0)));
    holds(&rt, "sleep", fires_where_due());
    holds(&rt, "pending", !is_due_at(239));
    holds(&rt, "ready", is_due_at(240));
}
