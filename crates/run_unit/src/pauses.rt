// The timers of a unit: from when on something is waited for, and their pauses.
ghost use Rattle.std.specs.Prelude.{◌≡◌, ◌≤◌, IfSome, option_map};
ghost use Rattle.run_model.specs.Pauses.{watch_paused, watch_resumed, sleep_paused, sleep_resumed, all_paused};
ghost use Rattle.run_model.specs.Pauses.{all_resumed};
ghost use Rattle.run_model.specs.Pauses.{timers_from, waits_from, held, leaks_from, closed};
ghost use Rattle.run_unit.specs.Timely.{IsTimely};

use run_clock::{PausableSleep, StopwatchStart};
use run_model::Timers;

/// The timers of an attempt that is let go now.
pub fn timers_from(now: u64) -> Timers
    ensures { result ≡ timers_from now }
{
    Timers {
        stopwatch: StopwatchStart::new(now),
        slow: None,
        wait: None,
        waiting: StopwatchStart::new(now),
        slow_count: 0,
    }
}

fn pause_watch(watch: &mut StopwatchStart, now: u64)
    requires { watch.old.latest ≤ now }
    ensures { watch.new ≡ watch_paused now watch.old }
{
    watch.pause(now);
}

fn resume_watch(watch: &mut StopwatchStart, now: u64)
    requires { watch.old.latest ≤ now }
    ensures { watch.new ≡ watch_resumed now watch.old }
{
    watch.resume(now);
}

fn pause_timer(timer: &mut Option<PausableSleep>, now: u64)
    requires { IfSome timer.old (λ timer. timer.latest ≤ now) }
    ensures { timer.new ≡ option_map (sleep_paused now) timer.old }
{
    if let Some(timer) = timer {
        timer.pause(now);
    }
}

fn resume_timer(timer: &mut Option<PausableSleep>, now: u64)
    requires { IfSome timer.old (λ timer. timer.latest ≤ now) }
    ensures { timer.new ≡ option_map (sleep_resumed now) timer.old }
{
    if let Some(timer) = timer {
        timer.resume(now);
    }
}

/// Each timer that a unit has is paused now.
pub fn pause_all(timers: &mut Timers, now: u64)
    requires { IsTimely timers.old now }
    ensures { timers.new ≡ all_paused now timers.old }
{
    pause_watch(&mut timers.stopwatch, now);
    pause_timer(&mut timers.slow, now);
    pause_timer(&mut timers.wait, now);
    pause_watch(&mut timers.waiting, now);
}

/// Each timer that is paused runs again from now on.
pub fn resume_all(timers: &mut Timers, now: u64)
    requires { IsTimely timers.old now }
    ensures { timers.new ≡ all_resumed now timers.old }
{
    resume_watch(&mut timers.stopwatch, now);
    resume_timer(&mut timers.slow, now);
    resume_timer(&mut timers.wait, now);
    resume_watch(&mut timers.waiting, now);
}

/// Something is waited for from now on, for so many nanoseconds.
pub fn wait_from(timers: &mut Timers, now: u64, duration: u64)
    ensures { timers.new ≡ waits_from now duration timers.old }
{
    timers.wait = Some(PausableSleep::new(now, duration));
    timers.waiting = StopwatchStart::new(now);
}

// Timers that are set while a pause of the attempt is open are paused where they are set.
fn hold(timers: &mut Timers, now: u64)
    requires { IsTimely timers.old now }
    ensures { timers.new ≡ held now timers.old }
{
    if timers.stopwatch.is_paused() {
        pause_all(timers, now);
    }
}

/// The streams of an ended child are waited for from now on, for so many nanoseconds.
pub fn leak_from(timers: &mut Timers, now: u64, duration: u64)
    requires { timers.old.stopwatch.latest ≤ now }
    ensures { timers.new ≡ leaks_from now duration timers.old }
{
    timers.slow = None;
    wait_from(timers, now, duration);
    hold(timers, now);
}

/// No timer is due any more, and a pause of the attempt that is open ends now.
pub fn close_timers(timers: &mut Timers, now: u64)
    requires { timers.old.stopwatch.latest ≤ now }
    ensures { timers.new ≡ closed now timers.old }
{
    resume_watch(&mut timers.stopwatch, now);
    timers.slow = None;
    timers.wait = None;
}
