// The lines of a display.
ghost use Rattle.std.specs.Prelude.{
  ◌≡◌,
  ◌-◌,
  ◌∷◌,
  ◌++◌,
  IfOk,
  drop,
  encode_utf8_all,
  length,
  map,
  replicate,
  string_bytes,
};
ghost use Rattle.std.specs.Str.{chars};
ghost use Rattle.run_progress.specs.Lines.{
  below,
  cut,
  filled,
  message_text,
  more_lines,
  name_text,
  name_width,
  noun,
  shown_after,
  shown_of,
  shown_time,
  status_text,
  test_line,
  test_lines,
  tick_of,
};

use crate::max_running::MaxProgressRunning;
use crate::running_test::{RunningTest, RunningTestStatus};
use crate::seen::Seen;
use crate::shown_tests::ShownTests;
use crate::summary::{counts, head};
use crate::texts::in_brackets;
use run_capture::Mem;
use run_events::{RunMode, TestInstanceId};
use std::alloc::Global;

/// How a display shows what it has seen: what the tests of the run are called, how many running tests it shows at most,
/// and the most lines of running tests that it showed so far.
#[derive(Clone, Copy, Drop)]
pub(crate) struct Showing {
    pub mode: RunMode,
    pub max: MaxProgressRunning,
    pub most_lines: usize,
}

// A status, in five columns.
fn status_text(status: RunningTestStatus) -> &'static str
    ensures { result.now ≡ status_text status }
{
    match status {
        RunningTestStatus::Running => "     ",
        RunningTestStatus::Slow => " SLOW",
        RunningTestStatus::Delay(_) => "DELAY",
        RunningTestStatus::Retry => "RETRY",
    }
}

// The time that a status shows, from the time since the start.
fn shown_time(status: RunningTestStatus, age: u64) -> u64
    ensures { result ≡ shown_time status age }
{
    match status {
        RunningTestStatus::Delay(delay) => delay.saturating_sub(age),
        _ => age,
    }
}

// A text without its first characters.
fn last_chars(alloc: Global, text: &str, skipped: usize) -> Mem<String>
    ensures { IfOk result (λ s. string_bytes s ≡ encode_utf8_all (drop skipped (chars text.now))) }
{
    Ok(text.chars().skip(skipped).collect(alloc)?)
}

// How many characters a text has.
fn char_count(text: &str) -> usize
    ensures { result ≡ length (chars text.now) }
{
    text.chars().count()
}

// A text of at most so many characters: of a longer one, three dots and its last characters.
#[tactic(auto, unfolding(crate::specs::Lines::cut))]
fn cut(alloc: Global, most: usize, text: &str) -> Mem<String>
    ensures { IfOk result (λ s. string_bytes s ≡ cut most text.now) }
{
    let count = char_count(text);
    if most < count {
        let end = last_chars(alloc, text, count - most.saturating_sub(3))?;
        Ok(format!(in alloc; "...{end}")?)
    } else {
        Ok(String::from_str(alloc, text)?)
    }
}

// How many characters a name has at most, on a terminal of this width.
fn name_width(width: u32) -> usize
    ensures { result ≡ name_width width }
{
    (width.max(40) - 25) as usize
}

// A test's binary and name, as far as they are shown.
fn name(alloc: Global, width: u32, test: &TestInstanceId) -> Mem<String>
    ensures { IfOk result (λ s. string_bytes s ≡ cut (name_width width) (name_text test.now)) }
{
    let binary = test.binary.as_str();
    let name = test.name.as_str();
    let text = format!(in alloc; "{binary} {name}")?;
    cut(alloc, name_width(width), text.as_str())
}

// A running test: its status, its time without its pauses, and its name.
#[tactic(auto, unfolding(crate::specs::Lines::test_line))]
fn line(alloc: Global, now: u64, width: u32, running: &RunningTest) -> Mem<String>
    ensures { IfOk result (λ s. string_bytes s ≡ test_line now width running.now) }
{
    let name = name(alloc, width, &running.test)?;
    let age = now
        .saturating_sub(running.start)
        .saturating_sub(running.paused);
    let time = in_brackets(alloc, shown_time(running.status, age))?;
    let status = status_text(running.status);
    Ok(format!(in alloc; "       {status} {time}{name}")?)
}

/// Adds the line of a running test.
pub(crate) fn push_line(
    alloc: Global,
    out: &mut String,
    now: u64,
    width: u32,
    running: &RunningTest,
) -> Mem<()>
    ensures { IfOk result (λ _. string_bytes out.new
        ≡ string_bytes out.old ++ 10 ∷ test_line now width running.now) }
{
    let line = line(alloc, now, width, running)?;
    out.push_str("\n")?;
    out.push_str(line.as_str())?;
    Ok(())
}

/// Adds the lines of running tests.
pub(crate) fn push_lines(
    alloc: Global,
    out: &mut String,
    now: u64,
    width: u32,
    tests: &[RunningTest],
) -> Mem<()>
    ensures { IfOk result (λ _. string_bytes out.new
        ≡ string_bytes out.old ++ below (map (test_line now width) tests.now)) }
{
    for running in tests {
        push_line(alloc, out, now, width, running)?;
    }
    Ok(())
}

// What the tests of a run are called, one and several.
fn noun(mode: RunMode, count: usize) -> &'static str
    ensures { result.now ≡ noun mode count }
{
    match mode {
        RunMode::Test if count == 1 => "test",
        RunMode::Test => "tests",
        RunMode::Benchmark if count == 1 => "benchmark",
        RunMode::Benchmark => "benchmarks",
    }
}

// Adds how many more tests run, where some do, and answers how many lines that is.
fn push_more(out: &mut String, mode: RunMode, more: usize) -> Mem<usize>
    ensures text { IfOk result (λ _. string_bytes out.new
        ≡ string_bytes out.old ++ below (more_lines mode more)) }
    ensures lines { IfOk result (λ n. n ≡ length (more_lines mode more)) }
{
    if more == 0 {
        return Ok(0);
    }
    let noun = noun(mode, more);
    write!(out, "\n             ... and {more} more {noun} running")?;
    Ok(1)
}

/// The first running tests, as many as are shown.
pub(crate) fn shown_of(max: MaxProgressRunning, tests: &[RunningTest]) -> &[RunningTest]
    ensures { result.now ≡ shown_of max tests.now }
{
    match max {
        MaxProgressRunning::Count(most) if most < tests.len() => &tests[..most],
        _ => tests,
    }
}

// Adds the lines of the running tests, and answers how many they are.
#[tactic(auto, unfolding(crate::specs::Lines::test_lines))]
fn push_tests<T: ShownTests>(
    alloc: Global,
    out: &mut String,
    showing: Showing,
    now: u64,
    width: u32,
    tests: &T,
) -> Mem<usize>
    ensures text { IfOk result (λ _. string_bytes out.new
        ≡ string_bytes out.old ++ below (test_lines showing now width (T.tests tests.now))) }
    ensures lines { IfOk result (λ n. n ≡ length (test_lines showing now width (T.tests tests.now))) }
{
    let shown = tests.push_shown(alloc, out, now, width, showing.max)?;
    let more = push_more(out, showing.mode, tests.count() - shown)?;
    Ok(shown + more)
}

// Adds empty lines.
fn push_empty(out: &mut String, count: usize) -> Mem<()>
    ensures { IfOk result (λ _. string_bytes out.new ≡ string_bytes out.old ++ replicate count 10) }
{
    for _line in 0..count {
        out.push_str("\n")?;
    }
    Ok(())
}

// Adds the lines of the running tests, and empty ones up to the most that were shown so far; answers how many they are
// without these.
fn push_filled<T: ShownTests>(
    alloc: Global,
    out: &mut String,
    showing: Showing,
    now: u64,
    width: u32,
    tests: &T,
) -> Mem<usize>
    ensures text { IfOk result (λ _. string_bytes out.new
        ≡ string_bytes out.old ++ filled showing.most_lines (test_lines showing now width (T.tests tests.now))) }
    ensures lines { IfOk result (λ n. n ≡ length (test_lines showing now width (T.tests tests.now))) }
{
    let lines = push_tests(alloc, out, showing, now, width, tests)?;
    push_empty(out, showing.most_lines.saturating_sub(lines))?;
    Ok(lines)
}

/// A message about what was seen, with these running tests, and how the next one is shown.
#[tactic(auto, unfolding(crate::specs::Lines::message_text, crate::specs::Lines::shown_after))]
pub(crate) fn message<'a, T: ShownTests>(
    alloc: Global,
    showing: Showing,
    seen: &'a Seen,
    tests: &'a T,
    now: u64,
    width: u32,
) -> Mem<(String, Showing)>
    ensures text { IfOk result (λ m. string_bytes m.0
        ≡ message_text showing (record seen.now { tests = T.tests tests.now }) now width) }
    ensures showing { IfOk result (λ m. m.1
        ≡ shown_after showing (record seen.now { tests = T.tests tests.now }) now width) }
{
    let counts = counts(alloc, seen.counts.running, &seen.counts.stats)?;
    let mut text = format!(in alloc; "{counts}     ")?;
    if !showing.max.shows_tests() {
        return Ok((text, showing));
    }
    let lines = push_filled(alloc, &mut text, showing, now, width, tests)?;
    let most_lines = showing.most_lines.max(lines);
    Ok((
        text,
        Showing {
            most_lines,
            ..showing
        },
    ))
}

/// What a display shows at a tick, with these running tests, and how the next one is shown.
#[tactic(auto, unfolding(crate::specs::Lines::tick_of))]
pub(crate) fn tick<'a, T: ShownTests>(
    alloc: Global,
    showing: Showing,
    seen: &'a Seen,
    tests: &'a T,
    now: u64,
    width: u32,
) -> Mem<(String, Showing)>
    ensures text { IfOk result (λ m. string_bytes m.0
        ≡ tick_of showing (record seen.now { tests = T.tests tests.now }) now width) }
    ensures showing { IfOk result (λ m. m.1
        ≡ shown_after showing (record seen.now { tests = T.tests tests.now }) now width) }
{
    let head = head(alloc, now.saturating_sub(seen.paused), &seen.counts.stats)?;
    let (message, showing) = message(alloc, showing, seen, tests, now, width)?;
    let text = format!(in alloc; "{head}{message}")?;
    Ok((text, showing))
}

/// A message about what was seen, and how the next one is shown.
pub(crate) fn message_of(
    alloc: Global,
    showing: Showing,
    seen: &Seen,
    now: u64,
    width: u32,
) -> Mem<(String, Showing)>
    ensures text { IfOk result (λ m. string_bytes m.0 ≡ message_text showing seen.now now width) }
    ensures showing { IfOk result (λ m. m.1 ≡ shown_after showing seen.now now width) }
{
    message(alloc, showing, seen, &seen.tests, now, width)
}

/// What a display shows at a tick, and how the next one is shown.
pub(crate) fn tick_of(
    alloc: Global,
    showing: Showing,
    seen: &Seen,
    now: u64,
    width: u32,
) -> Mem<(String, Showing)>
    ensures text { IfOk result (λ m. string_bytes m.0 ≡ tick_of showing seen.now now width) }
    ensures showing { IfOk result (λ m. m.1 ≡ shown_after showing seen.now now width) }
{
    tick(alloc, showing, seen, &seen.tests, now, width)
}
