// Live progress: settings, texts, and what displays show that no stored row has.
use crate::progress_events::{cancelled, event_of, paused, seconds, started, stats};
use crate::rows::{MEMORY, copied, holds, is_shown, text};
use run_capture::Duplicate;
use run_events::{RunMode, RunStats, TestEventKind};
use run_progress::{
    LiveProgress, MaxProgressError, MaxProgressRunning, ProgressState, RunningTest, ShowProgress,
    ShowTerminalProgress, TermSetting, progress_str, term_progress_percent,
    terminal_progress_value, write_summary_str,
};
use std::alloc::Global;
use std::process::Abort;

fn max_error(alloc: Global, text: &str) -> Option<MaxProgressError> {
    MaxProgressRunning::from_str(alloc, text).err()
}

// A text that is read prints so.
fn reads_as(alloc: Global, text: &str, printed: &str) -> bool {
    match MaxProgressRunning::from_str(alloc, text) {
        Ok(max) => is_shown(alloc, &max, printed),
        Err(_) => false,
    }
}

// A text is refused with these words for it, which a copy of the error has too.
fn is_refused(rt: &impl Abort, alloc: Global, text: &str, words: &str) -> bool {
    let message = format!(in alloc; "Error: {words} parsing {text}").expect(rt, MEMORY);
    match max_error(alloc, text) {
        Some(error) => is_shown(alloc, &copied(rt, alloc, error), message.as_str()),
        None => false,
    }
}

// A text is refused with std's own words for it.
fn std_refuses(rt: &impl Abort, alloc: Global, text: &str) -> bool {
    match text.parse::<usize>() {
        Ok(_) => false,
        Err(error) => {
            let words = format!(in alloc; "{error}").expect(rt, MEMORY);
            is_refused(rt, alloc, text, words.as_str())
        }
    }
}

// Texts that are read, each with how it prints.
const READ: [(&str, &str); 5] = [
    ("INFINITE", "infinite"),
    ("infinite", "infinite"),
    ("0", "0"),
    ("+08", "8"),
    ("18446744073709551615", "18446744073709551615"),
];

const REFUSED: [&str; 6] = ["x", "", "18446744073709551616", "-1", "1 ", "infinit"];

const NO_DIGIT: &str = "invalid digit found in string";

fn check_max(rt: &impl Abort, alloc: Global) {
    for (text, printed) in &READ {
        holds(rt, text, reads_as(alloc, text, printed));
    }
    for text in &REFUSED {
        holds(rt, text, std_refuses(rt, alloc, text));
    }
    holds(rt, NO_DIGIT, is_refused(rt, alloc, "x", NO_DIGIT));
}

fn are_defaults() -> bool {
    MaxProgressRunning::default() == MaxProgressRunning::Count(8)
        && MaxProgressRunning::DEFAULT_VALUE == MaxProgressRunning::Count(8)
        && ShowProgress::default()
            == ShowProgress::Auto {
                suppress_success: false,
            }
}

fn shown(command: Option<bool>, env: &str, file: Option<bool>, supported: bool) -> bool {
    let settings = [
        TermSetting::CliOption(command),
        TermSetting::Env,
        TermSetting::File(file),
    ];
    let answer = ShowTerminalProgress::from_settings(&settings, Some(env), supported);
    answer == ShowTerminalProgress::Yes
}

// A word of the command line, a variable, a word of the file, whether a terminal can, and whether it shows.
const SHOWN: [(Option<bool>, &str, Option<bool>, bool, bool); 6] = [
    (Some(false), "true", Some(true), true, false),
    (None, "true", Some(false), false, true),
    (None, "false", Some(true), true, false),
    (None, "TRUE", Some(true), false, true),
    (None, "", None, true, true),
    (None, "", None, false, false),
];

fn check_settings(rt: &impl Abort) {
    for (command, env, file, supported, shows) in &SHOWN {
        holds(rt, env, shown(*command, env, *file, *supported) == *shows);
    }
}

// How many are done, of how many, and the percents of that.
const PERCENTS: [(u64, u64, u8); 13] = [
    (0, 0, 100),
    (0, 10, 0),
    (1, 8, 13),
    (1, 40, 3),
    (2, 3, 67),
    (29, 200, 15),
    (11, 10, 100),
    (199, 200, 100),
    (198, 200, 99),
    (1, 201, 0),
    (18446744073709551615, 18446744073709551615, 100),
    (18446744073709551614, 18446744073709551615, 100),
    (1, 18446744073709551615, 0),
];

fn check_percents(rt: &impl Abort) {
    for (done, total, percent) in &PERCENTS {
        holds(
            rt,
            "percent",
            term_progress_percent(*done, *total) == *percent,
        );
    }
}

#[test]
fn reads_progress_settings(rt: HostRuntime) {
    check_max(&rt, rt.alloc());
    check_settings(&rt);
    check_percents(&rt);
    holds(&rt, "defaults", are_defaults());
}

// What a terminal is told at an event.
fn tells(rt: &impl Abort, alloc: Global, kind: TestEventKind, text: &str) {
    let value = terminal_progress_value(&event_of(kind, 0));
    holds(rt, text, is_shown(alloc, &value, text));
}

fn sums_up(rt: &impl Abort, alloc: Global, stats: &RunStats, wanted: &str) {
    let mut out = text(rt, alloc, "> ");
    write_summary_str(alloc, stats, &mut out).expect(rt, MEMORY);
    holds(rt, wanted, out.as_str() == wanted);
}

// Statistics with each count that a summary shows.
fn many() -> RunStats {
    RunStats {
        passed_slow: 1,
        flaky: 2,
        leaky: 3,
        leaky_failed: 4,
        exec_failed: 5,
        failed_timed_out: 6,
        skipped: 7,
        ..stats(8)
    }
}

fn is_head(rt: &impl Abort, alloc: Global, elapsed: u32, stats: &RunStats, head: &str) {
    let line = progress_str(alloc, seconds(elapsed), stats, 0).expect(rt, MEMORY);
    holds(rt, head, line.as_str() == head);
}

#[test]
fn tells_terminals(rt: HostRuntime) {
    let alloc = rt.alloc();
    let failing = "\x1b]9;4;2;30\x1b\\";
    tells(
        &rt,
        alloc,
        started(&rt, alloc, "a", 0),
        "\x1b]9;4;1;30\x1b\\",
    );
    tells(&rt, alloc, started(&rt, alloc, "a", 1), failing);
    tells(&rt, alloc, cancelled(), failing);
    tells(&rt, alloc, paused(), "\x1b]9;4;0;\x1b\\");
    tells(&rt, alloc, TestEventKind::InfoFinished { missing: 0 }, "");
}

const HEAD: &str = "     Running [ 00:00:00] 0/0: 0 running, 0 passed, 0 skipped";

const MANY: &str = "> 2 passed (1 slow, 2 flaky, 3 leaky), 8 failed (4 due to being leaky), \
                    5 exec failed, 6 timed out, 7 skipped";

#[test]
fn prints_progress(rt: HostRuntime) {
    let alloc = rt.alloc();
    let nothing = RunStats::nothing();
    sums_up(&rt, alloc, &nothing, "> 0 passed, 0 skipped");
    sums_up(&rt, alloc, &many(), MANY);
    is_head(&rt, alloc, 0, &nothing, HEAD);
}

fn hear(rt: &impl Abort, alloc: Global, state: &mut ProgressState, kind: TestEventKind) {
    state.apply(alloc, &event_of(kind, 0)).expect(rt, MEMORY);
}

// Whether a display shows this text.
fn shows(
    rt: &impl Abort,
    alloc: Global,
    state: &mut ProgressState,
    second: u32,
    width: u32,
    text: &str,
) -> bool {
    let shown = state
        .tick_text(alloc, seconds(second), width)
        .expect(rt, MEMORY);
    shown.as_str() == text
}

fn is_copied(rt: &impl Abort, alloc: Global, test: &RunningTest) -> bool {
    test.copy(alloc).expect(rt, MEMORY) == *test
}

// Whether each running test equals its copy.
fn are_copied(rt: &impl Abort, alloc: Global, state: &ProgressState) -> bool {
    state
        .running()
        .unwrap_or(&[])
        .iter()
        .all(|test| is_copied(rt, alloc, test))
}

// A new display of benchmarks with this maximum, once these have started.
fn display(
    rt: &impl Abort,
    alloc: Global,
    max: MaxProgressRunning,
    names: &[&str],
) -> ProgressState {
    let mut state = ProgressState::new(RunMode::Benchmark, 10, max);
    for name in names {
        let kind = started(rt, alloc, name, 1);
        hear(rt, alloc, &mut state, kind);
    }
    state
}

// Whether a display that answers no list shows this text, once these benchmarks have started.
fn shows_live(
    rt: &impl Abort,
    alloc: Global,
    max: MaxProgressRunning,
    names: &[&str],
    width: u32,
    text: &str,
) -> bool {
    let mut live = LiveProgress::new(RunMode::Benchmark, 10, max);
    for name in names {
        let kind = started(rt, alloc, name, 1);
        live.apply(alloc, &event_of(kind, 0)).expect(rt, MEMORY);
    }
    let shown = live
        .tick_text(alloc, seconds(18810), width)
        .expect(rt, MEMORY);
    shown.as_str() == text
}

// It shows these lines.
fn check_display(
    rt: &impl Abort,
    alloc: Global,
    max: MaxProgressRunning,
    names: &[&str],
    width: u32,
    lines: &str,
) {
    let head = "     Running [ 05:13:30] 3/10: 4 running, 2 passed, 1 failed, 0 skipped     ";
    let text = format!(in alloc; "{head}{lines}").expect(rt, MEMORY);
    let mut state = display(rt, alloc, max, names);
    holds(rt, "copied", are_copied(rt, alloc, &state));
    let shown = shows(rt, alloc, &mut state, 18810, width, text.as_str());
    drop(state);
    holds(rt, lines, shown);
    holds(
        rt,
        "live",
        shows_live(rt, alloc, max, names, width, text.as_str()),
    );
}

const ONE: [&str; 1] = ["test::my_test"];

const THREE: [&str; 3] = ["éééééééééééééééééééé", "b", "c"];

const LINE: &str = "\n             [ 05:13:30] my-binary test::my_test";

const CUT: &str =
    "\n             [ 05:13:30] ...éééééééééééé\n             ... and 2 more benchmarks running";

fn check_displays(rt: &impl Abort, alloc: Global) {
    check_display(rt, alloc, MaxProgressRunning::Count(1), &ONE, 80, LINE);
    check_display(rt, alloc, MaxProgressRunning::Count(1), &THREE, 39, CUT);
    check_display(rt, alloc, MaxProgressRunning::Count(0), &THREE, 80, "");
    check_display(rt, alloc, MaxProgressRunning::Infinite, &ONE, 80, LINE);
}

// Whether running tests are shown, and there are none.
fn has_no_tests(state: &ProgressState) -> bool {
    match state.running() {
        Some(tests) => tests.is_empty(),
        None => false,
    }
}

// The first tick of a run that is paused isn't shown.
fn begins_hidden(rt: &impl Abort, alloc: Global) -> bool {
    let mut state = ProgressState::new(RunMode::Test, 1, MaxProgressRunning::default());
    hear(rt, alloc, &mut state, paused());
    let text = "     Running [ 00:00:00] 0/0: 0 running, 0 passed, 0 skipped     ";
    state.hidden() && has_no_tests(&state) && shows(rt, alloc, &mut state, 0, 80, text)
}

#[test]
fn shows_progress(rt: HostRuntime) {
    let alloc = rt.alloc();
    holds(&rt, "paused", begins_hidden(&rt, alloc));
    check_displays(&rt, alloc);
}
