// A unit as it begins.
ghost use Rattle.std.specs.Prelude.{◌≡◌, ◌++◌, ◌∷◌, [], IfOk};
ghost use Rattle.run_commands.specs.TargetRunner.{binary_of, args_of};
ghost use Rattle.run_model.specs.Admission.{begun_view, flaky_of, retries_of, terms_of, surroundings_of, command_of};
ghost use Rattle.run_model.specs.Admission.{streams_by, test_role, first_view};

use crate::messages::test_unit;
use crate::pauses::timers_from;
use crate::start::with_command;
use run_capture::{CaptureStrategy, ChildAccumulator, Duplicate, List, Mem, Shared, Text};
use run_commands::PlatformRunner;
use run_events::{
    FlakyResult, PlanTest, RetryPolicy, ScriptEnv, Settings, StressIndex, TerminateReason,
    TestSlotAssignment,
};
use run_model::{AttemptTerms, CapturedStreams, Phase, Surroundings, TestRole, UnitRole, UnitView};
use std::alloc::Global;

/// A unit as it begins, in this role, with this command, in these surroundings and on these terms.
pub fn begun_view(
    role: UnitRole,
    command: List<Text>,
    around: Shared<Surroundings>,
    terms: AttemptTerms,
) -> UnitView
    ensures { result ≡ begun_view role command around terms }
{
    UnitView {
        role,
        command,
        around,
        terms,
        phase: Phase::StartSent,
        attempt: 1,
        delay: 0,
        timers: timers_from(0),
        pid: 0,
        ending: TerminateReason::Timeout,
        line: List::new(),
        latest: 0,
        capture: ChildAccumulator::uncaptured(),
        exit: None,
        exit_result: None,
        leaked: false,
        env: ScriptEnv::Unread,
        statuses: List::new(),
    }
}

// What a pass after a failed attempt counts as: for all tests alike where that is set.
fn flaky_of(settings: &Settings, test: &PlanTest) -> FlakyResult
    ensures { result ≡ flaky_of settings.now test.now }
{
    match settings.flaky_result {
        Some(flaky) => flaky,
        None => test.flaky,
    }
}

// How often a test is tried again: as often as all tests where that is set.
fn retries_of(settings: &Settings, test: &PlanTest) -> RetryPolicy
    ensures { result ≡ retries_of settings.now test.now }
{
    match settings.retries {
        Some(retries) => retries,
        None => test.retries,
    }
}

// The streams of a test's child that a strategy captures.
fn streams_by(strategy: CaptureStrategy) -> CapturedStreams
    ensures { result ≡ streams_by strategy }
{
    match strategy {
        CaptureStrategy::None => CapturedStreams::Apart {
            stdout: false,
            stderr: false,
        },
        CaptureStrategy::Split => CapturedStreams::Apart {
            stdout: true,
            stderr: true,
        },
        CaptureStrategy::Combined => CapturedStreams::Combined,
    }
}

// On which terms the attempts of a test run.
fn terms_of(settings: &Settings, test: &PlanTest) -> AttemptTerms
    ensures { result ≡ terms_of settings.now test.now }
{
    let interceptor = &settings.interceptor;
    AttemptTerms {
        streams: streams_by(settings.capture),
        slow: test.slow,
        leak: test.leak,
        disables_timeouts: interceptor.should_disable_timeouts(),
        skips_leak_detection: interceptor.should_skip_leak_detection(),
        reads_env: false,
        retries: retries_of(settings, test),
        stops: interceptor.should_send_sigtstp(),
    }
}

// Some words, and then this one.
fn with_word(alloc: Global, words: List<Text>, word: &str) -> Mem<List<Text>>
    ensures { IfOk result (λ all. all ≡ words ++ word.now ∷ []) }
{
    let mut words = words;
    words.push(alloc, Text::from_str(alloc, word)?)?;
    Ok(words)
}

// The words of a runner.
fn runner_words(alloc: Global, runner: &PlatformRunner) -> Mem<List<Text>>
    ensures { IfOk result (λ words. words ≡ binary_of runner.now ∷ args_of runner.now) }
{
    let mut words = with_word(alloc, List::new(), runner.binary())?;
    for word in runner.args() {
        words = with_word(alloc, words, word)?;
    }
    Ok(words)
}

// The command of a test: before its own words stand those of its platform's runner.
fn command_of(alloc: Global, settings: &Settings, test: &PlanTest) -> Mem<List<Text>>
    ensures { IfOk result (λ command. command ≡ command_of settings.now test.now) }
{
    match settings.plan.runners.for_build_platform(test.platform) {
        Some(runner) => {
            let words = runner_words(alloc, runner)?;
            with_command(alloc, words, &test.command)
        }
        None => test.command.copy(alloc),
    }
}

// A planned test as the unit of this number, in this slot, where its scripts handed these variables on.
fn test_role(
    alloc: Global,
    settings: &Settings,
    index: Option<StressIndex>,
    unit: u32,
    slot: TestSlotAssignment,
    handed: List<(Text, Text)>,
    planned: &PlanTest,
) -> Mem<UnitRole>
    ensures { IfOk result (λ role. role ≡ test_role settings.now index unit slot handed planned.now) }
{
    let test = test_unit(alloc, index, unit, planned)?;
    Ok(UnitRole::Test(TestRole {
        test,
        slot,
        flaky: flaky_of(settings, planned),
        handed,
    }))
}

/// A planned test as it begins: in the surroundings of all tests, as the unit of this number, in this slot, where its
/// scripts handed these variables on.
pub fn first_view(
    alloc: Global,
    settings: &Settings,
    around: &Shared<Surroundings>,
    index: Option<StressIndex>,
    unit: u32,
    slot: TestSlotAssignment,
    handed: List<(Text, Text)>,
    planned: &PlanTest,
) -> Mem<UnitView>
    requires alike { around.now ≡ surroundings_of settings.now }
    ensures { IfOk result (λ u. u ≡ first_view settings.now index unit slot handed planned.now) }
{
    let role = test_role(alloc, settings, index, unit, slot, handed, planned)?;
    let command = command_of(alloc, settings, planned)?;
    let around = around.share()?;
    let terms = terms_of(settings, planned);
    Ok(begun_view(role, command, around, terms))
}
