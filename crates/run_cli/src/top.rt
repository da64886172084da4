// The top call: all that the program does.
ghost use Rattle.std.specs.Prelude.{◌≡◌, ◌+◌, ◌≤◌, ◌<◌, ◌^◌, ℕ, List, map, length, string_bytes, None, true};
ghost use Rattle.run_cli.specs.Call.{reading_of, writing_of, call_of};
ghost use Rattle.run_cli.specs.Plans.{fault_of_plan};
ghost use Rattle.run_cli.specs.Given.{CountsReadAtEnd};
ghost use Rattle.run_cli.specs.Commands.{IsGenerateOf, NamesCommand, NamesGenerate};
ghost use Rattle.run_cli.specs.Generates.{AnswersGenerate};
ghost use Rattle.run_cli.specs.Finish.{IsInputEnding};
ghost use Rattle.run_cli.specs.Ending.{IsEnding};
ghost use Rattle.run_cli.specs.Text.{ending_status, outcome_status};
ghost use Rattle.run_cli.specs.Status.{Answers};
ghost use Rattle.run_cli.specs.LiveGiven.{IsLiveWord};
ghost use Rattle.run_cli.specs.Live.{unheard, live_status, IsPlanEnd, IsLiveEnd, CountsLive};
ghost use Rattle.run_cli.specs.Live.{AnswersLive, is_unbegun};

use crate::command::{Command, generated_tests};
use crate::ended::{Ended, end_at_fault, replay, status_of_outcome};
use crate::generates::run_generated;
use crate::given::{is_live, read_given, read_plan};
use crate::live::{LiveEnded, end_without_run, run_live};
use crate::plan_line::runner_of;
use run_capture::{Sink, Source};
use run_drive::Host;
use run_engine::TestRunnerBuildError;
use run_events::{InputHandlerKind, Plan, RunOutcome, SignalHandlerKind};
use run_input::{Input, RunnerKeys};
use run_live::Live;
use run_output::{Fault, PlanFault};
use std::alloc::Global;
use std::sync::Wait;
use std::thread::Threads;

/// What the program ends with: its status, and the sink that it wrote to.
pub struct Ran<K> {
    pub status: u8,
    pub sink: K,
}

/// The status of an ending.
pub fn status_of_ending(ending: Result<RunOutcome, Fault>) -> u8
    ensures { result ≡ ending_status ending }
{
    match ending {
        Ok(outcome) => status_of_outcome(outcome),
        Err(fault) => fault.status(),
    }
}

/// The fault that a refusal of a plan is.
pub fn fault_of_plan(error: TestRunnerBuildError) -> Fault
    ensures { result ≡ fault_of_plan error }
{
    match error {
        TestRunnerBuildError::ZeroLimit { group } => Fault::Plan(PlanFault::ZeroLimit { group }),
        TestRunnerBuildError::DuplicateTest { test } => {
            Fault::Plan(PlanFault::DuplicateTest { test })
        }
        TestRunnerBuildError::UnknownGroup { test } => {
            Fault::Plan(PlanFault::UnknownGroup { test })
        }
        TestRunnerBuildError::ZeroWeight { test } => Fault::Plan(PlanFault::ZeroWeight { test }),
        TestRunnerBuildError::TooManyRetries { test } => {
            Fault::Plan(PlanFault::TooManyRetries { test })
        }
        TestRunnerBuildError::OutOfMemory => Fault::Memory,
    }
}

/// Carries out what an input says, and writes all that the command writes.
pub fn replay_input<K: Sink>(alloc: Global, command: Command, input: Input, sink: K) -> Ended<K>
    requires units { length input.plan.scripts + length input.plan.tests < 2 ^ 32 }
    requires turns { length input.turns < 2 ^ 32 }
    ensures { IsInputEnding command input.keys input.plan input.turns
        (writing_of K.Sink sink result.sink)
        result.ending }
{
    let Input { keys, plan, turns } = input;
    match runner_of(alloc, keys, plan) {
        Ok(runner) => replay(alloc, command, runner, turns.as_slice(), sink),
        Err(error) => end_at_fault(alloc, sink, &[], fault_of_plan(error)),
    }
}

// Does all that the program does, and answers how it ended.
fn run_to_end<S: Source, K: Sink>(
    alloc: Global,
    words: &[String],
    source: &mut S,
    sink: K,
) -> Ended<K>
    ensures says { let said = map (λ w. string_bytes w) words.now in
        let reading = reading_of S.Source source.old source.new in
        IsEnding (call_of said reading (writing_of K.Sink sink result.sink)) result.ending }
    ensures counted { CountsReadAtEnd (reading_of S.Source source.old source.new)
        result.ending }
    ensures untouched { ¬ NamesCommand (map (λ w. string_bytes w) words.now) → source.new ≡ source.old }
{
    match read_given(alloc, words, source) {
        Ok((command, input)) => replay_input(alloc, command, input, sink),
        Err(fault) => end_at_fault(alloc, sink, &[], fault),
    }
}

// The plan of a run that hears no signal and no key, since none reaches it.
fn unheard(plan: Plan) -> Plan
    ensures { result ≡ unheard plan }
{
    let mut plan = plan;
    plan.hearing.signals = SignalHandlerKind::Noop;
    plan.hearing.input = InputHandlerKind::Noop;
    plan
}

// Runs a plan by workers.
fn live_plan<K: Sink + Send, H: Host, X: Threads + Wait + Sync>(
    rt: &X,
    alloc: Global,
    said: (RunnerKeys, Plan),
    sink: K,
    host: &mut H,
) -> LiveEnded<K, H::Worker>
    requires { length said.1.scripts + length said.1.tests < 2 ^ 32 }
    ensures says { IsPlanEnd H.Worker.has_said said.0 said.1
        (writing_of K.Sink sink result.sink) result.live
        result.ending }
    ensures unused { is_unbegun (live_status result.ending) ≡ true → host.new ≡ host.old }
{
    let (keys, plan) = said;
    match runner_of(alloc, keys, unheard(plan)) {
        Ok(runner) => run_live(rt, alloc, runner, sink, host),
        Err(error) => end_without_run(alloc, sink, fault_of_plan(error)),
    }
}

// Does all that the program does for `live`, and answers how it ended.
fn live_to_end<S: Source, K: Sink + Send, H: Host, X: Threads + Wait + Sync>(
    rt: &X,
    alloc: Global,
    source: &mut S,
    sink: K,
    host: &mut H,
) -> LiveEnded<K, H::Worker>
    ensures says { let reading = reading_of S.Source source.old source.new in
        (words : List (List ℕ)) → IsLiveWord words → IsLiveEnd H.Worker.has_said
        (call_of words reading (writing_of K.Sink sink result.sink)) result.live result.ending }
    ensures counted { CountsLive (reading_of S.Source source.old source.new) result.ending }
    ensures unused { is_unbegun (live_status result.ending) ≡ true → host.new ≡ host.old }
{
    match read_plan(alloc, source) {
        Ok(said) => live_plan(rt, alloc, said, sink, host),
        Err(fault) => end_without_run(alloc, sink, fault),
    }
}

// Carries out recorded turns.
fn replayed<S: Source, K: Sink>(alloc: Global, words: &[String], source: &mut S, sink: K) -> Ran<K>
    ensures says { let said = map (λ w. string_bytes w) words.now in
        let reading = reading_of S.Source source.old source.new in
        Answers (call_of said reading (writing_of K.Sink sink result.sink)) result.status }
    ensures untouched { ¬ NamesCommand (map (λ w. string_bytes w) words.now) → source.new ≡ source.old }
{
    let Ended { ending, sink } = run_to_end(alloc, words, source, sink);
    Ran {
        status: status_of_ending(ending),
        sink,
    }
}

// Runs a plan by workers, and answers with what is left of the run.
fn lived<S: Source, K: Sink + Send, H: Host, X: Threads + Wait + Sync>(
    rt: &X,
    alloc: Global,
    source: &mut S,
    sink: K,
    host: &mut H,
) -> (Ran<K>, Option<Live<H::Worker>>)
    ensures says { let reading = reading_of S.Source source.old source.new in
        (words : List (List ℕ)) → IsLiveWord words → AnswersLive H.Worker.has_said
        (call_of words reading (writing_of K.Sink sink result.0.sink)) result.1 result.0.status }
    ensures unused { is_unbegun result.0.status ≡ true → host.new ≡ host.old }
{
    let LiveEnded { ending, sink, live } = live_to_end(rt, alloc, source, sink, host);
    let ran = Ran {
        status: ending.status(),
        sink,
    };
    (ran, live)
}

// Carries out a generated run.
fn generated<K: Sink>(alloc: Global, tests: u32, sink: K) -> Ran<K>
    requires { tests ≤ 20000 }
    ensures { AnswersGenerate tests (writing_of K.Sink sink result.sink) result.status }
{
    let Ended { ending, sink } = run_generated(alloc, tests, sink);
    Ran {
        status: status_of_ending(ending),
        sink,
    }
}

/// Does all that the program does. It answers the status with the sink, and after `live` what is left of the run, but
/// where none was made or memory was wanting. Lines go to the sink as events are told, then the asks, then the outcome
/// or the fault. What each status says and what status each cause gives stands in `Answers`, the headline first: where
/// the status is that of an outcome, each setup script and each test of the plan has its fate. `AnswersLive` has the
/// same of `live`, whose turns are those of the journal that is handed back, and `AnswersGenerate` of `generate`, whose
/// plan and turns are generated, and which reads nothing. Want of memory may come at any point, and is status 11.
pub fn run<S: Source, K: Sink + Send, H: Host, X: Threads + Wait + Sync>(
    rt: &X,
    alloc: Global,
    words: &[String],
    source: &mut S,
    sink: K,
    host: &mut H,
) -> (Ran<K>, Option<Live<H::Worker>>)
    ensures replay { let said = map (λ w. string_bytes w) words.now in
        let reading = reading_of S.Source source.old source.new in
        let call = call_of said reading (writing_of K.Sink sink result.0.sink) in
        ¬ IsLiveWord said → ¬ NamesGenerate said
        → Answers call result.0.status × (result.1 ≡ None) }
    ensures generate { let said = map (λ w. string_bytes w) words.now in
        (tests : ℕ) → IsGenerateOf tests said
        → AnswersGenerate tests (writing_of K.Sink sink result.0.sink) result.0.status
        × (result.1 ≡ None) }
    ensures live { let said = map (λ w. string_bytes w) words.now in
        let reading = reading_of S.Source source.old source.new in
        let call = call_of said reading (writing_of K.Sink sink result.0.sink) in
        IsLiveWord said → AnswersLive H.Worker.has_said call result.1 result.0.status }
    ensures untouched { let said = map (λ w. string_bytes w) words.now in
        ¬ IsLiveWord said → ¬ NamesCommand said → source.new ≡ source.old }
    // The host is asked for nothing but by `live`, and by that only once it has a plan that is accepted.
    ensures alone { ¬ IsLiveWord (map (λ w. string_bytes w) words.now) → host.new ≡ host.old }
    ensures unused { IsLiveWord (map (λ w. string_bytes w) words.now) → is_unbegun result.0.status ≡ true
        → host.new ≡ host.old }
{
    if is_live(words) {
        return lived(rt, alloc, source, sink, host);
    }
    match generated_tests(words) {
        Some(tests) => (generated(alloc, tests, sink), None),
        None => (replayed(alloc, words, source, sink), None),
    }
}
