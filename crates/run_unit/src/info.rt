// What a unit answers where it is asked what it is doing.
ghost use Rattle.std.specs.Prelude.{◌≡◌, ◌≤◌, ◌<◌, ◌^◌, ◌∷◌, ◌++◌, [], IfOk, OnOk, OnErr, option_map};
ghost use Rattle.run_model.specs.Ending.{last_status};
ghost use Rattle.run_model.specs.Environment.{attempts};
ghost use Rattle.run_model.specs.Info.{waiting_at, time_at, slow_after, running_state, terminating_state};
ghost use Rattle.run_model.specs.Info.{exiting_state};
ghost use Rattle.run_model.specs.Info.{fault_in, exited_state, delay_state, subject_of, answer_as, captured_by};
ghost use Rattle.run_model.specs.Info.{exited_answer};
ghost use Rattle.run_model.specs.Info.{delay_answer, answer_in, rounds_in, is_stop, stops_in, answers_to};
ghost use Rattle.run_unit.specs.Timely.{IsTimely};

use crate::messages::attempts;
use crate::terminate::terminate_method;
use run_capture::{ChildOutput, Duplicate, List, Mem};
use run_commands::SetupScriptOutputError;
use run_events::{
    ChildExecutionOutput, ExecuteStatus, InfoResponse, InfoSubject, Request, ScriptEnv, UnitState,
    Waiting,
};
use run_model::{Phase, Timers, UnitRole, UnitView};
use std::alloc::Global;

// How long it has waited for what takes so many nanoseconds, and how long it still does.
fn waiting_at(timers: &Timers, period: u64, now: u64) -> Waiting
    requires { timers.now.waiting.latest ≤ now }
    ensures { result ≡ waiting_at now period timers.now }
{
    let waiting = timers.waiting.snapshot(now).active;
    Waiting {
        waiting,
        remaining: period.saturating_sub(waiting),
    }
}

// The time of its attempt so far.
fn time_at(view: &UnitView, now: u64) -> u64
    requires { view.now.timers.stopwatch.latest ≤ now }
    ensures { result ≡ time_at now view.now }
{
    view.timers.stopwatch.snapshot(now).active
}

// Where it was slow, after which time.
fn slow_after(view: &UnitView) -> Option<u64>
    ensures { result ≡ slow_after view.now }
{
    if 0 < view.timers.slow_count {
        Some(view.terms.slow.period)
    } else {
        None
    }
}

fn running_state(view: &UnitView, now: u64) -> UnitState
    requires { IsTimely view.now.timers now }
    ensures { result ≡ running_state now view.now }
{
    UnitState::Running {
        pid: view.pid,
        time: time_at(view, now),
        slow_after: slow_after(view),
    }
}

fn terminating_state(view: &UnitView, now: u64) -> UnitState
    requires { IsTimely view.now.timers now }
    ensures { result ≡ terminating_state now view.now }
{
    let grace = view.terms.slow.grace;
    UnitState::Terminating {
        pid: view.pid,
        time: time_at(view, now),
        reason: view.ending,
        method: terminate_method(view.ending, grace),
        waiting: waiting_at(&view.timers, grace, now),
    }
}

fn exiting_state(view: &UnitView, now: u64) -> UnitState
    requires { IsTimely view.now.timers now }
    ensures { result ≡ exiting_state now view.now }
{
    UnitState::Exiting {
        pid: view.pid,
        time: time_at(view, now),
        slow_after: slow_after(view),
        result: view.exit_result,
        waiting: waiting_at(&view.timers, view.terms.leak.period, now),
    }
}

// What was wrong with its environment file, where something was.
fn fault_in(env: &ScriptEnv) -> Option<SetupScriptOutputError>
    ensures { result ≡ fault_in env.now }
{
    match env {
        ScriptEnv::Fault(fault) => Some(*fault),
        _ => None,
    }
}

fn exited_state(view: &UnitView, status: &ExecuteStatus) -> UnitState
    ensures { result ≡ exited_state view.now status.now }
{
    UnitState::Exited {
        result: status.result,
        time: status.time,
        slow_after: slow_after(view),
        fault: fault_in(&view.env),
    }
}

fn delay_state(view: &UnitView, status: &ExecuteStatus, now: u64) -> UnitState
    requires { IsTimely view.now.timers now }
    ensures { result ≡ delay_state now view.now status.now }
{
    UnitState::Delay {
        result: status.result,
        slow: status.slow,
        waiting: waiting_at(&view.timers, view.delay, now),
    }
}

// Which unit it is.
fn subject_of(alloc: Global, view: &UnitView) -> Mem<InfoSubject>
    requires { attempts view.now < 2 ^ 32 }
    ensures { IfOk result (λ subject. subject ≡ subject_of view.now.role view.now) }
{
    match &view.role {
        UnitRole::Test(role) => {
            let test = role.test.copy(alloc)?;
            Ok(InfoSubject::Test {
                test,
                attempt: view.attempt,
                attempts: attempts(view),
            })
        }
        UnitRole::Script(role) => {
            let script = role.script.copy(alloc)?;
            Ok(InfoSubject::Script(script))
        }
    }
}

// Its answer with this state and this output.
fn answer_as(
    alloc: Global,
    view: &UnitView,
    state: UnitState,
    output: ChildExecutionOutput,
) -> Mem<InfoResponse>
    requires { attempts view.now < 2 ^ 32 }
    ensures { IfOk result (λ answer. answer ≡ answer_as state output view.now) }
{
    let subject = subject_of(alloc, view)?;
    Ok(InfoResponse {
        subject,
        state,
        output,
    })
}

// What was captured of its child so far.
fn captured_by(alloc: Global, view: &UnitView) -> Mem<ChildExecutionOutput>
    ensures { IfOk result (λ output. output ≡ captured_by view.now) }
{
    let capture = view.capture.copy(alloc)?;
    let (output, errors) = capture.freeze();
    Ok(ChildExecutionOutput::Output { output, errors })
}

// Its answer with this state and what was captured so far.
fn answer_with(alloc: Global, view: &UnitView, state: UnitState) -> Mem<InfoResponse>
    requires { attempts view.now < 2 ^ 32 }
    ensures { IfOk result (λ answer. answer ≡ answer_as state (captured_by view.now) view.now) }
{
    let output = captured_by(alloc, view)?;
    answer_as(alloc, view, state, output)
}

// Its answer once its attempt has ended with this status.
fn ended_answer(alloc: Global, view: &UnitView, status: &ExecuteStatus) -> Mem<InfoResponse>
    requires { attempts view.now < 2 ^ 32 }
    ensures { IfOk result (λ answer. answer ≡ answer_as (exited_state view.now status.now) status.now.output view.now) }
{
    let output = status.output.copy(alloc)?;
    answer_as(alloc, view, exited_state(view, status), output)
}

// Its answer once its last attempt has ended.
#[tactic(auto, using(crate::proofs::RetryLemmas::last_given))]
fn exited_answer(alloc: Global, view: &UnitView) -> Mem<Option<InfoResponse>>
    requires { attempts view.now < 2 ^ 32 }
    ensures { IfOk result (λ answer. answer ≡ exited_answer view.now) }
{
    match view.statuses.as_slice().last() {
        Some(status) => {
            let answer = ended_answer(alloc, view, status)?;
            Ok(Some(answer))
        }
        None => Ok(None),
    }
}

// Its answer in the delay after an attempt.
#[tactic(auto, using(crate::proofs::RetryLemmas::last_given))]
fn delay_answer(alloc: Global, view: &UnitView, now: u64) -> Mem<Option<InfoResponse>>
    requires few { attempts view.now < 2 ^ 32 }
    requires timely { IsTimely view.now.timers now }
    ensures { IfOk result (λ answer. answer ≡ delay_answer now view.now) }
{
    match view.statuses.as_slice().last() {
        Some(status) => {
            let output = ChildExecutionOutput::Output {
                output: ChildOutput::uncaptured(),
                errors: List::new(),
            };
            let answer = answer_as(alloc, view, delay_state(view, status, now), output)?;
            Ok(Some(answer))
        }
        None => Ok(None),
    }
}

/// Its answer now.
pub fn answer_now(alloc: Global, view: &UnitView, now: u64) -> Mem<Option<InfoResponse>>
    requires few { attempts view.now < 2 ^ 32 }
    requires timely { IsTimely view.now.timers now }
    ensures { IfOk result (λ answer. answer ≡ answer_in now view.now.phase view.now) }
{
    let state = match view.phase {
        Phase::Running => running_state(view, now),
        Phase::Grace => terminating_state(view, now),
        Phase::Leak => exiting_state(view, now),
        Phase::Delay => return delay_answer(alloc, view, now),
        _ => return exited_answer(alloc, view),
    };
    let answer = answer_with(alloc, view, state)?;
    Ok(Some(answer))
}

/// An answer as that to the query of this round: none where there is none.
pub fn answer_to(
    alloc: Global,
    round: u32,
    answer: Option<InfoResponse>,
) -> Mem<List<(u32, InfoResponse)>>
    ensures { IfOk result (λ info. info ≡ answers_to (round ∷ []) answer) }
{
    let mut info = List::new();
    if let Some(answer) = answer {
        info.push(alloc, (round, answer))?;
    }
    Ok(info)
}

// Adds its answer, once its last attempt has ended, to a request that is a query.
fn add_answer(
    alloc: Global,
    view: &UnitView,
    request: Request,
    info: &mut List<(u32, InfoResponse)>,
) -> Mem<()>
    requires { attempts view.now < 2 ^ 32 }
    ensures { OnOk result (info.new
        ≡ info.old ++ answers_to (rounds_in (request ∷ [])) (exited_answer view.now)) }
{
    if let Request::GetInfo { round } = request {
        let answer = exited_answer(alloc, view)?;
        if let Some(answer) = answer {
            info.push(alloc, (round, answer))?;
        }
    }
    Ok(())
}

/// Its answers to the queries of its line, once its last attempt has ended.
#[tactic(auto, using(crate::proofs::AnswerLemmas::answers_more))]
pub fn exited_answers(alloc: Global, view: &UnitView) -> Mem<List<(u32, InfoResponse)>>
    requires { attempts view.now < 2 ^ 32 }
    ensures { IfOk result (λ info. info ≡ answers_to (rounds_in view.now.line) (exited_answer view.now)) }
{
    let mut info = List::new();
    for request in view.line.as_slice() {
        add_answer(alloc, view, *request, &mut info)?;
    }
    Ok(info)
}

fn is_stop(request: Request) -> bool
    ensures { result ≡ is_stop request }
{
    matches!(request, Request::Stop { .. })
}

/// How many stops a line has.
pub fn stops_in(line: &[Request]) -> u64
    ensures { result ≡ stops_in line.now }
{
    let mut stops = 0;
    for request in line {
        if is_stop(*request) {
            stops += 1;
        }
    }
    stops
}
