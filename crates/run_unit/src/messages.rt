// What a unit tells the dispatcher, by what it is.
ghost use Rattle.std.specs.Prelude.{◌≡◌, ◌≤◌, ◌<◌, ◌^◌, IfOk, option_map};
ghost use Rattle.run_events.specs.declared.message.Message.TheVariants as messages;
ghost use Rattle.run_model.specs.Admission.{start_message, skip_message};
ghost use Rattle.run_model.specs.Backoff.{retry_count};
ghost use Rattle.run_model.specs.Environment.{attempts, number_of, test_start};
ghost use Rattle.run_model.specs.Ending.{last_status};
ghost use Rattle.run_model.specs.Retries.{failure_message, failed_message, retry_message, test_retry, finish_message};
ghost use Rattle.run_model.specs.Retries.{test_finish, script_finish};
ghost use Rattle.run_model.specs.Unit.{slow_report, test_slow};

use crate::script::{script_finish, script_slow, script_start};
use crate::slow::{is_out_of_time, slow_time};
use run_capture::{Boxed, Duplicate, Mem, Text};
use run_events::{
    AttemptFailed, ExecuteStatus, Message, PlanTest, StressIndex, TestFinish, TestRetry, TestSkip,
    TestSlow, TestStart, TestUnit,
};
use run_model::{ScriptRole, TestRole, UnitRole, UnitView, retry_count};
use std::alloc::Global;

/// The number of a unit.
pub fn number_of(role: &UnitRole) -> u32
    ensures { result ≡ number_of role.now }
{
    match role {
        UnitRole::Test(role) => role.test.unit,
        UnitRole::Script(role) => role.script.unit,
    }
}

/// How many attempts a unit has at most.
pub fn attempts(view: &UnitView) -> u32
    requires { attempts view.now < 2 ^ 32 }
    ensures { result ≡ attempts view.now }
{
    retry_count(&view.terms.retries) + 1
}

/// A planned test as the unit of this number, in this sub-run of a stress run.
pub fn test_unit(
    alloc: Global,
    index: Option<StressIndex>,
    unit: u32,
    planned: &PlanTest,
) -> Mem<TestUnit>
    ensures { IfOk result (λ test. test ≡ record { unit = unit; id = planned.now.id; stress_index = index }) }
{
    let id = planned.id.copy(alloc)?;
    Ok(TestUnit {
        unit,
        id,
        stress_index: index,
    })
}

// A test, as its starts tell it.
fn test_start(alloc: Global, role: &TestRole, view: &UnitView) -> Mem<TestStart>
    ensures { IfOk result (λ start. start ≡ test_start role.now view.now) }
{
    let command = view.command.copy(alloc)?;
    let slot = role.slot.copy(alloc)?;
    let test = role.test.copy(alloc)?;
    Ok(TestStart {
        test,
        command,
        slot,
    })
}

/// The message of its start.
pub fn start_message(alloc: Global, view: &UnitView) -> Mem<Message>
    ensures { IfOk result (λ m. m ≡ start_message view.now.role view.now) }
{
    match &view.role {
        UnitRole::Test(role) => {
            let start = test_start(alloc, role, view)?;
            Ok(Message::Start(Boxed::new(alloc, start)?))
        }
        UnitRole::Script(role) => {
            let start = script_start(alloc, role, view)?;
            Ok(Message::ScriptStart(Boxed::new(alloc, start)?))
        }
    }
}

/// The message that a planned test, as the unit of this number in this sub-run of a stress run, is skipped for a
/// reason.
pub fn skip_message(
    alloc: Global,
    index: Option<StressIndex>,
    unit: u32,
    test: &PlanTest,
    reason: &Text,
) -> Mem<Message>
    ensures { IfOk result (λ m. m ≡ skip_message index unit test.now reason.now) }
{
    let reason = reason.copy(alloc)?;
    let test = test_unit(alloc, index, unit, test)?;
    let skip = TestSkip { test, reason };
    Ok(Message::Skip(Boxed::new(alloc, skip)?))
}

// That an attempt of a test was slow so often.
fn test_slow(alloc: Global, role: &TestRole, view: &UnitView, count: u32) -> Mem<TestSlow>
    requires { attempts view.now < 2 ^ 32 }
    ensures { IfOk result (λ slow. messages.Slow slow ≡ test_slow count role.now view.now) }
{
    let test = role.test.copy(alloc)?;
    Ok(TestSlow {
        test,
        attempt: view.attempt,
        attempts: attempts(view),
        elapsed_slow: slow_time(&view.terms.slow, count),
        terminates: is_out_of_time(&view.terms.slow, count),
    })
}

/// The message that its attempt was slow so often.
pub fn slow_report(alloc: Global, view: &UnitView, count: u32) -> Mem<Message>
    requires { attempts view.now < 2 ^ 32 }
    ensures { IfOk result (λ m. m ≡ slow_report count view.now.role view.now) }
{
    match &view.role {
        UnitRole::Test(role) => {
            let slow = test_slow(alloc, role, view, count)?;
            Ok(Message::Slow(Boxed::new(alloc, slow)?))
        }
        UnitRole::Script(role) => {
            let slow = script_slow(alloc, role, view, count)?;
            Ok(Message::ScriptSlow(Boxed::new(alloc, slow)?))
        }
    }
}

// That an attempt with this status failed, and that the next comes after this delay.
fn failed_message(
    alloc: Global,
    role: &TestRole,
    status: &ExecuteStatus,
    delay: u64,
) -> Mem<Message>
    ensures { IfOk result (λ m. m ≡ failed_message delay role.now status.now) }
{
    let test = role.test.copy(alloc)?;
    let status = status.copy(alloc)?;
    let failed = AttemptFailed {
        test,
        status,
        delay_next: delay,
    };
    Ok(Message::AttemptFailed(Boxed::new(alloc, failed)?))
}

/// The message that its last attempt failed, and that the next comes after this delay: none of a script, which has one.
#[tactic(auto, using(crate::proofs::RetryLemmas::last_given))]
pub fn failure_message(alloc: Global, view: &UnitView, delay: u64) -> Mem<Option<Message>>
    ensures { IfOk result (λ sent. sent ≡ failure_message view.now.role delay (last_status view.now.statuses)) }
{
    let UnitRole::Test(role) = &view.role else {
        return Ok(None);
    };
    match view.statuses.as_slice().last() {
        Some(status) => {
            let failure = failed_message(alloc, role, status, delay)?;
            Ok(Some(failure))
        }
        None => Ok(None),
    }
}

// That a test is tried again.
fn test_retry(alloc: Global, role: &TestRole, view: &UnitView) -> Mem<TestRetry>
    requires few { attempts view.now < 2 ^ 32 }
    requires left { view.now.attempt ≤ retry_count view.now.terms.retries }
    ensures { IfOk result (λ retry. messages.Retry retry ≡ test_retry role.now view.now) }
{
    let start = test_start(alloc, role, view)?;
    Ok(TestRetry {
        start,
        attempt: view.attempt + 1,
        attempts: attempts(view),
    })
}

/// The message of its next attempt: none of a script.
pub fn retry_message(alloc: Global, view: &UnitView) -> Mem<Option<Message>>
    requires few { attempts view.now < 2 ^ 32 }
    requires left { view.now.attempt ≤ retry_count view.now.terms.retries }
    ensures { IfOk result (λ sent. sent ≡ retry_message view.now.role view.now) }
{
    match &view.role {
        UnitRole::Test(role) => {
            let retry = test_retry(alloc, role, view)?;
            Ok(Some(Message::Retry(Boxed::new(alloc, retry)?)))
        }
        UnitRole::Script(_) => Ok(None),
    }
}

// That a test is done.
fn test_finish(alloc: Global, role: &TestRole, view: &UnitView) -> Mem<TestFinish>
    ensures { IfOk result (λ finish. messages.Finish finish ≡ test_finish role.now view.now) }
{
    let statuses = view.statuses.copy(alloc)?;
    let test = role.test.copy(alloc)?;
    Ok(TestFinish {
        test,
        statuses,
        flaky: role.flaky,
    })
}

// The message that a script is done.
#[tactic(auto, using(crate::proofs::RetryLemmas::last_given))]
fn script_end(alloc: Global, role: &ScriptRole, view: &UnitView) -> Mem<Option<Message>>
    ensures { IfOk result (λ sent. sent
        ≡ option_map (script_finish role.now view.now) (last_status view.now.statuses)) }
{
    match view.statuses.as_slice().last() {
        Some(status) => {
            let finish = script_finish(alloc, role, view, status)?;
            Ok(Some(Message::ScriptFinish(Boxed::new(alloc, finish)?)))
        }
        None => Ok(None),
    }
}

/// The message that it is done.
pub fn finish_message(alloc: Global, view: &UnitView) -> Mem<Option<Message>>
    ensures { IfOk result (λ sent. sent ≡ finish_message view.now.role view.now) }
{
    match &view.role {
        UnitRole::Test(role) => {
            let finish = test_finish(alloc, role, view)?;
            Ok(Some(Message::Finish(Boxed::new(alloc, finish)?)))
        }
        UnitRole::Script(role) => script_end(alloc, role, view),
    }
}
