// The end of an attempt.
ghost use Rattle.std.specs.Prelude.{◌≡◌, ◌≤◌, ◌<◌, ◌^◌, [], OnErr, IfOk, OnOk, false, true};
ghost use Rattle.std.specs.Prelude.{vec_len, vec_capacity};
ghost use Rattle.run_model.specs.Environment.{attempts as attempts_of};
ghost use Rattle.run_events.specs.declared.result.ChildExecutionOutput.TheVariants.{Output};
ghost use Rattle.run_model.specs.Ending.{ended, exited, awaits_env, awaiting_env, leaking, settled};
ghost use Rattle.run_model.specs.Row.{quiet as quiet_row};
ghost use Rattle.run_model.specs.Unit.{row_at, running_row, waited_row, hears, heard_with, having_heard};
ghost use Rattle.run_model.specs.Admission.{is_last};
ghost use Rattle.run_model.specs.declared.phase.Phase.TheVariants as phases;
ghost use Rattle.run_model.specs.declared.unit_turn.UnitTurn.TheVariants as turns;
ghost use Rattle.run_unit.specs.Effects.{IsRow};

use crate::effects::{UnitEffects, quiet};
use crate::hearing::hear;
use crate::pauses::{close_timers, leak_from};
use crate::status::{close, result_of, result_so_far, status_at};
use run_capture::{ChildAccumulator, List, Mem, OutOfMemory, Text};
use run_events::{ChildExecutionOutput, ChildExit, ExecuteStatus, ExecutionResult};
use run_model::{Phase, UnitTurn, UnitView};
use std::alloc::Global;
use std::mem;

/// Its child could not be started, for this reason.
pub fn fail_start(alloc: Global, view: &mut UnitView, error: Text, now: u64) -> Mem<UnitEffects>
    requires few { attempts_of view.old < 2 ^ 32 }
    requires early { view.old.timers.stopwatch.latest ≤ now }
    ensures row { IfOk result (IsRow (row_at now phases.Starting (turns.StartFailed error) view.old) view.new) }
    ensures err { OnErr result (view.new ≡ view.old) }
{
    let output = ChildExecutionOutput::StartError(error);
    let status = status_at(view, ExecutionResult::ExecFail, output, now);
    view.statuses.push(alloc, status)?;
    close(view, now);
    Ok(quiet(false))
}

/// Its child ended so.
pub fn end_child(alloc: Global, view: &mut UnitView, exit: ChildExit, now: u64) -> Mem<UnitEffects>
    requires few { attempts_of view.old < 2 ^ 32 }
    requires early { view.old.timers.stopwatch.latest ≤ now }
    ensures row { IfOk result (IsRow (running_row now (turns.Exit exit) view.old) view.new) }
    ensures err { OnErr result (view.new ≡ view.old) }
{
    let attempts = make_room(alloc, &mut view.statuses)?;
    settle(view, attempts, Some(exit), now);
    Ok(quiet(false))
}

/// The wait for its child failed, with this error.
pub fn end_wait(alloc: Global, view: &mut UnitView, error: Text, now: u64) -> Mem<UnitEffects>
    requires few { attempts_of view.old < 2 ^ 32 }
    requires early { view.old.timers.stopwatch.latest ≤ now }
    ensures row { IfOk result (IsRow (running_row now (turns.WaitFailed error) view.old) view.new) }
    ensures err { OnErr result (view.new ≡ view.old) }
{
    let attempts = make_room(alloc, &mut view.statuses)?;
    match view.capture.wait_error(alloc, error) {
        Ok(()) => {
            settle(view, attempts, None, now);
            Ok(quiet(false))
        }
        Err(error) => {
            view.statuses = List::from_vec(attempts);
            Err(error)
        }
    }
}

/// Its capture gets a turn after its child has ended.
pub fn hear_after(alloc: Global, view: &mut UnitView, turn: UnitTurn, now: u64) -> Mem<UnitEffects>
    requires few { attempts_of view.old < 2 ^ 32 }
    requires early { view.old.timers.stopwatch.latest ≤ now }
    requires heard { hears view.old.capture turn ≡ true }
    requires going { is_last view.old.phase ≡ false }
    ensures row { IfOk result
        (IsRow (quiet_row (heard_with now (having_heard view.old.capture turn) view.old)) view.new) }
    ensures err { OnErr result (view.new ≡ view.old) }
{
    let attempts = make_room(alloc, &mut view.statuses)?;
    match hear(alloc, &mut view.capture, turn) {
        Ok(()) => {
            go_on(view, attempts, now);
            Ok(quiet(false))
        }
        Err(error) => {
            view.statuses = List::from_vec(attempts);
            Err(error)
        }
    }
}

/// The wait for its streams is over, and they are left open.
pub fn leave_streams(alloc: Global, view: &mut UnitView, now: u64) -> Mem<UnitEffects>
    requires few { attempts_of view.old < 2 ^ 32 }
    requires early { view.old.timers.stopwatch.latest ≤ now }
    ensures row { IfOk result (IsRow (waited_row now turns.Due view.old) view.new) }
    ensures err { OnErr result (view.new ≡ view.old) }
{
    let attempts = make_room(alloc, &mut view.statuses)?;
    let exit = view.exit;
    be_done(view, attempts, exit, true, now);
    Ok(quiet(false))
}

/// Takes the attempts out, with room for one more.
pub fn make_room(alloc: Global, statuses: &mut List<ExecuteStatus>) -> Mem<Vec<ExecuteStatus>>
    ensures items { IfOk result (λ attempts. attempts.items ≡ statuses.old) }
    ensures room { IfOk result (λ attempts. vec_len attempts < vec_capacity attempts) }
    ensures ok { OnOk result (statuses.new ≡ []) }
    ensures err { OnErr result (statuses.new ≡ statuses.old) }
{
    let mut attempts = mem::replace(statuses, List::new()).into_vec(alloc);
    // Mostly there is one attempt.
    let made = if attempts.is_empty() {
        attempts.reserve_exact(1)
    } else {
        attempts.reserve(1)
    };
    if made.is_ok() {
        return Ok(attempts);
    }
    *statuses = List::from_vec(attempts);
    Err(OutOfMemory)
}

// Its child is waited for no more, and ended so: its attempt ends, after these, or it waits for its streams.
fn settle(view: &mut UnitView, attempts: Vec<ExecuteStatus>, exit: Option<ChildExit>, now: u64)
    requires few { attempts_of view.old < 2 ^ 32 }
    requires early { view.old.timers.stopwatch.latest ≤ now }
    requires room { vec_len attempts < vec_capacity attempts }
    ensures settled { view.new ≡ settled now exit view.old.capture (record view.old { statuses = attempts.items }) }
    ensures going { is_last view.new.phase ≡ false }
{
    if view.terms.skips_leak_detection || view.capture.is_done() {
        be_done(view, attempts, exit, false, now);
    } else {
        view.statuses = List::from_vec(attempts);
        wait_for_streams(view, exit, now);
    }
}

// It waits for its streams from now on, with how its child ended.
fn wait_for_streams(view: &mut UnitView, exit: Option<ChildExit>, now: u64)
    requires { view.old.timers.stopwatch.latest ≤ now }
    ensures { view.new ≡ leaking now exit view.old.capture view.old }
{
    view.exit_result = result_so_far(view, exit);
    view.exit = exit;
    view.phase = Phase::Leak;
    leak_from(&mut view.timers, now, view.terms.leak.period);
}

// It heard a turn of a stream: its attempt ends, after these, where all its streams are done.
fn go_on(view: &mut UnitView, attempts: Vec<ExecuteStatus>, now: u64)
    requires few { attempts_of view.old < 2 ^ 32 }
    requires early { view.old.timers.stopwatch.latest ≤ now }
    requires room { vec_len attempts < vec_capacity attempts }
    requires going { is_last view.old.phase ≡ false }
    ensures heard { view.new ≡ heard_with now view.old.capture (record view.old { statuses = attempts.items }) }
    ensures going { is_last view.new.phase ≡ false }
{
    if view.capture.is_done() {
        let exit = view.exit;
        be_done(view, attempts, exit, false, now);
    } else {
        view.statuses = List::from_vec(attempts);
    }
}

// Its child is done with: its attempt ends, after these, or its environment file is to be read.
fn be_done(
    view: &mut UnitView,
    attempts: Vec<ExecuteStatus>,
    exit: Option<ChildExit>,
    leaked: bool,
    now: u64,
)
    requires few { attempts_of view.old < 2 ^ 32 }
    requires early { view.old.timers.stopwatch.latest ≤ now }
    requires room { vec_len attempts < vec_capacity attempts }
    ensures done { view.new ≡ exited now exit leaked view.old.capture (record view.old { statuses = attempts.items }) }
    ensures going { is_last view.new.phase ≡ false }
{
    let outcome = result_of(view, exit, view.capture.errors(), leaked);
    if awaits_env(view, outcome) {
        view.statuses = List::from_vec(attempts);
        await_env(view, exit, leaked, now);
    } else {
        end_attempt(view, attempts, outcome, now);
    }
}

// Whether its environment file is to be read where its child ended with this result.
fn awaits_env(view: &UnitView, outcome: ExecutionResult) -> bool
    ensures { result ≡ awaits_env outcome view.now }
{
    view.terms.reads_env && outcome.is_success()
}

// It waits for that, with how its child ended.
fn await_env(view: &mut UnitView, exit: Option<ChildExit>, leaked: bool, now: u64)
    requires { view.old.timers.stopwatch.latest ≤ now }
    ensures { view.new ≡ awaiting_env now exit leaked view.old.capture view.old }
{
    view.phase = Phase::EnvWait;
    close_timers(&mut view.timers, now);
    view.exit = exit;
    view.exit_result = None;
    view.leaked = leaked;
}

/// Its attempt ends, after these, with this result: what was captured moves into its status.
pub fn end_attempt(
    view: &mut UnitView,
    attempts: Vec<ExecuteStatus>,
    outcome: ExecutionResult,
    now: u64,
)
    requires few { attempts_of view.old < 2 ^ 32 }
    requires early { view.old.timers.stopwatch.latest ≤ now }
    requires room { vec_len attempts < vec_capacity attempts }
    ensures { view.new ≡ ended now outcome (Output view.old.capture.output view.old.capture.errors)
        (record view.old { statuses = attempts.items }) }
{
    let mut attempts = attempts;
    let capture = mem::replace(&mut view.capture, ChildAccumulator::uncaptured());
    let (output, errors) = capture.freeze();
    let output = ChildExecutionOutput::Output { output, errors };
    let status = status_at(view, outcome, output, now);
    attempts.push_reserved(status);
    view.statuses = List::from_vec(attempts);
    close(view, now);
}
