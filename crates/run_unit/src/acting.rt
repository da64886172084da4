// Which row of the unit table a turn is.
ghost use Rattle.std.specs.Prelude.{◌≡◌, ◌≤◌, OnErr, IfOk, true, false};
ghost use Rattle.run_model.specs.Row.{quiet as quiet_row};
ghost use Rattle.run_model.specs.Unit.{row_at, takes_at, started};
ghost use Rattle.run_model.specs.declared.phase.Phase.TheVariants as phases;
ghost use Rattle.run_model.specs.declared.unit_turn.UnitTurn.TheVariants as turns;
ghost use Rattle.run_unit.specs.Effects.{IsRow};
ghost use Rattle.run_unit.specs.Heard.{is_of_stream};
ghost use Rattle.run_unit.specs.Timely.{IsTimely, IsTried};

use crate::effects::{UnitEffects, quiet};
use crate::ending::{end_child, end_wait, fail_start, hear_after, leave_streams};
use crate::env::read_env;
use crate::hearing::{hear, hears, is_heard};
use crate::requests::{has_request, take};
use crate::retry::{answer_retry, decide, retry};
use crate::slow::{be_slow, kill};
use crate::start::let_go;
use crate::timing::{is_timer_due, slow_timer_at};
use run_capture::Mem;
use run_model::{Phase, UnitTurn, UnitView};
use std::alloc::Global;

/// Whether a unit takes a turn now.
pub fn is_enabled(view: &UnitView, turn: &UnitTurn, now: u64) -> bool
    requires { IsTimely view.now.timers now }
    ensures { result ≡ takes_at now view.now.phase view.now turn.now }
{
    match turn {
        UnitTurn::Answered { .. } => matches!(view.phase, Phase::StartSent | Phase::RetrySent),
        UnitTurn::Started { .. } | UnitTurn::StartFailed { .. } => {
            matches!(view.phase, Phase::Starting)
        }
        UnitTurn::Exit { .. } | UnitTurn::WaitFailed { .. } => {
            matches!(view.phase, Phase::Running | Phase::Grace | Phase::KillWait)
        }
        UnitTurn::Env { .. } => matches!(view.phase, Phase::EnvWait),
        UnitTurn::Due => is_timer_due(view, now),
        UnitTurn::Take => {
            matches!(
                view.phase,
                Phase::Running | Phase::Grace | Phase::Leak | Phase::Delay
            ) && has_request(&view.line)
        }
        UnitTurn::Decide { .. } => matches!(view.phase, Phase::Deciding),
        _ => {
            matches!(view.phase, Phase::Running | Phase::Grace | Phase::Leak)
                && hears(&view.capture, turn)
        }
    }
}

/// Takes a turn now by the row of its phase.
pub fn act(alloc: Global, view: &mut UnitView, turn: UnitTurn, now: u64) -> Mem<UnitEffects>
    requires enabled { takes_at now view.old.phase view.old turn ≡ true }
    requires timely { IsTimely view.old.timers now }
    requires tried { IsTried view.old }
    ensures row { IfOk result (IsRow (row_at now view.old.phase turn view.old) view.new) }
    ensures err { OnErr result (view.new ≡ view.old) }
{
    if is_heard(&turn) {
        hear_turn(alloc, view, turn, now)
    } else {
        act_itself(alloc, view, turn, now)
    }
}

// Its capture gets a turn.
fn hear_turn(alloc: Global, view: &mut UnitView, turn: UnitTurn, now: u64) -> Mem<UnitEffects>
    requires heard { is_of_stream turn ≡ true }
    requires enabled { takes_at now view.old.phase view.old turn ≡ true }
    requires later { view.old.timers.stopwatch.latest ≤ now }
    requires tried { IsTried view.old }
    ensures row { IfOk result (IsRow (row_at now view.old.phase turn view.old) view.new) }
    ensures err { OnErr result (view.new ≡ view.old) }
{
    match view.phase {
        Phase::Running | Phase::Grace => {
            hear(alloc, &mut view.capture, turn)?;
            Ok(quiet(false))
        }
        Phase::Leak => hear_after(alloc, view, turn, now),
        _ => unreachable!(),
    }
}

// Takes a turn that is none of a stream.
fn act_itself(alloc: Global, view: &mut UnitView, turn: UnitTurn, now: u64) -> Mem<UnitEffects>
    requires other { is_of_stream turn ≡ false }
    requires enabled { takes_at now view.old.phase view.old turn ≡ true }
    requires timely { IsTimely view.old.timers now }
    requires tried { IsTried view.old }
    ensures row { IfOk result (IsRow (row_at now view.old.phase turn view.old) view.new) }
    ensures err { OnErr result (view.new ≡ view.old) }
{
    match turn {
        UnitTurn::Answered { go } => answer(alloc, view, go, now),
        UnitTurn::Started { pid } => Ok(start(view, pid, now)),
        UnitTurn::StartFailed { error } => fail_start(alloc, view, error, now),
        UnitTurn::Exit { exit } => end_child(alloc, view, exit, now),
        UnitTurn::WaitFailed { error } => end_wait(alloc, view, error, now),
        UnitTurn::Env { input } => read_env(alloc, view, &input, now),
        UnitTurn::Due => be_due(alloc, view, now),
        UnitTurn::Take => take(alloc, view, now),
        UnitTurn::Decide { word } => decide(alloc, view, word, now),
        _ => unreachable!(),
    }
}

// Its start, or its retry, was told: it is let go, or not.
fn answer(alloc: Global, view: &mut UnitView, go: bool, now: u64) -> Mem<UnitEffects>
    requires enabled { takes_at now view.old.phase view.old (turns.Answered go) ≡ true }
    requires tried { IsTried view.old }
    ensures row { IfOk result (IsRow (row_at now view.old.phase (turns.Answered go) view.old) view.new) }
    ensures err { OnErr result (view.new ≡ view.old) }
{
    match view.phase {
        Phase::StartSent => answer_start(alloc, view, go, now),
        Phase::RetrySent => answer_retry(alloc, view, go, now),
        _ => unreachable!(),
    }
}

// Its start was told: it is let go, or it is over.
fn answer_start(alloc: Global, view: &mut UnitView, go: bool, now: u64) -> Mem<UnitEffects>
    requires tried { IsTried view.old }
    ensures row { IfOk result (IsRow (row_at now phases.StartSent (turns.Answered go) view.old) view.new) }
    ensures err { OnErr result (view.new ≡ view.old) }
{
    if go {
        return let_go(alloc, view, now);
    }
    view.phase = Phase::Over;
    Ok(quiet(true))
}

// Its child has started, as this process, and may be slow from now on.
fn start(view: &mut UnitView, pid: u32, now: u64) -> UnitEffects
    ensures { IsRow (quiet_row (started now pid view.old)) view.new result }
{
    view.phase = Phase::Running;
    view.pid = pid;
    view.timers.slow = slow_timer_at(now, &view.terms);
    quiet(false)
}

// The timer of its phase is due.
fn be_due(alloc: Global, view: &mut UnitView, now: u64) -> Mem<UnitEffects>
    requires enabled { takes_at now view.old.phase view.old turns.Due ≡ true }
    requires later { view.old.timers.stopwatch.latest ≤ now }
    requires tried { IsTried view.old }
    ensures row { IfOk result (IsRow (row_at now view.old.phase turns.Due view.old) view.new) }
    ensures err { OnErr result (view.new ≡ view.old) }
{
    match view.phase {
        Phase::Running => be_slow(alloc, view, now),
        Phase::Grace => Ok(kill(view)),
        Phase::Leak => leave_streams(alloc, view, now),
        Phase::Delay => retry(alloc, view),
        _ => unreachable!(),
    }
}
