// The status of an attempt that ends.
ghost use Rattle.std.specs.Prelude.{◌≡◌, ◌≤◌, ◌<◌, ◌^◌, None, false};
ghost use Rattle.run_capture.specs.Output.{uncaptured};
ghost use Rattle.run_capture.specs.Captured.{begun};
ghost use Rattle.run_model.specs.Environment.{attempts};
ghost use Rattle.run_model.specs.Ending.{result_of, result_so_far, status_at};
ghost use Rattle.run_model.specs.Pauses.{closed};
ghost use Rattle.run_model.specs.declared.phase.Phase.TheVariants as phases;

use crate::messages::attempts;
use crate::pauses::close_timers;
use crate::slow::is_out_of_time;
use run_capture::{ChildAccumulator, ChildFdError};
use run_events::{
    ChildExecutionOutput, ChildExit, ExecuteStatus, ExecutionResult, create_execution_result,
};
use run_model::{Phase, UnitView};

/// The status of the current attempt, where it ends now with this result.
pub fn status_at(
    view: &UnitView,
    outcome: ExecutionResult,
    output: ChildExecutionOutput,
    now: u64,
) -> ExecuteStatus
    requires few { attempts view.now < 2 ^ 32 }
    requires early { view.now.timers.stopwatch.latest ≤ now }
    ensures { result ≡ status_at now outcome output view.now }
{
    let shown = view.timers.stopwatch.snapshot(now);
    ExecuteStatus {
        attempt: view.attempt,
        attempts: attempts(view),
        delay: view.delay,
        result: outcome,
        output,
        slow: 0 < view.timers.slow_count,
        start: shown.start,
        time: shown.active,
    }
}

/// Its attempt is over now: no timer is due and nothing is captured any more.
pub fn close(view: &mut UnitView, now: u64)
    requires { view.old.timers.stopwatch.latest ≤ now }
    ensures { view.new ≡ record view.old {
      phase = phases.Deciding;
      timers = closed now view.old.timers;
      capture = begun uncaptured;
      exit = None;
      exit_result = None;
      leaked = false;
    } }
{
    view.phase = Phase::Deciding;
    close_timers(&mut view.timers, now);
    view.capture = ChildAccumulator::uncaptured();
    view.exit = None;
    view.exit_result = None;
    view.leaked = false;
}

/// The result of its attempt: one that has run out of time is a timeout whatever else is said of it.
pub fn result_of(
    view: &UnitView,
    exit: Option<ChildExit>,
    errors: &[ChildFdError],
    leaked: bool,
) -> ExecutionResult
    ensures { result ≡ result_of exit errors.now leaked view.now }
{
    if is_out_of_time(&view.terms.slow, view.timers.slow_count) {
        ExecutionResult::Timeout {
            result: view.terms.slow.on_timeout,
        }
    } else {
        create_execution_result(exit, errors, leaked, view.terms.leak.result)
    }
}

/// The result by how its child ended and by what was captured of it: none where the wait for it failed, unless its
/// attempt has run out of time.
pub fn result_so_far(view: &UnitView, exit: Option<ChildExit>) -> Option<ExecutionResult>
    ensures { result ≡ result_so_far exit view.now.capture view.now }
{
    if is_out_of_time(&view.terms.slow, view.timers.slow_count) || exit.is_some() {
        Some(result_of(view, exit, view.capture.errors(), false))
    } else {
        None
    }
}
