// A setup script: as it begins, and what it tells.
ghost use Rattle.std.specs.Prelude.{◌≡◌, ◌<◌, ◌^◌, IfOk};
ghost use Rattle.run_events.specs.declared.message.Message.TheVariants as messages;
ghost use Rattle.run_model.specs.Admission.{scripts_in, script_streams, script_terms, script_surroundings};
ghost use Rattle.run_model.specs.Admission.{script_role, script_view};
ghost use Rattle.run_model.specs.Environment.{script_start};
ghost use Rattle.run_model.specs.Retries.{script_status, script_finish};
ghost use Rattle.run_model.specs.Unit.{script_slow};

use crate::first::begun_view;
use crate::slow::{is_out_of_time, slow_time};
use run_capture::{CaptureStrategy, Duplicate, Mem, Shared};
use run_events::{
    ExecuteStatus, PlanScript, RetryPolicy, ScriptEnv, ScriptFinish, ScriptSlow, ScriptStart,
    ScriptUnit, Settings, SetupScriptExecuteStatus, SlowTimeout, SlowTimeoutResult, StressIndex,
};
use run_model::{AttemptTerms, CapturedStreams, ScriptRole, Surroundings, UnitRole, UnitView};
use std::alloc::Global;

// The streams of its child that are captured: none where nothing is.
fn script_streams(strategy: CaptureStrategy, script: &PlanScript) -> CapturedStreams
    ensures { result ≡ script_streams strategy script.now }
{
    if matches!(strategy, CaptureStrategy::None) {
        return CapturedStreams::Apart {
            stdout: false,
            stderr: false,
        };
    }
    CapturedStreams::Apart {
        stdout: script.capture_stdout,
        stderr: script.capture_stderr,
    }
}

// On which terms it runs: one that runs out of time has failed.
fn script_terms(settings: &Settings, script: &PlanScript) -> AttemptTerms
    ensures { result ≡ script_terms settings.now script.now }
{
    AttemptTerms {
        streams: script_streams(settings.capture, script),
        slow: SlowTimeout {
            period: script.slow.period,
            terminate_after: script.slow.terminate_after,
            grace: script.slow.grace,
            on_timeout: SlowTimeoutResult::Fail,
        },
        leak: script.leak,
        disables_timeouts: false,
        skips_leak_detection: false,
        reads_env: true,
        retries: RetryPolicy::none(),
        stops: settings.interceptor.should_send_sigtstp(),
    }
}

// The script at this place of the plan: as a unit its number is its place.
fn script_role(
    alloc: Global,
    settings: &Settings,
    index: Option<StressIndex>,
    place: u32,
    script: &PlanScript,
) -> Mem<UnitRole>
    requires { scripts_in settings.now < 2 ^ 32 }
    ensures { IfOk result (λ role. role ≡ script_role settings.now index place script.now) }
{
    let env_path = script.env_path.copy(alloc)?;
    let id = script.id.copy(alloc)?;
    let script = ScriptUnit {
        unit: place,
        id,
        index: place,
        total: settings.plan.scripts.len() as u32,
        no_capture: !(script.capture_stdout && script.capture_stderr),
        stress_index: index,
    };
    Ok(UnitRole::Script(ScriptRole { script, env_path }))
}

/// The script at this place of the plan, as it begins, in the surroundings of all scripts.
pub fn script_view(
    alloc: Global,
    settings: &Settings,
    around: &Shared<Surroundings>,
    index: Option<StressIndex>,
    place: u32,
    script: &PlanScript,
) -> Mem<UnitView>
    requires few { scripts_in settings.now < 2 ^ 32 }
    requires alike { around.now ≡ script_surroundings settings.now }
    ensures { IfOk result (λ u. u ≡ script_view settings.now index place script.now) }
{
    let role = script_role(alloc, settings, index, place, script)?;
    let command = script.command.copy(alloc)?;
    let around = around.share()?;
    let terms = script_terms(settings, script);
    Ok(begun_view(role, command, around, terms))
}

/// A script, as its start tells it.
pub fn script_start(alloc: Global, role: &ScriptRole, view: &UnitView) -> Mem<ScriptStart>
    ensures { IfOk result (λ start. start ≡ script_start role.now view.now) }
{
    let command = view.command.copy(alloc)?;
    let script = role.script.copy(alloc)?;
    Ok(ScriptStart { script, command })
}

/// That a script was slow so often.
pub fn script_slow(alloc: Global, role: &ScriptRole, view: &UnitView, count: u32) -> Mem<ScriptSlow>
    ensures { IfOk result (λ slow. messages.ScriptSlow slow ≡ script_slow count role.now view.now) }
{
    let script = role.script.copy(alloc)?;
    Ok(ScriptSlow {
        script,
        elapsed_slow: slow_time(&view.terms.slow, count),
        terminates: is_out_of_time(&view.terms.slow, count),
    })
}

// The status of a script, from that of its one attempt and what came of its environment file.
fn script_status(
    alloc: Global,
    status: &ExecuteStatus,
    env: &ScriptEnv,
) -> Mem<SetupScriptExecuteStatus>
    ensures { IfOk result (λ s. s ≡ script_status status.now env.now) }
{
    let env = env.copy(alloc)?;
    let output = status.output.copy(alloc)?;
    Ok(SetupScriptExecuteStatus {
        result: status.result,
        output,
        slow: status.slow,
        start: status.start,
        time: status.time,
        env,
    })
}

/// That a script is done, whose one attempt has this status.
pub fn script_finish(
    alloc: Global,
    role: &ScriptRole,
    view: &UnitView,
    status: &ExecuteStatus,
) -> Mem<ScriptFinish>
    ensures { IfOk result (λ finish. messages.ScriptFinish finish ≡ script_finish role.now view.now status.now) }
{
    let status = script_status(alloc, status, &view.env)?;
    let script = role.script.copy(alloc)?;
    Ok(ScriptFinish { script, status })
}
