// A script's environment file.
ghost use Rattle.std.specs.Prelude.{◌≡◌, ◌≤◌, ◌<◌, ◌^◌, OnErr, IfOk, vec_len, vec_capacity};
ghost use Rattle.run_model.specs.Admission.{variables_of};
ghost use Rattle.run_model.specs.Env.{env_of};
ghost use Rattle.run_model.specs.Environment.{attempts as attempts_of};
ghost use Rattle.run_model.specs.Ending.{ended_with, result_with};
ghost use Rattle.run_model.specs.Unit.{env_row};
ghost use Rattle.run_unit.specs.Effects.{IsRow};

use crate::effects::{UnitEffects, quiet};
use crate::ending::{end_attempt, make_room};
use crate::status::result_of;
use run_capture::{Mem, OutOfMemory, Text};
use run_commands::{EnvInput, SetupScriptOutputError, env_outcome};
use run_events::{ExecuteStatus, ExecutionResult, ScriptEnv};
use run_model::UnitView;
use std::alloc::Global;

/// Its environment file was read, or could not be: its attempt ends.
pub fn read_env(alloc: Global, view: &mut UnitView, input: &EnvInput, now: u64) -> Mem<UnitEffects>
    requires few { attempts_of view.old < 2 ^ 32 }
    requires early { view.old.timers.stopwatch.latest ≤ now }
    ensures row { IfOk result (IsRow (env_row now (env_of input.now) view.old) view.new) }
    ensures err { OnErr result (view.new ≡ view.old) }
{
    let env = env_of(alloc, input)?;
    let attempts = make_room(alloc, &mut view.statuses)?;
    end_with(view, attempts, env, now);
    Ok(quiet(false))
}

// What came of an environment file: its variables, or the fault for which its script failed.
fn env_of(alloc: Global, input: &EnvInput) -> Mem<ScriptEnv>
    ensures { IfOk result (λ env. env ≡ env_of input.now) }
{
    match env_outcome(alloc, input) {
        Ok(variables) => Ok(ScriptEnv::Variables(variables)),
        Err(SetupScriptOutputError::OutOfMemory) => Err(OutOfMemory),
        Err(fault) => Ok(ScriptEnv::Fault(fault)),
    }
}

// Its attempt ends, after these, with what came of its environment file.
fn end_with(view: &mut UnitView, attempts: Vec<ExecuteStatus>, env: ScriptEnv, now: u64)
    requires few { attempts_of view.old < 2 ^ 32 }
    requires early { view.old.timers.stopwatch.latest ≤ now }
    requires room { vec_len attempts < vec_capacity attempts }
    ensures { view.new ≡ ended_with now env view.old.exit view.old.leaked view.old.capture
        (record view.old { statuses = attempts.items }) }
{
    let ended = result_of(view, view.exit, view.capture.errors(), view.leaked);
    let outcome = result_with(&env, ended);
    view.env = env;
    end_attempt(view, attempts, outcome, now);
}

// A result with what came of its environment file: a fault makes it a failure.
fn result_with(env: &ScriptEnv, outcome: ExecutionResult) -> ExecutionResult
    ensures { result ≡ result_with env.now outcome }
{
    match env {
        ScriptEnv::Fault(_) => ExecutionResult::ExecFail,
        _ => outcome,
    }
}

/// The variables of an environment file: none where it gave none.
pub fn variables_of(env: &ScriptEnv) -> &[(Text, Text)]
    ensures { result.now ≡ variables_of env.now }
{
    match env {
        ScriptEnv::Variables(variables) => variables.pairs(),
        ScriptEnv::Unread | ScriptEnv::Fault(_) => &[],
    }
}
