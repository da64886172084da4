// What the tests of a plan line run under: a debugger, or a tracer of system calls.
ghost use Rattle.std.specs.Prelude.{◌≡◌, codes, option_map};
ghost use Rattle.serde_json.specs.Find.{get};
ghost use Rattle.serde_json.specs.View.{view};
ghost use Rattle.run_commands.specs.CommandWords.{command_words};
ghost use Rattle.run_commands.specs.declared.interceptor.Interceptor.TheVariants as kinds;
ghost use Rattle.run_input.specs.Fields.{or_usual};
ghost use Rattle.run_input.specs.PlanInterceptor.{interceptor_of, interceptor_with};
ghost use Rattle.run_input.specs.ReadsValue.{ReadsValue};

use crate::fields::{no_text, str_at};
use crate::misfit::Wrong;
use crate::objects::only_keys;
use crate::refusal::{Refusal, under};
use run_capture::OutOfMemory;
use run_commands::{
    DebuggerCommand, DebuggerCommandParseError, Interceptor, TracerCommand, TracerCommandParseError,
};
use serde_json::Value;
use std::alloc::Global;

const COMMAND: &str = "a command as a shell splits it";

/// The interceptor, and none where nothing is said.
pub fn interceptor_at(alloc: Global, plan: &Value) -> Result<Interceptor, Refusal>
    ensures { ReadsValue result (or_usual kinds.None interceptor_of (get (codes "interceptor") (view plan.now))) }
{
    match plan.get("interceptor") {
        Some(interceptor) => under(alloc, "interceptor", interceptor_from(alloc, interceptor)),
        None => Ok(Interceptor::None),
    }
}

#[tactic(auto, unfolding(crate::specs::PlanInterceptor::interceptor_of))]
fn interceptor_from(alloc: Global, value: &Value) -> Result<Interceptor, Refusal>
    ensures { ReadsValue result (interceptor_of (view value.now)) }
{
    only_keys(alloc, value, &["command", "kind"], "an object")?;
    let Some(command) = str_at(value, "command") else {
        return Err(no_text(alloc, value, "command"));
    };
    let Some(kind) = str_at(value, "kind") else {
        return Err(no_text(alloc, value, "kind"));
    };
    interceptor_with(alloc, kind, command)
}

// The interceptor of this kind, with this command.
fn interceptor_with(alloc: Global, kind: &str, command: &str) -> Result<Interceptor, Refusal>
    ensures { ReadsValue result (interceptor_with kind.now command.now) }
{
    match kind {
        "debugger" => debugger_with(alloc, command),
        "tracer" => tracer_with(alloc, command),
        _ => Err(Refusal::at(alloc, "kind", Wrong::Not("debugger or tracer"))),
    }
}

fn debugger_with(alloc: Global, command: &str) -> Result<Interceptor, Refusal>
    ensures { ReadsValue result (option_map kinds.Debugger (command_words command.now)) }
{
    match DebuggerCommand::from_str(alloc, command) {
        Ok(command) => Ok(Interceptor::Debugger(command)),
        Err(DebuggerCommandParseError::OutOfMemory) => Err(Refusal::from(OutOfMemory)),
        Err(_) => Err(Refusal::at(alloc, "command", Wrong::Not(COMMAND))),
    }
}

fn tracer_with(alloc: Global, command: &str) -> Result<Interceptor, Refusal>
    ensures { ReadsValue result (option_map kinds.Tracer (command_words command.now)) }
{
    match TracerCommand::from_str(alloc, command) {
        Ok(command) => Ok(Interceptor::Tracer(command)),
        Err(TracerCommandParseError::OutOfMemory) => Err(Refusal::from(OutOfMemory)),
        Err(_) => Err(Refusal::at(alloc, "command", Wrong::Not(COMMAND))),
    }
}
