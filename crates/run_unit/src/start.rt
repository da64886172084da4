// The start of a unit's child.
ghost use Rattle.std.specs.Prelude.{◌≡◌, ◌<◌, ◌^◌, ◌++◌, IfOk, OnErr};
ghost use Rattle.run_capture.specs.Captured.{begun};
ghost use Rattle.run_model.specs.Environment.{attempts, start_ask, environment_as, env_path_of};
ghost use Rattle.run_model.specs.Environment.{split_streams, streams_of};
ghost use Rattle.run_model.specs.declared.unit_view.UnitRole.TheVariants as roles;
ghost use Rattle.run_model.specs.Unit.{begun_row, nothing_captured};
ghost use Rattle.run_unit.specs.Effects.{IsRow};
ghost use Rattle.run_events.specs.declared.ask.Ask.TheVariants.{Start};

use crate::effects::{UnitEffects, acting};
use crate::messages::{attempts, number_of};
use crate::pauses::timers_from;
use run_capture::{
    Boxed, CaptureStrategy, ChildAccumulator, Duplicate, List, Mem, Stream, Text, with_copies,
};
use run_events::{Ask, ScriptVariables, StartAsk, TestVariables, Variables};
use run_model::{CapturedStreams, Phase, ScriptRole, TestRole, UnitRole, UnitView};
use std::alloc::Global;

/// These words and then those of a command.
pub fn with_command(alloc: Global, words: List<Text>, command: &List<Text>) -> Mem<List<Text>>
    ensures { IfOk result (λ all. all ≡ words ++ command.now) }
{
    let all = with_copies(alloc, words.into_vec(alloc), command.as_slice())?;
    Ok(List::from_vec(all))
}

// Where a script's child writes the variables that it hands on: none of a test.
fn env_path_of(alloc: Global, role: &UnitRole) -> Mem<Option<Text>>
    ensures { IfOk result (λ path. path ≡ env_path_of role.now) }
{
    match role {
        UnitRole::Test(_) => Ok(None),
        UnitRole::Script(role) => {
            let path = role.env_path.copy(alloc)?;
            Ok(Some(path))
        }
    }
}

// Those of the two streams that are captured, in order.
fn split_streams(alloc: Global, stdout: bool, stderr: bool) -> Mem<List<Stream>>
    ensures { IfOk result (λ streams. streams ≡ split_streams stdout stderr) }
{
    let mut streams = List::new();
    if stdout {
        streams.push(alloc, Stream::Stdout)?;
    }
    if stderr {
        streams.push(alloc, Stream::Stderr)?;
    }
    Ok(streams)
}

// The captured streams, in order.
fn streams_of(alloc: Global, captured: CapturedStreams) -> Mem<List<Stream>>
    ensures { IfOk result (λ streams. streams ≡ streams_of captured) }
{
    match captured {
        CapturedStreams::Apart { stdout, stderr } => split_streams(alloc, stdout, stderr),
        CapturedStreams::Combined => {
            let mut streams = List::new();
            streams.push(alloc, Stream::Combined)?;
            Ok(streams)
        }
    }
}

// The command of a unit's child, where the words of the interceptor stand before its own.
fn wrapped(alloc: Global, unit: &UnitView) -> Mem<List<Text>>
    ensures { IfOk result (λ all. all ≡ unit.now.around.wrapper ++ unit.now.command) }
{
    let wrapper = &unit.around.get().wrapper;
    if wrapper.is_empty() {
        return unit.command.copy(alloc);
    }
    with_command(alloc, wrapper.copy(alloc)?, &unit.command)
}

// What the variables of a test's child tell.
fn test_variables(alloc: Global, role: &TestRole, unit: &UnitView) -> Mem<Variables>
    requires { attempts unit.now < 2 ^ 32 }
    ensures { IfOk result (λ v. v ≡ environment_as (roles.Test role.now) unit.now) }
{
    let run = unit.around.get().run.share()?;
    let id = role.test.id.copy(alloc)?;
    let slot = role.slot.copy(alloc)?;
    let handed = role.handed.copy(alloc)?;
    Ok(Variables::of_test(TestVariables {
        run,
        id,
        attempt: unit.attempt,
        attempts: attempts(unit),
        stress_index: role.test.stress_index,
        slot,
        handed,
    }))
}

// What the variables of a setup script's child tell.
fn script_variables(alloc: Global, role: &ScriptRole, unit: &UnitView) -> Mem<Variables>
    ensures { IfOk result (λ v. v ≡ environment_as (roles.Script role.now) unit.now) }
{
    let run = unit.around.get().run.share()?;
    let env_path = role.env_path.copy(alloc)?;
    Ok(Variables::of_script(ScriptVariables { run, env_path }))
}

// The variables of a unit's child.
fn variables_of(alloc: Global, unit: &UnitView) -> Mem<Variables>
    requires { attempts unit.now < 2 ^ 32 }
    ensures { IfOk result (λ v. v ≡ environment_as unit.now.role unit.now) }
{
    match &unit.role {
        UnitRole::Test(role) => test_variables(alloc, role, unit),
        UnitRole::Script(role) => script_variables(alloc, role, unit),
    }
}

// The command of a unit's child, and its variables.
fn program_of(alloc: Global, unit: &UnitView) -> Mem<(List<Text>, Variables)>
    requires { attempts unit.now < 2 ^ 32 }
    ensures { IfOk result (λ program. program
        ≡ (unit.now.around.wrapper ++ unit.now.command, environment_as unit.now.role unit.now)) }
{
    let command = wrapped(alloc, unit)?;
    let env = variables_of(alloc, unit)?;
    Ok((command, env))
}

// What is asked of that start.
#[tactic(auto, unfolding(run_model::specs::Environment::start_ask))]
fn asked_start(alloc: Global, unit: &UnitView) -> Mem<StartAsk>
    requires { attempts unit.now < 2 ^ 32 }
    ensures { IfOk result (λ start. Start start ≡ start_ask unit.now) }
{
    let env_path = env_path_of(alloc, &unit.role)?;
    let streams = streams_of(alloc, unit.terms.streams)?;
    let (command, env) = program_of(alloc, unit)?;
    Ok(StartAsk {
        unit: number_of(&unit.role),
        attempt: unit.attempt,
        command,
        env,
        group: unit.around.get().group,
        stdin: unit.around.get().stdin,
        streams,
        env_path,
    })
}

/// The start that is asked where an attempt is let go, of a unit whose attempts fit in a `u32`.
pub fn start_of(alloc: Global, unit: &UnitView) -> Mem<Ask>
    requires { attempts unit.now < 2 ^ 32 }
    ensures { IfOk result (λ ask. ask ≡ start_ask unit.now) }
{
    let start = asked_start(alloc, unit)?;
    Ok(Ask::Start(Boxed::new(alloc, start)?))
}

// What is captured of a child before its first piece.
fn capture_of(alloc: Global, captured: CapturedStreams) -> Mem<ChildAccumulator>
    ensures { IfOk result (λ capture. capture ≡ begun (nothing_captured captured)) }
{
    match captured {
        CapturedStreams::Apart { stdout, stderr } => {
            ChildAccumulator::new_split(alloc, stdout, stderr)
        }
        CapturedStreams::Combined => ChildAccumulator::new(alloc, CaptureStrategy::Combined),
    }
}

/// It is let go: its attempt begins now, and its start is asked.
pub fn let_go(alloc: Global, view: &mut UnitView, now: u64) -> Mem<UnitEffects>
    requires { attempts view.old < 2 ^ 32 }
    ensures row { IfOk result (IsRow (begun_row now view.old) view.new) }
    ensures err { OnErr result (view.new ≡ view.old) }
{
    let capture = capture_of(alloc, view.terms.streams)?;
    let ask = start_of(alloc, view)?;
    view.phase = Phase::Starting;
    view.timers = timers_from(now);
    view.capture = capture;
    Ok(acting(None, Some(ask)))
}
