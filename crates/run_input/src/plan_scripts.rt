// The setup scripts of a plan line.
ghost use Rattle.std.specs.Prelude.{◌≡◌, [], codes};
ghost use Rattle.serde_json.specs.Find.{get};
ghost use Rattle.serde_json.specs.View.{view, items_view};
ghost use Rattle.run_input.specs.Fields.{or_usual};
ghost use Rattle.run_input.specs.PlanScripts.{usual_script_slow, script_times_of, script_captures_of, script_words_of};
ghost use Rattle.run_input.specs.PlanScripts.{script_of, scripts_from, scripts_listed};
ghost use Rattle.run_input.specs.ReadsValue.{ReadsValue};

use crate::fields::{text_at, text_or, texts_at, truth_or};
use crate::misfit::Wrong;
use crate::objects::only_keys;
use crate::plan_test::{leak_at, slow_or};
use crate::refusal::{Refusal, in_item};
use run_capture::{List, Text};
use run_events::{LeakTimeout, PlanScript, SlowTimeout};
use serde_json::Value;
use std::alloc::Global;

/// The setup scripts of a list, and none where there is none.
pub fn scripts_at(alloc: Global, plan: &Value) -> Result<List<PlanScript>, Refusal>
    ensures { ReadsValue result (or_usual [] scripts_listed (get (codes "scripts") (view plan.now))) }
{
    match plan.get("scripts") {
        Some(list) => match list.as_array() {
            Some(items) => scripts_in(alloc, items.as_slice()),
            None => Err(Refusal::at(alloc, "scripts", Wrong::Not("a list of objects"))),
        },
        None => Ok(List::new()),
    }
}

fn scripts_in(alloc: Global, items: &[Value]) -> Result<List<PlanScript>, Refusal>
    ensures { ReadsValue result (scripts_from (items_view items.now)) }
{
    let mut scripts = List::new();
    for item in items {
        scripts.push(alloc, script_in(alloc, scripts.len(), item)?)?;
    }
    Ok(scripts)
}

// The script of this number in its list.
fn script_in(alloc: Global, number: usize, value: &Value) -> Result<PlanScript, Refusal>
    ensures { ReadsValue result (script_of (view value.now)) }
{
    in_item(alloc, "scripts", number, script_from(alloc, value))
}

// A script, by its keys.
#[tactic(auto, unfolding(crate::specs::PlanScripts::script_of))]
fn script_from(alloc: Global, value: &Value) -> Result<PlanScript, Refusal>
    ensures { ReadsValue result (script_of (view value.now)) }
{
    only_keys(
        alloc,
        value,
        &[
            "capture_stderr",
            "capture_stdout",
            "command",
            "env_path",
            "id",
            "leak",
            "slow",
        ],
        "an object",
    )?;
    let (slow, leak) = times_from(alloc, value)?;
    let (capture_stdout, capture_stderr) = captures_from(alloc, value)?;
    let (id, command, env_path) = words_from(alloc, value)?;
    Ok(PlanScript {
        id,
        command,
        env_path,
        slow,
        leak,
        capture_stdout,
        capture_stderr,
    })
}

// When a script is slow where nothing is said.
fn usual_slow() -> SlowTimeout
    ensures { result ≡ usual_script_slow }
{
    let mut slow = SlowTimeout::usual();
    slow.period = 946_080_000_000_000_000;
    slow
}

// The time-outs of a script.
fn times_from(alloc: Global, value: &Value) -> Result<(SlowTimeout, LeakTimeout), Refusal>
    ensures { ReadsValue result (script_times_of (view value.now)) }
{
    let slow = slow_or(alloc, usual_slow(), value)?;
    let leak = leak_at(alloc, value)?;
    Ok((slow, leak))
}

// Whether its streams are captured.
fn captures_from(alloc: Global, value: &Value) -> Result<(bool, bool), Refusal>
    ensures { ReadsValue result (script_captures_of (view value.now)) }
{
    let stdout = truth_or(alloc, true, value, "capture_stdout")?;
    let stderr = truth_or(alloc, true, value, "capture_stderr")?;
    Ok((stdout, stderr))
}

// The name of a script, its command, and where it writes its variables.
fn words_from(alloc: Global, value: &Value) -> Result<(Text, List<Text>, Text), Refusal>
    ensures { ReadsValue result (script_words_of (view value.now)) }
{
    let id = text_at(alloc, value, "id")?;
    let command = texts_at(alloc, value, "command")?;
    let env_path = text_or(alloc, "", value, "env_path")?;
    Ok((id, command, env_path))
}
