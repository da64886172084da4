// The runners of a plan line: programs that run the binaries of its tests.
ghost use Rattle.std.specs.Prelude.{◌≡◌, codes};
ghost use Rattle.serde_json.specs.Data.{item};
ghost use Rattle.serde_json.specs.Find.{get};
ghost use Rattle.serde_json.specs.View.{view, items_view};
ghost use Rattle.run_commands.specs.TargetRunner.{no_runners};
ghost use Rattle.run_input.specs.Fields.{optional, or_usual};
ghost use Rattle.run_input.specs.PlanHead.{runner_from, runner_of, runners_of};
ghost use Rattle.run_input.specs.ReadsValue.{ReadsValue};

use crate::both::both;
use crate::fields::{text_from, texts_in};
use crate::misfit::Wrong;
use crate::objects::only_keys;
use crate::refusal::{Refusal, under};
use run_capture::Text;
use run_commands::{PlatformRunner, PlatformRunnerSource, TargetRunner};
use serde_json::Value;
use std::alloc::Global;

const PROGRAM: &str = "a list of one text or more";

/// The runners of both platforms, and none where nothing is said.
pub fn runners_at(alloc: Global, plan: &Value) -> Result<TargetRunner, Refusal>
    ensures { ReadsValue result (or_usual no_runners runners_of (get (codes "runners") (view plan.now))) }
{
    match plan.get("runners") {
        Some(runners) => under(alloc, "runners", runners_from(alloc, runners)),
        None => Ok(TargetRunner::empty()),
    }
}

#[tactic(auto, unfolding(crate::specs::PlanHead::runners_of))]
fn runners_from(alloc: Global, value: &Value) -> Result<TargetRunner, Refusal>
    ensures { ReadsValue result (runners_of (view value.now)) }
{
    only_keys(alloc, value, &["host", "target"], "an object")?;
    let host = optional_runner_at(alloc, value, "host")?;
    let target = optional_runner_at(alloc, value, "target")?;
    Ok(TargetRunner::of(host, target))
}

// A runner that may be missing.
fn optional_runner_at(
    alloc: Global,
    runners: &Value,
    key: &str,
) -> Result<Option<PlatformRunner>, Refusal>
    ensures { ReadsValue result (optional runner_of (get key.now (view runners.now))) }
{
    match runners.get(key) {
        Some(runner) => Ok(Some(runner_from(alloc, runner, key)?)),
        None => Ok(None),
    }
}

fn runner_from(alloc: Global, value: &Value, key: &str) -> Result<PlatformRunner, Refusal>
    ensures { ReadsValue result (runner_of (view value.now)) }
{
    match value.as_array() {
        Some(items) => runner_in(alloc, items.as_slice(), key),
        None => Err(Refusal::at(alloc, key, Wrong::Not(PROGRAM))),
    }
}

// A runner of this program, with these arguments.
fn runner_with(
    alloc: Global,
    program: &Value,
    args: &[Value],
    key: &str,
) -> Result<PlatformRunner, Refusal>
    ensures { ReadsValue result (runner_from (item (view program.now) (items_view args.now))) }
{
    let source = Text::from_str(alloc, "nextest_run")?;
    let (source, binary) = both(source, text_from(alloc, program, key, PROGRAM))?;
    let ((source, binary), args) = both((source, binary), texts_in(alloc, args, key, PROGRAM))?;
    Ok(PlatformRunner::debug_new(binary, args, PlatformRunnerSource::Env(source)))
}

// The runner of these words, of which the first is its program.
fn runner_in(alloc: Global, items: &[Value], key: &str) -> Result<PlatformRunner, Refusal>
    ensures { ReadsValue result (runner_from (items_view items.now)) }
{
    match items.split_first() {
        Some((first, others)) => runner_with(alloc, first, others, key),
        None => Err(Refusal::at(alloc, key, Wrong::Not(PROGRAM))),
    }
}
