// The plan line of a rerun.
ghost use Rattle.std.specs.Prelude.{◌≡◌, ◌≤◌, Some, IfOk, IsSome, false};
ghost use Rattle.std.specs.Str.{IsUtf8};
ghost use Rattle.serde_json.specs.Data.{Data, depth};
ghost use Rattle.serde_json.specs.Read.{max_depth, read};
ghost use Rattle.serde_json.specs.View.{view};
ghost use Rattle.serde_json.specs.Written.{compact_text, has_float};
ghost use Rattle.run_events.specs.declared.plan.Plan.{Plan};
ghost use Rattle.run_input.specs.Input.{plan_line_of};
ghost use Rattle.run_input.specs.ValueOf.{json_value};
ghost use Rattle.run_input.specs.declared.plan_line.RunnerKeys.{RunnerKeys};
ghost use Rattle.run_rerun.specs.Made.{made, made_keys, made_plan};

use crate::made::made_value;
use run_capture::{Mem, OutOfMemory, Text};
use run_events::TestInstanceId;
use serde_json::Value;
use std::alloc::Global;

/// The text of a value.
pub fn text_of(alloc: Global, value: &Value) -> Mem<Text>
    ensures text { IfOk result (λ t. has_float (view value.now) ≡ false → t ≡ compact_text (view value.now)) }
    ensures utf8 { IfOk result IsUtf8 }
    ensures reads_back { IfOk result (λ t. depth (view value.now) ≤ max_depth → read t ≡ Some (view value.now)) }
{
    let text = Text::from_string(value.to_string(alloc)?);
    // A text is UTF-8, as its `str` says.
    let _utf8 = text.as_str();
    Ok(text)
}

/// The plan line of a rerun, made of the latest plan line: it expects these tests, each matched test that isn't one of
/// them is skipped with the reason `rerun`, and nothing else changes. It has no space, and its keys are in byte order.
pub fn rerun_plan(alloc: Global, line: &[u8], ids: &[TestInstanceId]) -> Mem<Text>
    requires { IsSome (plan_line_of line.now) }
    ensures text { IfOk result
        (λ t. (d : Data) × (json_value line.now ≡ Some d) × (t ≡ compact_text (made ids.now d))) }
    ensures plan { IfOk result (λ t. (keys : RunnerKeys) (plan : Plan) → plan_line_of line.now ≡ Some (keys, plan)
        → plan_line_of t ≡ Some (made_keys ids.now keys, made_plan ids.now plan)) }
{
    let Ok(value) = Value::from_slice(alloc, line) else {
        return Err(OutOfMemory);
    };
    let value = made_value(alloc, ids, value)?;
    let text = text_of(alloc, &value)?;
    Ok(text)
}
