// The plan line of a wave.
ghost use Rattle.std.specs.Prelude.{◌≡◌, ◌<◌, ◌≤◌, ◌^◌, false, length, IfOk, Some};
ghost use Rattle.std.specs.Str.{IsUtf8};
ghost use Rattle.serde_json.specs.Data.{depth};
ghost use Rattle.serde_json.specs.Read.{max_depth, read};
ghost use Rattle.serde_json.specs.View.{view};
ghost use Rattle.serde_json.specs.Written.{compact_text, has_float};
ghost use Rattle.run_input.specs.Input.{plan_line_of};
ghost use Rattle.run_wave_line.specs.WaveLine.{wave_keys, wave_plan, wave_text};

use crate::values::line_value;
use run_capture::{Mem, Text};
use run_events::Plan;
use serde_json::Value;
use std::alloc::Global;

/// The text of a value.
pub fn text_of(alloc: Global, value: &Value) -> Mem<Text>
    ensures text { IfOk result (λ t. has_float (view value.now) ≡ false → t ≡ compact_text (view value.now)) }
    ensures utf8 { IfOk result IsUtf8 }
    ensures reads_back { IfOk result (λ t. depth (view value.now) ≤ max_depth → read t ≡ Some (view value.now)) }
{
    let text = Text::from_string(value.to_string(alloc)?);
    // A text is UTF-8, as its `str` says.
    let _utf8 = text.as_str();
    Ok(text)
}

/// The plan line of a wave with this plan, of which so many tests may run at a time: its keys in byte order, with no
/// space. It says the id of the run, and of each test its name and its command alone. A reader of plan lines reads it
/// as such a plan.
pub fn wave_line(alloc: Global, threads: u32, plan: &Plan) -> Mem<Text>
    requires { length plan.now.tests < 2 ^ 32 }
    ensures text { IfOk result (λ t. t ≡ wave_text threads plan.now.head.run_id plan.now.tests) }
    ensures says { IfOk result (λ t. plan_line_of t
        ≡ Some (wave_keys threads, wave_plan plan.now.head.run_id plan.now.tests)) }
{
    let value = line_value(alloc, threads, plan)?;
    let text = text_of(alloc, &value)?;
    Ok(text)
}
