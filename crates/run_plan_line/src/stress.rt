// How often, or how long, all is repeated, as a value.
ghost use Rattle.std.specs.Prelude.{◌≡◌, IfOk, IfSome, option_map};
ghost use Rattle.serde_json.specs.Data.{string};
ghost use Rattle.serde_json.specs.View.{view};
ghost use Rattle.run_commands.specs.declared.stress_count.StressCondition.TheVariants as conditions;
ghost use Rattle.run_output.specs.Stress.{condition_data};
ghost use Rattle.run_output.specs.Texts.{runs_text};
ghost use Rattle.run_plan_line.specs.SaidPlan.{repeats_fit};

use itoa::Buffer;
use run_capture::Mem;
use run_commands::{StressCondition, StressCount};
use run_wave_line::{put_member, text_value};
use serde_json::{Map, Value};
use std::alloc::Global;

// How often, as a text.
#[tactic(auto, unfolding(run_output::specs::Texts::runs_text))]
fn runs_value(alloc: Global, runs: &StressCount) -> Mem<Value>
    ensures is { IfOk result (λ v. view v ≡ string (runs_text runs.now)) }
    ensures fits { repeats_fit (conditions.Count runs.now) }
{
    match runs {
        StressCount::Count { count } => {
            let mut digits = Buffer::new();
            text_value(alloc, digits.format(count.get()))
        }
        StressCount::Infinite => text_value(alloc, "infinite"),
    }
}

#[tactic(auto, unfolding(run_output::specs::Stress::condition_fields))]
fn condition_value(alloc: Global, stress: &StressCondition) -> Mem<Value>
    ensures is { IfOk result (λ v. view v ≡ condition_data stress.now) }
    ensures fits { repeats_fit stress.now }
{
    let mut members = Map::new(alloc);
    match stress {
        StressCondition::Count(runs) => {
            let runs = runs_value(alloc, runs)?;
            put_member(alloc, &mut members, "count", runs)?;
        }
        StressCondition::Duration(time) => {
            put_member(alloc, &mut members, "duration", Value::from(*time))?;
        }
    }
    Ok(Value::Object(members))
}

/// The value of a condition, where there is one.
pub fn stress_value(alloc: Global, stress: &Option<StressCondition>) -> Mem<Option<Value>>
    ensures is { IfOk result (λ v. option_map view v ≡ option_map condition_data stress.now) }
    ensures fits { IfSome stress.now repeats_fit }
{
    match stress {
        Some(stress) => Ok(Some(condition_value(alloc, stress)?)),
        None => Ok(None),
    }
}
