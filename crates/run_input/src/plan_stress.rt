// How often, or how long, the run of a plan line is repeated.
ghost use Rattle.std.specs.Prelude.{◌≡◌, codes};
ghost use Rattle.serde_json.specs.Find.{get};
ghost use Rattle.serde_json.specs.View.{view};
ghost use Rattle.run_input.specs.Fields.{optional};
ghost use Rattle.run_input.specs.PlanStress.{repeats_as, repeats_from, repeats_named, stress_of, stress_with};
ghost use Rattle.run_input.specs.ReadsValue.{ReadsValue};

use crate::fields::optional_time_at;
use crate::misfit::Wrong;
use crate::objects::only_keys;
use crate::refusal::{Refusal, or_not, under};
use run_commands::{StressCondition, StressCount};
use serde_json::Value;
use std::alloc::Global;
use std::num::NonZero;

const REPEATS: &str = "infinite or a text of a whole number from 1 to 4294967295";

/// When a stress run ends, and nothing where the run is none.
pub fn optional_stress_at(alloc: Global, plan: &Value) -> Result<Option<StressCondition>, Refusal>
    ensures { ReadsValue result (optional stress_of (get (codes "stress") (view plan.now))) }
{
    match plan.get("stress") {
        Some(stress) => Ok(Some(under(alloc, "stress", stress_from(alloc, stress))?)),
        None => Ok(None),
    }
}

#[tactic(auto, unfolding(crate::specs::PlanStress::stress_of))]
fn stress_from(alloc: Global, value: &Value) -> Result<StressCondition, Refusal>
    ensures { ReadsValue result (stress_of (view value.now)) }
{
    only_keys(alloc, value, &["count", "duration"], "an object")?;
    let count = optional_repeats_at(alloc, value)?;
    let duration = optional_time_at(alloc, value, "duration")?;
    stress_with(alloc, count, duration)
}

// After so many sub-runs, or so much time: one of them is said.
fn stress_with(
    alloc: Global,
    count: Option<StressCount>,
    duration: Option<u64>,
) -> Result<StressCondition, Refusal>
    ensures { ReadsValue result (stress_with count duration) }
{
    match (count, duration) {
        (Some(count), None) => Ok(StressCondition::Count(count)),
        (None, Some(duration)) => Ok(StressCondition::Duration(duration)),
        (Some(_), Some(_)) => Err(Refusal::at(alloc, "count", Wrong::NotOne("duration"))),
        (None, None) => Err(Refusal::at(alloc, "count", Wrong::NotOne("duration"))),
    }
}

// A count that may be missing.
fn optional_repeats_at(alloc: Global, stress: &Value) -> Result<Option<StressCount>, Refusal>
    ensures { ReadsValue result (optional repeats_from (get (codes "count") (view stress.now))) }
{
    match stress.get("count") {
        Some(value) => Ok(Some(or_not(alloc, repeats_from(value), "count", REPEATS)?)),
        None => Ok(None),
    }
}

fn repeats_from(value: &Value) -> Option<StressCount>
    ensures { result ≡ repeats_from (view value.now) }
{
    parse_repeats(value.as_str()?)
}

/// The count of sub-runs that a text says: the word `infinite`, or a whole number from 1, perhaps with a `+` before it.
pub fn parse_repeats(text: &str) -> Option<StressCount>
    ensures { result ≡ repeats_named text.now }
{
    match StressCount::from_str(text) {
        Ok(StressCount::Count { count }) => repeats_as(count.get()),
        Ok(StressCount::Infinite) => Some(StressCount::Infinite),
        Err(_) => None,
    }
}

// A count of so many sub-runs, where they are some.
fn repeats_as(number: u32) -> Option<StressCount>
    ensures { result ≡ repeats_as number }
{
    match NonZero::<u32>::new(number) {
        Some(count) => Some(StressCount::Count { count }),
        None => None,
    }
}
