// The tests that a rerun expects, by a plan line.
ghost use Rattle.std.specs.Prelude.{◌≡◌, codes};
ghost use Rattle.serde_json.specs.Find.{get};
ghost use Rattle.serde_json.specs.View.{view, items_view};
ghost use Rattle.run_input.specs.Fields.{optional};
ghost use Rattle.run_input.specs.PlanExpected.{expected_of, instance_from, instance_of, instance_with, instances_from};
ghost use Rattle.run_input.specs.ReadsValue.{ReadsValue};
ghost use Rattle.run_input.specs.declared.errors.LineError.TheVariants as errors;

use crate::both::both;
use crate::fields::text_from;
use crate::misfit::Wrong;
use crate::refusal::Refusal;
use run_capture::List;
use run_events::TestInstanceId;
use serde_json::Value;
use std::alloc::Global;

const KEY: &str = "expected";

const TESTS: &str = "a list of tests, each as [binary, name]";

/// The expected tests, in the order of their list, where they are given.
pub fn optional_expected_at(
    alloc: Global,
    plan: &Value,
) -> Result<Option<List<TestInstanceId>>, Refusal>
    ensures { ReadsValue result (optional expected_of (get (codes "expected") (view plan.now))) }
{
    match plan.get("expected") {
        Some(expected) => Ok(Some(expected_from(alloc, expected)?)),
        None => Ok(None),
    }
}

// That they are no such list.
fn no_tests(alloc: Global) -> Refusal
    ensures { result ≡ errors.NotInTable }
{
    Refusal::at(alloc, KEY, Wrong::Not(TESTS))
}

fn expected_from(alloc: Global, value: &Value) -> Result<List<TestInstanceId>, Refusal>
    ensures { ReadsValue result (expected_of (view value.now)) }
{
    match value.as_array() {
        Some(items) => instances_in(alloc, items.as_slice()),
        None => Err(no_tests(alloc)),
    }
}

fn instances_in(alloc: Global, items: &[Value]) -> Result<List<TestInstanceId>, Refusal>
    ensures { ReadsValue result (instances_from (items_view items.now)) }
{
    let mut ids = List::new();
    for item in items {
        ids.push(alloc, instance_at(alloc, item)?)?;
    }
    Ok(ids)
}

fn instance_at(alloc: Global, value: &Value) -> Result<TestInstanceId, Refusal>
    ensures { ReadsValue result (instance_of (view value.now)) }
{
    match value.as_array() {
        Some(items) => instance_in(alloc, items.as_slice()),
        None => Err(no_tests(alloc)),
    }
}

// The test of these items, which are its binary and its name.
fn instance_in(alloc: Global, items: &[Value]) -> Result<TestInstanceId, Refusal>
    ensures { ReadsValue result (instance_from (items_view items.now)) }
{
    match items {
        [] => Err(no_tests(alloc)),
        [_binary] => Err(no_tests(alloc)),
        [binary, name] => instance_with(alloc, binary, name),
        [_binary, _name, _more, ..] => Err(no_tests(alloc)),
    }
}

fn instance_with(alloc: Global, binary: &Value, name: &Value) -> Result<TestInstanceId, Refusal>
    ensures { ReadsValue result (instance_with (view binary.now) (view name.now)) }
{
    let binary = text_from(alloc, binary, KEY, TESTS)?;
    let (binary, name) = both(binary, text_from(alloc, name, KEY, TESTS))?;
    Ok(TestInstanceId { binary, name })
}
