// The plan line of a rerun as a JSON value.
ghost use Rattle.std.specs.Prelude.{◌≡◌, IfOk, OnOk, codes, option_map};
ghost use Rattle.serde_json.specs.Data.{object, put, string};
ghost use Rattle.serde_json.specs.Find.{get, get_member};
ghost use Rattle.serde_json.specs.View.{items_view, members_view, view};
ghost use Rattle.run_events.specs.declared.plan.TestInstanceId.{TestInstanceId};
ghost use Rattle.run_input.specs.PlanTest.{id_of};
ghost use Rattle.run_output.specs.Fields.{array_of};
ghost use Rattle.run_output.specs.Texts.{test_data};
ghost use Rattle.run_rerun.specs.Made.{is_to_skip, made, made_items, made_test, made_tests, with_member};
ghost use Rattle.run_rerun.specs.Outstanding.{has_id};

use crate::chain::set_of;
use run_capture::{Mem, Text};
use run_events::TestInstanceId;
use serde_json::{Map, Value};
use std::alloc::Global;
use std::collections::BTreeSet;

/// Puts a value at a key, and gives what was there.
pub fn put_member(
    alloc: Global,
    members: &mut Map<String, Value>,
    key: &str,
    value: Value,
) -> Mem<Option<Value>>
    ensures put { OnOk result (members_view members.new.entries
        ≡ put key.now (view value) (members_view members.old.entries)) }
    ensures was { IfOk result (λ was. option_map view was ≡ get_member key.now (members_view members.old.entries)) }
{
    Ok(members.insert(String::from_str(alloc, key)?, value)?)
}

// A value with another one at a key, if it is an object.
fn with_member(alloc: Global, value: Value, key: &str, member: Value) -> Mem<Value>
    ensures { IfOk result (λ v. view v ≡ with_member key.now (view member) (view value)) }
{
    match value {
        Value::Object(mut members) => {
            drop(put_member(alloc, &mut members, key, member)?);
            Ok(Value::Object(members))
        }
        other => Ok(other),
    }
}

// The name of a test.
fn id_in(alloc: Global, test: &Value) -> Mem<Option<TestInstanceId>>
    ensures { IfOk result (λ id. id ≡ id_of (view test.now)) }
{
    let Some(binary) = test.get("binary").and_then(Value::as_str) else {
        return Ok(None);
    };
    let Some(name) = test.get("name").and_then(Value::as_str) else {
        return Ok(None);
    };
    let binary = Text::from_str(alloc, binary)?;
    let name = Text::from_str(alloc, name)?;
    Ok(Some(TestInstanceId { binary, name }))
}

// Whether a test matches, and isn't one of these.
fn is_to_skip(alloc: Global, ids: &BTreeSet<TestInstanceId>, test: &Value) -> Mem<bool>
    ensures { IfOk result
        (λ is. is ≡ is_to_skip ids.now.keys (id_of (view test.now)) (get (codes "skip") (view test.now))) }
{
    match id_in(alloc, test)? {
        Some(id) => Ok(test.get("skip").is_none() && !ids.contains(&id)),
        None => Ok(false),
    }
}

// A test of the plan.
fn made_test(alloc: Global, ids: &BTreeSet<TestInstanceId>, test: Value) -> Mem<Value>
    ensures { IfOk result (λ v. view v ≡ made_test ids.now.keys (view test)) }
{
    if is_to_skip(alloc, ids, &test)? {
        let reason = Value::try_from_str(alloc, "rerun")?;
        with_member(alloc, test, "skip", reason)
    } else {
        Ok(test)
    }
}

// Tests of the plan.
fn made_items(alloc: Global, ids: &BTreeSet<TestInstanceId>, tests: Vec<Value>) -> Mem<Vec<Value>>
    ensures { IfOk result (λ v. items_view v.items ≡ made_items ids.now.keys (items_view tests.items)) }
{
    let mut made = Vec::with_capacity(alloc, tests.len())?;
    for test in tests {
        made.push(made_test(alloc, ids, test)?)?;
    }
    Ok(made)
}

// The tests of the plan.
fn made_tests(alloc: Global, ids: &BTreeSet<TestInstanceId>, tests: Value) -> Mem<Value>
    ensures { IfOk result (λ v. view v ≡ made_tests ids.now.keys (view tests)) }
{
    match tests {
        Value::Array(tests) => Ok(Value::Array(made_items(alloc, ids, tests)?)),
        other => Ok(other),
    }
}

/// The name of a test as a value: its binary, and its name within it.
pub fn id_value(alloc: Global, id: &TestInstanceId) -> Mem<Value>
    ensures { IfOk result (λ v. view v ≡ test_data id.now) }
{
    let mut pair = Vec::with_capacity(alloc, 2)?;
    pair.push(Value::try_from_str(alloc, id.binary.as_str())?)?;
    pair.push(Value::try_from_str(alloc, id.name.as_str())?)?;
    Ok(Value::Array(pair))
}

// The names of tests as a value.
fn ids_value(alloc: Global, ids: &[TestInstanceId]) -> Mem<Value>
    ensures { IfOk result (λ v. view v ≡ array_of test_data ids.now) }
{
    let mut values = Vec::with_capacity(alloc, ids.len())?;
    for id in ids {
        values.push(id_value(alloc, id)?)?;
    }
    Ok(Value::Array(values))
}

// The members of a plan line with those of a rerun that expects these tests, of which this is the set.
fn set_members(
    alloc: Global,
    ids: &[TestInstanceId],
    set: &BTreeSet<TestInstanceId>,
    members: &mut Map<String, Value>,
) -> Mem<()>
    requires { (q : TestInstanceId) → has_id set.now.keys q ≡ has_id ids.now q }
    ensures { OnOk result (object (members_view members.new.entries)
        ≡ made ids.now (object (members_view members.old.entries))) }
{
    let was = put_member(alloc, members, "tests", Value::Null)?;
    let tests = made_tests(alloc, set, was.unwrap_or(Value::Null))?;
    drop(put_member(alloc, members, "tests", tests)?);
    let expected = ids_value(alloc, ids)?;
    drop(put_member(alloc, members, "expected", expected)?);
    Ok(())
}

/// The value of the plan line of a rerun that expects these tests, by that of the plan line that it is made of.
pub fn made_value(alloc: Global, ids: &[TestInstanceId], value: Value) -> Mem<Value>
    ensures { IfOk result (λ v. view v ≡ made ids.now (view value)) }
{
    match value {
        Value::Object(mut members) => {
            let set = set_of(alloc, ids)?;
            set_members(alloc, ids, &set, &mut members)?;
            Ok(Value::Object(members))
        }
        other => Ok(other),
    }
}
