// The values in a plan line of a wave.
ghost use Rattle.std.specs.Prelude.{◌≡◌, IfOk, OnOk, Some};
ghost use Rattle.serde_json.specs.Data.{put, string};
ghost use Rattle.serde_json.specs.View.{members_view, view};
ghost use Rattle.uuid.specs.Text.{hyphenated_text, lower, parsed};
ghost use Rattle.run_output.specs.Fields.{array_of, count, texts};
ghost use Rattle.run_wave_line.specs.WaveLine.{head_members, test_object, wave_object};

use run_capture::{Mem, Text};
use run_events::{Plan, PlanTest};
use serde_json::{Map, Value};
use std::alloc::Global;
use uuid::Uuid;

/// A text as a value.
pub fn text_value(alloc: Global, text: &str) -> Mem<Value>
    ensures { IfOk result (λ v. view v ≡ string text.now) }
{
    Ok(Value::try_from_str(alloc, text)?)
}

/// The text of an id as a value, which is parsed as that id.
pub fn id_value(alloc: Global, id: Uuid) -> Mem<Value>
    ensures is { IfOk result (λ v. view v ≡ string (hyphenated_text lower id)) }
    ensures parsed { Some id ≡ parsed (hyphenated_text lower id) }
{
    let mut buffer = Uuid::encode_buffer();
    let text = id.hyphenated().encode_lower(&mut buffer);
    text_value(alloc, text)
}

/// Words as a value.
pub fn words_value(alloc: Global, words: &[Text]) -> Mem<Value>
    ensures { IfOk result (λ v. view v ≡ texts words.now) }
{
    let mut values = Vec::with_capacity(alloc, words.len())?;
    for word in words {
        values.push(text_value(alloc, word.as_str())?)?;
    }
    Ok(Value::Array(values))
}

/// Puts a value at a key.
pub fn put_member(
    alloc: Global,
    members: &mut Map<String, Value>,
    key: &str,
    value: Value,
) -> Mem<()>
    ensures { OnOk result (members_view members.new.entries
        ≡ put key.now (view value) (members_view members.old.entries)) }
{
    drop(members.insert(String::from_str(alloc, key)?, value)?);
    Ok(())
}

// A test as a value.
fn test_value(alloc: Global, test: &PlanTest) -> Mem<Value>
    ensures { IfOk result (λ v. view v ≡ test_object test.now) }
{
    let mut members = Map::new(alloc);
    let binary = text_value(alloc, test.id.binary.as_str())?;
    put_member(alloc, &mut members, "binary", binary)?;
    let command = words_value(alloc, test.command.as_slice())?;
    put_member(alloc, &mut members, "command", command)?;
    let name = text_value(alloc, test.id.name.as_str())?;
    put_member(alloc, &mut members, "name", name)?;
    Ok(Value::Object(members))
}

// Tests as a value.
fn tests_value(alloc: Global, tests: &[PlanTest]) -> Mem<Value>
    ensures { IfOk result (λ v. view v ≡ array_of test_object tests.now) }
{
    let mut values = Vec::with_capacity(alloc, tests.len())?;
    for test in tests {
        values.push(test_value(alloc, test)?)?;
    }
    Ok(Value::Array(values))
}

// The members before the tests.
fn head_members(alloc: Global, run_id: Uuid) -> Mem<Map<String, Value>>
    ensures is { IfOk result (λ ms. members_view ms.entries ≡ head_members run_id) }
    ensures parsed { IfOk result (λ ms. Some run_id ≡ parsed (hyphenated_text lower run_id)) }
{
    let mut members = Map::new(alloc);
    let capture = text_value(alloc, "combined")?;
    put_member(alloc, &mut members, "capture", capture)?;
    let input = text_value(alloc, "noop")?;
    put_member(alloc, &mut members, "input", input)?;
    let run_id = id_value(alloc, run_id)?;
    put_member(alloc, &mut members, "run_id", run_id)?;
    Ok(members)
}

/// The plan line as a value. The text of its run's id is parsed as that id.
pub fn line_value(alloc: Global, threads: u32, plan: &Plan) -> Mem<Value>
    ensures is { IfOk result (λ v. view v ≡ wave_object threads plan.now.head.run_id plan.now.tests) }
    ensures parsed { IfOk result (λ v. Some plan.now.head.run_id
        ≡ parsed (hyphenated_text lower plan.now.head.run_id)) }
{
    let mut members = head_members(alloc, plan.head.run_id)?;
    let tests = tests_value(alloc, plan.tests.as_slice())?;
    put_member(alloc, &mut members, "tests", tests)?;
    put_member(alloc, &mut members, "threads", Value::from(threads as u64))?;
    Ok(Value::Object(members))
}
