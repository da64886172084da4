// The line of what shards come to, and its status.
ghost use Rattle.std.specs.Prelude.{◌≡◌, IfOk, codes};
ghost use Rattle.serde_json.specs.Data.{no_members, object, put, string};
ghost use Rattle.serde_json.specs.View.{members_view, view};
ghost use Rattle.run_output.specs.Fields.{count};
ghost use Rattle.run_output.specs.Texts.{test_data};
ghost use Rattle.run_rerun.specs.declared.answers.ShardsVerdict.TheVariants.{Whole};
ghost use Rattle.run_rerun.specs.ShardLines.{shards_status, shards_text, shards_value};

use crate::answers::ShardsVerdict;
use crate::made::{id_value, put_member};
use crate::plan_made::text_of;
use run_capture::{Mem, Text};
use run_events::TestInstanceId;
use serde_json::{Map, Value};
use std::alloc::Global;

// The members of an object of two.
fn members_of(
    alloc: Global,
    key: &str,
    value: Value,
    other_key: &str,
    other: Value,
) -> Mem<Map<String, Value>>
    ensures { IfOk result (λ members. members_view members.entries
        ≡ put other_key.now (view other) (put key.now (view value) no_members)) }
{
    let mut members = Map::new(alloc);
    drop(put_member(alloc, &mut members, key, value)?);
    drop(put_member(alloc, &mut members, other_key, other)?);
    Ok(members)
}

// The value of the line of the whole.
fn whole_value(alloc: Global, tests: u64, passed: u64) -> Mem<Value>
    ensures { IfOk result (λ v. view v ≡ shards_value (Whole tests passed)) }
{
    let word = Value::try_from_str(alloc, "whole")?;
    let mut members = members_of(alloc, "passed", Value::from(passed), "shards", word)?;
    drop(put_member(alloc, &mut members, "tests", Value::from(tests))?);
    Ok(Value::Object(members))
}

// The value of the line of a shard.
fn shard_value(alloc: Global, word: &str, shard: u64) -> Mem<Value>
    ensures { IfOk result (λ v. view v ≡ object (put (codes "shards") (string word.now)
        (put (codes "shard") (count shard) no_members))) }
{
    let word = Value::try_from_str(alloc, word)?;
    let members = members_of(alloc, "shard", Value::from(shard), "shards", word)?;
    Ok(Value::Object(members))
}

// The value of the line of a test.
fn test_value(alloc: Global, word: &str, id: &TestInstanceId) -> Mem<Value>
    ensures { IfOk result (λ v. view v ≡ object (put (codes "test") (test_data id.now)
        (put (codes "shards") (string word.now) no_members))) }
{
    let word = Value::try_from_str(alloc, word)?;
    let id = id_value(alloc, id)?;
    let members = members_of(alloc, "shards", word, "test", id)?;
    Ok(Value::Object(members))
}

// The value of the line of what shards come to.
fn value_of(alloc: Global, verdict: &ShardsVerdict) -> Mem<Value>
    ensures { IfOk result (λ v. view v ≡ shards_value verdict.now) }
{
    match verdict {
        ShardsVerdict::Whole { tests, passed } => whole_value(alloc, *tests, *passed),
        ShardsVerdict::Cut { shard } => shard_value(alloc, "cut", *shard),
        ShardsVerdict::Other { shard } => shard_value(alloc, "other", *shard),
        ShardsVerdict::Twice(id) => test_value(alloc, "twice", id),
        ShardsVerdict::Missing(id) => test_value(alloc, "missing", id),
    }
}

/// The line of what shards come to, without its line feed: with no space, and its keys in byte order.
pub fn shards_line(alloc: Global, verdict: &ShardsVerdict) -> Mem<Text>
    ensures { IfOk result (λ t. t ≡ shards_text verdict.now) }
{
    let value = value_of(alloc, verdict)?;
    let text = text_of(alloc, &value)?;
    Ok(text)
}

impl ShardsVerdict {
    /// The exit status that goes with its line.
    pub fn status(&self) -> u8
        ensures { result ≡ shards_status self.now }
    {
        match self {
            ShardsVerdict::Whole { tests, passed } => {
                if *tests == 0 {
                    4
                } else if *passed == *tests {
                    0
                } else {
                    100
                }
            }
            _ => 1,
        }
    }
}
