// Lines of objects of texts and numbers.
ghost use Rattle.std.specs.Prelude.{◌≡◌, IfOk, OnOk};
ghost use Rattle.serde_json.specs.View.{members_view, view};
ghost use Rattle.serde_json.specs.Data.{no_members};
ghost use Rattle.run_output.specs.Fields.{object_text, put_all, put_some, rows};
ghost use Rattle.run_jobs_cli.specs.Objects.{leaf_member, leaf_value};

use run_capture::{Mem, Text};
use serde_json::{Map, Value};
use std::alloc::Global;

/// What stands at a key.
#[derive(Clone, Copy, Drop)]
pub enum Leaf<'a> {
    Word(&'a str),
    Number(u64),
}

// The value of a leaf.
fn value_of(alloc: Global, leaf: Leaf<'_>) -> Mem<Value>
    ensures { IfOk result (λ value. view value ≡ leaf_value leaf.entry) }
{
    match leaf {
        Leaf::Word(word) => Ok(Value::try_from_str(alloc, word)?),
        Leaf::Number(number) => Ok(Value::from(number)),
    }
}

// Puts a leaf at a key.
fn put_leaf(alloc: Global, members: &mut Map<String, Value>, key: &str, leaf: Leaf<'_>) -> Mem<()>
    ensures { OnOk result (members_view members.new.entries
        ≡ put_some key.now (leaf_member leaf.entry) (members_view members.old.entries)) }
{
    let value = value_of(alloc, leaf)?;
    let key = String::from_str(alloc, key)?;
    drop(members.insert(key, value)?);
    Ok(())
}

// The members of these fields.
fn members_of(alloc: Global, fields: &[(&'static str, Leaf<'_>)]) -> Mem<Map<String, Value>>
    ensures { IfOk result (λ members. members_view members.entries
        ≡ put_all (rows leaf_member fields.now) no_members) }
{
    let mut members = Map::new(alloc);
    for (key, leaf) in fields {
        put_leaf(alloc, &mut members, key, *leaf)?;
    }
    Ok(members)
}

/// The text of the object of these fields: with no space, and its keys in byte order.
pub fn object_line(alloc: Global, fields: &[(&'static str, Leaf<'_>)]) -> Mem<Text>
    ensures { IfOk result (λ text. text ≡ object_text (rows leaf_member fields.now)) }
{
    let members = members_of(alloc, fields)?;
    let value = Value::Object(members);
    let text = value.to_string(alloc)?;
    Ok(Text::from_string(text))
}
