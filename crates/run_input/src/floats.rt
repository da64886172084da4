// Whether a value has a number that is no integer of 64 bits.
ghost use Rattle.std.specs.Prelude.{◌≡◌};
ghost use Rattle.serde_json.specs.View.{view, items_view, members_view};
ghost use Rattle.serde_json.specs.Written.{has_float, items_have_float, members_have_float};

use serde_json::{Map, Value};

/// Whether a float stands anywhere in a value.
#[cycle(floats)]
pub fn value_has_float(value: &Value) -> bool
    ensures { result ≡ has_float (view value.now) }
{
    match value {
        Value::Null | Value::Bool(_) | Value::String(_) => false,
        Value::Number(number) => number.is_f64(),
        Value::Array(items) => any_float(items.as_slice()),
        Value::Object(members) => any_member_float(members),
    }
}

#[cycle(floats)]
fn any_float(items: &[Value]) -> bool
    ensures { result ≡ items_have_float (items_view items.now) }
{
    for item in items {
        if value_has_float(item) {
            return true;
        }
    }
    false
}

#[cycle(floats)]
fn any_member_float(members: &Map<String, Value>) -> bool
    ensures { result ≡ members_have_float (members_view members.now.entries) }
{
    for (_, member) in members.iter() {
        if value_has_float(member) {
            return true;
        }
    }
    false
}
