// A line as a JSON value.
ghost use Rattle.std.specs.Prelude.{◌≡◌, ◌⊎◌, Some, None, Ok, Err, IfOk, false, true};
ghost use Rattle.std.specs.Str.{IsUtf8};
ghost use Rattle.serde_json.specs.Read.{read};
ghost use Rattle.serde_json.specs.View.{view};
ghost use Rattle.serde_json.specs.Written.{has_float};
ghost use Rattle.run_input.specs.ValueOf.{json_value};
ghost use Rattle.run_input.specs.declared.errors.LineError.TheVariants as errors;

use crate::floats::value_has_float;
use crate::misfit::Wrong;
use crate::not_json::not_json;
use crate::refusal::Refusal;
use serde_json::Value;
use std::alloc::{AllocError, Global};

/// Reads a line as a JSON value, which may have a float in it.
pub fn parse(alloc: Global, line: &[u8]) -> Result<Value, Refusal>
    ensures ok { IfOk result (λ v. IsUtf8 line.now × (read line.now ≡ Some (view v))) }
    ensures refused { result ≡ Err errors.NotInTable → json_value line.now ≡ None }
{
    match Value::from_slice(alloc, line) {
        Ok(value) => Ok(value),
        Err(e) if e.is_memory() => Err(Refusal::from(AllocError)),
        Err(e) => Err(Refusal::of(alloc, not_json(line, &e))),
    }
}

/// What was read of a value, where no float stands anywhere in it.
pub fn unless_float<T: Drop>(
    alloc: Global,
    value: &Value,
    said: Result<T, Refusal>,
) -> Result<T, Refusal>
    ensures plain { has_float (view value.now) ≡ false → result ≡ said }
    ensures float { has_float (view value.now) ≡ true
        → (result ≡ Err errors.NotInTable) ⊎ (result ≡ Err errors.OutOfMemory) }
{
    match said {
        Ok(x) => {
            if value_has_float(value) {
                drop(x);
                Err(Refusal::of(alloc, Wrong::Float))
            } else {
                Ok(x)
            }
        }
        Err(refusal) => Err(refusal),
    }
}

/// Reads a line as a JSON value with no float in it.
pub fn read_value(alloc: Global, line: &[u8]) -> Result<Value, Refusal>
    ensures ok { IfOk result (λ v. json_value line.now ≡ Some (view v)) }
    ensures refused { result ≡ Err errors.NotInTable → json_value line.now ≡ None }
{
    let value = parse(alloc, line)?;
    if value_has_float(&value) {
        return Err(Refusal::of(alloc, Wrong::Float));
    }
    Ok(value)
}
