// A status whose text is known.
ghost use Rattle.std.specs.Prelude.{◌≡◌, ◌++◌, ◌∷◌, [], IfOk, IfSome, OnOk, codes, map, option_map};
ghost use lib.Pointwise.{pointwise};
ghost use Rattle.std.specs.Option.{option_eq};
ghost use Rattle.serde_json.specs.Find.{get};
ghost use Rattle.serde_json.specs.View.{view};
ghost use Rattle.run_audit_machines.specs.SameData.{same_compared, same_data};
ghost use Rattle.run_audit_model.specs.Statuses.{compared, compared_in};
ghost use Rattle.run_audit_passes.specs.Texts.{HasOwnText, known_compared, known_value_in};
ghost use Rattle.run_input.specs.ValueOf.{json_value};

use crate::{DueStatus, KnownValue};
use run_capture::{Mem, OutOfMemory, Text};
use run_input::{LineError, read_value};
use serde_json::Value;
use std::alloc::Global;
use std::marker::Model;

/// What is compared of a status, by its text: the values that stand at the keys which are compared, or nothing where
/// the text is no JSON value.
#[derive(Drop)]
pub struct KnownStatus {
    alloc: Global,
    values: Option<Vec<KnownValue>>,
}

impl Model for KnownStatus {
    ghost use Rattle.std.specs.Prelude.{ℕ, List, Option, option_map};

    ghost Value = { Option (List (Option (List ℕ))) };

    ghost view = { λ s. option_map (λ v. v.items) s.values };
}

/// The value of a text that has no float in it, if it has one.
fn value_of(alloc: Global, text: &[u8]) -> Mem<Option<Value>>
    ensures value { IfOk result (λ value. option_map (λ v. view v) value ≡ json_value text.now) }
    ensures own { IfOk result (λ value. IfSome value (λ v. HasOwnText (view v))) }
{
    match read_value(alloc, text) {
        Ok(value) => Ok(Some(value)),
        Err(refusal) => match refusal.error() {
            LineError::NotInTable => Ok(None),
            LineError::OutOfMemory => Err(OutOfMemory),
        },
    }
}

/// Adds what stands at a key.
fn push_at(alloc: Global, values: &mut Vec<KnownValue>, value: &Value, key: &str) -> Mem<()>
    requires { HasOwnText (view value.now) }
    ensures { IfOk result (λ done. map known_value_in values.new.items
        ≡ map known_value_in values.old.items ++ get key.now (view value.now) ∷ []) }
{
    let known = KnownValue::of(alloc, value.get(key))?;
    values.push(known)?;
    Ok(())
}

// What was written, by stream.
fn push_written(alloc: Global, values: &mut Vec<KnownValue>, value: &Value) -> Mem<()>
    requires { HasOwnText (view value.now) }
    ensures { OnOk result (map known_value_in values.new.items
        ≡ map known_value_in values.old.items ++ get (codes "stdout") (view value.now)
        ∷ get (codes "stderr") (view value.now) ∷ get (codes "combined") (view value.now) ∷ []) }
{
    push_at(alloc, values, value, "stdout")?;
    push_at(alloc, values, value, "stderr")?;
    push_at(alloc, values, value, "combined")
}

/// What stands at the keys that are compared.
fn values_in(alloc: Global, value: &Value) -> Mem<Vec<KnownValue>>
    requires { HasOwnText (view value.now) }
    ensures { IfOk result (λ values. map known_value_in values.items ≡ compared_in (view value.now)) }
{
    let mut values = Vec::new(alloc);
    push_at(alloc, &mut values, value, "result")?;
    push_written(alloc, &mut values, value)?;
    push_at(alloc, &mut values, value, "errors")?;
    push_at(alloc, &mut values, value, "start_error")?;
    push_at(alloc, &mut values, value, "time")?;
    Ok(values)
}

/// Whether two lists have the same values.
fn are_same(known: &[KnownValue], told: &[KnownValue]) -> bool
    ensures { result ≡ pointwise (option_eq same_data) (map known_value_in known.now) (map known_value_in told.now) }
{
    if known.len() != told.len() {
        return false;
    }
    for (place, value) in told.iter().enumerate() {
        if !known[place].is_same(value) {
            return false;
        }
    }
    true
}

impl KnownStatus {
    /// Of the status with this text.
    pub fn of(alloc: Global, text: &[u8]) -> Mem<Self>
        ensures { IfOk result (λ status. known_compared status ≡ compared text.now) }
    {
        let values = match value_of(alloc, text)? {
            Some(value) => Some(values_in(alloc, &value)?),
            None => None,
        };
        Ok(KnownStatus { alloc, values })
    }

    /// Whether the same is compared of two statuses.
    pub fn is_same(&self, other: &KnownStatus) -> bool
        ensures { result ≡ same_compared (known_compared self.now) (known_compared other.now) }
    {
        match (&self.values, &other.values) {
            (Some(own), Some(values)) => are_same(own.as_slice(), values.as_slice()),
            (None, None) => true,
            _ => false,
        }
    }
}

impl DueStatus for KnownStatus {
    ghost use Rattle.run_audit_machines.specs.SameData.{same_compared};
    ghost use Rattle.run_audit_machines.proofs.SameDataLemmas.{compared_decides};
    ghost use Rattle.run_audit_passes.specs.Texts.{known_compared};

    ghost status = { known_compared };

    ghost same = { same_compared };

    fn is_told_by(&self, text: &Text) -> Mem<bool> {
        let told = KnownStatus::of(self.alloc, text.as_bytes())?;
        Ok(self.is_same(&told))
    }

    ghost decides = { compared_decides };
}
