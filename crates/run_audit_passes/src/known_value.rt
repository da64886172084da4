// A JSON value, or none, by its compact text.
ghost use Rattle.std.specs.Prelude.{◌≡◌, IfOk, IfSome, Some, option_map};
ghost use Rattle.std.specs.Option.{option_eq};
ghost use Rattle.serde_json.specs.Read.{read};
ghost use Rattle.serde_json.specs.View.{view};
ghost use Rattle.serde_json.specs.Written.{compact_text};
ghost use Rattle.run_audit_machines.specs.SameData.{same_data};
ghost use Rattle.run_audit_passes.specs.Texts.{HasOwnText, known_value_in};

use run_capture::{Mem, Text};
use serde_json::Value;
use std::alloc::Global;
use std::marker::Model;

/// A JSON value with no float, or none, kept as its compact text.
#[derive(Drop)]
pub struct KnownValue {
    text: Option<Text>,
}

impl Model for KnownValue {
    ghost use Rattle.std.specs.Prelude.{ℕ, List, Option, IfSome};
    ghost use Rattle.run_audit_passes.specs.Texts.{IsOwnText};

    ghost Value = { Option (List ℕ) };

    ghost view = { λ v. v.text };

    ghost invariant = { λ v. IfSome v.text IsOwnText };
}

/// The compact text of a value.
fn text_of(alloc: Global, value: &Value) -> Mem<Text>
    requires { HasOwnText (view value.now) }
    ensures text { IfOk result (λ text. text ≡ compact_text (view value.now)) }
    ensures read { IfOk result (λ text. read text ≡ Some (view value.now)) }
{
    Ok(Text::from_string(value.to_string(alloc)?))
}

impl KnownValue {
    /// Of this value, or of none.
    pub fn of(alloc: Global, value: Option<&Value>) -> Mem<Self>
        requires { IfSome value (λ v. HasOwnText (view v.now)) }
        ensures { IfOk result (λ known. known_value_in known ≡ option_map (λ v. view v.now) value.entry) }
    {
        let text = match value {
            Some(value) => Some(text_of(alloc, value)?),
            None => None,
        };
        Ok(KnownValue { text })
    }

    /// Whether the other is the same value, or both are none.
    pub fn is_same(&self, other: &KnownValue) -> bool
        ensures { result ≡ option_eq same_data (known_value_in self.now) (known_value_in other.now) }
    {
        match (&self.text, &other.text) {
            (Some(own), Some(text)) => own == text,
            (None, None) => true,
            _ => false,
        }
    }
}
