// Values that stand at keys, and are left out where they are as usual.
ghost use Rattle.std.specs.Prelude.{◌≡◌, ◌<◌, ◌^◌, IfOk, IfSome, OnOk, option_map};
ghost use Rattle.serde_json.specs.Data.{put, string};
ghost use Rattle.serde_json.specs.View.{members_view, view};
ghost use Rattle.run_output.specs.Fields.{count, put_some, texts};
ghost use Rattle.run_plan_line.specs.PlanFields.{if_false, if_true, number_unless};

use run_capture::{Mem, Text};
use run_wave_line::{put_member, text_value, words_value};
use serde_json::{Map, Value};
use std::alloc::Global;

/// Puts a value at a key, where there is one.
pub fn put_some(
    alloc: Global,
    members: &mut Map<String, Value>,
    key: &str,
    value: Option<Value>,
) -> Mem<()>
    ensures { OnOk result (members_view members.new.entries
        ≡ put_some key.now (option_map view value) (members_view members.old.entries)) }
{
    match value {
        Some(value) => put_member(alloc, members, key, value),
        None => Ok(()),
    }
}

/// A number that is left out where it is the usual one.
pub fn number_unless(usual: u64, number: u64) -> Option<Value>
    ensures { option_map view result ≡ number_unless usual number }
{
    if number == usual {
        None
    } else {
        Some(Value::from(number))
    }
}

/// A number of 32 bits.
pub fn small(number: u32) -> u64
    ensures value { result ≡ number }
    ensures fits { number < 2 ^ 32 }
{
    number as u64
}

/// A number, where there is one.
pub fn number_of(number: Option<u64>) -> Option<Value>
    ensures { option_map view result ≡ option_map count number }
{
    match number {
        Some(number) => Some(Value::from(number)),
        None => None,
    }
}

/// The same of 32 bits.
pub fn count_of(number: Option<u32>) -> Option<Value>
    ensures is { option_map view result ≡ option_map count number }
    ensures fits { IfSome number (λ n. n < 2 ^ 32) }
{
    match number {
        Some(number) => Some(Value::from(small(number))),
        None => None,
    }
}

/// A truth value that is left out where it is false.
pub fn if_true(truth: bool) -> Option<Value>
    ensures { option_map view result ≡ if_true truth }
{
    match truth {
        true => Some(Value::Bool(true)),
        false => None,
    }
}

/// A truth value that is left out where it is true.
pub fn if_false(truth: bool) -> Option<Value>
    ensures { option_map view result ≡ if_false truth }
{
    match truth {
        true => None,
        false => Some(Value::Bool(false)),
    }
}

// A text, where there is one.
fn text_if_any(alloc: Global, text: &Option<Text>) -> Mem<Option<Value>>
    ensures { IfOk result (λ v. option_map view v ≡ option_map string text.now) }
{
    match text {
        Some(text) => Ok(Some(text_value(alloc, text.as_str())?)),
        None => Ok(None),
    }
}

/// Puts a text at a key.
pub fn put_text(alloc: Global, members: &mut Map<String, Value>, key: &str, text: &str) -> Mem<()>
    ensures { OnOk result (members_view members.new.entries
        ≡ put key.now (string text.now) (members_view members.old.entries)) }
{
    put_member(alloc, members, key, text_value(alloc, text)?)
}

/// Puts a text at a key, where there is one.
pub fn put_text_if_any(
    alloc: Global,
    members: &mut Map<String, Value>,
    key: &str,
    text: &Option<Text>,
) -> Mem<()>
    ensures { OnOk result (members_view members.new.entries
        ≡ put_some key.now (option_map string text.now) (members_view members.old.entries)) }
{
    put_some(alloc, members, key, text_if_any(alloc, text)?)
}

/// Puts words at a key.
pub fn put_words(
    alloc: Global,
    members: &mut Map<String, Value>,
    key: &str,
    words: &[Text],
) -> Mem<()>
    ensures { OnOk result (members_view members.new.entries
        ≡ put key.now (texts words.now) (members_view members.old.entries)) }
{
    put_member(alloc, members, key, words_value(alloc, words)?)
}
