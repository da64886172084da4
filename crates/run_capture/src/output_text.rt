// A child's output as texts, and these as a value of JSON.
ghost use Rattle.std.specs.Prelude.{◌≡◌, IfOk, option_map, codes};
ghost use Rattle.run_capture.specs.declared.test_output.ChildOutput.TheVariants.{Split};
ghost use Rattle.hex.specs.Hex.{encode_lower};
ghost use Rattle.serde_json.specs.View.{view, members_view};
ghost use Rattle.run_capture.specs.OutputText.{described, put_text, data_of, is_key, has_only_texts, is_description};
ghost use Rattle.run_capture.specs.OutputText.{text_at, of_data};

use crate::{Blob, ChildOutput, ChildSplitOutput, Duplicate, Mem, Text};
use serde_json::{Map, Value};
use std::alloc::Global;

/// A child's output as lower-case hex, of each stream that was captured.
#[derive(Debug, Drop)]
pub struct OutputText {
    pub stdout: Option<Text>,
    pub stderr: Option<Text>,
    pub combined: Option<Text>,
}

impl Duplicate for OutputText {
    fn copy(&self, alloc: Global) -> Mem<OutputText> {
        let stdout = self.stdout.copy(alloc)?;
        let stderr = self.stderr.copy(alloc)?;
        let combined = self.combined.copy(alloc)?;
        Ok(OutputText {
            stdout,
            stderr,
            combined,
        })
    }
}

fn hex_text(alloc: Global, bytes: &Blob) -> Mem<Text>
    ensures { IfOk result (λ text. text ≡ encode_lower bytes.now) }
{
    Ok(Text::from_string(hex::encode(alloc, bytes.as_slice())?))
}

fn hex_where(alloc: Global, bytes: &Option<Blob>) -> Mem<Option<Text>>
    ensures { IfOk result (λ text. text ≡ option_map encode_lower bytes.now) }
{
    match bytes {
        Some(bytes) => Ok(Some(hex_text(alloc, bytes)?)),
        None => Ok(None),
    }
}

fn describe_split(alloc: Global, split: &ChildSplitOutput) -> Mem<OutputText>
    ensures { IfOk result (λ text. text ≡ described (Split split.now)) }
{
    let stdout = hex_where(alloc, &split.stdout)?;
    let stderr = hex_where(alloc, &split.stderr)?;
    Ok(OutputText {
        stdout,
        stderr,
        combined: None,
    })
}

/// The output of each captured stream as hex.
pub(crate) fn describe_output(alloc: Global, output: &ChildOutput) -> Mem<OutputText>
    ensures { IfOk result (λ text. text ≡ described output.now) }
{
    match output {
        ChildOutput::Split(split) => describe_split(alloc, split),
        ChildOutput::Combined { output } => Ok(OutputText {
            combined: Some(hex_text(alloc, output)?),
            stdout: None,
            stderr: None,
        }),
    }
}

// Puts a text into an object, where it is there.
fn with_text(
    alloc: Global,
    mut members: Map<String, Value>,
    key: &str,
    text: &Option<Text>,
) -> Mem<Map<String, Value>>
    ensures { IfOk result (λ new. members_view new.entries ≡ put_text key.now text.now (members_view members.entries)) }
{
    if let Some(text) = text {
        let value = Value::try_from_str(alloc, text.as_str())?;
        serde_json::put(&mut members, alloc, key, value)?;
    }
    Ok(members)
}

/// The object of the texts that are there.
pub(crate) fn text_value(alloc: Global, text: &OutputText) -> Mem<Value>
    ensures { IfOk result (λ value. view value ≡ data_of text.now) }
{
    let members = with_text(alloc, Map::new(alloc), "combined", &text.combined)?;
    let members = with_text(alloc, members, "stderr", &text.stderr)?;
    let members = with_text(alloc, members, "stdout", &text.stdout)?;
    Ok(Value::Object(members))
}

fn is_stream_key(key: &str) -> bool
    ensures { result ≡ is_key key.now }
{
    key == "combined" || key == "stderr" || key == "stdout"
}

// Whether each member is the text of a stream.
fn are_texts(members: &Map<String, Value>) -> bool
    ensures { result ≡ has_only_texts (members_view members.now.entries) }
{
    for (key, value) in members.iter() {
        if !is_stream_key(key.as_str()) || value.as_str().is_none() {
            return false;
        }
    }
    true
}

fn is_text_object(value: &Value) -> bool
    ensures { result ≡ is_description (view value.now) }
{
    match value.as_object() {
        Some(members) => are_texts(members),
        None => false,
    }
}

// The text at a key.
fn text_of(alloc: Global, value: &Value, key: &str) -> Mem<Option<Text>>
    ensures { IfOk result (λ text. text ≡ text_at key.now (view value.now)) }
{
    match value.get(key).and_then(Value::as_str) {
        Some(text) => Ok(Some(Text::from_str(alloc, text)?)),
        None => Ok(None),
    }
}

fn texts_of(alloc: Global, value: &Value) -> Mem<OutputText>
    ensures stdout { IfOk result (λ text. text.stdout ≡ text_at (codes "stdout") (view value.now)) }
    ensures stderr { IfOk result (λ text. text.stderr ≡ text_at (codes "stderr") (view value.now)) }
    ensures combined { IfOk result (λ text. text.combined ≡ text_at (codes "combined") (view value.now)) }
{
    let stdout = text_of(alloc, value, "stdout")?;
    let stderr = text_of(alloc, value, "stderr")?;
    let combined = text_of(alloc, value, "combined")?;
    Ok(OutputText {
        stdout,
        stderr,
        combined,
    })
}

/// The texts that a value says, or none where it isn't an object of texts of streams alone.
pub(crate) fn read_text(alloc: Global, value: &Value) -> Mem<Option<OutputText>>
    ensures { IfOk result (λ text. text ≡ of_data (view value.now)) }
{
    if !is_text_object(value) {
        return Ok(None);
    }
    Ok(Some(texts_of(alloc, value)?))
}
