// What results of a run say of a child's output: the output itself, or its texts.
ghost use Rattle.std.specs.Prelude.{◌≡◌, IfOk, Option, Some};
ghost use Rattle.serde_json.specs.Data.{Data};
ghost use Rattle.serde_json.specs.View.{view};
ghost use Rattle.run_capture.specs.OutputText.{described, data_of, of_data, of_data-data_of};

use crate::output_text::{OutputText, describe_output, read_text, text_value};
use crate::{ChildOutput, Mem};
use serde_json::Value;
use std::alloc::Global;

/// A kind of results.
pub trait OutputSpec {
    /// What they say of a child's output.
    type ChildOutputDesc;
}

/// The results of a run as it goes on: they have each child's output.
pub struct LiveSpec;

impl OutputSpec for LiveSpec {
    type ChildOutputDesc = ChildOutput;
}

/// Results that are written down: they have each child's output as texts.
pub struct RecordingSpec;

impl OutputSpec for RecordingSpec {
    type ChildOutputDesc = OutputText;
}

impl RecordingSpec {
    /// The output of each captured stream as lower-case hex.
    pub fn describe(alloc: Global, output: &ChildOutput) -> Mem<OutputText>
        ensures { IfOk result (λ text. text ≡ described output.now) }
    {
        describe_output(alloc, output)
    }
}

/// A kind of results whose descriptions are values of JSON.
pub trait SerializableOutputSpec: OutputSpec {
    /// What a description is as a value.
    ghost data_of: { Self.ChildOutputDesc → Data };

    /// The description that a value is, where it is one.
    ghost of_data: { Data → Option Self.ChildOutputDesc };

    /// A description as a value.
    fn to_value(alloc: Global, desc: &Self::ChildOutputDesc) -> Mem<Value>
        ensures { IfOk result (λ value. view value ≡ data_of desc.now) };

    /// The description that a value is, or none where it is none.
    fn from_value(alloc: Global, value: &Value) -> Mem<Option<Self::ChildOutputDesc>>
        ensures { IfOk result (λ desc. desc ≡ of_data (view value.now)) };

    /// Each description is what its value says.
    ghost back: { (desc : Self.ChildOutputDesc) → of_data (data_of desc) ≡ Some desc };
}

impl SerializableOutputSpec for RecordingSpec {
    ghost data_of = { data_of };

    ghost of_data = { of_data };

    ghost back = { of_data-data_of };

    fn to_value(alloc: Global, desc: &OutputText) -> Mem<Value> {
        text_value(alloc, desc)
    }

    fn from_value(alloc: Global, value: &Value) -> Mem<Option<OutputText>> {
        read_text(alloc, value)
    }
}
