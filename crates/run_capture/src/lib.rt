//! The lowest layer: texts, bytes and lists whose contracts see their contents alone, want of memory
//! as an error, copies, and the outside as traits: a `Source` of bytes and a `Sink` for them, with
//! implementations in memory and over the streams of std, and `read_to_end`. On these stand the capture
//! of a child's output (`ChildAccumulator`, which contracts see as `Captured`) and the kinds of results
//! with what they say of an output. The layers above use these types in every signature.
#![tactic(auto)]

mod accumulator;
mod blob;
mod boxed;
mod child_output_mut;
mod duplicate;
mod ended;
mod laws;
mod list;
mod memory;
mod memory_sink;
mod memory_source;
mod output_spec;
mod output_text;
mod reading;
mod shared;
mod sink;
mod source;
mod std_sink;
mod std_source;
mod test_output;
mod text;
mod whole;

pub use accumulator::ChildAccumulator;
pub use blob::Blob;
pub use boxed::Boxed;
pub use child_output_mut::ChildOutputMut;
pub use duplicate::{Duplicate, with_copies};
pub use laws::output_is_what_was_heard;
pub use list::List;
pub use memory::{Mem, OutOfMemory};
pub use memory_sink::MemorySink;
pub use memory_source::MemorySource;
pub use output_spec::{LiveSpec, OutputSpec, RecordingSpec, SerializableOutputSpec};
pub use output_text::OutputText;
pub use reading::{ReadError, read_to_end};
pub use shared::Shared;
pub use sink::{Sink, write_all};
pub use source::{Failed, Source};
pub use std_sink::StdSink;
pub use std_source::StdSource;
pub use test_output::{CaptureStrategy, ChildFdError, ChildOutput, ChildSplitOutput, Stream};
pub use text::Text;
pub use whole::Whole;
