// The capture of a child's output, and its descriptions.
ghost use Rattle.std.specs.Prelude.{◌≡◌, Some, IfOk};

use crate::rows::{MEMORY, holds, text};
use run_capture::{
    CaptureStrategy, ChildAccumulator, ChildFdError, ChildOutput, Mem, OutputText, RecordingSpec,
    SerializableOutputSpec, Stream, Text,
};
use serde_json::Value;
use std::alloc::Global;
use std::process::Abort;

fn child(rt: &impl Abort, alloc: Global, strategy: CaptureStrategy) -> ChildAccumulator {
    ChildAccumulator::new(alloc, strategy).expect(rt, MEMORY)
}

// A piece of a stream that goes on is taken.
fn hear(rt: &impl Abort, alloc: Global, child: &mut ChildAccumulator, stream: Stream, text: &str) {
    let bytes = text.as_bytes();
    if bytes.is_empty() || !child.takes(stream) {
        rt.abort();
    }
    child.piece(alloc, stream, bytes).expect(rt, MEMORY);
}

// Whether a stream ends that goes on.
fn ends(child: &mut ChildAccumulator, stream: Stream) -> bool {
    if !child.takes(stream) {
        return false;
    }
    child.end(stream);
    !child.takes(stream)
}

// Whether a stream that goes on can't be read on.
fn fails(rt: &impl Abort, alloc: Global, child: &mut ChildAccumulator, stream: Stream) -> bool {
    if !child.takes(stream) {
        return false;
    }
    child
        .error(alloc, stream, text(rt, alloc, "gone"))
        .expect(rt, MEMORY);
    !child.takes(stream)
}

fn has_lengths(child: &ChildAccumulator, stdout: Option<u64>, stderr: Option<u64>) -> bool {
    child.output().stdout_stderr_len() == (stdout, stderr)
}

fn is_read_error(errors: &[ChildFdError]) -> bool {
    match errors {
        [ChildFdError::ReadStderr(text)] => text.as_str() == "gone",
        _ => false,
    }
}

// The hex of a stream, or a dash.
fn shown(text: &Option<Text>) -> &str {
    match text {
        Some(text) => text.as_str(),
        None => "-",
    }
}

// The hex of standard output, of standard error and of both in one.
fn is_text(text: &OutputText, wanted: &[&str; 3]) -> bool {
    shown(&text.stdout) == wanted[0]
        && shown(&text.stderr) == wanted[1]
        && shown(&text.combined) == wanted[2]
}

// A description comes back from its value, for any kind of results.
fn comes_back<S: SerializableOutputSpec>(
    alloc: Global,
    desc: &S::ChildOutputDesc,
) -> Mem<Option<S::ChildOutputDesc>>
    ensures { IfOk result (λ back. back ≡ Some desc.now) }
{
    let value = S::to_value(alloc, desc)?;
    S::from_value(alloc, &value)
}

fn comes_back_as(alloc: Global, text: &OutputText, wanted: &[&str; 3]) -> bool {
    match comes_back::<RecordingSpec>(alloc, text) {
        Ok(Some(back)) => is_text(&back, wanted),
        _ => false,
    }
}

// Whether an output is described so, once its description came back from its value.
fn describes(rt: &impl Abort, alloc: Global, output: &ChildOutput, wanted: &[&str; 3]) -> bool {
    let text = RecordingSpec::describe(alloc, output).expect(rt, MEMORY);
    comes_back_as(alloc, &text, wanted)
}

const SPLIT: [&str; 3] = ["68656c6c6f", "", "-"];

const COMBINED: [&str; 3] = ["-", "-", "68656c6c6f"];

fn snapshot_describes(rt: &impl Abort, alloc: Global, child: &ChildAccumulator) -> bool {
    let output = child.output().snapshot(alloc).expect(rt, MEMORY);
    describes(rt, alloc, &output, &SPLIT)
}

// Both streams end, standard error by an error.
fn both_end(rt: &impl Abort, alloc: Global, child: &mut ChildAccumulator) -> bool {
    let first = ends(child, Stream::Stdout) && !child.is_done();
    let second = fails(rt, alloc, child, Stream::Stderr) && child.is_done();
    first && second && is_read_error(child.errors())
}

fn hears_split(rt: &impl Abort, alloc: Global, child: &mut ChildAccumulator) -> bool {
    hear(rt, alloc, child, Stream::Stdout, "he");
    hear(rt, alloc, child, Stream::Stdout, "llo");
    let heard = has_lengths(child, Some(5), Some(0)) && snapshot_describes(rt, alloc, child);
    heard && both_end(rt, alloc, child)
}

// Standard output and standard error, each by itself.
fn captures_split(rt: &impl Abort, alloc: Global) -> bool {
    let mut child = child(rt, alloc, CaptureStrategy::Split);
    let heard = hears_split(rt, alloc, &mut child);
    let (output, errors) = child.freeze();
    heard && is_read_error(errors.as_slice()) && describes(rt, alloc, &output, &SPLIT)
}

// Both streams in one, of which none is left apart.
fn captures_combined(rt: &impl Abort, alloc: Global) -> bool {
    let mut child = child(rt, alloc, CaptureStrategy::Combined);
    hear(rt, alloc, &mut child, Stream::Combined, "hello");
    let heard = has_lengths(&child, Some(5), None);
    let (output, _) = child.freeze();
    heard && describes(rt, alloc, &output, &COMBINED)
}

// Where nothing is captured it is done at once.
fn captures_nothing(rt: &impl Abort, alloc: Global) -> bool {
    child(rt, alloc, CaptureStrategy::None).is_done()
}

// Standard error alone.
fn captures_stderr(rt: &impl Abort, alloc: Global) -> bool {
    let child = ChildAccumulator::new_split(alloc, false, true).expect(rt, MEMORY);
    !child.takes(Stream::Stdout)
        && child.takes(Stream::Stderr)
        && has_lengths(&child, None, Some(0))
}

#[test]
fn captures_output(rt: HostRuntime) {
    let alloc = rt.alloc();
    holds(&rt, "split", captures_split(&rt, alloc));
    holds(&rt, "combined", captures_combined(&rt, alloc));
    holds(&rt, "none", captures_nothing(&rt, alloc));
    holds(&rt, "stderr", captures_stderr(&rt, alloc));
}

fn is_read(rt: &impl Abort, alloc: Global, value: &Value) -> bool {
    let read = RecordingSpec::from_value(alloc, value).expect(rt, MEMORY);
    read.is_some()
}

// Whether a line is the value of a description.
fn is_description(rt: &impl Abort, alloc: Global, line: &str) -> bool {
    is_read(rt, alloc, &Value::from_str(alloc, line).expect(rt, line))
}

// Lines, and whether they are values of descriptions.
const LINES: [(&str, bool); 5] = [
    ("{}", true),
    (r#"{"stdout":"61","combined":""}"#, true),
    (r#"{"stdout":null}"#, false),
    (r#"{"stdout":"61","other":"61"}"#, false),
    ("[]", false),
];

#[test]
fn reads_descriptions(rt: HostRuntime) {
    for (line, described) in &LINES {
        let read = is_description(&rt, rt.alloc(), line);
        holds(&rt, line, read == *described);
    }
}
