// The reporter of lines as the layers above call it: by its trait alone, and over a sink.
ghost use Rattle.std.specs.Prelude.{◌≡◌, IsOk};
ghost use Rattle.run_events.specs.Tell.{answered, Adds};

use crate::lines::{answer, script};
use crate::rows::{MEMORY, holds, text};
use run_capture::{Blob, ChildOutput, ChildSplitOutput, Failed, List, MemorySink, Sink, Text};
use run_events::{ReportFault, Reporter, ReporterEvent};
use run_output::LineReporter;
use std::alloc::Global;
use std::process::Abort;

// Stands for the engine: it knows any reporter by its trait alone.
fn tells_one<R: Reporter>(
    report: &mut R,
    alloc: Global,
    event: &ReporterEvent,
) -> Result<(), ReportFault<R::Error>>
    ensures told { Adds R.told report.old report.new (answered event.now result) }
    ensures faults { R.faults report.old ≡ 0 → IsOk result → R.faults report.new ≡ 0 }
{
    report.report(alloc, event)
}

// Stands for the program, which makes the reporter over its sink, and takes the sink back.
fn written<K: Sink>(
    alloc: Global,
    sink: K,
    event: &ReporterEvent,
) -> (K, Result<(), ReportFault<Failed>>) {
    let mut reporter = LineReporter::new(sink);
    let answer = tells_one(&mut reporter, alloc, event);
    (reporter.into_sink(), answer)
}

// Two ticks into a sink, where the first is taken and the second refused.
fn tells_two<K: Sink>(alloc: Global, sink: K) -> (K, bool) {
    let (sink, first) = written(alloc, sink, &ReporterEvent::Tick);
    let (sink, second) = written(alloc, sink, &ReporterEvent::Tick);
    let as_wanted = first.is_ok() && second == Err(ReportFault::Refused(Failed));
    (sink, as_wanted)
}

// What a sink with room for twenty bytes took of them.
fn takes_two(rt: &impl Abort, alloc: Global) -> bool {
    let room = MemorySink::new(alloc, 20, 7, List::new()).expect(rt, MEMORY);
    let (sink, as_wanted) = tells_two(alloc, room);
    as_wanted && sink.bytes() == b"{\"event\":\"tick\"}\n{\"e".as_slice()
}

#[test]
fn written_lines(rt: HostRuntime) {
    holds(&rt, "two ticks", takes_two(&rt, rt.alloc()));
}

// Two bytes, so many times.
fn output(rt: &impl Abort, alloc: Global, count: usize) -> Blob {
    let mut bytes = Blob::new(alloc);
    for _ in 0..count {
        bytes.extend_from_slice(alloc, b"\n\xff").expect(rt, MEMORY);
    }
    bytes
}

// The answer of a script that has written so much to standard error and to standard output.
fn long_event(rt: &impl Abort, alloc: Global, stderr: usize, stdout: usize) -> ReporterEvent {
    let split = ChildSplitOutput {
        stdout: Some(output(rt, alloc, stdout)),
        stderr: Some(output(rt, alloc, stderr)),
    };
    answer(script(rt, alloc), ChildOutput::Split(split))
}

fn add(rt: &impl Abort, alloc: Global, line: &mut Text, part: &str, count: usize) {
    for _ in 0..count {
        line.push_str(alloc, part).expect(rt, MEMORY);
    }
}

const STDERR: &str = concat!(
    r#"{"clock":3,"elapsed":2,"event":"info-response","index":0,"#,
    r#""output":{"stderr":""#,
);

const STDOUT: &str = r#"","stdout":""#;

const END: &str = concat!(
    r#""},"script":"db","state":{"kind":"terminating","method":"kill","pid":100,"#,
    r#""reason":"signal","remaining":70,"time":8,"waiting":30},"#,
    r#""stress_index":{"current":1},"total":2}"#,
    "\n",
);

// Its line, with its line feed.
fn wanted(rt: &impl Abort, alloc: Global, stderr: usize, stdout: usize) -> Text {
    let mut line = text(rt, alloc, STDERR);
    add(rt, alloc, &mut line, "0aff", stderr);
    add(rt, alloc, &mut line, STDOUT, 1);
    add(rt, alloc, &mut line, "0aff", stdout);
    add(rt, alloc, &mut line, END, 1);
    line
}

// How often the two bytes were written to standard error and to standard output, and the room of the sink.
struct Told {
    row: &'static str,
    stderr: usize,
    stdout: usize,
    room: usize,
}

const TOLD: [Told; 6] = [
    Told {
        row: "short",
        stderr: 0,
        stdout: 2048,
        room: 30_000,
    },
    Told {
        row: "long",
        stderr: 1,
        stdout: 2049,
        room: 30_000,
    },
    Told {
        row: "both",
        stderr: 2049,
        stdout: 3000,
        room: 30_000,
    },
    Told {
        row: "fails before them",
        stderr: 2049,
        stdout: 3000,
        room: 40,
    },
    Told {
        row: "fails in the first",
        stderr: 2049,
        stdout: 3000,
        room: 5_000,
    },
    Told {
        row: "fails after them",
        stderr: 2049,
        stdout: 3000,
        room: 20_400,
    },
];

// A sink takes the line as far as it has room, and refuses the event where that is not all.
fn takes(rt: &impl Abort, alloc: Global, row: &Told, line: &[u8], event: &ReporterEvent) -> bool {
    let sink = MemorySink::new(alloc, row.room, 700, List::new()).expect(rt, MEMORY);
    let (sink, answer) = written(alloc, sink, event);
    let taken = row.room.min(line.len());
    answer.is_ok() == (taken == line.len()) && sink.bytes() == &line[..taken]
}

#[test]
fn long_outputs(rt: HostRuntime) {
    let alloc = rt.alloc();
    for row in &TOLD {
        let line = wanted(&rt, alloc, row.stderr, row.stdout);
        let event = long_event(&rt, alloc, row.stderr, row.stdout);
        holds(
            &rt,
            row.row,
            takes(&rt, alloc, row, line.as_bytes(), &event),
        );
    }
}
