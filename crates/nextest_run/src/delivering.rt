// The command `run`: a plan whose signals are delivered, on real children and the lines of standard input, and told
// to a person.
ghost use Rattle.std.specs.Prelude.{◌≡◌, [], IfSome};

use crate::recording::{close, create, end_with, end_without_record};
use run_capture::{Blob, Sink};
use run_cli::{Ran, StdSink};
use run_junit::{JUnitReport, Pair};
use run_keep::{Halter, KeeperHost, Outside};
use run_keep_host::{FirstLineError, LineOutside, StdKeeperHost, StopHalter, TickingOutside};
use run_output::Fault;
use run_record::{RecordOutcome, Recorded, run_recorded};
use run_report::{BarReport, Board, Listener};
use run_whole::Around;
use run_whole_cli::run_plan;
use std::alloc::Global;
use std::fs::File;
use std::process;
use std::sync::Wait;
use std::thread::Threads;
use std::time::Clock;

/// After so many nanoseconds a bar is drawn anew.
const TICK: u64 = 100_000_000;

/// The line of the plan, how its run ended, and whether standard error has said why already.
pub struct Delivered<K> {
    pub line: Blob,
    pub ran: Ran<K>,
    pub said: bool,
}

// The fault that there is no line.
fn fault_of(error: FirstLineError) -> Fault {
    match error {
        FirstLineError::Read => Fault::Read,
        FirstLineError::TooLong => Fault::TooLong,
        FirstLineError::OutOfMemory => Fault::Memory,
    }
}

// How a run ended whose plan line isn't there.
fn unread<K: Sink>(alloc: Global, sink: K, error: FirstLineError) -> Delivered<K> {
    Delivered {
        line: Blob::new(alloc),
        ran: end_with(alloc, sink, fault_of(error)),
        said: false,
    }
}

// Who stops the program beside its outside.
fn around<O>(rt: HostRuntime, outside: O) -> Around<O, StopHalter<HostRuntime>>
    ensures { result.outside ≡ outside }
{
    let halter = StopHalter::new(rt, process::id(rt.process()));
    Around { outside, halter }
}

// Runs the plan of a line on a host, which isn't needed any more then.
fn run_on<
    K: Sink + Send,
    B: Listener + Send,
    H: KeeperHost + Drop,
    O: Outside + Send + Drop,
    S: Halter + Send + Drop,
    X: Threads + Wait + Sync,
>(
    threads: &X,
    alloc: Global,
    line: &Blob,
    sink: K,
    report: B,
    host: H,
    around: Around<O, S>,
) -> (Ran<K>, B)
    requires unheard { B.heard report [] }
    requires untaken { B.taken report [] }
    requires quiet { O.has_come around.outside [] }
    requires runs { S.has_halted around.halter 0 }
{
    let mut host = host;
    let line = line.as_slice();
    let (ran, left, report) = run_plan(threads, alloc, line, sink, report, &mut host, around);
    drop(left);
    (ran, report)
}

// Runs the plan of a line.
fn run_line<
    K: Sink + Send,
    B: Listener + Send,
    O: Outside + Send + Drop,
    X: Threads + Wait + Clock + Sync + Send + Copy + Drop,
>(threads: &X, rt: HostRuntime, line: &Blob, outside: O, sink: K, report: B) -> (Ran<K>, B)
    requires unheard { B.heard report [] }
    requires untaken { B.taken report [] }
    requires quiet { O.has_come outside [] }
{
    let host = StdKeeperHost::new(rt, *threads, rt.alloc());
    let around = around(rt, host.paced(outside));
    run_on(threads, rt.alloc(), line, sink, report, host, around)
}

// A run that was recorded: how it ended, its own status, what became of its record, and its report.
struct InRecord<K, B> {
    ran: Ran<K>,
    own: u8,
    outcome: RecordOutcome,
    report: B,
}

// Runs the plan of a line on a host, which isn't needed any more then, and records it.
fn record_on<
    K: Sink + Send,
    F: Sink + Send + Drop,
    B: Listener + Send,
    H: KeeperHost + Drop,
    O: Outside + Send + Drop,
    S: Halter + Send + Drop,
    X: Threads + Wait + Sync,
>(
    threads: &X,
    alloc: Global,
    line: &Blob,
    sink: K,
    file: F,
    report: B,
    host: H,
    around: Around<O, S>,
) -> InRecord<K, B>
    requires unheard { B.heard report [] }
    requires quiet { O.has_come around.outside [] }
    requires runs { S.has_halted around.halter 0 }
{
    let mut host = host;
    let line = line.as_slice();
    let Recorded {
        ran,
        own,
        outcome,
        store,
        left,
        report,
    } = run_recorded(threads, alloc, line, sink, file, report, &mut host, around);
    drop(left);
    drop(store);
    InRecord {
        ran,
        own,
        outcome,
        report,
    }
}

// Runs the plan of a line, and records it in a file.
fn run_line_in<
    K: Sink + Send,
    B: Listener + Send,
    O: Outside + Send + Drop,
    X: Threads + Wait + Clock + Sync + Send + Copy + Drop,
>(
    threads: &X,
    rt: HostRuntime,
    line: &Blob,
    outside: O,
    sink: K,
    report: B,
    file: StdSink<File>,
) -> InRecord<K, B>
    requires unheard { B.heard report [] }
    requires quiet { O.has_come outside [] }
{
    let host = StdKeeperHost::new(rt, *threads, rt.alloc());
    let around = around(rt, host.paced(outside));
    record_on(threads, rt.alloc(), line, sink, file, report, host, around)
}

// Runs the plan of a line, and records it in a new file. Answers also whether it was said that there is no file.
fn run_line_recorded<
    K: Sink + Send,
    B: Listener + Send,
    O: Outside + Send + Drop,
    X: Threads + Wait + Clock + Sync + Send + Copy + Drop,
>(
    threads: &X,
    rt: HostRuntime,
    line: &Blob,
    outside: O,
    sink: K,
    report: B,
    name: &str,
) -> (Ran<K>, bool, B)
    requires unheard { B.heard report [] }
    requires quiet { O.has_come outside [] }
{
    match create(&rt, name) {
        Ok(file) => {
            let InRecord {
                ran,
                own,
                outcome,
                report,
            } = run_line_in(threads, rt, line, outside, sink, report, file);
            close(&rt, name, outcome, own);
            (ran, false, report)
        }
        Err(error) => {
            let ran = end_without_record(&rt, rt.alloc(), sink, name, &error);
            (ran, true, report)
        }
    }
}

// Runs the plan of a line; with the name of a record it is recorded. Answers also whether it was said that there is no
// file.
fn run_plan_line<
    K: Sink + Send,
    B: Listener + Send,
    O: Outside + Send + Drop,
    X: Threads + Wait + Clock + Sync + Send + Copy + Drop,
>(
    threads: &X,
    rt: HostRuntime,
    line: &Blob,
    outside: O,
    sink: K,
    report: B,
    record: Option<&str>,
) -> (Ran<K>, bool, B)
    requires unheard { B.heard report [] }
    requires untaken { B.taken report [] }
    requires quiet { O.has_come outside [] }
{
    match record {
        Some(name) => run_line_recorded(threads, rt, line, outside, sink, report, name),
        None => {
            let (ran, report) = run_line(threads, rt, line, outside, sink, report);
            (ran, false, report)
        }
    }
}

// After how many nanoseconds a tick comes, where there is a bar.
fn ticks(bar: Option<u32>) -> Option<u64> {
    match bar {
        Some(_) => Some(TICK),
        None => None,
    }
}

/// How a run ended whose signals were delivered, and who listened to it.
pub struct Listened<K, A> {
    pub delivered: Delivered<K>,
    pub report: A,
    pub junit: Option<JUnitReport>,
}

// Runs the plan of a line, whose later lines an outside hears, and hands back who listened.
fn deliver<
    K: Sink + Send,
    A: Board + Send,
    O: Outside + Send + Drop,
    X: Threads + Wait + Clock + Sync + Send + Copy + Drop,
>(
    threads: &X,
    rt: HostRuntime,
    line: Blob,
    lines: O,
    sink: K,
    report: A,
    bar: Option<u32>,
    junit: Option<JUnitReport>,
    record: Option<&str>,
) -> Listened<K, A>
    requires report { A.heard report [] }
    requires junit { IfSome junit (λ j. ⟦<JUnitReport as Listener>⟧.heard j []) }
    requires quiet { O.has_come lines [] }
{
    let both = Pair::new(BarReport::new(report, *threads, bar), junit);
    let outside = TickingOutside::new(lines, *threads, ticks(bar));
    let (ran, said, both) = run_plan_line(threads, rt, &line, outside, sink, both, record);
    let (report, junit) = both.into_parts();
    Listened {
        delivered: Delivered { line, ran, said },
        report: report.into_report(),
        junit,
    }
}

/// Reads the plan line from standard input, and runs its plan: each later line is a signal or a key that it hears. With
/// the name of a record it is recorded in a new file of that name. The report hears its events, with a bar for a
/// terminal of this width, if one is wanted, and so does who keeps its cases; both are handed back.
pub fn run_and_deliver<
    K: Sink + Send,
    A: Board + Send,
    X: Threads + Wait + Clock + Sync + Send + Copy + Drop,
>(
    threads: &X,
    rt: HostRuntime,
    sink: K,
    report: A,
    bar: Option<u32>,
    junit: Option<JUnitReport>,
    record: Option<&str>,
) -> Listened<K, A>
    requires report { A.heard report [] }
    requires junit { IfSome junit (λ j. ⟦<JUnitReport as Listener>⟧.heard j []) }
{
    let alloc = rt.alloc();
    let mut lines = LineOutside::new(rt, alloc, rt.stdin());
    match lines.first_line(alloc) {
        Ok(line) => deliver(threads, rt, line, lines, sink, report, bar, junit, record),
        Err(error) => Listened {
            delivered: unread(alloc, sink, error),
            report,
            junit,
        },
    }
}
