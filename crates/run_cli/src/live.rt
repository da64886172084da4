// The command `live`: the run of a plan by workers, and its last lines.
ghost use Rattle.std.specs.Prelude.{◌≡◌, ℕ, length, take, None, IfSome, IsSome};
ghost use Rattle.run_events.specs.declared.settings.Settings.{Settings};
ghost use Rattle.run_model.specs.Journal.{past_of, outcome};
ghost use Rattle.run_cli.specs.Call.{Writing, writing_of, then_writing};
ghost use Rattle.run_cli.specs.Live.{IsClosed, IsUnclosed, IsRunEnd, live_status, workers_in};
ghost use Rattle.run_cli.specs.Finish.{EndsAtFault, EndsAtOutcome};
ghost use Rattle.run_capture.specs.Bytes.{Takes};
ghost use Rattle.run_output.specs.Asks.{ask_lines};
ghost use Rattle.run_output.specs.declared.fault.Fault.TheVariants.{Memory};
ghost use Rattle.run_cli.specs.Text.{fault_only};
ghost use Rattle.run_cli.specs.Lived.{IsOver, IsLeftOver, IsFaultEnd, EndsOver, IsOpenFault, ending_of, kept_by};
ghost use Rattle.run_cli.specs.Lived.{HasWritten, HasWrittenRefused, EndsAtReceipt, kept_refused};

use crate::ended::{Ended, end_at_fault, end_at_outcome, end_without_memory, status_of_outcome};
use crate::receipts::{refusal_lines, write_refusal};
use crate::tied::{Origin, TiedReporter};
use run_capture::{List, Sink};
use run_drive::{Host, Spawner};
use run_engine::TestRunner;
use run_events::{Ask, AskList, Reporter, RunOutcome};
use run_live::{Live, Lived, live};
use run_model::Entry;
use run_output::{AskLines, Fault};
use run_shared::CloseKind;
use std::alloc::Global;
use std::marker::Brand;
use std::sync::Wait;
use std::thread::Threads;

/// How `live` ended.
#[derive(Clone, Copy, Drop)]
pub enum LiveEnding {
    /// The run is over, with this outcome.
    Outcome(RunOutcome),
    /// A fault ended the program.
    Fault(Fault),
    /// The receipts of the workers aren't those of the journal.
    Receipt,
}

impl LiveEnding {
    /// The exit status of the program.
    pub fn status(self) -> u8
        ensures { result ≡ live_status self }
    {
        match self {
            LiveEnding::Outcome(outcome) => status_of_outcome(outcome),
            LiveEnding::Fault(fault) => fault.status(),
            LiveEnding::Receipt => 13,
        }
    }
}

/// How `live` ended, its sink, and what is handed back of the run.
pub struct LiveEnded<K, W> {
    pub ending: LiveEnding,
    pub sink: K,
    pub live: Option<Live<W>>,
}

// The greatest length of a journal.
const MOST: usize = 4_294_967_295;

/// How many workers run the plan of a runner.
pub fn workers_of(runner: &TestRunner) -> u32
    ensures { result ≡ workers_in runner.now }
{
    let settings = runner.settings();
    let scripts = settings.plan.scripts.len();
    let units = scripts.saturating_add(settings.plan.tests.len());
    let most = settings.threads as usize;
    most.min(units).max(1) as u32
}

// What is left of a run whose last lines were written so: nothing where memory was wanting.
fn with_live<K, W: Drop>(ended: Ended<K>, live: Live<W>) -> LiveEnded<K, W>
    ensures ending { result.ending ≡ ending_of ended.ending }
    ensures live { result.live ≡ kept_by ended.ending live }
    ensures sink { result.sink ≡ ended.sink }
{
    let Ended { ending, sink } = ended;
    match ending {
        Ok(outcome) => LiveEnded {
            ending: LiveEnding::Outcome(outcome),
            sink,
            live: Some(live),
        },
        Err(Fault::Memory) => {
            drop(live);
            LiveEnded {
                ending: LiveEnding::Fault(Fault::Memory),
                sink,
                live: None,
            }
        }
        Err(fault) => LiveEnded {
            ending: LiveEnding::Fault(fault),
            sink,
            live: Some(live),
        },
    }
}

/// Writes the lines of asks and of a fault.
pub fn fault_after<K: Sink>(alloc: Global, sink: K, asks: &[(u64, Ask)], fault: Fault) -> Ended<K>
    ensures { EndsAtFault (writing_of K.Sink sink result.sink) (ask_lines asks.now) fault
        result.ending }
{
    match AskLines::of(alloc, asks) {
        Ok(lines) => end_at_fault(alloc, sink, lines.as_bytes(), fault),
        Err(_) => end_without_memory(sink),
    }
}

// Writes the lines of asks and of an outcome.
fn outcome_after<K: Sink>(
    alloc: Global,
    sink: K,
    asks: &[(u64, Ask)],
    outcome: RunOutcome,
) -> Ended<K>
    ensures { EndsAtOutcome (writing_of K.Sink sink result.sink) (ask_lines asks.now) outcome
        result.ending }
{
    match AskLines::of(alloc, asks) {
        Ok(lines) => end_at_outcome(alloc, sink, lines.as_bytes(), outcome),
        Err(_) => end_without_memory(sink),
    }
}

/// Writes the last lines of a run that is over: its asks, and then its outcome, or that an event was refused.
pub fn last_lines<K: Sink>(
    alloc: Global,
    sink: K,
    asks: &[(u64, Ask)],
    outcome: RunOutcome,
    refused: bool,
) -> Ended<K>
    ensures { EndsOver (writing_of K.Sink sink result.sink) (ask_lines asks.now) outcome refused
        result.ending }
{
    if refused {
        fault_after(alloc, sink, asks, Fault::Report)
    } else {
        outcome_after(alloc, sink, asks, outcome)
    }
}

// The same, with what is left of the run.
fn end_over<K: Sink, W: Spawner + Drop>(
    alloc: Global,
    sink: K,
    asks: AskList,
    outcome: RunOutcome,
    refused: bool,
    live: Live<W>,
) -> LiveEnded<K, W>
    ensures { (p : Settings) (w : Writing) (n : ℕ) → K.taken sink ≡ w.taken_after → K.faults sink
        ≡ w.faults_after
        → IsClosed W.has_said p live → IsOver p w n live.journal asks outcome refused
        → IsRunEnd W.has_said p (then_writing w (writing_of K.Sink sink result.sink))
        result.live result.ending }
{
    let ended = last_lines(alloc, sink, asks.asks(), outcome, refused);
    drop(asks);
    with_live(ended, live)
}

/// Why a run of this journal isn't over: the journal is full, or memory was wanting.
pub fn open_fault(journal: &List<Entry>) -> Fault
    ensures { IsOpenFault (length journal.now) result }
{
    if journal.len() == MOST {
        Fault::Unfinished
    } else {
        Fault::Memory
    }
}

// Ends a run that isn't over: its journal is full, or memory was wanting.
fn end_open<K: Sink, W: Spawner + Drop>(
    alloc: Global,
    sink: K,
    asks: AskList,
    live: Live<W>,
) -> LiveEnded<K, W>
    ensures { (p : Settings) (w : Writing) (n : ℕ) → K.taken sink ≡ w.taken_after
        → K.faults sink ≡ w.faults_after → IsClosed W.has_said p live
        → outcome p (past_of p live.journal) ≡ None → HasWritten p w n live.journal asks
        → IsRunEnd W.has_said p (then_writing w (writing_of K.Sink sink result.sink)) result.live result.ending }
{
    let ended = fault_after(alloc, sink, asks.asks(), open_fault(&live.journal));
    drop(asks);
    with_live(ended, live)
}

/// Writes the lines of asks and of why receipts are refused.
pub fn refusal_after<K: Sink>(
    alloc: Global,
    sink: K,
    asks: &[(u64, Ask)],
    kind: &CloseKind,
) -> (LiveEnding, K)
    ensures { EndsAtReceipt (writing_of K.Sink sink result.1) (ask_lines asks.now) kind.now result.0 }
{
    match refusal_lines(alloc, asks, kind) {
        Ok(lines) => (LiveEnding::Receipt, write_refusal(sink, &lines)),
        Err(_) => {
            let Ended { sink, ending: _ } = end_without_memory(sink);
            (LiveEnding::Fault(Fault::Memory), sink)
        }
    }
}

// What is left of a run whose receipts are refused: nothing where memory was wanting.
fn kept_unless_short<W: Drop>(ending: LiveEnding, live: Live<W>) -> Option<Live<W>>
    ensures { result ≡ kept_refused ending live }
{
    match ending {
        LiveEnding::Receipt => Some(live),
        _ => {
            drop(live);
            None
        }
    }
}

// Ends a run whose receipts are refused: its asks, and why.
fn end_refused<K: Sink, W: Spawner + Drop>(
    alloc: Global,
    sink: K,
    asks: AskList,
    live: Live<W>,
) -> LiveEnded<K, W>
    requires { IsSome live.error }
    ensures { (p : Settings) (w : Writing) (n : ℕ) → K.taken sink ≡ w.taken_after
        → K.faults sink ≡ w.faults_after → IsUnclosed W.has_said p live
        → IfSome live.error (λ e. HasWrittenRefused p w n live.journal asks e.kind)
        → IsRunEnd W.has_said p (then_writing w (writing_of K.Sink sink result.sink)) result.live result.ending }
{
    let (ending, sink) = match &live.error {
        Some(error) => refusal_after(alloc, sink, asks.asks(), error.kind()),
        None => unreachable!(),
    };
    drop(asks);
    LiveEnded {
        ending,
        sink,
        live: kept_unless_short(ending, live),
    }
}

// Ends a run whose threads have ended, by what they left.
fn finish<K: Sink, O: Origin, W: Spawner + Drop, T: Drop>(
    alloc: Global,
    lived: Lived<W, T, TiedReporter<K, O>>,
) -> LiveEnded<K, W>
    ensures { (p : Settings) → IsLeftOver W.has_said ⟦<TiedReporter<K, O> as Reporter>⟧.told p lived
        → IsRunEnd W.has_said p (record {
          taken = O.taken_before;
          taken_after = K.taken result.sink;
          faults = O.faults_before;
          faults_after = K.faults result.sink;
        }) result.live result.ending }
{
    let Lived {
        live,
        ticker,
        asks,
        outcome,
        report,
    } = lived;
    drop(ticker);
    let refused = report.has_refused();
    let sink = report.into_sink();
    if live.error.is_some() {
        return end_refused(alloc, sink, asks, live);
    }
    match outcome {
        Some(outcome) => end_over(alloc, sink, asks, outcome, refused, live),
        None => end_open(alloc, sink, asks, live),
    }
}

// Ends a run that was given up, since memory was wanting.
fn end_given_up<K: Sink, W>(sink: K) -> LiveEnded<K, W>
    ensures ending { result.ending ≡ LiveEnding.Fault Memory }
    ensures said { (n : ℕ) × Takes (K.taken sink) (K.taken result.sink) (take n (fault_only Memory)) }
    ensures live { result.live ≡ None }
{
    let Ended { sink, ending: _ } = end_without_memory(sink);
    LiveEnded {
        ending: LiveEnding::Fault(Fault::Memory),
        sink,
        live: None,
    }
}

/// Writes a fault, where there is no run: nothing of one is handed back.
pub fn end_without_run<K: Sink, W>(alloc: Global, sink: K, fault: Fault) -> LiveEnded<K, W>
    ensures ending { IsFaultEnd (writing_of K.Sink sink result.sink) fault result.ending }
    ensures live { result.live ≡ None }
{
    let Ended { ending, sink } = end_at_fault(alloc, sink, &[], fault);
    let ending = match ending {
        Ok(outcome) => LiveEnding::Outcome(outcome),
        Err(fault) => LiveEnding::Fault(fault),
    };
    LiveEnded {
        ending,
        sink,
        live: None,
    }
}

// Runs the plan of a runner, with the sink's state at the beginning as the type's.
fn run_at<K: Sink + Send, H: Host, O: Origin + Send, X: Threads + Wait + Sync>(
    rt: &X,
    alloc: Global,
    runner: TestRunner,
    sink: K,
    host: &mut H,
) -> LiveEnded<K, H::Worker>
    requires taken { O.taken_before ≡ K.taken sink }
    requires faults { O.faults_before ≡ K.faults sink }
    ensures { IsRunEnd H.Worker.has_said runner (writing_of K.Sink sink result.sink)
        result.live
        result.ending }
{
    let workers = workers_of(&runner);
    let report = TiedReporter::<K, O>::new(sink);
    match live(rt, alloc, runner, workers, host, report) {
        Ok(lived) => finish(alloc, lived),
        Err(report) => end_given_up(report.into_sink()),
    }
}

/// Runs the plan of a runner by workers, and writes all its lines.
pub fn run_live<K: Sink + Send, H: Host, X: Threads + Wait + Sync>(
    rt: &X,
    alloc: Global,
    runner: TestRunner,
    sink: K,
    host: &mut H,
) -> LiveEnded<K, H::Worker>
    ensures { IsRunEnd H.Worker.has_said runner (writing_of K.Sink sink result.sink)
        result.live
        result.ending }
{
    run_at::<K, H, Brand, X>(rt, alloc, runner, sink, host)
}
