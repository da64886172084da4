// The run of a plan with all its lines, and with who listens beside them.
ghost use Rattle.std.specs.Prelude.{◌≡◌, [], IfSome, None, false};
ghost use Rattle.run_events.specs.declared.settings.Settings.{Settings};
ghost use Rattle.run_laws.specs.Course.{turns_of};
ghost use Rattle.run_shared.specs.Closed.{IsLeft};
ghost use Rattle.run_live.specs.Left.{HasToldSome, HasTakenSome};
ghost use Rattle.run_whole.specs.Whole.{ComesThird};
ghost use Rattle.run_cli.specs.Call.{writing_of};
ghost use Rattle.run_whole_cli.specs.Relations.{relations};
ghost use Rattle.run_whole_cli.specs.Ends.{IsWholeRunEnd};
ghost use Rattle.run_whole_cli.specs.Hears.{HasHeardLeft, HasHeardTurns};
ghost use Rattle.run_whole_cli.specs.Last.{IsLeftWhole};

use crate::left::{WholeEnded, WholeLeft, WholeRun, left_by};
use crate::lines::{end_cut_off, end_given_up, write_end};
use run_capture::Sink;
use run_cli::{Origin, TiedReporter, workers_of};
use run_drive::Ticker;
use run_engine::TestRunner;
use run_events::Reporter;
use run_keep::{Halter, Keeper, KeeperHost, Outside};
use run_report::{Both, Listener};
use run_whole::{Around, GivenUp, Ran as RanWhole, Whole, whole};
use std::alloc::Global;
use std::marker::Brand;
use std::sync::Wait;
use std::thread::Threads;

// Ends a run whose threads have ended, by what they left.
fn finish<
    K: Sink,
    B: Listener,
    G: Origin,
    W: Keeper + Drop,
    T: Ticker + Drop,
    O: Outside + Drop,
    S: Halter + Drop,
>(
    alloc: Global,
    whole: Whole<W, T, O, S, Both<TiedReporter<K, G>, B>>,
) -> (WholeEnded<K, WholeLeft<W, T, O, S>>, B)
    requires turns { ⟦<Both<TiedReporter<K, G>, B> as Reporter>⟧.taken whole.run.report
        (turns_of whole.run.journal) }
    ensures says { (p : Settings) → IsLeftWhole (relations W.has_heard T.has_told O.has_come S.has_halted)
        ⟦<Both<TiedReporter<K, G>, B> as Reporter>⟧.told p whole
        → IsWholeRunEnd (relations W.has_heard T.has_told O.has_come S.has_halted) p (record {
          taken = G.taken_before;
          taken_after = K.taken result.0.sink;
          faults = G.faults_before;
          faults_after = K.faults result.0.sink;
        }) result.0.left result.0.ending }
    ensures heard { (p : Settings) → IsLeftWhole (relations W.has_heard T.has_told O.has_come S.has_halted)
        ⟦<Both<TiedReporter<K, G>, B> as Reporter>⟧.told p whole
        → IfSome result.0.left (HasHeardLeft B.heard result.1 p) }
    ensures turns { (p : Settings) → IsLeftWhole (relations W.has_heard T.has_told O.has_come S.has_halted)
        ⟦<Both<TiedReporter<K, G>, B> as Reporter>⟧.told p whole
        → HasHeardTurns B.taken result.1 result.0.left false }
{
    let Whole {
        threads,
        run,
        error,
    } = whole;
    let RanWhole {
        journal,
        receipts,
        asks,
        outcome,
        report,
    } = run;
    let (lines, report) = report.into_parts();
    let refused = lines.has_refused();
    let sink = lines.into_sink();
    let told = asks.asks();
    let (ending, sink) = write_end(alloc, sink, told, &error, &journal, outcome, refused);
    drop(asks);
    let left = WholeRun {
        threads,
        journal,
        receipts,
        error,
    };
    let ended = WholeEnded {
        ending,
        sink,
        left: left_by(ending, WholeLeft::Run(left)),
    };
    (ended, report)
}

// Ends a run that was given up: at a third signal where it was cut off so, and else for want of memory.
fn finish_given_up<
    K: Sink,
    B: Listener,
    G: Origin,
    W: Keeper + Drop,
    T: Ticker + Drop,
    O: Outside + Drop,
    S: Halter + Drop,
>(
    alloc: Global,
    given_up: GivenUp<Both<TiedReporter<K, G>, B>>,
) -> (WholeEnded<K, WholeLeft<W, T, O, S>>, B)
    requires told { HasToldSome ⟦<Both<TiedReporter<K, G>, B> as Reporter>⟧.told given_up.report }
    requires third { IfSome given_up.cut_off (λ c. ComesThird c.journal c.refusal) }
    requires some_turns { HasTakenSome ⟦<Both<TiedReporter<K, G>, B> as Reporter>⟧.taken given_up.report }
    requires turns { IfSome given_up.cut_off
        (λ c. ⟦<Both<TiedReporter<K, G>, B> as Reporter>⟧.taken given_up.report (turns_of c.journal)) }
    ensures says { (p : Settings) → IfSome given_up.cut_off
        (λ c. IsLeft ⟦<Both<TiedReporter<K, G>, B> as Reporter>⟧.told given_up.report c.asks p c.journal None)
        → IsWholeRunEnd (relations W.has_heard T.has_told O.has_come S.has_halted) p (record {
          taken = G.taken_before;
          taken_after = K.taken result.0.sink;
          faults = G.faults_before;
          faults_after = K.faults result.0.sink;
        }) result.0.left result.0.ending }
    ensures heard { (p : Settings) → IfSome given_up.cut_off
        (λ c. IsLeft ⟦<Both<TiedReporter<K, G>, B> as Reporter>⟧.told given_up.report c.asks p c.journal None)
        → IfSome result.0.left (HasHeardLeft B.heard result.1 p) }
    ensures turns { (p : Settings) → IfSome given_up.cut_off
        (λ c. IsLeft ⟦<Both<TiedReporter<K, G>, B> as Reporter>⟧.told given_up.report c.asks p c.journal None)
        → HasHeardTurns B.taken result.1 result.0.left false }
{
    let GivenUp { report, cut_off } = given_up;
    let (lines, report) = report.into_parts();
    let sink = lines.into_sink();
    match cut_off {
        Some(cut_off) => (end_cut_off(alloc, sink, cut_off), report),
        None => (end_given_up(sink), report),
    }
}

// Runs the plan of a runner, with the sink's state at the beginning as the type's.
fn run_at<
    K: Sink + Send,
    B: Listener + Send,
    H: KeeperHost,
    O: Outside + Send + Drop,
    S: Halter + Send + Drop,
    G: Origin + Send,
    X: Threads + Wait + Sync,
>(
    rt: &X,
    alloc: Global,
    runner: TestRunner,
    sink: K,
    report: B,
    host: &mut H,
    around: Around<O, S>,
) -> (WholeEnded<K, WholeLeft<H::Worker, H::Tick, O, S>>, B)
    requires quiet { O.has_come around.outside [] }
    requires runs { S.has_halted around.halter 0 }
    requires unheard { B.heard report [] }
    requires untaken { B.taken report [] }
    requires taken { G.taken_before ≡ K.taken sink }
    requires faults { G.faults_before ≡ K.faults sink }
    ensures says { IsWholeRunEnd (relations H.Worker.has_heard H.Tick.has_told O.has_come S.has_halted) runner
        (writing_of K.Sink sink result.0.sink) result.0.left result.0.ending }
    ensures heard { IfSome result.0.left (HasHeardLeft B.heard result.1 runner) }
    ensures turns { HasHeardTurns B.taken result.1 result.0.left false }
{
    let workers = workers_of(&runner);
    let both = Both::new(TiedReporter::<K, G>::new(sink), report);
    match whole(rt, alloc, runner, workers, host, around, both) {
        Ok(all) => finish(alloc, all),
        Err(given_up) => finish_given_up(alloc, given_up),
    }
}

// Runs the plan of a runner by workers, delivers the signals that it asks, and writes all its lines. Who listens hears
// the events that the sink of the lines took.
pub(crate) fn run_runner<
    K: Sink + Send,
    B: Listener + Send,
    H: KeeperHost,
    O: Outside + Send + Drop,
    S: Halter + Send + Drop,
    X: Threads + Wait + Sync,
>(
    rt: &X,
    alloc: Global,
    runner: TestRunner,
    sink: K,
    report: B,
    host: &mut H,
    around: Around<O, S>,
) -> (WholeEnded<K, WholeLeft<H::Worker, H::Tick, O, S>>, B)
    requires quiet { O.has_come around.outside [] }
    requires runs { S.has_halted around.halter 0 }
    requires unheard { B.heard report [] }
    requires untaken { B.taken report [] }
    ensures says { IsWholeRunEnd (relations H.Worker.has_heard H.Tick.has_told O.has_come S.has_halted) runner
        (writing_of K.Sink sink result.0.sink) result.0.left result.0.ending }
    ensures heard { IfSome result.0.left (HasHeardLeft B.heard result.1 runner) }
    ensures turns { HasHeardTurns B.taken result.1 result.0.left false }
{
    run_at::<K, B, H, O, S, Brand, X>(rt, alloc, runner, sink, report, host, around)
}
