// The top call: the run of a plan line, with what is left of it.
ghost use Rattle.std.specs.Prelude.{◌≡◌, [], IfSome, true};
ghost use Rattle.run_cli.specs.Call.{writing_of};
ghost use Rattle.run_cli.specs.Live.{is_unbegun};
ghost use Rattle.run_whole_cli.specs.Relations.{relations};
ghost use Rattle.run_whole_cli.specs.Ends.{whole_status};
ghost use Rattle.run_whole_cli.specs.Answers.{IsWholeEnd, AnswersWhole};
ghost use Rattle.run_whole_cli.specs.Hears.{HasHeardPlan, HasHeardTurns};

use crate::left::{WholeEnded, WholeLeft};
use crate::lines::end_without_run;
use crate::plan::runner_in;
use crate::running::run_runner;
use run_capture::Sink;
use run_cli::Ran;
use run_keep::{Halter, KeeperHost, Outside};
use run_report::Listener;
use run_whole::Around;
use std::alloc::Global;
use std::sync::Wait;
use std::thread::Threads;

// Runs the plan that a line says, and answers how it ended.
fn run_line<
    K: Sink + Send,
    B: Listener + Send,
    H: KeeperHost,
    O: Outside + Send + Drop,
    S: Halter + Send + Drop,
    X: Threads + Wait + Sync,
>(
    rt: &X,
    alloc: Global,
    line: &[u8],
    sink: K,
    report: B,
    host: &mut H,
    around: Around<O, S>,
) -> (WholeEnded<K, WholeLeft<H::Worker, H::Tick, O, S>>, B)
    requires quiet { O.has_come around.outside [] }
    requires runs { S.has_halted around.halter 0 }
    requires unheard { B.heard report [] }
    requires untaken { B.taken report [] }
    ensures says { IsWholeEnd (relations H.Worker.has_heard H.Tick.has_told O.has_come S.has_halted) line.now
        (writing_of K.Sink sink result.0.sink) result.0.left result.0.ending }
    ensures heard { IfSome result.0.left (HasHeardPlan B.heard result.1 line.now) }
    ensures turns { HasHeardTurns B.taken result.1 result.0.left (is_unbegun (whole_status result.0.ending)) }
    ensures unused { is_unbegun (whole_status result.0.ending) ≡ true → host.new ≡ host.old }
{
    match runner_in(alloc, line) {
        Ok(runner) => run_runner(rt, alloc, runner, sink, report, host, around),
        Err(fault) => {
            drop(around);
            (end_without_run(alloc, sink, fault), report)
        }
    }
}

/// Runs the plan that a line says, which has no line feed, by workers, and delivers the signals that it asks: to the
/// children, and to the program itself. Lines go to the sink as events are told, then the asks, then the outcome or the
/// fault. It answers the status and the sink with what is left of the run, but where none was made or memory was
/// wanting. What each status says and what status each cause gives stands in `AnswersWhole`: where the status is that
/// of an outcome, each setup script and each test of the plan has its fate, and each signal and each stop that was
/// asked was handed on exactly once. A third shutdown signal gives the run up, with status 7 unless it was over. Want
/// of memory may come at any point, and is status 11. Who listens beside hears each event that the sink took, after it
/// did, and each turn that the run took, and is handed back.
pub fn run_plan<
    K: Sink + Send,
    B: Listener + Send,
    H: KeeperHost,
    O: Outside + Send + Drop,
    S: Halter + Send + Drop,
    X: Threads + Wait + Sync,
>(
    rt: &X,
    alloc: Global,
    line: &[u8],
    sink: K,
    report: B,
    host: &mut H,
    around: Around<O, S>,
) -> (Ran<K>, Option<WholeLeft<H::Worker, H::Tick, O, S>>, B)
    requires quiet { O.has_come around.outside [] }
    requires runs { S.has_halted around.halter 0 }
    requires unheard { B.heard report [] }
    requires untaken { B.taken report [] }
    ensures says { AnswersWhole (relations H.Worker.has_heard H.Tick.has_told O.has_come S.has_halted) line.now
        (writing_of K.Sink sink result.0.sink) result.1 result.0.status }
    ensures heard { IfSome result.1 (HasHeardPlan B.heard result.2 line.now) }
    ensures turns { HasHeardTurns B.taken result.2 result.1 (is_unbegun result.0.status) }
    // The host is asked for nothing before there is a plan that is accepted.
    ensures unused { is_unbegun result.0.status ≡ true → host.new ≡ host.old }
{
    let (ended, report) = run_line(rt, alloc, line, sink, report, host, around);
    let WholeEnded { ending, sink, left } = ended;
    let ran = Ran {
        status: ending.status(),
        sink,
    };
    (ran, left, report)
}
