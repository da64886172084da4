// The top call: the run of a plan line, and its record.
ghost use Rattle.std.specs.Prelude.{◌≡◌, [], IfSome, true};
ghost use Rattle.run_cli.specs.Call.{writing_of};
ghost use Rattle.run_cli.specs.Live.{is_unbegun};
ghost use Rattle.run_whole_cli.specs.Hears.{HasHeardPlan, HasHeardTurns};
ghost use Rattle.run_whole_cli.specs.Relations.{relations};
ghost use Rattle.run_record.specs.Answers.{AnswersRecorded};

use crate::RecordOutcome;
use crate::filling::begin;
use crate::keeping::{Keeping, RecordOrigin, Recording};
use crate::outcome::is_over;
use run_capture::Sink;
use run_keep::{Halter, KeeperHost, Outside};
use run_report::Listener;
use run_whole_cli::{Around, Ran, WholeLeft, run_plan};
use std::alloc::Global;
use std::marker::Brand;
use std::sync::Wait;
use std::thread::Threads;

/// How a recorded run ended: the status with the sink of its lines, the status that the run itself has, what became of
/// its record with the sink of that, what is left of the run, and who listened to it.
pub struct Recorded<K, F, L, B> {
    pub ran: Ran<K>,
    pub own: u8,
    pub outcome: RecordOutcome,
    pub store: F,
    pub left: Option<L>,
    pub report: B,
}

// Runs the plan of a line and records it, with the beginning of its record as the type's.
fn run_at<
    K: Sink + Send,
    F: Sink + Send,
    B: Listener + Send,
    H: KeeperHost,
    O: Outside + Send + Drop,
    S: Halter + Send + Drop,
    G: RecordOrigin + Send,
    X: Threads + Wait + Sync,
>(
    rt: &X,
    alloc: Global,
    line: &[u8],
    sink: K,
    store: F,
    report: B,
    host: &mut H,
    around: Around<O, S>,
) -> Recorded<K, F, WholeLeft<H::Worker, H::Tick, O, S>, B>
    requires quiet { O.has_come around.outside [] }
    requires runs { S.has_halted around.halter 0 }
    requires unheard { B.heard report [] }
    requires taken { G.taken_before ≡ F.taken store }
    requires faults { G.faults_before ≡ F.faults store }
    requires plan { G.plan_line ≡ line.now }
    requires turns { (G.unheard → B.taken report []) × (B.taken report [] → G.unheard) }
    ensures says { AnswersRecorded (relations H.Worker.has_heard H.Tick.has_told O.has_come S.has_halted) line.now
        (writing_of K.Sink sink result.ran.sink) (writing_of F.Sink store result.store) result.left
        result.own result.outcome result.ran.status }
    ensures heard { IfSome result.left (HasHeardPlan B.heard result.report line.now) }
    ensures turns { B.taken report [] → HasHeardTurns B.taken result.report result.left (is_unbegun result.own) }
    ensures unused { is_unbegun result.own ≡ true → host.new ≡ host.old }
{
    let recording = Recording {
        report,
        keeping: Keeping::<F, G>::new(begin(alloc, line, store)),
    };
    let (Ran { status: own, sink }, left, recording) = run_plan(
        rt, alloc, line, sink, recording, host, around,
    );
    let Recording { report, keeping } = recording;
    let (outcome, store) = keeping.finish(is_over(own));
    let ran = Ran {
        status: outcome.status(own),
        sink,
    };
    Recorded {
        ran,
        own,
        outcome,
        store,
        left,
        report,
    }
}

/// Runs the plan that a line says, as `run_plan` does, and records it: a second sink takes the store of the plan line
/// before anything runs, each turn once the run has taken it, and the store's end where the run is over. So what the
/// sink has at any moment is read back up to there. What each status says stands in `AnswersRecorded`: a run with an
/// outcome that could not be recorded ends with 9 where the second sink failed, with 12 where a turn's line is longer
/// than 16,777,216 bytes, and with 11 where memory was wanting; what was recorded is a front part of the store then.
/// Any other run ends as without a record. Who listens beside hears each event and each turn as in `run_plan`.
pub fn run_recorded<
    K: Sink + Send,
    F: Sink + Send,
    B: Listener + Send,
    H: KeeperHost,
    O: Outside + Send + Drop,
    S: Halter + Send + Drop,
    X: Threads + Wait + Sync,
>(
    rt: &X,
    alloc: Global,
    line: &[u8],
    sink: K,
    store: F,
    report: B,
    host: &mut H,
    around: Around<O, S>,
) -> Recorded<K, F, WholeLeft<H::Worker, H::Tick, O, S>, B>
    requires quiet { O.has_come around.outside [] }
    requires runs { S.has_halted around.halter 0 }
    requires unheard { B.heard report [] }
    ensures says { AnswersRecorded (relations H.Worker.has_heard H.Tick.has_told O.has_come S.has_halted) line.now
        (writing_of K.Sink sink result.ran.sink) (writing_of F.Sink store result.store) result.left
        result.own result.outcome result.ran.status }
    ensures heard { IfSome result.left (HasHeardPlan B.heard result.report line.now) }
    ensures turns { B.taken report [] → HasHeardTurns B.taken result.report result.left (is_unbegun result.own) }
    ensures unused { is_unbegun result.own ≡ true → host.new ≡ host.old }
{
    run_at::<K, F, B, H, O, S, Brand, X>(rt, alloc, line, sink, store, report, host, around)
}
