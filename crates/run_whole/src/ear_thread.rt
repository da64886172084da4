// Who hears the outside and stops the program, on a thread of its own.
ghost use Rattle.std.specs.Prelude.{◌≡◌, IfErr, IfOk, IfSome, false};
ghost use Rattle.std.specs.List.{list_any};
ghost use Rattle.run_whole.specs.Own.{is_third_dropped};
ghost use Rattle.run_whole.specs.Whole.{IsThird};
ghost use Rattle.run_whole.specs.Work.{HasListened, IsEarReady};

use crate::left::Around;
use run_capture::List;
use run_events::{Hearing, Reporter};
use run_keep::{Beats, Dropped, Halter, Listened, Outside, hear};
use run_shared::{Halt, Refusal, RefusalKind, SharedRun};
use std::alloc::Global;
use std::sync::Wait;
use std::sync::ledger::{Ledger, Share};
use std::thread::{Promise, PromisedHandle, Scope, Threads};

// What the listener's thread begins with: what stands around the program, what the plan hears, its share, and the word
// by which units decide.
#[derive(Drop)]
pub(crate) struct EarJob<L: Ledger, O, S> {
    pub(crate) around: Around<O, S>,
    pub(crate) hearing: Hearing,
    pub(crate) share: Share<L>,
    pub(crate) word: u32,
}

// What the listener's thread leaves: what stands around the program, its share, and its work, or none where memory was
// wanting.
#[derive(Drop)]
pub(crate) struct Listening<L: Ledger, O, S> {
    pub(crate) around: Around<O, S>,
    pub(crate) share: Share<L>,
    pub(crate) work: Option<(Listened, List<Halt>)>,
}

// That the receipts are those that the share counts, of what came from outside and of what a run settles, where the
// plan hears this.
#[derive(Clone, Copy)]
pub(crate) struct OwnEar(pub(crate) Hearing);

impl<L: Ledger, O: Outside, S: Halter> Promise<Listening<L, O, S>> for OwnEar {
    ghost kept_by = { λ p d. HasListened O.has_come S.has_halted p.0 d };
}

// The listener on its thread, or what it left where no thread could be made.
pub(crate) type Hearkening<L, O, S> = Result<
    PromisedHandle<Listening<L, O, S>, OwnEar>,
    Listening<L, O, S>,
>;

// Hears the outside until the run takes no turn any more.
#[tactic(auto, using(crate::proofs::OwnLemmas::heard_of, crate::proofs::OwnLemmas::halted_of))]
fn listen<O: Outside, S: Halter, L: Ledger, R: Reporter>(
    rt: &impl Wait,
    alloc: Global,
    shared: &SharedRun<L, R>,
    beats: &Beats,
    job: EarJob<L, O, S>,
) -> Listening<L, O, S>
    requires { IsEarReady O.has_come S.has_halted job }
    ensures { HasListened O.has_come S.has_halted job.hearing result }
{
    let EarJob {
        around,
        hearing,
        mut share,
        word,
    } = job;
    let Around {
        mut outside,
        mut halter,
    } = around;
    let work = hear(
        rt,
        alloc,
        shared,
        beats,
        &hearing,
        &mut outside,
        &mut halter,
        &mut share,
        word,
    );
    Listening {
        around: Around { outside, halter },
        share,
        work: work.ok(),
    }
}

// Starts the listener's thread. Where none can be made the run is given up, so that the listener ends here at once.
pub(crate) fn start_ear<
    's,
    E,
    O: Outside + Send + Drop + 's,
    S: Halter + Send + Drop + 's,
    L: Ledger + Send + Sync + 's,
    R: Reporter + Send + 's,
    X: Threads + Wait + Sync,
>(
    scope: &Scope<'s, E>,
    rt: &'s X,
    alloc: Global,
    shared: &'s SharedRun<L, R>,
    beats: &'s Beats,
    job: EarJob<L, O, S>,
) -> Hearkening<L, O, S>
where
    R::Error: Send,
    requires { IsEarReady O.has_come S.has_halted job }
    ensures ok { IfOk result (λ h. h.promise.0 ≡ job.hearing) }
    ensures err { IfErr result (HasListened O.has_come S.has_halted job.hearing) }
{
    let hearing = job.hearing;
    let run = move || -> Listening<L, O, S>
        requires { IsEarReady O.has_come S.has_halted job }
        ensures { HasListened O.has_come S.has_halted job.hearing result }
    { listen(rt, alloc, shared, beats, job) };
    match scope.spawn_with(OwnEar(hearing), run) {
        Ok(handle) => Ok(handle),
        Err(refused) => {
            shared.give_up(rt);
            Err((refused.value)())
        }
    }
}

// What the listener leaves, once its thread has ended.
pub(crate) fn end_ear<O: Outside + Drop, S: Halter + Drop, L: Ledger>(
    rt: &impl Threads,
    running: Hearkening<L, O, S>,
    hearing: Hearing,
) -> Listening<L, O, S>
    requires ok { IfOk running (λ h. h.promise.0 ≡ hearing) }
    requires err { IfErr running (HasListened O.has_come S.has_halted hearing) }
    ensures { HasListened O.has_come S.has_halted hearing result }
{
    match running {
        Ok(handle) => handle.join(rt),
        Err(ended) => ended,
    }
}

// The refusal, if it is that of a third shutdown signal.
fn if_third(refusal: Refusal) -> Option<Refusal>
    ensures { IfSome result IsThird }
{
    match refusal.kind() {
        RefusalKind::ThirdSignal => Some(refusal),
        _ => {
            drop(refusal);
            None
        }
    }
}

// Whether what was dropped is a third shutdown signal that the run refused.
fn is_third(dropped: &Dropped) -> bool
    ensures { result ≡ is_third_dropped dropped.now }
{
    match dropped {
        Dropped::Refused { refusal } => matches!(refusal.kind(), RefusalKind::ThirdSignal),
        Dropped::Unheard { .. } => false,
    }
}

// Whether one of what was dropped is one.
fn has_third(dropped: &[Dropped]) -> bool
    ensures { result ≡ list_any is_third_dropped dropped.now }
{
    dropped.iter().any(|one| is_third(one))
}

impl<L: Ledger, O, S> Listening<L, O, S> {
    // Whether a third shutdown signal that came from outside was refused.
    pub(crate) fn is_cut_off(&self) -> bool
        ensures { result ≡ false → IfSome self.now.work (λ w. list_any is_third_dropped w.0.dropped ≡ false) }
    {
        match &self.work {
            Some((work, _)) => has_third(work.dropped.as_slice()),
            None => false,
        }
    }
}

// The refusal of a third shutdown signal, if that was dropped last: none comes after it, since the run is given up.
fn last_third(dropped: Vec<Dropped>) -> Option<Refusal>
    ensures { IfSome result IsThird }
{
    let mut dropped = dropped;
    match dropped.pop() {
        Some(Dropped::Refused { refusal }) => if_third(refusal),
        _ => None,
    }
}

// The refusal of a third shutdown signal, if the listener gave the run up at one.
pub(crate) fn third_of<O: Drop, S: Drop, L: Ledger>(
    alloc: Global,
    heard: Listening<L, O, S>,
) -> Option<Refusal>
    ensures { IfSome result IsThird }
{
    let Listening {
        around,
        share,
        work,
    } = heard;
    drop(around);
    drop(share);
    match work {
        Some((work, halts)) => {
            drop(halts);
            let Listened { receipts, dropped } = work;
            drop(receipts);
            last_third(dropped.into_vec(alloc))
        }
        None => None,
    }
}
