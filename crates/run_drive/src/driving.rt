// What a worker does.
ghost use Rattle.std.specs.Prelude.{◌≡◌, ◌<◌, ◌+◌, length, false, IfOk, OnOk};
ghost use Rattle.run_drive.specs.Driven.{Drives};
ghost use Rattle.run_drive.specs.Worked.{Works};

use crate::listening::attend;
use crate::settling::{Access, Steps};
use crate::{Spawner, Work};
use run_capture::{List, Mem, OutOfMemory};
use run_events::Reporter;
use run_shared::SharedRun;
use std::alloc::Global;
use std::sync::Wait;
use std::sync::ledger::{Ledger, Share};

// Takes a start, and attends to it. Answers whether the worker goes on.
#[tactic(auto, using(crate::proofs::WorkedLemmas::works_none, crate::proofs::WorkedLemmas::works_attended))]
fn work_on<W: Spawner, X: Wait, L: Ledger, S: Steps<L>>(
    rt: &X,
    run: &S,
    worker: &mut W,
    share: &mut Share<L>,
    work: &mut Work,
) -> Mem<bool>
    requires { 0 < share.old.parts }
    ensures works { IfOk result (λ goes_on. Works W.has_said worker.old worker.new goes_on work.old work.new) }
    ensures counted { OnOk result
        (share.new.amount + length work.old.receipts ≡ share.old.amount + length work.new.receipts) }
    ensures parts { share.new.parts ≡ share.old.parts }
{
    let Some(start) = run.next_start() else {
        return Ok(false);
    };
    attend(rt, run, worker, share, &start, work)
}

// Takes starts until none comes any more, and attends to each.
#[tactic(auto, using(crate::proofs::WorkedLemmas::works_none, crate::proofs::WorkedLemmas::works_more))]
fn work_all<W: Spawner, X: Wait, L: Ledger, S: Steps<L>>(
    rt: &X,
    run: &S,
    worker: &mut W,
    share: &mut Share<L>,
    work: &mut Work,
) -> Mem<()>
    requires { 0 < share.old.parts }
    ensures works { OnOk result (Works W.has_said worker.old worker.new false work.old work.new) }
    ensures counted { OnOk result
        (share.new.amount + length work.old.receipts ≡ share.old.amount + length work.new.receipts) }
    ensures parts { share.new.parts ≡ share.old.parts }
{
    for _ in rt.forever() {
        match work_on(rt, run, worker, share, work) {
            Ok(true) => {}
            Ok(false) => return Ok(()),
            Err(OutOfMemory) => return Err(OutOfMemory),
        }
    }
    unreachable!()
}

/// Works on a run until no start comes any more: takes a start, asks the spawner for it, offers each thing that the
/// spawner says of it, and settles after each. Units decide with the word. Answers the receipts and the refusals, each
/// in their order. Where memory is wanting it gives the run up.
#[tactic(auto, using(crate::proofs::WorkedLemmas::drives_all))]
pub fn drive<W: Spawner, L: Ledger, R: Reporter>(
    rt: &impl Wait,
    alloc: Global,
    shared: &SharedRun<L, R>,
    worker: &mut W,
    share: &mut Share<L>,
    word: u32,
) -> Mem<Work>
    requires { 0 < share.old.parts }
    ensures heard { IfOk result (Drives W.has_said worker.old worker.new) }
    ensures counted { IfOk result (λ work. share.new.amount ≡ share.old.amount + length work.receipts) }
    ensures parts { share.new.parts ≡ share.old.parts }
{
    let run = Access {
        rt,
        alloc,
        shared,
        word,
        pauses: false,
    };
    let mut work = Work::with(List::new());
    let Ok(()) = work_all(rt, &run, worker, share, &mut work) else {
        drop(work);
        shared.give_up(rt);
        return Err(OutOfMemory);
    };
    Ok(work)
}
