// A worker and one child.
ghost use Rattle.std.specs.Prelude.{◌≡◌, ◌≢◌, ◌<◌, ◌+◌, length, IfOk, OnOk};
ghost use Rattle.run_drive.specs.Worked.{Attends, Begins, Listens, then_awaited};

use crate::awaited::{Awaited, awaited_after};
use crate::settling::Steps;
use crate::{Spawner, Work};
use run_capture::{Mem, OutOfMemory};
use run_events::StartAsk;
use std::sync::Wait;
use std::sync::ledger::{Ledger, Share};

// Offers the next word of a child, or its environment file. Answers what is waited for then; nothing where the journal
// is full.
#[tactic(auto, using(crate::proofs::WorkedLemmas::listens_one))]
fn hear<W: Spawner, L: Ledger, S: Steps<L>>(
    run: &S,
    worker: &mut W,
    share: &mut Share<L>,
    unit: u32,
    awaited: Awaited,
    work: &mut Work,
) -> Mem<Option<Awaited>>
    requires share { 0 < share.old.parts }
    requires awaited { awaited ≢ Awaited.Start }
    ensures listens { IfOk result
        (λ next. Listens W.has_said worker.old worker.new unit awaited next work.old work.new) }
    ensures counted { OnOk result
        (share.new.amount + length work.old.receipts ≡ share.old.amount + length work.new.receipts) }
    ensures parts { share.new.parts ≡ share.old.parts }
{
    let said = worker.next(run.alloc())?;
    let next = awaited.after(&said);
    let turn = said.into_turn(unit);
    let answer = run.enter(share, turn, work)?;
    Ok(answer.unless_full(next))
}

// Offers each word of a child, and its environment file, until another start is awaited. Answers whether one is: not
// where the journal is full.
#[tactic(auto, using(crate::proofs::WorkedLemmas::listens_none, crate::proofs::WorkedLemmas::listens_more))]
fn listen<W: Spawner, X: Wait, L: Ledger, S: Steps<L>>(
    rt: &X,
    run: &S,
    worker: &mut W,
    share: &mut Share<L>,
    unit: u32,
    first: Awaited,
    work: &mut Work,
) -> Mem<bool>
    requires { 0 < share.old.parts }
    ensures listens { IfOk result (λ goes_on. Listens W.has_said worker.old worker.new unit first
        (then_awaited goes_on) work.old work.new) }
    ensures counted { OnOk result
        (share.new.amount + length work.old.receipts ≡ share.old.amount + length work.new.receipts) }
    ensures parts { share.new.parts ≡ share.old.parts }
{
    let mut awaited = first;
    for _ in rt.forever() {
        if awaited.is_start() {
            return Ok(true);
        }
        match hear(run, worker, share, unit, awaited, work) {
            Ok(Some(next)) => awaited = next,
            Ok(None) => return Ok(false),
            Err(OutOfMemory) => return Err(OutOfMemory),
        }
    }
    unreachable!()
}

// Asks for a start, and offers the answer. Answers what is waited for then; nothing where the journal is full.
#[tactic(auto, using(crate::proofs::WorkedLemmas::begins_one))]
fn begin<W: Spawner, L: Ledger, S: Steps<L>>(
    run: &S,
    worker: &mut W,
    share: &mut Share<L>,
    start: &StartAsk,
    work: &mut Work,
) -> Mem<Option<Awaited>>
    requires { 0 < share.old.parts }
    ensures begins { IfOk result
        (λ next. Begins W.has_said worker.old worker.new start.now next work.old work.new) }
    ensures counted { OnOk result
        (share.new.amount + length work.old.receipts ≡ share.old.amount + length work.new.receipts) }
    ensures parts { share.new.parts ≡ share.old.parts }
{
    let begun = worker.start(run.alloc(), start)?;
    let next = awaited_after(start, &begun);
    let turn = begun.into_turn(start.unit);
    let answer = run.enter(share, turn, work)?;
    Ok(answer.unless_full(next))
}

// Starts a child, and offers each of its words, until it is heard out. Answers whether the worker goes on: not where
// the journal is full.
#[tactic(auto, using(crate::proofs::WorkedLemmas::attends_begun, crate::proofs::WorkedLemmas::attends_heard))]
pub(crate) fn attend<W: Spawner, X: Wait, L: Ledger, S: Steps<L>>(
    rt: &X,
    run: &S,
    worker: &mut W,
    share: &mut Share<L>,
    start: &StartAsk,
    work: &mut Work,
) -> Mem<bool>
    requires { 0 < share.old.parts }
    ensures attends { IfOk result
        (λ goes_on. Attends W.has_said worker.old worker.new start.now goes_on work.old work.new) }
    ensures counted { OnOk result
        (share.new.amount + length work.old.receipts ≡ share.old.amount + length work.new.receipts) }
    ensures parts { share.new.parts ≡ share.old.parts }
{
    match begin(run, worker, share, start, work)? {
        Some(first) => listen(rt, run, worker, share, start.unit, first, work),
        None => Ok(false),
    }
}
