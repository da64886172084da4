// What a worker does for one child after another.
ghost use Rattle.std.specs.Prelude.{ℕ, ◌≡◌, ◌<◌, ◌≤◌, ◌+◌, length, Bool, IfOk, OnOk, Option, Some, true, false};
ghost use Rattle.run_keep.specs.Minded.{Tends, Minded, runs};

use crate::handing::hand_on;
use crate::saying::{Watch, begin, look, say_env};
use crate::turns::Turns;
use crate::{Keeper, Kept};
use run_capture::{Mem, OutOfMemory};
use run_events::StartAsk;
use run_model::Phase;
use std::sync::Wait;
use std::sync::ledger::{Ledger, Share};

// Hands on the signals that were asked, and looks at the child.
fn beat<K: Keeper, X: Wait, L: Ledger, T: Turns<L>>(
    rt: &X,
    run: &T,
    keeper: &mut K,
    share: &mut Share<L>,
    unit: u32,
    watch: Watch,
    work: &mut Kept,
) -> Mem<Watch>
    requires { 0 < share.old.parts }
    ensures minded { IfOk result (λ next. Minded K.has_heard keeper.old keeper.new
        (Some (unit, watch.runs)) (Some (unit, next.runs)) work.old work.new) }
    ensures counted { OnOk result
        (share.new.amount + length work.old.receipts ≡ share.old.amount + length work.new.receipts) }
    ensures parts { share.new.parts ≡ share.old.parts }
{
    hand_on(rt, run, keeper, unit, watch.runs, work)?;
    let next = look(run, keeper, share, unit, watch, work)?;
    Ok(next)
}

// Whether a child is watched on: while it runs, and while a stream of it is waited for, until the run is done.
fn is_watched<L: Ledger, T: Turns<L>>(run: &T, unit: u32, runs: bool) -> bool {
    if run.is_done() {
        return false;
    }
    runs || matches!(run.phase(unit), Some(Phase::Leak))
}

// Watches a child that was started, as long as that is to be. Answers whether it still runs: only where the run is
// done.
#[tactic(auto, using(crate::proofs::MindLemmas::minded_none, crate::proofs::MindLemmas::minded_more))]
fn watch_on<K: Keeper, X: Wait, L: Ledger, T: Turns<L>>(
    rt: &X,
    run: &T,
    keeper: &mut K,
    share: &mut Share<L>,
    unit: u32,
    work: &mut Kept,
) -> Mem<bool>
    requires { 0 < share.old.parts }
    ensures minded { IfOk result (λ on. Minded K.has_heard keeper.old keeper.new
        (Some (unit, true)) (Some (unit, on)) work.old work.new) }
    ensures counted { OnOk result
        (share.new.amount + length work.old.receipts ≡ share.old.amount + length work.new.receipts) }
    ensures parts { share.new.parts ≡ share.old.parts }
{
    let mut watch = Watch {
        runs: true,
        reads: true,
    };
    for _ in rt.forever() {
        match beat(rt, run, keeper, share, unit, watch, work) {
            Ok(next) => watch = next,
            Err(OutOfMemory) => return Err(OutOfMemory),
        }
        if !is_watched(run, unit, watch.runs) {
            return Ok(watch.runs);
        }
    }
    unreachable!()
}

// Asks for a start, and watches the child. Answers whether it still runs.
fn begin_watch<K: Keeper, X: Wait, L: Ledger, T: Turns<L>>(
    rt: &X,
    run: &T,
    keeper: &mut K,
    share: &mut Share<L>,
    start: &StartAsk,
    work: &mut Kept,
) -> Mem<bool>
    requires { 0 < share.old.parts }
    ensures minded { IfOk result (λ on. (child : Option (ℕ × Bool)) → runs child ≡ false
        → Minded K.has_heard keeper.old keeper.new child (Some (start.now.unit, on)) work.old work.new) }
    ensures counted { OnOk result
        (share.new.amount + length work.old.receipts ≡ share.old.amount + length work.new.receipts) }
    ensures parts { share.new.parts ≡ share.old.parts }
{
    let on = begin(run, keeper, share, start, work)?;
    if !on {
        return Ok(on);
    }
    let still = watch_on(rt, run, keeper, share, start.unit, work)?;
    Ok(still)
}

// Says what stands in the environment file of a child that has ended, where that is waited for.
#[tactic(auto, using(crate::proofs::MindLemmas::minded_none))]
fn close_env<K: Keeper, L: Ledger, T: Turns<L>>(
    run: &T,
    keeper: &mut K,
    share: &mut Share<L>,
    unit: u32,
    work: &mut Kept,
) -> Mem<()>
    requires { 0 < share.old.parts }
    ensures minded { OnOk result (Minded K.has_heard keeper.old keeper.new (Some (unit, false)) (Some (unit, false))
        work.old work.new) }
    ensures counted { OnOk result
        (share.new.amount + length work.old.receipts ≡ share.old.amount + length work.new.receipts) }
    ensures parts { share.new.parts ≡ share.old.parts }
{
    if !matches!(run.phase(unit), Some(Phase::EnvWait)) {
        return Ok(());
    }
    say_env(run, keeper, share, unit, work)
}

// What is left to do for a child that has ended: its environment file, and the signals that came too late.
fn close<K: Keeper, X: Wait, L: Ledger, T: Turns<L>>(
    rt: &X,
    run: &T,
    keeper: &mut K,
    share: &mut Share<L>,
    unit: u32,
    work: &mut Kept,
) -> Mem<()>
    requires { 0 < share.old.parts }
    ensures minded { OnOk result (Minded K.has_heard keeper.old keeper.new (Some (unit, false)) (Some (unit, false))
        work.old work.new) }
    ensures counted { OnOk result
        (share.new.amount + length work.old.receipts ≡ share.old.amount + length work.new.receipts) }
    ensures parts { share.new.parts ≡ share.old.parts }
{
    close_env(run, keeper, share, unit, work)?;
    hand_on(rt, run, keeper, unit, false, work)?;
    Ok(())
}

// Passes over what was asked before a start was claimed.
fn pass_over<L: Ledger, T: Turns<L>>(run: &T, work: &mut Kept)
    ensures receipts { work.new.receipts ≡ work.old.receipts }
    ensures lost { work.new.lost ≡ work.old.lost }
    ensures orders { work.new.orders ≡ work.old.orders }
    ensures later { work.old.from ≤ work.new.from }
{
    let count = run.asked_count();
    if work.from < count {
        work.from = count;
    }
}

/// Starts a child, hands it the signals that are asked of its unit, and offers each of its words, to its end. Answers
/// whether the worker goes on: not where the run was done before that end.
pub(crate) fn attend<K: Keeper, X: Wait, L: Ledger, T: Turns<L>>(
    rt: &X,
    run: &T,
    keeper: &mut K,
    share: &mut Share<L>,
    start: &StartAsk,
    work: &mut Kept,
) -> Mem<bool>
    requires { 0 < share.old.parts }
    ensures attends { IfOk result (λ goes_on. Tends K.has_heard keeper.old keeper.new goes_on work.old work.new) }
    ensures counted { OnOk result
        (share.new.amount + length work.old.receipts ≡ share.old.amount + length work.new.receipts) }
    ensures parts { share.new.parts ≡ share.old.parts }
{
    pass_over(run, work);
    let on = begin_watch(rt, run, keeper, share, start, work)?;
    if on {
        return Ok(false);
    }
    close(rt, run, keeper, share, start.unit, work)?;
    Ok(true)
}

// Takes a start, and attends to it. Answers whether the worker goes on.
#[tactic(auto, using(crate::proofs::MindLemmas::attends_none))]
fn work_on<K: Keeper, X: Wait, L: Ledger, T: Turns<L>>(
    rt: &X,
    run: &T,
    keeper: &mut K,
    share: &mut Share<L>,
    work: &mut Kept,
) -> Mem<bool>
    requires { 0 < share.old.parts }
    ensures attends { IfOk result (λ goes_on. Tends K.has_heard keeper.old keeper.new goes_on work.old work.new) }
    ensures counted { OnOk result
        (share.new.amount + length work.old.receipts ≡ share.old.amount + length work.new.receipts) }
    ensures parts { share.new.parts ≡ share.old.parts }
{
    let Some(start) = run.next_start() else {
        return Ok(false);
    };
    attend(rt, run, keeper, share, &start, work)
}

/// Takes starts until none comes any more, and attends to each.
#[tactic(auto, using(crate::proofs::MindLemmas::attends_none, crate::proofs::MindLemmas::attends_more))]
pub(crate) fn work_all<K: Keeper, X: Wait, L: Ledger, T: Turns<L>>(
    rt: &X,
    run: &T,
    keeper: &mut K,
    share: &mut Share<L>,
    work: &mut Kept,
) -> Mem<()>
    requires { 0 < share.old.parts }
    ensures attends { OnOk result (Tends K.has_heard keeper.old keeper.new false work.old work.new) }
    ensures counted { OnOk result
        (share.new.amount + length work.old.receipts ≡ share.old.amount + length work.new.receipts) }
    ensures parts { share.new.parts ≡ share.old.parts }
{
    for _ in rt.forever() {
        match work_on(rt, run, keeper, share, work) {
            Ok(true) => {}
            Ok(false) => return Ok(()),
            Err(OutOfMemory) => return Err(OutOfMemory),
        }
    }
    unreachable!()
}
