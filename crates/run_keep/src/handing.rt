// Signals that are handed on to a keeper.
ghost use Rattle.std.specs.Prelude.{◌≡◌, Some, OnOk, IfOk};
ghost use Rattle.run_keep.specs.Minded.{Minded, TellsSignal};

use crate::turns::Turns;
use crate::{Keeper, Kept};
use run_capture::{Mem, OutOfMemory};
use run_events::SignalAsk;
use std::alloc::Global;
use std::sync::Wait;
use std::sync::ledger::Ledger;

// Tells a keeper of a signal: it is sent to a child that runs, and late after that.
#[tactic(auto, using(crate::proofs::HandLemmas::tells_sent, crate::proofs::HandLemmas::tells_late))]
fn tell<K: Keeper>(alloc: Global, keeper: &mut K, runs: bool, ask: &SignalAsk) -> Mem<()>
    ensures { OnOk result (TellsSignal K.has_heard keeper.old keeper.new (Some (ask.now.unit, runs)) ask.now) }
{
    if runs {
        keeper.send(alloc, ask)?;
        Ok(())
    } else {
        keeper.miss(alloc, ask)
    }
}

// Hands on the next signal for a unit, if one was asked. Answers whether.
#[tactic(auto, using(crate::proofs::HandLemmas::minded_order, crate::proofs::HandLemmas::minded_later))]
fn hand_next<K: Keeper, L: Ledger, T: Turns<L>>(
    run: &T,
    keeper: &mut K,
    unit: u32,
    runs: bool,
    work: &mut Kept,
) -> Mem<bool>
    ensures minded { OnOk result
        (Minded K.has_heard keeper.old keeper.new (Some (unit, runs)) (Some (unit, runs)) work.old work.new) }
    ensures receipts { work.new.receipts ≡ work.old.receipts }
{
    let Some(order) = run.next_order(unit, &mut work.from) else {
        return Ok(false);
    };
    let ask = order.ask();
    tell(run.alloc(), keeper, runs, &ask)?;
    work.orders.push(run.alloc(), order)?;
    run.note_order();
    Ok(true)
}

/// Hands on each signal for a unit that was asked and not looked at yet.
#[tactic(auto, using(crate::proofs::MindLemmas::minded_none, crate::proofs::MindLemmas::minded_more))]
pub(crate) fn hand_on<K: Keeper, X: Wait, L: Ledger, T: Turns<L>>(
    rt: &X,
    run: &T,
    keeper: &mut K,
    unit: u32,
    runs: bool,
    work: &mut Kept,
) -> Mem<()>
    ensures minded { OnOk result
        (Minded K.has_heard keeper.old keeper.new (Some (unit, runs)) (Some (unit, runs)) work.old work.new) }
    ensures receipts { work.new.receipts ≡ work.old.receipts }
{
    for _ in rt.forever() {
        match hand_next(run, keeper, unit, runs, work) {
            Ok(true) => {}
            Ok(false) => return Ok(()),
            Err(OutOfMemory) => return Err(OutOfMemory),
        }
    }
    unreachable!()
}
