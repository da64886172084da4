// What all threads leave, put together.
ghost use Rattle.std.specs.Prelude.{◌≡◌, ◌+◌, ◌<◌, ◌++◌, ◌∷◌, [], ℕ, IfOk, IfErr, OnOk, IfSome, length, slice_index_or};
ghost use Rattle.std.specs.Prelude.{false};
ghost use Rattle.run_whole.specs.Whole.{IsThird};
ghost use Rattle.std.specs.List.{All, list_any, sum_by};
ghost use Rattle.run_shared.specs.declared.shared.Receipt.{Receipt};
ghost use Rattle.std.specs.Prelude.{List};
ghost use Rattle.run_whole.specs.Own.{HasHeardAll, IsListenerWork, IsKeeperWork, IsTickerWork, HasToldSteps};
ghost use Rattle.run_whole.specs.Own.{is_third_dropped};
ghost use Rattle.run_whole.specs.Work.{HasListened, HasTimed, HasKept, IsCollected};

use crate::ear_thread::{Listening, third_of};
use crate::left::{Ear, Ended, Rounds, Workers};
use crate::ticker_thread::Timed;
use crate::together::AllDone;
use crate::worker_thread::Done;
use run_capture::{List, Mem, OutOfMemory};
use run_drive::Ticker;
use run_events::Hearing;
use run_keep::{Halter, Keeper, Kept, Listened, Outside, Ticked};
use run_live::push_each;
use run_shared::{Order, Receipt, Refusal};
use std::alloc::Global;
use std::sync::ledger::{Ledger, Share};

// The workers, and all shares and receipts.
#[derive(Drop)]
pub(crate) struct Gathered<L: Ledger, W> {
    pub(crate) workers: Workers<W>,
    pub(crate) shares: Vec<Share<L>>,
    pub(crate) receipts: List<List<Receipt>>,
}

// What a worker leaves beside its orders.
type Parts<L, W> = (W, Share<L>, List<Receipt>, List<Refusal>);

// What a worker leaves, unless memory was wanting.
fn take_apart<W: Keeper + Drop, L: Ledger>(done: Done<L, W>) -> Option<(Parts<L, W>, List<Order>)>
    requires { HasKept W.has_heard done }
    ensures part { IfSome result (λ t. t.0.1.parts ≡ 1) }
    ensures rose { IfSome result (λ t. t.0.1.amount ≡ length t.0.2) }
    ensures own { IfSome result (λ t. IsKeeperWork W.has_heard t.0.0 t.0.2 t.0.3 t.1) }
{
    let Done {
        worker,
        share,
        work,
    } = done;
    match work {
        Some(work) => {
            let Kept {
                receipts,
                lost,
                orders,
                ..
            } = work;
            Some(((worker, share, receipts, lost), orders))
        }
        None => None,
    }
}

// Puts what a worker leaves behind what the others left.
fn add<W: Keeper + Drop, L: Ledger>(
    alloc: Global,
    all: &mut Gathered<L, W>,
    done: Done<L, W>,
) -> Mem<()>
    requires gathered { IsCollected W.has_heard all.old.workers.keepers.items all.old.receipts
        all.old.workers.lost all.old.workers.orders 0
        (sum_by (λ (s : Share L). s.parts) all.old.shares.items)
        (sum_by (λ (s : Share L). s.amount) all.old.shares.items) }
    requires done { HasKept W.has_heard done }
    ensures gathered { OnOk result (IsCollected W.has_heard all.new.workers.keepers.items all.new.receipts
        all.new.workers.lost all.new.workers.orders 0
        (sum_by (λ (s : Share L). s.parts) all.new.shares.items)
        (sum_by (λ (s : Share L). s.amount) all.new.shares.items)) }
    ensures one_more { OnOk result
        (length all.new.workers.keepers.items ≡ length all.old.workers.keepers.items + 1) }
{
    let Some((parts, orders)) = take_apart(done) else {
        return Err(OutOfMemory);
    };
    all.workers.orders.push(alloc, orders)?;
    push_each(
        alloc,
        &mut all.workers.keepers,
        &mut all.shares,
        &mut all.receipts,
        &mut all.workers.lost,
        parts,
    )?;
    Ok(())
}

// No worker.
fn nobody<W: Keeper + Drop, L: Ledger>(alloc: Global) -> Gathered<L, W>
    ensures gathered { IsCollected W.has_heard result.workers.keepers.items result.receipts result.workers.lost
        result.workers.orders 0
        (sum_by (λ (s : Share L). s.parts) result.shares.items)
        (sum_by (λ (s : Share L). s.amount) result.shares.items) }
    ensures none { length result.workers.keepers.items ≡ 0 }
{
    let workers = Workers {
        keepers: Vec::new(alloc),
        lost: List::new(),
        orders: List::new(),
    };
    Gathered {
        workers,
        shares: Vec::new(alloc),
        receipts: List::new(),
    }
}

// What all workers leave.
fn gather<W: Keeper + Drop, L: Ledger>(alloc: Global, done: Vec<Done<L, W>>) -> Mem<Gathered<L, W>>
    requires { All (HasKept W.has_heard) done.items }
    ensures gathered { IfOk result (λ g. IsCollected W.has_heard g.workers.keepers.items g.receipts g.workers.lost
        g.workers.orders 0
        (sum_by (λ (s : Share L). s.parts) g.shares.items)
        (sum_by (λ (s : Share L). s.amount) g.shares.items)) }
    ensures count { IfOk result (λ g. length g.workers.keepers.items ≡ length done.items) }
{
    let mut all = nobody(alloc);
    for one in done {
        add(alloc, &mut all, one)?;
    }
    Ok(all)
}

// Puts one item behind each list.
fn push_two<A: Drop, B: Drop>(
    alloc: Global,
    first: &mut Vec<A>,
    second: &mut List<B>,
    items: (A, B),
) -> Mem<()>
    ensures first { OnOk result (first.new.items ≡ first.old.items ++ items.0 ∷ []) }
    ensures second { OnOk result (second.new ≡ second.old ++ items.1 ∷ []) }
{
    let (one, two) = items;
    first.push(one)?;
    second.push(alloc, two)?;
    Ok(())
}

// Puts one more share, and the receipts that it has counted, behind the others.
fn add_more<W: Keeper + Drop, L: Ledger>(
    alloc: Global,
    all: &mut Gathered<L, W>,
    share: Share<L>,
    receipts: List<Receipt>,
) -> Mem<()>
    requires part { share.parts ≡ 1 }
    requires rose { share.amount ≡ length receipts }
    ensures gathered { OnOk result ((more : ℕ)
        → IsCollected W.has_heard all.old.workers.keepers.items all.old.receipts all.old.workers.lost
        all.old.workers.orders more
        (sum_by (λ (s : Share L). s.parts) all.old.shares.items)
        (sum_by (λ (s : Share L). s.amount) all.old.shares.items)
        → IsCollected W.has_heard all.new.workers.keepers.items all.new.receipts all.new.workers.lost
        all.new.workers.orders (more + 1)
        (sum_by (λ (s : Share L). s.parts) all.new.shares.items)
        (sum_by (λ (s : Share L). s.amount) all.new.shares.items)) }
    ensures receipts { OnOk result (all.new.receipts ≡ all.old.receipts ++ receipts ∷ []) }
    ensures workers { all.new.workers ≡ all.old.workers }
{
    push_two(alloc, &mut all.shares, &mut all.receipts, (share, receipts))?;
    Ok(())
}

// What the ticker leaves, with its share and its receipts, unless memory was wanting.
fn rounds_of<T: Ticker + Drop, L: Ledger>(
    timed: Timed<L, T>,
) -> Option<(Rounds<T>, Share<L>, List<Receipt>)>
    requires { HasTimed T.has_told timed }
    ensures part { IfSome result (λ r. r.1.parts ≡ 1) }
    ensures rose { IfSome result (λ r. r.1.amount ≡ length r.2) }
    ensures told { IfSome result (λ r. HasToldSteps T.has_told r.0.ticker r.2 r.0.refused) }
{
    let Timed {
        ticker,
        share,
        work,
    } = timed;
    match work {
        Some(work) => {
            let Ticked { receipts, refused } = work;
            Some((Rounds { ticker, refused }, share, receipts))
        }
        None => None,
    }
}

// What the listener leaves, with its share and its receipts, unless memory was wanting.
fn ear_of<O: Outside + Drop, S: Halter + Drop, L: Ledger>(
    heard: Listening<L, O, S>,
    hearing: Hearing,
) -> Option<(Ear<O, S>, Share<L>, List<Receipt>)>
    requires heard { HasListened O.has_come S.has_halted hearing heard }
    requires calm { IfSome heard.work (λ w. list_any is_third_dropped w.0.dropped ≡ false) }
    ensures calm { IfSome result (λ r. list_any is_third_dropped r.0.dropped ≡ false) }
    ensures part { IfSome result (λ r. r.1.parts ≡ 1) }
    ensures rose { IfSome result (λ r. r.1.amount ≡ length r.2) }
    ensures heard { IfSome result (λ r. HasHeardAll O.has_come hearing r.0.around.outside r.2 r.0.dropped) }
    ensures halts { IfSome result (λ r. S.has_halted r.0.around.halter (length r.0.halts)) }
{
    let Listening {
        around,
        share,
        work,
    } = heard;
    match work {
        Some((work, halts)) => {
            let Listened { receipts, dropped } = work;
            let ear = Ear {
                around,
                dropped,
                halts,
            };
            Some((ear, share, receipts))
        }
        None => None,
    }
}

// Puts what the ticker leaves behind what the workers left, and answers the ticker.
fn add_ticker<W: Keeper + Drop, T: Ticker + Drop, L: Ledger>(
    alloc: Global,
    all: &mut Gathered<L, W>,
    timed: Timed<L, T>,
) -> Mem<Rounds<T>>
    requires gathered { IsCollected W.has_heard all.old.workers.keepers.items all.old.receipts
        all.old.workers.lost all.old.workers.orders 0
        (sum_by (λ (s : Share L). s.parts) all.old.shares.items)
        (sum_by (λ (s : Share L). s.amount) all.old.shares.items) }
    requires timed { HasTimed T.has_told timed }
    ensures gathered { OnOk result (IsCollected W.has_heard all.new.workers.keepers.items all.new.receipts
        all.new.workers.lost all.new.workers.orders 1
        (sum_by (λ (s : Share L). s.parts) all.new.shares.items)
        (sum_by (λ (s : Share L). s.amount) all.new.shares.items)) }
    ensures ticker { IfOk result (λ t. IsTickerWork T.has_told t.ticker (length all.new.workers.keepers.items)
        all.new.receipts t.refused) }
    ensures workers { all.new.workers ≡ all.old.workers }
{
    let Some((rounds, share, receipts)) = rounds_of(timed) else {
        return Err(OutOfMemory);
    };
    add_more(alloc, all, share, receipts)?;
    Ok(rounds)
}

// Puts what the listener leaves behind what the others left, and answers what it heard.
fn add_ear<W: Keeper + Drop, O: Outside + Drop, S: Halter + Drop, L: Ledger>(
    alloc: Global,
    all: &mut Gathered<L, W>,
    heard: Listening<L, O, S>,
    hearing: Hearing,
) -> Mem<Ear<O, S>>
    requires gathered { IsCollected W.has_heard all.old.workers.keepers.items all.old.receipts
        all.old.workers.lost all.old.workers.orders 1
        (sum_by (λ (s : Share L). s.parts) all.old.shares.items)
        (sum_by (λ (s : Share L). s.amount) all.old.shares.items) }
    requires heard { HasListened O.has_come S.has_halted hearing heard }
    requires calm { IfSome heard.work (λ w. list_any is_third_dropped w.0.dropped ≡ false) }
    ensures gathered { OnOk result (IsCollected W.has_heard all.new.workers.keepers.items all.new.receipts
        all.new.workers.lost all.new.workers.orders 2
        (sum_by (λ (s : Share L). s.parts) all.new.shares.items)
        (sum_by (λ (s : Share L). s.amount) all.new.shares.items)) }
    ensures ear { IfOk result (λ e. IsListenerWork O.has_come hearing e.around.outside
        (length all.new.workers.keepers.items + 1) all.new.receipts e.dropped) }
    ensures halts { IfOk result (λ e. S.has_halted e.around.halter (length e.halts)) }
    ensures before { OnOk result ((k : ℕ) (rs : List Receipt) → k < length all.old.receipts
        → slice_index_or all.new.receipts k rs ≡ slice_index_or all.old.receipts k rs) }
    ensures workers { all.new.workers ≡ all.old.workers }
{
    let Some((ear, share, receipts)) = ear_of(heard, hearing) else {
        return Err(OutOfMemory);
    };
    add_more(alloc, all, share, receipts)?;
    Ok(ear)
}

// Puts what the ticker and the listener leave behind what the workers left. Where memory was wanting, and where the
// run refused a third signal, it answers the refusal of that signal, if there was one.
fn add_beside<W: Keeper + Drop, T: Ticker + Drop, O: Outside + Drop, S: Halter + Drop, L: Ledger>(
    alloc: Global,
    all: &mut Gathered<L, W>,
    timed: Timed<L, T>,
    heard: Listening<L, O, S>,
    hearing: Hearing,
) -> Result<(Rounds<T>, Ear<O, S>), Option<Refusal>>
    requires gathered { IsCollected W.has_heard all.old.workers.keepers.items all.old.receipts
        all.old.workers.lost all.old.workers.orders 0
        (sum_by (λ (s : Share L). s.parts) all.old.shares.items)
        (sum_by (λ (s : Share L). s.amount) all.old.shares.items) }
    requires timed { HasTimed T.has_told timed }
    requires heard { HasListened O.has_come S.has_halted hearing heard }
    ensures gathered { OnOk result (IsCollected W.has_heard all.new.workers.keepers.items all.new.receipts
        all.new.workers.lost all.new.workers.orders 2
        (sum_by (λ (s : Share L). s.parts) all.new.shares.items)
        (sum_by (λ (s : Share L). s.amount) all.new.shares.items)) }
    ensures ticker { IfOk result (λ r. IsTickerWork T.has_told r.0.ticker (length all.new.workers.keepers.items)
        all.new.receipts r.0.refused) }
    ensures ear { IfOk result (λ r. IsListenerWork O.has_come hearing r.1.around.outside
        (length all.new.workers.keepers.items + 1) all.new.receipts r.1.dropped) }
    ensures halts { IfOk result (λ r. S.has_halted r.1.around.halter (length r.1.halts)) }
    ensures third { IfErr result (λ e. IfSome e IsThird) }
    ensures workers { all.new.workers ≡ all.old.workers }
{
    let Ok(rounds) = add_ticker(alloc, all, timed) else {
        return Err(third_of(alloc, heard));
    };
    if heard.is_cut_off() {
        drop(rounds);
        return Err(third_of(alloc, heard));
    }
    let Ok(ear) = add_ear(alloc, all, heard, hearing) else {
        drop(rounds);
        return Err(None);
    };
    Ok((rounds, ear))
}

// What all threads leave: what stands beside the receipts, the shares, and the receipts; or the refusal of a third
// signal where the run was given up at one.
pub(crate) fn gather_all<
    W: Keeper + Drop,
    T: Ticker + Drop,
    O: Outside + Drop,
    S: Halter + Drop,
    L: Ledger,
>(
    alloc: Global,
    all: AllDone<L, W, T, O, S>,
    hearing: Hearing,
) -> Result<(Ended<W, T, O, S>, Vec<Share<L>>, List<List<Receipt>>), Option<Refusal>>
    requires done { All (HasKept W.has_heard) all.0.0.items }
    requires timed { HasTimed T.has_told all.0.1 }
    requires heard { HasListened O.has_come S.has_halted hearing all.1 }
    ensures gathered { IfOk result (λ r. IsCollected W.has_heard r.0.workers.keepers.items r.2 r.0.workers.lost
        r.0.workers.orders 2 (sum_by (λ (s : Share L). s.parts) r.1.items)
        (sum_by (λ (s : Share L). s.amount) r.1.items)) }
    ensures ticker { IfOk result (λ r. IsTickerWork T.has_told r.0.rounds.ticker (length r.0.workers.keepers.items)
        r.2 r.0.rounds.refused) }
    ensures ear { IfOk result (λ r. IsListenerWork O.has_come hearing r.0.ear.around.outside
        (length r.0.workers.keepers.items + 1) r.2 r.0.ear.dropped) }
    ensures halts { IfOk result (λ r. S.has_halted r.0.ear.around.halter (length r.0.ear.halts)) }
    ensures count { IfOk result (λ r. length r.0.workers.keepers.items ≡ length all.0.0.items) }
    ensures third { IfErr result (λ e. IfSome e IsThird) }
{
    let ((done, timed), heard) = all;
    let Ok(mut all) = gather(alloc, done) else {
        drop(timed);
        return Err(third_of(alloc, heard));
    };
    let (rounds, ear) = match add_beside(alloc, &mut all, timed, heard, hearing) {
        Ok(beside) => beside,
        Err(third) => {
            drop(all);
            return Err(third);
        }
    };
    let Gathered {
        workers,
        shares,
        receipts,
    } = all;
    let ended = Ended {
        workers,
        rounds,
        ear,
    };
    Ok((ended, shares, receipts))
}
