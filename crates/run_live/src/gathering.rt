// What all threads leave, put together.
ghost use Rattle.std.specs.Prelude.{◌≡◌, ◌+◌, IfOk, OnOk, IfSome, length};
ghost use Rattle.std.specs.List.{All, sum_by};
ghost use Rattle.run_live.specs.Own.{IsOwn, IsTicker};
ghost use Rattle.run_live.specs.Work.{HasTicked, HasWorked, IsGathered, IsWholeWork};

use crate::pieces::{push_each, push_three};
use crate::ticker_thread::Ticked;
use crate::worker_thread::Done;
use run_capture::{List, Mem, OutOfMemory};
use run_drive::{Spawner, Ticker, Work};
use run_shared::{Receipt, Refusal};
use std::alloc::Global;
use std::sync::ledger::{Ledger, Share};

// The workers, their shares, their receipts and their refusals.
#[derive(Drop)]
pub(crate) struct Gathered<L: Ledger, W> {
    pub(crate) workers: Vec<W>,
    pub(crate) shares: Vec<Share<L>>,
    pub(crate) receipts: List<List<Receipt>>,
    pub(crate) refused: List<List<Refusal>>,
}

// What a worker leaves, unless memory was wanting.
fn take_apart<W: Spawner + Drop, L: Ledger>(
    done: Done<L, W>,
) -> Option<(W, Share<L>, List<Receipt>, List<Refusal>)>
    requires { HasWorked W.has_said done }
    ensures part { IfSome result (λ t. t.1.parts ≡ 1) }
    ensures rose { IfSome result (λ t. t.1.amount ≡ length t.2) }
    ensures own { IfSome result (λ t. IsOwn W.has_said t.0 t.2 t.3) }
{
    let Done {
        worker,
        share,
        work,
    } = done;
    match work {
        Some(work) => {
            let Work { receipts, refused } = work;
            Some((worker, share, receipts, refused))
        }
        None => None,
    }
}

// Puts what a worker leaves behind what the others left.
fn add<W: Spawner + Drop, L: Ledger>(
    alloc: Global,
    all: &mut Gathered<L, W>,
    done: Done<L, W>,
) -> Mem<()>
    requires gathered { IsGathered W.has_said all.old.workers.items all.old.receipts all.old.refused
        (sum_by (λ (s : Share L). s.parts) all.old.shares.items)
        (sum_by (λ (s : Share L). s.amount) all.old.shares.items) }
    requires done { HasWorked W.has_said done }
    ensures gathered { OnOk result (IsGathered W.has_said all.new.workers.items all.new.receipts all.new.refused
        (sum_by (λ (s : Share L). s.parts) all.new.shares.items)
        (sum_by (λ (s : Share L). s.amount) all.new.shares.items)) }
    ensures one_more { OnOk result (length all.new.workers.items ≡ length all.old.workers.items + 1) }
{
    let Some(parts) = take_apart(done) else {
        return Err(OutOfMemory);
    };
    push_each(
        alloc,
        &mut all.workers,
        &mut all.shares,
        &mut all.receipts,
        &mut all.refused,
        parts,
    )?;
    Ok(())
}

// No worker.
fn nobody<W: Spawner + Drop, L: Ledger>(alloc: Global) -> Gathered<L, W>
    ensures gathered { IsGathered W.has_said result.workers.items result.receipts result.refused
        (sum_by (λ (s : Share L). s.parts) result.shares.items)
        (sum_by (λ (s : Share L). s.amount) result.shares.items) }
    ensures none { length result.workers.items ≡ 0 }
{
    Gathered {
        workers: Vec::new(alloc),
        shares: Vec::new(alloc),
        receipts: List::new(),
        refused: List::new(),
    }
}

// What all workers leave.
fn gather<W: Spawner + Drop, L: Ledger>(alloc: Global, done: Vec<Done<L, W>>) -> Mem<Gathered<L, W>>
    requires { All (HasWorked W.has_said) done.items }
    ensures gathered { IfOk result (λ g. IsGathered W.has_said g.workers.items g.receipts g.refused
        (sum_by (λ (s : Share L). s.parts) g.shares.items)
        (sum_by (λ (s : Share L). s.amount) g.shares.items)) }
    ensures count { IfOk result (λ g. length g.workers.items ≡ length done.items) }
{
    let mut all = nobody(alloc);
    for one in done {
        add(alloc, &mut all, one)?;
    }
    Ok(all)
}

// Puts what the ticker leaves behind what the workers left, and answers the ticker.
fn add_ticker<W: Spawner + Drop, T: Ticker + Drop, L: Ledger>(
    alloc: Global,
    all: &mut Gathered<L, W>,
    ticked: Ticked<L, T>,
) -> Mem<T>
    requires gathered { IsGathered W.has_said all.old.workers.items all.old.receipts all.old.refused
        (sum_by (λ (s : Share L). s.parts) all.old.shares.items)
        (sum_by (λ (s : Share L). s.amount) all.old.shares.items) }
    requires ticked { HasTicked T.has_told ticked }
    ensures whole { OnOk result (IsWholeWork W.has_said all.new.workers.items all.new.receipts all.new.refused
        (sum_by (λ (s : Share L). s.parts) all.new.shares.items)
        (sum_by (λ (s : Share L). s.amount) all.new.shares.items)) }
    ensures ticker { IfOk result (λ t. IsTicker T.has_told t (length all.new.workers.items) all.new.receipts
        all.new.refused) }
    ensures workers { all.new.workers ≡ all.old.workers }
{
    let Ticked {
        ticker,
        share,
        work,
    } = ticked;
    let Some(work) = work else {
        return Err(OutOfMemory);
    };
    let Work { receipts, refused } = work;
    push_three(
        alloc,
        &mut all.shares,
        &mut all.receipts,
        &mut all.refused,
        (share, receipts, refused),
    )?;
    Ok(ticker)
}

// What all threads leave.
pub(crate) fn gather_all<W: Spawner + Drop, T: Ticker + Drop, L: Ledger>(
    alloc: Global,
    done: Vec<Done<L, W>>,
    ticked: Ticked<L, T>,
) -> Mem<(Gathered<L, W>, T)>
    requires done { All (HasWorked W.has_said) done.items }
    requires ticked { HasTicked T.has_told ticked }
    ensures whole { IfOk result (λ r. IsWholeWork W.has_said r.0.workers.items r.0.receipts r.0.refused
        (sum_by (λ (s : Share L). s.parts) r.0.shares.items)
        (sum_by (λ (s : Share L). s.amount) r.0.shares.items)) }
    ensures ticker { IfOk result (λ r. IsTicker T.has_told r.1 (length r.0.workers.items) r.0.receipts r.0.refused) }
    ensures count { IfOk result (λ r. length r.0.workers.items ≡ length done.items) }
{
    let Ok(mut all) = gather(alloc, done) else {
        drop(ticked);
        return Err(OutOfMemory);
    };
    let Ok(ticker) = add_ticker(alloc, &mut all, ticked) else {
        drop(all);
        return Err(OutOfMemory);
    };
    Ok((all, ticker))
}
