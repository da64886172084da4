// What the ticker does.
ghost use Rattle.std.specs.Prelude.{◌≡◌, ◌<◌, ◌+◌, length, false, IfOk, OnOk};
ghost use Rattle.std.specs.List.{All};
ghost use Rattle.run_drive.specs.Driven.{OfTicker};
ghost use Rattle.run_drive.specs.Ticked.{Ticks, TicksOn};

use crate::settling::{Access, Steps};
use crate::{Ticker, Work};
use run_capture::{List, Mem, OutOfMemory};
use run_events::{Reporter, Turn};
use run_shared::{Receipt, SharedRun};
use std::alloc::Global;
use std::sync::Wait;
use std::sync::ledger::{Ledger, Share};

// Offers the next answer of the ticker. Answers whether it was taken.
#[tactic(auto, using(crate::proofs::TickLemmas::ticks_one))]
fn tick_on<T: Ticker, L: Ledger, S: Steps<L>>(
    run: &S,
    ticker: &mut T,
    share: &mut Share<L>,
    work: &mut Work,
) -> Mem<bool>
    requires { 0 < share.old.parts }
    ensures ticks { IfOk result (λ goes_on. TicksOn T.has_told ticker.old ticker.new goes_on work.old work.new) }
    ensures counted { OnOk result
        (share.new.amount + length work.old.receipts ≡ share.old.amount + length work.new.receipts) }
    ensures parts { share.new.parts ≡ share.old.parts }
{
    let turn = Turn::Clock { ns: ticker.next() };
    let answer = run.enter(share, turn, work)?;
    Ok(answer.is_taken())
}

// Offers each answer of the ticker, until one is refused.
#[tactic(auto, using(crate::proofs::TickLemmas::ticks_none, crate::proofs::TickLemmas::ticks_more))]
fn tick_all<T: Ticker, X: Wait, L: Ledger, S: Steps<L>>(
    rt: &X,
    run: &S,
    ticker: &mut T,
    share: &mut Share<L>,
    work: &mut Work,
) -> Mem<()>
    requires { 0 < share.old.parts }
    ensures ticks { OnOk result (TicksOn T.has_told ticker.old ticker.new false work.old work.new) }
    ensures counted { OnOk result
        (share.new.amount + length work.old.receipts ≡ share.old.amount + length work.new.receipts) }
    ensures parts { share.new.parts ≡ share.old.parts }
{
    for _ in rt.forever() {
        match tick_on(run, ticker, share, work) {
            Ok(true) => {}
            Ok(false) => return Ok(()),
            Err(OutOfMemory) => return Err(OutOfMemory),
        }
    }
    unreachable!()
}

/// Offers the time that goes by, and settles after each step until nothing is ready or a sub-run has ended, until a
/// step is refused. Answers the receipts behind the first ones, and that refusal. Units decide with the word. Where
/// memory is wanting it gives the run up.
#[tactic(auto, using(crate::proofs::TickLemmas::ticks_kinds, crate::proofs::TickLemmas::ticks_all))]
pub fn tick<T: Ticker, L: Ledger, R: Reporter>(
    rt: &impl Wait,
    alloc: Global,
    shared: &SharedRun<L, R>,
    ticker: &mut T,
    share: &mut Share<L>,
    word: u32,
    first: List<Receipt>,
) -> Mem<Work>
    requires { 0 < share.old.parts }
    ensures kinds { All OfTicker first → IfOk result (λ work. All OfTicker work.receipts) }
    ensures ticks { IfOk result (Ticks T.has_told ticker.old ticker.new first) }
    ensures counted { IfOk result
        (λ work. share.new.amount + length first ≡ share.old.amount + length work.receipts) }
    ensures parts { share.new.parts ≡ share.old.parts }
{
    let run = Access {
        rt,
        alloc,
        shared,
        word,
        pauses: true,
    };
    let mut work = Work::with(first);
    let Ok(()) = tick_all(rt, &run, ticker, share, &mut work) else {
        drop(work);
        shared.give_up(rt);
        return Err(OutOfMemory);
    };
    Ok(work)
}
