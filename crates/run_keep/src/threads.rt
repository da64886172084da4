// What each thread of a run does.
ghost use Rattle.std.specs.Prelude.{◌≡◌, ◌<◌, ◌+◌, length, IfOk};
ghost use Rattle.run_keep.specs.Halted.{HaltsFor};
ghost use Rattle.run_keep.specs.Listened.{HearsOutside};
ghost use Rattle.run_keep.specs.Minded.{KeepsChildren};
ghost use Rattle.run_keep.specs.Rounds.{TicksRounds};

use crate::access::Access;
use crate::halting::Stops;
use crate::hearing::hear_all;
use crate::keeping::work_all;
use crate::rounds::{Ticked, step_all};
use crate::{Beats, Halter, Keeper, Kept, Listened, Outside};
use run_capture::{List, Mem, OutOfMemory};
use run_drive::Ticker;
use run_events::{Hearing, Reporter};
use run_shared::{Halt, Receipt, SharedRun};
use std::alloc::Global;
use std::sync::Wait;
use std::sync::ledger::{Ledger, Share};

// Works on a run until no start comes any more. Answers what that leaves.
#[tactic(auto, using(crate::proofs::MindLemmas::keeps_all))]
fn keep_on<K: Keeper, L: Ledger, R: Reporter, X: Wait>(
    run: &Access<X, L, R>,
    keeper: &mut K,
    share: &mut Share<L>,
) -> Mem<Kept>
    requires { 0 < share.old.parts }
    ensures keeps { IfOk result (KeepsChildren K.has_heard keeper.old keeper.new) }
    ensures counted { IfOk result (λ work. share.new.amount ≡ share.old.amount + length work.receipts) }
    ensures parts { share.new.parts ≡ share.old.parts }
{
    let mut work = Kept::new();
    let Ok(()) = work_all(run.rt, run, keeper, share, &mut work) else {
        drop(work);
        return Err(OutOfMemory);
    };
    Ok(work)
}

/// Works on a run until no start comes any more: takes a start, asks the keeper for it, hands the keeper each signal
/// that is asked of the unit, offers each thing that the keeper tells until it is taken, and settles after each. Units
/// decide with the word. At the end, whatever that is, no child runs on. Where memory is wanting it gives the run up.
#[tactic(auto, using(crate::proofs::MindLemmas::keeps_ended))]
pub fn keep<K: Keeper, L: Ledger, R: Reporter>(
    rt: &impl Wait,
    alloc: Global,
    shared: &SharedRun<L, R>,
    beats: &Beats,
    keeper: &mut K,
    share: &mut Share<L>,
    word: u32,
) -> Mem<Kept>
    requires { 0 < share.old.parts }
    ensures keeps { IfOk result (KeepsChildren K.has_heard keeper.old keeper.new) }
    ensures counted { IfOk result (λ work. share.new.amount ≡ share.old.amount + length work.receipts) }
    ensures parts { share.new.parts ≡ share.old.parts }
{
    let run = Access {
        rt,
        alloc,
        shared,
        beats,
        word,
    };
    match keep_on(&run, keeper, share) {
        Ok(work) => {
            keeper.end();
            Ok(work)
        }
        Err(OutOfMemory) => {
            keeper.end();
            shared.give_up(rt);
            Err(OutOfMemory)
        }
    }
}

// Hears the outside until the run takes no turn any more. Answers what that leaves.
#[tactic(auto, using(crate::proofs::ListenLemmas::hears_all, crate::proofs::HaltLemmas::halts_all))]
fn hear_out<O: Outside, H: Halter, L: Ledger, R: Reporter, X: Wait>(
    run: &Access<X, L, R>,
    hearing: &Hearing,
    outside: &mut O,
    halter: &mut H,
    share: &mut Share<L>,
) -> Mem<(Listened, List<Halt>)>
    requires { 0 < share.old.parts }
    ensures hears { IfOk result (λ p. HearsOutside O.has_come outside.old outside.new hearing.now p.0) }
    ensures halts { IfOk result (λ p. HaltsFor H.has_halted halter.old halter.new p.1) }
    ensures counted { IfOk result (λ p. share.new.amount ≡ share.old.amount + length p.0.receipts) }
    ensures parts { share.new.parts ≡ share.old.parts }
{
    let mut work = Listened::new();
    let mut stops = Stops::new();
    let done = hear_all(
        run.rt, run, hearing, outside, halter, share, &mut stops, &mut work,
    );
    let Ok(()) = done else {
        drop(work);
        drop(stops);
        return Err(OutOfMemory);
    };
    let Stops { halts, .. } = stops;
    Ok((work, halts))
}

/// Hears the outside until the run takes no turn any more: offers what comes, in order, each until it is taken, and
/// stops the program as often as the run asks that, once the signals asked before were handed on. A continue is
/// offered once the clock was moved twice; what these handlers don't hear is dropped. A third signal gives the run up.
/// Answers what became of what came, and the stops. Units decide with the word. Where memory is wanting it gives the
/// run up.
pub fn hear<O: Outside, H: Halter, L: Ledger, R: Reporter>(
    rt: &impl Wait,
    alloc: Global,
    shared: &SharedRun<L, R>,
    beats: &Beats,
    hearing: &Hearing,
    outside: &mut O,
    halter: &mut H,
    share: &mut Share<L>,
    word: u32,
) -> Mem<(Listened, List<Halt>)>
    requires { 0 < share.old.parts }
    ensures hears { IfOk result (λ p. HearsOutside O.has_come outside.old outside.new hearing.now p.0) }
    ensures halts { IfOk result (λ p. HaltsFor H.has_halted halter.old halter.new p.1) }
    ensures counted { IfOk result (λ p. share.new.amount ≡ share.old.amount + length p.0.receipts) }
    ensures parts { share.new.parts ≡ share.old.parts }
{
    let run = Access {
        rt,
        alloc,
        shared,
        beats,
        word,
    };
    match hear_out(&run, hearing, outside, halter, share) {
        Ok(heard) => Ok(heard),
        Err(OutOfMemory) => {
            shared.give_up(rt);
            Err(OutOfMemory)
        }
    }
}

/// Offers the time that goes by, and after each step the turns by which rounds go on, and settles after each until
/// nothing is ready or a sub-run has ended, until a step is refused. Answers the receipts behind the first ones, and
/// that refusal. Units decide with the word. Where memory is wanting it gives the run up.
#[tactic(auto, using(crate::proofs::RoundLemmas::ticks_all))]
pub fn tick_rounds<T: Ticker, L: Ledger, R: Reporter>(
    rt: &impl Wait,
    alloc: Global,
    shared: &SharedRun<L, R>,
    beats: &Beats,
    ticker: &mut T,
    share: &mut Share<L>,
    word: u32,
    first: List<Receipt>,
) -> Mem<Ticked>
    requires { 0 < share.old.parts }
    ensures ticks { IfOk result (TicksRounds T.has_told ticker.old ticker.new first) }
    ensures counted { IfOk result
        (λ work. share.new.amount + length first ≡ share.old.amount + length work.receipts) }
    ensures parts { share.new.parts ≡ share.old.parts }
{
    let run = Access {
        rt,
        alloc,
        shared,
        beats,
        word,
    };
    let mut receipts = first;
    let Ok(refused) = step_all(rt, &run, ticker, share, &mut receipts) else {
        drop(receipts);
        shared.give_up(rt);
        return Err(OutOfMemory);
    };
    Ok(Ticked { receipts, refused })
}
