// What a ticker does that also ends rounds.
ghost use Rattle.std.specs.Prelude.{◌≡◌, ◌<◌, ◌+◌, length, Some, IfOk, OnOk};
ghost use Rattle.run_keep.specs.Rounds.{Rests, StepsTo, round_turn};

use crate::turns::Turns;
use run_capture::{List, Mem, OutOfMemory};
use run_drive::Ticker;
use run_events::Turn;
use run_shared::{Receipt, Refusal};
use std::sync::Wait;
use std::sync::ledger::{Ledger, Share};

/// A turn by which a round goes on: the wait for units that stop has ended, a collection of answers has, or a unit's
/// answer is told.
#[derive(Clone, Copy, Drop)]
pub enum Round {
    StopWaitDue,
    Answer,
    InfoDue,
}

impl Round {
    fn turn(self) -> Turn
        ensures { result ≡ round_turn self }
    {
        match self {
            Round::StopWaitDue => Turn::StopWaitDue,
            Round::Answer => Turn::Answer,
            Round::InfoDue => Turn::InfoDue,
        }
    }
}

/// What a ticker of rounds leaves of a run: the receipts of the turns that were taken, and the refusal of its last
/// step.
#[derive(Drop)]
pub struct Ticked {
    pub receipts: List<Receipt>,
    pub refused: Refusal,
}

// Offers a turn of a round. Answers whether it was taken.
#[tactic(auto, using(crate::proofs::RoundLemmas::rests_taken, crate::proofs::RoundLemmas::rests_refused))]
fn enter_round<L: Ledger, T: Turns<L>>(
    run: &T,
    share: &mut Share<L>,
    round: Round,
    receipts: &mut List<Receipt>,
) -> Mem<bool>
    requires { 0 < share.old.parts }
    ensures rests { OnOk result (Rests receipts.old receipts.new) }
    ensures counted { OnOk result
        (share.new.amount + length receipts.old ≡ share.old.amount + length receipts.new) }
    ensures parts { share.new.parts ≡ share.old.parts }
{
    let Some(refusal) = run.enter(share, round.turn(), receipts)? else {
        return Ok(true);
    };
    drop(refusal);
    Ok(false)
}

// The same until it isn't taken.
#[tactic(auto, using(crate::proofs::RoundLemmas::rests_none, crate::proofs::RoundLemmas::rests_more))]
fn enter_rounds<X: Wait, L: Ledger, T: Turns<L>>(
    rt: &X,
    run: &T,
    share: &mut Share<L>,
    round: Round,
    receipts: &mut List<Receipt>,
) -> Mem<()>
    requires { 0 < share.old.parts }
    ensures rests { OnOk result (Rests receipts.old receipts.new) }
    ensures counted { OnOk result
        (share.new.amount + length receipts.old ≡ share.old.amount + length receipts.new) }
    ensures parts { share.new.parts ≡ share.old.parts }
{
    for _ in rt.forever() {
        match enter_round(run, share, round, receipts) {
            Ok(true) => {}
            Ok(false) => return Ok(()),
            Err(OutOfMemory) => return Err(OutOfMemory),
        }
    }
    unreachable!()
}

// The same for each turn of rounds.
#[tactic(auto, using(crate::proofs::RoundLemmas::rests_thrice))]
fn enter_all<X: Wait, L: Ledger, T: Turns<L>>(
    rt: &X,
    run: &T,
    share: &mut Share<L>,
    receipts: &mut List<Receipt>,
) -> Mem<()>
    requires { 0 < share.old.parts }
    ensures rests { OnOk result (Rests receipts.old receipts.new) }
    ensures counted { OnOk result
        (share.new.amount + length receipts.old ≡ share.old.amount + length receipts.new) }
    ensures parts { share.new.parts ≡ share.old.parts }
{
    enter_rounds(rt, run, share, Round::StopWaitDue, receipts)?;
    enter_rounds(rt, run, share, Round::Answer, receipts)?;
    enter_rounds(rt, run, share, Round::InfoDue, receipts)?;
    Ok(())
}

// Offers the next step of the ticker. Answers the refusal, if it was refused.
#[tactic(auto, using(crate::proofs::RoundLemmas::steps_one))]
fn step<K: Ticker, L: Ledger, T: Turns<L>>(
    run: &T,
    ticker: &mut K,
    share: &mut Share<L>,
    receipts: &mut List<Receipt>,
) -> Mem<Option<Refusal>>
    requires { 0 < share.old.parts }
    ensures steps { IfOk result (λ o. StepsTo K.has_told ticker.old ticker.new o receipts.old receipts.new) }
    ensures counted { OnOk result
        (share.new.amount + length receipts.old ≡ share.old.amount + length receipts.new) }
    ensures parts { share.new.parts ≡ share.old.parts }
{
    let ns = ticker.next();
    let refusal = run.enter(share, Turn::Clock { ns }, receipts)?;
    Ok(refusal)
}

// The same, and the turns of rounds after a step that was taken.
#[tactic(auto, using(crate::proofs::RoundLemmas::steps_rest))]
fn step_on<K: Ticker, X: Wait, L: Ledger, T: Turns<L>>(
    rt: &X,
    run: &T,
    ticker: &mut K,
    share: &mut Share<L>,
    receipts: &mut List<Receipt>,
) -> Mem<Option<Refusal>>
    requires { 0 < share.old.parts }
    ensures steps { IfOk result (λ o. StepsTo K.has_told ticker.old ticker.new o receipts.old receipts.new) }
    ensures counted { OnOk result
        (share.new.amount + length receipts.old ≡ share.old.amount + length receipts.new) }
    ensures parts { share.new.parts ≡ share.old.parts }
{
    if let Some(refusal) = step(run, ticker, share, receipts)? {
        return Ok(Some(refusal));
    }
    run.note_tick();
    enter_all(rt, run, share, receipts)?;
    Ok(None)
}

/// Offers each step of the ticker, and after each the turns of rounds, until a step is refused. Answers that refusal.
#[tactic(auto, using(crate::proofs::RoundLemmas::steps_none, crate::proofs::RoundLemmas::steps_more))]
pub(crate) fn step_all<K: Ticker, X: Wait, L: Ledger, T: Turns<L>>(
    rt: &X,
    run: &T,
    ticker: &mut K,
    share: &mut Share<L>,
    receipts: &mut List<Receipt>,
) -> Mem<Refusal>
    requires { 0 < share.old.parts }
    ensures steps { IfOk result (λ x. StepsTo K.has_told ticker.old ticker.new (Some x) receipts.old receipts.new) }
    ensures counted { OnOk result
        (share.new.amount + length receipts.old ≡ share.old.amount + length receipts.new) }
    ensures parts { share.new.parts ≡ share.old.parts }
{
    for _ in rt.forever() {
        match step_on(rt, run, ticker, share, receipts) {
            Ok(None) => {}
            Ok(Some(refusal)) => return Ok(refusal),
            Err(OutOfMemory) => return Err(OutOfMemory),
        }
    }
    unreachable!()
}
