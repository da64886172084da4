// How a thread reaches a shared run.
ghost use Rattle.std.specs.Prelude.{◌≡◌, ◌<◌, ◌+◌, ◌++◌, length, IfOk, Ok, OnOk};
ghost use Rattle.run_shared.specs.Offered.{offered_turn, taken_count};
ghost use Rattle.run_drive.specs.Added.{SettlesSome};
ghost use Rattle.run_keep.specs.Entered.{EntersTurn};

use crate::Beats;
use crate::turns::Turns;
use run_capture::{List, Mem, OutOfMemory};
use run_drive::wind;
use run_events::{Reporter, StartAsk, Turn};
use run_model::Phase;
use run_shared::{Halt, Offered, Order, Receipt, Refusal, SharedRun};
use std::alloc::Global;
use std::sync::Wait;
use std::sync::ledger::{Ledger, Share};

/// What a thread reaches a run by.
pub(crate) struct Access<'a, X: Wait, L: Ledger, R: Reporter> {
    pub rt: &'a X,
    pub alloc: Global,
    pub shared: &'a SharedRun<L, R>,
    pub beats: &'a Beats,
    /// From which the words come by which units decide.
    pub word: u32,
}

impl<'a, X: Wait, L: Ledger, R: Reporter> Drop for Access<'a, X, L, R> {
    fn drop(self) {
        let Access {
            rt: _,
            alloc: _,
            shared: _,
            beats: _,
            word: _,
        } = self;
    }
}

// Adds what came of a turn.
#[tactic(auto, using(crate::proofs::EnterLemmas::enters_taken, crate::proofs::EnterLemmas::enters_refused))]
fn add_offered(
    alloc: Global,
    offered: Offered,
    receipts: &mut List<Receipt>,
) -> Mem<Option<Refusal>>
    ensures enters { IfOk result (λ refusal. EntersTurn receipts.old (offered_turn offered) refusal receipts.new) }
    ensures counted { OnOk result (length receipts.new ≡ length receipts.old + taken_count offered) }
{
    match offered {
        Offered::Taken { receipt } => {
            receipts.push(alloc, receipt)?;
            Ok(None)
        }
        Offered::Refused { refusal } => Ok(Some(refusal)),
    }
}

// Adds receipts.
fn append(alloc: Global, receipts: &mut List<Receipt>, more: List<Receipt>) -> Mem<()>
    ensures { OnOk result (receipts.new ≡ receipts.old ++ more) }
{
    for receipt in more.into_vec(alloc) {
        receipts.push(alloc, receipt)?;
    }
    Ok(())
}

// Offers a turn, and adds its receipt. Answers the refusal, if it was refused.
fn offer<X: Wait, L: Ledger, R: Reporter>(
    run: &Access<X, L, R>,
    share: &mut Share<L>,
    turn: Turn,
    receipts: &mut List<Receipt>,
) -> Mem<Option<Refusal>>
    requires { 0 < share.old.parts }
    ensures enters { IfOk result (λ refusal. EntersTurn receipts.old turn refusal receipts.new) }
    ensures counted { OnOk result
        (share.new.amount + length receipts.old ≡ share.old.amount + length receipts.new) }
    ensures parts { share.new.parts ≡ share.old.parts }
{
    let offered = run.shared.offer(run.rt, run.alloc, share, turn)?;
    add_offered(run.alloc, offered, receipts)
}

// Another word for each number of receipts, so that a worker's delays differ: a step of a sequence that comes to each
// word, with its bits mixed.
fn word_after(word: u32, receipts: usize) -> u32 {
    let steps = (receipts as u64 & 0xffff_ffff) as u32;
    let next = word.wrapping_add(steps.wrapping_mul(0x9e37_79b9));
    let mixed = (next ^ (next >> 16)).wrapping_mul(0x85eb_ca6b);
    mixed ^ (mixed >> 13)
}

// Settles until nothing is ready or a sub-run has ended, and adds the receipts.
#[tactic(auto, using(crate::proofs::EnterLemmas::settles_these))]
fn settle<X: Wait, L: Ledger, R: Reporter>(
    run: &Access<X, L, R>,
    share: &mut Share<L>,
    receipts: &mut List<Receipt>,
) -> Mem<()>
    requires { 0 < share.old.parts }
    ensures settles { OnOk result (SettlesSome receipts.old receipts.new) }
    ensures counted { OnOk result
        (share.new.amount + length receipts.old ≡ share.old.amount + length receipts.new) }
    ensures parts { share.new.parts ≡ share.old.parts }
{
    let word = word_after(run.word, receipts.len());
    let settled = wind(run.rt, run.alloc, run.shared, share, word)?;
    append(run.alloc, receipts, settled)?;
    Ok(())
}

// This value, unless memory was wanting. It is one piece here, which keeps the proof of the caller small.
fn if_done<T: Drop>(value: T, done: Mem<()>) -> Mem<T>
    ensures value { IfOk result (λ v. v ≡ value) }
    ensures done { IfOk result (λ v. done ≡ Ok tt) }
{
    match done {
        Ok(()) => Ok(value),
        Err(OutOfMemory) => Err(OutOfMemory),
    }
}

impl<'a, X: Wait, L: Ledger, R: Reporter> Turns<L> for Access<'a, X, L, R> {
    #[tactic(auto, using(crate::proofs::EnterLemmas::enters_more))]
    fn enter(
        &self,
        share: &mut Share<L>,
        turn: Turn,
        receipts: &mut List<Receipt>,
    ) -> Mem<Option<Refusal>> {
        let refusal = offer(self, share, turn, receipts)?;
        let done = settle(self, share, receipts);
        let answer = if_done(refusal, done)?;
        Ok(answer)
    }

    fn next_start(&self) -> Option<StartAsk> {
        self.shared.next_start(self.rt)
    }

    fn asked_count(&self) -> u64 {
        self.shared.asked_count(self.rt)
    }

    fn next_order(&self, unit: u32, from: &mut u64) -> Option<Order> {
        self.shared.next_order(self.rt, unit, from)
    }

    fn next_halt(&self, from: &mut u64) -> Option<Halt> {
        self.shared.next_halt(self.rt, from)
    }

    fn phase(&self, unit: u32) -> Option<Phase> {
        self.shared.phase(self.rt, unit)
    }

    fn is_done(&self) -> bool {
        self.shared.is_done(self.rt)
    }

    fn give_up(&self) {
        self.shared.give_up(self.rt);
    }

    fn ticks(&self) -> u64 {
        self.beats.ticks()
    }

    fn note_tick(&self) {
        self.beats.note_tick();
    }

    fn note_order(&self) {
        self.beats.note_order();
    }

    fn orders_noted(&self) -> u64 {
        self.beats.orders()
    }

    fn alloc(&self) -> Global {
        self.alloc
    }
}
