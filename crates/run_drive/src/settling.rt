// Turns that are taken, each with those that the run takes by itself after it.
ghost use Rattle.std.specs.Prelude.{◌≡◌, ◌<◌, ◌+◌, length, IfOk, OnOk, if◌then◌else◌, Option, Some, None};
ghost use Rattle.std.specs.List.{All};
ghost use Rattle.run_shared.specs.Offered.{offered_turn, taken_count};
ghost use Rattle.run_drive.specs.Driven.{OfTicker};
ghost use Rattle.run_drive.specs.Added.{SettlesSome, Enters, IsSettled, is_full, is_full_kind, is_taken, settles_on};

use crate::Work;
use crate::awaited::Awaited;
use run_capture::{List, Mem, OutOfMemory};
use run_engine::StepError;
use run_events::{Reporter, StartAsk, Turn};
use run_shared::{Offered, Receipt, RefusalKind, SharedRun};
use std::alloc::Global;
use std::sync::Wait;
use std::sync::ledger::{Ledger, Share};

/// What a thread reaches a run by.
pub(crate) struct Access<'a, X: Wait, L: Ledger, R: Reporter> {
    pub rt: &'a X,
    pub alloc: Global,
    pub shared: &'a SharedRun<L, R>,
    /// By which units decide.
    pub word: u32,
    /// Whether settling pauses where a sub-run has ended: else a run whose sub-runs start no child would settle on, and
    /// no time would go by.
    pub pauses: bool,
}

impl<'a, X: Wait, L: Ledger, R: Reporter> Drop for Access<'a, X, L, R> {
    fn drop(self) {
        let Access {
            rt: _,
            alloc: _,
            shared: _,
            word: _,
            pauses: _,
        } = self;
    }
}

impl<'a, X: Wait, L: Ledger, R: Reporter> Access<'a, X, L, R> {
    // Whether settling goes on after this turn.
    fn settles_on(&self, turn: &Turn) -> bool
        ensures { result ≡ settles_on self.now.pauses turn.now }
    {
        !(self.pauses && matches!(turn, Turn::End))
    }
}

/// How a run answered a turn.
#[derive(Clone, Copy, Drop)]
pub(crate) enum Answer {
    Taken,
    Refused { kind: RefusalKind },
}

// Whether a refusal says that the journal is full.
fn is_full_kind(kind: RefusalKind) -> bool
    ensures { result ≡ is_full_kind kind }
{
    match kind {
        RefusalKind::Full => true,
        RefusalKind::NotEnabled | RefusalKind::ThirdSignal => false,
    }
}

impl Answer {
    /// Whether the run took the turn.
    pub(crate) fn is_taken(self) -> bool
        ensures { result ≡ is_taken self }
    {
        match self {
            Answer::Taken => true,
            Answer::Refused { .. } => false,
        }
    }

    // Whether the run takes no turn any more, since its journal is full.
    fn is_full(self) -> bool
        ensures { result ≡ is_full self }
    {
        match self {
            Answer::Taken => false,
            Answer::Refused { kind } => is_full_kind(kind),
        }
    }

    /// What a worker waits for, unless the run takes no turn any more.
    pub(crate) fn unless_full(self, awaited: Awaited) -> Option<Awaited>
        ensures { result ≡ (if is_full self then None else Some awaited) }
    {
        if self.is_full() { None } else { Some(awaited) }
    }
}

/// What settles turns of a run.
trait Settles<L: Ledger> {
    /// Settles one turn, and adds its receipt; none where nothing is ready. Answers whether settling goes on. Who
    /// pauses at the end of a sub-run is answered there as where nothing is ready.
    fn settle(&self, share: &mut Share<L>, receipts: &mut List<Receipt>) -> Mem<bool>
        requires { 0 < share.old.parts }
        ensures settles { OnOk result (SettlesSome receipts.old receipts.new) }
        ensures counted { OnOk result
            (share.new.amount + length receipts.old ≡ share.old.amount + length receipts.new) }
        ensures parts { share.new.parts ≡ share.old.parts };
}

/// What takes turns of a run. A type parameter of this kind keeps the proofs of all that take turns small.
pub(crate) trait Steps<L: Ledger> {
    /// Offers a turn, settles until nothing is ready, and adds the receipts, or the refusal.
    fn enter(&self, share: &mut Share<L>, turn: Turn, work: &mut Work) -> Mem<Answer>
        requires { 0 < share.old.parts }
        ensures enters { IfOk result (λ answer. Enters work.old turn answer work.new) }
        ensures counted { OnOk result
            (share.new.amount + length work.old.receipts ≡ share.old.amount + length work.new.receipts) }
        ensures parts { share.new.parts ≡ share.old.parts };

    /// Waits for a start, and claims it; none where no start comes any more.
    fn next_start(&self) -> Option<StartAsk>;

    /// What memory is taken from.
    fn alloc(&self) -> Global;
}

// Settles one turn, and adds its receipt; none where nothing is ready. Answers whether settling goes on.
#[tactic(auto, using(crate::proofs::AddedLemmas::settles_none, crate::proofs::AddedLemmas::settles_one))]
fn settle_one<X: Wait, L: Ledger, R: Reporter>(
    run: &Access<X, L, R>,
    share: &mut Share<L>,
    receipts: &mut List<Receipt>,
) -> Mem<bool>
    requires { 0 < share.old.parts }
    ensures settles { OnOk result (SettlesSome receipts.old receipts.new) }
    ensures counted { OnOk result
        (share.new.amount + length receipts.old ≡ share.old.amount + length receipts.new) }
    ensures parts { share.new.parts ≡ share.old.parts }
{
    match run.shared.settle(run.rt, run.alloc, share, run.word) {
        Ok(Some(receipt)) => {
            let goes_on = run.settles_on(receipt.turn());
            receipts.push(run.alloc, receipt)?;
            Ok(goes_on)
        }
        Ok(None) => Ok(false),
        Err(StepError::OutOfMemory) => Err(OutOfMemory),
        Err(_) => Ok(false),
    }
}

impl<'a, X: Wait, L: Ledger, R: Reporter> Settles<L> for Access<'a, X, L, R> {
    fn settle(&self, share: &mut Share<L>, receipts: &mut List<Receipt>) -> Mem<bool> {
        settle_one(self, share, receipts)
    }
}

// Settles until nothing is ready, and adds the receipts.
#[tactic(auto, using(crate::proofs::AddedLemmas::settles_none, crate::proofs::AddedLemmas::settles_more))]
fn settle_all<X: Wait, L: Ledger, S: Settles<L>>(
    rt: &X,
    run: &S,
    share: &mut Share<L>,
    receipts: &mut List<Receipt>,
) -> Mem<()>
    requires { 0 < share.old.parts }
    ensures settles { OnOk result (SettlesSome receipts.old receipts.new) }
    ensures counted { OnOk result
        (share.new.amount + length receipts.old ≡ share.old.amount + length receipts.new) }
    ensures parts { share.new.parts ≡ share.old.parts }
{
    for _ in rt.forever() {
        match run.settle(share, receipts) {
            Ok(true) => {}
            Ok(false) => return Ok(()),
            Err(OutOfMemory) => return Err(OutOfMemory),
        }
    }
    unreachable!()
}

// Adds what came of a turn.
#[tactic(auto, using(crate::proofs::AddedLemmas::enters_taken, crate::proofs::AddedLemmas::enters_refused))]
fn add(alloc: Global, offered: Offered, work: &mut Work) -> Mem<Answer>
    ensures enters { IfOk result (λ answer. Enters work.old (offered_turn offered) answer work.new) }
    ensures counted { OnOk result (length work.new.receipts ≡ length work.old.receipts + taken_count offered) }
{
    match offered {
        Offered::Taken { receipt } => {
            work.receipts.push(alloc, receipt)?;
            Ok(Answer::Taken)
        }
        Offered::Refused { refusal } => {
            let kind = refusal.kind();
            work.refused.push(alloc, refusal)?;
            Ok(Answer::Refused { kind })
        }
    }
}

// Offers a turn, and adds its receipt or its refusal.
fn offer_turn<X: Wait, L: Ledger, R: Reporter>(
    run: &Access<X, L, R>,
    share: &mut Share<L>,
    turn: Turn,
    work: &mut Work,
) -> Mem<Answer>
    requires { 0 < share.old.parts }
    ensures enters { IfOk result (λ answer. Enters work.old turn answer work.new) }
    ensures counted { OnOk result
        (share.new.amount + length work.old.receipts ≡ share.old.amount + length work.new.receipts) }
    ensures parts { share.new.parts ≡ share.old.parts }
{
    let offered = run.shared.offer(run.rt, run.alloc, share, turn)?;
    add(run.alloc, offered, work)
}

impl<'a, X: Wait, L: Ledger, R: Reporter> Steps<L> for Access<'a, X, L, R> {
    #[tactic(auto, using(crate::proofs::AddedLemmas::enters_more))]
    fn enter(&self, share: &mut Share<L>, turn: Turn, work: &mut Work) -> Mem<Answer> {
        let answer = offer_turn(self, share, turn, work)?;
        settle_all(self.rt, self, share, &mut work.receipts)?;
        Ok(answer)
    }

    fn next_start(&self) -> Option<StartAsk> {
        self.shared.next_start(self.rt)
    }

    fn alloc(&self) -> Global {
        self.alloc
    }
}

/// Settles until nothing is ready, or a sub-run has ended. Units decide with the word. Where memory is wanting it gives
/// the run up.
#[tactic(auto, using(crate::proofs::AddedLemmas::ticks_settled, crate::proofs::AddedLemmas::only_settled))]
pub fn wind<L: Ledger, R: Reporter>(
    rt: &impl Wait,
    alloc: Global,
    shared: &SharedRun<L, R>,
    share: &mut Share<L>,
    word: u32,
) -> Mem<List<Receipt>>
    requires { 0 < share.old.parts }
    ensures kinds { IfOk result (λ rs. All OfTicker rs) }
    ensures settled { IfOk result (λ rs. All IsSettled rs) }
    ensures counted { IfOk result (λ rs. share.new.amount ≡ share.old.amount + length rs) }
    ensures parts { share.new.parts ≡ share.old.parts }
{
    let run = Access {
        rt,
        alloc,
        shared,
        word,
        pauses: true,
    };
    let mut receipts = List::new();
    let Ok(()) = settle_all(rt, &run, share, &mut receipts) else {
        drop(receipts);
        shared.give_up(rt);
        return Err(OutOfMemory);
    };
    Ok(receipts)
}
