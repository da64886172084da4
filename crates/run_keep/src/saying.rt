// What a keeper says of its child.
ghost use Rattle.std.specs.Prelude.{ℕ, ◌≡◌, ◌<◌, ◌+◌, length, Bool, IfOk, OnOk, Option, Some, true, false};
ghost use Rattle.run_keep.specs.Minded.{Minded, ends_child, runs, child_started};

use crate::adding::add;
use crate::turns::Turns;
use crate::{Keeper, Kept};
use run_capture::Mem;
use run_drive::{Begun, Said};
use run_events::{StartAsk, Turn};
use std::sync::ledger::{Ledger, Share};

/// How a worker watches a child.
#[derive(Clone, Copy, Drop)]
pub(crate) struct Watch {
    /// Whether the child wasn't waited for yet.
    pub runs: bool,
    /// Whether its streams are read: not while the run refuses what it wrote.
    pub reads: bool,
}

// Whether a child was waited for, once this is said.
fn ends_child(said: &Said) -> bool
    ensures { result ≡ ends_child said.now }
{
    match said {
        Said::Exit { .. } | Said::WaitFailed { .. } => true,
        Said::Piece { .. } | Said::End { .. } | Said::ReadError { .. } | Said::Env { .. } => false,
    }
}

// Whether a child was started.
fn is_started(begun: &Begun) -> bool
    ensures { (unit : ℕ) → Some (unit, result) ≡ child_started unit begun.now }
{
    matches!(begun, Begun::Started { .. })
}

/// Asks for a start, and offers the answer. Answers whether the child runs.
#[tactic(auto, using(crate::proofs::SayLemmas::minded_begun, run_drive::proofs::KindLemmas::begun_child, crate::proofs::SayLemmas::begun_unwritten))]
pub(crate) fn begin<K: Keeper, L: Ledger, T: Turns<L>>(
    run: &T,
    keeper: &mut K,
    share: &mut Share<L>,
    start: &StartAsk,
    work: &mut Kept,
) -> Mem<bool>
    requires { 0 < share.old.parts }
    ensures minded { IfOk result (λ on. (child : Option (ℕ × Bool)) → runs child ≡ false
        → Minded K.has_heard keeper.old keeper.new child (Some (start.now.unit, on)) work.old work.new) }
    ensures counted { OnOk result
        (share.new.amount + length work.old.receipts ≡ share.old.amount + length work.new.receipts) }
    ensures parts { share.new.parts ≡ share.old.parts }
{
    let begun = keeper.start(run.alloc(), start)?;
    let runs = is_started(&begun);
    add(run, share, begun.into_turn(start.unit), work)?;
    Ok(runs)
}

// Says the end of a child, and offers it.
#[tactic(auto, using(crate::proofs::SayLemmas::minded_end, run_drive::proofs::KindLemmas::said_child, crate::proofs::SayLemmas::end_unwritten))]
fn say_end<K: Keeper, L: Ledger, T: Turns<L>>(
    run: &T,
    keeper: &mut K,
    share: &mut Share<L>,
    unit: u32,
    said: Said,
    work: &mut Kept,
) -> Mem<()>
    requires share { 0 < share.old.parts }
    requires offered { K.offers keeper.old said }
    requires end { ends_child said ≡ true }
    ensures minded { OnOk result ((on : Bool)
        → Minded K.has_heard keeper.old keeper.new (Some (unit, on)) (Some (unit, false)) work.old work.new) }
    ensures counted { OnOk result
        (share.new.amount + length work.old.receipts ≡ share.old.amount + length work.new.receipts) }
    ensures parts { share.new.parts ≡ share.old.parts }
{
    keeper.accept(run.alloc())?;
    add(run, share, said.into_turn(unit), work)
}

// Offers a word of a child, and says it if it was taken. Answers whether it was.
#[tactic(auto, using(crate::proofs::SayLemmas::minded_word, crate::proofs::SayLemmas::minded_refused))]
fn say_word<K: Keeper, L: Ledger, T: Turns<L>>(
    run: &T,
    keeper: &mut K,
    share: &mut Share<L>,
    unit: u32,
    said: Said,
    work: &mut Kept,
) -> Mem<bool>
    requires share { 0 < share.old.parts }
    requires offered { K.offers keeper.old said }
    requires goes_on { ends_child said ≡ false }
    ensures minded { OnOk result ((on : Bool)
        → Minded K.has_heard keeper.old keeper.new (Some (unit, on)) (Some (unit, on)) work.old work.new) }
    ensures counted { OnOk result
        (share.new.amount + length work.old.receipts ≡ share.old.amount + length work.new.receipts) }
    ensures parts { share.new.parts ≡ share.old.parts }
{
    match run.enter(share, said.into_turn(unit), &mut work.receipts)? {
        Some(refusal) => {
            drop(refusal);
            Ok(false)
        }
        None => {
            keeper.accept(run.alloc())?;
            Ok(true)
        }
    }
}

// Offers what a child did. Answers how it is watched then.
fn say<K: Keeper, L: Ledger, T: Turns<L>>(
    run: &T,
    keeper: &mut K,
    share: &mut Share<L>,
    unit: u32,
    runs: bool,
    said: Said,
    work: &mut Kept,
) -> Mem<Watch>
    requires share { 0 < share.old.parts }
    requires offered { K.offers keeper.old said }
    ensures minded { IfOk result (λ next. Minded K.has_heard keeper.old keeper.new
        (Some (unit, runs)) (Some (unit, next.runs)) work.old work.new) }
    ensures counted { OnOk result
        (share.new.amount + length work.old.receipts ≡ share.old.amount + length work.new.receipts) }
    ensures parts { share.new.parts ≡ share.old.parts }
{
    if ends_child(&said) {
        say_end(run, keeper, share, unit, said, work)?;
        return Ok(Watch {
            runs: false,
            reads: true,
        });
    }
    let reads = say_word(run, keeper, share, unit, said, work)?;
    Ok(Watch { runs, reads })
}

/// Looks at a child, and offers what it did, if it did something.
#[tactic(auto, using(crate::proofs::SayLemmas::minded_still))]
pub(crate) fn look<K: Keeper, L: Ledger, T: Turns<L>>(
    run: &T,
    keeper: &mut K,
    share: &mut Share<L>,
    unit: u32,
    watch: Watch,
    work: &mut Kept,
) -> Mem<Watch>
    requires { 0 < share.old.parts }
    ensures minded { IfOk result (λ next. Minded K.has_heard keeper.old keeper.new
        (Some (unit, watch.runs)) (Some (unit, next.runs)) work.old work.new) }
    ensures counted { OnOk result
        (share.new.amount + length work.old.receipts ≡ share.old.amount + length work.new.receipts) }
    ensures parts { share.new.parts ≡ share.old.parts }
{
    let Some(said) = keeper.offer(run.alloc(), watch.reads)? else {
        return Ok(watch);
    };
    let next = say(run, keeper, share, unit, watch.runs, said, work)?;
    Ok(next)
}

/// Says what stands in the environment file of a child that has ended, and offers it.
#[tactic(auto, using(crate::proofs::SayLemmas::minded_env))]
pub(crate) fn say_env<K: Keeper, L: Ledger, T: Turns<L>>(
    run: &T,
    keeper: &mut K,
    share: &mut Share<L>,
    unit: u32,
    work: &mut Kept,
) -> Mem<()>
    requires { 0 < share.old.parts }
    ensures minded { OnOk result (Minded K.has_heard keeper.old keeper.new (Some (unit, false)) (Some (unit, false))
        work.old work.new) }
    ensures counted { OnOk result
        (share.new.amount + length work.old.receipts ≡ share.old.amount + length work.new.receipts) }
    ensures parts { share.new.parts ≡ share.old.parts }
{
    let input = keeper.read_env(run.alloc())?;
    add(run, share, Turn::Env { unit, input }, work)
}
