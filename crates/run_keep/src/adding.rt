// The turn of a child that is taken or refused.
ghost use Rattle.std.specs.Prelude.{◌≡◌, ◌<◌, ◌+◌, length, OnOk, false, true};
ghost use Rattle.run_drive.specs.Driven.{is_child_turn};
ghost use Rattle.run_keep.specs.Entered.{AddsChildTurn};
ghost use Rattle.run_keep.specs.Minded.{is_written};

use crate::Kept;
use crate::turns::Turns;
use run_capture::Mem;
use run_events::Turn;
use std::sync::ledger::{Ledger, Share};

/// Offers the turn of a child, and adds the receipts, or the refusal.
#[tactic(auto, using(crate::proofs::EnterLemmas::adds_taken, crate::proofs::EnterLemmas::adds_refused))]
pub(crate) fn add<L: Ledger, T: Turns<L>>(
    run: &T,
    share: &mut Share<L>,
    turn: Turn,
    work: &mut Kept,
) -> Mem<()>
    requires share { 0 < share.old.parts }
    requires child { is_child_turn turn ≡ true }
    requires unwritten { is_written turn ≡ false }
    ensures adds { OnOk result (AddsChildTurn work.old turn work.new) }
    ensures counted { OnOk result
        (share.new.amount + length work.old.receipts ≡ share.old.amount + length work.new.receipts) }
    ensures parts { share.new.parts ≡ share.old.parts }
{
    let Some(refusal) = run.enter(share, turn, &mut work.receipts)? else {
        return Ok(());
    };
    work.lost.push(run.alloc(), refusal)?;
    Ok(())
}
