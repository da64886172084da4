// What takes turns of a run, and hands out what it asks.
ghost use Rattle.std.specs.Prelude.{◌≡◌, ◌<◌, ◌+◌, ◌≤◌, length, IfOk, IfSome, OnOk};
ghost use Rattle.run_keep.specs.Entered.{EntersTurn};

use run_capture::{List, Mem};
use run_events::{StartAsk, Turn};
use run_model::Phase;
use run_shared::{Halt, Order, Receipt, Refusal};
use std::alloc::Global;
use std::sync::ledger::{Ledger, Share};

/// What a thread does with a run. A type parameter of this kind keeps the proofs of all that take turns small.
pub(crate) trait Turns<L: Ledger> {
    /// Offers a turn, settles until nothing is ready or a sub-run has ended, and adds the receipts. Answers the
    /// refusal, if the turn was refused.
    fn enter(
        &self,
        share: &mut Share<L>,
        turn: Turn,
        receipts: &mut List<Receipt>,
    ) -> Mem<Option<Refusal>>
        requires { 0 < share.old.parts }
        ensures enters { IfOk result (λ refusal. EntersTurn receipts.old turn refusal receipts.new) }
        ensures counted { OnOk result
            (share.new.amount + length receipts.old ≡ share.old.amount + length receipts.new) }
        ensures parts { share.new.parts ≡ share.old.parts };

    /// Waits for a start, and claims it; none where no start comes any more.
    fn next_start(&self) -> Option<StartAsk>;

    /// How many things were asked.
    fn asked_count(&self) -> u64;

    /// The first signal for a unit that was asked at this place or later; the place then is behind it.
    fn next_order(&self, unit: u32, from: &mut u64) -> Option<Order>
        ensures unit { IfSome result (λ o. o.ask.unit ≡ unit) }
        ensures place { IfSome result (λ o. from.old ≤ o.place) }
        ensures after { IfSome result (λ o. from.new ≡ o.place + 1) }
        ensures later { from.old ≤ from.new };

    /// The first stop of the program that was asked at this place or later; the place then is behind it.
    fn next_halt(&self, from: &mut u64) -> Option<Halt>
        ensures { from.old ≤ from.new };

    /// The phase of a unit.
    fn phase(&self, unit: u32) -> Option<Phase>;

    /// Whether the run takes no turn any more.
    fn is_done(&self) -> bool;

    /// Gives the run up, unless it is over.
    fn give_up(&self);

    /// How often the clock was moved.
    fn ticks(&self) -> u64;

    /// Notes that the clock was moved.
    fn note_tick(&self);

    /// Notes that a signal was handed on.
    fn note_order(&self);

    /// How many signals were handed on.
    fn orders_noted(&self) -> u64;

    /// What memory is taken from.
    fn alloc(&self) -> Global;
}
