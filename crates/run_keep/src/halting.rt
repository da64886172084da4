// The stops of the program that a run asks.
ghost use Rattle.std.specs.Prelude.{◌≡◌, [], OnOk};
ghost use Rattle.run_keep.specs.Halted.{Halts};

use crate::Halter;
use crate::turns::Turns;
use run_capture::{List, Mem, OutOfMemory};
use run_shared::Halt;
use std::alloc::Global;
use std::sync::Wait;
use std::sync::ledger::Ledger;

/// The stops that were asked: those for which the program was stopped, the place behind the last one that was looked
/// at, and the one that waits for signals to be handed on.
#[derive(Drop)]
pub(crate) struct Stops {
    pub halts: List<Halt>,
    pub from: u64,
    pub waiting: Option<Halt>,
}

impl Stops {
    // None yet.
    pub(crate) fn new() -> Stops
        ensures { result.halts ≡ [] }
    {
        Stops {
            halts: List::new(),
            from: 0,
            waiting: None,
        }
    }
}

// Stops the program, and keeps for what.
#[tactic(auto, using(crate::proofs::HaltLemmas::halts_one))]
fn halt<H: Halter>(alloc: Global, halter: &mut H, halts: &mut List<Halt>, halt: Halt) -> Mem<()>
    ensures { OnOk result (Halts H.has_halted halter.old halter.new halts.old halts.new) }
{
    halter.halt(alloc)?;
    halts.push(alloc, halt)?;
    Ok(())
}

/// Stops the program where that was asked next, once each signal that was asked before was handed on.
#[tactic(auto, using(crate::proofs::HaltLemmas::halts_none))]
pub(crate) fn halt_next<H: Halter, L: Ledger, T: Turns<L>>(
    run: &T,
    halter: &mut H,
    stops: &mut Stops,
) -> Mem<()>
    ensures { OnOk result (Halts H.has_halted halter.old halter.new stops.old.halts stops.new.halts) }
{
    let Some(next) = stops.waiting.take() else {
        stops.waiting = run.next_halt(&mut stops.from);
        return Ok(());
    };
    if run.orders_noted() < next.signals() {
        stops.waiting = Some(next);
        return Ok(());
    }
    halt(run.alloc(), halter, &mut stops.halts, next)
}

/// Stops the program as often as that is still to be.
#[tactic(auto, using(crate::proofs::HaltLemmas::halts_none, crate::proofs::HaltLemmas::halts_more))]
pub(crate) fn halt_rest<H: Halter, X: Wait, L: Ledger, T: Turns<L>>(
    rt: &X,
    run: &T,
    halter: &mut H,
    stops: &mut Stops,
) -> Mem<()>
    ensures { OnOk result (Halts H.has_halted halter.old halter.new stops.old.halts stops.new.halts) }
{
    for _ in rt.forever() {
        let next = match stops.waiting.take() {
            Some(halt) => Some(halt),
            None => run.next_halt(&mut stops.from),
        };
        let Some(next) = next else {
            return Ok(());
        };
        match halt(run.alloc(), halter, &mut stops.halts, next) {
            Ok(()) => {}
            Err(OutOfMemory) => return Err(OutOfMemory),
        }
    }
    unreachable!()
}
