// Whether each thing that a run asked was handed on once.
ghost use Rattle.std.specs.Prelude.{◌≡◌, ◌<◌, ◌∷◌, ◌++◌, ◌↔◌, [], length, IfErr, IfSome, IsNone, IsTrue, OnOk};
ghost use Rattle.std.specs.Prelude.{IfOk, ℕ, Some, false, true, replicate, slice_index_or};
ghost use Rattle.std.specs.Option.{IsSome};
ghost use Rattle.run_shared.specs.Receipts.{concatenated};
ghost use Rattle.run_shared.specs.Orders.{errand_at, halted, ordered, Delivers, Flags, HasFaultAfter};
ghost use Rattle.run_shared.specs.Orders.{IsOrderFault, IsUnflagged, WasAsked};

use crate::orders::{Errand, Halt, Order, errand_at};
use crate::receipts::no_flags;
use run_capture::List;
use run_events::{Ask, AskList, ChildSignal, SignalAsk, TermSignal};
use std::alloc::Global;

/// What is wrong with orders and halts.
#[derive(Clone, Copy, Drop)]
pub enum OrderFault {
    /// One has this place, and the run asked something else there, or nothing.
    Unasked { place: u64 },
    /// Two have this place.
    Repeated { place: u64 },
    /// The run asked a signal or its own stop at this place, and none has it.
    Lost { place: u64 },
    OutOfMemory,
}

fn same_term(a: TermSignal, b: TermSignal) -> bool
    ensures { IsTrue result ↔ (a ≡ b) }
{
    a == b
}

fn same_signal(a: ChildSignal, b: ChildSignal) -> bool
    ensures { IsTrue result ↔ (a ≡ b) }
{
    match (a, b) {
        (ChildSignal::End(a), ChildSignal::End(b)) => same_term(a, b),
        (ChildSignal::Tstp, ChildSignal::Tstp) | (ChildSignal::Cont, ChildSignal::Cont) => true,
        _ => false,
    }
}

fn same_ask(a: SignalAsk, b: SignalAsk) -> bool
    ensures { IsTrue result ↔ (a ≡ b) }
{
    a.unit == b.unit && same_signal(a.signal, b.signal) && a.group == b.group
}

// Whether two things that are handed on are the same.
fn same_errand(a: Errand, b: Errand) -> bool
    ensures { IsTrue result ↔ (a ≡ b) }
{
    match (a, b) {
        (Errand::Signal { ask: a }, Errand::Signal { ask: b }) => same_ask(a, b),
        (Errand::Stop, Errand::Stop) => true,
        _ => false,
    }
}

// Whether this was asked at its place.
fn was_asked(asks: &[(u64, Ask)], place: u64, errand: Errand) -> bool
    ensures answer { IsTrue result ↔ WasAsked asks.now (place, errand) }
    ensures within { IsTrue result → place < length asks.now }
{
    match errand_at(asks, place as usize) {
        Some(found) => same_errand(found, errand),
        None => false,
    }
}

// Looks at what was handed on, and flags its place.
#[tactic(auto, using(crate::proofs::OrderLemmas::flags_one, crate::proofs::OrderLemmas::flagged_twice))]
fn flag(
    asks: &[(u64, Ask)],
    seen: &mut [bool],
    place: u64,
    errand: Errand,
) -> Result<(), OrderFault>
    requires { length seen.old ≡ length asks.now }
    ensures flags { OnOk result (Flags asks.now seen.old seen.new ((place, errand) ∷ [])) }
    ensures fault { IfErr result (HasFaultAfter asks.now seen.old ((place, errand) ∷ [])) }
{
    if !was_asked(asks, place, errand) {
        return Err(OrderFault::Unasked { place });
    }
    let at = place as usize;
    if seen[at] {
        return Err(OrderFault::Repeated { place });
    }
    seen[at] = true;
    Ok(())
}

// The same for a list of orders.
#[tactic(auto, using(crate::proofs::OrderLemmas::flags_none))]
fn flag_orders(asks: &[(u64, Ask)], seen: &mut [bool], list: &[Order]) -> Result<(), OrderFault>
    requires { length seen.old ≡ length asks.now }
    ensures flags { OnOk result (Flags asks.now seen.old seen.new (ordered list.now)) }
    ensures fault { IfErr result (HasFaultAfter asks.now seen.old (ordered list.now)) }
{
    for order in list {
        let ask = order.ask();
        if let Err(fault) = flag(asks, seen, order.place(), Errand::Signal { ask }) {
            return Err(fault);
        }
    }
    Ok(())
}

// The same for lists of orders.
#[tactic(auto, using(crate::proofs::OrderLemmas::flags_none))]
fn flag_all(asks: &[(u64, Ask)], seen: &mut [bool], lists: &[List<Order>]) -> Result<(), OrderFault>
    requires { length seen.old ≡ length asks.now }
    ensures flags { OnOk result (Flags asks.now seen.old seen.new (ordered (concatenated lists.now))) }
    ensures fault { IfErr result (HasFaultAfter asks.now seen.old (ordered (concatenated lists.now))) }
{
    for list in lists {
        if let Err(fault) = flag_orders(asks, seen, list.as_slice()) {
            return Err(fault);
        }
    }
    Ok(())
}

// The same for halts.
#[tactic(auto, using(crate::proofs::OrderLemmas::flags_none))]
fn flag_halts(asks: &[(u64, Ask)], seen: &mut [bool], halts: &[Halt]) -> Result<(), OrderFault>
    requires { length seen.old ≡ length asks.now }
    ensures flags { OnOk result (Flags asks.now seen.old seen.new (halted halts.now)) }
    ensures fault { IfErr result (HasFaultAfter asks.now seen.old (halted halts.now)) }
{
    for halt in halts {
        if let Err(fault) = flag(asks, seen, halt.place(), Errand::Stop) {
            return Err(fault);
        }
    }
    Ok(())
}

// The same for both.
fn flag_both(
    asks: &[(u64, Ask)],
    seen: &mut [bool],
    orders: &[List<Order>],
    halts: &[Halt],
) -> Result<(), OrderFault>
    requires { length seen.old ≡ length asks.now }
    ensures flags { OnOk result (Flags asks.now seen.old seen.new
        (ordered (concatenated orders.now) ++ halted halts.now)) }
    ensures fault { IfErr result (HasFaultAfter asks.now seen.old
        (ordered (concatenated orders.now) ++ halted halts.now)) }
{
    if let Err(fault) = flag_all(asks, seen, orders) {
        return Err(fault);
    }
    if let Err(fault) = flag_halts(asks, seen, halts) {
        return Err(fault);
    }
    Ok(())
}

// The first place with no flag at which something was asked.
fn find_lost(asks: &[(u64, Ask)], seen: &[bool]) -> Option<u64>
    requires { length seen.now ≡ length asks.now }
    ensures some { IfSome result (IsUnflagged asks.now seen.now) }
    ensures none { IsNone result
        → (k : ℕ) → IsSome (errand_at asks.now k) → slice_index_or seen.now k false ≡ true }
{
    for place in 0..asks.len() {
        if !seen[place] && errand_at(asks, place).is_some() {
            return Some(place as u64);
        }
    }
    None
}

// The same as below, by flags of which none is set.
fn check_all(
    asks: &[(u64, Ask)],
    seen: &mut [bool],
    orders: &[List<Order>],
    halts: &[Halt],
) -> Result<(), OrderFault>
    requires { seen.old ≡ replicate (length asks.now) false }
    ensures delivers { OnOk result (Delivers asks.now (ordered (concatenated orders.now) ++ halted halts.now)) }
    ensures fault { IfErr result (IsOrderFault asks.now (ordered (concatenated orders.now) ++ halted halts.now)) }
{
    if let Err(fault) = flag_both(asks, seen, orders, halts) {
        return Err(fault);
    }
    match find_lost(asks, seen) {
        Some(place) => Err(OrderFault::Lost { place }),
        None => Ok(()),
    }
}

/// Whether orders and halts are those of what a run asked: each stands in it at its place, no place comes twice, and
/// each signal and each stop of the program that was asked has one.
pub fn check_orders(
    alloc: Global,
    asks: &AskList,
    orders: &List<List<Order>>,
    halts: &List<Halt>,
) -> Result<(), OrderFault>
    ensures delivers { OnOk result (Delivers asks.now (ordered (concatenated orders.now) ++ halted halts.now)) }
    ensures fault { IfErr result (IsOrderFault asks.now (ordered (concatenated orders.now) ++ halted halts.now)) }
{
    let asks = asks.asks();
    let Ok(mut seen) = no_flags(alloc, asks.len()) else {
        return Err(OrderFault::OutOfMemory);
    };
    check_all(
        asks,
        seen.as_mut_slice(),
        orders.as_slice(),
        halts.as_slice(),
    )
}
