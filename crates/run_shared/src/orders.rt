// What a run asks to be handed on: signals to children, and stops of the program.
ghost use Rattle.std.specs.Prelude.{◌≡◌, ◌+◌, ◌<◌, ◌≤◌, ◌↔◌, IfSome, IsNone, IsTrue, Some, length, take};
ghost use Rattle.std.specs.Option.{IsSome};
ghost use Rattle.run_shared.specs.Orders.{errand_at, errand_of, signal_count, signal_to};
ghost use Rattle.run_shared.specs.Orders.{IsNextOrder, HasNoOrder, IsNextHalt, HasNoHalt};

use run_events::{Ask, SignalAsk};

/// What is handed on: a signal to a child, or the stop of the program itself.
#[derive(Clone, Copy, Drop)]
pub enum Errand {
    Signal { ask: SignalAsk },
    Stop,
}

/// That a run asked this signal: its place among what the run asked. Only a shared run makes one.
#[derive(Drop)]
pub struct Order {
    place: u64,
    ask: SignalAsk,
}

impl Order {
    /// The ask's place among what the run asked, counted from 0.
    pub fn place(&self) -> u64
        ensures { result ≡ self.now.place }
    {
        self.place
    }

    /// The signal.
    pub fn ask(&self) -> SignalAsk
        ensures { result ≡ self.now.ask }
    {
        self.ask
    }
}

/// That a run asked the program itself to stop: its place among what the run asked, and how many signals were asked
/// before it. Only a shared run makes one.
#[derive(Drop)]
pub struct Halt {
    place: u64,
    signals: u64,
}

impl Halt {
    /// The ask's place among what the run asked, counted from 0.
    pub fn place(&self) -> u64
        ensures { result ≡ self.now.place }
    {
        self.place
    }

    /// How many signals were asked before it: the program stops once each of them was handed on.
    pub fn signals(&self) -> u64
        ensures { result ≡ self.now.signals }
    {
        self.signals
    }
}

// What an ask wants handed on, if it does.
pub(crate) fn errand_of(ask: &Ask) -> Option<Errand>
    ensures { result ≡ errand_of ask.now }
{
    match ask {
        Ask::Start(_) => None,
        Ask::Signal(ask) => Some(Errand::Signal { ask: *ask }),
        Ask::StopSelf => Some(Errand::Stop),
    }
}

// What was asked at a place that is to be handed on.
pub(crate) fn errand_at(asks: &[(u64, Ask)], place: usize) -> Option<Errand>
    ensures errand { result ≡ errand_at asks.now place }
    ensures within { IsSome result → place < length asks.now }
{
    match asks.get(place) {
        Some(asked) => errand_of(&asked.1),
        None => None,
    }
}

// The signal for a unit, where an errand is one.
fn signal_to(errand: Option<Errand>, unit: u32) -> Option<SignalAsk>
    ensures { result ≡ signal_to unit errand }
{
    match errand {
        Some(Errand::Signal { ask }) if ask.unit == unit => Some(ask),
        _ => None,
    }
}

// Whether an errand is the stop of the program.
fn is_stop(errand: Option<Errand>) -> bool
    ensures { IsTrue result ↔ (errand ≡ Some Errand.Stop) }
{
    matches!(errand, Some(Errand::Stop))
}

// The first signal for a unit that was asked at this place or later.
#[tactic(auto, using(crate::proofs::OrderLemmas::order_found))]
fn find_order(asks: &[(u64, Ask)], unit: u32, from: usize) -> Option<Order>
    ensures some { IfSome result (IsNextOrder asks.now unit from) }
    ensures within { IfSome result (λ o. o.place < length asks.now) }
    ensures none { IsNone result → HasNoOrder asks.now unit from }
{
    for place in from..asks.len() {
        if let Some(ask) = signal_to(errand_at(asks, place), unit) {
            let place = place as u64;
            return Some(Order { place, ask });
        }
    }
    None
}

/// The first signal for a unit that was asked at this place or later; the place then is the one after it, or behind
/// all that was asked.
pub(crate) fn next_order(asks: &[(u64, Ask)], unit: u32, from: &mut u64) -> Option<Order>
    ensures some { IfSome result (IsNextOrder asks.now unit from.old) }
    ensures after { IfSome result (λ o. from.new ≡ o.place + 1) }
    ensures none { IsNone result → HasNoOrder asks.now unit from.old }
    ensures later { from.old ≤ from.new }
{
    match find_order(asks, unit, *from as usize) {
        Some(order) => {
            *from = order.place + 1;
            Some(order)
        }
        None => {
            *from = later(*from, asks.len() as u64);
            None
        }
    }
}

// The later of two places.
fn later(a: u64, b: u64) -> u64
    ensures a { a ≤ result }
    ensures b { b ≤ result }
{
    if a < b { b } else { a }
}

// How many signals are among what was asked.
fn count_signals(asks: &[(u64, Ask)]) -> usize
    ensures { result ≡ signal_count asks.now }
{
    let mut count = 0;
    for asked in asks {
        if matches!(asked.1, Ask::Signal(_)) {
            count += 1;
        }
    }
    count
}

// The place of the first stop of the program that was asked at this place or later.
fn find_halt(asks: &[(u64, Ask)], from: usize) -> Option<usize>
    ensures some { IfSome result (IsNextHalt asks.now from) }
    ensures within { IfSome result (λ k. k < length asks.now) }
    ensures none { IsNone result → HasNoHalt asks.now from }
{
    for place in from..asks.len() {
        if is_stop(errand_at(asks, place)) {
            return Some(place);
        }
    }
    None
}

/// The first stop of the program that was asked at this place or later; the place then is the one after it, or behind
/// all that was asked.
pub(crate) fn next_halt(asks: &[(u64, Ask)], from: &mut u64) -> Option<Halt>
    ensures some { IfSome result (λ h. IsNextHalt asks.now from.old h.place) }
    ensures signals { IfSome result (λ h. h.signals ≡ signal_count (take h.place asks.now)) }
    ensures after { IfSome result (λ h. from.new ≡ h.place + 1) }
    ensures none { IsNone result → HasNoHalt asks.now from.old }
    ensures later { from.old ≤ from.new }
{
    match find_halt(asks, *from as usize) {
        Some(place) => {
            *from = place as u64 + 1;
            let signals = count_signals(&asks[..place]) as u64;
            let place = place as u64;
            Some(Halt { place, signals })
        }
        None => {
            *from = later(*from, asks.len() as u64);
            None
        }
    }
}
