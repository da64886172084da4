// What a thread asks a shared run.
ghost use Rattle.std.specs.Prelude.{◌≡◌, ◌+◌, ◌≤◌, IfSome};

use crate::orders::{Halt, Order, next_halt, next_order};
use crate::shared::SharedRun;
use run_events::{Reporter, Settings};
use run_model::Phase;
use std::sync::Wait;
use std::sync::ledger::Ledger;

impl<L: Ledger, R: Reporter> SharedRun<L, R> {
    /// The settings that it was given.
    pub fn settings(&self) -> &Settings
        ensures { result.now ≡ self.now }
    {
        self.settings.get()
    }

    /// How many things were asked: who looks from there on is handed what is asked later.
    pub fn asked_count(&self, rt: &impl Wait) -> u64 {
        self.lock.lock(rt).asks().len() as u64
    }

    /// The first signal for a unit that was asked at this place or later, if there is one. The place then is the one
    /// after it, or behind all that was asked.
    pub fn next_order(&self, rt: &impl Wait, unit: u32, from: &mut u64) -> Option<Order>
        ensures unit { IfSome result (λ o. o.ask.unit ≡ unit) }
        ensures place { IfSome result (λ o. from.old ≤ o.place) }
        ensures after { IfSome result (λ o. from.new ≡ o.place + 1) }
        ensures later { from.old ≤ from.new }
    {
        let run = self.lock.lock(rt);
        next_order(run.asks(), unit, from)
    }

    /// The first stop of the program that was asked at this place or later, if there is one. The place then is the one
    /// after it, or behind all that was asked.
    pub fn next_halt(&self, rt: &impl Wait, from: &mut u64) -> Option<Halt>
        ensures place { IfSome result (λ h. from.old ≤ h.place) }
        ensures after { IfSome result (λ h. from.new ≡ h.place + 1) }
        ensures later { from.old ≤ from.new }
    {
        let run = self.lock.lock(rt);
        next_halt(run.asks(), from)
    }

    /// The phase of a unit of the current sub-run, if it was admitted; none of a broken run.
    pub fn phase(&self, rt: &impl Wait, unit: u32) -> Option<Phase> {
        self.lock.lock(rt).phase(unit)
    }

    /// Whether the run takes no turn any more.
    pub fn is_done(&self, rt: &impl Wait) -> bool {
        self.lock.lock(rt).is_done()
    }
}
