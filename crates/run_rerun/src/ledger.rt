// A reporter that keeps of each test what its finishes come to.
ghost use Rattle.std.specs.Prelude.{◌≡◌, List, [], ◌∷◌, ◌++◌, map, option_map, OnOk, OnErr};
ghost use Rattle.std.specs.BTreeMap.{IsUnchanged, Updates, get};
ghost use Rattle.std.specs.Ordering.{nat_cmp};
ghost use Rattle.run_events.specs.declared.events.ReporterEvent.{ReporterEvent};
ghost use Rattle.run_events.specs.declared.result.ExecutionResult.TheVariants.{ExecFail};
ghost use Rattle.run_events.specs.Stats.{last_or};
ghost use Rattle.run_model.specs.Words.{last_slow};
ghost use Rattle.run_rerun.specs.Ledgers.{IsLedgerOf, is_marked, next_mark};
ghost use Rattle.run_rerun.specs.Outstanding.{adds_pass, finish_told};

use run_capture::Mem;
use run_events::{
    ExecuteStatus, ExecutionResult, ReportFault, Reporter, ReporterEvent, RunStats, TestEventKind,
    TestFinish, Turn,
};
use std::alloc::Global;
use std::collections::BTreeMap;
use std::convert::Infallible;

// Whether the last attempt was slow, and its result.
fn last_of(statuses: &[ExecuteStatus]) -> (bool, ExecutionResult)
    ensures slow { result.0 ≡ last_slow statuses.now }
    ensures last { result.1 ≡ last_or ExecFail (map (λ s. s.result) statuses.now) }
{
    match statuses.last() {
        Some(last) => (last.slow, last.result),
        None => (false, ExecutionResult::ExecFail),
    }
}

// Whether a finish adds to the tests that passed.
#[tactic(auto, unfolding(run_events::specs::Stats::adds_of))]
fn adds_pass(finish: &TestFinish) -> bool
    ensures { result ≡ adds_pass finish.now }
{
    let statuses = finish.statuses.as_slice();
    let (slow, last) = last_of(statuses);
    let mut stats = RunStats::nothing();
    stats.count_test(finish.flaky, statuses.len() > 1, slow, last);
    stats.passed == 1
}

// The finish of a test that an event tells.
fn finish_told(event: &ReporterEvent) -> Option<&TestFinish>
    ensures { option_map (λ f. f.now) result ≡ finish_told event.now }
{
    let ReporterEvent::Test(event) = event else {
        return None;
    };
    match &event.kind {
        TestEventKind::TestFinished(finished) => Some(&finished.finish),
        _ => None,
    }
}

/// Of each unit that was told finished as a test, whether each of its finishes is a pass.
#[derive(Drop)]
pub struct Ledger {
    pub marks: BTreeMap<u32, bool>,
}

impl Ledger {
    /// One that was told nothing.
    pub fn new(alloc: Global) -> Ledger
        ensures { IsLedgerOf result [] }
    {
        Ledger {
            marks: BTreeMap::new(alloc),
        }
    }

    /// Whether a unit was told finished, and each of its finishes is a pass.
    pub fn is_marked(&self, unit: u32) -> bool
        ensures { result ≡ is_marked self.now unit }
    {
        self.marks.get(&unit).copied().unwrap_or(false)
    }

    // Marks a unit by one more finish.
    fn mark(&mut self, unit: u32, passes: bool) -> Mem<()>
        ensures ok { OnOk result (Updates nat_cmp self.old.marks self.new.marks unit
            (next_mark (get nat_cmp self.old.marks unit) passes)) }
        ensures err { OnErr result (IsUnchanged self.old.marks self.new.marks) }
    {
        let all = match self.marks.get(&unit) {
            Some(before) => *before && passes,
            None => passes,
        };
        self.marks.insert(unit, all)?;
        Ok(())
    }

    // Hears an event.
    fn hear(&mut self, event: &ReporterEvent) -> Mem<()>
        ensures ok { (events : List ReporterEvent) → IsLedgerOf self.old events
            → OnOk result (IsLedgerOf self.new (events ++ event.now ∷ [])) }
        ensures err { (events : List ReporterEvent) → IsLedgerOf self.old events
            → OnErr result (IsLedgerOf self.new events) }
    {
        match finish_told(event) {
            Some(finish) => {
                let passes = adds_pass(finish);
                self.mark(finish.test.unit, passes)
            }
            None => Ok(()),
        }
    }
}

impl Reporter for Ledger {
    type Error = Infallible;

    ghost use Rattle.std.specs.Prelude.{map, ⊤};
    ghost use Rattle.run_rerun.specs.Ledgers.{IsLedgerOf};

    ghost told = { λ ledger xs. IsLedgerOf ledger (map (λ x. x.0) xs) };

    ghost faults = { λ _. 0 };

    // It doesn't keep turns.
    ghost taken = { λ _ _. ⊤ };

    fn report(
        &mut self,
        _alloc: Global,
        event: &ReporterEvent,
    ) -> Result<(), ReportFault<Infallible>> {
        match self.hear(event) {
            Ok(()) => Ok(()),
            Err(_) => Err(ReportFault::OutOfMemory),
        }
    }

    fn took(&mut self, _alloc: Global, _turn: &Turn) {}
}
