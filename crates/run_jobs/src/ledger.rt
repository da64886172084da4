// A reporter that keeps of each test whether its last result passed.
ghost use Rattle.std.specs.Prelude.{◌≡◌, List, [], ◌∷◌, ◌++◌, Some, OnOk, OnErr};
ghost use Rattle.std.specs.BTreeMap.{IsUnchanged, Updates};
ghost use Rattle.std.specs.Ordering.{nat_cmp};
ghost use Rattle.run_events.specs.declared.events.ReporterEvent.{ReporterEvent};
ghost use Rattle.run_laws_calls.specs.Success.{has_last_passed};
ghost use Rattle.run_jobs.specs.Ledgers.{IsResultsOf, state_kept};
ghost use Rattle.run_jobs.specs.States.{result_told};

use crate::job::JobState;
use run_capture::Mem;
use run_events::{ExecuteStatus, ReportFault, Reporter, ReporterEvent, TestEventKind, Turn};
use std::alloc::Global;
use std::collections::BTreeMap;
use std::convert::Infallible;

// Whether the last of some attempts passed.
fn has_last_passed(statuses: &[ExecuteStatus]) -> bool
    ensures { result ≡ has_last_passed statuses.now }
{
    match statuses.last() {
        Some(last) => last.result.is_success(),
        None => false,
    }
}

// The number of the test that an event tells finished, and whether its last attempt passed.
fn result_told(event: &ReporterEvent) -> Option<(u32, bool)>
    ensures { result ≡ result_told event.now }
{
    let ReporterEvent::Test(event) = event else {
        return None;
    };
    match &event.kind {
        TestEventKind::TestFinished(finished) => Some((
            finished.finish.test.unit,
            has_last_passed(finished.finish.statuses.as_slice()),
        )),
        _ => None,
    }
}

/// Of each test that was told finished, by its number, whether its last attempt passed.
#[derive(Drop)]
pub struct Results {
    pub passed: BTreeMap<u32, bool>,
}

impl Results {
    /// Those of no event.
    pub fn new(alloc: Global) -> Results
        ensures { IsResultsOf result [] }
    {
        Results {
            passed: BTreeMap::new(alloc),
        }
    }

    /// The state of the job that is this test.
    pub fn state_of(&self, unit: u32) -> JobState
        ensures { result ≡ state_kept self.now unit }
    {
        match self.passed.get(&unit) {
            Some(passed) => {
                if *passed {
                    JobState::Passed
                } else {
                    JobState::Failed
                }
            }
            None => JobState::Cancelled,
        }
    }

    // Keeps one more result.
    fn keep(&mut self, unit: u32, passed: bool) -> Mem<()>
        ensures ok { OnOk result (Updates nat_cmp self.old.passed self.new.passed unit (Some passed)) }
        ensures err { OnErr result (IsUnchanged self.old.passed self.new.passed) }
    {
        self.passed.insert(unit, passed)?;
        Ok(())
    }

    // Hears an event.
    fn hear(&mut self, event: &ReporterEvent) -> Mem<()>
        ensures ok { (events : List ReporterEvent) → IsResultsOf self.old events
            → OnOk result (IsResultsOf self.new (events ++ event.now ∷ [])) }
        ensures err { (events : List ReporterEvent) → IsResultsOf self.old events
            → OnErr result (IsResultsOf self.new events) }
    {
        match result_told(event) {
            Some((unit, passed)) => self.keep(unit, passed),
            None => Ok(()),
        }
    }
}

impl Reporter for Results {
    type Error = Infallible;

    ghost use Rattle.std.specs.Prelude.{map, ⊤};
    ghost use Rattle.run_jobs.specs.Ledgers.{IsResultsOf};

    ghost told = { λ results xs. IsResultsOf results (map (λ x. x.0) xs) };

    ghost faults = { λ _. 0 };

    // It doesn't keep turns.
    ghost taken = { λ _ _. ⊤ };

    fn report(
        &mut self,
        _alloc: Global,
        event: &ReporterEvent,
    ) -> Result<(), ReportFault<Infallible>> {
        match self.hear(event) {
            Ok(()) => Ok(()),
            Err(_) => Err(ReportFault::OutOfMemory),
        }
    }

    fn took(&mut self, _alloc: Global, _turn: &Turn) {}
}
