// The two ends that a run speaks to: a reporter that keeps the results of jobs, and children in memory.
ghost use Rattle.std.specs.Prelude.{ℕ, ◌≡◌, List, [], ◌∷◌, ◌++◌, ◌||◌, Option, option_to_list, OnOk, OnErr, ⊤};
ghost use Rattle.run_events.specs.Tell.{answered, Adds};
ghost use Rattle.run_events.specs.Counts.{CountsRefusal};
ghost use Rattle.run_laws_calls.specs.Stops.{tells_cancel};
ghost use Rattle.example_supervisor.specs.Reported.{job_result};

use run_capture::{List, Mem};
use run_events::{Ask, Children, ReportFault, Reporter, ReporterEvent, TestEventKind, Turn};
use std::alloc::Global;
use std::convert::Infallible;

/// What came of a job, a script or a test, by its number: whether its last attempt passed.
#[derive(Clone, Copy, Drop)]
pub struct JobResult {
    pub job: u32,
    pub passed: bool,
}

/// The results told, in order, and whether it was told that the run is cancelled.
#[derive(Drop)]
pub struct Ledger {
    pub results: List<JobResult>,
    pub cancelled: bool,
}

impl Ledger {
    // Adds what an event tells.
    #[tactic(auto, using(crate::proofs::Heard::last_passed))]
    fn add(&mut self, alloc: Global, event: &ReporterEvent) -> Mem<()>
        ensures results { OnOk result (self.new.results ≡ self.old.results ++ option_to_list (job_result event.now)) }
        ensures cancelled { OnOk result (self.new.cancelled ≡ (self.old.cancelled || tells_cancel event.now)) }
        ensures err { OnErr result (self.new ≡ self.old) }
    {
        let ReporterEvent::Test(event) = event else {
            return Ok(());
        };
        match &event.kind {
            TestEventKind::SetupScriptFinished(finish) => {
                let job = finish.script.unit;
                let passed = finish.status.result.is_success();
                self.results.push(alloc, JobResult { job, passed })
            }
            TestEventKind::TestFinished(finished) => {
                let job = finished.finish.test.unit;
                let last = finished.finish.statuses.as_slice().last();
                let passed = last.is_some_and(|status| status.result.is_success());
                self.results.push(alloc, JobResult { job, passed })
            }
            TestEventKind::RunBeginCancel(_) | TestEventKind::RunBeginKill(_) => {
                self.cancelled = true;
                Ok(())
            }
            _ => Ok(()),
        }
    }
}

impl Reporter for Ledger {
    type Error = Infallible;

    ghost use Rattle.std.specs.Prelude.{map, ⊤};
    ghost use Rattle.example_supervisor.specs.Reported.{ledger_of};

    ghost told = { λ ledger xs. ledger ≡ ledger_of (map (λ x. x.0) xs) };

    ghost faults = { λ _. 0 };

    // It doesn't keep turns.
    ghost taken = { λ _ _. ⊤ };

    fn report(
        &mut self,
        alloc: Global,
        event: &ReporterEvent,
    ) -> Result<(), ReportFault<Infallible>> {
        match self.add(alloc, event) {
            Ok(()) => Ok(()),
            Err(_) => Err(ReportFault::OutOfMemory),
        }
    }

    fn took(&mut self, _alloc: Global, _turn: &Turn) {}
}

/// The jobs that were started and haven't exited. No clause needs what they were asked, so that `asked` says nothing.
#[derive(Drop)]
pub struct Yard(pub Vec<u32>);

impl Children for Yard {
    ghost use Rattle.std.specs.Prelude.{⊤};

    ghost asked = { λ _ _. ⊤ };

    fn ask(&mut self, _alloc: Global, _turn: u64, ask: &Ask) -> Mem<()> {
        if let Ask::Start(start) = ask {
            self.0.push(start.get().unit)?;
        }
        Ok(())
    }
}
