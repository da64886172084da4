// What a generated run speaks to: a reporter that counts events, and children that are asked in vain.
use run_capture::Mem;
use run_events::{Ask, Children, ReportFault, Reporter, ReporterEvent, Turn};
use std::alloc::Global;
use std::convert::Infallible;

/// How many events were told.
#[derive(Drop)]
pub(crate) struct Counter {
    pub events: u64,
}

impl Reporter for Counter {
    type Error = Infallible;

    ghost use Rattle.std.specs.Prelude.{⊤};
    ghost use Rattle.run_generate.specs.OnWay.{counts};

    ghost told = { λ counter xs. counts counter xs };

    ghost faults = { λ _. 0 };

    // It doesn't keep turns.
    ghost taken = { λ _ _. ⊤ };

    fn report(
        &mut self,
        _alloc: Global,
        _event: &ReporterEvent,
    ) -> Result<(), ReportFault<Infallible>> {
        self.events = self.events.saturating_add(1);
        Ok(())
    }

    fn took(&mut self, _alloc: Global, _turn: &Turn) {}
}

/// No child: which attempt a unit is at the run says itself.
#[derive(Drop)]
pub(crate) struct Deaf;

impl Children for Deaf {
    ghost use Rattle.std.specs.Prelude.{⊤};

    ghost asked = { λ _ _. ⊤ };

    fn ask(&mut self, _alloc: Global, _turn: u64, _ask: &Ask) -> Mem<()> {
        Ok(())
    }
}
