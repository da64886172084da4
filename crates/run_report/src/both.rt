// A reporter with a listener beside it.
ghost use Rattle.std.specs.Prelude.{◌≡◌};
ghost use Rattle.run_events.specs.Tell.{answered, Adds, Retains};
ghost use Rattle.run_events.specs.Counts.{CountsRefusal};

use crate::Listener;
use run_events::{ReportFault, Reporter, ReporterEvent, Turn};
use std::alloc::Global;

/// Tells each event to a reporter, and then to a listener, unless the reporter refused it, or memory was wanting to it:
/// the listener hears just what the reporter took.
#[derive(Drop)]
pub struct Both<A, B> {
    lines: A,
    report: B,
}

impl<A, B> Both<A, B> {
    /// Both of them.
    pub fn new(lines: A, report: B) -> Self
        ensures lines { result.lines ≡ lines }
        ensures report { result.report ≡ report }
    {
        Both { lines, report }
    }

    /// The reporter.
    pub fn lines(&self) -> &A
        ensures { result.now ≡ self.now.lines }
    {
        &self.lines
    }

    /// Hands both back.
    pub fn into_parts(self) -> (A, B)
        ensures lines { result.0 ≡ self.lines }
        ensures report { result.1 ≡ self.report }
    {
        (self.lines, self.report)
    }
}

impl<A: Reporter, B: Listener> Reporter for Both<A, B> {
    type Error = A::Error;

    ghost use Rattle.run_report.specs.Both.{BothTold};

    ghost told = { λ b answers. BothTold A.told B.heard b.lines b.report answers };

    ghost faults = { λ b. A.faults b.lines };

    ghost taken = { λ b turns. A.taken b.lines turns × B.taken b.report turns };

    fn report(
        &mut self,
        alloc: Global,
        event: &ReporterEvent,
    ) -> Result<(), ReportFault<A::Error>> {
        match self.lines.report(alloc, event) {
            Ok(()) => {
                self.report.hear(alloc, event);
                Ok(())
            }
            Err(fault) => Err(fault),
        }
    }

    fn took(&mut self, alloc: Global, turn: &Turn) {
        self.lines.took(alloc, turn);
        self.report.hear_turn(alloc, turn);
    }
}
