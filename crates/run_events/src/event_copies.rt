// Copies of what an event says, by its kind: of one script or test, or of the run's own.
ghost use Rattle.std.specs.Prelude.{◌≡◌, IfOk, true, false};
ghost use Rattle.run_events.specs.Parts.{is_of_unit};

use crate::TestEventKind;
use run_capture::{Duplicate, Mem};
use std::alloc::Global;

impl TestEventKind {
    /// Whether it is of one script or test.
    pub fn is_of_unit(&self) -> bool
        ensures { result ≡ is_of_unit self.now }
    {
        matches!(
            self,
            TestEventKind::SetupScriptStarted(_)
                | TestEventKind::SetupScriptSlow(_)
                | TestEventKind::SetupScriptFinished(_)
                | TestEventKind::TestStarted(_)
                | TestEventKind::TestSlow(_)
                | TestEventKind::TestAttemptFailedWillRetry(_)
                | TestEventKind::TestRetryStarted(_)
                | TestEventKind::TestFinished(_)
                | TestEventKind::TestSkipped(_)
        )
    }
}

// A copy of an event of one script or test.
fn copy_of_unit(alloc: Global, kind: &TestEventKind) -> Mem<TestEventKind>
    requires { is_of_unit kind.now ≡ true }
    ensures { IfOk result (λ k. k ≡ kind.now) }
{
    match kind {
        TestEventKind::SetupScriptStarted(event) => event
            .copy(alloc)
            .map(TestEventKind::SetupScriptStarted),
        TestEventKind::SetupScriptSlow(event) => event
            .copy(alloc)
            .map(TestEventKind::SetupScriptSlow),
        TestEventKind::SetupScriptFinished(event) => event
            .copy(alloc)
            .map(TestEventKind::SetupScriptFinished),
        TestEventKind::TestStarted(event) => event.copy(alloc).map(TestEventKind::TestStarted),
        TestEventKind::TestSlow(event) => event.copy(alloc).map(TestEventKind::TestSlow),
        TestEventKind::TestAttemptFailedWillRetry(event) => event
            .copy(alloc)
            .map(TestEventKind::TestAttemptFailedWillRetry),
        TestEventKind::TestRetryStarted(event) => event
            .copy(alloc)
            .map(TestEventKind::TestRetryStarted),
        TestEventKind::TestFinished(event) => event.copy(alloc).map(TestEventKind::TestFinished),
        TestEventKind::TestSkipped(event) => event.copy(alloc).map(TestEventKind::TestSkipped),
        _ => unreachable!(),
    }
}

// A copy of an event of the run's own.
fn copy_of_run(alloc: Global, kind: &TestEventKind) -> Mem<TestEventKind>
    requires { is_of_unit kind.now ≡ false }
    ensures { IfOk result (λ k. k ≡ kind.now) }
{
    match kind {
        TestEventKind::RunStarted(event) => event.copy(alloc).map(TestEventKind::RunStarted),
        TestEventKind::StressSubRunStarted(event) => Ok(TestEventKind::StressSubRunStarted(*event)),
        TestEventKind::StressSubRunFinished(event) => Ok(TestEventKind::StressSubRunFinished(
            *event,
        )),
        TestEventKind::InfoStarted(event) => Ok(TestEventKind::InfoStarted(*event)),
        TestEventKind::InfoResponse(event) => event.copy(alloc).map(TestEventKind::InfoResponse),
        TestEventKind::InfoFinished { missing } => Ok(TestEventKind::InfoFinished {
            missing: *missing,
        }),
        TestEventKind::InputEnter(event) => Ok(TestEventKind::InputEnter(*event)),
        TestEventKind::RunBeginCancel(event) => Ok(TestEventKind::RunBeginCancel(*event)),
        TestEventKind::RunBeginKill(event) => Ok(TestEventKind::RunBeginKill(*event)),
        TestEventKind::RunPaused(event) => Ok(TestEventKind::RunPaused(*event)),
        TestEventKind::RunContinued(event) => Ok(TestEventKind::RunContinued(*event)),
        TestEventKind::RunFinished(event) => event.copy(alloc).map(TestEventKind::RunFinished),
        _ => unreachable!(),
    }
}

impl Duplicate for TestEventKind {
    fn copy(&self, alloc: Global) -> Mem<TestEventKind> {
        if self.is_of_unit() {
            copy_of_unit(alloc, self)
        } else {
            copy_of_run(alloc, self)
        }
    }
}
