// What the types of an event say of its numbers.
ghost use Rattle.std.specs.Prelude.{◌<◌, ◌^◌};
ghost use Rattle.run_laws_audit_line.specs.EventLines.{IsSlot, NumbersFit, NumbersFitIn};

use run_events::{ReporterEvent, TestEventKind, TestSlotAssignment};

// A number of 32 bits.
fn known_number(number: u32)
    ensures { number < 2 ^ 32 }
{}

// A slot has such numbers.
fn known_slot(slot: &TestSlotAssignment)
    ensures { IsSlot slot.now }
{
    known_number(slot.global);
    match &slot.group {
        Some(group) => known_number(group.slot),
        None => {}
    }
}

// So has what an auditor sees of a kind of event.
fn known_kind(kind: &TestEventKind)
    ensures { NumbersFitIn kind.now }
{
    match kind {
        TestEventKind::SetupScriptStarted(event) => known_number(event.script.index),
        TestEventKind::SetupScriptFinished(event) => known_number(event.script.index),
        TestEventKind::TestStarted(event) => known_slot(&event.start.slot),
        TestEventKind::TestRetryStarted(event) => known_number(event.retry.attempt),
        TestEventKind::RunStarted(_)
        | TestEventKind::StressSubRunStarted(_)
        | TestEventKind::StressSubRunFinished(_)
        | TestEventKind::SetupScriptSlow(_)
        | TestEventKind::TestSlow(_)
        | TestEventKind::TestAttemptFailedWillRetry(_)
        | TestEventKind::TestFinished(_)
        | TestEventKind::TestSkipped(_)
        | TestEventKind::InfoStarted(_)
        | TestEventKind::InfoResponse(_)
        | TestEventKind::InfoFinished { .. }
        | TestEventKind::InputEnter(_)
        | TestEventKind::RunBeginCancel(_)
        | TestEventKind::RunBeginKill(_)
        | TestEventKind::RunPaused(_)
        | TestEventKind::RunContinued(_)
        | TestEventKind::RunFinished(_) => {}
    }
}

/// An event that a program has is one whose numbers fit 32 bits, where an auditor sees them. The call does nothing
/// else.
pub fn known_event(event: &ReporterEvent)
    ensures { NumbersFit event.now }
{
    match event {
        ReporterEvent::Test(event) => known_kind(&event.kind),
        ReporterEvent::Tick => {}
    }
}
