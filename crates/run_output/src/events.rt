// The lines of events.
ghost use Rattle.std.specs.Prelude.{◌≡◌, true, false, IfOk};
ghost use Rattle.json.specs.Print.{print};
ghost use Rattle.run_events.specs.Parts.{is_of_unit};
ghost use Rattle.run_output.specs.Field.{field_data};
ghost use Rattle.run_output.specs.Fields.{put_all, line_bytes};
ghost use Rattle.run_output.specs.Object.{members_of};
ghost use Rattle.run_output.specs.Events.{event_word, kind_fields, test_event_text, event_text};

use crate::events_of_info::{with_info_answered, with_info_finished, with_info_started};
use crate::events_of_run::{
    with_input_entered, with_job_controlled, with_run_cancelled, with_run_finished,
    with_run_started, with_sub_run_finished, with_sub_run_started,
};
use crate::events_of_scripts::{with_script_finished, with_script_slow, with_script_started};
use crate::events_of_tests::{
    with_attempt_failed, with_retry_started, with_test_finished, with_test_skipped, with_test_slow,
    with_test_started,
};
use crate::field::Field;
use crate::leaf::Leaf;
use crate::line::Line;
use crate::object::Object;
use crate::printer::Printer;
use run_capture::{Mem, Text};
use run_events::{ReporterEvent, TestEvent, TestEventKind};
use std::alloc::Global;

#[tactic(auto, unfolding(crate::specs::Events::event_word))]
fn event_name(kind: &TestEventKind) -> &'static str
    ensures { result.now ≡ event_word kind.now }
{
    match kind {
        TestEventKind::RunStarted(_) => "run-started",
        TestEventKind::StressSubRunStarted(_) => "sub-run-started",
        TestEventKind::StressSubRunFinished(_) => "sub-run-finished",
        TestEventKind::SetupScriptStarted(_) => "script-started",
        TestEventKind::SetupScriptSlow(_) => "script-slow",
        TestEventKind::SetupScriptFinished(_) => "script-finished",
        TestEventKind::TestStarted(_) => "test-started",
        TestEventKind::TestSlow(_) => "test-slow",
        TestEventKind::TestAttemptFailedWillRetry(_) => "test-attempt-failed",
        TestEventKind::TestRetryStarted(_) => "test-retry-started",
        TestEventKind::TestFinished(_) => "test-finished",
        TestEventKind::TestSkipped(_) => "test-skipped",
        TestEventKind::InfoStarted(_) => "info-started",
        TestEventKind::InfoResponse(_) => "info-response",
        TestEventKind::InfoFinished { .. } => "info-finished",
        TestEventKind::InputEnter(_) => "input-enter",
        TestEventKind::RunBeginCancel(_) => "run-begin-cancel",
        TestEventKind::RunBeginKill(_) => "run-begin-kill",
        TestEventKind::RunPaused(_) => "run-paused",
        TestEventKind::RunContinued(_) => "run-continued",
        TestEventKind::RunFinished(_) => "run-finished",
    }
}

fn with_unit_kind<'a>(object: Object<Field<'a>>, kind: &'a TestEventKind) -> Mem<Object<Field<'a>>>
    requires { is_of_unit kind.now ≡ true }
    ensures { IfOk result (λ o. members_of field_data o
        ≡ put_all (kind_fields kind.now) (members_of field_data object.entry)) }
{
    match kind {
        TestEventKind::SetupScriptStarted(event) => with_script_started(object, event),
        TestEventKind::SetupScriptSlow(event) => with_script_slow(object, event),
        TestEventKind::SetupScriptFinished(event) => with_script_finished(object, event),
        TestEventKind::TestStarted(event) => with_test_started(object, event),
        TestEventKind::TestSlow(event) => with_test_slow(object, event),
        TestEventKind::TestAttemptFailedWillRetry(event) => with_attempt_failed(object, event),
        TestEventKind::TestRetryStarted(event) => with_retry_started(object, event),
        TestEventKind::TestFinished(event) => with_test_finished(object, event),
        TestEventKind::TestSkipped(event) => with_test_skipped(object, event),
        _ => unreachable!(),
    }
}

fn with_run_kind<'a>(object: Object<Field<'a>>, kind: &'a TestEventKind) -> Mem<Object<Field<'a>>>
    requires { is_of_unit kind.now ≡ false }
    ensures { IfOk result (λ o. members_of field_data o
        ≡ put_all (kind_fields kind.now) (members_of field_data object.entry)) }
{
    match kind {
        TestEventKind::RunStarted(event) => with_run_started(object, event),
        TestEventKind::StressSubRunStarted(progress) => { with_sub_run_started(object, *progress) }
        TestEventKind::StressSubRunFinished(event) => with_sub_run_finished(object, event),
        TestEventKind::InfoStarted(event) => with_info_started(object, event),
        TestEventKind::InfoResponse(event) => with_info_answered(object, event),
        TestEventKind::InfoFinished { missing } => { with_info_finished(object, *missing) }
        TestEventKind::InputEnter(event) => with_input_entered(object, event),
        TestEventKind::RunBeginCancel(event) => with_run_cancelled(object, event),
        TestEventKind::RunBeginKill(event) => with_run_cancelled(object, event),
        TestEventKind::RunPaused(event) => with_job_controlled(object, event),
        TestEventKind::RunContinued(event) => with_job_controlled(object, event),
        TestEventKind::RunFinished(event) => with_run_finished(object, event),
        _ => unreachable!(),
    }
}

// The fields of an event's kind.
fn with_kind<'a>(object: Object<Field<'a>>, kind: &'a TestEventKind) -> Mem<Object<Field<'a>>>
    ensures { IfOk result (λ o. members_of field_data o
        ≡ put_all (kind_fields kind.now) (members_of field_data object.entry)) }
{
    if kind.is_of_unit() {
        with_unit_kind(object, kind)
    } else {
        with_run_kind(object, kind)
    }
}

#[tactic(auto, unfolding(crate::specs::Events::event_fields))]
fn print_test_event(alloc: Global, event: &TestEvent) -> Mem<Printer>
    ensures { IfOk result (λ p. print p ≡ test_event_text event.now) }
{
    let head = [
        ("clock", Field::Leaf(Leaf::Number(event.clock))),
        ("elapsed", Field::Leaf(Leaf::Number(event.elapsed))),
        ("event", Field::Leaf(Leaf::Word(event_name(&event.kind)))),
    ];
    let object = Object::of(alloc, &head)?;
    let object = with_kind(object, &event.kind)?;
    object.printed(alloc)
}

// A line with an event.
fn print_event(alloc: Global, event: &ReporterEvent) -> Mem<Printer>
    ensures { IfOk result (λ p. print p ≡ event_text event.now) }
{
    match event {
        ReporterEvent::Tick => Object::printed_of(alloc, &[("event", Leaf::Word("tick"))]),
        ReporterEvent::Test(event) => print_test_event(alloc, event),
    }
}

/// The line of an event, without its line feed.
pub fn event_line(alloc: Global, event: &ReporterEvent) -> Mem<Text>
    ensures { IfOk result (λ t. t ≡ event_text event.now) }
{
    print_event(alloc, event)?.into_text(alloc)
}

/// The line of an event, with its line feed.
pub(crate) fn whole_event_line(alloc: Global, event: &ReporterEvent) -> Mem<Line>
    ensures { IfOk result (λ line. line ≡ line_bytes (event_text event.now)) }
{
    print_event(alloc, event)?.into_line()
}
