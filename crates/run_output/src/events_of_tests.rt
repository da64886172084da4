// The fields of the events of tests.
ghost use Rattle.std.specs.Prelude.{◌≡◌, IfOk};
ghost use Rattle.run_output.specs.Field.{field_data};
ghost use Rattle.run_output.specs.Fields.{put_all};
ghost use Rattle.run_output.specs.Object.{members_of};
ghost use Rattle.run_output.specs.EventsOfTests.{
  test_started_fields,
  test_slow_fields,
  attempt_failed_fields,
  retry_started_fields,
  test_finished_fields,
  test_skipped_fields,
};

use crate::field::Field;
use crate::leaf::Leaf;
use crate::object::Object;
use run_capture::Mem;
use run_events::{
    AttemptFailedWillRetry, RetryStarted, TestFinished, TestSkip, TestSlow, TestStarted,
};

/// A test started.
#[tactic(auto, unfolding(crate::specs::EventsOfTests::test_started_fields))]
pub(crate) fn with_test_started<'a>(
    object: Object<Field<'a>>,
    event: &'a TestStarted,
) -> Mem<Object<Field<'a>>>
    ensures { IfOk result (λ o. members_of field_data o
        ≡ put_all (test_started_fields event.now) (members_of field_data object.entry)) }
{
    object.with(&[
        ("command", Field::Leaf(Leaf::Texts(&event.start.command))),
        ("running", Field::Leaf(Leaf::Count(event.running))),
        ("slot", Field::Slot(&event.start.slot)),
        ("stats", Field::Stats(&event.stats)),
        ("stress_index", Field::Index(event.start.test.stress_index)),
        ("test", Field::Leaf(Leaf::Test(&event.start.test.id))),
    ])
}

/// An attempt of a test is slow.
#[tactic(auto, unfolding(crate::specs::EventsOfTests::test_slow_fields))]
pub(crate) fn with_test_slow<'a>(
    object: Object<Field<'a>>,
    event: &'a TestSlow,
) -> Mem<Object<Field<'a>>>
    ensures { IfOk result (λ o. members_of field_data o
        ≡ put_all (test_slow_fields event.now) (members_of field_data object.entry)) }
{
    object.with(&[
        ("attempt", Field::Leaf(Leaf::Count(event.attempt))),
        ("attempts", Field::Leaf(Leaf::Count(event.attempts))),
        (
            "elapsed_slow",
            Field::Leaf(Leaf::Number(event.elapsed_slow)),
        ),
        ("stress_index", Field::Index(event.test.stress_index)),
        ("terminates", Field::Leaf(Leaf::Truth(event.terminates))),
        ("test", Field::Leaf(Leaf::Test(&event.test.id))),
    ])
}

/// An attempt of a test failed, and a further one follows.
#[tactic(auto, unfolding(crate::specs::EventsOfTests::attempt_failed_fields))]
pub(crate) fn with_attempt_failed<'a>(
    object: Object<Field<'a>>,
    event: &'a AttemptFailedWillRetry,
) -> Mem<Object<Field<'a>>>
    ensures { IfOk result (λ o. members_of field_data o
        ≡ put_all (attempt_failed_fields event.now) (members_of field_data object.entry)) }
{
    object.with(&[
        (
            "delay_next",
            Field::Leaf(Leaf::Number(event.failed.delay_next)),
        ),
        ("running", Field::Leaf(Leaf::Count(event.running))),
        ("status", Field::Status(&event.failed.status)),
        ("stress_index", Field::Index(event.failed.test.stress_index)),
        ("test", Field::Leaf(Leaf::Test(&event.failed.test.id))),
    ])
}

/// A further attempt of a test started.
#[tactic(auto, unfolding(crate::specs::EventsOfTests::retry_started_fields))]
pub(crate) fn with_retry_started<'a>(
    object: Object<Field<'a>>,
    event: &'a RetryStarted,
) -> Mem<Object<Field<'a>>>
    ensures { IfOk result (λ o. members_of field_data o
        ≡ put_all (retry_started_fields event.now) (members_of field_data object.entry)) }
{
    object.with(&[
        ("attempt", Field::Leaf(Leaf::Count(event.retry.attempt))),
        ("attempts", Field::Leaf(Leaf::Count(event.retry.attempts))),
        (
            "command",
            Field::Leaf(Leaf::Texts(&event.retry.start.command)),
        ),
        ("running", Field::Leaf(Leaf::Count(event.running))),
        ("slot", Field::Slot(&event.retry.start.slot)),
        (
            "stress_index",
            Field::Index(event.retry.start.test.stress_index),
        ),
        ("test", Field::Leaf(Leaf::Test(&event.retry.start.test.id))),
    ])
}

/// A test finished.
#[tactic(auto, unfolding(crate::specs::EventsOfTests::test_finished_fields))]
pub(crate) fn with_test_finished<'a>(
    object: Object<Field<'a>>,
    event: &'a TestFinished,
) -> Mem<Object<Field<'a>>>
    ensures { IfOk result (λ o. members_of field_data o
        ≡ put_all (test_finished_fields event.now) (members_of field_data object.entry)) }
{
    object.with(&[
        ("running", Field::Leaf(Leaf::Count(event.running))),
        ("stats", Field::Stats(&event.stats)),
        ("statuses", Field::Statuses(&event.finish.statuses)),
        ("stress_index", Field::Index(event.finish.test.stress_index)),
        ("test", Field::Leaf(Leaf::Test(&event.finish.test.id))),
    ])
}

/// A test was skipped.
#[tactic(auto, unfolding(crate::specs::EventsOfTests::test_skipped_fields))]
pub(crate) fn with_test_skipped<'a>(
    object: Object<Field<'a>>,
    event: &'a TestSkip,
) -> Mem<Object<Field<'a>>>
    ensures { IfOk result (λ o. members_of field_data o
        ≡ put_all (test_skipped_fields event.now) (members_of field_data object.entry)) }
{
    object.with(&[
        ("reason", Field::Leaf(Leaf::Text(&event.reason))),
        ("stress_index", Field::Index(event.test.stress_index)),
        ("test", Field::Leaf(Leaf::Test(&event.test.id))),
    ])
}
