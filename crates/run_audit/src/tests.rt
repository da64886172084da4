// What is due of the tests of each part, by what a run told.
ghost use Rattle.std.specs.Prelude.{◌≡◌, ◌<◌, IfOk, OnOk, List, Some, length, map, option_copied, option_map, [], ◌∷◌};
ghost use Rattle.std.specs.List.{All};
ghost use Rattle.run_events.specs.declared.events.ReporterEvent.{ReporterEvent as Told};
ghost use Rattle.run_audit_model.specs.Statuses.{due_status};
ghost use Rattle.run_audit_machines.specs.Accounts.{accounts_seen};
ghost use Rattle.run_audit_passes.specs.Texts.{known_compared};
ghost use Rattle.run_laws_audit.specs.Due.{test_news};
ghost use Rattle.run_audit.specs.Needs.{HasTestPlaces};
ghost use Rattle.run_audit.specs.Told.{AddsAt, accounts_all, accounts_by_part, accounts_known, accounts_with};
ghost use Rattle.run_audit.specs.Told.{no_accounts, test_known};

use crate::due::closes;
use crate::needs::Needs;
use run_audit_passes::{DueTest, KnownStatus, PlanPlaces, TestPart, TestPlaces};
use run_capture::Mem;
use run_events::{ExecuteStatus, ReporterEvent, TestEventKind, TestInstanceId};
use run_laws_audit::known_status;
use run_output::status_text;
use std::alloc::Global;
use std::collections::VecDeque;

/// Where the tests of a plan stand, for all parts of its run.
#[derive(Clone, Copy, Drop)]
pub struct SharedPlaces<'a> {
    places: &'a PlanPlaces,
}

impl TestPlaces for SharedPlaces<'_> {
    ghost names = { λ s. s.places.now };

    fn place(&self, id: &TestInstanceId) -> Option<usize> {
        self.places.place(id)
    }
}

// What is compared of an attempt.
fn known(alloc: Global, status: &ExecuteStatus) -> Mem<KnownStatus>
    ensures { IfOk result (λ known. known_compared known ≡ due_status status.now) }
{
    known_status(status);
    let text = status_text(alloc, status)?;
    KnownStatus::of(alloc, text.as_bytes())
}

// And of all attempts of a test.
fn all_known(alloc: Global, statuses: &[ExecuteStatus]) -> Mem<Vec<KnownStatus>>
    ensures { IfOk result (λ all. map known_compared all.items ≡ map due_status statuses.now) }
{
    let mut all = Vec::new(alloc);
    for status in statuses {
        all.push(known(alloc, status)?)?;
    }
    Ok(all)
}

// The test that an event tells of.
fn id_in(event: &ReporterEvent) -> Option<&TestInstanceId>
    ensures { option_copied result ≡ option_map (λ told. told.0) (test_news event.now) }
{
    match event {
        ReporterEvent::Tick => None,
        ReporterEvent::Test(event) => match &event.kind {
            TestEventKind::TestStarted(event) => Some(&event.start.test.id),
            TestEventKind::TestAttemptFailedWillRetry(event) => Some(&event.failed.test.id),
            TestEventKind::TestRetryStarted(event) => Some(&event.retry.start.test.id),
            TestEventKind::TestFinished(event) => Some(&event.finish.test.id),
            TestEventKind::TestSkipped(event) => Some(&event.test.id),
            _ => None,
        },
    }
}

// What it tells of it.
fn test_in(alloc: Global, event: &ReporterEvent) -> Mem<Option<DueTest<KnownStatus>>>
    ensures { IfOk result (λ due. option_map test_known due
        ≡ option_map (λ told. told.1) (test_news event.now)) }
{
    match event {
        ReporterEvent::Tick => Ok(None),
        ReporterEvent::Test(event) => match &event.kind {
            TestEventKind::TestStarted(_) => Ok(Some(DueTest::Began)),
            TestEventKind::TestAttemptFailedWillRetry(event) => Ok(Some(DueTest::Failed {
                status: known(alloc, &event.failed.status)?,
            })),
            TestEventKind::TestRetryStarted(event) => Ok(Some(DueTest::Retried {
                attempt: event.retry.attempt,
            })),
            TestEventKind::TestFinished(event) => Ok(Some(DueTest::Finished {
                statuses: all_known(alloc, event.finish.statuses.as_slice())?,
            })),
            TestEventKind::TestSkipped(_) => Ok(Some(DueTest::Skipped)),
            _ => Ok(None),
        },
    }
}

// Nothing due of each of so many tests.
fn none_due(alloc: Global, tests: usize) -> Mem<Vec<VecDeque<DueTest<KnownStatus>>>>
    ensures { IfOk result (λ due. (length due.items ≡ tests) × All (λ queue. queue.items ≡ []) due.items) }
{
    let mut due = Vec::with_capacity(alloc, tests)?;
    for _ in 0..tests {
        due.push(VecDeque::new(alloc))?;
    }
    Ok(due)
}

// One more is due of the test at a place.
fn add_at(
    due: &mut Vec<VecDeque<DueTest<KnownStatus>>>,
    place: usize,
    next: DueTest<KnownStatus>,
) -> Mem<()>
    requires { place < length due.old.items }
    ensures { OnOk result (AddsAt (λ queue. queue.items) due.old.items place next due.new.items) }
{
    due[place].push_back(next)?;
    Ok(())
}

// What an event tells of a test is due of it.
fn tell(
    alloc: Global,
    places: &PlanPlaces,
    due: &mut Vec<VecDeque<DueTest<KnownStatus>>>,
    event: &ReporterEvent,
) -> Mem<()>
    requires { length places.now ≡ length due.old.items }
    ensures told { OnOk result (accounts_known (λ queue. queue.items) places.now due.new.items
        ≡ accounts_with event.now (accounts_known (λ queue. queue.items) places.now due.old.items)) }
    ensures many { OnOk result (length due.new.items ≡ length due.old.items) }
{
    let Some(id) = id_in(event) else {
        return Ok(());
    };
    let Some(place) = places.place(id) else {
        return Ok(());
    };
    match test_in(alloc, event)? {
        Some(next) => add_at(due, place, next),
        None => Ok(()),
    }
}

// What an event makes of the parts before it, and of what is due of the open one.
fn after_event<'a>(
    alloc: Global,
    needs: &'a Needs,
    parts: &mut VecDeque<TestPart<SharedPlaces<'a>, KnownStatus>>,
    due: Vec<VecDeque<DueTest<KnownStatus>>>,
    event: &ReporterEvent,
) -> Mem<Vec<VecDeque<DueTest<KnownStatus>>>>
    requires places { HasTestPlaces needs.now }
    requires many { length needs.now.places ≡ length due.items }
    ensures told { IfOk result (λ next. (rest : List Told)
        → accounts_all (λ queue. queue.items) needs.now.stress needs.now.places parts.new.items next.items rest
        ≡ accounts_all (λ queue. queue.items) needs.now.stress needs.now.places parts.old.items due.items
        (event.now ∷ rest)) }
    ensures many { IfOk result (λ next. length needs.now.places ≡ length next.items) }
{
    if closes(needs.stress, event) {
        let places = SharedPlaces {
            places: &needs.places,
        };
        parts.push_back(TestPart::new(places, due)?)?;
        return none_due(alloc, needs.tests);
    }
    let mut due = due;
    tell(alloc, &needs.places, &mut due, event)?;
    Ok(due)
}

/// What is due of the tests of each part.
pub fn tests_due<'a>(
    alloc: Global,
    needs: &'a Needs,
    told: &[ReporterEvent],
) -> Mem<VecDeque<TestPart<SharedPlaces<'a>, KnownStatus>>>
    requires { HasTestPlaces needs.now }
    ensures { IfOk result (λ parts. map (accounts_seen test_known) parts.items
        ≡ accounts_by_part needs.now.stress needs.now.places (no_accounts needs.now.places) told.now) }
{
    let mut parts = VecDeque::new(alloc);
    let mut due = none_due(alloc, needs.tests)?;
    for event in told {
        due = after_event(alloc, needs, &mut parts, due, event)?;
    }
    Ok(parts)
}
