// The accounts of the tests of a part, event by event.
ghost use Rattle.std.specs.Prelude.{◌≡◌, ◌+◌, ◌<◌, length, IfOk};
ghost use Rattle.run_audit_model.specs.SeenTests.{seen_test};
ghost use Rattle.run_audit_machines.specs.Accounts.{PopsAt, accounts_by, count_items};
ghost use Rattle.run_audit_passes.specs.Due.{is_due_told};

use crate::test_news::{id_in, tells_due};
use crate::{DueStatus, DueTest, PartLaw, TestPlaces};
use run_audit_model::AuditEvent;
use run_capture::{Mem, OutOfMemory};
use std::collections::VecDeque;
use std::marker::Model;

/// What is still due of each test in a part, the next first, by the places of the tests; and how much that is.
#[derive(Drop)]
pub struct TestPart<N: TestPlaces + Drop, S: DueStatus + Drop> {
    places: N,
    due: Vec<VecDeque<DueTest<S>>>,
    left: u64,
}

impl<N: TestPlaces + Drop, S: DueStatus + Drop> Model for TestPart<N, S> {
    ghost use Rattle.std.specs.Prelude.{◌≡◌, length};
    ghost use Rattle.run_audit_machines.specs.Accounts.{accounts_by, count_items};
    ghost use Rattle.run_audit_machines.specs.Tests.{TestPart as Part};
    ghost use Rattle.run_audit_passes.specs.declared.due_test.DueTest.{DueTest as Due};

    ghost Value = { Part (Due S) };

    ghost view = { λ t. accounts_by (λ q. q.items) (N.names t.places) t.due.items };

    ghost invariant = { λ t. (length (N.names t.places) ≡ length t.due.items)
        × (t.left ≡ count_items (λ q. q.items) t.due.items) };
}

/// Takes what is due next at a place.
fn next_at<S: Drop>(due: &mut Vec<VecDeque<DueTest<S>>>, place: usize) -> Option<DueTest<S>>
    requires { place < length due.old.items }
    ensures { PopsAt (λ q. q.items) due.old.items place result due.new.items }
{
    due[place].pop_front()
}

/// How much is due of all tests.
fn count<S: Drop>(due: &[VecDeque<DueTest<S>>]) -> Mem<u64>
    ensures { IfOk result (λ count. count ≡ count_items (λ q. q.items) due.now) }
{
    let mut count = 0u64;
    for queue in due {
        count = both(count, queue.len() as u64)?;
    }
    Ok(count)
}

/// The sum of two counts; without memory for it, where it is too great.
fn both(a: u64, b: u64) -> Mem<u64>
    ensures { IfOk result (λ sum. sum ≡ a + b) }
{
    match a.checked_add(b) {
        Some(sum) => Ok(sum),
        None => Err(OutOfMemory),
    }
}

impl<N: TestPlaces + Drop, S: DueStatus + Drop> TestPart<N, S> {
    /// Before a part of which this is due, test by test.
    pub fn new(places: N, due: Vec<VecDeque<DueTest<S>>>) -> Mem<Self>
        requires { length (N.names places) ≡ length due.items }
        ensures { IfOk result (λ part. part ≡ accounts_by (λ q. q.items) (N.names places) due.items) }
    {
        let left = count(due.as_slice())?;
        Ok(TestPart { places, due, left })
    }
}

/// Whether an event tells just what was due, which is given away.
fn judge<S: DueStatus + Drop>(due: DueTest<S>, event: &AuditEvent) -> Mem<bool>
    ensures { IfOk result (λ told. told ≡ is_due_told S.status S.same due (seen_test event.now)) }
{
    tells_due(&due, event)
}

impl<N: TestPlaces + Drop, S: DueStatus + Drop> PartLaw for TestPart<N, S> {
    ghost use Rattle.std.specs.Prelude.{◌≡◌};
    ghost use Rattle.run_audit_machines.specs.Tests.{CanTellTests, same_news, test_part};
    ghost use Rattle.run_audit_machines.proofs.TestLemmas.{news_same, test_completes};
    ghost use Rattle.run_audit_passes.specs.Due.{due_test_news};

    ghost part = { test_part (due_test_news S.status) (same_news S.same) };

    ghost holds = { CanTellTests (due_test_news S.status) };

    fn take(&mut self, event: &AuditEvent) -> Mem<bool> {
        let Some(id) = id_in(event) else {
            return Ok(true);
        };
        let Some(place) = self.places.place(id) else {
            return Ok(false);
        };
        let Some(next) = next_at(&mut self.due, place) else {
            return Ok(false);
        };
        self.left -= 1;
        judge(next, event)
    }

    fn is_done(&self) -> bool {
        self.left == 0
    }

    ghost completes = { test_completes (due_test_news S.status) (same_news S.same) (news_same S.same S.decides) };
}
