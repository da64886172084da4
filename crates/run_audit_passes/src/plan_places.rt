// Where the tests of a plan stand, by a map from their ids.
ghost use Rattle.std.specs.Prelude.{◌≡◌, ◌++◌, ◌∷◌, [], cond, map, IfOk, IfSome, IsNone, OnOk, Some};
ghost use Rattle.std.specs.BTreeMap.{get, is_at};
ghost use Rattle.run_events.specs.declared.plan.TestInstanceId.{TestInstanceId as Id};
ghost use Rattle.run_model.specs.Reruns.{id_order, is_one_test};
ghost use Rattle.run_audit_machines.specs.Accounts.{AreApart};

use crate::TestPlaces;
use run_capture::{Duplicate, Mem};
use run_events::{PlanTest, TestInstanceId};
use std::alloc::Global;
use std::collections::BTreeMap;
use std::marker::Model;

/// The ids of the tests of a plan, in its order, each id once.
#[derive(Drop)]
pub struct PlanPlaces {
    ids: Vec<TestInstanceId>,
    places: BTreeMap<TestInstanceId, usize>,
}

impl Model for PlanPlaces {
    ghost use Rattle.std.specs.Prelude.{List};
    ghost use Rattle.std.specs.BTreeMap.{get};
    ghost use Rattle.run_events.specs.declared.plan.TestInstanceId.{TestInstanceId as Id};
    ghost use Rattle.run_model.specs.Reruns.{id_order, is_one_test};
    ghost use Rattle.run_audit_machines.specs.Accounts.{IsOwnPlace};

    ghost Value = { List Id };

    ghost view = { λ p. p.ids.items };

    ghost invariant = { λ p. (q : Id) → IsOwnPlace (is_one_test q) p.ids.items (get id_order p.places q) };
}

impl TestPlaces for PlanPlaces {
    ghost names = { λ p. p };

    fn place(&self, id: &TestInstanceId) -> Option<usize> {
        self.places.get(id).copied()
    }
}

// One id more, at its place.
fn add_id(
    alloc: Global,
    ids: &mut Vec<TestInstanceId>,
    places: &mut BTreeMap<TestInstanceId, usize>,
    id: &TestInstanceId,
    place: usize,
) -> Mem<()>
    ensures ids { OnOk result (ids.new.items ≡ ids.old.items ++ id.now ∷ []) }
    ensures places { OnOk result ((q : Id) → get id_order places.new q
        ≡ cond (is_at (id_order id.now) q) (Some place) (get id_order places.old q)) }
{
    places.insert(id.copy(alloc)?, place)?;
    ids.push(id.copy(alloc)?)?;
    Ok(())
}

/// The places of tests; none where an id comes twice.
pub fn places_of(alloc: Global, tests: &[PlanTest]) -> Mem<Option<PlanPlaces>>
    ensures some { IfOk result (λ places. IfSome places (λ p. p ≡ map (λ test. test.id) tests.now)) }
    ensures none { IfOk result (λ places. IsNone places
        → AreApart is_one_test (map (λ test. test.id) tests.now) → ⊥) }
{
    let mut ids = Vec::new(alloc);
    let mut places = BTreeMap::new(alloc);
    for (place, test) in tests.iter().enumerate() {
        if places.contains_key(&test.id) {
            return Ok(None);
        }
        add_id(alloc, &mut ids, &mut places, &test.id, place)?;
    }
    Ok(Some(PlanPlaces { ids, places }))
}
