// Where the tests of a plan stand, by their ids.

use run_events::TestInstanceId;

/// Where tests stand, by their ids.
pub trait TestPlaces {
    ghost use Rattle.std.specs.Prelude.{List};
    ghost use Rattle.run_events.specs.declared.plan.TestInstanceId.{TestInstanceId as Id};
    ghost use Rattle.run_model.specs.Reruns.{is_one_test};
    ghost use Rattle.run_audit_machines.specs.Accounts.{IsOwnPlace};

    /// The ids, in order.
    ghost names: { Self → List Id };

    /// The place of an id, if it is one of them; no other is the same.
    fn place(&self, id: &TestInstanceId) -> Option<usize>
        ensures { IsOwnPlace (is_one_test id.now) (names self.now) result };
}
