// Theorems on the plans that are refused.
ghost use Rattle.run_laws_build.specs.Refusals.{AcceptedPlansBreakNone, RefusalsAreFirst};

/// A plan is refused for the limit on all tests exactly where that is 0; for the limit of a group exactly where that
/// on all tests isn't 0, and the group is the first whose limit is; and for a test exactly where no limit is 0, each
/// test before it breaks no rule, and it breaks this rule and none of those before it. The rules are, in order: no
/// earlier test has its id; a group that it names is one of the plan; its weight isn't 0; and its retries, or those
/// that are set for all tests, are fewer than 4,294,967,295. A test that is to be skipped is held to them as any other.
/// A plan is accepted exactly where no limit is 0, and no test breaks a rule.
pub fn plans_are_refused_in_order()
    ensures refused { RefusalsAreFirst }
    ensures accepted { AcceptedPlansBreakNone }
{}
