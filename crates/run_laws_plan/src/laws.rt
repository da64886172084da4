// Theorems on plans of a project.
ghost use Rattle.run_laws_plan.specs.Plans.{PartsSharePlans, PlansHaveListedTests, SkipsHaveFirstReasons};

/// A plan has each listed test once, in the list's order, and no other.
pub fn plans_have_listed_tests()
    ensures { PlansHaveListedTests }
{}

/// A test that is skipped is so for a reason that holds of it, and no reason before that one holds; of a test that
/// isn't skipped none holds. The reasons are, in order: that which the list gives; that it is ignored, or isn't, where
/// the words want the others; that its name is none that they name, or is one that they skip; that no filter of theirs
/// holds of it; that the default filter doesn't; and that it stands in another part of the partition.
pub fn skips_have_first_reasons()
    ensures { SkipsHaveFirstReasons }
{}

/// Of the plans of all parts of a partition, exactly one runs a test that nothing else leaves out, and each other
/// skips it for the partition; a test that something else leaves out is skipped for that in each.
pub fn parts_share_plans()
    ensures { PartsSharePlans }
{}
