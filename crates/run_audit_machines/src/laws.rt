// Theorems: each law of an auditor is its machine.
ghost use Rattle.run_audit_machines.specs.Laws.{AccountsAreMachine, CancelsAreMachine, LimitsAreMachine};
ghost use Rattle.run_audit_machines.specs.Laws.{ScriptsAreMachine, ShapeIsMachine};

/// The machine of the shape accepts, from before the start of a run with so many sub-runs as have ended, just the lists
/// that have the shape of such a run, and each of its states leads to an end.
pub fn shape_is_a_machine()
    ensures { ShapeIsMachine }
{}

/// The machine of accounts accepts, from what is due of each test in each sub-run that has ended, just the lists whose
/// parts tell that; and each state in which what is left can be told leads to an end.
pub fn accounts_are_a_machine<Due>()
    ensures { AccountsAreMachine Due }
{}

/// The machine of limits accepts just the lists in each part of which the tests that run keep the plan's limits, and
/// have slots of their own, after each event; and each of its states leads to an end.
pub fn limits_are_a_machine()
    ensures { LimitsAreMachine }
{}

/// The machine of cancels accepts, from what is due of each sub-run that has ended, just the lists whose parts tell
/// that, with no start after the first cancel; and each of its states leads to an end.
pub fn cancels_are_a_machine()
    ensures { CancelsAreMachine }
{}

/// The machine of setup scripts accepts, from what is due of each sub-run that has ended, just the lists whose parts
/// tell that, with no start of a test while a script runs; and each state in which what is left can be told leads to an
/// end.
pub fn scripts_are_a_machine<Due>()
    ensures { ScriptsAreMachine Due }
{}
