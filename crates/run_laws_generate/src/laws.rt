// Theorems on generated runs.
ghost use Rattle.run_laws_generate.specs.Counts.{ExitsAreMade, FailuresAreCounted, PlansAreCounted};
ghost use Rattle.run_laws_generate.specs.Ends.{RunsEnd};

/// A run of the generated plan of at most 20,000 tests, by its generated turns, never stops short: as long as it isn't
/// over, its next turn is enabled, and it is over before its journal is full.
pub fn generated_runs_end()
    ensures { RunsEnd }
{}

/// Of the tests of a generated plan, in order, every eleventh is skipped, every fifth is in the group `g` and the
/// others in none, every seventh is tried again once, and every third takes each of the weights 1, 2 and 3.
pub fn generated_plans_are_counted()
    ensures { PlansAreCounted }
{}

/// Of the tests of a generated plan, in order, every thirteenth fails at each attempt, and each that is tried again at
/// its first one. An exit that comes next in a run of that plan, after any legal journal, is that of the attempt at
/// which its unit is by its own turns.
pub fn generated_exits_are_counted()
    ensures failures { FailuresAreCounted }
    ensures made { ExitsAreMade }
{}
