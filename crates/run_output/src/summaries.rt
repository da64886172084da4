// The lines of generated runs.
ghost use Rattle.std.specs.Prelude.{◌≡◌, IfOk};
ghost use Rattle.run_output.specs.Summaries.{generated_text};

use crate::field::Field;
use crate::leaf::Leaf;
use crate::object::Object;
use crate::outcomes::outcome_name;
use run_capture::{Mem, Text};
use run_events::{RunOutcome, RunStats};
use std::alloc::Global;

/// The line of the run of a generated plan of so many tests, without its line feed: how many events it told, how it
/// ended, its statistics and how many turns it took.
#[tactic(auto, unfolding(crate::specs::Summaries::generated_fields))]
pub fn summary_line(
    alloc: Global,
    tests: u32,
    events: u64,
    outcome: RunOutcome,
    stats: &RunStats,
    turns: u64,
) -> Mem<Text>
    ensures { IfOk result (λ t. t ≡ generated_text tests events outcome stats.now turns) }
{
    Object::line(
        alloc,
        &[
            ("events", Field::Leaf(Leaf::Number(events))),
            ("generate", Field::Leaf(Leaf::Count(tests))),
            ("outcome", Field::Leaf(Leaf::Word(outcome_name(outcome)))),
            ("stats", Field::Stats(stats)),
            ("turns", Field::Leaf(Leaf::Number(turns))),
        ],
    )
}
