// What belongs to a stress run as objects.
ghost use Rattle.std.specs.Prelude.{◌≡◌, option_map, IfOk};
ghost use Rattle.run_output.specs.Fields.{rows};
ghost use Rattle.run_output.specs.Leaf.{leaf_data};
ghost use Rattle.run_output.specs.Printer.{Prints, data_tokens};
ghost use Rattle.run_output.specs.StressPart.{stress_part_data};
ghost use Rattle.run_output.specs.Stress.{
  condition_data,
  index_fields,
  index_data,
  progress_fields,
  progress_data,
  last_word,
  ended_fields,
  stress_stats_data,
};

use crate::leaf::Leaf;
use crate::object::Object;
use crate::printer::{Printed, Printer};
use run_capture::Mem;
use run_commands::StressCondition;
use run_events::{FinalRunStats, StressIndex, StressProgress, StressRunStats};
use std::alloc::Global;

/// When a stress run ends, as a plan says it.
#[tactic(auto, unfolding(crate::specs::Stress::condition_fields))]
pub(crate) fn print_condition(
    alloc: Global,
    out: &mut Printer,
    condition: &StressCondition,
) -> Mem<()>
    ensures { Prints result out.old out.new (data_tokens (condition_data condition.now)) }
{
    match condition {
        StressCondition::Count(runs) => Object::print_of(
            alloc,
            out,
            &[("count", Leaf::Runs(*runs))],
        ),
        StressCondition::Duration(time) => Object::print_of(
            alloc,
            out,
            &[("duration", Leaf::Number(*time))],
        ),
    }
}

#[tactic(auto, unfolding(crate::specs::Stress::index_fields))]
fn index(index: StressIndex) -> [(&'static str, Leaf<'static>); 2]
    ensures { rows leaf_data result ≡ index_fields index }
{
    [
        ("current", Leaf::Count(index.current)),
        ("total", Leaf::count_of(index.total)),
    ]
}

/// Which sub-run it is.
pub(crate) fn print_index(alloc: Global, out: &mut Printer, index_of: StressIndex) -> Mem<()>
    ensures { Prints result out.old out.new (data_tokens (index_data index_of)) }
{
    Object::print_of(alloc, out, &index(index_of))
}

#[tactic(auto, unfolding(crate::specs::Stress::progress_fields))]
fn progress(progress: StressProgress) -> [(&'static str, Leaf<'static>); 2]
    ensures { rows leaf_data result ≡ progress_fields progress }
{
    match progress {
        StressProgress::Count {
            elapsed,
            completed,
            ..
        }
        | StressProgress::Time {
            elapsed,
            completed,
            ..
        } => [
            ("completed", Leaf::Count(completed)),
            ("elapsed", Leaf::Number(elapsed)),
        ],
    }
}

/// How far a stress run is.
pub(crate) fn print_progress(alloc: Global, out: &mut Printer, so_far: StressProgress) -> Mem<()>
    ensures { Prints result out.old out.new (data_tokens (progress_data so_far)) }
{
    Object::print_of(alloc, out, &progress(so_far))
}

// What stands at a key of a stress run's statistics.
#[derive(Clone, Copy)]
enum Part {
    Count(u32),
    Word(&'static str),
    Index(StressIndex),
}

impl Printed for Part {
    ghost use Rattle.run_output.specs.StressPart.{stress_part_data};

    ghost printed = { stress_part_data };

    fn is_absent(&self) -> bool {
        false
    }

    fn print(&self, alloc: Global, out: &mut Printer) -> Mem<()> {
        match *self {
            Part::Count(number) => out.number(number as u64),
            Part::Word(word) => out.text(word),
            Part::Index(index) => print_index(alloc, out, index),
        }
    }
}

#[tactic(auto, unfolding(crate::specs::Stress::last_word))]
fn last_name(last: FinalRunStats) -> &'static str
    ensures { result.now ≡ last_word last }
{
    match last {
        FinalRunStats::Success => "success",
        FinalRunStats::NoTestsRun => "no-tests-run",
        FinalRunStats::Failed { .. } => "failed",
        FinalRunStats::Cancelled { .. } => "cancelled",
    }
}

#[tactic(auto, unfolding(crate::specs::Stress::ended_fields))]
fn ended(stats: &StressRunStats) -> [(&'static str, Part); 3]
    ensures { rows stress_part_data result ≡ ended_fields stats.now }
{
    [
        ("failed_count", Part::Count(stats.failed_count)),
        ("last", Part::Word(last_name(stats.last_final_stats))),
        ("success_count", Part::Count(stats.success_count)),
    ]
}

/// What came of the sub-runs of a stress run.
pub(crate) fn print_stress_stats(
    alloc: Global,
    out: &mut Printer,
    stats: &StressRunStats,
) -> Mem<()>
    ensures { Prints result out.old out.new (data_tokens (stress_stats_data stats.now)) }
{
    let object = Object::of(alloc, &[("completed", Part::Index(stats.completed))])?;
    object.with(&ended(stats))?.print(alloc, out)
}
