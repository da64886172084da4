// What stands at a key of an event's line.
ghost use Rattle.std.specs.Prelude.{◌≡◌, option_map};
ghost use Rattle.run_output.specs.Fields.{rows};
ghost use Rattle.run_output.specs.Leaf.{leaf_data};
ghost use Rattle.run_output.specs.Printer.{Prints, data_tokens, or_null};
ghost use Rattle.run_output.specs.Field.{not_seen_fields, not_seen_data};
ghost use Rattle.run_output.specs.Stress.{condition_data, index_data};

use crate::info::{print_shown, print_state};
use crate::leaf::Leaf;
use crate::object::Object;
use crate::printer::{Printed, Printer};
use crate::slots::print_slot;
use crate::stats::print_stats;
use crate::statuses::{print_script_status, print_status, print_statuses};
use crate::stress::{print_condition, print_index, print_progress, print_stress_stats};
use run_capture::{List, Mem};
use run_commands::StressCondition;
use run_events::{
    ExecuteStatus, InfoResponse, RunStats, SetupScriptExecuteStatus, StressIndex, StressProgress,
    StressRunStats, TestSlotAssignment, TestsNotSeen,
};
use std::alloc::Global;

/// What stands at a key of an event's line: something plain, an object, or a list of objects.
#[derive(Clone, Copy)]
pub(crate) enum Field<'a> {
    /// No object.
    Leaf(Leaf<'a>),
    /// The statistics of a run.
    Stats(&'a RunStats),
    /// A test's slot.
    Slot(&'a TestSlotAssignment),
    /// An attempt of a test.
    Status(&'a ExecuteStatus),
    /// The attempts of a test.
    Statuses(&'a List<ExecuteStatus>),
    /// The attempt of a setup script.
    ScriptStatus(&'a SetupScriptExecuteStatus),
    /// When a stress run ends; left out where it is none.
    Stress(&'a Option<StressCondition>),
    /// Which sub-run it is; left out where there is none.
    Index(Option<StressIndex>),
    /// How far a stress run is.
    Progress(StressProgress),
    /// What came of the sub-runs of a stress run.
    StressStats(&'a StressRunStats),
    /// The tests that were expected and not seen; left out but in a rerun.
    NotSeen(&'a Option<TestsNotSeen>),
    /// What a unit is doing.
    State(&'a InfoResponse),
    /// What its child wrote so far.
    Output(&'a InfoResponse),
}

#[tactic(auto, unfolding(crate::specs::Field::not_seen_fields))]
fn not_seen(tests: &TestsNotSeen) -> [(&'static str, Leaf<'_>); 2]
    ensures { rows leaf_data result ≡ not_seen_fields tests.now }
{
    [
        ("sample", Leaf::Tests(&tests.not_seen)),
        ("total", Leaf::Number(tests.total_not_seen)),
    ]
}

fn print_not_seen(alloc: Global, out: &mut Printer, tests: &Option<TestsNotSeen>) -> Mem<()>
    ensures { Prints result out.old out.new
        (data_tokens (or_null (option_map not_seen_data tests.now))) }
{
    match tests {
        Some(tests) => Object::print_of(alloc, out, &not_seen(tests)),
        None => out.null(),
    }
}

fn print_stress(alloc: Global, out: &mut Printer, stress: &Option<StressCondition>) -> Mem<()>
    ensures { Prints result out.old out.new
        (data_tokens (or_null (option_map condition_data stress.now))) }
{
    match stress {
        Some(condition) => print_condition(alloc, out, condition),
        None => out.null(),
    }
}

fn print_sub_run(alloc: Global, out: &mut Printer, index: Option<StressIndex>) -> Mem<()>
    ensures { Prints result out.old out.new
        (data_tokens (or_null (option_map index_data index))) }
{
    match index {
        Some(index) => print_index(alloc, out, index),
        None => out.null(),
    }
}

impl Printed for Field<'_> {
    ghost use Rattle.run_output.specs.Field.{field_data};

    ghost printed = { field_data };

    fn is_absent(&self) -> bool {
        match self {
            Field::Leaf(leaf) => leaf.is_absent(),
            Field::Stress(stress) => stress.is_none(),
            Field::Index(index) => index.is_none(),
            Field::NotSeen(tests) => tests.is_none(),
            _ => false,
        }
    }

    fn print(&self, alloc: Global, out: &mut Printer) -> Mem<()> {
        match self {
            Field::Leaf(leaf) => leaf.print(alloc, out),
            Field::Stats(stats) => print_stats(alloc, out, stats),
            Field::Slot(slot) => print_slot(alloc, out, slot),
            Field::Status(status) => print_status(alloc, out, status),
            Field::Statuses(list) => print_statuses(alloc, out, list.as_slice()),
            Field::ScriptStatus(status) => print_script_status(alloc, out, status),
            Field::Stress(stress) => print_stress(alloc, out, stress),
            Field::Index(index) => print_sub_run(alloc, out, *index),
            Field::Progress(progress) => print_progress(alloc, out, *progress),
            Field::StressStats(stats) => print_stress_stats(alloc, out, stats),
            Field::NotSeen(tests) => print_not_seen(alloc, out, tests),
            Field::State(response) => print_state(alloc, out, &response.state),
            Field::Output(response) => print_shown(alloc, out, response),
        }
    }
}
