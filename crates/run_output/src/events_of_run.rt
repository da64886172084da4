// The fields of the events of a run.
ghost use Rattle.std.specs.Prelude.{◌≡◌, IfOk};
ghost use Rattle.run_output.specs.Field.{field_data};
ghost use Rattle.run_output.specs.Fields.{put_all};
ghost use Rattle.run_output.specs.Object.{members_of};
ghost use Rattle.run_output.specs.EventsOfRun.{
  run_started_fields,
  sub_run_started_fields,
  sub_run_finished_fields,
  input_entered_fields,
  run_cancelled_fields,
  job_controlled_fields,
  single_data,
  sub_runs_data,
  run_finished_fields,
};

use crate::field::Field;
use crate::leaf::Leaf;
use crate::object::Object;
use run_capture::Mem;
use run_events::{
    InputEntered, JobControlled, RunCancelled, RunFinished, RunFinishedStats, RunStarted,
    StressProgress, SubRunFinished,
};

/// The run started.
#[tactic(auto, unfolding(crate::specs::EventsOfRun::run_started_fields))]
pub(crate) fn with_run_started<'a>(
    object: Object<Field<'a>>,
    event: &'a RunStarted,
) -> Mem<Object<Field<'a>>>
    ensures { IfOk result (λ o. members_of field_data o
        ≡ put_all (run_started_fields event.now) (members_of field_data object.entry)) }
{
    object.with(&[
        ("args", Field::Leaf(Leaf::Texts(&event.args))),
        ("profile", Field::Leaf(Leaf::Text(&event.profile))),
        ("run_id", Field::Leaf(Leaf::Id(event.run_id))),
        ("stress", Field::Stress(&event.stress)),
        ("tests", Field::Leaf(Leaf::Count(event.tests))),
    ])
}

/// A sub-run of a stress run started.
#[tactic(auto, unfolding(crate::specs::EventsOfRun::sub_run_started_fields))]
pub(crate) fn with_sub_run_started<'a>(
    object: Object<Field<'a>>,
    progress: StressProgress,
) -> Mem<Object<Field<'a>>>
    ensures { IfOk result (λ o. members_of field_data o
        ≡ put_all (sub_run_started_fields progress) (members_of field_data object.entry)) }
{
    object.with(&[("progress", Field::Progress(progress))])
}

/// A sub-run of a stress run ended.
#[tactic(auto, unfolding(crate::specs::EventsOfRun::sub_run_finished_fields))]
pub(crate) fn with_sub_run_finished<'a>(
    object: Object<Field<'a>>,
    event: &'a SubRunFinished,
) -> Mem<Object<Field<'a>>>
    ensures { IfOk result (λ o. members_of field_data o
        ≡ put_all (sub_run_finished_fields event.now) (members_of field_data object.entry)) }
{
    object.with(&[
        ("progress", Field::Progress(event.progress)),
        ("stats", Field::Stats(&event.stats)),
        ("sub_elapsed", Field::Leaf(Leaf::Number(event.sub_elapsed))),
    ])
}

/// Counts as they are.
#[tactic(auto, unfolding(crate::specs::EventsOfRun::input_entered_fields))]
pub(crate) fn with_input_entered<'a>(
    object: Object<Field<'a>>,
    event: &'a InputEntered,
) -> Mem<Object<Field<'a>>>
    ensures { IfOk result (λ o. members_of field_data o
        ≡ put_all (input_entered_fields event.now) (members_of field_data object.entry)) }
{
    object.with(&[
        ("running", Field::Leaf(Leaf::Count(event.running))),
        ("stats", Field::Stats(&event.stats)),
    ])
}

/// The run begins to be cancelled, or its units to be killed.
#[tactic(auto, unfolding(crate::specs::EventsOfRun::run_cancelled_fields))]
pub(crate) fn with_run_cancelled<'a>(
    object: Object<Field<'a>>,
    event: &'a RunCancelled,
) -> Mem<Object<Field<'a>>>
    ensures { IfOk result (λ o. members_of field_data o
        ≡ put_all (run_cancelled_fields event.now) (members_of field_data object.entry)) }
{
    object.with(&[
        ("running", Field::Leaf(Leaf::Count(event.running))),
        (
            "scripts_running",
            Field::Leaf(Leaf::Count(event.scripts_running)),
        ),
        ("stats", Field::Stats(&event.stats)),
    ])
}

/// The run was stopped, or goes on.
#[tactic(auto, unfolding(crate::specs::EventsOfRun::job_controlled_fields))]
pub(crate) fn with_job_controlled<'a>(
    object: Object<Field<'a>>,
    event: &'a JobControlled,
) -> Mem<Object<Field<'a>>>
    ensures { IfOk result (λ o. members_of field_data o
        ≡ put_all (job_controlled_fields event.now) (members_of field_data object.entry)) }
{
    object.with(&[
        ("running", Field::Leaf(Leaf::Count(event.running))),
        (
            "scripts_running",
            Field::Leaf(Leaf::Count(event.scripts_running)),
        ),
    ])
}

fn single(stats: &RunFinishedStats) -> Field<'_>
    ensures { field_data result ≡ single_data stats.now }
{
    match stats {
        RunFinishedStats::Single(stats) => Field::Stats(stats),
        RunFinishedStats::Stress(_) => Field::Leaf(Leaf::Absent),
    }
}

fn sub_runs(stats: &RunFinishedStats) -> Field<'_>
    ensures { field_data result ≡ sub_runs_data stats.now }
{
    match stats {
        RunFinishedStats::Single(_) => Field::Leaf(Leaf::Absent),
        RunFinishedStats::Stress(stats) => Field::StressStats(stats),
    }
}

/// The run finished.
#[tactic(auto, unfolding(crate::specs::EventsOfRun::run_finished_fields))]
pub(crate) fn with_run_finished<'a>(
    object: Object<Field<'a>>,
    event: &'a RunFinished,
) -> Mem<Object<Field<'a>>>
    ensures { IfOk result (λ o. members_of field_data o
        ≡ put_all (run_finished_fields event.now) (members_of field_data object.entry)) }
{
    object.with(&[
        ("not_seen", Field::NotSeen(&event.not_seen)),
        ("stats", single(&event.stats)),
        ("stress_stats", sub_runs(&event.stats)),
    ])
}
