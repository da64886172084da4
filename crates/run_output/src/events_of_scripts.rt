// The fields of the events of setup scripts.
ghost use Rattle.std.specs.Prelude.{◌≡◌, IfOk};
ghost use Rattle.run_output.specs.Field.{field_data};
ghost use Rattle.run_output.specs.Fields.{put_all};
ghost use Rattle.run_output.specs.Object.{members_of};
ghost use Rattle.run_output.specs.EventsOfScripts.{script_started_fields, script_slow_fields, script_finished_fields};

use crate::field::Field;
use crate::leaf::Leaf;
use crate::object::Object;
use run_capture::Mem;
use run_events::{ScriptFinish, ScriptSlow, ScriptStart};

/// A setup script started.
#[tactic(auto, unfolding(crate::specs::EventsOfScripts::script_started_fields))]
pub(crate) fn with_script_started<'a>(
    object: Object<Field<'a>>,
    event: &'a ScriptStart,
) -> Mem<Object<Field<'a>>>
    ensures { IfOk result (λ o. members_of field_data o
        ≡ put_all (script_started_fields event.now) (members_of field_data object.entry)) }
{
    object.with(&[
        ("command", Field::Leaf(Leaf::Texts(&event.command))),
        ("index", Field::Leaf(Leaf::Count(event.script.index))),
        (
            "no_capture",
            Field::Leaf(Leaf::Truth(event.script.no_capture)),
        ),
        ("script", Field::Leaf(Leaf::Text(&event.script.id))),
        ("stress_index", Field::Index(event.script.stress_index)),
        ("total", Field::Leaf(Leaf::Count(event.script.total))),
    ])
}

/// A setup script is slow.
#[tactic(auto, unfolding(crate::specs::EventsOfScripts::script_slow_fields))]
pub(crate) fn with_script_slow<'a>(
    object: Object<Field<'a>>,
    event: &'a ScriptSlow,
) -> Mem<Object<Field<'a>>>
    ensures { IfOk result (λ o. members_of field_data o
        ≡ put_all (script_slow_fields event.now) (members_of field_data object.entry)) }
{
    object.with(&[
        (
            "elapsed_slow",
            Field::Leaf(Leaf::Number(event.elapsed_slow)),
        ),
        ("script", Field::Leaf(Leaf::Text(&event.script.id))),
        ("stress_index", Field::Index(event.script.stress_index)),
        ("terminates", Field::Leaf(Leaf::Truth(event.terminates))),
    ])
}

/// A setup script finished.
#[tactic(auto, unfolding(crate::specs::EventsOfScripts::script_finished_fields))]
pub(crate) fn with_script_finished<'a>(
    object: Object<Field<'a>>,
    event: &'a ScriptFinish,
) -> Mem<Object<Field<'a>>>
    ensures { IfOk result (λ o. members_of field_data o
        ≡ put_all (script_finished_fields event.now) (members_of field_data object.entry)) }
{
    object.with(&[
        ("index", Field::Leaf(Leaf::Count(event.script.index))),
        (
            "no_capture",
            Field::Leaf(Leaf::Truth(event.script.no_capture)),
        ),
        ("script", Field::Leaf(Leaf::Text(&event.script.id))),
        ("status", Field::ScriptStatus(&event.status)),
        ("stress_index", Field::Index(event.script.stress_index)),
        ("total", Field::Leaf(Leaf::Count(event.script.total))),
    ])
}
