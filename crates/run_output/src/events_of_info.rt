// The fields of the events of information rounds.
ghost use Rattle.std.specs.Prelude.{◌≡◌, IfOk};
ghost use Rattle.run_events.specs.declared.info.InfoSubject.TheVariants.{Test, Script};
ghost use Rattle.run_output.specs.Field.{field_data};
ghost use Rattle.run_output.specs.Fields.{put_all};
ghost use Rattle.run_output.specs.Object.{members_of};
ghost use Rattle.run_output.specs.EventsOfInfo.{
  info_started_fields,
  subject_fields,
  info_answered_fields,
  info_finished_fields,
};

use crate::field::Field;
use crate::leaf::Leaf;
use crate::object::Object;
use run_capture::Mem;
use run_events::{InfoAnswered, InfoStarted, InfoSubject, ScriptUnit, TestUnit};

/// An information round started.
#[tactic(auto, unfolding(crate::specs::EventsOfInfo::info_started_fields))]
pub(crate) fn with_info_started<'a>(
    object: Object<Field<'a>>,
    event: &'a InfoStarted,
) -> Mem<Object<Field<'a>>>
    ensures { IfOk result (λ o. members_of field_data o
        ≡ put_all (info_started_fields event.now) (members_of field_data object.entry)) }
{
    object.with(&[
        ("running", Field::Leaf(Leaf::Count(event.running))),
        ("stats", Field::Stats(&event.stats)),
        ("total", Field::Leaf(Leaf::Count(event.total))),
    ])
}

#[tactic(auto, unfolding(crate::specs::EventsOfInfo::subject_fields))]
fn with_test<'a>(
    object: Object<Field<'a>>,
    test: &'a TestUnit,
    attempt: u32,
    attempts: u32,
) -> Mem<Object<Field<'a>>>
    ensures { IfOk result (λ o. members_of field_data o
        ≡ put_all (subject_fields (Test test.now attempt attempts))
        (members_of field_data object.entry)) }
{
    object.with(&[
        ("attempt", Field::Leaf(Leaf::Count(attempt))),
        ("attempts", Field::Leaf(Leaf::Count(attempts))),
        ("stress_index", Field::Index(test.stress_index)),
        ("test", Field::Leaf(Leaf::Test(&test.id))),
    ])
}

#[tactic(auto, unfolding(crate::specs::EventsOfInfo::subject_fields))]
fn with_script<'a>(object: Object<Field<'a>>, script: &'a ScriptUnit) -> Mem<Object<Field<'a>>>
    ensures { IfOk result (λ o. members_of field_data o
        ≡ put_all (subject_fields (Script script.now)) (members_of field_data object.entry)) }
{
    object.with(&[
        ("script", Field::Leaf(Leaf::Text(&script.id))),
        ("stress_index", Field::Index(script.stress_index)),
    ])
}

fn with_subject<'a>(object: Object<Field<'a>>, subject: &'a InfoSubject) -> Mem<Object<Field<'a>>>
    ensures { IfOk result (λ o. members_of field_data o
        ≡ put_all (subject_fields subject.now) (members_of field_data object.entry)) }
{
    match subject {
        InfoSubject::Test {
            test,
            attempt,
            attempts,
        } => with_test(object, test, *attempt, *attempts),
        InfoSubject::Script(script) => with_script(object, script),
    }
}

/// The fields of a unit's answer.
#[tactic(auto, unfolding(crate::specs::EventsOfInfo::info_answered_fields))]
pub(crate) fn with_info_answered<'a>(
    object: Object<Field<'a>>,
    event: &'a InfoAnswered,
) -> Mem<Object<Field<'a>>>
    ensures { IfOk result (λ o. members_of field_data o
        ≡ put_all (info_answered_fields event.now) (members_of field_data object.entry)) }
{
    let answer = [
        ("index", Field::Leaf(Leaf::Count(event.index))),
        ("output", Field::Output(&event.response)),
        ("state", Field::State(&event.response)),
        ("total", Field::Leaf(Leaf::Count(event.total))),
    ];
    let object = object.with(&answer)?;
    with_subject(object, &event.response.subject)
}

/// The information round ended, and so many units gave no answer.
#[tactic(auto, unfolding(crate::specs::EventsOfInfo::info_finished_fields))]
pub(crate) fn with_info_finished<'a>(
    object: Object<Field<'a>>,
    missing: u32,
) -> Mem<Object<Field<'a>>>
    ensures { IfOk result (λ o. members_of field_data o
        ≡ put_all (info_finished_fields missing) (members_of field_data object.entry)) }
{
    object.with(&[("missing", Field::Leaf(Leaf::Count(missing)))])
}
