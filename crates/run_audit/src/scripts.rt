// What is due of the setup scripts of each part, by what a run told.
ghost use Rattle.std.specs.Prelude.{◌≡◌, IfOk, List, Some, map, option_map, [], ◌∷◌};
ghost use Rattle.run_events.specs.declared.events.ReporterEvent.{ReporterEvent as Told};
ghost use Rattle.run_output.specs.Statuses.{script_status_data};
ghost use Rattle.run_audit_model.specs.SeenScripts.{ended};
ghost use Rattle.run_audit_model.specs.Statuses.{compared_in};
ghost use Rattle.run_audit_machines.specs.Scripts.{before_scripts};
ghost use Rattle.run_laws_audit.specs.Due.{script_news};
ghost use Rattle.run_laws_audit.specs.Split.{news_by_part};
ghost use Rattle.run_audit.specs.Told.{script_known, script_part_known, scripts_all};

use crate::due::closes;
use run_audit_passes::{DueScript, KnownStatus, ScriptPart};
use run_capture::Mem;
use run_events::{ReporterEvent, SetupScriptExecuteStatus, TestEventKind};
use run_laws_audit::known_script_status;
use run_output::script_status_text;
use std::alloc::Global;
use std::collections::VecDeque;

// The finish of a script with this status.
fn ended(
    alloc: Global,
    index: u32,
    status: &SetupScriptExecuteStatus,
) -> Mem<DueScript<KnownStatus>>
    ensures { IfOk result (λ due. script_known due
        ≡ ended index (Some (compared_in (script_status_data status.now)))) }
{
    known_script_status(status);
    let text = script_status_text(alloc, status)?;
    let status = KnownStatus::of(alloc, text.as_bytes())?;
    Ok(DueScript::Ended { index, status })
}

// What an event tells of a setup script.
fn script_in(alloc: Global, event: &ReporterEvent) -> Mem<Option<DueScript<KnownStatus>>>
    ensures { IfOk result (λ due. option_map script_known due ≡ script_news event.now) }
{
    match event {
        ReporterEvent::Tick => Ok(None),
        ReporterEvent::Test(event) => match &event.kind {
            TestEventKind::SetupScriptStarted(event) => Ok(Some(DueScript::Began {
                index: event.script.index,
            })),
            TestEventKind::SetupScriptFinished(event) => {
                Ok(Some(ended(alloc, event.script.index, &event.status)?))
            }
            _ => Ok(None),
        },
    }
}

// What an event makes of the parts before it, and of what is due of the open one.
#[tactic(auto, using(crate::proofs::ScriptDueLemmas::script_closed, crate::proofs::ScriptDueLemmas::script_told, crate::proofs::ScriptDueLemmas::script_silent))]
fn after_event(
    alloc: Global,
    stress: bool,
    parts: &mut VecDeque<ScriptPart<KnownStatus>>,
    due: VecDeque<DueScript<KnownStatus>>,
    event: &ReporterEvent,
) -> Mem<VecDeque<DueScript<KnownStatus>>>
    ensures { IfOk result (λ next. (rest : List Told) → scripts_all stress parts.new.items next.items rest
        ≡ scripts_all stress parts.old.items due.items (event.now ∷ rest)) }
{
    if closes(stress, event) {
        parts.push_back(ScriptPart::new(due))?;
        return Ok(VecDeque::new(alloc));
    }
    match script_in(alloc, event)? {
        Some(next) => {
            let mut due = due;
            due.push_back(next)?;
            Ok(due)
        }
        None => Ok(due),
    }
}

/// What is due of the setup scripts of each part.
pub fn scripts_due(
    alloc: Global,
    stress: bool,
    told: &[ReporterEvent],
) -> Mem<VecDeque<ScriptPart<KnownStatus>>>
    ensures { IfOk result (λ parts. map script_part_known parts.items
        ≡ map before_scripts (news_by_part stress script_news [] told.now)) }
{
    let mut parts = VecDeque::new(alloc);
    let mut due = VecDeque::new(alloc);
    for event in told {
        due = after_event(alloc, stress, &mut parts, due, event)?;
    }
    Ok(parts)
}
