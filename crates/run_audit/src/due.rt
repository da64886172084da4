// What is due of each part, by what a run told.
ghost use Rattle.std.specs.Prelude.{◌≡◌, IfOk, List, length, map, [], ◌∷◌};
ghost use Rattle.run_events.specs.declared.events.ReporterEvent.{ReporterEvent as Told};
ghost use Rattle.run_audit_model.specs.Parts.{closes_part};
ghost use Rattle.run_audit_model.specs.Seen.{as_audited};
ghost use Rattle.run_laws_audit.specs.Due.{cancel_news};
ghost use Rattle.run_laws_audit.specs.Split.{news_by_part};
ghost use Rattle.run_audit.specs.Told.{cancels_all, no_news, before_cancels};

use run_audit_passes::CancelPart;
use run_capture::Mem;
use run_events::{CancelReason, ReporterEvent, TestEventKind};
use std::alloc::Global;
use std::collections::VecDeque;

/// Whether an event closes a part.
pub fn closes(stress: bool, event: &ReporterEvent) -> bool
    ensures { result ≡ closes_part stress (as_audited event.now) }
{
    match event {
        ReporterEvent::Tick => false,
        ReporterEvent::Test(event) => match &event.kind {
            TestEventKind::StressSubRunFinished(_) => stress,
            TestEventKind::RunFinished(_) => !stress,
            _ => false,
        },
    }
}

/// How many parts a run told.
pub fn count_parts(stress: bool, told: &[ReporterEvent]) -> u64
    ensures { result ≡ length (news_by_part stress no_news [] told.now) }
{
    let mut parts = 0u64;
    for event in told {
        if closes(stress, event) {
            parts += 1;
        }
    }
    parts
}

/// The cancel that an event tells, and whether the run is killed.
fn cancel_in(event: &ReporterEvent) -> Option<(CancelReason, bool)>
    ensures { result ≡ cancel_news event.now }
{
    match event {
        ReporterEvent::Tick => None,
        ReporterEvent::Test(event) => match &event.kind {
            TestEventKind::RunBeginCancel(cancelled) => match cancelled.stats.cancel_reason {
                Some(reason) => Some((reason, false)),
                None => None,
            },
            TestEventKind::RunBeginKill(cancelled) => match cancelled.stats.cancel_reason {
                Some(reason) => Some((reason, true)),
                None => None,
            },
            _ => None,
        },
    }
}

/// What an event makes of the parts before it, and of what is due of the open one.
#[tactic(auto, using(crate::proofs::DueLemmas::part_closed, crate::proofs::DueLemmas::part_told, crate::proofs::DueLemmas::part_silent))]
fn after_event(
    alloc: Global,
    stress: bool,
    parts: &mut VecDeque<CancelPart>,
    due: VecDeque<(CancelReason, bool)>,
    event: &ReporterEvent,
) -> Mem<VecDeque<(CancelReason, bool)>>
    ensures { IfOk result (λ next. (rest : List Told) → cancels_all stress parts.new.items next.items rest
        ≡ cancels_all stress parts.old.items due.items (event.now ∷ rest)) }
{
    if closes(stress, event) {
        parts.push_back(CancelPart::new(due))?;
        return Ok(VecDeque::new(alloc));
    }
    match cancel_in(event) {
        Some(cancel) => {
            let mut due = due;
            due.push_back(cancel)?;
            Ok(due)
        }
        None => Ok(due),
    }
}

/// What is due of the cancels of each part.
pub fn cancels_due(alloc: Global, stress: bool, told: &[ReporterEvent]) -> Mem<VecDeque<CancelPart>>
    ensures { IfOk result (λ parts. parts.items ≡ map before_cancels (news_by_part stress cancel_news [] told.now)) }
{
    let mut parts = VecDeque::new(alloc);
    let mut due = VecDeque::new(alloc);
    for event in told {
        due = after_event(alloc, stress, &mut parts, due, event)?;
    }
    Ok(parts)
}
