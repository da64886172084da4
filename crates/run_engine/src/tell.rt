// How what a turn told and asked goes out.
ghost use Rattle.std.specs.Prelude.{◌≡◌, ◌<◌, ◌++◌, ◌∷◌, [], length, map, zip, is_some, is_none, not, IfOk, OnOk};
ghost use Rattle.std.specs.Prelude.{OnErr};
ghost use Rattle.std.specs.Prelude.{option_to_list, None};
ghost use Rattle.std.specs.VecDeque.{deque_len, deque_capacity};
ghost use Rattle.std.specs.List.{list_all};
ghost use Rattle.run_events.specs.Tell.{Adds, Retains};
ghost use Rattle.run_engine.specs.World.{TellsEvents, CountsErrors, earlier};
ghost use Rattle.run_engine.specs.Broken.{TellsSome};
ghost use Rattle.run_engine.specs.Starts.{start_among};

use crate::refusals::Refusals;
use run_capture::{Mem, OutOfMemory};
use run_events::{Ask, Children, ReportFault, Reporter, ReporterEvent, StartAsk};
use std::alloc::Global;
use std::collections::VecDeque;

/// The reporter's answers to the events of a turn, and the first error with which it refused one.
pub struct Told<E> {
    pub refused: Refusals,
    pub refusal: Option<E>,
}

// Tells one event, and answers the error with which the reporter refused it, if it did.
fn tell_one<R: Reporter>(
    alloc: Global,
    report: &mut R,
    event: &ReporterEvent,
) -> Mem<Option<R::Error>>
    ensures told { IfOk result (λ refusal.
        TellsEvents R.told report.old report.new ((event.now, is_some refusal) ∷ []) refusal) }
    ensures faults { IfOk result (λ refusal. CountsErrors (R.faults report.old)
        (R.faults report.new) refusal) }
    ensures none { OnErr result (TellsEvents R.told report.old report.new [] None) }
    ensures still { OnErr result (R.faults report.new ≡ R.faults report.old) }
    ensures turns { Retains R.taken report.old report.new }
{
    match report.report(alloc, event) {
        Ok(()) => Ok(None),
        Err(ReportFault::Refused(error)) => Ok(Some(error)),
        Err(ReportFault::OutOfMemory) => Err(OutOfMemory),
    }
}

// Tells one event, and adds whether it was refused to the marks.
fn tell_marked<R: Reporter>(
    alloc: Global,
    report: &mut R,
    event: &ReporterEvent,
    refused: &mut Refusals,
) -> Mem<Option<R::Error>>
    ensures marked { IfOk result (λ refusal. refused.new ≡ refused.old ++ is_some refusal ∷ []) }
    ensures told { IfOk result (λ refusal.
        TellsEvents R.told report.old report.new ((event.now, is_some refusal) ∷ []) refusal) }
    ensures faults { IfOk result (λ refusal. CountsErrors (R.faults report.old)
        (R.faults report.new) refusal) }
    ensures part { OnErr result (TellsSome R.told report.old report.new (R.faults report.old)
        (R.faults report.new)
        (event.now ∷ [])) }
    ensures turns { Retains R.taken report.old report.new }
{
    let refusal = tell_one(alloc, report, event)?;
    refused.push(alloc, refusal.is_some())?;
    Ok(refusal)
}

/// The first of two errors.
pub fn first_of<E: Drop>(first: Option<E>, later: Option<E>) -> Option<E>
    ensures { result ≡ earlier first later }
{
    match first {
        Some(error) => Some(error),
        None => later,
    }
}

/// Tells the events of a turn, in order, also after the reporter refused one.
pub fn tell<R: Reporter>(
    alloc: Global,
    report: &mut R,
    events: &[ReporterEvent],
) -> Mem<Told<R::Error>>
    ensures answered { IfOk result (λ t. length t.refused ≡ length events.now) }
    ensures marked { IfOk result (λ t. is_none t.refusal ≡ list_all not t.refused) }
    ensures told { IfOk result (λ t. TellsEvents R.told report.old report.new
        (zip events.now t.refused) t.refusal) }
    ensures faults { IfOk result (λ t. CountsErrors (R.faults report.old) (R.faults report.new)
        t.refusal) }
    ensures part { OnErr result (TellsSome R.told report.old report.new (R.faults report.old)
        (R.faults report.new)
        events.now) }
    ensures turns { Retains R.taken report.old report.new }
{
    let mut refused = Refusals::new();
    let mut refusal = None;
    for event in events {
        let error = tell_marked(alloc, report, event, &mut refused)?;
        refusal = first_of(refusal, error);
    }
    Ok(Told { refused, refusal })
}

/// Asks what a turn asks, if it does.
pub fn ask<C: Children>(alloc: Global, children: &mut C, turn: u64, asked: &Option<Ask>) -> Mem<()>
    ensures ok { OnOk result (Adds C.asked children.old children.new
        (map (λ ask. (turn, ask)) (option_to_list asked.now))) }
    ensures err { OnErr result (Adds C.asked children.old children.new []) }
{
    match asked {
        Some(asked) => children.ask(alloc, turn, asked),
        None => Ok(()),
    }
}

/// Puts the start that a turn asked, if it did, at the end of those that nobody has claimed, which have room for it.
pub fn keep_start(starts: &mut VecDeque<StartAsk>, asked: Option<Ask>)
    requires { deque_len starts.old < deque_capacity starts.old }
    ensures { starts.new.items ≡ starts.old.items ++ start_among asked }
{
    match asked {
        Some(Ask::Start(start)) => starts.push_back_reserved(start.into_inner()),
        Some(Ask::Signal(_)) => {}
        Some(Ask::StopSelf) => {}
        None => {}
    }
}
