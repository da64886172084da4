// Takes the turns of a list, one after another. It keeps no journal of them: the state stands for it.
ghost use Rattle.std.specs.Prelude.{◌≡◌, ◌+◌, ◌<◌, ◌^◌, [], length, List, IfOk, IfErr};
ghost use Rattle.run_model.specs.declared.entry.Entry.{Entry};
ghost use Rattle.run_model.specs.Admission.{AreFew};
ghost use Rattle.run_model.specs.Board.{board};
ghost use Rattle.run_state.specs.Held.{held};
ghost use Rattle.run_engine.specs.World.{outside};
ghost use Rattle.run_engine.specs.Standing.{sound};
ghost use Rattle.run_engine.specs.Execution.{StopsAt};
ghost use Rattle.run_engine.specs.Unkept.{StandsAfter, TakesUnkept, StopsUnkept, TookAll};

use crate::carry::{carry_unkept, named_if_enabled};
use crate::errors::StepError;
use crate::tell::first_of;
use run_events::{Children, Reporter, Settings, Turn};
use run_state::State;
use std::alloc::Global;

/// Why a list of turns stops before its end.
#[derive(Drop)]
pub enum Stop {
    /// The turn at this place isn't enabled.
    NotEnabled { turn: u64 },
    /// The turn at this place is a third shutdown signal.
    ThirdSignal { turn: u64 },
    OutOfMemory,
}

// Takes the turn at this place, where it is enabled, and answers the error of the reporter, where it refused the turn's
// event.
fn take_at<C: Children, R: Reporter>(
    alloc: Global,
    settings: &Settings,
    state: &mut State,
    place: u64,
    turn: &Turn,
    children: &mut C,
    report: &mut R,
) -> Result<Option<R::Error>, Stop>
    requires stands { (journal : List Entry) × StandsAfter settings.now state.old place journal }
    requires room { place + 1 < 2 ^ 32 }
    ensures takes { let o = outside R.faults report.old report.new children.old children.new in
        IfOk result (λ refusal. (journal : List Entry)
        → StandsAfter settings.now state.old place journal
        → TakesUnkept R.told C.asked o settings.now state.new journal turn.now refusal) }
    ensures stops { let o = outside R.faults report.old report.new children.old children.new in
        IfErr result (λ stop. (journal : List Entry)
        → StandsAfter settings.now state.old place journal
        → StopsUnkept R.told C.asked o (sound settings.now journal) place turn.now stop) }
{
    match named_if_enabled(alloc, settings, state, turn) {
        Ok(named) => {
            match carry_unkept(alloc, settings, state, place, turn, named, children, report) {
                Ok(refusal) => Ok(refusal),
                Err(_) => Err(Stop::OutOfMemory),
            }
        }
        Err(StepError::NotEnabled) => Err(Stop::NotEnabled { turn: place }),
        Err(StepError::ThirdSignal) => Err(Stop::ThirdSignal { turn: place }),
        Err(StepError::Full) => unreachable!(),
        Err(StepError::OutOfMemory) => Err(Stop::OutOfMemory),
    }
}

/// Takes all turns, with the state of a run that has taken none, and answers the reporter's first error.
pub(crate) fn take_all<C: Children, R: Reporter>(
    alloc: Global,
    settings: &Settings,
    state: &mut State,
    turns: &[Turn],
    children: &mut C,
    report: &mut R,
) -> Result<Option<R::Error>, Stop>
    requires fresh { state.old ≡ held settings.now (board settings.now []) }
    requires units { AreFew settings.now }
    requires few { length turns.now < 2 ^ 32 }
    ensures ok { let o = outside R.faults report.old report.new children.old children.new in
        IfOk result (TookAll R.told C.asked o settings.now turns.now state.new) }
    ensures stopped { let o = outside R.faults report.old report.new children.old children.new in
        IfErr result (λ stop. (journal : List Entry)
        × StopsAt R.told C.asked o settings.now turns.now journal stop) }
{
    let mut first = None;
    for (place, turn) in turns.iter().enumerate() {
        match take_at(alloc, settings, state, place as u64, turn, children, report) {
            Ok(refusal) => first = first_of(first, refusal),
            Err(stop) => return Err(stop),
        }
    }
    Ok(first)
}
