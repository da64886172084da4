// What an enabled turn does to the parts of a run.
ghost use Rattle.std.specs.Prelude.{◌≤◌, ◌≡◌, ◌<◌, ◌+◌, ◌^◌, ◌∷◌, ◌++◌, [], length, map, zip, not, is_none};
ghost use Rattle.std.specs.Prelude.{option_to_list};
ghost use Rattle.std.specs.Prelude.{vec_len, vec_capacity, IfOk, IfErr, OnOk, OnErr, IsErrOf, IsTrue, Option, Some};
ghost use Rattle.std.specs.Prelude.{option_map, List};
ghost use Rattle.std.specs.Prelude.{ℕ, ◌||◌, nat_le, is_some, None, true, false, IsSome, IsNone, slice_get};
ghost use Rattle.std.specs.Prelude.{if◌then◌else◌};
ghost use Rattle.std.specs.VecDeque.{deque_len, deque_capacity};
ghost use Rattle.std.specs.List.{list_all};
ghost use Rattle.run_events.specs.Tell.{Adds, Retains};
ghost use Rattle.run_laws.specs.Ready.{CanAdvance, IsTimelyBoard};
ghost use Rattle.run_model.specs.Journal.{past_of, IsLegal, outcome};
ghost use Rattle.run_model.specs.declared.entry.Entry.{Entry};
ghost use Rattle.run_model.specs.Admission.{AreFew, units_in};
ghost use Rattle.run_model.specs.Turns.{enabled, enabled_on, turn_of_unit, deed_on};
ghost use Rattle.run_model.specs.Words.{is_over};
ghost use Rattle.run_model.specs.Board.{Board, board, step, answered, deed_events};
ghost use Rattle.run_engine.specs.Broken.{TellsPart, BreaksOff};
ghost use Rattle.run_engine.specs.Starts.{start_among, starts_of};
ghost use Rattle.run_engine.specs.Heard.{IsHeard};
ghost use Rattle.run_engine.specs.Settling.{first_settled, Settles, IsUnsettled};
ghost use Rattle.run_state.specs.Settle.{settled_turn};
ghost use Rattle.run_events.specs.declared.turn.Turn.{Turn};
ghost use Rattle.run_engine.specs.World.{TakesTurn, TellsEvents, CountsErrors, IsUntouched, Breaks, outside};
ghost use Rattle.run_engine.specs.World.{history_of};
ghost use Rattle.run_state.specs.Held.{KeepsSeats, held};
ghost use Rattle.run_engine.specs.Standing.{IsRunnable, unbroken, sound};
ghost use Rattle.run_engine.specs.Refused.{IsRefused, IsNotNamed, IfNotMemory};
ghost use Rattle.run_engine.specs.Forgotten.{IsForgotten};
ghost use Rattle.run_engine.specs.Unkept.{StandsAfter, TakesUnkept};

use crate::errors::StepError;
use crate::tell::{Told, ask, keep_start, tell};
use run_capture::{Mem, OutOfMemory};
use run_events::{Children, Reporter, Settings, StartAsk, Turn};
use run_model::{Entry, UnitTurn};
use run_state::{Effects, Settled, State, advance, is_enabled, turn_of_unit};
use std::alloc::Global;
use std::collections::VecDeque;

// Asks what a turn asks, and tells its events.
fn say<C: Children, R: Reporter>(
    alloc: Global,
    place: u64,
    effects: &Effects,
    children: &mut C,
    report: &mut R,
) -> Mem<Told<R::Error>>
    ensures part { let o = outside R.faults report.old report.new children.old children.new in
        OnErr result (TellsPart R.told C.asked o place effects.now.events effects.now.asked) }
    ensures asked { OnOk result (Adds C.asked children.old children.new
        (map (λ ask. (place, ask)) (option_to_list effects.now.asked))) }
    ensures answered { IfOk result (λ t. length t.refused ≡ length effects.now.events) }
    ensures marked { IfOk result (λ t. is_none t.refusal ≡ list_all not t.refused) }
    ensures told { IfOk result (λ t. TellsEvents R.told report.old report.new
        (zip effects.now.events t.refused)
        t.refusal) }
    ensures faults { IfOk result (λ t. CountsErrors (R.faults report.old) (R.faults report.new)
        t.refusal) }
    ensures turns { Retains R.taken report.old report.new }
{
    ask(alloc, children, place, &effects.asked)?;
    let told = tell(alloc, report, effects.events.as_slice())?;
    Ok(told)
}

// Keeps a turn that was taken, and the start that it asked, for who claims it.
fn keep(journal: &mut Vec<Entry>, starts: &mut VecDeque<StartAsk>, entry: Entry, effects: Effects)
    requires room { vec_len journal.old < vec_capacity journal.old }
    requires start_room { deque_len starts.old < deque_capacity starts.old }
    ensures grown { journal.new.items ≡ journal.old.items ++ entry ∷ [] }
    ensures waits { starts.new.items ≡ starts.old.items ++ start_among effects.asked }
{
    let Effects { events, asked } = effects;
    drop(events);
    keep_start(starts, asked);
    journal.push_reserved(entry);
}

// Makes room for one more turn and one more start, and answers the turn's place.
fn make_room(journal: &mut Vec<Entry>, starts: &mut VecDeque<StartAsk>) -> Mem<u64>
    requires { length journal.old.items < 2 ^ 32 }
    ensures place { IfOk result (λ place. place ≡ length journal.old.items) }
    ensures same { journal.new.items ≡ journal.old.items }
    ensures room { OnOk result (vec_len journal.new < vec_capacity journal.new) }
    ensures kept { starts.new.items ≡ starts.old.items }
    ensures start_room { OnOk result (deque_len starts.new < deque_capacity starts.new) }
{
    let place = journal.len() as u64;
    journal.reserve(1)?;
    starts.reserve(1)?;
    Ok(place)
}

// Does what an enabled turn at this place does to the state, the children and the reporter, whose answers the state
// hears. The answer has these, and what the turn tells and asks.
fn act<C: Children, R: Reporter>(
    alloc: Global,
    settings: &Settings,
    state: &mut State,
    place: u64,
    turn: &Turn,
    named: Option<(u32, UnitTurn)>,
    children: &mut C,
    report: &mut R,
) -> Mem<(Told<R::Error>, Effects)>
    requires named { named ≡ turn_of_unit turn.now }
    requires can { CanAdvance settings.now state.old.board turn.now (turn_of_unit turn.now) }
    requires seated { KeepsSeats settings.now state.old }
    requires few { AreFew settings.now }
    ensures after { IfOk result (λ t. state.new.board
        ≡ answered (step state.old.board turn.now (deed_on settings.now state.old.board turn.now))
        t.0.refused) }
    ensures seated { OnOk result (KeepsSeats settings.now state.new) }
    ensures asked { OnOk result (Adds C.asked children.old children.new
        (map (λ ask. (place, ask))
        (option_to_list (deed_on settings.now state.old.board turn.now).asked))) }
    ensures answered { IfOk result (λ t. length t.0.refused
        ≡ length (deed_events (deed_on settings.now state.old.board turn.now))) }
    ensures marked { IfOk result (λ t. is_none t.0.refusal ≡ list_all not t.0.refused) }
    ensures told { IfOk result (λ t. TellsEvents R.told report.old report.new
        (zip (deed_events (deed_on settings.now state.old.board turn.now)) t.0.refused)
        t.0.refusal) }
    ensures faults { IfOk result (λ t. CountsErrors (R.faults report.old) (R.faults report.new)
        t.0.refusal) }
    ensures ask { IfOk result (λ t. t.1.asked
        ≡ (deed_on settings.now state.old.board turn.now).asked) }
    ensures part { let o = outside R.faults report.old report.new children.old children.new in
        OnErr result (TellsPart R.told C.asked o place (deed_events
        (deed_on settings.now state.old.board turn.now))
        (deed_on settings.now state.old.board turn.now).asked) }
    ensures turns { Retains R.taken report.old report.new }
{
    let effects = advance(alloc, settings, state, turn, named)?;
    match say(alloc, place, &effects, children, report) {
        Ok(told) => {
            state.hear_answers(told.refused.kept());
            Ok((told, effects))
        }
        Err(error) => {
            drop(effects);
            Err(error)
        }
    }
}

/// Takes an enabled turn: the state moves, what it asks and tells goes out, and the journal grows. The answer is the
/// error of the reporter, where it refused the turn's event.
pub(crate) fn carry_out<C: Children, R: Reporter>(
    alloc: Global,
    settings: &Settings,
    state: &mut State,
    journal: &mut Vec<Entry>,
    starts: &mut VecDeque<StartAsk>,
    turn: Turn,
    named: Option<(u32, UnitTurn)>,
    children: &mut C,
    report: &mut R,
) -> Mem<Option<R::Error>>
    requires named { named ≡ turn_of_unit turn }
    requires runnable { IsRunnable settings.now journal.old.items }
    requires stands { state.old ≡ held settings.now
        (board settings.now (past_of settings.now journal.old.items)) }
    requires enabled { enabled settings.now (past_of settings.now journal.old.items) turn ≡ true }
    requires room { length journal.old.items + 1 < 2 ^ 32 }
    ensures takes { let o = outside R.faults report.old report.new children.old children.new in
        IfOk result (λ refusal. (claimed : ℕ)
        → TakesTurn R.told C.asked o turn (unbroken settings.now journal.old.items claimed)
        (unbroken settings.now journal.new.items claimed) refusal) }
    ensures runnable { OnOk result (IsRunnable settings.now journal.new.items) }
    ensures stands { OnOk result (state.new
        ≡ held settings.now (board settings.now (past_of settings.now journal.new.items))) }
    ensures waits { OnOk result (starts.new.items
        ≡ starts.old.items ++ start_among (deed_on settings.now state.old.board turn).asked) }
    ensures err { OnErr result (journal.new.items ≡ journal.old.items) }
    ensures kept { OnErr result (starts.new.items ≡ starts.old.items) }
    ensures part { let o = outside R.faults report.old report.new children.old children.new in
        OnErr result (BreaksOff R.told C.asked o settings.now journal.old.items turn) }
    ensures turns { Retains R.taken report.old report.new }
{
    let Ok(place) = make_room(journal, starts) else {
        drop((turn, named));
        return Err(OutOfMemory);
    };
    match act(
        alloc, settings, state, place, &turn, named, children, report,
    ) {
        Ok((told, effects)) => {
            let Told { refused, refusal } = told;
            let answers = refused.to_list(alloc);
            drop(refused);
            match answers {
                Ok(refused) => {
                    keep(journal, starts, Entry { turn, refused }, effects);
                    Ok(refusal)
                }
                Err(error) => {
                    drop((turn, effects, refusal));
                    Err(error)
                }
            }
        }
        Err(error) => {
            drop(turn);
            Err(error)
        }
    }
}

// The unit that a turn names.
fn unit_of(named: &Option<(u32, UnitTurn)>) -> Option<u32> {
    match named {
        Some((unit, _)) => Some(*unit),
        None => None,
    }
}

// A unit is forgotten, where it may be.
fn forget(settings: &Settings, state: &mut State, unit: Option<u32>)
    ensures board { (b : Board) → IsForgotten settings.now b state.old.board
        → IsForgotten settings.now b state.new.board }
    ensures seated { KeepsSeats settings.now state.old → KeepsSeats settings.now state.new }
{
    if let Some(unit) = unit {
        state.forget(settings, unit);
    }
}

/// Takes an enabled turn as `carry_out` does, and keeps neither it nor what it asks, nor what a test was that is over.
/// It is taken so after each journal that the state stands for.
pub(crate) fn carry_unkept<C: Children, R: Reporter>(
    alloc: Global,
    settings: &Settings,
    state: &mut State,
    place: u64,
    turn: &Turn,
    named: Option<(u32, UnitTurn)>,
    children: &mut C,
    report: &mut R,
) -> Mem<Option<R::Error>>
    requires named { named ≡ turn_of_unit turn.now }
    requires stands { (journal : List Entry) × StandsAfter settings.now state.old place journal }
    requires enabled { enabled_on settings.now state.old.board turn.now ≡ true }
    requires room { place + 1 < 2 ^ 32 }
    ensures takes { let o = outside R.faults report.old report.new children.old children.new in
        IfOk result (λ refusal. (journal : List Entry)
        → StandsAfter settings.now state.old place journal
        → TakesUnkept R.told C.asked o settings.now state.new journal turn.now refusal) }
    ensures part { let o = outside R.faults report.old report.new children.old children.new in
        OnErr result ((journal : List Entry) → StandsAfter settings.now state.old place journal
        → BreaksOff R.told C.asked o settings.now journal turn.now) }
{
    let unit = unit_of(&named);
    let (told, effects) = act(alloc, settings, state, place, turn, named, children, report)?;
    drop(effects);
    forget(settings, state, unit);
    let Told { refused, refusal } = told;
    drop(refused);
    Ok(refusal)
}

/// The unit that a turn names, with what the turn is to it, where the turn is enabled.
pub(crate) fn named_if_enabled(
    alloc: Global,
    settings: &Settings,
    state: &State,
    turn: &Turn,
) -> Result<Option<(u32, UnitTurn)>, StepError>
    requires whole { length state.now.board.units ≡ units_in settings.now }
    requires seated { KeepsSeats settings.now state.now }
    requires timely { IsTimelyBoard state.now.board }
    ensures named { IfOk result (λ named. named ≡ turn_of_unit turn.now) }
    ensures enabled { OnOk result (enabled_on settings.now state.now.board turn.now ≡ true) }
    ensures refused { IfErr result (IsNotNamed settings.now state.now.board turn.now) }
{
    if !is_enabled(settings, state, turn) {
        return Err(if state.is_third_signal(turn) {
            StepError::ThirdSignal
        } else {
            StepError::NotEnabled
        });
    }
    match turn_of_unit(alloc, turn) {
        Ok(named) => Ok(named),
        Err(_) => Err(StepError::OutOfMemory),
    }
}

/// The unit that a turn names that the run takes by itself, with what the turn is to it.
pub(crate) fn named_of(settled: Settled) -> Option<(u32, UnitTurn)>
    ensures { result ≡ turn_of_unit (settled_turn settled) }
{
    match settled {
        Settled::Take { unit } => Some((unit, UnitTurn::Take)),
        Settled::Decide { unit, word } => Some((unit, UnitTurn::Decide { word })),
        Settled::UnitDue { unit } => Some((unit, UnitTurn::Due)),
        _ => None,
    }
}
