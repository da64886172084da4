// Which turn a run takes by itself.
ghost use Rattle.std.specs.Prelude.{◌≡◌, ◌<◌, ◌^◌, ◌++◌, length, false, option_map};
ghost use Rattle.run_model.specs.Admission.{units_in};
ghost use Rattle.run_model.specs.Turns.{enabled_on};
ghost use Rattle.run_laws.specs.Ready.{IsTimelyBoard};
ghost use Rattle.run_state.specs.Held.{KeepsSeats};
ghost use Rattle.run_state.specs.Settle.{settled_turn, of_each, first_turns, last_turns, settling, first_enabled};
ghost use Rattle.run_state.specs.Settle.{AreFirsts, IsFirstOf, first_of};
ghost use Rattle.run_events.specs.declared.turn.Turn.TheVariants as turns;
ghost use Rattle.run_model.specs.declared.unit_turn.UnitTurn.TheVariants as own;

use crate::enabled::{is_enabled, is_on};
use crate::state::State;
use run_events::{Settings, Turn};

/// A turn that a run takes by itself.
#[derive(Clone, Copy)]
pub enum Settled {
    Begin,
    ReportCancel,
    Deliver,
    Take { unit: u32 },
    Decide { unit: u32, word: u32 },
    UnitDue { unit: u32 },
    GlobalDue,
    Admit,
    End,
}

impl Settled {
    /// The turn.
    pub fn turn(self) -> Turn
        ensures { result ≡ settled_turn self }
    {
        match self {
            Settled::Begin => Turn::Begin,
            Settled::ReportCancel => Turn::ReportCancel,
            Settled::Deliver => Turn::Deliver,
            Settled::Take { unit } => Turn::Take { unit },
            Settled::Decide { unit, word } => Turn::Decide { unit, word },
            Settled::UnitDue { unit } => Turn::UnitDue { unit },
            Settled::GlobalDue => Turn::GlobalDue,
            Settled::Admit => Turn::Admit,
            Settled::End => Turn::End,
        }
    }
}

// The first units that take each of the turns that come by themselves. Where there is one that takes a request, the
// others say nothing of the units after it.
#[derive(Clone, Copy)]
struct Firsts {
    take: Option<u32>,
    decide: Option<u32>,
    due: Option<u32>,
}

// The first unit of some, after one more, which is of them or not.
fn first_of(first: Option<u32>, unit: u32, is: bool) -> Option<u32>
    ensures { result ≡ first_of first unit is }
{
    match first {
        Some(first) => Some(first),
        None if is => Some(unit),
        None => None,
    }
}

// The first units that take a request, decide, and have a timer that is due.
fn first_units(state: &State, word: u32) -> Firsts
    requires timely { IsTimelyBoard state.now.board }
    requires few { length state.now.board.units < 2 ^ 32 }
    ensures { AreFirsts state.now.board word result }
{
    let mut decide = None;
    let mut due = None;
    for place in 0..state.units.working_count() {
        let unit = state.units.working_at(place);
        let wants = state.units.wants(unit, state.clock);
        if wants.take {
            return Firsts {
                take: Some(unit),
                decide,
                due,
            };
        }
        decide = first_of(decide, unit, wants.decide);
        due = first_of(due, unit, wants.due);
    }
    Firsts {
        take: None,
        decide,
        due,
    }
}

// Whether a sub-run, the report that the run is cancelled, a delivery, or the end of a sub-run comes by itself. Most
// often one flag says no.
fn begins(settings: &Settings, state: &State) -> bool
    requires whole { length state.now.board.units ≡ units_in settings.now }
    requires seated { KeepsSeats settings.now state.now }
    requires timely { IsTimelyBoard state.now.board }
    ensures { result ≡ enabled_on settings.now state.now.board turns.Begin }
{
    !is_on(state) && is_enabled(settings, state, &Turn::Begin)
}

fn reports_cancel(settings: &Settings, state: &State) -> bool
    requires whole { length state.now.board.units ≡ units_in settings.now }
    requires seated { KeepsSeats settings.now state.now }
    requires timely { IsTimelyBoard state.now.board }
    ensures { result ≡ enabled_on settings.now state.now.board turns.ReportCancel }
{
    state.refused && is_enabled(settings, state, &Turn::ReportCancel)
}

fn delivers(settings: &Settings, state: &State) -> bool
    requires whole { length state.now.board.units ≡ units_in settings.now }
    requires seated { KeepsSeats settings.now state.now }
    requires timely { IsTimelyBoard state.now.board }
    ensures { result ≡ enabled_on settings.now state.now.board turns.Deliver }
{
    !state.queue.is_empty() && is_enabled(settings, state, &Turn::Deliver)
}

fn ends(settings: &Settings, state: &State) -> bool
    requires whole { length state.now.board.units ≡ units_in settings.now }
    requires seated { KeepsSeats settings.now state.now }
    requires timely { IsTimelyBoard state.now.board }
    ensures { result ≡ enabled_on settings.now state.now.board turns.End }
{
    state.units.are_over() && is_enabled(settings, state, &Turn::End)
}

// The first of the turns that come before those of units.
fn first_settled(settings: &Settings, state: &State) -> Option<Settled>
    requires whole { length state.now.board.units ≡ units_in settings.now }
    requires seated { KeepsSeats settings.now state.now }
    requires timely { IsTimelyBoard state.now.board }
    ensures { option_map settled_turn result ≡ first_enabled settings.now state.now.board
        first_turns }
{
    if begins(settings, state) {
        return Some(Settled::Begin);
    }
    if reports_cancel(settings, state) {
        return Some(Settled::ReportCancel);
    }
    if delivers(settings, state) {
        return Some(Settled::Deliver);
    }
    None
}

// The first of the turns that come after those of units.
fn last_settled(settings: &Settings, state: &State) -> Option<Settled>
    requires whole { length state.now.board.units ≡ units_in settings.now }
    requires seated { KeepsSeats settings.now state.now }
    requires timely { IsTimelyBoard state.now.board }
    ensures { option_map settled_turn result ≡ first_enabled settings.now state.now.board
        last_turns }
{
    if is_enabled(settings, state, &Turn::GlobalDue) {
        return Some(Settled::GlobalDue);
    }
    if is_enabled(settings, state, &Turn::Admit) {
        return Some(Settled::Admit);
    }
    if ends(settings, state) {
        return Some(Settled::End);
    }
    None
}

// The first unit whose timer is due, or a later turn.
#[tactic(auto, using(crate::proofs::SettleLemmas::unit_first, crate::proofs::SettleLemmas::unit_none))]
fn due_or_later(settings: &Settings, state: &State, due: Option<u32>) -> Option<Settled>
    requires whole { length state.now.board.units ≡ units_in settings.now }
    requires first { IsFirstOf state.now.board own.Due due }
    requires seated { KeepsSeats settings.now state.now }
    requires timely { IsTimelyBoard state.now.board }
    requires going { state.now.board.dispatcher.over ≡ false }
    ensures { option_map settled_turn result
        ≡ first_enabled settings.now state.now.board
        (of_each settings.now turns.UnitDue ++ last_turns) }
{
    match due {
        Some(unit) => Some(Settled::UnitDue { unit }),
        None => last_settled(settings, state),
    }
}

// The first unit that decides, or a later turn.
#[tactic(auto, using(crate::proofs::SettleLemmas::unit_first, crate::proofs::SettleLemmas::unit_none))]
fn decide_or_later(
    settings: &Settings,
    state: &State,
    word: u32,
    decide: Option<u32>,
    due: Option<u32>,
) -> Option<Settled>
    requires whole { length state.now.board.units ≡ units_in settings.now }
    requires decide { IsFirstOf state.now.board (own.Decide word) decide }
    requires due { IsFirstOf state.now.board own.Due due }
    requires seated { KeepsSeats settings.now state.now }
    requires timely { IsTimelyBoard state.now.board }
    requires going { state.now.board.dispatcher.over ≡ false }
    ensures { option_map settled_turn result
        ≡ first_enabled settings.now state.now.board
        (of_each settings.now (λ unit. turns.Decide unit word)
        ++ (of_each settings.now turns.UnitDue ++ last_turns)) }
{
    match decide {
        Some(unit) => Some(Settled::Decide { unit, word }),
        None => due_or_later(settings, state, due),
    }
}

// The first unit that takes a request, or a later turn.
#[tactic(auto, using(crate::proofs::SettleLemmas::unit_first, crate::proofs::SettleLemmas::unit_none))]
fn take_or_later(settings: &Settings, state: &State, word: u32) -> Option<Settled>
    requires whole { length state.now.board.units ≡ units_in settings.now }
    requires few { units_in settings.now < 2 ^ 32 }
    requires seated { KeepsSeats settings.now state.now }
    requires timely { IsTimelyBoard state.now.board }
    requires going { state.now.board.dispatcher.over ≡ false }
    ensures { option_map settled_turn result
        ≡ first_enabled settings.now state.now.board (of_each settings.now turns.Take
        ++ (of_each settings.now (λ unit. turns.Decide unit word)
        ++ (of_each settings.now turns.UnitDue ++ last_turns))) }
{
    let firsts = first_units(state, word);
    match firsts.take {
        Some(unit) => Some(Settled::Take { unit }),
        None => decide_or_later(settings, state, word, firsts.decide, firsts.due),
    }
}

/// The first turn that is enabled of those that a run takes by itself. No turn was taken later than the clock is.
pub fn next_settled(settings: &Settings, state: &State, word: u32) -> Option<Settled>
    requires whole { length state.now.board.units ≡ units_in settings.now }
    requires few { units_in settings.now < 2 ^ 32 }
    requires seated { KeepsSeats settings.now state.now }
    requires timely { IsTimelyBoard state.now.board }
    ensures { option_map settled_turn result ≡ first_enabled settings.now state.now.board
        (settling settings.now word) }
{
    if state.is_over() {
        return None;
    }
    match first_settled(settings, state) {
        Some(settled) => Some(settled),
        None => take_or_later(settings, state, word),
    }
}
