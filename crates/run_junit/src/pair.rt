// A listener with another beside it.
ghost use Rattle.std.specs.Prelude.{◌≡◌, ◌∷◌, [], is_some, IfSome, List as Items};
ghost use Rattle.run_events.specs.declared.events.ReporterEvent.{ReporterEvent as Event};
ghost use Rattle.run_events.specs.declared.turn.Turn.{Turn as TurnValue};
ghost use Rattle.run_events.specs.Tell.{Adds, Retains};

use run_events::{ReporterEvent, Turn};
use run_report::Listener;
use std::alloc::Global;

/// A listener, and another where there is one: both hear each event and each turn.
#[derive(Drop)]
pub struct Pair<A, B> {
    first: A,
    second: Option<B>,
}

impl<A: Listener, B: Listener> Pair<A, B> {
    /// Both of them.
    pub fn new(first: A, second: Option<B>) -> Self
        ensures parts { result ≡ record { first = first; second = second } }
        ensures heard { (events : Items Event) → A.heard first events → IfSome second (λ b. B.heard b events)
            → ⟦<Pair<A, B> as Listener>⟧.heard result events }
        ensures taken { (turns : Items TurnValue) → A.taken first turns → IfSome second (λ b. B.taken b turns)
            → ⟦<Pair<A, B> as Listener>⟧.taken result turns }
    {
        Pair { first, second }
    }

    /// Hands both back.
    pub fn into_parts(self) -> (A, Option<B>)
        ensures parts { result ≡ (self.first, self.second) }
        ensures first { (events : Items Event) → ⟦<Pair<A, B> as Listener>⟧.heard self events
            → A.heard result.0 events }
        ensures second { (events : Items Event) → ⟦<Pair<A, B> as Listener>⟧.heard self events
            → IfSome result.1 (λ b. B.heard b events) }
        ensures first_taken { (turns : Items TurnValue) → ⟦<Pair<A, B> as Listener>⟧.taken self turns
            → A.taken result.0 turns }
        ensures second_taken { (turns : Items TurnValue) → ⟦<Pair<A, B> as Listener>⟧.taken self turns
            → IfSome result.1 (λ b. B.taken b turns) }
    {
        (self.first, self.second)
    }
}

impl<A: Listener, B: Listener> Listener for Pair<A, B> {
    ghost use Rattle.run_junit.specs.Pair.{BothHeard};

    ghost heard = { λ p events. BothHeard A.heard B.heard p.first p.second events };

    ghost taken = { λ p turns. BothHeard A.taken B.taken p.first p.second turns };

    fn hear(&mut self, alloc: Global, event: &ReporterEvent)
        ensures heard { Adds ⟦<Pair<A, B> as Listener>⟧.heard self.old self.new (event.now ∷ []) }
        ensures turns { Retains ⟦<Pair<A, B> as Listener>⟧.taken self.old self.new }
        ensures second { is_some self.new.second ≡ is_some self.old.second }
    {
        self.first.hear(alloc, event);
        if let Some(second) = &mut self.second {
            second.hear(alloc, event);
        }
    }

    fn hear_turn(&mut self, alloc: Global, turn: &Turn)
        ensures heard { Retains ⟦<Pair<A, B> as Listener>⟧.heard self.old self.new }
        ensures turns { Adds ⟦<Pair<A, B> as Listener>⟧.taken self.old self.new (turn.now ∷ []) }
        ensures second { is_some self.new.second ≡ is_some self.old.second }
    {
        self.first.hear_turn(alloc, turn);
        if let Some(second) = &mut self.second {
            second.hear_turn(alloc, turn);
        }
    }
}
