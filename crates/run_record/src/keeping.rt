// The record of a run in the making.
ghost use Rattle.std.specs.Prelude.{◌≡◌, ◌∷◌, ◌++◌, [], ⊤, ℕ, List, Option, None};
ghost use Rattle.run_events.specs.declared.turn.Turn.{Turn as TurnValue};
ghost use Rattle.run_record.specs.Kept.{IsUnderway, writing_since};
ghost use Rattle.run_record.specs.Recorded.{IsRunRecord};

use crate::RecordOutcome;
use crate::filling::{Begun, add_to, end};
use run_capture::Sink;
use run_events::{ReporterEvent, Turn};
use run_report::Listener;
use std::alloc::Global;
use std::marker::{Brand, PhantomData};

/// Where the sink of a record stood, the plan line, and what is said of who listens beside it: for clauses alone. Code
/// that is generic in it is called at `Brand`, where the call's proof picks all four.
pub(crate) trait RecordOrigin {
    /// The bytes that the sink had taken, where it tells them.
    ghost taken_before: { Option (List ℕ) };

    /// How often it had failed.
    ghost faults_before: { ℕ };

    /// The plan line.
    ghost plan_line: { List ℕ };

    /// That who listens beside the record had heard no turn when the run began.
    ghost unheard: { Type 0 };
}

impl RecordOrigin for Brand {
    ghost taken_before = { None };

    ghost faults_before = { 0 };

    ghost plan_line = { [] };

    ghost unheard = { ⊤ };
}

// A record in the making: its store takes each turn as it is told of it, until it is given up.
pub(crate) struct Keeping<F: Sink, G: RecordOrigin> {
    begun: Begun<F>,
    given_up: Option<RecordOutcome>,
    origin: PhantomData<G>,
}

impl<F: Sink, G: RecordOrigin> Keeping<F, G> {
    /// One that was told of no turn.
    pub(crate) fn new(begun: Begun<F>) -> Self
        ensures begun { result.begun ≡ begun }
        ensures given_up { result.given_up ≡ None }
    {
        Keeping {
            begun,
            given_up: None,
            origin: PhantomData,
        }
    }

    // Takes a turn, unless it was given up.
    fn take(&mut self, alloc: Global, turn: &Turn)
        ensures { (turns : List TurnValue)
            → IsUnderway F.Sink G.taken_before G.faults_before G.plan_line self.old.begun turns self.old.given_up
            → IsUnderway F.Sink G.taken_before G.faults_before G.plan_line self.new.begun
            (turns ++ turn.now ∷ []) self.new.given_up }
    {
        self.given_up = add_to(alloc, &mut self.begun, self.given_up, turn);
    }

    /// Ends the record, with the store's end where the run is over.
    pub(crate) fn finish(self, over: bool) -> (RecordOutcome, F)
        requires underway { (turns : List TurnValue)
            × IsUnderway F.Sink G.taken_before G.faults_before G.plan_line self.begun turns self.given_up }
        ensures { (turns : List TurnValue)
            → IsUnderway F.Sink G.taken_before G.faults_before G.plan_line self.begun turns self.given_up
            → IsRunRecord over G.plan_line turns (writing_since F.Sink G.taken_before G.faults_before result.1)
            result.0 }
    {
        let Keeping {
            begun,
            given_up,
            origin: _,
        } = self;
        let writer = match begun {
            Ok(writer) => writer,
            Err(ended) => return ended,
        };
        match given_up {
            Some(outcome) => (outcome, writer.into_sink()),
            None => end(writer, over),
        }
    }
}

// Who listens to a run, with the run's record beside.
pub(crate) struct Recording<B, F: Sink, G: RecordOrigin> {
    pub(crate) report: B,
    pub(crate) keeping: Keeping<F, G>,
}

impl<B: Listener, F: Sink, G: RecordOrigin> Listener for Recording<B, F, G> {
    ghost use Rattle.run_record.specs.Kept.{IsUnderway};

    ghost heard = { λ r events. B.heard r.report events };

    // What the record has, and what the listener beside it has heard.
    ghost taken = { λ r turns. IsUnderway F.Sink G.taken_before G.faults_before G.plan_line r.keeping.begun turns
        r.keeping.given_up × (G.unheard → B.taken r.report turns) };

    fn hear(&mut self, alloc: Global, event: &ReporterEvent) {
        self.report.hear(alloc, event);
    }

    fn hear_turn(&mut self, alloc: Global, turn: &Turn) {
        self.report.hear_turn(alloc, turn);
        self.keeping.take(alloc, turn);
    }
}
