// A generated run on its way, turn by turn.
ghost use Rattle.std.specs.Prelude.{◌≡◌, ◌+◌, ◌<◌, ◌^◌, [], List, IfOk, IfSome, IsErrOf, IsNone, None};
ghost use Rattle.run_model.specs.declared.entry.Entry.{Entry};
ghost use Rattle.run_engine.specs.Lean.{StandsForJournal};
ghost use Rattle.run_generate.specs.Generated.{IsSummary, StopsShort};
ghost use Rattle.run_generate.specs.OnWay.{Advances, HasNoOutcome, IsOnWay, board_of, next_on};
ghost use Rattle.run_generate.specs.Turns.{exit_turn, first_with, last_as, made_turn, start_turn};
ghost use Rattle.run_generate.specs.Turns.{stream_turn, time_turn};
ghost use Rattle.run_generate.specs.declared.on_way.OnWay.{OnWay};

use crate::child::{Child, Last, exit_at};
use crate::generated::{GenerateError, Generated};
use crate::hearers::{Counter, Deaf};
use run_capture::Stream;
use run_engine::LeanRun;
use run_events::Turn;
use std::alloc::Global;

/// A generated run on its way.
#[derive(Drop)]
pub(crate) struct OnWay {
    run: LeanRun,
    counter: Counter,
    deaf: Deaf,
    /// What the last turn was.
    last: Last,
}

impl OnWay {
    /// A run that has taken no turn.
    pub(crate) fn new(run: LeanRun) -> OnWay
        requires { StandsForJournal run [] }
        ensures way { IsOnWay result }
        ensures same { result.run ≡ run }
    {
        OnWay {
            run,
            counter: Counter { events: 0 },
            deaf: Deaf,
            last: Last::Other,
        }
    }

    // The least unit whose child stands so.
    fn first_with(&self, child: Child) -> Option<u32>
        ensures { result ≡ first_with child (board_of self.now) }
    {
        self.run.first_in(child.phase())
    }

    fn start_turn(&self) -> Option<Turn>
        requires { IsOnWay self.now }
        ensures { result ≡ start_turn (board_of self.now) }
    {
        let unit = self.first_with(Child::Asked)?;
        let pid = unit + 1;
        Some(Turn::Started { unit, pid })
    }

    fn time_turn(&self) -> Option<Turn>
        ensures { result ≡ time_turn (board_of self.now) }
    {
        let _unit = self.first_with(Child::Runs)?;
        Some(Turn::Clock { ns: 1_000_000 })
    }

    fn stream_turn(&self) -> Option<Turn>
        ensures { result ≡ stream_turn (board_of self.now) }
    {
        let unit = self.first_with(Child::Runs)?;
        let stream = Stream::Combined;
        Some(Turn::StreamEnd { unit, stream })
    }

    fn exit_turn(&self) -> Option<Turn>
        ensures { result ≡ exit_turn (board_of self.now) }
    {
        let unit = self.first_with(Child::Runs)?;
        let attempt = self.run.attempt(unit)?;
        let exit = exit_at(unit, attempt);
        Some(Turn::Exit { unit, exit })
    }

    fn made_turn(&self) -> Option<Turn>
        requires { IsOnWay self.now }
        ensures { result ≡ made_turn (board_of self.now) }
    {
        match self.start_turn() {
            Some(turn) => Some(turn),
            None => self.time_turn(),
        }
    }

    // Takes the next turn.
    fn take(&mut self, alloc: Global, turn: Option<Turn>) -> Result<bool, GenerateError>
        requires way { IsOnWay self.old }
        requires next { next_on self.old ≡ turn }
        requires goes_on { HasNoOutcome self.old }
        ensures advances { IfOk result (Advances self.old self.new) }
        ensures short { IsErrOf result GenerateError.Unfinished → StopsShort self.old.run.settings }
    {
        let Some(turn) = turn else {
            return Ok(false);
        };
        match self
            .run
            .step(alloc, &turn, &mut self.deaf, &mut self.counter)
        {
            Ok(_) => {
                self.last = Last::of(&turn);
                drop(turn);
                Ok(true)
            }
            Err(error) => {
                drop(turn);
                Err(GenerateError::of_step(error))
            }
        }
    }

    // Takes the next turn, where that is none of a child that runs but its first.
    fn go_on(&mut self, alloc: Global) -> Result<bool, GenerateError>
        requires way { IsOnWay self.old }
        requires last { self.old.last ≡ Last.Other }
        requires goes_on { HasNoOutcome self.old }
        ensures advances { IfOk result (Advances self.old self.new) }
        ensures short { IsErrOf result GenerateError.Unfinished → StopsShort self.old.run.settings }
    {
        match self.run.settle(alloc, 0, &mut self.deaf, &mut self.counter) {
            Ok(Some(turn)) => {
                self.last = Last::of(&turn);
                drop(turn);
                Ok(true)
            }
            Ok(None) => {
                let turn = self.made_turn();
                self.take(alloc, turn)
            }
            Err(error) => Err(GenerateError::of_step(error)),
        }
    }

    /// Takes the next turn. Answers whether there was one.
    pub(crate) fn advance(&mut self, alloc: Global) -> Result<bool, GenerateError>
        requires way { IsOnWay self.old }
        requires goes_on { HasNoOutcome self.old }
        ensures advances { IfOk result (Advances self.old self.new) }
        ensures short { IsErrOf result GenerateError.Unfinished → StopsShort self.old.run.settings }
    {
        match self.last {
            Last::Time => {
                let turn = self.stream_turn();
                self.take(alloc, turn)
            }
            Last::Stream => {
                let turn = self.exit_turn();
                self.take(alloc, turn)
            }
            Last::Other => self.go_on(alloc),
        }
    }

    /// What is told of the run where it is over.
    pub(crate) fn summary(&self) -> Option<Generated>
        requires { IsOnWay self.now }
        ensures some { IfSome result (IsSummary self.now.run.settings) }
        ensures none { IsNone result → HasNoOutcome self.now }
    {
        let outcome = self.run.outcome()?;
        Some(Generated {
            events: self.counter.events,
            outcome,
            stats: self.run.stats(),
            turns: self.run.turns(),
        })
    }
}
