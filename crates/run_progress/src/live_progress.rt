// A display that finds the test of an event without a search of those that run.
ghost use Rattle.std.specs.Prelude.{◌≡◌, [], ◌∷◌, ◌++◌, IfOk, OnOk, OnErr};
ghost use Rattle.run_progress.specs.Lines.{message_text, shown_after, tick_of};
ghost use Rattle.run_progress.specs.Progress.{ForTold, Hears, StandsFor};
ghost use Rattle.run_progress.specs.Seen.{hiding, is_hidden, seen_of};

use crate::lines::{Showing, message, tick};
use crate::live_tests::LiveTests;
use crate::max_running::MaxProgressRunning;
use crate::seen::Seen;
use run_capture::{Mem, Text};
use run_events::{RunMode, TestEvent};
use std::alloc::Global;
use std::marker::Model;

/// A display of a run, as a `ProgressState` is, but for the list of the running tests, which it doesn't answer. An
/// event costs no more with many tests that run than with few.
#[derive(Drop)]
pub struct LiveProgress {
    showing: Showing,
    // All but the tests.
    seen: Seen,
    tests: LiveTests,
}

impl Model for LiveProgress {
    ghost use Rattle.run_progress.specs.Progress.{Progress};

    ghost Value = { Progress };

    ghost view = { λ p. record { showing = p.showing; seen = record p.seen { tests = p.tests } } };
}

impl LiveProgress {
    /// A display that has heard no event. The number of tests to run isn't shown: events tell it.
    ///
    /// ```text
    /// let mut live = LiveProgress::new(RunMode::Test, 10, MaxProgressRunning::default());
    /// ```
    pub fn new(mode: RunMode, _run_count: u64, max: MaxProgressRunning) -> Self
        ensures showing { result.showing ≡ record { mode = mode; max = max; most_lines = 0 } }
        ensures told { StandsFor [] result }
    {
        LiveProgress {
            showing: Showing {
                mode,
                max,
                most_lines: 0,
            },
            seen: Seen::nothing(),
            tests: LiveTests::none(),
        }
    }

    /// Hears one more event.
    ///
    /// ```text
    /// live.apply(alloc, &event)?;
    /// ```
    pub fn apply(&mut self, alloc: Global, event: &TestEvent) -> Mem<()>
        ensures told { OnOk result (Hears self.old self.new event.now) }
        ensures err { OnErr result (self.new ≡ self.old) }
    {
        self.tests
            .hear(alloc, self.showing.max, self.seen.paused, event)?;
        self.seen.hear_rest(event);
        Ok(())
    }

    /// As `ProgressState::message`.
    ///
    /// ```text
    /// let text = live.message(alloc, 5_000_000_000, 80)?;
    /// ```
    pub fn message(&mut self, alloc: Global, now: u64, width: u32) -> Mem<Text>
        ensures text { IfOk result (λ text. text ≡ message_text self.old.showing self.old.seen now width) }
        ensures told { ForTold self.old (λ told. IfOk result (λ text.
            text ≡ message_text self.old.showing (seen_of self.old.showing.max told) now width)) }
        ensures ok { OnOk result (self.new ≡ record self.old
            { showing = shown_after self.old.showing self.old.seen now width }) }
        ensures err { OnErr result (self.new ≡ self.old) }
    {
        let (text, showing) = message(alloc, self.showing, &self.seen, &self.tests, now, width)?;
        self.showing = showing;
        Ok(Text::from_string(text))
    }

    /// As `ProgressState::tick_text`.
    ///
    /// ```text
    /// let text = live.tick_text(alloc, 5_000_000_000, 80)?;
    /// ```
    pub fn tick_text(&mut self, alloc: Global, now: u64, width: u32) -> Mem<Text>
        ensures text { IfOk result (λ text. text ≡ tick_of self.old.showing self.old.seen now width) }
        ensures told { ForTold self.old (λ told. IfOk result (λ text.
            text ≡ tick_of self.old.showing (seen_of self.old.showing.max told) now width)) }
        ensures ok { OnOk result (self.new ≡ record self.old
            { showing = shown_after self.old.showing self.old.seen now width }) }
        ensures err { OnErr result (self.new ≡ self.old) }
    {
        let (text, showing) = tick(alloc, self.showing, &self.seen, &self.tests, now, width)?;
        self.showing = showing;
        Ok(Text::from_string(text))
    }

    /// As `ProgressState::tick_line`.
    ///
    /// ```text
    /// let line = live.tick_line(alloc, 5_000_000_000, 80)?;
    /// ```
    pub fn tick_line(&mut self, alloc: Global, now: u64, width: u32) -> Mem<Text>
        ensures text { IfOk result (λ line. line
            ≡ tick_of self.old.showing self.old.seen now width ++ 10 ∷ []) }
        ensures ok { OnOk result (self.new ≡ record self.old
            { showing = shown_after self.old.showing self.old.seen now width }) }
        ensures err { OnErr result (self.new ≡ self.old) }
    {
        let (text, showing) = tick(alloc, self.showing, &self.seen, &self.tests, now, width)?;
        let mut line = text;
        line.push_str("\n")?;
        self.showing = showing;
        Ok(Text::from_string(line))
    }

    /// As `ProgressState::hidden`.
    ///
    /// ```text
    /// let hidden = live.hidden();
    /// ```
    pub fn hidden(&self) -> bool
        ensures seen { result ≡ is_hidden self.now.seen.hiding }
        ensures told { ForTold self.now (λ told. result ≡ is_hidden (hiding told)) }
    {
        self.seen.hiding.is_any()
    }
}
