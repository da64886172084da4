// What a display has seen of a run, and the texts that it shows.
ghost use Rattle.std.specs.Prelude.{◌≡◌, [], ◌∷◌, ◌++◌, IfOk, OnOk, OnErr, IsNone, ◌↔◌};
ghost use Rattle.std.specs.Option.{option_copied};
ghost use Rattle.run_progress.specs.Lines.{message_text, shown_after, tick_of};
ghost use Rattle.run_progress.specs.Progress.{ForTold, Hears, StandsFor, tests_shown, tests_told};
ghost use Rattle.run_progress.specs.Seen.{hiding, is_hidden, seen_of};
ghost use Rattle.run_progress.specs.declared.max_running.MaxProgressRunning.TheVariants as max_running;

use crate::lines::{Showing, message_of, tick_of};
use crate::max_running::MaxProgressRunning;
use crate::running_test::RunningTest;
use crate::seen::Seen;
use run_capture::{Mem, Text};
use run_events::{RunMode, TestEvent};
use std::alloc::Global;
use std::marker::Model;

/// A display of a run: it hears the run's events, and shows the tests that run.
#[derive(Drop)]
pub struct ProgressState {
    showing: Showing,
    seen: Seen,
}

impl Model for ProgressState {
    ghost use Rattle.run_progress.specs.Progress.{Progress};

    ghost Value = { Progress };

    ghost view = { λ p. record { showing = p.showing; seen = p.seen } };
}

impl ProgressState {
    /// A display that has heard no event. The number of tests to run isn't shown: events tell it.
    ///
    /// ```text
    /// let mut state = ProgressState::new(RunMode::Test, 10, MaxProgressRunning::default());
    /// ```
    pub fn new(mode: RunMode, _run_count: u64, max: MaxProgressRunning) -> Self
        ensures showing { result.showing ≡ record { mode = mode; max = max; most_lines = 0 } }
        ensures told { StandsFor [] result }
    {
        ProgressState {
            showing: Showing {
                mode,
                max,
                most_lines: 0,
            },
            seen: Seen::nothing(),
        }
    }

    /// Hears one more event.
    ///
    /// ```text
    /// state.apply(alloc, &event)?;
    /// ```
    pub fn apply(&mut self, alloc: Global, event: &TestEvent) -> Mem<()>
        ensures told { OnOk result (Hears self.old self.new event.now) }
        ensures err { OnErr result (self.new ≡ self.old) }
    {
        self.seen.hear(alloc, self.showing.max, event)?;
        Ok(())
    }

    /// The counts, and the lines of the running tests, at a moment and on a terminal of this width. It has as many
    /// lines as any message before it.
    ///
    /// ```text
    /// // 1 running, 0 passed, 0 skipped
    /// //              [ 00:00:05] b t
    /// let text = state.message(alloc, 5_000_000_000, 80)?;
    /// ```
    pub fn message(&mut self, alloc: Global, now: u64, width: u32) -> Mem<Text>
        ensures text { IfOk result (λ text. text ≡ message_text self.old.showing self.old.seen now width) }
        ensures told { ForTold self.old (λ told. IfOk result (λ text.
            text ≡ message_text self.old.showing (seen_of self.old.showing.max told) now width)) }
        ensures ok { OnOk result (self.new ≡ record self.old
            { showing = shown_after self.old.showing self.old.seen now width }) }
        ensures err { OnErr result (self.new ≡ self.old) }
    {
        let (text, showing) = message_of(alloc, self.showing, &self.seen, now, width)?;
        self.showing = showing;
        Ok(Text::from_string(text))
    }

    /// What the run does, for how long, how many of its tests have finished, and the message.
    ///
    /// ```text
    /// //      Running [ 00:00:05] 0/1: 1 running, 0 passed, 0 skipped
    /// //              [ 00:00:05] b t
    /// let text = state.tick_text(alloc, 5_000_000_000, 80)?;
    /// ```
    pub fn tick_text(&mut self, alloc: Global, now: u64, width: u32) -> Mem<Text>
        ensures text { IfOk result (λ text. text ≡ tick_of self.old.showing self.old.seen now width) }
        ensures told { ForTold self.old (λ told. IfOk result (λ text.
            text ≡ tick_of self.old.showing (seen_of self.old.showing.max told) now width)) }
        ensures ok { OnOk result (self.new ≡ record self.old
            { showing = shown_after self.old.showing self.old.seen now width }) }
        ensures err { OnErr result (self.new ≡ self.old) }
    {
        let (text, showing) = tick_of(alloc, self.showing, &self.seen, now, width)?;
        self.showing = showing;
        Ok(Text::from_string(text))
    }

    /// The text of a tick, and the line feed that ends it.
    ///
    /// ```text
    /// let line = state.tick_line(alloc, 5_000_000_000, 80)?;
    /// ```
    pub fn tick_line(&mut self, alloc: Global, now: u64, width: u32) -> Mem<Text>
        ensures text { IfOk result (λ line. line
            ≡ tick_of self.old.showing self.old.seen now width ++ 10 ∷ []) }
        ensures ok { OnOk result (self.new ≡ record self.old
            { showing = shown_after self.old.showing self.old.seen now width }) }
        ensures err { OnErr result (self.new ≡ self.old) }
    {
        let (text, showing) = tick_of(alloc, self.showing, &self.seen, now, width)?;
        let mut line = text;
        line.push_str("\n")?;
        self.showing = showing;
        Ok(Text::from_string(line))
    }

    /// Whether nothing is to be shown now: while a setup script that isn't captured runs, while the run is paused, and
    /// in an information round.
    ///
    /// ```text
    /// if !state.hidden() {
    ///     println!(rt; "{}", state.tick_text(alloc, now, width)?.as_str())?;
    /// }
    /// ```
    pub fn hidden(&self) -> bool
        ensures seen { result ≡ is_hidden self.now.seen.hiding }
        ensures told { ForTold self.now (λ told. result ≡ is_hidden (hiding told)) }
    {
        self.seen.hiding.is_any()
    }

    /// The running tests, in the order in which they started last, where they are shown at all.
    ///
    /// ```text
    /// let count = state.running().map_or(0, |tests| tests.len());
    /// ```
    pub fn running(&self) -> Option<&[RunningTest]>
        ensures none { IsNone result ↔ (self.now.showing.max ≡ max_running.Count 0) }
        ensures seen { option_copied result ≡ tests_shown self.now }
        ensures told { ForTold self.now (λ told. option_copied result ≡ tests_told self.now.showing.max told) }
    {
        if self.showing.max.shows_tests() {
            Some(self.seen.tests.as_slice())
        } else {
            None
        }
    }
}
