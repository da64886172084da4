// What a display has seen.
ghost use Rattle.std.specs.Prelude.{◌≡◌, [], false, OnOk, OnErr};
ghost use Rattle.run_progress.specs.Deeds.{paused_in};
ghost use Rattle.run_progress.specs.Edits.{hiding_after, seen_after};
ghost use Rattle.run_progress.specs.declared.max_running.MaxProgressRunning.TheVariants as max_running;
ghost use Rattle.run_progress.specs.Seen.{counts_in, info_in, is_hidden, no_counts, pause_in, script_in};

use crate::edits::{edit, paused_by};
use crate::max_running::MaxProgressRunning;
use crate::running_test::RunningTest;
use run_capture::{List, Mem};
use run_events::{RunStats, TestEvent, TestEventKind};
use std::alloc::Global;

/// Counts as they were told last.
#[derive(Clone, Copy, Drop)]
pub(crate) struct Counts {
    pub running: u32,
    pub stats: RunStats,
}

/// What hides the display: a script that isn't captured runs, the run is paused, an information round is on.
#[derive(Clone, Copy, Drop)]
pub(crate) struct Hiding {
    pub script: bool,
    pub pause: bool,
    pub info: bool,
}

/// The running tests, where they are shown, the counts, how long the run had been paused when it went on last, and what
/// hides the display.
#[derive(Drop)]
pub(crate) struct Seen {
    pub tests: List<RunningTest>,
    pub counts: Counts,
    pub paused: u64,
    pub hiding: Hiding,
}

// The counts that an event tells.
fn counts_in(kind: &TestEventKind) -> Option<Counts>
    ensures { result ≡ counts_in kind.now }
{
    let (running, stats) = match kind {
        TestEventKind::TestStarted(told) => (told.running, &told.stats),
        TestEventKind::TestFinished(told) => (told.running, &told.stats),
        TestEventKind::RunBeginCancel(told) => (told.running, &told.stats),
        TestEventKind::RunBeginKill(told) => (told.running, &told.stats),
        _ => return None,
    };
    Some(Counts {
        running,
        stats: *stats,
    })
}

// Whether a script that isn't captured runs from here on.
fn script_in(kind: &TestEventKind) -> Option<bool>
    ensures { result ≡ script_in kind.now }
{
    match kind {
        TestEventKind::SetupScriptStarted(told) if told.script.no_capture => Some(true),
        TestEventKind::SetupScriptFinished(told) if told.script.no_capture => Some(false),
        _ => None,
    }
}

// Whether the run is paused from here on.
fn pause_in(kind: &TestEventKind) -> Option<bool>
    ensures { result ≡ pause_in kind.now }
{
    match kind {
        TestEventKind::RunPaused(_) => Some(true),
        TestEventKind::RunContinued(_) => Some(false),
        _ => None,
    }
}

// Whether an information round is on from here on.
fn info_in(kind: &TestEventKind) -> Option<bool>
    ensures { result ≡ info_in kind.now }
{
    match kind {
        TestEventKind::InfoStarted(_) => Some(true),
        TestEventKind::InfoFinished { .. } => Some(false),
        _ => None,
    }
}

// How long the run has been paused in all, where an event tells it.
fn paused_in(event: &TestEvent) -> Option<u64>
    ensures { result ≡ paused_in event.now }
{
    match &event.kind {
        TestEventKind::RunContinued(_) => Some(paused_by(event)),
        _ => None,
    }
}

impl Hiding {
    /// Whether anything hides the display.
    pub(crate) fn is_any(self) -> bool
        ensures { result ≡ is_hidden self }
    {
        self.script || self.pause || self.info
    }

    // What hides it after an event.
    fn after(self, kind: &TestEventKind) -> Hiding
        ensures { result ≡ hiding_after kind.now self }
    {
        Hiding {
            script: script_in(kind).unwrap_or(self.script),
            pause: pause_in(kind).unwrap_or(self.pause),
            info: info_in(kind).unwrap_or(self.info),
        }
    }
}

impl Seen {
    /// Before any event.
    pub(crate) fn nothing() -> Seen
        ensures { result ≡ record {
          tests = [];
          counts = no_counts;
          paused = 0;
          hiding = record { script = false; pause = false; info = false };
        } }
    {
        Seen {
            tests: List::new(),
            counts: Counts {
                running: 0,
                stats: RunStats::nothing(),
            },
            paused: 0,
            hiding: Hiding {
                script: false,
                pause: false,
                info: false,
            },
        }
    }

    /// Hears of one more event all but what it does to the running tests.
    #[tactic(auto, unfolding(crate::specs::Edits::seen_after))]
    pub(crate) fn hear_rest(&mut self, event: &TestEvent)
        ensures { self.new ≡ seen_after (max_running.Count 0) self.old event.now }
    {
        self.counts = counts_in(&event.kind).unwrap_or(self.counts);
        self.paused = paused_in(event).unwrap_or(self.paused);
        self.hiding = self.hiding.after(&event.kind);
    }

    /// Hears one more event.
    #[tactic(auto, unfolding(crate::specs::Edits::seen_after))]
    pub(crate) fn hear(
        &mut self,
        alloc: Global,
        max: MaxProgressRunning,
        event: &TestEvent,
    ) -> Mem<()>
        ensures ok { OnOk result (self.new ≡ seen_after max self.old event.now) }
        ensures err { OnErr result (self.new ≡ self.old) }
    {
        if max.shows_tests() {
            edit(alloc, &mut self.tests, self.paused, event)?;
        }
        self.hear_rest(event);
        Ok(())
    }
}
