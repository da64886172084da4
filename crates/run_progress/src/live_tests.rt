// The running tests as events change them, each found without a search of the others.
ghost use Rattle.std.specs.Prelude.{◌≡◌, ◌-◌, ◌<◌, ◌^◌, ◌∷◌, [], ◌++◌, false, if◌then◌else◌, length, map, take};
ghost use Rattle.std.specs.Prelude.{string_bytes, IfOk, OnErr, OnOk};
ghost use Rattle.run_progress.specs.Deeds.{adds_test, deed_of};
ghost use Rattle.run_progress.specs.Edits.{edited, paused_more, slowed, without};
ghost use Rattle.run_progress.specs.Lines.{below, test_line};
ghost use Rattle.run_progress.specs.Seen.{shows_tests};

use crate::edits::paused_by;
use crate::max_running::MaxProgressRunning;
use crate::running_test::{RunningTest, RunningTestStatus};
use crate::tests_by_start::Started;
use run_capture::{Duplicate, Mem};
use run_events::{TestEvent, TestEventKind, TestInstanceId};
use std::alloc::Global;
use std::marker::Model;

/// Running tests, in the order in which they started last. It takes memory from its first start on.
#[derive(Drop)]
pub(crate) struct LiveTests {
    started: Option<Started>,
}

impl Model for LiveTests {
    ghost use Rattle.std.specs.Prelude.{List, [], unwrap_or};
    ghost use Rattle.run_progress.specs.declared.running_test.RunningTest.{RunningTest as Running};

    ghost Value = { List Running };

    ghost view = { λ t. unwrap_or t.started [] };
}

impl LiveTests {
    /// Before any start.
    pub(crate) fn none() -> LiveTests
        ensures { result ≡ [] }
    {
        LiveTests { started: None }
    }

    // A test starts, is tried again, or waits to be.
    fn start(
        &mut self,
        alloc: Global,
        id: &TestInstanceId,
        status: RunningTestStatus,
        now: u64,
    ) -> Mem<()>
        ensures ok { OnOk result (self.new ≡ without id.now self.old
            ++ record { test = id.now; status = status; start = now; paused = 0 } ∷ []) }
        ensures err { OnErr result (self.new ≡ self.old) }
    {
        let key = id.copy(alloc)?;
        let test = id.copy(alloc)?;
        let running = RunningTest {
            test,
            status,
            start: now,
            paused: 0,
        };
        let mut started = match self.started.take() {
            Some(started) => started,
            None => Started::new(alloc),
        };
        let put = started.start(running, key);
        self.started = Some(started);
        put
    }

    // A test finishes.
    fn finish(&mut self, id: &TestInstanceId)
        ensures { self.new ≡ without id.now self.old }
    {
        if let Some(started) = &mut self.started {
            started.finish(id);
        }
    }

    // A test is slow.
    fn slow(&mut self, id: &TestInstanceId)
        ensures { self.new ≡ map (slowed id.now) self.old }
    {
        if let Some(started) = &mut self.started {
            started.slow(id);
        }
    }

    // A pause of this length ends.
    fn delay(&mut self, pause: u64)
        ensures { self.new ≡ map (paused_more pause) self.old }
    {
        if let Some(started) = &mut self.started {
            started.delay(pause);
        }
    }

    // What an event does to them, where it starts none.
    fn edit_in_place(&mut self, before: u64, event: &TestEvent)
        requires { adds_test (deed_of event.now.kind) ≡ false }
        ensures { self.new ≡ edited before event.now self.old }
    {
        match &event.kind {
            TestEventKind::TestFinished(told) => self.finish(&told.finish.test.id),
            TestEventKind::TestSlow(told) => self.slow(&told.test.id),
            TestEventKind::RunContinued(_) => self.delay(paused_by(event).saturating_sub(before)),
            _ => {}
        }
    }

    // What an event does to them, where the run had been paused for so long before.
    fn edit(&mut self, alloc: Global, before: u64, event: &TestEvent) -> Mem<()>
        ensures ok { OnOk result (self.new ≡ edited before event.now self.old) }
        ensures err { OnErr result (self.new ≡ self.old) }
    {
        match &event.kind {
            TestEventKind::TestStarted(told) => self.start(
                alloc,
                &told.start.test.id,
                RunningTestStatus::Running,
                event.clock,
            ),
            TestEventKind::TestAttemptFailedWillRetry(told) => self.start(
                alloc,
                &told.failed.test.id,
                RunningTestStatus::Delay(told.failed.delay_next),
                event.clock,
            ),
            TestEventKind::TestRetryStarted(told) => self.start(
                alloc,
                &told.retry.start.test.id,
                RunningTestStatus::Retry,
                event.clock,
            ),
            _ => {
                self.edit_in_place(before, event);
                Ok(())
            }
        }
    }

    /// Hears one more event, where the run had been paused for so long before. Nothing is kept where none is shown.
    pub(crate) fn hear(
        &mut self,
        alloc: Global,
        max: MaxProgressRunning,
        before: u64,
        event: &TestEvent,
    ) -> Mem<()>
        ensures ok { OnOk result (self.new
            ≡ if shows_tests max then edited before event.now self.old else self.old) }
        ensures err { OnErr result (self.new ≡ self.old) }
    {
        if max.shows_tests() {
            self.edit(alloc, before, event)
        } else {
            Ok(())
        }
    }

    /// How many tests run.
    pub(crate) fn len(&self) -> usize
        ensures len { result ≡ length self.now }
        ensures small { result < 2 ^ 63 }
    {
        match &self.started {
            Some(started) => started.len(),
            None => 0,
        }
    }

    /// Adds the lines of the first tests, and answers how many they are.
    pub(crate) fn push_first(
        &self,
        alloc: Global,
        out: &mut String,
        now: u64,
        width: u32,
        most: usize,
    ) -> Mem<usize>
        ensures text { IfOk result (λ _. string_bytes out.new
            ≡ string_bytes out.old ++ below (map (test_line now width) (take most self.now))) }
        ensures lines { IfOk result (λ n. n ≡ length (take most self.now)) }
    {
        match &self.started {
            Some(started) => started.push_first(alloc, out, now, width, most),
            None => Ok(0),
        }
    }
}
