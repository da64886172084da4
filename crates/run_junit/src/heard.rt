// What is kept of the events that were heard.
ghost use Rattle.std.specs.Prelude.{◌≡◌, IfOk, OnOk};
ghost use Rattle.uuid.specs.Text.{hyphenated_text, lower};
ghost use Rattle.run_junit.specs.Heard.{kept_after_event, kept_after_kind, heard_finish, heard_nothing};
ghost use Rattle.run_junit.specs.Suites.{script, test};

use crate::case::test_page;
use crate::script::script_page;
use crate::suites::{Counts, Kept, put_case, script_fault, script_suite, test_fault, test_suite};
use run_capture::{List, Mem, Text};
use run_events::{ReporterEvent, RunStarted, ScriptFinish, TestEventKind, TestFinish};
use std::alloc::Global;

/// What is kept of the events that were heard.
#[derive(Drop)]
pub(crate) struct Heard {
    /// The id of the run.
    pub id: Text,
    /// How long it has taken, in nanoseconds.
    pub elapsed: u64,
    pub counts: Counts,
    pub suites: List<Kept>,
}

// The id of a run.
fn id_of(alloc: Global, told: &RunStarted) -> Mem<Text>
    ensures { IfOk result (λ id. id ≡ hyphenated_text lower told.now.run_id) }
{
    let id = told.run_id;
    Ok(Text::from_string(format!(in alloc; "{id}")?))
}

impl Heard {
    /// Of no events.
    pub(crate) fn nothing(alloc: Global) -> Mem<Heard>
        ensures { IfOk result (λ heard. heard ≡ heard_nothing) }
    {
        Ok(Heard {
            id: Text::from_str(alloc, "")?,
            elapsed: 0,
            counts: Counts::nothing(),
            suites: List::new(),
        })
    }

    // Keeps the case of a test.
    fn keep_test(&mut self, alloc: Global, started: Option<u64>, finish: &TestFinish) -> Mem<()>
        ensures { OnOk result (self.new ≡ heard_finish started self.old (test finish.now)) }
    {
        let name = test_suite(alloc, finish)?;
        let fault = test_fault(finish);
        self.counts = self.counts.with(fault)?;
        let case = test_page(alloc, started, finish)?;
        put_case(alloc, &mut self.suites, name, fault, case)
    }

    // Keeps the case of a script.
    fn keep_script(&mut self, alloc: Global, started: Option<u64>, finish: &ScriptFinish) -> Mem<()>
        ensures { OnOk result (self.new ≡ heard_finish started self.old (script finish.now)) }
    {
        let name = script_suite(alloc, finish)?;
        let fault = script_fault(finish);
        self.counts = self.counts.with(fault)?;
        let case = script_page(alloc, started, finish)?;
        put_case(alloc, &mut self.suites, name, fault, case)
    }

    // Hears what an event says.
    fn hear_kind(&mut self, alloc: Global, started: Option<u64>, kind: &TestEventKind) -> Mem<()>
        ensures { OnOk result (self.new ≡ kept_after_kind started self.old kind.now) }
    {
        match kind {
            TestEventKind::RunStarted(told) => {
                self.id = id_of(alloc, told)?;
                Ok(())
            }
            TestEventKind::TestFinished(told) => self.keep_test(alloc, started, &told.finish),
            TestEventKind::SetupScriptFinished(told) => self.keep_script(alloc, started, told),
            _ => Ok(()),
        }
    }

    /// Hears an event of a run that started so.
    pub(crate) fn hear(
        &mut self,
        alloc: Global,
        started: Option<u64>,
        event: &ReporterEvent,
    ) -> Mem<()>
        ensures { OnOk result (self.new ≡ kept_after_event started self.old event.now) }
    {
        match event {
            ReporterEvent::Tick => Ok(()),
            ReporterEvent::Test(event) => {
                self.elapsed = event.elapsed;
                self.hear_kind(alloc, started, &event.kind)
            }
        }
    }
}
