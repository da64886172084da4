// The report of an input that is carried out in memory.
ghost use Rattle.std.specs.Prelude.{◌<◌, ◌^◌, length};

use crate::settings::settings_of;
use run_capture::{Blob, List, Mem, MemorySink, MemorySource};
use run_cli::runner_of;
use run_engine::TestRunner;
use run_events::{Ask, Children, RunOutcome, Turn};
use run_input::{Input, read_input};
use run_output::LineReporter;
use run_report::{Both, RunReport};
use run_show::{Showed, Told, show};
use std::alloc::Global;

/// So many bytes have room in a sink.
const ROOM: usize = 262_144;

/// No row has so many turns, scripts or tests.
const MOST: usize = 1_000_000;

/// Who is asked for children, and makes none.
#[derive(Drop)]
struct Unmade;

impl Children for Unmade {
    ghost use Rattle.std.specs.Prelude.{⊤};

    ghost asked = { λ _ _. ⊤ };

    fn ask(&mut self, _alloc: Global, _turn: u64, _ask: &Ask) -> Mem<()> {
        Ok(())
    }
}

/// What was written of a run: its lines, its report, and whether that fell silent.
#[derive(Drop)]
pub struct Made {
    pub lines: Blob,
    pub report: Blob,
    pub is_silent: bool,
}

/// A sink in memory, of which the write of this number fails, if there is one.
pub fn sink(alloc: Global, fails: Option<u64>) -> Mem<MemorySink> {
    let mut fail = Vec::new(alloc);
    if let Some(write) = fails {
        fail.push(write)?;
    }
    MemorySink::new(alloc, ROOM, ROOM, List::from_vec(fail))
}

// Carries out the turns of a runner.
fn carry_out(
    alloc: Global,
    runner: TestRunner,
    turns: &[Turn],
    variant: u32,
    fails: Option<u64>,
) -> Mem<Made>
    requires { length turns.now < 2 ^ 32 }
{
    let lines = sink(alloc, None)?;
    let report = sink(alloc, fails)?;
    let mut both = Both::new(
        LineReporter::new(lines),
        RunReport::new(report, settings_of(variant)),
    );
    let answer = runner.try_execute(alloc, turns, &mut Unmade, &mut both);
    drop(answer);
    let (lines, report) = both.into_parts();
    let is_silent = report.went().is_err();
    let (lines, report) = (lines.into_sink(), report.into_sink());
    Ok(Made {
        lines: Blob::from_slice(alloc, lines.bytes())?,
        report: Blob::from_slice(alloc, report.bytes())?,
        is_silent,
    })
}

/// The report of an input in the settings of a number, whose sink fails at a write, if it does; none of an input that
/// says no plan that is accepted.
pub fn report_of(alloc: Global, input: &[u8], variant: u32, fails: Option<u64>) -> Option<Made> {
    let Input { keys, plan, turns } = read_input(alloc, input).ok()?;
    if turns.len() > MOST || plan.scripts.len() > MOST || plan.tests.len() > MOST {
        return None;
    }
    let runner = runner_of(alloc, keys, plan).ok()?;
    carry_out(alloc, runner, turns.as_slice(), variant, fails).ok()
}

// The lines of a run that ended so, as a source that gives a hundred bytes at a time.
fn ended(alloc: Global, lines: &[u8]) -> Mem<MemorySource> {
    let mut all = Blob::from_slice(alloc, lines)?;
    all.extend_from_slice(
        alloc,
        b"{\"ask\":\"stop-self\"}\n{\"outcome\":\"success\"}\n{",
    )?;
    Ok(MemorySource::new(all, 100, List::new()))
}

/// The report that is shown of the lines of a run in the settings of a number; none where they aren't read to their
/// end.
pub fn shown_of(alloc: Global, lines: &[u8], variant: u32) -> Option<Blob> {
    let source = ended(alloc, lines).ok()?;
    let sink = sink(alloc, None).ok()?;
    let Showed {
        ending,
        source,
        sink,
    } = show(alloc, source, sink, settings_of(variant));
    drop(source);
    match ending {
        Ok(Told::Outcome(RunOutcome::Success)) => Blob::from_slice(alloc, sink.bytes()).ok(),
        _ => None,
    }
}
