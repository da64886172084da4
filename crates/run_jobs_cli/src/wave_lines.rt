// The lines after the first: turns, and where those of a wave end.
ghost use Rattle.std.specs.Prelude.{◌≡◌, ◌<◌, ◌^◌, ◌≤◌, [], length, IfOk, IfErr, OnOk, option_and_then};
ghost use Rattle.std.specs.List.{All};
ghost use Rattle.serde_json.specs.View.{view};
ghost use Rattle.run_input.specs.Lines.{lines_of};
ghost use Rattle.run_input.specs.ReadsValue.{ReadsValue};
ghost use Rattle.run_input.specs.ValueOf.{json_value};
ghost use Rattle.run_jobs_cli.specs.Refused.{IsRefusedJobs, IsRefusedWaves};
ghost use Rattle.run_input.specs.Refused.{error_at};
ghost use Rattle.run_jobs_cli.specs.Lines.{batch_said};
ghost use Rattle.run_input.specs.declared.errors.InputError.TheVariants.{OutOfMemory};
ghost use Rattle.run_jobs_cli.specs.Lists.{ended_lists, with_line};
ghost use Rattle.run_jobs_cli.specs.WaveLines.{IsJobsInput, SaysLists, wave_end_of, wave_line_of};

use crate::jobs_line::{JobsLine, read_jobs_line};
use run_capture::List;
use run_events::Turn;
use run_input::{
    InputError, LineError, ReadTurn, Refusal, Wrong, only_keys, read_value, split_line, str_at,
};
use run_turn_reader::TurnLines;
use serde_json::Value;
use std::alloc::Global;

// That the turns of a wave end, as a value says it.
#[tactic(auto, unfolding(crate::specs::WaveLines::wave_end_of))]
fn end_from(alloc: Global, value: &Value) -> Result<(), Refusal>
    ensures { ReadsValue result (wave_end_of (view value.now)) }
{
    only_keys(alloc, value, &["wave"], "an object")?;
    match str_at(value, "wave") {
        Some("end") => Ok(()),
        _ => Err(Refusal::at(alloc, "wave", Wrong::Not("end"))),
    }
}

// Whether a line says that the turns of a wave end.
fn read_end(alloc: Global, line: &[u8]) -> Result<(), LineError>
    ensures { ReadsValue result (option_and_then wave_end_of (json_value line.now)) }
{
    match read_value(alloc, line) {
        Ok(value) => match end_from(alloc, &value) {
            Ok(()) => Ok(()),
            Err(refusal) => Err(refusal.error()),
        },
        Err(refusal) => Err(refusal.error()),
    }
}

// The turn that a line says, or none where it says that the turns of a wave end.
fn read_wave_line(alloc: Global, line: &[u8]) -> Result<Option<Turn>, LineError>
    ensures { ReadsValue result (wave_line_of line.now) }
{
    match TurnLines.read_turn(alloc, line) {
        Ok(turn) => Ok(Some(turn)),
        Err(LineError::NotInTable) => match read_end(alloc, line) {
            Ok(()) => Ok(None),
            Err(error) => Err(error),
        },
        Err(LineError::OutOfMemory) => Err(LineError::OutOfMemory),
    }
}

// A line's error with the line's number.
fn at_line(number: u64, error: LineError) -> InputError
    ensures { result ≡ error_at number error }
{
    match error {
        LineError::NotInTable => InputError::Line { line: number },
        LineError::OutOfMemory => InputError::OutOfMemory,
    }
}

// Lists of turns, of which the last one hasn't ended.
#[derive(Drop)]
struct Lists {
    whole: List<List<Turn>>,
    current: List<Turn>,
}

impl Lists {
    // Adds what one more line says.
    fn add(&mut self, alloc: Global, said: Option<Turn>) -> Result<(), InputError>
        ensures ok { OnOk result (self.new ≡ with_line self.old said) }
        ensures err { IfErr result (λ e. e ≡ OutOfMemory) }
    {
        match said {
            Some(turn) => self.current.push(alloc, turn)?,
            None => {
                let ended = std::mem::replace(&mut self.current, List::new());
                self.whole.push(alloc, ended)?;
            }
        }
        Ok(())
    }

    // All lists, the last one too where it has a turn.
    fn finish(self, alloc: Global) -> Result<List<List<Turn>>, InputError>
        ensures ok { IfOk result (λ lists. lists ≡ ended_lists self) }
        ensures err { IfErr result (λ e. e ≡ OutOfMemory) }
    {
        let Lists { mut whole, current } = self;
        if !current.is_empty() {
            whole.push(alloc, current)?;
        }
        Ok(whole)
    }
}

// Reads the lines after the first, whose numbers start at 2.
fn read_lists(alloc: Global, bytes: &[u8]) -> Result<List<List<Turn>>, InputError>
    ensures ok { IfOk result (SaysLists (lines_of bytes.now)) }
    ensures small { IfOk result (All (λ list. length list ≤ length bytes.now)) }
    ensures refused { IfErr result (IsRefusedWaves (lines_of bytes.now)) }
{
    let mut lists = Lists {
        whole: List::new(),
        current: List::new(),
    };
    let mut rest = bytes;
    let mut number = 2;
    'lines: while !rest.is_empty() {
        let (line, after) = split_line(rest);
        match read_wave_line(alloc, line) {
            Ok(said) => lists.add(alloc, said)?,
            Err(e) => return Err(at_line(number, e)),
        }
        rest = after;
        number += 1;
    }
    lists.finish(alloc)
}

/// Reads an input of jobs: its first line is the jobs, each later one a turn or the end of a wave's turns.
pub fn read_jobs_input(
    alloc: Global,
    bytes: &[u8],
) -> Result<(JobsLine, List<List<Turn>>), InputError>
    ensures ok { IfOk result (λ said. IsJobsInput (lines_of bytes.now) (batch_said said.0) said.1) }
    ensures few { IfOk result (λ said. length said.0.jobs < 2 ^ 32) }
    ensures small { IfOk result (λ said. All (λ list. length list ≤ length bytes.now) said.1) }
    ensures refused { IfErr result (IsRefusedJobs (lines_of bytes.now)) }
{
    if bytes.is_empty() {
        return Err(InputError::Line { line: 1 });
    }
    let (line, after) = split_line(bytes);
    match read_jobs_line(alloc, line) {
        Ok(first) => match read_lists(alloc, after) {
            Ok(lists) => Ok((first, lists)),
            Err(error) => {
                drop(first);
                Err(error)
            }
        },
        Err(e) => Err(at_line(1, e)),
    }
}
