// A whole input: a plan line, and a turn line for each turn.
ghost use Rattle.std.specs.Prelude.{◌≡◌, [], Some, IfOk, IfErr};
ghost use Rattle.run_input.specs.Lines.{lines_of};
ghost use Rattle.run_input.specs.Input.{turn_line_of, turns_said, IsInput, IsFirstBadTurn};
ghost use Rattle.run_input.specs.ReadsValue.{ReadsValue};
ghost use Rattle.run_input.specs.Refused.{error_at, IsRefusedInput, IsRefusedTurns, IsRefusedAlone};

use crate::both::both;
use crate::lines::split_line;
use crate::{InputError, LineError, RunnerKeys, read_plan_line, read_turn_line};
use run_capture::List;
use run_events::{Plan, Turn};
use std::alloc::Global;

/// What an input says.
#[derive(Drop)]
pub struct Input {
    pub keys: RunnerKeys,
    pub plan: Plan,
    /// The turns, in the order of their lines.
    pub turns: List<Turn>,
}

/// Who reads turn lines.
pub trait ReadTurn {
    /// The turn that a line says. It is refused exactly where it says none, or for want of memory.
    fn read_turn(&self, alloc: Global, line: &[u8]) -> Result<Turn, LineError>
        ensures { ReadsValue result (turn_line_of line.now) };
}

/// Reads each turn line as a JSON value.
#[derive(Clone, Copy, Drop)]
pub struct JsonTurns;

impl ReadTurn for JsonTurns {
    fn read_turn(&self, alloc: Global, line: &[u8]) -> Result<Turn, LineError> {
        read_turn_line(alloc, line)
    }
}

// A line's error with the line's number.
fn at_line(number: u64, error: LineError) -> InputError
    ensures { result ≡ error_at number error }
{
    match error {
        LineError::NotInTable => InputError::Line { line: number },
        LineError::OutOfMemory => InputError::OutOfMemory,
    }
}

// Reads the lines after the first, whose numbers start at 2.
fn read_turns<R: ReadTurn>(
    alloc: Global,
    bytes: &[u8],
    reader: &R,
) -> Result<List<Turn>, InputError>
    ensures ok { IfOk result (λ turns. turns_said (lines_of bytes.now) ≡ Some turns) }
    ensures refused { IfErr result (IsRefusedTurns (lines_of bytes.now)) }
{
    let mut turns = List::new();
    let mut rest = bytes;
    let mut number = 2;
    'lines: while !rest.is_empty() {
        let (line, after) = split_line(rest);
        let turn = match reader.read_turn(alloc, line) {
            Ok(turn) => turn,
            Err(e) => return Err(at_line(number, e)),
        };
        turns.push(alloc, turn)?;
        rest = after;
        number += 1;
    }
    Ok(turns)
}

/// Reads an input that is a plan line alone: a second line is a bad one, whatever it says.
#[tactic(auto, using(crate::proofs::InputLemmas::lines_some))]
pub fn read_plan_alone(alloc: Global, bytes: &[u8]) -> Result<(RunnerKeys, Plan), InputError>
    ensures ok { IfOk result (λ said. IsInput (lines_of bytes.now) said.0 said.1 []) }
    ensures refused { IfErr result (IsRefusedAlone (lines_of bytes.now)) }
{
    if bytes.is_empty() {
        return Err(InputError::Line { line: 1 });
    }
    let (line, after) = split_line(bytes);
    let said = match read_plan_line(alloc, line) {
        Ok(said) => said,
        Err(e) => return Err(at_line(1, e)),
    };
    if after.is_empty() {
        return Ok(said);
    }
    drop(said);
    Err(InputError::Line { line: 2 })
}

/// Reads an input: its first line is the plan line, each later one a turn line.
///
/// A line ends at its LF, and the last one needs none.
pub fn read_input(alloc: Global, bytes: &[u8]) -> Result<Input, InputError>
    ensures ok { IfOk result (λ i. IsInput (lines_of bytes.now) i.keys i.plan i.turns) }
    ensures refused { IfErr result (IsRefusedInput (lines_of bytes.now)) }
{
    read_input_by(alloc, bytes, &JsonTurns)
}

/// Reads an input as `read_input` does, its turn lines by this reader.
pub fn read_input_by<R: ReadTurn>(
    alloc: Global,
    bytes: &[u8],
    reader: &R,
) -> Result<Input, InputError>
    ensures ok { IfOk result (λ i. IsInput (lines_of bytes.now) i.keys i.plan i.turns) }
    ensures refused { IfErr result (IsRefusedInput (lines_of bytes.now)) }
{
    if bytes.is_empty() {
        return Err(InputError::Line { line: 1 });
    }
    let (line, after) = split_line(bytes);
    let first = match read_plan_line(alloc, line) {
        Ok(first) => first,
        Err(e) => return Err(at_line(1, e)),
    };
    let ((keys, plan), turns) = both(first, read_turns(alloc, after, reader))?;
    Ok(Input { keys, plan, turns })
}
