// A turn line: each line of an input but the first.
ghost use Rattle.std.specs.Prelude.{◌≡◌, ◌↔◌, None, IfOk, IsSome, option_and_then};
ghost use Rattle.serde_json.specs.View.{view};
ghost use Rattle.run_input.specs.ReadsValue.{ReadsValue};
ghost use Rattle.run_input.specs.ValueOf.{json_value};
ghost use Rattle.run_input.specs.TurnLine.{bare_of, started_of, failed_of, start_failed_of, wait_failed_of, exit_from};
ghost use Rattle.run_input.specs.TurnLine.{piece_of, stream_end_of, read_error_of, env_file_from, decide_of};
ghost use Rattle.run_input.specs.declared.errors.LineError.TheVariants as errors;
ghost use Rattle.run_input.specs.TurnLine.{due_of, take_from, clock_of, came_of, key_of, turn_by, turn_of};

use crate::LineError;
use crate::fields::{no_text, str_at, text_at, time_at, truth_at, u32_at};
use crate::misfit::{Misfit, Wrong};
use crate::objects::only_keys;
use crate::refusal::Refusal;
use crate::turn_fields::{child_exit, code_at, due_timer, env_input, hex_at, signal_at, stream_at};
use crate::turn_name::{TurnName, turn_named};
use crate::value::{parse, unless_float};
use run_capture::{Boxed, Mem, Text};
use run_events::{Key, Turn};
use serde_json::Value;
use std::alloc::Global;

const OBJECT: &str = "a JSON object";

/// Reads a turn line.
///
/// The key `turn` names the turn. `begin`, `admit`, `deliver`, `answer`, `tick`, `report-cancel` and `end` have no
/// other
/// key. `started` has `unit` and `pid`; `start-failed` and `wait-failed` have `unit` and `text`, the text of the error;
/// `exit` has `unit` and either `code` or `signal`; `piece` has `unit`, `stream` and `hex`, its bytes with two digits
/// each;
/// `stream-end` has `unit` and `stream`, and `read-error` also `text`; `env` has `unit` and either `hex` or `failed`
/// (`open`,
/// `read`); `decide` has `unit` and `word`; `due` has either `unit` or `timer` (`global`, `stop`, `info`); `take` has
/// `unit`;
/// `clock` has `ns`; `signal` has `name`; `key` has `code` (`enter` or one character), `modified` and `press`.
pub fn read_turn_line(alloc: Global, line: &[u8]) -> Result<Turn, LineError>
    ensures { ReadsValue result (option_and_then turn_of (json_value line.now)) }
{
    match turn_said(alloc, line) {
        Ok(turn) => Ok(turn),
        Err(refusal) => Err(refusal.error()),
    }
}

/// Why `read_turn_line` refuses a line: what is wrong with it, and where, as the reader found it.
pub fn turn_line_misfit(alloc: Global, line: &[u8]) -> Mem<Option<Misfit>>
    ensures { IfOk result (λ misfit. IsSome misfit ↔ (option_and_then turn_of (json_value line.now) ≡ None)) }
{
    match turn_said(alloc, line) {
        Ok(turn) => {
            drop(turn);
            Ok(None)
        }
        Err(refusal) => refusal.into_misfit(),
    }
}

#[tactic(auto, using(crate::proofs::SaidLemmas::reads_line))]
fn turn_said(alloc: Global, line: &[u8]) -> Result<Turn, Refusal>
    ensures { ReadsValue result (option_and_then turn_of (json_value line.now)) }
{
    let value = parse(alloc, line)?;
    let turn = turn_from(alloc, &value);
    unless_float(alloc, &value, turn)
}

#[tactic(auto, unfolding(crate::specs::TurnLine::turn_of))]
fn turn_from(alloc: Global, value: &Value) -> Result<Turn, Refusal>
    ensures { ReadsValue result (turn_of (view value.now)) }
{
    let Some(name) = str_at(value, "turn") else {
        return Err(no_name(alloc, value));
    };
    match turn_named(name) {
        Some(kind) => turn_by(alloc, kind, value),
        None => Err(Refusal::at(alloc, name, Wrong::UnknownTurn)),
    }
}

// Why a value has no name of a turn.
fn no_name(alloc: Global, value: &Value) -> Refusal
    ensures { result ≡ errors.NotInTable }
{
    match value.as_object() {
        Some(_) => no_text(alloc, value, "turn"),
        None => Refusal::of(alloc, Wrong::Not(OBJECT)),
    }
}

// What an object says as the turn of a name.
fn turn_by(alloc: Global, name: TurnName, value: &Value) -> Result<Turn, Refusal>
    ensures { ReadsValue result (turn_by name (view value.now)) }
{
    match name {
        TurnName::Begin => bare(alloc, value, Turn::Begin),
        TurnName::Admit => bare(alloc, value, Turn::Admit),
        TurnName::Deliver => bare(alloc, value, Turn::Deliver),
        TurnName::Started => started(alloc, value),
        TurnName::StartFailed => start_failed(alloc, value),
        TurnName::Exit => exit(alloc, value),
        TurnName::WaitFailed => wait_failed(alloc, value),
        TurnName::Piece => piece(alloc, value),
        TurnName::StreamEnd => stream_end(alloc, value),
        TurnName::ReadError => read_error(alloc, value),
        TurnName::Env => env(alloc, value),
        TurnName::Decide => decide(alloc, value),
        TurnName::Due => due(alloc, value),
        TurnName::Answer => bare(alloc, value, Turn::Answer),
        TurnName::Take => take(alloc, value),
        TurnName::Clock => clock(alloc, value),
        TurnName::Signal => signal(alloc, value),
        TurnName::Key => key(alloc, value),
        TurnName::Tick => bare(alloc, value, Turn::Tick),
        TurnName::ReportCancel => bare(alloc, value, Turn::ReportCancel),
        TurnName::End => bare(alloc, value, Turn::End),
    }
}

// A turn that has its name alone.
#[tactic(auto, unfolding(crate::specs::TurnLine::bare_of))]
fn bare(alloc: Global, value: &Value, turn: Turn) -> Result<Turn, Refusal>
    ensures { ReadsValue result (bare_of turn (view value.now)) }
{
    only_keys(alloc, value, &["turn"], OBJECT)?;
    Ok(turn)
}

#[tactic(auto, unfolding(crate::specs::TurnLine::started_of))]
fn started(alloc: Global, value: &Value) -> Result<Turn, Refusal>
    ensures { ReadsValue result (started_of (view value.now)) }
{
    only_keys(alloc, value, &["pid", "turn", "unit"], OBJECT)?;
    let unit = u32_at(alloc, value, "unit")?;
    let pid = u32_at(alloc, value, "pid")?;
    Ok(Turn::Started { unit, pid })
}

// A unit, and the text of the error that came up there.
#[tactic(auto, unfolding(crate::specs::TurnLine::failed_of))]
fn failed(alloc: Global, value: &Value) -> Result<(u32, Boxed<Text>), Refusal>
    ensures { ReadsValue result (failed_of (view value.now)) }
{
    only_keys(alloc, value, &["text", "turn", "unit"], OBJECT)?;
    let unit = u32_at(alloc, value, "unit")?;
    let error = text_at(alloc, value, "text")?;
    Ok((unit, Boxed::new(alloc, error)?))
}

fn start_failed(alloc: Global, value: &Value) -> Result<Turn, Refusal>
    ensures { ReadsValue result (start_failed_of (view value.now)) }
{
    let (unit, error) = failed(alloc, value)?;
    Ok(Turn::StartFailed { unit, error })
}

fn wait_failed(alloc: Global, value: &Value) -> Result<Turn, Refusal>
    ensures { ReadsValue result (wait_failed_of (view value.now)) }
{
    let (unit, error) = failed(alloc, value)?;
    Ok(Turn::WaitFailed { unit, error })
}

#[tactic(auto, unfolding(crate::specs::TurnLine::exit_from))]
fn exit(alloc: Global, value: &Value) -> Result<Turn, Refusal>
    ensures { ReadsValue result (exit_from (view value.now)) }
{
    only_keys(alloc, value, &["code", "signal", "turn", "unit"], OBJECT)?;
    let unit = u32_at(alloc, value, "unit")?;
    let exit = child_exit(alloc, value)?;
    Ok(Turn::Exit { unit, exit })
}

#[tactic(auto, unfolding(crate::specs::TurnLine::piece_of))]
fn piece(alloc: Global, value: &Value) -> Result<Turn, Refusal>
    ensures { ReadsValue result (piece_of (view value.now)) }
{
    only_keys(alloc, value, &["hex", "stream", "turn", "unit"], OBJECT)?;
    let unit = u32_at(alloc, value, "unit")?;
    let stream = stream_at(alloc, value)?;
    let bytes = hex_at(alloc, value)?;
    Ok(Turn::Piece {
        unit,
        stream,
        bytes,
    })
}

#[tactic(auto, unfolding(crate::specs::TurnLine::stream_end_of))]
fn stream_end(alloc: Global, value: &Value) -> Result<Turn, Refusal>
    ensures { ReadsValue result (stream_end_of (view value.now)) }
{
    only_keys(alloc, value, &["stream", "turn", "unit"], OBJECT)?;
    let unit = u32_at(alloc, value, "unit")?;
    let stream = stream_at(alloc, value)?;
    Ok(Turn::StreamEnd { unit, stream })
}

#[tactic(auto, unfolding(crate::specs::TurnLine::read_error_of))]
fn read_error(alloc: Global, value: &Value) -> Result<Turn, Refusal>
    ensures { ReadsValue result (read_error_of (view value.now)) }
{
    only_keys(alloc, value, &["stream", "text", "turn", "unit"], OBJECT)?;
    let unit = u32_at(alloc, value, "unit")?;
    let stream = stream_at(alloc, value)?;
    let error = text_at(alloc, value, "text")?;
    Ok(Turn::ReadError {
        unit,
        stream,
        error: Boxed::new(alloc, error)?,
    })
}

#[tactic(auto, unfolding(crate::specs::TurnLine::env_file_from))]
fn env(alloc: Global, value: &Value) -> Result<Turn, Refusal>
    ensures { ReadsValue result (env_file_from (view value.now)) }
{
    only_keys(alloc, value, &["failed", "hex", "turn", "unit"], OBJECT)?;
    let unit = u32_at(alloc, value, "unit")?;
    let input = env_input(alloc, value)?;
    Ok(Turn::Env { unit, input })
}

#[tactic(auto, unfolding(crate::specs::TurnLine::decide_of))]
fn decide(alloc: Global, value: &Value) -> Result<Turn, Refusal>
    ensures { ReadsValue result (decide_of (view value.now)) }
{
    only_keys(alloc, value, &["turn", "unit", "word"], OBJECT)?;
    let unit = u32_at(alloc, value, "unit")?;
    let word = u32_at(alloc, value, "word")?;
    Ok(Turn::Decide { unit, word })
}

#[tactic(auto, unfolding(crate::specs::TurnLine::due_of))]
fn due(alloc: Global, value: &Value) -> Result<Turn, Refusal>
    ensures { ReadsValue result (due_of (view value.now)) }
{
    only_keys(alloc, value, &["timer", "turn", "unit"], OBJECT)?;
    due_timer(alloc, value)
}

#[tactic(auto, unfolding(crate::specs::TurnLine::take_from))]
fn take(alloc: Global, value: &Value) -> Result<Turn, Refusal>
    ensures { ReadsValue result (take_from (view value.now)) }
{
    only_keys(alloc, value, &["turn", "unit"], OBJECT)?;
    let unit = u32_at(alloc, value, "unit")?;
    Ok(Turn::Take { unit })
}

#[tactic(auto, unfolding(crate::specs::TurnLine::clock_of))]
fn clock(alloc: Global, value: &Value) -> Result<Turn, Refusal>
    ensures { ReadsValue result (clock_of (view value.now)) }
{
    only_keys(alloc, value, &["ns", "turn"], OBJECT)?;
    let ns = time_at(alloc, value, "ns")?;
    Ok(Turn::Clock { ns })
}

#[tactic(auto, unfolding(crate::specs::TurnLine::came_of))]
fn signal(alloc: Global, value: &Value) -> Result<Turn, Refusal>
    ensures { ReadsValue result (came_of (view value.now)) }
{
    only_keys(alloc, value, &["name", "turn"], OBJECT)?;
    let signal = signal_at(alloc, value)?;
    Ok(Turn::Signal { signal })
}

#[tactic(auto, unfolding(crate::specs::TurnLine::key_of))]
fn key(alloc: Global, value: &Value) -> Result<Turn, Refusal>
    ensures { ReadsValue result (key_of (view value.now)) }
{
    only_keys(alloc, value, &["code", "modified", "press", "turn"], OBJECT)?;
    let code = code_at(alloc, value)?;
    let modified = truth_at(alloc, value, "modified")?;
    let press = truth_at(alloc, value, "press")?;
    Ok(Turn::Key {
        key: Key {
            code,
            modified,
            press,
        },
    })
}
