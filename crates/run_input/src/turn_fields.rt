// What stands at the keys of turns.
ghost use Rattle.std.specs.Prelude.{◌≡◌, codes, option_and_then};
ghost use Rattle.serde_json.specs.Find.{get};
ghost use Rattle.serde_json.specs.View.{view};
ghost use Rattle.run_input.specs.ReadsValue.{ReadsValue};
ghost use Rattle.run_input.specs.TurnLine.{stream_of, signal_from, only_one, code_of, hex_of, child_exit_of};
ghost use Rattle.run_input.specs.TurnLine.{env_failure_of, env_input_of, timer_from, due_timer_of};
ghost use Rattle.std.specs.Str.{chars};
ghost use Rattle.std.specs.Result.{result_ok};
ghost use Rattle.hex.specs.Hex.{decode_of};

use crate::fields::{i32_from, u32_from};
use crate::misfit::Wrong;
use crate::refusal::{Refusal, missing, or_not};
use hex::FromHexError;
use run_capture::{Blob, OutOfMemory, Stream};
use run_commands::EnvInput;
use run_events::{ChildExit, KeyCode, Signal, Turn};
use serde_json::Value;
use std::alloc::Global;

const I32: &str = "a whole number from -2147483648 to 2147483647";

const HEX: &str = "a text of two hexadecimal digits a byte";

const SIGNALS: &str = "int, hup, term, quit, tstp, cont or usr1";

fn stream_from(value: &Value) -> Option<Stream>
    ensures { result ≡ stream_of (view value.now) }
{
    match value.as_str()? {
        "stdout" => Some(Stream::Stdout),
        "stderr" => Some(Stream::Stderr),
        "combined" => Some(Stream::Combined),
        _ => None,
    }
}

/// A stream, by its name.
pub fn stream_at(alloc: Global, turn: &Value) -> Result<Stream, Refusal>
    ensures { ReadsValue result (option_and_then stream_of (get (codes "stream") (view turn.now))) }
{
    match turn.get("stream") {
        Some(value) => or_not(
            alloc,
            stream_from(value),
            "stream",
            "stdout, stderr or combined",
        ),
        None => missing(alloc, "stream"),
    }
}

fn signal_from(value: &Value) -> Option<Signal>
    ensures { result ≡ signal_from (view value.now) }
{
    match value.as_str()? {
        "int" => Some(Signal::Int),
        "hup" => Some(Signal::Hup),
        "term" => Some(Signal::Term),
        "quit" => Some(Signal::Quit),
        "tstp" => Some(Signal::Tstp),
        "cont" => Some(Signal::Cont),
        "usr1" => Some(Signal::Usr1),
        _ => None,
    }
}

/// A signal, by its name.
pub fn signal_at(alloc: Global, turn: &Value) -> Result<Signal, Refusal>
    ensures { ReadsValue result (option_and_then signal_from (get (codes "name") (view turn.now))) }
{
    match turn.get("name") {
        Some(value) => or_not(alloc, signal_from(value), "name", SIGNALS),
        None => missing(alloc, "name"),
    }
}

// The one character of a text.
fn only_char(text: &str) -> Option<char>
    ensures { result ≡ only_one (chars text.now) }
{
    let mut chars = text.chars();
    let first = chars.next()?;
    match chars.next() {
        Some(_) => None,
        None => Some(first),
    }
}

fn code_from(value: &Value) -> Option<KeyCode>
    ensures { result ≡ code_of (view value.now) }
{
    let text = value.as_str()?;
    if text == "enter" {
        return Some(KeyCode::Enter);
    }
    match only_char(text) {
        Some(only) => Some(KeyCode::Char(only)),
        None => None,
    }
}

/// A key: `enter`, or one character.
pub fn code_at(alloc: Global, turn: &Value) -> Result<KeyCode, Refusal>
    ensures { ReadsValue result (option_and_then code_of (get (codes "code") (view turn.now))) }
{
    match turn.get("code") {
        Some(value) => or_not(alloc, code_from(value), "code", "enter or one character"),
        None => missing(alloc, "code"),
    }
}

// The bytes that a text writes with two digits each.
fn decode(alloc: Global, text: &str) -> Result<Blob, Refusal>
    ensures { ReadsValue result (result_ok (decode_of text.now)) }
{
    match hex::decode(alloc, text) {
        Ok(bytes) => Ok(Blob::from_slice(alloc, &bytes)?),
        Err(FromHexError::OutOfMemory) => Err(Refusal::from(OutOfMemory)),
        Err(_) => Err(Refusal::at(alloc, "hex", Wrong::Not(HEX))),
    }
}

fn hex_from(alloc: Global, value: &Value) -> Result<Blob, Refusal>
    ensures { ReadsValue result (hex_of (view value.now)) }
{
    match value.as_str() {
        Some(text) => decode(alloc, text),
        None => Err(Refusal::at(alloc, "hex", Wrong::Not(HEX))),
    }
}

/// Bytes, with two digits each.
pub fn hex_at(alloc: Global, turn: &Value) -> Result<Blob, Refusal>
    ensures { ReadsValue result (option_and_then hex_of (get (codes "hex") (view turn.now))) }
{
    match turn.get("hex") {
        Some(value) => hex_from(alloc, value),
        None => missing(alloc, "hex"),
    }
}

/// How a child ended: by a code or by a signal, and not both.
pub fn child_exit(alloc: Global, turn: &Value) -> Result<ChildExit, Refusal>
    ensures { ReadsValue result (child_exit_of (get (codes "code") (view turn.now))
        (get (codes "signal") (view turn.now))) }
{
    match (turn.get("code"), turn.get("signal")) {
        (Some(code), None) => { Ok(ChildExit::Code(or_not(alloc, i32_from(code), "code", I32)?)) }
        (None, Some(signal)) => {
            Ok(ChildExit::Signal(or_not(alloc, i32_from(signal), "signal", I32)?))
        }
        _ => Err(Refusal::at(alloc, "code", Wrong::NotOne("signal"))),
    }
}

// Why an environment file was not read.
fn env_failure(value: &Value) -> Option<EnvInput>
    ensures { result ≡ env_failure_of (view value.now) }
{
    match value.as_str()? {
        "open" => Some(EnvInput::OpenFailed),
        "read" => Some(EnvInput::ReadFailed),
        _ => None,
    }
}

/// What came of an environment file: its bytes or a failure, and not both.
pub fn env_input(alloc: Global, turn: &Value) -> Result<EnvInput, Refusal>
    ensures { ReadsValue result (env_input_of (get (codes "hex") (view turn.now))
        (get (codes "failed") (view turn.now))) }
{
    match (turn.get("hex"), turn.get("failed")) {
        (Some(hex), None) => Ok(EnvInput::Bytes(hex_from(alloc, hex)?)),
        (None, Some(failed)) => or_not(alloc, env_failure(failed), "failed", "open or read"),
        _ => Err(Refusal::at(alloc, "hex", Wrong::NotOne("failed"))),
    }
}

fn timer_from(value: &Value) -> Option<Turn>
    ensures { result ≡ timer_from (view value.now) }
{
    match value.as_str()? {
        "global" => Some(Turn::GlobalDue),
        "stop" => Some(Turn::StopWaitDue),
        "info" => Some(Turn::InfoDue),
        _ => None,
    }
}

/// The timer that is due: a unit's, or one of the run's own, and not both.
pub fn due_timer(alloc: Global, turn: &Value) -> Result<Turn, Refusal>
    ensures { ReadsValue result (due_timer_of (get (codes "unit") (view turn.now))
        (get (codes "timer") (view turn.now))) }
{
    match (turn.get("unit"), turn.get("timer")) {
        (Some(unit), None) => {
            let unit = u32_from(alloc, unit, "unit")?;
            Ok(Turn::UnitDue { unit })
        }
        (None, Some(timer)) => or_not(alloc, timer_from(timer), "timer", "global, stop or info"),
        _ => Err(Refusal::at(alloc, "unit", Wrong::NotOne("timer"))),
    }
}
