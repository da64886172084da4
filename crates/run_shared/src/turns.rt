// Whether two turns are the same.
ghost use Rattle.std.specs.Prelude.{◌≡◌, ◌↔◌, IsTrue};
ghost use Rattle.run_events.specs.declared.turn.Turn.TheVariants as turns;

use run_capture::{Blob, Stream, Text};
use run_commands::EnvInput;
use run_events::{ChildExit, Key, KeyCode, Signal, Turn};

// Whether two texts are the same.
fn same_text(a: &Text, b: &Text) -> bool
    ensures { IsTrue result ↔ (a.now ≡ b.now) }
{
    *a == *b
}

// Whether two pieces of bytes are the same.
fn same_bytes(a: &Blob, b: &Blob) -> bool
    ensures { IsTrue result ↔ (a.now ≡ b.now) }
{
    *a == *b
}

// Whether two streams are the same.
fn same_stream(a: Stream, b: Stream) -> bool
    ensures { IsTrue result ↔ (a ≡ b) }
{
    match a {
        Stream::Stdout => matches!(b, Stream::Stdout),
        Stream::Stderr => matches!(b, Stream::Stderr),
        Stream::Combined => matches!(b, Stream::Combined),
    }
}

// Whether two children ended alike.
fn same_exit(a: ChildExit, b: ChildExit) -> bool
    ensures { IsTrue result ↔ (a ≡ b) }
{
    match (a, b) {
        (ChildExit::Code(a), ChildExit::Code(b)) => a == b,
        (ChildExit::Signal(a), ChildExit::Signal(b)) => a == b,
        _ => false,
    }
}

// Whether two inputs are the same.
fn same_input(a: &EnvInput, b: &EnvInput) -> bool
    ensures { IsTrue result ↔ (a.now ≡ b.now) }
{
    match (a, b) {
        (EnvInput::Bytes(a), EnvInput::Bytes(b)) => same_bytes(a, b),
        (EnvInput::OpenFailed, EnvInput::OpenFailed) => true,
        (EnvInput::ReadFailed, EnvInput::ReadFailed) => true,
        _ => false,
    }
}

// Whether two signals are the same.
fn same_signal(a: Signal, b: Signal) -> bool
    ensures { IsTrue result ↔ (a ≡ b) }
{
    a == b
}

// Whether two keys are the same.
fn same_key_code(a: KeyCode, b: KeyCode) -> bool
    ensures { IsTrue result ↔ (a ≡ b) }
{
    match (a, b) {
        (KeyCode::Enter, KeyCode::Enter) => true,
        (KeyCode::Char(a), KeyCode::Char(b)) => a == b,
        _ => false,
    }
}

// Whether two keys are the same.
fn same_key(a: Key, b: Key) -> bool
    ensures { IsTrue result ↔ (a ≡ b) }
{
    same_key_code(a.code, b.code) && a.modified == b.modified && a.press == b.press
}

// Whether a turn is this one: a function for each kind.
fn is_begin(turn: &Turn) -> bool
    ensures { IsTrue result ↔ (turns.Begin ≡ turn.now) }
{
    matches!(turn, Turn::Begin)
}

fn is_admit(turn: &Turn) -> bool
    ensures { IsTrue result ↔ (turns.Admit ≡ turn.now) }
{
    matches!(turn, Turn::Admit)
}

fn is_deliver(turn: &Turn) -> bool
    ensures { IsTrue result ↔ (turns.Deliver ≡ turn.now) }
{
    matches!(turn, Turn::Deliver)
}

fn is_global_due(turn: &Turn) -> bool
    ensures { IsTrue result ↔ (turns.GlobalDue ≡ turn.now) }
{
    matches!(turn, Turn::GlobalDue)
}

fn is_stop_wait_due(turn: &Turn) -> bool
    ensures { IsTrue result ↔ (turns.StopWaitDue ≡ turn.now) }
{
    matches!(turn, Turn::StopWaitDue)
}

fn is_info_due(turn: &Turn) -> bool
    ensures { IsTrue result ↔ (turns.InfoDue ≡ turn.now) }
{
    matches!(turn, Turn::InfoDue)
}

fn is_answer(turn: &Turn) -> bool
    ensures { IsTrue result ↔ (turns.Answer ≡ turn.now) }
{
    matches!(turn, Turn::Answer)
}

fn is_tick(turn: &Turn) -> bool
    ensures { IsTrue result ↔ (turns.Tick ≡ turn.now) }
{
    matches!(turn, Turn::Tick)
}

fn is_report_cancel(turn: &Turn) -> bool
    ensures { IsTrue result ↔ (turns.ReportCancel ≡ turn.now) }
{
    matches!(turn, Turn::ReportCancel)
}

fn is_end(turn: &Turn) -> bool
    ensures { IsTrue result ↔ (turns.End ≡ turn.now) }
{
    matches!(turn, Turn::End)
}

fn is_started(turn: &Turn, unit: u32, pid: u32) -> bool
    ensures { IsTrue result ↔ (turns.Started unit pid ≡ turn.now) }
{
    match turn {
        Turn::Started {
            unit: own_unit,
            pid: own_pid,
        } => *own_unit == unit && *own_pid == pid,
        _ => false,
    }
}

fn is_start_failed(turn: &Turn, unit: u32, error: &Text) -> bool
    ensures { IsTrue result ↔ (turns.StartFailed unit error.now ≡ turn.now) }
{
    match turn {
        Turn::StartFailed {
            unit: own_unit,
            error: own_error,
        } => *own_unit == unit && same_text(own_error.get(), error),
        _ => false,
    }
}

fn is_exit(turn: &Turn, unit: u32, exit: ChildExit) -> bool
    ensures { IsTrue result ↔ (turns.Exit unit exit ≡ turn.now) }
{
    match turn {
        Turn::Exit {
            unit: own_unit,
            exit: own_exit,
        } => *own_unit == unit && same_exit(*own_exit, exit),
        _ => false,
    }
}

fn is_wait_failed(turn: &Turn, unit: u32, error: &Text) -> bool
    ensures { IsTrue result ↔ (turns.WaitFailed unit error.now ≡ turn.now) }
{
    match turn {
        Turn::WaitFailed {
            unit: own_unit,
            error: own_error,
        } => *own_unit == unit && same_text(own_error.get(), error),
        _ => false,
    }
}

fn is_piece(turn: &Turn, unit: u32, stream: Stream, bytes: &Blob) -> bool
    ensures { IsTrue result ↔ (turns.Piece unit stream bytes.now ≡ turn.now) }
{
    match turn {
        Turn::Piece {
            unit: own_unit,
            stream: own_stream,
            bytes: own_bytes,
        } => *own_unit == unit && same_stream(*own_stream, stream) && same_bytes(own_bytes, bytes),
        _ => false,
    }
}

fn is_stream_end(turn: &Turn, unit: u32, stream: Stream) -> bool
    ensures { IsTrue result ↔ (turns.StreamEnd unit stream ≡ turn.now) }
{
    match turn {
        Turn::StreamEnd {
            unit: own_unit,
            stream: own_stream,
        } => *own_unit == unit && same_stream(*own_stream, stream),
        _ => false,
    }
}

fn is_read_error(turn: &Turn, unit: u32, stream: Stream, error: &Text) -> bool
    ensures { IsTrue result ↔ (turns.ReadError unit stream error.now ≡ turn.now) }
{
    match turn {
        Turn::ReadError {
            unit: own_unit,
            stream: own_stream,
            error: own_error,
        } => *own_unit == unit
            && same_stream(*own_stream, stream)
            && same_text(own_error.get(), error),
        _ => false,
    }
}

fn is_env(turn: &Turn, unit: u32, input: &EnvInput) -> bool
    ensures { IsTrue result ↔ (turns.Env unit input.now ≡ turn.now) }
{
    match turn {
        Turn::Env {
            unit: own_unit,
            input: own_input,
        } => *own_unit == unit && same_input(own_input, input),
        _ => false,
    }
}

fn is_decide(turn: &Turn, unit: u32, word: u32) -> bool
    ensures { IsTrue result ↔ (turns.Decide unit word ≡ turn.now) }
{
    match turn {
        Turn::Decide {
            unit: own_unit,
            word: own_word,
        } => *own_unit == unit && *own_word == word,
        _ => false,
    }
}

fn is_unit_due(turn: &Turn, unit: u32) -> bool
    ensures { IsTrue result ↔ (turns.UnitDue unit ≡ turn.now) }
{
    match turn {
        Turn::UnitDue { unit: own_unit } => *own_unit == unit,
        _ => false,
    }
}

fn is_take(turn: &Turn, unit: u32) -> bool
    ensures { IsTrue result ↔ (turns.Take unit ≡ turn.now) }
{
    match turn {
        Turn::Take { unit: own_unit } => *own_unit == unit,
        _ => false,
    }
}

fn is_clock(turn: &Turn, ns: u64) -> bool
    ensures { IsTrue result ↔ (turns.Clock ns ≡ turn.now) }
{
    match turn {
        Turn::Clock { ns: own_ns } => *own_ns == ns,
        _ => false,
    }
}

fn is_signal(turn: &Turn, signal: Signal) -> bool
    ensures { IsTrue result ↔ (turns.Signal signal ≡ turn.now) }
{
    match turn {
        Turn::Signal { signal: own_signal } => same_signal(*own_signal, signal),
        _ => false,
    }
}

fn is_key(turn: &Turn, key: Key) -> bool
    ensures { IsTrue result ↔ (turns.Key key ≡ turn.now) }
{
    match turn {
        Turn::Key { key: own_key } => same_key(*own_key, key),
        _ => false,
    }
}

/// Whether two turns are the same.
pub fn same_turn(a: &Turn, b: &Turn) -> bool
    ensures { IsTrue result ↔ (a.now ≡ b.now) }
{
    match a {
        Turn::Begin => is_begin(b),
        Turn::Admit => is_admit(b),
        Turn::Deliver => is_deliver(b),
        Turn::GlobalDue => is_global_due(b),
        Turn::StopWaitDue => is_stop_wait_due(b),
        Turn::InfoDue => is_info_due(b),
        Turn::Answer => is_answer(b),
        Turn::Tick => is_tick(b),
        Turn::ReportCancel => is_report_cancel(b),
        Turn::End => is_end(b),
        Turn::Started { unit, pid } => is_started(b, *unit, *pid),
        Turn::StartFailed { unit, error } => is_start_failed(b, *unit, error.get()),
        Turn::Exit { unit, exit } => is_exit(b, *unit, *exit),
        Turn::WaitFailed { unit, error } => is_wait_failed(b, *unit, error.get()),
        Turn::Piece {
            unit,
            stream,
            bytes,
        } => is_piece(b, *unit, *stream, bytes),
        Turn::StreamEnd { unit, stream } => is_stream_end(b, *unit, *stream),
        Turn::ReadError {
            unit,
            stream,
            error,
        } => is_read_error(b, *unit, *stream, error.get()),
        Turn::Env { unit, input } => is_env(b, *unit, input),
        Turn::Decide { unit, word } => is_decide(b, *unit, *word),
        Turn::UnitDue { unit } => is_unit_due(b, *unit),
        Turn::Take { unit } => is_take(b, *unit),
        Turn::Clock { ns } => is_clock(b, *ns),
        Turn::Signal { signal } => is_signal(b, *signal),
        Turn::Key { key } => is_key(b, *key),
    }
}
