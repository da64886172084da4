// What the type of a turn says of its parts.
ghost use Rattle.std.specs.Prelude.{IsUtf8};
ghost use Rattle.hex.specs.Hex.{IsBytes};
ghost use Rattle.run_turn_laws.specs.TurnLines.{IsU32, IsExit, IsEnvInput, IsKeyCode, IsTurn};

use run_capture::{Blob, Text};
use run_commands::EnvInput;
use run_events::{ChildExit, KeyCode, Turn};

// A text is UTF-8.
fn known_text(text: &Text)
    ensures { IsUtf8 text.now }
{
    let _text = text.as_str();
}

// What a slice of bytes holds are bytes.
fn known_items(bytes: &[u8])
    ensures { IsBytes bytes.now }
{}

// What a blob holds are bytes.
fn known_bytes(bytes: &Blob)
    ensures { IsBytes bytes.now }
{
    known_items(bytes.as_slice());
}

// A code and a signal are numbers of 32 bits with a sign.
fn known_exit(exit: ChildExit)
    ensures { IsExit exit }
{
    match exit {
        ChildExit::Code(_code) => {}
        ChildExit::Signal(_signal) => {}
    }
}

// What was read of an environment file is bytes.
fn known_env(input: &EnvInput)
    ensures { IsEnvInput input.now }
{
    match input {
        EnvInput::Bytes(bytes) => known_bytes(bytes),
        EnvInput::OpenFailed | EnvInput::ReadFailed => {}
    }
}

// A character is one.
fn known_code(code: KeyCode)
    ensures { IsKeyCode code }
{
    match code {
        KeyCode::Enter => {}
        KeyCode::Char(_c) => {}
    }
}

// A number of 32 bits.
fn known_unit(unit: u32)
    ensures { IsU32 unit }
{}

/// A turn that a program has is one whose parts fit their types, so that its line is read back. The call does nothing
/// else.
pub fn known_turn(turn: &Turn)
    ensures { IsTurn turn.now }
{
    match turn {
        Turn::Started { unit, pid } => {
            known_unit(*unit);
            known_unit(*pid);
        }
        Turn::StartFailed { unit, error } | Turn::WaitFailed { unit, error } => {
            known_unit(*unit);
            known_text(error.get());
        }
        Turn::Exit { unit, exit } => {
            known_unit(*unit);
            known_exit(*exit);
        }
        Turn::Piece { unit, bytes, .. } => {
            known_unit(*unit);
            known_bytes(bytes);
        }
        Turn::ReadError { unit, error, .. } => {
            known_unit(*unit);
            known_text(error.get());
        }
        Turn::Env { unit, input } => {
            known_unit(*unit);
            known_env(input);
        }
        Turn::Decide { unit, word } => {
            known_unit(*unit);
            known_unit(*word);
        }
        Turn::StreamEnd { unit, .. } | Turn::UnitDue { unit } | Turn::Take { unit } => {
            known_unit(*unit);
        }
        Turn::Clock { ns } => {
            let _ns = *ns;
        }
        Turn::Key { key } => known_code(key.code),
        Turn::Begin
        | Turn::Admit
        | Turn::Deliver
        | Turn::GlobalDue
        | Turn::StopWaitDue
        | Turn::InfoDue
        | Turn::Answer
        | Turn::Signal { .. }
        | Turn::Tick
        | Turn::ReportCancel
        | Turn::End => {}
    }
}
