// What can happen to a unit.
ghost use Rattle.std.specs.Prelude.{◌≡◌, IfOk};
ghost use Rattle.run_model.specs.declared.unit_turn.UnitTurn.TheVariants as turns;

use run_capture::{Blob, Duplicate, Mem, Stream, Text};
use run_commands::EnvInput;
use run_events::ChildExit;
use std::alloc::Global;

/// A turn of one unit.
#[derive(Drop)]
pub enum UnitTurn {
    /// Its start or retry message was delivered, and it is let go or not.
    Answered { go: bool },
    /// Its child started.
    Started { pid: u32 },
    /// Its child could not be started.
    StartFailed { error: Text },
    /// Its child ended.
    Exit { exit: ChildExit },
    /// The wait for its child failed.
    WaitFailed { error: Text },
    /// Its child wrote to a captured stream.
    Piece { stream: Stream, bytes: Blob },
    /// A captured stream of its child ended.
    StreamEnd { stream: Stream },
    /// Reading a captured stream of its child failed.
    ReadError { stream: Stream, error: Text },
    /// Its environment file was read, or could not be.
    Env { input: EnvInput },
    /// The timer of its phase is due.
    Due,
    /// It takes the oldest request of its line.
    Take,
    /// It decides what comes after its attempt, with a random word.
    Decide { word: u32 },
}

fn copy_start_failed(alloc: Global, error: &Text) -> Mem<UnitTurn>
    ensures { IfOk result (λ t. t ≡ turns.StartFailed error.now) }
{
    let error = error.copy(alloc)?;
    Ok(UnitTurn::StartFailed { error })
}

fn copy_wait_failed(alloc: Global, error: &Text) -> Mem<UnitTurn>
    ensures { IfOk result (λ t. t ≡ turns.WaitFailed error.now) }
{
    let error = error.copy(alloc)?;
    Ok(UnitTurn::WaitFailed { error })
}

fn copy_piece(alloc: Global, stream: Stream, bytes: &Blob) -> Mem<UnitTurn>
    ensures { IfOk result (λ t. t ≡ turns.Piece stream bytes.now) }
{
    let bytes = bytes.copy(alloc)?;
    Ok(UnitTurn::Piece { stream, bytes })
}

fn copy_read_error(alloc: Global, stream: Stream, error: &Text) -> Mem<UnitTurn>
    ensures { IfOk result (λ t. t ≡ turns.ReadError stream error.now) }
{
    let error = error.copy(alloc)?;
    Ok(UnitTurn::ReadError { stream, error })
}

fn copy_env(alloc: Global, input: &EnvInput) -> Mem<UnitTurn>
    ensures { IfOk result (λ t. t ≡ turns.Env input.now) }
{
    let input = input.copy(alloc)?;
    Ok(UnitTurn::Env { input })
}

impl Duplicate for UnitTurn {
    fn copy(&self, alloc: Global) -> Mem<UnitTurn> {
        match self {
            UnitTurn::Answered { go } => Ok(UnitTurn::Answered { go: *go }),
            UnitTurn::Started { pid } => Ok(UnitTurn::Started { pid: *pid }),
            UnitTurn::StartFailed { error } => copy_start_failed(alloc, error),
            UnitTurn::Exit { exit } => Ok(UnitTurn::Exit { exit: *exit }),
            UnitTurn::WaitFailed { error } => copy_wait_failed(alloc, error),
            UnitTurn::Piece { stream, bytes } => copy_piece(alloc, *stream, bytes),
            UnitTurn::StreamEnd { stream } => Ok(UnitTurn::StreamEnd { stream: *stream }),
            UnitTurn::ReadError { stream, error } => copy_read_error(alloc, *stream, error),
            UnitTurn::Env { input } => copy_env(alloc, input),
            UnitTurn::Due => Ok(UnitTurn::Due),
            UnitTurn::Take => Ok(UnitTurn::Take),
            UnitTurn::Decide { word } => Ok(UnitTurn::Decide { word: *word }),
        }
    }
}
