// One thing that happened outside.
ghost use Rattle.std.specs.Prelude.{◌≡◌, IfOk, true, false};
ghost use Rattle.run_events.specs.Parts.{has_bytes};
ghost use Rattle.run_events.specs.declared.turn.Turn.TheVariants.{StartFailed, WaitFailed, Piece, ReadError, Env};

use crate::{ChildExit, Key, Signal};
use run_capture::{Blob, Boxed, Duplicate, Mem, Stream, Text};
use run_commands::EnvInput;
use std::alloc::Global;

/// A turn: one thing that happened. A unit is a setup script or a test, by its number.
#[derive(Drop)]
pub enum Turn {
    /// The run, or a further sub-run of a stress run, begins.
    Begin,
    /// The next script or test is admitted.
    Admit,
    /// The oldest message of a unit is delivered.
    Deliver,
    /// A unit's child started, with this process id.
    Started {
        unit: u32,
        pid: u32,
    },
    /// A unit's child could not be started.
    StartFailed {
        unit: u32,
        error: Boxed<Text>,
    },
    /// A unit's child ended.
    Exit {
        unit: u32,
        exit: ChildExit,
    },
    /// The wait for a unit's child failed.
    WaitFailed {
        unit: u32,
        error: Boxed<Text>,
    },
    /// A unit's child wrote to a captured stream.
    Piece {
        unit: u32,
        stream: Stream,
        bytes: Blob,
    },
    /// A captured stream of a unit's child ended.
    StreamEnd {
        unit: u32,
        stream: Stream,
    },
    /// Reading a captured stream of a unit's child failed.
    ReadError {
        unit: u32,
        stream: Stream,
        error: Boxed<Text>,
    },
    /// A script's environment file was read, or could not be.
    Env {
        unit: u32,
        input: EnvInput,
    },
    /// A unit decides what comes after its attempt, with a random word.
    Decide {
        unit: u32,
        word: u32,
    },
    /// The timer of a unit's phase is due.
    UnitDue {
        unit: u32,
    },
    /// The global timer is due.
    GlobalDue,
    /// The wait for stopped units is over.
    StopWaitDue,
    /// An information round is over.
    InfoDue,
    /// The oldest answer of an information round is told.
    Answer,
    /// A unit takes the oldest request of its line.
    Take {
        unit: u32,
    },
    /// The clock moves by so many nanoseconds.
    Clock {
        ns: u64,
    },
    /// A signal came.
    Signal {
        signal: Signal,
    },
    /// A key was pressed or let go.
    Key {
        key: Key,
    },
    /// A display wants to draw anew.
    Tick,
    /// The run is cancelled since the reporter refused an event.
    ReportCancel,
    /// The run, or a sub-run, ends.
    End,
}

fn copy_piece(alloc: Global, unit: u32, stream: Stream, bytes: &Blob) -> Mem<Turn>
    ensures { IfOk result (λ t. t ≡ Piece unit stream bytes.now) }
{
    let bytes = bytes.copy(alloc)?;
    Ok(Turn::Piece {
        unit,
        stream,
        bytes,
    })
}

fn copy_read_error(alloc: Global, unit: u32, stream: Stream, error: &Boxed<Text>) -> Mem<Turn>
    ensures { IfOk result (λ t. t ≡ ReadError unit stream error.now) }
{
    let error = error.copy(alloc)?;
    Ok(Turn::ReadError {
        unit,
        stream,
        error,
    })
}

fn copy_env(alloc: Global, unit: u32, input: &EnvInput) -> Mem<Turn>
    ensures { IfOk result (λ t. t ≡ Env unit input.now) }
{
    let input = input.copy(alloc)?;
    Ok(Turn::Env { unit, input })
}

fn copy_start_failed(alloc: Global, unit: u32, error: &Boxed<Text>) -> Mem<Turn>
    ensures { IfOk result (λ t. t ≡ StartFailed unit error.now) }
{
    let error = error.copy(alloc)?;
    Ok(Turn::StartFailed { unit, error })
}

fn copy_wait_failed(alloc: Global, unit: u32, error: &Boxed<Text>) -> Mem<Turn>
    ensures { IfOk result (λ t. t ≡ WaitFailed unit error.now) }
{
    let error = error.copy(alloc)?;
    Ok(Turn::WaitFailed { unit, error })
}

impl Turn {
    /// Whether it holds text or bytes.
    pub fn has_bytes(&self) -> bool
        ensures { result ≡ has_bytes self.now }
    {
        matches!(
            self,
            Turn::StartFailed { .. }
                | Turn::WaitFailed { .. }
                | Turn::Piece { .. }
                | Turn::ReadError { .. }
                | Turn::Env { .. }
        )
    }
}

// A copy of a turn that holds text or bytes.
fn copy_bytes(alloc: Global, turn: &Turn) -> Mem<Turn>
    requires { has_bytes turn.now ≡ true }
    ensures { IfOk result (λ t. t ≡ turn.now) }
{
    match turn {
        Turn::StartFailed { unit, error } => copy_start_failed(alloc, *unit, error),
        Turn::WaitFailed { unit, error } => copy_wait_failed(alloc, *unit, error),
        Turn::Piece {
            unit,
            stream,
            bytes,
        } => copy_piece(alloc, *unit, *stream, bytes),
        Turn::ReadError {
            unit,
            stream,
            error,
        } => copy_read_error(alloc, *unit, *stream, error),
        Turn::Env { unit, input } => copy_env(alloc, *unit, input),
        _ => unreachable!(),
    }
}

// A copy of a turn that holds neither.
fn copy_plain(turn: &Turn) -> Turn
    requires { has_bytes turn.now ≡ false }
    ensures { result ≡ turn.now }
{
    match turn {
        Turn::Begin => Turn::Begin,
        Turn::Admit => Turn::Admit,
        Turn::Deliver => Turn::Deliver,
        Turn::Started { unit, pid } => Turn::Started {
            unit: *unit,
            pid: *pid,
        },
        Turn::Exit { unit, exit } => Turn::Exit {
            unit: *unit,
            exit: *exit,
        },
        Turn::StreamEnd { unit, stream } => Turn::StreamEnd {
            unit: *unit,
            stream: *stream,
        },
        Turn::Decide { unit, word } => Turn::Decide {
            unit: *unit,
            word: *word,
        },
        Turn::UnitDue { unit } => Turn::UnitDue { unit: *unit },
        Turn::GlobalDue => Turn::GlobalDue,
        Turn::StopWaitDue => Turn::StopWaitDue,
        Turn::InfoDue => Turn::InfoDue,
        Turn::Answer => Turn::Answer,
        Turn::Take { unit } => Turn::Take { unit: *unit },
        Turn::Clock { ns } => Turn::Clock { ns: *ns },
        Turn::Signal { signal } => Turn::Signal { signal: *signal },
        Turn::Key { key } => Turn::Key { key: *key },
        Turn::Tick => Turn::Tick,
        Turn::ReportCancel => Turn::ReportCancel,
        Turn::End => Turn::End,
        _ => unreachable!(),
    }
}

impl Duplicate for Turn {
    fn copy(&self, alloc: Global) -> Mem<Turn> {
        if self.has_bytes() {
            copy_bytes(alloc, self)
        } else {
            Ok(copy_plain(self))
        }
    }
}
