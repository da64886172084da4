// What can be wrong with an input.
ghost use Rattle.std.specs.Prelude.{◌≡◌, IfOk};

use run_capture::{Duplicate, Mem, OutOfMemory};
use std::alloc::{AllocError, AllocFailed, Global};
use thiserror::Error;

/// Why a line has no value.
#[derive(Clone, Copy, Debug, Drop, PartialEq, Eq, Error)]
pub enum LineError {
    /// The line is not in its table.
    #[error("the line is not in its table")]
    NotInTable,
    /// Memory was refused.
    #[error("out of memory")]
    OutOfMemory,
}

impl From<OutOfMemory> for LineError {
    ghost use Rattle.std.specs.Prelude.{◌≡◌};
    ghost use Rattle.run_input.specs.declared.errors.LineError.TheVariants as errors;

    ghost from_gives = { λ _ e. e ≡ errors.OutOfMemory };

    fn from(_: OutOfMemory) -> Self {
        LineError::OutOfMemory
    }
}

impl From<AllocError> for LineError {
    ghost use Rattle.std.specs.Prelude.{◌≡◌};
    ghost use Rattle.run_input.specs.declared.errors.LineError.TheVariants as errors;

    ghost from_gives = { λ _ e. e ≡ errors.OutOfMemory };

    fn from(_: AllocError) -> Self {
        LineError::OutOfMemory
    }
}

impl<T: Drop> From<AllocFailed<T>> for LineError {
    ghost use Rattle.std.specs.Prelude.{◌≡◌};
    ghost use Rattle.run_input.specs.declared.errors.LineError.TheVariants as errors;

    ghost from_gives = { λ _ e. e ≡ errors.OutOfMemory };

    fn from(_: AllocFailed<T>) -> Self {
        LineError::OutOfMemory
    }
}

/// Why an input has no meaning.
#[derive(Clone, Copy, Debug, Drop, PartialEq, Eq, Error)]
pub enum InputError {
    /// The first line that is not in its table, counted from 1. An input with no line has the bad line 1.
    #[error("line {line} is not in its table")]
    Line { line: u64 },
    /// Memory was refused.
    #[error("out of memory")]
    OutOfMemory,
}

impl From<OutOfMemory> for InputError {
    ghost use Rattle.std.specs.Prelude.{◌≡◌};
    ghost use Rattle.run_input.specs.declared.errors.InputError.TheVariants as errors;

    ghost from_gives = { λ _ e. e ≡ errors.OutOfMemory };

    fn from(_: OutOfMemory) -> Self {
        InputError::OutOfMemory
    }
}

impl Duplicate for LineError {
    fn copy(&self, _alloc: Global) -> Mem<LineError> {
        Ok(*self)
    }
}

impl Duplicate for InputError {
    fn copy(&self, _alloc: Global) -> Mem<InputError> {
        Ok(*self)
    }
}
