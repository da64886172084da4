// What came of the environment file of an attempt, by its own turns.
ghost use Rattle.std.specs.Prelude.{◌≡◌, IfOk, is_some, option_map};
ghost use Rattle.run_model.specs.Attempts.{env_by, env_read, is_fault};
ghost use Rattle.run_model.specs.Env.{env_of};

use crate::OwnTurn;
use run_capture::{Mem, OutOfMemory};
use run_commands::{EnvInput, SetupScriptOutputError, env_outcome};
use run_model::UnitTurn;
use std::alloc::Global;

/// Whether its environment file was read, or could not be.
pub(crate) fn is_env_read(piece: &[OwnTurn]) -> bool
    ensures { result ≡ is_some (env_read piece.now) }
{
    let [turn, before @ ..] = piece else {
        return false;
    };
    is_env_read(before) || matches!(turn.turn, UnitTurn::Env { .. })
}

// Whether an environment file has a fault.
fn is_fault(alloc: Global, input: &EnvInput) -> Mem<bool>
    ensures { IfOk result (λ fault. fault ≡ is_fault (env_of input.now)) }
{
    match env_outcome(alloc, input) {
        Ok(_) => Ok(false),
        Err(SetupScriptOutputError::OutOfMemory) => Err(OutOfMemory),
        Err(_) => Ok(true),
    }
}

// The same of its environment file, if that was read or could not be.
fn fault_said(alloc: Global, piece: &[OwnTurn]) -> Mem<Option<bool>>
    ensures { IfOk result (λ o. o ≡ option_map is_fault (env_read piece.now)) }
{
    let [turn, before @ ..] = piece else {
        return Ok(None);
    };
    match (fault_said(alloc, before)?, &turn.turn) {
        (None, UnitTurn::Env { input }) => Ok(Some(is_fault(alloc, input)?)),
        (earlier, _) => Ok(earlier),
    }
}

/// Whether its environment file was read and has a fault, or could not be read.
pub(crate) fn has_env_fault(alloc: Global, piece: &[OwnTurn]) -> Mem<bool>
    ensures { IfOk result (λ fault. fault ≡ is_fault (env_by piece.now)) }
{
    Ok(fault_said(alloc, piece)?.unwrap_or(false))
}
