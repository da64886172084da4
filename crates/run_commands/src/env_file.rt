// A script's environment file, from a source of bytes.
ghost use Rattle.std.specs.Prelude.{◌≡◌, ◌≤◌, ℕ, List, length, IfOk, IfErr};
ghost use Rattle.run_capture.specs.Bytes.{Gives, AtEnd};
ghost use Rattle.run_capture.specs.Faults.{RoseExactlyIf};
ghost use Rattle.run_commands.specs.EnvText.{IsEnvOf};
ghost use Rattle.run_commands.specs.EnvFile.{error_for, IsRefusedFile, is_unread};

use crate::env_map::EnvMap;
use crate::errors::SetupScriptOutputError;
use crate::script_helpers::parse_env_text;
use run_capture::{ReadError, Source, read_to_end};
use std::alloc::Global;

/// The most bytes that an environment file may have.
pub const ENV_FILE_LIMIT: usize = 1_048_576;

// The error of a file that wasn't read to its end.
fn unread(error: ReadError) -> SetupScriptOutputError
    ensures { result ≡ error_for error }
{
    match error {
        ReadError::Failed => SetupScriptOutputError::EnvFileRead { line: None },
        ReadError::TooLong => SetupScriptOutputError::EnvFileTooLong,
        ReadError::OutOfMemory => SetupScriptOutputError::OutOfMemory,
    }
}

/// Reads a source to its end, and the variables that its bytes set, as `parse_env_text` does. A
/// fault of the source and more than `ENV_FILE_LIMIT` bytes are refused before any line.
///
/// After an error the bytes that the source gave until then are lost.
pub fn read_env_file<S: Source>(
    alloc: Global,
    source: &mut S,
) -> Result<EnvMap, SetupScriptOutputError>
    ensures ok { IfOk result (λ map. (bytes : List ℕ) × Gives (S.left source.old) (S.left source.new) bytes
        × AtEnd (S.left source.new) × (length bytes ≤ ENV_FILE_LIMIT) × IsEnvOf bytes map) }
    ensures refused { IfErr result (λ e. (taken : List ℕ) × Gives (S.left source.old) (S.left source.new) taken
        × IsRefusedFile (AtEnd (S.left source.new)) taken e) }
    ensures fault { RoseExactlyIf (is_unread result) (S.faults source.old) (S.faults source.new) }
{
    match read_to_end(alloc, source, ENV_FILE_LIMIT) {
        Ok(bytes) => parse_env_text(alloc, bytes.as_slice()),
        Err(error) => Err(unread(error)),
    }
}
