// The environment that a setup script hands on, from the bytes of its file.
ghost use Rattle.std.specs.Prelude.{◌≡◌, IfOk, IfErr, OnOk};
ghost use Rattle.std.specs.Str.Lines.{lines};
ghost use Rattle.run_commands.specs.EnvText.{IsEnvOf, IsRefusedEnv, refusal_for};
ghost use Rattle.run_commands.specs.EnvMap.{SetsVariable, pairs_in};
ghost use Rattle.run_commands.specs.EnvGiven.{IsGiven, IsTextGiven, set_pair};
ghost use Rattle.run_commands.specs.EnvOutcome.{IsOutcome};

use crate::env_line::{BrokenRule, split_line, split_pair};
use crate::env_map::EnvMap;
use crate::errors::SetupScriptOutputError;
use run_capture::{Blob, Duplicate, Mem, Text};
use std::alloc::Global;
use std::collections::BTreeMap;

/// What came of reading a script's environment file.
#[derive(Debug, Drop)]
pub enum EnvInput {
    /// The file's bytes.
    Bytes(Blob),
    /// The file could not be opened.
    OpenFailed,
    /// Reading the file failed.
    ReadFailed,
}

// The error for a line of this number that breaks this rule.
fn refusal(broken: BrokenRule, line: u64) -> SetupScriptOutputError
    ensures { result ≡ refusal_for broken line }
{
    match broken {
        BrokenRule::Utf8 => SetupScriptOutputError::EnvFileRead { line: Some(line) },
        BrokenRule::EqualsSign => SetupScriptOutputError::EnvFileParse { line },
        BrokenRule::Key => SetupScriptOutputError::EnvFileInvalidKey { line },
    }
}

// Sets a variable.
fn put(alloc: Global, map: &mut BTreeMap<String, Text>, name: &str, value: &str) -> Mem<()>
    ensures ok { OnOk result (SetsVariable map.old map.new name.now value.now) }
    ensures pairs { OnOk result (pairs_in map.new.entries ≡ set_pair (pairs_in map.old.entries) (name.now, value.now)) }
{
    map.insert(
        String::from_str(alloc, name)?,
        Text::from_str(alloc, value)?,
    )?;
    Ok(())
}

/// Reads the variables that a text sets, one a line. A line ends at LF or CR LF, and the last one
/// needs no end. It is a name, `=` and a value; of equal names the last counts. A name is an ASCII
/// letter or `_`, then letters, digits and `_`, and doesn't begin with `NEXTEST`.
pub fn parse_env_text(alloc: Global, bytes: &[u8]) -> Result<EnvMap, SetupScriptOutputError>
    ensures ok { IfOk result (IsEnvOf bytes.now) }
    ensures refused { IfErr result (IsRefusedEnv (lines bytes.now)) }
    ensures given { IsTextGiven bytes.now result }
{
    let mut map = BTreeMap::new(alloc);
    let mut rest = bytes;
    let mut number = 1;
    'lines: while !rest.is_empty() {
        let (line, after) = split_line(rest);
        match split_pair(line) {
            Ok((name, value)) => put(alloc, &mut map, name, value)?,
            Err(broken) => return Err(refusal(broken, number)),
        }
        rest = after;
        number += 1;
    }
    Ok(EnvMap::from_entries(alloc, map)?)
}

/// The environment that a script hands on, from what came of reading its file.
pub fn env_outcome(alloc: Global, input: &EnvInput) -> Result<EnvMap, SetupScriptOutputError>
    ensures outcome { IsOutcome input.now result }
    ensures given { IsGiven input.now result }
{
    match input {
        EnvInput::Bytes(bytes) => parse_env_text(alloc, bytes.as_slice()),
        EnvInput::OpenFailed => Err(SetupScriptOutputError::EnvFileOpen),
        EnvInput::ReadFailed => Err(SetupScriptOutputError::EnvFileRead { line: None }),
    }
}

impl Duplicate for EnvInput {
    fn copy(&self, alloc: Global) -> Mem<EnvInput> {
        match self {
            EnvInput::Bytes(bytes) => Ok(EnvInput::Bytes(bytes.copy(alloc)?)),
            EnvInput::OpenFailed => Ok(EnvInput::OpenFailed),
            EnvInput::ReadFailed => Ok(EnvInput::ReadFailed),
        }
    }
}
