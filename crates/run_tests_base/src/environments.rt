// Environment files.
ghost use Rattle.std.specs.Prelude.{◌<◌};

use crate::rows::{MEMORY, are_pairs, blob, copied, holds, is_shown, one};
use run_capture::{Blob, List, MemorySource};
use run_commands::{
    EnvInput, EnvMap, SetupScriptOutputError, env_outcome, parse_env_text, read_env_file,
};
use std::alloc::Global;
use std::process::Abort;

// An environment text sets these variables, each with `=` before its value and `|` after it.
fn sets(rt: &impl Abort, alloc: Global, text: &str, variables: &str) -> bool {
    match parse_env_text(alloc, text.as_bytes()) {
        Ok(map) => are_pairs(rt, alloc, copied(rt, alloc, map).pairs(), variables),
        Err(_) => false,
    }
}

fn text_error(alloc: Global, text: &[u8]) -> Option<SetupScriptOutputError> {
    parse_env_text(alloc, text).err()
}

fn input_error(rt: &impl Abort, alloc: Global, input: EnvInput) -> Option<SetupScriptOutputError> {
    env_outcome(alloc, &copied(rt, alloc, input)).err()
}

// The error of a file whose reads give so many bytes.
fn file_error(alloc: Global, file: Blob, piece: usize) -> Option<SetupScriptOutputError>
    requires { 0 < piece }
{
    read_env_file(alloc, &mut MemorySource::new(file, piece, List::new())).err()
}

fn bytes_error(rt: &impl Abort, alloc: Global, text: &[u8]) -> Option<SetupScriptOutputError> {
    input_error(rt, alloc, EnvInput::Bytes(blob(rt, alloc, text)))
}

// An environment text is refused so, by each way to read it.
fn refuses(rt: &impl Abort, alloc: Global, text: &[u8], error: SetupScriptOutputError) -> bool {
    text_error(alloc, text) == Some(error)
        && bytes_error(rt, alloc, text) == Some(error)
        && file_error(alloc, blob(rt, alloc, text), 3) == Some(error)
}

// Texts, each with the variables that it sets.
const SET: [(&str, &str); 4] = [
    ("A=1\nA=2=3", "A=2=3|"),
    ("b=\r\n_A1==\r\nB=\r", "B=\r|_A1==|b=|"),
    ("NEXTES=1\nXNEXTEST=2\n", "NEXTES=1|XNEXTEST=2|"),
    ("", ""),
];

#[test]
fn reads_environments(rt: HostRuntime) {
    for (text, variables) in &SET {
        holds(&rt, text, sets(&rt, rt.alloc(), text, variables));
    }
}

const BAD_KEY: SetupScriptOutputError = SetupScriptOutputError::EnvFileInvalidKey { line: 1 };

const NO_KEY: SetupScriptOutputError = SetupScriptOutputError::EnvFileInvalidKey { line: 2 };

const NO_SIGN: SetupScriptOutputError = SetupScriptOutputError::EnvFileParse { line: 1 };

const NO_SECOND_SIGN: SetupScriptOutputError = SetupScriptOutputError::EnvFileParse { line: 2 };

const NO_TEXT: SetupScriptOutputError = SetupScriptOutputError::EnvFileRead { line: Some(1) };

#[test]
fn refuses_environments(rt: HostRuntime) {
    let alloc = rt.alloc();
    check_refused(&rt, alloc, b"NEXTEST_X=1", BAD_KEY);
    check_refused(&rt, alloc, b"1A=", BAD_KEY);
    check_refused(&rt, alloc, b"A-B=", BAD_KEY);
    check_refused(&rt, alloc, b"A=1\n=\n\xff", NO_KEY);
    check_refused(&rt, alloc, b"A", NO_SIGN);
    check_refused(&rt, alloc, b"A=1\n\nB=2", NO_SECOND_SIGN);
    check_refused(&rt, alloc, b"\xff", NO_TEXT);
}

fn check_refused(rt: &impl Abort, alloc: Global, text: &[u8], error: SetupScriptOutputError) {
    holds(rt, "refused", refuses(rt, alloc, text, error));
}

// A file `A=` and then so many bytes.
fn long_file(rt: &impl Abort, alloc: Global, count: u32) -> Blob {
    let mut text = blob(rt, alloc, b"A=");
    for _ in 0..count {
        text.extend_from_slice(alloc, b"x").expect(rt, MEMORY);
    }
    text
}

// The error of a file `A=` and then so many bytes.
fn long_file_error(rt: &impl Abort, alloc: Global, count: u32) -> Option<SetupScriptOutputError> {
    file_error(alloc, long_file(rt, alloc, count), 4096)
}

// A file of two lines whose reads give one, and whose second read fails.
fn failing_file(rt: &impl Abort, alloc: Global) -> MemorySource {
    MemorySource::new(blob(rt, alloc, b"A=1\nB=2\n"), 4, one(rt, alloc, 2))
}

// The file sets `B` to 2.
fn sets_b(rt: &impl Abort, alloc: Global, source: &mut MemorySource) -> bool {
    match read_env_file(alloc, source) {
        Ok(map) => are_pairs(rt, alloc, map.pairs(), "B=2|"),
        Err(_) => false,
    }
}

const FAILED: SetupScriptOutputError = SetupScriptOutputError::EnvFileRead { line: None };

fn fails_first(alloc: Global, source: &mut MemorySource) -> bool {
    read_env_file(alloc, source).err() == Some(FAILED)
}

// A failed read is told, and the next call reads what is left.
fn fails_once(rt: &impl Abort, alloc: Global) -> bool {
    let mut source = failing_file(rt, alloc);
    fails_first(alloc, &mut source) && sets_b(rt, alloc, &mut source)
}

fn check_input(rt: &impl Abort, alloc: Global, input: EnvInput, error: SetupScriptOutputError) {
    holds(rt, "input", input_error(rt, alloc, input) == Some(error));
}

fn check_text(rt: &impl Abort, alloc: Global, error: SetupScriptOutputError, text: &str) {
    holds(rt, text, is_shown(alloc, &error, text));
}

const MISSING: SetupScriptOutputError = SetupScriptOutputError::EnvFileOpen;

const NO_THIRD_SIGN: SetupScriptOutputError = SetupScriptOutputError::EnvFileParse { line: 3 };

const NO_THIRD: &str = "line 3 of the environment file has no `=`";

fn is_too_long(error: Option<SetupScriptOutputError>) -> bool {
    matches!(error, Some(SetupScriptOutputError::EnvFileTooLong))
}

// A file of the greatest length is read, and one more byte is too many.
fn long_files_end(rt: &impl Abort, alloc: Global) -> bool {
    long_file_error(rt, alloc, 1_048_574).is_none()
        && is_too_long(long_file_error(rt, alloc, 1_048_575))
}

#[test]
fn reads_files(rt: HostRuntime) {
    let alloc = rt.alloc();
    holds(&rt, "failure", fails_once(&rt, alloc));
    check_input(&rt, alloc, EnvInput::ReadFailed, FAILED);
    check_input(&rt, alloc, EnvInput::OpenFailed, MISSING);
    check_text(&rt, alloc, FAILED, "the environment file can't be read");
    check_text(&rt, alloc, NO_THIRD_SIGN, NO_THIRD);
    holds(&rt, "long", long_files_end(&rt, alloc));
}
