// Attempts of tests and setup scripts.
use crate::children::{child_in, env_fault_in};
use crate::members::{count, items, items_of, number, truth};
use crate::results::result_in;
use run_capture::{List, Mem, OutOfMemory};
use run_commands::{EnvMap, SetupScriptOutputError, parse_env_text};
use run_events::{ExecuteStatus, ScriptEnv, SetupScriptExecuteStatus};
use serde_json::Value;
use std::alloc::Global;

/// An attempt of a test.
pub(crate) fn attempt_of(alloc: Global, attempt: &Value) -> Mem<ExecuteStatus> {
    let output = child_in(alloc, attempt)?;
    Ok(ExecuteStatus {
        attempt: count(attempt, "attempt"),
        attempts: count(attempt, "attempts"),
        delay: number(attempt, "delay"),
        result: result_in(attempt),
        output,
        slow: truth(attempt, "slow"),
        start: number(attempt, "start"),
        time: number(attempt, "time"),
    })
}

/// The attempts of a test, in order.
pub(crate) fn attempts_in(alloc: Global, event: &Value) -> Mem<List<ExecuteStatus>> {
    let mut attempts = List::new();
    for item in items(event, "statuses") {
        attempts.push(alloc, attempt_of(alloc, item)?)?;
    }
    Ok(attempts)
}

// Adds a text that an item of an array is.
fn push_item(text: &mut String, pair: &[Value], place: usize) -> Mem<()> {
    if let Some(item) = pair.get(place) {
        text.push_str(item.as_str().unwrap_or(""))?;
    }
    Ok(())
}

// The lines of an environment file that sets these variables. Of each line's end one carriage return is no part.
fn env_lines(alloc: Global, pairs: &[Value]) -> Mem<String> {
    let mut text = String::new(alloc);
    for item in pairs {
        let pair = items_of(item);
        push_item(&mut text, pair, 0)?;
        text.push_str("=")?;
        push_item(&mut text, pair, 1)?;
        text.push_str("\r\n")?;
    }
    Ok(text)
}

// The variables that a script handed on.
fn variables_of(alloc: Global, pairs: &[Value]) -> Mem<Option<EnvMap>> {
    let text = env_lines(alloc, pairs)?;
    match parse_env_text(alloc, text.as_bytes()) {
        Ok(map) => Ok(Some(map)),
        Err(SetupScriptOutputError::OutOfMemory) => Err(OutOfMemory),
        Err(_) => Ok(None),
    }
}

// What came of a script's environment file.
fn env_in(alloc: Global, attempt: &Value) -> Mem<ScriptEnv> {
    if let Some(fault) = env_fault_in(attempt) {
        return Ok(ScriptEnv::Fault(fault));
    }
    match attempt.get("env") {
        Some(pairs) => match variables_of(alloc, items_of(pairs))? {
            Some(map) => Ok(ScriptEnv::Variables(map)),
            None => Ok(ScriptEnv::Unread),
        },
        None => Ok(ScriptEnv::Unread),
    }
}

/// The attempt of a setup script.
pub(crate) fn script_attempt_of(alloc: Global, attempt: &Value) -> Mem<SetupScriptExecuteStatus> {
    let env = env_in(alloc, attempt)?;
    let output = child_in(alloc, attempt)?;
    Ok(SetupScriptExecuteStatus {
        result: result_in(attempt),
        output,
        slow: truth(attempt, "slow"),
        start: number(attempt, "start"),
        time: number(attempt, "time"),
        env,
    })
}
