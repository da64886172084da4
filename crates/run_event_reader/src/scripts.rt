// The events of setup scripts. No line has a unit's number, and not each its place and what it captures.
use crate::attempts::script_attempt_of;
use crate::members::{count, number, text, texts, truth};
use crate::stats::index_in;
use run_capture::Mem;
use run_events::{ScriptFinish, ScriptSlow, ScriptStart, ScriptUnit, TestEventKind};
use serde_json::Value;
use std::alloc::Global;

/// The setup script that an event is of.
pub(crate) fn script_in(alloc: Global, event: &Value) -> Mem<ScriptUnit> {
    let id = text(alloc, event, "script")?;
    Ok(ScriptUnit {
        unit: 0,
        id,
        index: count(event, "index"),
        total: count(event, "total"),
        no_capture: truth(event, "no_capture"),
        stress_index: index_in(event),
    })
}

fn started(alloc: Global, event: &Value) -> Mem<ScriptStart> {
    let script = script_in(alloc, event)?;
    let command = texts(alloc, event, "command")?;
    Ok(ScriptStart { script, command })
}

fn slow(alloc: Global, event: &Value) -> Mem<ScriptSlow> {
    let script = script_in(alloc, event)?;
    Ok(ScriptSlow {
        script,
        elapsed_slow: number(event, "elapsed_slow"),
        terminates: truth(event, "terminates"),
    })
}

fn finished(alloc: Global, event: &Value) -> Mem<ScriptFinish> {
    let script = script_in(alloc, event)?;
    let status = match event.get("status") {
        Some(attempt) => script_attempt_of(alloc, attempt)?,
        None => script_attempt_of(alloc, event)?,
    };
    Ok(ScriptFinish { script, status })
}

/// An event of a setup script, by its word.
pub(crate) fn script_kind(alloc: Global, word: &str, event: &Value) -> Mem<TestEventKind> {
    match word {
        "script-started" => started(alloc, event).map(TestEventKind::SetupScriptStarted),
        "script-slow" => slow(alloc, event).map(TestEventKind::SetupScriptSlow),
        _ => finished(alloc, event).map(TestEventKind::SetupScriptFinished),
    }
}
