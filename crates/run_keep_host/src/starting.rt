// How a child is started.
use crate::call::Call;
use crate::kept_child::KeptChild;
use crate::streams::Streams;
use run_capture::{Mem, Text};
use run_drive::Begun;
use run_events::StartAsk;
use run_host::{add_arguments, add_variables, clear_env_file, not_started, refused};
use std::alloc::{AllocError, Global};
use std::fs::Files;
use std::process::Processes;
use std::{fs, io};

// Looks for a program that is named by a path, since what starts it answers by a status of its own. No name is none.
fn look_for(files: &impl Files, program: &str) -> io::Result<()> {
    if program.is_empty() {
        return Err(io::Error::from(io::ErrorKind::NotFound));
    }
    if program.contains('/') {
        let _ = fs::metadata(files, program)?;
    }
    Ok(())
}

/// Makes a script's environment file empty, and looks for the program. Answers why it isn't started, if it can't be.
pub(crate) fn unready(
    files: &impl Files,
    alloc: Global,
    program: &str,
    env_path: &Option<Text>,
) -> Mem<Option<Begun>> {
    if let Err(error) = clear_env_file(files, env_path) {
        return Ok(Some(refused(alloc, "environment file: ", &error)?));
    }
    if let Err(error) = look_for(files, program) {
        return Ok(Some(not_started(alloc, program, &error)?));
    }
    Ok(None)
}

/// The program that is started: itself, or what starts it in a session of its own.
pub(crate) fn starter(program: &str, group: bool) -> &str {
    if group { "setsid" } else { program }
}

// Names the program that is to be started by another.
fn add_program(call: &mut Call, program: &str, group: bool) -> Result<(), AllocError> {
    if group {
        call.add(&["--", program])
    } else {
        Ok(())
    }
}

// Gives a command what was asked, and keeps its streams.
fn prepare(
    files: &impl Files,
    alloc: Global,
    call: &mut Call,
    words: &[Text],
    ask: &StartAsk,
) -> io::Result<Streams> {
    let command = call.command();
    add_arguments(command, words)?;
    add_variables(alloc, command, &ask.env)?;
    Streams::open(files, command, ask.streams.as_slice())
}

// Makes a command of what was asked.
fn call_of(alloc: Global, program: &str, group: bool) -> Result<Call, AllocError> {
    let mut call = Call::new(alloc, starter(program, group))?;
    add_program(&mut call, program, group)?;
    Ok(call)
}

// Starts a command, and keeps its streams.
fn spawn<P: Processes>(
    outside: &P,
    call: Call,
    streams: Streams,
) -> io::Result<KeptChild<P::Started>> {
    let child = call.spawn(outside)?;
    Ok(KeptChild::new(child, streams))
}

/// Starts a child of which this was asked.
pub(crate) fn start_child<P: Processes + Files>(
    outside: &P,
    alloc: Global,
    program: &str,
    words: &[Text],
    ask: &StartAsk,
) -> io::Result<KeptChild<P::Started>> {
    let mut call = call_of(alloc, program, ask.group)?;
    let streams = prepare(outside, alloc, &mut call, words, ask)?;
    spawn(outside, call, streams)
}
