// What a child is started with, and how a start is refused.
use run_capture::{Boxed, Mem, OutOfMemory, Text};
use run_drive::Begun;
use run_events::Variables;
use std::alloc::{AllocError, Global};
use std::fs::Files;
use std::process::Command;
use std::{fs, io};

/// Gives a command its arguments.
pub fn add_arguments(command: &mut Command, words: &[Text]) -> Result<(), AllocError> {
    for word in words {
        command.arg(word.as_str())?;
    }
    Ok(())
}

/// Gives a command its variables.
pub fn add_variables(
    alloc: Global,
    command: &mut Command,
    variables: &Variables,
) -> Result<(), AllocError> {
    let Ok(list) = variables.to_list(alloc) else {
        return Err(AllocError);
    };
    for (key, value) in list.as_slice() {
        command.env(key.as_str(), value.as_str())?;
    }
    Ok(())
}

/// Makes a script's environment file empty, where it has one.
pub fn clear_env_file(files: &impl Files, path: &Option<Text>) -> io::Result<()> {
    match path {
        Some(path) if !path.is_empty() => fs::write(files, path.as_str(), ""),
        _ => Ok(()),
    }
}

/// There is no command to start.
pub fn no_command(alloc: Global) -> Mem<Begun> {
    let error = Text::from_str(alloc, "there is no command")?;
    Ok(Begun::Refused {
        error: Boxed::new(alloc, error)?,
    })
}

/// A start failed, and is refused with these words before the error's text. Want of memory is no refusal.
pub fn refused(alloc: Global, role: &str, error: &io::Error) -> Mem<Begun> {
    if error.kind() == io::ErrorKind::OutOfMemory {
        return Err(OutOfMemory);
    }
    let error = Text::from_string(format!(in alloc; "{role}{error}")?);
    Ok(Begun::Refused {
        error: Boxed::new(alloc, error)?,
    })
}

/// A program could not be started. Its name may have any character, so it is escaped.
pub fn not_started(alloc: Global, program: &str, error: &io::Error) -> Mem<Begun> {
    let role = format!(in alloc; "cannot start {program:?}: ")?;
    refused(alloc, role.as_str(), error)
}

/// Whether a start was refused.
pub fn is_refused(begun: &Mem<Begun>) -> bool {
    matches!(begun, Ok(Begun::Refused { .. }))
}
