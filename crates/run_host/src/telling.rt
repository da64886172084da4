// What is told of a child.
ghost use Rattle.std.specs.Prelude.{◌≡◌, IfSome, IfNone};
ghost use Rattle.std.specs.Process.{exit_code, exit_signal};
ghost use Rattle.run_events.specs.declared.result.ChildExit.TheVariants.{Code, Signal};

use run_capture::{Blob, Boxed, Mem, OutOfMemory, ReadError, StdSource, Stream, Text, read_to_end};
use run_commands::EnvInput;
use run_drive::Said;
use run_events::ChildExit;
use std::alloc::Global;
use std::fs::Files;
use std::io::Read;
use std::os::unix::process::ExitStatusExt;
use std::process::ExitStatus;
use std::{fs, io};

/// The text of an error.
pub fn error_text(alloc: Global, error: &io::Error) -> Mem<Boxed<Text>> {
    let text = Text::from_string(format!(in alloc; "{error}")?);
    Boxed::new(alloc, text)
}

/// How a child ended.
pub fn exit_of(status: &ExitStatus) -> ChildExit
    ensures code { IfSome (exit_code status.now) (λ code. result ≡ Code code) }
    ensures signal { IfNone (exit_code status.now)
        (IfSome (exit_signal status.now) (λ signal. result ≡ Signal signal)) }
{
    match (status.code(), status.signal()) {
        (Some(code), _) => ChildExit::Code(code),
        (None, Some(signal)) => ChildExit::Signal(signal),
        (None, None) => ChildExit::Code(-1),
    }
}

/// A piece of output.
pub fn piece(alloc: Global, stream: Stream, bytes: &[u8]) -> Mem<Said> {
    let bytes = Blob::from_slice(alloc, bytes)?;
    Ok(Said::Piece { stream, bytes })
}

/// Reading a stream failed.
pub fn unread(alloc: Global, stream: Stream, error: &io::Error) -> Mem<Said> {
    let error = error_text(alloc, error)?;
    Ok(Said::ReadError { stream, error })
}

/// The wait for a child failed.
pub fn unwaited(alloc: Global, error: &io::Error) -> Mem<Said> {
    let error = error_text(alloc, error)?;
    Ok(Said::WaitFailed { error })
}

// What stands in a file.
fn file_input<F: Read + Drop>(alloc: Global, file: F) -> Mem<EnvInput> {
    match read_to_end(alloc, &mut StdSource::new(file), usize::MAX) {
        Ok(bytes) => Ok(EnvInput::Bytes(bytes)),
        Err(ReadError::OutOfMemory) => Err(OutOfMemory),
        Err(_) => Ok(EnvInput::ReadFailed),
    }
}

/// What stands in an environment file, with no bytes where the path is empty.
pub fn env_input(files: &impl Files, alloc: Global, path: &Option<Text>) -> Mem<EnvInput> {
    match path {
        Some(path) if !path.is_empty() => match fs::open(files, path.as_str()) {
            Ok(file) => file_input(alloc, file),
            Err(_) => Ok(EnvInput::OpenFailed),
        },
        _ => Ok(EnvInput::Bytes(Blob::new(alloc))),
    }
}
