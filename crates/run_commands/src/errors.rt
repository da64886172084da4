// What can be wrong with a command, and with a script's environment file.
use run_capture::OutOfMemory;
use std::error::Error;
use std::fmt;
use std::fmt::{Display, Write};

/// Why a text is no debugger's command.
#[derive(Clone, Copy, Debug, Drop, PartialEq, Eq, thiserror::Error)]
pub enum DebuggerCommandParseError {
    /// A quote of the text isn't closed.
    #[error("the quote at byte {place} isn't closed")]
    ShellWordsParse {
        /// The quote's place in the text, in bytes from 0.
        place: usize,
    },
    /// The text has no words.
    #[error("the command has no words")]
    EmptyCommand,
    /// Memory was refused.
    #[error("out of memory")]
    OutOfMemory,
}

/// Why a text is no tracer's command.
#[derive(Clone, Copy, Debug, Drop, PartialEq, Eq, thiserror::Error)]
pub enum TracerCommandParseError {
    /// A quote of the text isn't closed.
    #[error("the quote at byte {place} isn't closed")]
    ShellWordsParse {
        /// The quote's place in the text, in bytes from 0.
        place: usize,
    },
    /// The text has no words.
    #[error("the command has no words")]
    EmptyCommand,
    /// Memory was refused.
    #[error("out of memory")]
    OutOfMemory,
}

/// Why a setup script hands on no environment. Lines are counted from 1.
#[derive(Clone, Copy, Debug, Drop, PartialEq, Eq)]
pub enum SetupScriptOutputError {
    /// The file can't be read, or this line of it is not UTF-8.
    EnvFileRead {
        /// The line, unless reading failed.
        line: Option<u64>,
    },
    /// The line has no `=`.
    EnvFileParse {
        /// The line.
        line: u64,
    },
    /// What stands before the line's first `=` is no variable's name, or begins with `NEXTEST`.
    EnvFileInvalidKey {
        /// The line.
        line: u64,
    },
    /// The file has more than 1,048,576 bytes.
    EnvFileTooLong,
    /// The file can't be opened.
    EnvFileOpen,
    /// Memory was refused.
    OutOfMemory,
}

// What is wrong with a line.
fn fmt_line<W: Write>(f: &mut fmt::Formatter<W>, line: u64, fault: &str) -> fmt::Result {
    write!(f, "line {line} of the environment file {fault}")
}

impl Display for SetupScriptOutputError {
    fn fmt<W: Write>(&self, f: &mut fmt::Formatter<W>) -> fmt::Result {
        match *self {
            SetupScriptOutputError::EnvFileRead { line: None } => {
                f.write_str("the environment file can't be read")
            }
            SetupScriptOutputError::EnvFileRead { line: Some(line) } => {
                fmt_line(f, line, "is not UTF-8")
            }
            SetupScriptOutputError::EnvFileParse { line } => fmt_line(f, line, "has no `=`"),
            SetupScriptOutputError::EnvFileInvalidKey { line } => {
                fmt_line(f, line, "sets a variable that it may not set")
            }
            SetupScriptOutputError::EnvFileTooLong => {
                f.write_str("the environment file is longer than 1048576 bytes")
            }
            SetupScriptOutputError::EnvFileOpen => {
                f.write_str("the environment file can't be opened")
            }
            SetupScriptOutputError::OutOfMemory => f.write_str("out of memory"),
        }
    }
}

impl Error for SetupScriptOutputError {}

impl From<OutOfMemory> for SetupScriptOutputError {
    ghost use Rattle.std.specs.Prelude.{◌≡◌};
    ghost use Rattle.run_commands.specs.declared.errors.SetupScriptOutputError.TheVariants as errors;

    ghost from_gives = { λ _ e. e ≡ errors.OutOfMemory };

    fn from(_: OutOfMemory) -> Self {
        SetupScriptOutputError::OutOfMemory
    }
}
