// The commands of debuggers and tracers, which contracts see as their words.
ghost use Rattle.std.specs.Prelude.{◌≡◌, ℕ, List as Items, drop, slice_get, Some, IfOk, IfErr};
ghost use Rattle.run_commands.specs.CommandWords.{command_words};
ghost use Rattle.run_commands.specs.Words.{HasWords};

use crate::errors::{DebuggerCommandParseError, TracerCommandParseError};
use crate::words::{CommandWords, WordsError};
use run_capture::{Duplicate, List, Mem, Text};
use std::alloc::Global;
use std::marker::Model;

/// A debugger with its arguments. Contracts see its words: the program, then the arguments.
#[derive(Debug, Drop)]
pub struct DebuggerCommand {
    words: CommandWords,
}

impl Model for DebuggerCommand {
    ghost use Rattle.std.specs.Prelude.{List, ℕ};

    ghost Value = { List (List ℕ) };

    ghost view = { λ c. c.words };
}

impl DebuggerCommand {
    ghost use Rattle.run_commands.specs.DebuggerCommand.{GivesDebugger, IsDebuggerAnswer, IsRefusedDebugger};

    /// Splits a text into words as a POSIX shell does, with no expansion: the program, and then the
    /// arguments.
    pub fn from_str(alloc: Global, command: &str) -> Result<Self, DebuggerCommandParseError>
        // What is read is in the grammar, with these words.
        ensures ok { IfOk result (HasWords command.now) }
        ensures refused { IfErr result (IsRefusedDebugger command.now) }
        // What is in the grammar is read, with its words.
        ensures only { (words : Items (Items ℕ)) → HasWords command.now words → IsDebuggerAnswer words result }
        ensures words { GivesDebugger (command_words command.now) result }
    {
        match CommandWords::from_str(alloc, command) {
            Ok(words) => Ok(DebuggerCommand { words }),
            Err(WordsError::OpenQuote { place }) => {
                Err(DebuggerCommandParseError::ShellWordsParse { place })
            }
            Err(WordsError::NoWords) => Err(DebuggerCommandParseError::EmptyCommand),
            Err(WordsError::OutOfMemory) => Err(DebuggerCommandParseError::OutOfMemory),
        }
    }

    pub fn program(&self) -> &str
        ensures { slice_get self.now 0 ≡ Some result.now }
    {
        self.words.program()
    }

    pub fn args(&self) -> &[Text]
        ensures { result.now ≡ drop 1 self.now }
    {
        self.words.args()
    }

    /// Its words: the program, then the arguments.
    pub fn words(&self, alloc: Global) -> Mem<List<Text>>
        ensures { IfOk result (λ words. words ≡ self.now) }
    {
        self.words.words(alloc)
    }
}

impl Duplicate for DebuggerCommand {
    fn copy(&self, alloc: Global) -> Mem<DebuggerCommand> {
        Ok(DebuggerCommand {
            words: self.words.copy(alloc)?,
        })
    }
}

/// A tracer of system calls with its arguments. Contracts see its words: the program, then the
/// arguments.
#[derive(Debug, Drop)]
pub struct TracerCommand {
    words: CommandWords,
}

impl Model for TracerCommand {
    ghost use Rattle.std.specs.Prelude.{List, ℕ};

    ghost Value = { List (List ℕ) };

    ghost view = { λ c. c.words };
}

impl TracerCommand {
    ghost use Rattle.run_commands.specs.TracerCommand.{GivesTracer, IsTracerAnswer, IsRefusedTracer};

    /// Splits a text into words as a POSIX shell does, with no expansion: the program, and then the
    /// arguments.
    pub fn from_str(alloc: Global, command: &str) -> Result<Self, TracerCommandParseError>
        // What is read is in the grammar, with these words.
        ensures ok { IfOk result (HasWords command.now) }
        ensures refused { IfErr result (IsRefusedTracer command.now) }
        // What is in the grammar is read, with its words.
        ensures only { (words : Items (Items ℕ)) → HasWords command.now words → IsTracerAnswer words result }
        ensures words { GivesTracer (command_words command.now) result }
    {
        match CommandWords::from_str(alloc, command) {
            Ok(words) => Ok(TracerCommand { words }),
            Err(WordsError::OpenQuote { place }) => {
                Err(TracerCommandParseError::ShellWordsParse { place })
            }
            Err(WordsError::NoWords) => Err(TracerCommandParseError::EmptyCommand),
            Err(WordsError::OutOfMemory) => Err(TracerCommandParseError::OutOfMemory),
        }
    }

    pub fn program(&self) -> &str
        ensures { slice_get self.now 0 ≡ Some result.now }
    {
        self.words.program()
    }

    pub fn args(&self) -> &[Text]
        ensures { result.now ≡ drop 1 self.now }
    {
        self.words.args()
    }

    /// Its words: the program, then the arguments.
    pub fn words(&self, alloc: Global) -> Mem<List<Text>>
        ensures { IfOk result (λ words. words ≡ self.now) }
    {
        self.words.words(alloc)
    }
}

impl Duplicate for TracerCommand {
    fn copy(&self, alloc: Global) -> Mem<TracerCommand> {
        Ok(TracerCommand {
            words: self.words.copy(alloc)?,
        })
    }
}
