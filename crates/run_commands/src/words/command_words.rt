// The words of a command, which contracts see as a list.
ghost use Rattle.std.specs.Prelude.{◌≡◌, ◌≢◌, [], ℕ, List as Items, drop, slice_get, Some, IfOk, IfErr, IfSome, IfNone};
ghost use Rattle.run_commands.specs.Words.{HasWords};
ghost use Rattle.run_commands.specs.CommandWords.{command_words};
ghost use Rattle.run_commands.specs.WordsRefused.{GivesWords, IsRefusedWords, IsWordsAnswer};

use super::splitting::split_words;
use super::words_error::WordsError;
use run_capture::{Duplicate, List, Mem, Text};
use std::alloc::Global;
use std::marker::Model;

/// A program and its arguments: the words of a command that has some.
#[derive(Debug, Drop)]
pub struct CommandWords {
    program: Text,
    args: List<Text>,
}

impl Model for CommandWords {
    ghost use Rattle.std.specs.Prelude.{List, ℕ, ◌∷◌};

    ghost Value = { List (List ℕ) };

    ghost view = { λ c. c.program ∷ c.args };
}

// A program and its arguments, where there are words.
fn split_first(alloc: Global, words: List<Text>) -> Option<CommandWords>
    ensures some { IfSome result (λ command. command ≡ words) }
    ensures none { IfNone result (words ≡ []) }
{
    let mut words = words.into_vec(alloc);
    if words.is_empty() {
        return None;
    }
    let program = words.remove(0);
    Some(CommandWords {
        program,
        args: List::from_vec(words),
    })
}

// The words of a command that has some.
fn some_words(alloc: Global, command: &str) -> Result<CommandWords, WordsError>
    ensures ok { IfOk result (HasWords command.now) }
    ensures some { IfOk result (λ words. words ≢ []) }
    ensures refused { IfErr result (IsRefusedWords command.now) }
{
    let words = split_words(alloc, command)?;
    match split_first(alloc, words) {
        Some(words) => Ok(words),
        None => Err(WordsError::NoWords),
    }
}

impl CommandWords {
    /// Splits a text into words as a POSIX shell does, with no expansion.
    pub fn from_str(alloc: Global, command: &str) -> Result<Self, WordsError>
        ensures ok { IfOk result (HasWords command.now) }
        ensures refused { IfErr result (IsRefusedWords command.now) }
        ensures only { (words : Items (Items ℕ)) → HasWords command.now words → IsWordsAnswer words result }
        ensures words { GivesWords (command_words command.now) result }
    {
        some_words(alloc, command)
    }

    pub fn program(&self) -> &str
        ensures { slice_get self.now 0 ≡ Some result.now }
    {
        self.program.as_str()
    }

    pub fn args(&self) -> &[Text]
        ensures { result.now ≡ drop 1 self.now }
    {
        self.args.as_slice()
    }

    /// All of them.
    pub fn words(&self, alloc: Global) -> Mem<List<Text>>
        ensures { IfOk result (λ words. words ≡ self.now) }
    {
        let mut words = Vec::new(alloc);
        words.push(self.program.copy(alloc)?)?;
        let mut args = self.args.copy(alloc)?.into_vec(alloc);
        words.append(&mut args)?;
        Ok(List::from_vec(words))
    }
}

impl Duplicate for CommandWords {
    fn copy(&self, alloc: Global) -> Mem<CommandWords> {
        let program = self.program.copy(alloc)?;
        let args = self.args.copy(alloc)?;
        Ok(CommandWords { program, args })
    }
}
