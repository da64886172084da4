// A command from its first character to its end.
ghost use Rattle.std.specs.Prelude.{◌≡◌, IfOk, IfErr, Ok};
ghost use Rattle.run_commands.specs.Words.{HasWords};
ghost use Rattle.run_commands.specs.WordMachine.{IsOpenAtEnd, IsSound, ended_by};
ghost use Rattle.run_commands.specs.WordsRefused.{IsRefusedWords};
ghost use Rattle.run_commands.specs.declared.words.machine.State.TheVariants as states;

use super::machine::{State, after_char};
use super::word_list::WordList;
use super::words_error::WordsError;
use run_capture::{List, Mem, Text};
use std::alloc::Global;

// A backslash at the end of a command stands for itself, and ends its last word.
fn end_escape(alloc: Global, words: &mut WordList) -> Mem<()>
    ensures { IfOk result (λ _. ended_by states.Escape words.old ≡ Ok words.new.ended) }
{
    words.push(alloc, '\\')?;
    words.end(alloc)
}

// The end of a command ends its last word.
fn end(alloc: Global, state: State, words: &mut WordList) -> Result<(), WordsError>
    requires { IsSound state words.old }
    ensures ok { IfOk result (λ _. ended_by state words.old ≡ Ok words.new.ended) }
    ensures refused { IfErr result (IsOpenAtEnd (ended_by state words.old)) }
{
    match state {
        State::Outside => Ok(words.end(alloc)?),
        State::Escape => Ok(end_escape(alloc, words)?),
        State::Comment => Ok(()),
        State::SingleQuotes(place) => Err(WordsError::OpenQuote { place }),
        State::DoubleQuotes(place) => Err(WordsError::OpenQuote { place }),
        State::DoubleQuotesEscape(place) => Err(WordsError::OpenQuote { place }),
    }
}

// The words at the end of a command.
fn finish(alloc: Global, state: State, mut words: WordList) -> Result<List<Text>, WordsError>
    requires { IsSound state words }
    ensures ok { IfOk result (λ list. ended_by state words ≡ Ok list) }
    ensures refused { IfErr result (IsOpenAtEnd (ended_by state words)) }
{
    end(alloc, state, &mut words)?;
    Ok(words.into_words())
}

/// The words of a command, of which there may be none.
pub fn split_words(alloc: Global, command: &str) -> Result<List<Text>, WordsError>
    ensures ok { IfOk result (HasWords command.now) }
    ensures refused { IfErr result (IsRefusedWords command.now) }
{
    let mut words = WordList::new();
    let mut state = State::Outside;
    for (place, c) in command.char_indices() {
        state = after_char(alloc, &mut words, state, place, c)?;
    }
    finish(alloc, state, words)
}
