// The words that were read so far.
ghost use Rattle.std.specs.Prelude.{◌≡◌, ◌++◌, [], ◌∷◌, OnOk, Some, None, option_map, string_bytes, encode_utf8};
ghost use Rattle.std.specs.Option.{is_none, option_to_list};
ghost use Rattle.run_commands.specs.Gathered.{word_so_far};

use run_capture::{List, Mem, Text};
use std::alloc::Global;
use std::marker::Model;

/// The words that ended, and the one that is open, where one is.
#[derive(Drop)]
pub struct WordList {
    ended: List<Text>,
    word: Option<String>,
}

impl Model for WordList {
    ghost use Rattle.std.specs.Prelude.{option_map, string_bytes};
    ghost use Rattle.run_commands.specs.Gathered.{Gathered};

    ghost Value = { Gathered };

    ghost view = { λ w. record { ended = w.ended; open_word = option_map string_bytes w.word } };
}

impl WordList {
    pub fn new() -> WordList
        ensures { result ≡ record { ended = []; open_word = None } }
    {
        WordList {
            ended: List::new(),
            word: None,
        }
    }

    /// Whether no word is open.
    pub fn is_between(&self) -> bool
        ensures { result ≡ is_none self.now.open_word }
    {
        self.word.is_none()
    }

    /// Begins a word, where none is open.
    pub fn begin(&mut self, alloc: Global)
        ensures { self.new ≡ record self.old { open_word = Some (word_so_far self.old.open_word) } }
    {
        if self.word.is_none() {
            self.word = Some(String::new(alloc));
        }
    }

    /// Adds a character to the word that is open; begins one where none is.
    pub fn push(&mut self, alloc: Global, c: char) -> Mem<()>
        ensures { OnOk result (self.new ≡
            record self.old { open_word = Some (word_so_far self.old.open_word ++ encode_utf8 c) }) }
    {
        self.begin(alloc);
        push_char(&mut self.word, c)
    }

    /// Ends the word that is open, where one is.
    pub fn end(&mut self, alloc: Global) -> Mem<()>
        ensures { OnOk result (self.new ≡
            record { ended = self.old.ended ++ option_to_list self.old.open_word; open_word = None }) }
    {
        if let Some(word) = self.word.take() {
            self.ended.push(alloc, Text::from_string(word))?;
        }
        Ok(())
    }

    /// The words that ended.
    pub fn into_words(self) -> List<Text>
        ensures { result ≡ self.ended }
    {
        self.ended
    }
}

// Adds a character to the text that is there.
fn push_char(text: &mut Option<String>, c: char) -> Mem<()>
    ensures { OnOk result (option_map string_bytes text.new
        ≡ option_map (λ t. string_bytes t ++ encode_utf8 c) text.old) }
{
    if let Some(text) = text {
        text.push(c)?;
    }
    Ok(())
}
