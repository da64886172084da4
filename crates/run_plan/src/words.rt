// What words choose.
ghost use Rattle.std.specs.Prelude.{◌≡◌, Some};
ghost use Rattle.run_plan.specs.Words.{ReadsWords, TakesWord, alone, choices_of, word_error, is_dashed, valued};
ghost use Rattle.run_plan.specs.Words.{word_read};
ghost use Rattle.run_plan.specs.Settings.{flag_named, setting_named};

use crate::choices::Choices;
use crate::settings::{Flag, Setting, flag_named, setting_named};
use crate::values::parts_at_equals;
use crate::word_fault::{Untaken, WordError, WordFault};
use run_capture::Text;
use std::alloc::Global;

fn is_dashed(word: &str) -> bool
    ensures { result ≡ is_dashed word.now }
{
    match word.as_bytes() {
        [] => false,
        [byte, ..] => *byte == b'-',
    }
}

// Takes a value for a setting, after which none is wanted.
fn read_value(
    alloc: Global,
    choices: &mut Choices,
    setting: Setting,
    value: &str,
) -> Result<Option<Setting>, Untaken>
    ensures { TakesWord result (word_read (Some setting) value.now choices.old) choices.new }
{
    choices.take(alloc, setting, value)?;
    Ok(None)
}

// Reads a name with its value.
fn read_valued(
    alloc: Global,
    choices: &mut Choices,
    name: &str,
    value: &str,
) -> Result<Option<Setting>, Untaken>
    ensures { TakesWord result
        (valued (setting_named name.now) (flag_named name.now) value.now choices.old) choices.new }
{
    match (setting_named(name), flag_named(name)) {
        (Some(setting), _) => read_value(alloc, choices, setting, value),
        (None, Some(_)) => Err(Untaken::Fault(WordFault::HasValue)),
        (None, None) => Err(Untaken::Fault(WordFault::Unknown)),
    }
}

// Reads a name that stands alone.
fn read_alone(choices: &mut Choices, name: &str) -> Result<Option<Setting>, Untaken>
    ensures { TakesWord result (alone (setting_named name.now) (flag_named name.now) choices.old) choices.new }
{
    match (setting_named(name), flag_named(name)) {
        (Some(setting), _) => Ok(Some(setting)),
        (None, Some(flag)) => {
            choices.take_flag(flag)?;
            Ok(None)
        }
        (None, None) => Err(Untaken::Fault(WordFault::Unknown)),
    }
}

// Reads a word: the value of the setting that wants one, or a name, or a word with a dash.
fn read_word(
    alloc: Global,
    choices: &mut Choices,
    wanted: Option<Setting>,
    word: &str,
) -> Result<Option<Setting>, Untaken>
    ensures { TakesWord result (word_read wanted word.now choices.old) choices.new }
{
    if let Some(setting) = wanted {
        return read_value(alloc, choices, setting, word);
    }
    if !is_dashed(word) {
        choices.take_name(alloc, word)?;
        return Ok(None);
    }
    match parts_at_equals(word) {
        Some((name, value)) => read_valued(alloc, choices, name, value),
        None => read_alone(choices, word),
    }
}

// What is wrong at a place.
fn at(place: usize, untaken: Untaken) -> WordError
    ensures { result ≡ word_error place untaken }
{
    match untaken {
        Untaken::Fault(fault) => WordError::Wrong { place, fault },
        Untaken::OutOfMemory => WordError::OutOfMemory,
    }
}

/// Reads the words of a call: names, and words with a dash, whose value stands after a `=` or is the next word. Each
/// setting is said once, but filters and `--skip`.
pub fn read_words(alloc: Global, words: &[Text]) -> Result<Choices, WordError>
    ensures { ReadsWords result (choices_of words.now) }
{
    let mut choices = Choices::none();
    let mut wanted = None;
    let mut place = 0;
    for word in words {
        match read_word(alloc, &mut choices, wanted, word.as_str()) {
            Ok(next) => wanted = next,
            Err(untaken) => {
                drop(choices);
                return Err(at(place, untaken));
            }
        }
        place += 1;
    }
    match wanted {
        Some(_) => {
            drop(choices);
            Err(WordError::Wrong {
                place,
                fault: WordFault::NoValue,
            })
        }
        None => Ok(choices),
    }
}
