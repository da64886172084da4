// One character at a time: what stands before it, and what it adds to the words.
ghost use Rattle.std.specs.Prelude.{ℕ, IfOk};
ghost use Rattle.run_commands.specs.Gathered.{Gathered};
ghost use Rattle.run_commands.specs.WordMachine.{IsSound, TakesChar};
ghost use Rattle.run_commands.specs.declared.words.machine.State.TheVariants as states;

use super::char_kind::{CharKind, kind_of};
use super::word_list::WordList;
use run_capture::Mem;
use std::alloc::Global;

/// What stands before the next character.
#[derive(Clone, Copy)]
pub enum State {
    /// Nothing that changes what it means.
    Outside,
    /// A backslash outside quotes.
    Escape,
    /// The `#` of a comment.
    Comment,
    /// A single quote at this byte, which isn't closed yet.
    SingleQuotes(usize),
    /// A double quote at this byte, which isn't closed yet.
    DoubleQuotes(usize),
    /// Such a quote, and a backslash after it.
    DoubleQuotesEscape(usize),
}

// A character outside quotes.
fn after_outside(alloc: Global, words: &mut WordList, place: usize, c: char) -> Mem<State>
    ensures { IfOk result (λ next. TakesChar states.Outside next words.old words.new place c) }
{
    match kind_of(c) {
        CharKind::Space | CharKind::Newline => {
            words.end(alloc)?;
            Ok(State::Outside)
        }
        CharKind::Backslash => Ok(State::Escape),
        CharKind::SingleQuote => Ok(State::SingleQuotes(place)),
        CharKind::DoubleQuote => Ok(State::DoubleQuotes(place)),
        CharKind::Hash => {
            if words.is_between() {
                return Ok(State::Comment);
            }
            words.push(alloc, c)?;
            Ok(State::Outside)
        }
        _ => {
            words.push(alloc, c)?;
            Ok(State::Outside)
        }
    }
}

// A character after a backslash outside quotes.
fn after_escape(alloc: Global, words: &mut WordList, c: char) -> Mem<State>
    ensures { (place : ℕ) → IfOk result (λ next. TakesChar states.Escape next words.old words.new place c) }
{
    match kind_of(c) {
        CharKind::Newline => Ok(State::Outside),
        _ => {
            words.push(alloc, c)?;
            Ok(State::Outside)
        }
    }
}

// A character between single quotes.
fn after_single(alloc: Global, words: &mut WordList, quote: usize, c: char) -> Mem<State>
    ensures { (place : ℕ)
        → IfOk result (λ next. TakesChar (states.SingleQuotes quote) next words.old words.new place c) }
{
    match kind_of(c) {
        CharKind::SingleQuote => {
            words.begin(alloc);
            Ok(State::Outside)
        }
        _ => {
            words.push(alloc, c)?;
            Ok(State::SingleQuotes(quote))
        }
    }
}

// A character between double quotes.
fn after_double(alloc: Global, words: &mut WordList, quote: usize, c: char) -> Mem<State>
    ensures { (place : ℕ)
        → IfOk result (λ next. TakesChar (states.DoubleQuotes quote) next words.old words.new place c) }
{
    match kind_of(c) {
        CharKind::DoubleQuote => {
            words.begin(alloc);
            Ok(State::Outside)
        }
        CharKind::Backslash => Ok(State::DoubleQuotesEscape(quote)),
        _ => {
            words.push(alloc, c)?;
            Ok(State::DoubleQuotes(quote))
        }
    }
}

// A character after a backslash between double quotes.
fn after_double_escape(alloc: Global, words: &mut WordList, quote: usize, c: char) -> Mem<State>
    ensures { (place : ℕ) → IfOk result
        (λ next. TakesChar (states.DoubleQuotesEscape quote) next words.old words.new place c) }
{
    match kind_of(c) {
        CharKind::Newline => Ok(State::DoubleQuotes(quote)),
        CharKind::Backslash | CharKind::DoubleQuote | CharKind::Expansion => {
            words.push(alloc, c)?;
            Ok(State::DoubleQuotes(quote))
        }
        _ => {
            words.push(alloc, '\\')?;
            words.push(alloc, c)?;
            Ok(State::DoubleQuotes(quote))
        }
    }
}

// A character in a comment.
fn after_comment(c: char) -> State
    ensures { (words : Gathered) (place : ℕ) → IsSound states.Comment words
        → TakesChar states.Comment result words words place c }
{
    match kind_of(c) {
        CharKind::Newline => State::Outside,
        _ => State::Comment,
    }
}

/// The next character, which begins at this byte.
pub fn after_char(
    alloc: Global,
    words: &mut WordList,
    state: State,
    place: usize,
    c: char,
) -> Mem<State>
    requires { IsSound state words.old }
    ensures { IfOk result (λ next. TakesChar state next words.old words.new place c) }
{
    match state {
        State::Outside => after_outside(alloc, words, place, c),
        State::Escape => after_escape(alloc, words, c),
        State::Comment => Ok(after_comment(c)),
        State::SingleQuotes(quote) => after_single(alloc, words, quote, c),
        State::DoubleQuotes(quote) => after_double(alloc, words, quote, c),
        State::DoubleQuotesEscape(quote) => after_double_escape(alloc, words, quote, c),
    }
}
