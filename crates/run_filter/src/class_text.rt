// Reads the text of a class of characters, as `[a-z_]`.
ghost use Rattle.std.specs.Prelude.{◌≡◌, ◌≤◌, length, drop, not, ◌==◌, IfOk};
ghost use Rattle.std.specs.List.{prefix_len};
ghost use Rattle.run_filter.specs.GlobText.{class_len, class_of, class_piece, class_start, first_range, items_of};
ghost use Rattle.run_filter.specs.GlobText.{negates, one_char, range_between};

use crate::glob::{Piece, Range};
use run_capture::{List, Mem};
use std::alloc::Global;

/// The characters after so many.
pub(crate) fn beyond(text: &[char], count: usize) -> &[char]
    ensures { result.now ≡ drop count text.now }
{
    if count <= text.len() {
        &text[count..]
    } else {
        &[]
    }
}

fn range_between(first: char, last: char) -> Option<(Range, usize)>
    ensures { result ≡ range_between first last }
{
    if first <= last {
        Some((Range { first, last }, 3))
    } else {
        None
    }
}

fn one_char(c: char) -> Option<(Range, usize)>
    ensures { result ≡ one_char c }
{
    Some((Range { first: c, last: c }, 1))
}

// The range that a class begins with, and how many characters it takes.
#[tactic(auto, unfolding(crate::specs::GlobText::first_range))]
fn first_range(text: &[char]) -> Option<(Range, usize)>
    ensures { result ≡ first_range text.now }
{
    match text {
        [] => None,
        [a, b, c, ..] if *b == '-' => range_between(*a, *c),
        [a, ..] => one_char(*a),
    }
}

// The ranges of a text.
fn ranges_of(alloc: Global, text: &[char]) -> Mem<Option<List<Range>>>
    ensures { IfOk result (λ r. r ≡ items_of first_range (length text.now) text.now) }
{
    let mut ranges = List::new();
    let mut rest = text;
    let mut fuel = text.len();
    while fuel > 0 {
        fuel -= 1;
        if rest.is_empty() {
            return Ok(Some(ranges));
        }
        let Some((range, count)) = first_range(rest) else {
            return Ok(None);
        };
        ranges.push(alloc, range)?;
        rest = beyond(rest, count);
    }
    Ok(Some(ranges))
}

// How many characters stand before a `]`.
fn before_close(text: &[char]) -> usize
    ensures value { result ≡ prefix_len (λ d. not (d == 93)) text.now }
    ensures within { result ≤ length text.now }
{
    let mut count = 0usize;
    while count < text.len() && text[count] != ']' {
        count += 1;
    }
    count
}

fn class_len(text: &[char]) -> usize
    ensures { result ≡ class_len text.now }
{
    match text {
        [] => 0,
        [_, rest @ ..] => before_close(rest) + 1,
    }
}

fn negates(text: &[char]) -> bool
    ensures { result ≡ negates text.now }
{
    match text {
        [] => false,
        [c, ..] => *c == '!' || *c == '^',
    }
}

// The class whose text has so many characters before its `]`.
fn class_of(alloc: Global, text: &[char], body: &[char], len: usize) -> Mem<Option<(Piece, usize)>>
    ensures { IfOk result (λ r. r ≡ class_of text.now body.now len) }
{
    if body.len() <= len {
        return Ok(None);
    }
    let negated = negates(text);
    let taken = if negated { len + 3 } else { len + 2 };
    let ranges = ranges_of(alloc, &body[..len])?;
    match ranges {
        Some(ranges) => Ok(Some((Piece::Class { negated, ranges }, taken))),
        None => Ok(None),
    }
}

/// The class that follows a `[`, and how many characters it takes with that.
#[tactic(auto, unfolding(crate::specs::GlobText::class_piece))]
pub(crate) fn class_piece(alloc: Global, text: &[char]) -> Mem<Option<(Piece, usize)>>
    ensures { IfOk result (λ r. r ≡ class_piece text.now) }
{
    let start = if negates(text) { 1 } else { 0 };
    let body = beyond(text, start);
    class_of(alloc, text, body, class_len(body))
}
