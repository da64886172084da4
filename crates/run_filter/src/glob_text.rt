// Reads the text of a glob.
ghost use Rattle.std.specs.Prelude.{◌≡◌, length, drop, IfOk};
ghost use Rattle.std.specs.Str.{chars};
ghost use Rattle.run_filter.specs.GlobText.{escaped_piece, first_piece, glob_of, items_of};

use crate::class_text::{beyond, class_piece};
use crate::glob::{Glob, Piece};
use run_capture::{List, Mem};
use std::alloc::Global;

fn escaped_piece(rest: &[char]) -> Option<(Piece, usize)>
    ensures { result ≡ escaped_piece rest.now }
{
    match rest {
        [] => None,
        [c, ..] => Some((Piece::Char(*c), 2)),
    }
}

// The piece that a text begins with, and how many characters it takes.
#[tactic(auto, unfolding(crate::specs::GlobText::first_piece))]
fn piece_of(alloc: Global, text: &[char]) -> Mem<Option<(Piece, usize)>>
    ensures { IfOk result (λ r. r ≡ first_piece text.now) }
{
    let [c, rest @ ..] = text else {
        return Ok(None);
    };
    match *c {
        '\\' => Ok(escaped_piece(rest)),
        '?' => Ok(Some((Piece::AnyChar, 1))),
        '*' => Ok(Some((Piece::Star, 1))),
        '[' => class_piece(alloc, rest),
        '{' | '}' => Ok(None),
        c => Ok(Some((Piece::Char(c), 1))),
    }
}

// The pieces of a text, if it is a glob.
fn pieces_of(alloc: Global, text: &[char]) -> Mem<Option<List<Piece>>>
    ensures { IfOk result (λ r. r ≡ items_of first_piece (length text.now) text.now) }
{
    let mut pieces = List::new();
    let mut rest = text;
    let mut fuel = text.len();
    while fuel > 0 {
        fuel -= 1;
        if rest.is_empty() {
            return Ok(Some(pieces));
        }
        let read = piece_of(alloc, rest)?;
        let Some((piece, count)) = read else {
            return Ok(None);
        };
        pieces.push(alloc, piece)?;
        rest = beyond(rest, count);
    }
    Ok(Some(pieces))
}

/// The glob that a text is, if it is one.
#[tactic(auto, unfolding(crate::specs::GlobText::glob_of))]
pub(crate) fn glob_of(alloc: Global, text: &str) -> Mem<Option<Glob>>
    ensures { IfOk result (λ r. r ≡ glob_of (chars text.now)) }
{
    let chars = characters(alloc, text)?;
    let Some(pieces) = pieces_of(alloc, chars.as_slice())? else {
        return Ok(None);
    };
    let mut alternatives = List::new();
    alternatives.push(alloc, pieces)?;
    Ok(Some(Glob { alternatives }))
}

fn characters(alloc: Global, text: &str) -> Mem<Vec<char>>
    ensures { IfOk result (λ v. v.items ≡ chars text.now) }
{
    Ok(text.chars().collect(alloc)?)
}
