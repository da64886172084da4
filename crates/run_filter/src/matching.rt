// Whether a glob fits a text: from each star on at the first place where the pieces before the next star stand.
ghost use Rattle.std.specs.Prelude.{◌≡◌, [], ◌∷◌, MatchOption};
ghost use Rattle.std.specs.Str.{chars};
ghost use Rattle.std.specs.List.{list_any};
ghost use Rattle.run_filter.specs.declared.glob.Piece.TheVariants.{Star};
ghost use Rattle.run_filter.specs.Globs.{fits, fits_some};
ghost use Rattle.run_filter.specs.Walks.{Walks};

use crate::glob::{Glob, Piece};
use run_capture::List;

/// Where the pieces before the first star lead.
pub(crate) enum Walk<'a> {
    /// They don't stand at the beginning of the text, or there is no star and more text.
    Misses,
    /// There is no star, and they are the text.
    Fits,
    /// To a star: the pieces after it, and the text from there on.
    AtStar(&'a [Piece], &'a str),
}

// The first character of a text, and the rest.
pub(crate) fn first_char(text: &str) -> Option<(char, &str)>
    ensures { MatchOption result (chars text.now ≡ []) (λ r. chars text.now ≡ r.0 ∷ chars r.1.now) }
{
    let mut all = text.chars();
    let first = all.next()?;
    Some((first, all.as_str()))
}

// Goes along the pieces up to the first star.
fn walk_to_star<'a>(mut pieces: &'a [Piece], mut text: &'a str) -> Walk<'a>
    ensures { Walks result pieces.entry.now (chars text.entry.now) }
{
    while let [piece, rest @ ..] = pieces {
        if let Piece::Star = piece {
            return Walk::AtStar(rest, text);
        }
        match first_char(text) {
            Some((c, after)) if piece.takes(c) => {
                pieces = rest;
                text = after;
            }
            _ => return Walk::Misses,
        }
    }
    match first_char(text) {
        None => Walk::Fits,
        Some(_) => Walk::Misses,
    }
}

// Whether the pieces fit the text from some place on.
fn fits_after_star<'a>(mut pieces: &'a [Piece], mut text: &'a str) -> bool
    ensures { result ≡ fits (Star ∷ pieces.entry.now) (chars text.entry.now) }
{
    loop {
        match walk_to_star(pieces, text) {
            Walk::Fits => return true,
            Walk::AtStar(rest, left) => {
                pieces = rest;
                text = left;
            }
            Walk::Misses => match first_char(text) {
                Some((_, rest)) => text = rest,
                None => return false,
            },
        }
    }
}

fn fits(pieces: &[Piece], text: &str) -> bool
    ensures { result ≡ fits pieces.now (chars text.now) }
{
    match walk_to_star(pieces, text) {
        Walk::Fits => true,
        Walk::Misses => false,
        Walk::AtStar(rest, left) => fits_after_star(rest, left),
    }
}

impl Glob {
    /// Whether the glob fits the whole text. Takes time in the product of their lengths at most, and no memory.
    pub fn fits(&self, text: &str) -> bool
        ensures { result ≡ fits_some self.now (chars text.now) }
    {
        self.alternatives
            .as_slice()
            .iter()
            .any(|pieces: &List<Piece>| fits(pieces.as_slice(), text))
    }
}
