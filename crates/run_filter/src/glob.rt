// A glob: what it is made of.
ghost use Rattle.std.specs.Prelude.{◌≡◌};
ghost use Rattle.run_filter.specs.Globs.{is_within, takes};

use run_capture::List;

/// The characters from one to another, both among them.
#[derive(Clone, Copy, Drop)]
pub struct Range {
    pub first: char,
    pub last: char,
}

/// One piece of a glob.
#[derive(Drop)]
pub enum Piece {
    /// This character.
    Char(char),
    /// `?`: any character.
    AnyChar,
    /// `*`: any characters, or none.
    Star,
    /// `[..]`: a character of some range, or where `negated` of no range.
    Class { negated: bool, ranges: List<Range> },
}

/// A glob: it fits what one of its alternatives fits.
#[derive(Drop)]
pub struct Glob {
    pub alternatives: List<List<Piece>>,
}

fn is_within(ranges: &[Range], c: char) -> bool
    ensures { result ≡ is_within ranges.now c }
{
    ranges
        .iter()
        .any(|range| range.first <= c && c <= range.last)
}

impl Piece {
    /// Whether the piece is one character, and this one.
    pub(crate) fn takes(&self, c: char) -> bool
        ensures { result ≡ takes self.now c }
    {
        match self {
            Piece::Char(own) => *own == c,
            Piece::AnyChar => true,
            Piece::Star => false,
            Piece::Class { negated, ranges } => is_within(ranges.as_slice(), c) != *negated,
        }
    }
}
