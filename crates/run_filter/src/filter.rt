// A filter of tests.

use crate::facts::Subject;
use crate::glob::Glob;
use run_capture::Text;

/// How a predicate matches what it asks for.
#[derive(Drop)]
pub enum Matcher {
    /// `~`: the text stands somewhere in it.
    Contains(Text),
    /// `=`: it is the text.
    Equals(Text),
    /// `#`: the glob fits it.
    Glob(Glob),
    /// `/../`: the regex matches somewhere in it. `place` is that of the pattern in the filter's text, in bytes.
    Regex { place: usize, pattern: Text },
}

/// A filter of tests.
#[derive(Drop)]
pub enum Filter {
    /// `all()`
    All,
    /// `none()`
    Nothing,
    /// `default()`: the profile's default filter.
    Default,
    Is { subject: Subject, matcher: Matcher },
    Not(Box<Filter>),
    And(Box<Filter>, Box<Filter>),
    Or(Box<Filter>, Box<Filter>),
}
