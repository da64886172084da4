// Why a text is no filter.
ghost use Rattle.run_filter.specs.declared.fault.FilterError.TheVariants.{OutOfMemory};

use run_capture::OutOfMemory as NoMemory;
use std::alloc::{AllocError, AllocFailed};
use std::error::Error;
use std::fmt;
use std::fmt::{Display, Write};

/// What is wrong at a place of a text.
#[derive(Clone, Copy, Debug, Drop)]
pub enum FilterFault {
    DoubledOr,
    DoubledAnd,
    CapitalOr,
    CapitalAnd,
    CapitalNot,
    ExpectedFilter,
    UnknownFilter,
    NeedsGraph,
    ExpectedOpen,
    ExpectedClose,
    ExpectedEnd,
    TooDeep,
    Comma,
    UnknownEscape,
    OpenRegex,
    BadGlob,
    BadRegex,
    LargeRegex,
}

impl FilterFault {
    fn message(self) -> &'static str {
        match self {
            FilterFault::DoubledOr => "`||` is no operator: write `|`",
            FilterFault::DoubledAnd => "`&&` is no operator: write `&`",
            FilterFault::CapitalOr => "`OR` is no operator: write `or`",
            FilterFault::CapitalAnd => "`AND` is no operator: write `and`",
            FilterFault::CapitalNot => "`NOT` is no operator: write `not`",
            FilterFault::ExpectedFilter => "expected a filter, as `test(name)`",
            FilterFault::UnknownFilter => "unknown filter",
            FilterFault::NeedsGraph =>
                "the graph of packages isn't read, so `deps` and `rdeps` can't be",
            FilterFault::ExpectedOpen => "expected `(`",
            FilterFault::ExpectedClose => "expected `)`",
            FilterFault::ExpectedEnd => "expected an operator or the end",
            FilterFault::TooDeep => "more than 64 operands within one another",
            FilterFault::Comma => "a `,` is written `\\,`",
            FilterFault::UnknownEscape => "unknown escape",
            FilterFault::OpenRegex => "expected `/` at the end of the pattern",
            FilterFault::BadGlob => "the glob isn't well formed",
            FilterFault::BadRegex => "the regex isn't well formed",
            FilterFault::LargeRegex => "the regex is too large",
        }
    }
}

impl Display for FilterFault {
    fn fmt<W: Write>(&self, f: &mut fmt::Formatter<W>) -> fmt::Result {
        f.write_str(self.message())
    }
}

impl Error for FilterFault {}

/// A fault with its place in the text, in bytes; or want of memory.
#[derive(Clone, Copy, Debug, Drop, thiserror::Error)]
pub enum FilterError {
    #[error("at byte {place}: {fault}")]
    Wrong { place: usize, fault: FilterFault },
    #[error("out of memory")]
    OutOfMemory,
}

impl From<AllocError> for FilterError {
    ghost use Rattle.std.specs.Prelude.{◌≡◌};

    ghost from_gives = { λ _ e. e ≡ OutOfMemory };

    fn from(_: AllocError) -> FilterError {
        FilterError::OutOfMemory
    }
}

impl<T: Drop> From<AllocFailed<T>> for FilterError {
    ghost use Rattle.std.specs.Prelude.{◌≡◌};

    ghost from_gives = { λ _ e. e ≡ OutOfMemory };

    fn from(_: AllocFailed<T>) -> FilterError {
        FilterError::OutOfMemory
    }
}

impl From<NoMemory> for FilterError {
    ghost use Rattle.std.specs.Prelude.{◌≡◌};

    ghost from_gives = { λ _ e. e ≡ OutOfMemory };

    fn from(_: NoMemory) -> FilterError {
        FilterError::OutOfMemory
    }
}
