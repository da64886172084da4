// Builds the regexes of filters, and matches them.
ghost use Rattle.std.specs.Prelude.{◌≡◌, ◌≢◌, map, IfOk, IfErr};
ghost use Rattle.run_filter.specs.Holds.{fact_of, IsRegexOf, is_found};
ghost use Rattle.run_filter.specs.Regexes.{IsPatternRefused};

use crate::facts::{Facts, Subject};
use crate::fault::{FilterError, FilterFault};
use regex::{Error, Regex};
use run_capture::Mem;
use std::alloc::Global;

/// Builds the regex of a pattern, which stands at a place of a filter's text.
pub(crate) fn build_regex(alloc: Global, pattern: &str, place: usize) -> Result<Regex, FilterError>
    ensures ok { IfOk result (IsRegexOf pattern.now) }
    ensures err { IfErr result (IsPatternRefused pattern.now place) }
{
    match Regex::new(alloc, pattern) {
        Ok(regex) => Ok(regex),
        Err(Error::OutOfMemory) => Err(FilterError::OutOfMemory),
        Err(Error::Syntax(_)) => Err(FilterError::Wrong {
            place,
            fault: FilterFault::BadRegex,
        }),
        Err(_) => Err(FilterError::Wrong {
            place,
            fault: FilterFault::LargeRegex,
        }),
    }
}

/// Of each test whether a regex matches somewhere in what it is called under a subject.
pub(crate) fn regex_held(
    alloc: Global,
    regex: &Regex,
    subject: Subject,
    tests: &[Facts<'_>],
) -> Mem<Vec<bool>>
    ensures { IfOk result (λ held. held.items ≡ map (λ facts. is_found regex.now (fact_of subject facts)) tests.now) }
{
    let mut matcher = regex.matcher(alloc)?;
    let mut held = Vec::with_capacity(alloc, tests.len())?;
    for facts in tests {
        held.push(matcher.is_match(facts.get(subject)))?;
    }
    Ok(held)
}
