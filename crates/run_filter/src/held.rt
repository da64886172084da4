// Of which tests a filter holds.
ghost use lib.Pointwise.{pointwise};
ghost use Rattle.std.specs.Prelude.{◌≡◌, ◌&&◌, ◌||◌, not, List, map, zip, nat_eq, IfOk};
ghost use Rattle.std.specs.Str.{chars};
ghost use Rattle.run_filter.specs.Globs.{fits_some};
ghost use Rattle.run_filter.specs.declared.facts.Facts.{Facts};
ghost use Rattle.run_filter.specs.declared.filter.Matcher.TheVariants.{Regex};
ghost use Rattle.run_filter.specs.Tree.{Tree, tree_of, is, negation, both, either};
ghost use Rattle.run_filter.specs.Holds.{fact_of, stands_in};
ghost use Rattle.run_filter.specs.Held.{Maps, HoldsOfTests, HoldsByText};

use crate::facts::{Facts, Subject};
use crate::fault::FilterError;
use crate::filter::{Filter, Matcher};
use crate::glob::Glob;
use crate::operators::read_filter;
use crate::regexes::{build_regex, regex_held};
use std::alloc::{AllocError, Global};

fn has_part(text: &str, part: &str) -> bool
    ensures { result ≡ stands_in part.now text.now }
{
    text.contains(part)
}

// Of each test whether a filter holds of it.
type Held = Result<Vec<bool>, FilterError>;

fn same_for_each(alloc: Global, answer: bool, tests: &[Facts<'_>]) -> Held
    ensures { Maps result tests.now (λ facts. answer) }
{
    Ok(tests.iter().map(|_| answer).collect(alloc)?)
}

fn default_held(alloc: Global, tests: &[Facts<'_>]) -> Held
    ensures { Maps result tests.now (λ facts. facts.in_default) }
{
    Ok(tests.iter().map(|facts| facts.in_default).collect(alloc)?)
}

fn part_held(alloc: Global, subject: Subject, part: &str, tests: &[Facts<'_>]) -> Held
    ensures { Maps result tests.now (λ facts. stands_in part.now (fact_of subject facts)) }
{
    Ok(
        tests
            .iter()
            .map(|facts| has_part(facts.get(subject), part))
            .collect(alloc)?,
    )
}

fn text_held(alloc: Global, subject: Subject, text: &str, tests: &[Facts<'_>]) -> Held
    ensures { Maps result tests.now (λ facts. pointwise nat_eq (fact_of subject facts) text.now) }
{
    Ok(
        tests
            .iter()
            .map(|facts| facts.get(subject) == text)
            .collect(alloc)?,
    )
}

fn glob_held(alloc: Global, subject: Subject, glob: &Glob, tests: &[Facts<'_>]) -> Held
    ensures { Maps result tests.now (λ facts. fits_some glob.now (chars (fact_of subject facts))) }
{
    Ok(
        tests
            .iter()
            .map(|facts| glob.fits(facts.get(subject)))
            .collect(alloc)?,
    )
}

// Builds a regex, and matches it with what it asks of each test.
fn pattern_held(
    alloc: Global,
    subject: Subject,
    place: usize,
    pattern: &str,
    tests: &[Facts<'_>],
) -> Held
    ensures { HoldsOfTests result (is subject (Regex place pattern.now)) tests.now }
{
    match build_regex(alloc, pattern, place) {
        Ok(regex) => {
            let held = regex_held(alloc, &regex, subject, tests);
            drop(regex);
            Ok(held?)
        }
        Err(error) => Err(error),
    }
}

fn not_each(alloc: Global, held: &[bool]) -> Result<Vec<bool>, AllocError>
    ensures { IfOk result (λ opposite. opposite.items ≡ map (λ b. not b) held.now) }
{
    held.iter().map(|b| !*b).collect(alloc)
}

fn and_each(alloc: Global, first: &[bool], second: &[bool]) -> Result<Vec<bool>, AllocError>
    ensures { IfOk result (λ held. held.items ≡ map (λ p. p.0 && p.1) (zip first.now second.now)) }
{
    first
        .iter()
        .zip(second)
        .map(|(a, b)| *a && *b)
        .collect(alloc)
}

fn or_each(alloc: Global, first: &[bool], second: &[bool]) -> Result<Vec<bool>, AllocError>
    ensures { IfOk result (λ held. held.items ≡ map (λ p. p.0 || p.1) (zip first.now second.now)) }
{
    first
        .iter()
        .zip(second)
        .map(|(a, b)| *a || *b)
        .collect(alloc)
}

fn not_held(alloc: Global, held: Held) -> Held
    ensures { (t : Tree) (tests : List Facts) → HoldsOfTests held t tests → HoldsOfTests result (negation t) tests }
{
    match held {
        Ok(held) => Ok(not_each(alloc, held.as_slice())?),
        Err(error) => Err(error),
    }
}

fn and_held(alloc: Global, first: Held, second: Held) -> Held
    ensures { (t u : Tree) (tests : List Facts) → HoldsOfTests first t tests → HoldsOfTests second u tests
        → HoldsOfTests result (both t u) tests }
{
    match (first, second) {
        (Ok(first), Ok(second)) => Ok(and_each(alloc, first.as_slice(), second.as_slice())?),
        (Err(error), _) | (_, Err(error)) => Err(error),
    }
}

fn or_held(alloc: Global, first: Held, second: Held) -> Held
    ensures { (t u : Tree) (tests : List Facts) → HoldsOfTests first t tests → HoldsOfTests second u tests
        → HoldsOfTests result (either t u) tests }
{
    match (first, second) {
        (Ok(first), Ok(second)) => Ok(or_each(alloc, first.as_slice(), second.as_slice())?),
        (Err(error), _) | (_, Err(error)) => Err(error),
    }
}

// Of each test whether a matcher matches what it asks for.
fn matcher_held(alloc: Global, subject: Subject, matcher: &Matcher, tests: &[Facts<'_>]) -> Held
    ensures { HoldsOfTests result (is subject matcher.now) tests.now }
{
    match matcher {
        Matcher::Contains(part) => part_held(alloc, subject, part.as_str(), tests),
        Matcher::Equals(text) => text_held(alloc, subject, text.as_str(), tests),
        Matcher::Glob(glob) => glob_held(alloc, subject, glob, tests),
        Matcher::Regex { place, pattern } => pattern_held(
            alloc,
            subject,
            *place,
            pattern.as_str(),
            tests,
        ),
    }
}

/// Of each test whether a filter holds of it. Builds each regex once, and matches it with what it asks of each test.
///
/// If a regex is refused, the error has the place of its pattern in the filter's text.
pub fn tests_held(
    alloc: Global,
    filter: &Filter,
    tests: &[Facts<'_>],
) -> Result<Vec<bool>, FilterError>
    ensures { HoldsOfTests result (tree_of filter.now) tests.now }
{
    match filter {
        Filter::All => same_for_each(alloc, true, tests),
        Filter::Nothing => same_for_each(alloc, false, tests),
        Filter::Default => default_held(alloc, tests),
        Filter::Is { subject, matcher } => matcher_held(alloc, *subject, matcher, tests),
        Filter::Not(inner) => not_held(alloc, tests_held(alloc, inner, tests)),
        Filter::And(left, right) => {
            let first = tests_held(alloc, left, tests);
            and_held(alloc, first, tests_held(alloc, right, tests))
        }
        Filter::Or(left, right) => {
            let first = tests_held(alloc, left, tests);
            or_held(alloc, first, tests_held(alloc, right, tests))
        }
    }
}

/// Reads a text as a filter, and says of each test whether it holds of it.
///
/// If the text is no filter, or a regex in it is refused, the error says what is wrong and at which byte.
pub fn held_by_text(
    alloc: Global,
    text: &str,
    tests: &[Facts<'_>],
) -> Result<Vec<bool>, FilterError>
    ensures { HoldsByText result text.now tests.now }
{
    match read_filter(alloc, text) {
        Ok(filter) => {
            let held = tests_held(alloc, &filter, tests);
            drop(filter);
            held
        }
        Err(error) => Err(error),
    }
}
