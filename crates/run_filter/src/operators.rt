// Reads the operators of the language, and whole texts.
ghost use Rattle.std.specs.Prelude.{◌≡◌, ◌≤◌, ◌-◌, length, IfOk, Ok, None};
ghost use Rattle.run_filter.specs.Tree.{tree_of, both, either, negation};
ghost use Rattle.run_filter.specs.Grammar.{operand, after_not, and_chain, term, or_chain, filter, joined, IsFilterOf};
ghost use Rattle.run_filter.specs.Reads.{left_at, ReadsTree, StepsAlong};

use crate::fault::{FilterError, FilterFault};
use crate::filter::Filter;
use crate::places::{opens, past};
use crate::predicates::{closed, predicate};
use crate::signs::{and_sign, not_sign, or_sign, skip};
use std::alloc::{AllocError, Global};

/// What a step along a chain of operands read, and where what is left begins.
#[derive(Drop)]
pub(crate) enum Step {
    /// No sign stands here.
    Ends(Filter, usize),
    GoesOn(Filter, usize),
}

// How deep operands may lie within one another, and one more.
const DEPTH: usize = 65;

fn negated(alloc: Global, inner: Filter) -> Result<Filter, AllocError>
    ensures { IfOk result (λ f. tree_of f ≡ negation (tree_of inner)) }
{
    Ok(Filter::Not(Box::new(alloc, inner)?))
}

fn either(alloc: Global, first: Filter, second: Filter) -> Result<Filter, AllocError>
    ensures { IfOk result (λ f. tree_of f ≡ either (tree_of first) (tree_of second)) }
{
    let first = Box::new(alloc, first)?;
    let second = Box::new(alloc, second)?;
    Ok(Filter::Or(first, second))
}

fn both(alloc: Global, first: Filter, second: Filter) -> Result<Filter, AllocError>
    ensures { IfOk result (λ f. tree_of f ≡ both (tree_of first) (tree_of second)) }
{
    let first = Box::new(alloc, first)?;
    let second = Box::new(alloc, second)?;
    Ok(Filter::And(first, second))
}

// Two operands of `and`, where the sign between them may be `-`.
fn joined(
    alloc: Global,
    is_minus: bool,
    first: Filter,
    second: Filter,
) -> Result<Filter, AllocError>
    ensures { IfOk result (λ f. tree_of f ≡ joined is_minus (tree_of first) (tree_of second)) }
{
    if is_minus {
        let second = negated(alloc, second)?;
        return both(alloc, first, second);
    }
    both(alloc, first, second)
}

#[cycle(grammar)]
fn operand(
    alloc: Global,
    text: &[u8],
    next: usize,
    room: usize,
) -> Result<(Filter, usize), FilterError>
    requires { next ≤ length text.now }
    ensures { ReadsTree result text.now (operand room (left_at text.now next)) }
{
    if room == 0 {
        let fault = FilterFault::TooDeep;
        return Err(FilterError::Wrong { place: next, fault });
    }
    let at = skip(text, next);
    match not_sign(&text[at..]) {
        Err(fault) => Err(FilterError::Wrong { place: at, fault }),
        Ok(Some(count)) => {
            let place = past(text, at, count);
            match operand(alloc, text, place, room - 1) {
                Ok((inner, end)) => Ok((negated(alloc, inner)?, end)),
                Err(error) => Err(error),
            }
        }
        Ok(None) => unsigned(alloc, text, at, room - 1),
    }
}

// Reads a filter in parentheses, or a predicate.
#[cycle(grammar)]
fn unsigned(
    alloc: Global,
    text: &[u8],
    next: usize,
    room: usize,
) -> Result<(Filter, usize), FilterError>
    requires { next ≤ length text.now }
    ensures { ReadsTree result text.now (after_not (operand room) (left_at text.now next) (Ok None)) }
{
    if opens(&text[next..]) {
        let place = past(text, next, 1);
        return match filter(alloc, text, place, room) {
            Ok((inner, end)) => closed(text, inner, end),
            Err(error) => Err(error),
        };
    }
    predicate(alloc, text, next)
}

// Reads a sign of `and` after an operand, and the operand after it.
#[cycle(grammar)]
fn and_step(
    alloc: Global,
    text: &[u8],
    first: Filter,
    next: usize,
    room: usize,
) -> Result<Step, FilterError>
    requires { next ≤ length text.now }
    ensures { StepsAlong result text.now (and_chain (operand room)) (tree_of first) (left_at text.now next) }
{
    let at = skip(text, next);
    match and_sign(&text[at..]) {
        Err(fault) => {
            drop(first);
            Err(FilterError::Wrong { place: at, fault })
        }
        Ok(None) => Ok(Step::Ends(first, at)),
        Ok(Some((count, is_minus))) => {
            let place = past(text, at, count);
            match operand(alloc, text, place, room) {
                Ok((second, end)) => Ok(Step::GoesOn(joined(alloc, is_minus, first, second)?, end)),
                Err(error) => {
                    drop(first);
                    Err(error)
                }
            }
        }
    }
}

// Reads the signs of `and` after an operand, and the operands after them.
#[cycle(grammar)]
fn and_chain(
    alloc: Global,
    text: &[u8],
    start: Filter,
    next: usize,
    room: usize,
) -> Result<(Filter, usize), FilterError>
    requires { next ≤ length text.now }
    ensures { ReadsTree result text.now
        (and_chain (operand room) (length text.now - next) (tree_of start) (left_at text.now next)) }
{
    let mut fuel = text.len() - next;
    let mut first = start;
    let mut after = next;
    while fuel > 0 {
        fuel -= 1;
        match and_step(alloc, text, first, after, room) {
            Err(error) => return Err(error),
            Ok(Step::Ends(read, end)) => return Ok((read, end)),
            Ok(Step::GoesOn(read, end)) => {
                first = read;
                after = end;
            }
        }
    }
    Ok((first, after))
}

#[cycle(grammar)]
fn term(
    alloc: Global,
    text: &[u8],
    next: usize,
    room: usize,
) -> Result<(Filter, usize), FilterError>
    requires { next ≤ length text.now }
    ensures { ReadsTree result text.now (term (operand room) (left_at text.now next)) }
{
    match operand(alloc, text, next, room) {
        Ok((first, end)) => and_chain(alloc, text, first, end, room),
        Err(error) => Err(error),
    }
}

// Reads a sign of `or` after a term, and the term after it.
#[cycle(grammar)]
fn or_step(
    alloc: Global,
    text: &[u8],
    first: Filter,
    next: usize,
    room: usize,
) -> Result<Step, FilterError>
    requires { next ≤ length text.now }
    ensures { StepsAlong result text.now (or_chain (operand room)) (tree_of first) (left_at text.now next) }
{
    let at = skip(text, next);
    match or_sign(&text[at..]) {
        Err(fault) => {
            drop(first);
            Err(FilterError::Wrong { place: at, fault })
        }
        Ok(None) => Ok(Step::Ends(first, at)),
        Ok(Some(count)) => {
            let place = past(text, at, count);
            match term(alloc, text, place, room) {
                Ok((second, end)) => Ok(Step::GoesOn(either(alloc, first, second)?, end)),
                Err(error) => {
                    drop(first);
                    Err(error)
                }
            }
        }
    }
}

// Reads the signs of `or` after a term, and the terms after them.
#[cycle(grammar)]
fn or_chain(
    alloc: Global,
    text: &[u8],
    start: Filter,
    next: usize,
    room: usize,
) -> Result<(Filter, usize), FilterError>
    requires { next ≤ length text.now }
    ensures { ReadsTree result text.now
        (or_chain (operand room) (length text.now - next) (tree_of start) (left_at text.now next)) }
{
    let mut fuel = text.len() - next;
    let mut first = start;
    let mut after = next;
    while fuel > 0 {
        fuel -= 1;
        match or_step(alloc, text, first, after, room) {
            Err(error) => return Err(error),
            Ok(Step::Ends(read, end)) => return Ok((read, end)),
            Ok(Step::GoesOn(read, end)) => {
                first = read;
                after = end;
            }
        }
    }
    Ok((first, after))
}

#[cycle(grammar)]
fn filter(
    alloc: Global,
    text: &[u8],
    next: usize,
    room: usize,
) -> Result<(Filter, usize), FilterError>
    requires { next ≤ length text.now }
    ensures { ReadsTree result text.now (filter (operand room) (left_at text.now next)) }
{
    match term(alloc, text, next, room) {
        Ok((first, end)) => or_chain(alloc, text, first, end, room),
        Err(error) => Err(error),
    }
}

// Reads a filter from the bytes of its text.
fn whole_filter(alloc: Global, text: &[u8]) -> Result<Filter, FilterError>
    ensures { IsFilterOf text.now result }
{
    match filter(alloc, text, 0, DEPTH) {
        Ok((read, end)) => {
            let at = skip(text, end);
            if at < text.len() {
                drop(read);
                let fault = FilterFault::ExpectedEnd;
                return Err(FilterError::Wrong { place: at, fault });
            }
            Ok(read)
        }
        Err(error) => Err(error),
    }
}

/// Reads a filter from its text.
pub fn read_filter(alloc: Global, text: &str) -> Result<Filter, FilterError>
    ensures { IsFilterOf text.now result }
{
    whole_filter(alloc, text.as_bytes())
}
