// The platform that tests run on, and whether a text names it.
ghost use Rattle.std.specs.Prelude.{◌≡◌, ◌≤◌, ◌<◌, ◌+◌, ◌∷◌, ◌++◌, length, nat_eq, IfOk};
ghost use Rattle.run_profile.specs.Platform.{closed, has_value, is_fact, items, all_or_any, joins, platform_names};
ghost use Rattle.run_profile.specs.Platform.{predicate, quoted_value};
ghost use Rattle.run_profile.specs.Platform.{whole_predicate};
ghost use lib.Pointwise.{pointwise};

use crate::errors::write_at;
use crate::scan::{ByteKind, after, is_at};
use run_capture::{List, Text};
use std::fmt;
use std::fmt::{Display, Write};

/// The platform that tests run on.
#[derive(Drop)]
pub struct Cfg {
    pub triple: Text,
    /// The lines of `rustc --print cfg`, as `unix` and `target_os="linux"`.
    pub facts: List<Text>,
}

/// Why a text is no platform. Places are bytes of the text, from 0.
#[derive(Clone, Copy, Drop)]
pub enum PlatformFault {
    /// What stands here, or the end, is not what may stand here.
    NotExpected { place: usize },
    /// Too many items and parentheses stand before this place.
    TooDeep { place: usize },
}

impl Display for PlatformFault {
    fn fmt<W: Write>(&self, f: &mut fmt::Formatter<W>) -> fmt::Result {
        match self {
            PlatformFault::NotExpected { place } => write_at(f, "not as expected at", *place),
            PlatformFault::TooDeep { place } => write_at(f, "too deep at", *place),
        }
    }
}

/// How many items and parentheses a predicate may have on the way to each of its ends.
pub const ROOM: usize = 128;

fn is_fact(facts: &[Text], name: &[u8]) -> bool
    ensures { result ≡ is_fact facts.now name.now }
{
    facts.iter().any(|fact| fact.as_bytes() == name)
}

// Whether a fact is that a name has a quoted value.
#[tactic(auto, using(crate::proofs::PlatformLemmas::says_parts, crate::proofs::PlatformLemmas::says_short, std::proofs::lemmas::List::take_rest))]
fn says(fact: &[u8], name: &[u8], quoted: &[u8]) -> bool
    ensures { result ≡ pointwise nat_eq fact.now (name.now ++ 61 ∷ quoted.now) }
{
    let end = name.len();
    if fact.len() <= end {
        return false;
    }
    if &fact[..end] != name {
        return false;
    }
    if fact[end] != b'=' {
        return false;
    }
    &fact[end + 1..] == quoted
}

fn has_value(facts: &[Text], name: &[u8], quoted: &[u8]) -> bool
    ensures { result ≡ has_value facts.now name.now quoted.now }
{
    facts.iter().any(|fact| says(fact.as_bytes(), name, quoted))
}

fn closed(text: &[u8], truth: bool, at: usize) -> Result<(bool, usize), PlatformFault>
    ensures read { result ≡ closed text.now truth at }
    ensures end { IfOk result (λ read. read.1 ≤ length text.now) }
{
    if is_at(text, at, b')') {
        Ok((truth, after(ByteKind::Space, text, at + 1)))
    } else {
        Err(PlatformFault::NotExpected { place: at })
    }
}

// Whether a name has the value that stands in double quotes here.
fn valued(
    facts: &[Text],
    text: &[u8],
    name: &[u8],
    at: usize,
) -> Result<(bool, usize), PlatformFault>
    ensures read { result ≡ quoted_value facts.now text.now name.now at }
    ensures end { IfOk result (λ read. read.1 ≤ length text.now) }
{
    if !is_at(text, at, b'"') {
        return Err(PlatformFault::NotExpected { place: at });
    }
    let end = after(ByteKind::Quoted, text, at + 1);
    if !is_at(text, end, b'"') {
        return Err(PlatformFault::NotExpected { place: end });
    }
    let truth = has_value(facts, name, &text[at..end + 1]);
    Ok((truth, after(ByteKind::Space, text, end + 1)))
}

fn combined(all: bool, first: bool, others: bool) -> bool
    ensures { result ≡ all_or_any all first others }
{
    if all {
        first && others
    } else {
        first || others
    }
}

// Whether a word joins predicates: by `all`, or by `any`.
fn joins(name: &[u8]) -> Option<bool>
    ensures { result ≡ joins name.now }
{
    if name == b"all".as_slice() {
        Some(true)
    } else if name == b"any".as_slice() {
        Some(false)
    } else {
        None
    }
}

#[cycle(predicates)]
#[tactic(auto, using(crate::proofs::PlatformLemmas::predicate_named))]
fn predicate(
    facts: &[Text],
    text: &[u8],
    at: usize,
    room: usize,
) -> Result<(bool, usize), PlatformFault>
    requires { at ≤ length text.now }
    ensures read { result ≡ predicate room facts.now text.now at }
    ensures end { IfOk result (λ read. read.1 ≤ length text.now) }
{
    if room == 0 {
        return Err(PlatformFault::TooDeep { place: at });
    }
    let start = after(ByteKind::Space, text, at);
    let end = after(ByteKind::Name, text, start);
    let next = after(ByteKind::Space, text, end);
    if end == start {
        return Err(PlatformFault::NotExpected { place: start });
    }
    let name = &text[start..end];
    if is_at(text, next, b'=') {
        return valued(facts, text, name, after(ByteKind::Space, text, next + 1));
    }
    if !is_at(text, next, b'(') {
        return Ok((is_fact(facts, name), next));
    }
    if name == b"not".as_slice() {
        let (inner, end) = predicate(facts, text, next + 1, room - 1)?;
        return closed(text, !inner, end);
    }
    match joins(name) {
        Some(all) => items(facts, text, all, next + 1, room - 1),
        None => Err(PlatformFault::NotExpected { place: start }),
    }
}

#[cycle(predicates)]
fn items(
    facts: &[Text],
    text: &[u8],
    all: bool,
    at: usize,
    room: usize,
) -> Result<(bool, usize), PlatformFault>
    requires { at ≤ length text.now }
    ensures read { result ≡ items room all facts.now text.now at }
    ensures end { IfOk result (λ read. read.1 ≤ length text.now) }
{
    if room == 0 {
        return Err(PlatformFault::TooDeep { place: at });
    }
    let place = after(ByteKind::Space, text, at);
    if is_at(text, place, b')') {
        return Ok((all, after(ByteKind::Space, text, place + 1)));
    }
    let (first, next) = predicate(facts, text, place, room - 1)?;
    if !is_at(text, next, b',') {
        return closed(text, first, next);
    }
    let (others, end) = items(facts, text, all, next + 1, room - 1)?;
    Ok((combined(all, first, others), end))
}

// A predicate after `cfg(`, with nothing after the parenthesis that closes it.
fn whole_predicate(facts: &[Text], text: &[u8], room: usize) -> Result<bool, PlatformFault>
    requires { 4 ≤ length text.now }
    ensures { result ≡ whole_predicate room facts.now text.now }
{
    let (truth, end) = predicate(facts, text, 4, room)?;
    if is_at(text, end, b')') && end + 1 == text.len() {
        Ok(truth)
    } else {
        Err(PlatformFault::NotExpected { place: end })
    }
}

#[tactic(auto, unfolding(crate::specs::Platform::platform_names))]
fn holds_within(cfg: &Cfg, text: &[u8], room: usize) -> Result<bool, PlatformFault>
    ensures { result ≡ platform_names room cfg.now text.now }
{
    if text.starts_with(b"cfg(") {
        whole_predicate(cfg.facts.as_slice(), text, room)
    } else {
        Ok(text == cfg.triple.as_bytes())
    }
}

/// Whether a text names the platform: it is its triple, or `cfg(..)` with a predicate that holds of it. A predicate is
/// a name, a name with a value, or `not`, `all` or `any` of predicates.
pub fn platform_holds(cfg: &Cfg, text: &str) -> Result<bool, PlatformFault>
    ensures { result ≡ platform_names ROOM cfg.now text.now }
{
    holds_within(cfg, text.as_bytes(), ROOM)
}
