// The signs and words of the language.
ghost use lib.Pointwise.{pointwise};
ghost use Rattle.std.specs.Prelude.{◌≡◌, ◌≤◌, length, drop, nat_eq};
ghost use Rattle.run_filter.specs.Signs.{is_space, skip, is_word_byte, begins, begins_word, or_sign, and_sign};
ghost use Rattle.run_filter.specs.Signs.{not_sign};
ghost use Rattle.run_filter.specs.Signs.{is_name_byte, name_len, named_subject, meaning_of, sign_of, head_is_word_byte};

use crate::facts::Subject;
use crate::fault::FilterFault;

/// How the text of a predicate is to be matched.
#[derive(Clone, Copy)]
pub(crate) enum Sign {
    Contains,
    Equals,
    Glob,
    Regex,
}

/// What the name of a predicate means.
#[derive(Clone, Copy)]
pub(crate) enum Meaning {
    All,
    Nothing,
    Default,
    /// It asks for a subject, and matches so where no sign says how.
    Asks(Subject, Sign),
    /// It needs the graph of packages.
    Graph,
    Unknown,
}

fn is_space(byte: u8) -> bool
    ensures { result ≡ is_space byte }
{
    matches!(byte, b' ' | b'\t' | b'\n' | b'\r')
}

fn is_word_byte(byte: u8) -> bool
    ensures { result ≡ is_word_byte byte }
{
    matches!(byte, b'a'..=b'z' | b'A'..=b'Z' | b'0'..=b'9' | b'_')
}

fn is_name_byte(byte: u8) -> bool
    ensures { result ≡ is_name_byte byte }
{
    matches!(byte, b'a'..=b'z' | b'_')
}

/// The place of the first byte from here on that is no space.
pub(crate) fn skip(text: &[u8], at: usize) -> usize
    requires { at ≤ length text.now }
    ensures rest { drop result text.now ≡ skip (drop at text.now) }
    ensures start { at ≤ result }
    ensures end { result ≤ length text.now }
{
    let mut place = at;
    while place < text.len() && is_space(text[place]) {
        place += 1;
    }
    place
}

fn head_is_word_byte(rest: &[u8]) -> bool
    ensures { result ≡ head_is_word_byte rest.now }
{
    match rest {
        [] => false,
        [first, ..] => is_word_byte(*first),
    }
}

/// Whether a text begins with a sign.
pub(crate) fn begins(rest: &[u8], sign: &[u8]) -> bool
    ensures { result ≡ begins rest.now sign.now }
{
    rest.starts_with(sign)
}

// Whether a text begins with a word that ends there.
fn begins_word(rest: &[u8], word: &[u8]) -> bool
    ensures { result ≡ begins_word rest.now word.now }
{
    if rest.starts_with(word) {
        return !head_is_word_byte(&rest[word.len()..]);
    }
    false
}

/// The length of the sign between two operands of `or`, where one stands here.
#[tactic(auto, unfolding(crate::specs::Signs::or_sign))]
pub(crate) fn or_sign(rest: &[u8]) -> Result<Option<usize>, FilterFault>
    ensures { result ≡ or_sign rest.now }
{
    if begins(rest, b"||") {
        return Err(FilterFault::DoubledOr);
    }
    if begins_word(rest, b"OR") {
        return Err(FilterFault::CapitalOr);
    }
    if begins(rest, b"|") || begins(rest, b"+") {
        return Ok(Some(1));
    }
    if begins_word(rest, b"or") {
        return Ok(Some(2));
    }
    Ok(None)
}

/// The length of the sign between two operands of `and`, where one stands here, and whether it is `-`.
#[tactic(auto, unfolding(crate::specs::Signs::and_sign))]
pub(crate) fn and_sign(rest: &[u8]) -> Result<Option<(usize, bool)>, FilterFault>
    ensures { result ≡ and_sign rest.now }
{
    if begins(rest, b"&&") {
        return Err(FilterFault::DoubledAnd);
    }
    if begins_word(rest, b"AND") {
        return Err(FilterFault::CapitalAnd);
    }
    if begins(rest, b"&") {
        return Ok(Some((1, false)));
    }
    if begins(rest, b"-") {
        return Ok(Some((1, true)));
    }
    if begins_word(rest, b"and") {
        return Ok(Some((3, false)));
    }
    Ok(None)
}

/// The length of the sign of a negation, where one stands here.
#[tactic(auto, unfolding(crate::specs::Signs::not_sign))]
pub(crate) fn not_sign(rest: &[u8]) -> Result<Option<usize>, FilterFault>
    ensures { result ≡ not_sign rest.now }
{
    if begins_word(rest, b"NOT") {
        return Err(FilterFault::CapitalNot);
    }
    if begins(rest, b"!") {
        return Ok(Some(1));
    }
    if begins_word(rest, b"not") {
        return Ok(Some(3));
    }
    Ok(None)
}

/// The length of the name at the beginning of a text.
pub(crate) fn name_len(rest: &[u8]) -> usize
    ensures name { result ≡ name_len rest.now }
    ensures end { result ≤ length rest.now }
{
    let mut count = 0;
    while count < rest.len() && is_name_byte(rest[count]) {
        count += 1;
    }
    count
}

fn is_word(name: &[u8], word: &[u8]) -> bool
    ensures { result ≡ pointwise nat_eq name.now word.now }
{
    name == word
}

// What the name of a subject means.
#[tactic(auto, unfolding(crate::specs::Signs::named_subject))]
fn asks_of(name: &[u8]) -> Meaning
    ensures { result ≡ named_subject name.now }
{
    if is_word(name, b"test") {
        return Meaning::Asks(Subject::Test, Sign::Contains);
    }
    if is_word(name, b"package") {
        return Meaning::Asks(Subject::Package, Sign::Glob);
    }
    if is_word(name, b"binary") {
        return Meaning::Asks(Subject::Binary, Sign::Glob);
    }
    if is_word(name, b"binary_id") {
        return Meaning::Asks(Subject::BinaryId, Sign::Glob);
    }
    if is_word(name, b"kind") {
        return Meaning::Asks(Subject::Kind, Sign::Equals);
    }
    if is_word(name, b"platform") {
        return Meaning::Asks(Subject::Platform, Sign::Equals);
    }
    if is_word(name, b"group") {
        return Meaning::Asks(Subject::Group, Sign::Glob);
    }
    Meaning::Unknown
}

/// What a name means.
#[tactic(auto, unfolding(crate::specs::Signs::meaning_of))]
pub(crate) fn meaning_of(name: &[u8]) -> Meaning
    ensures { result ≡ meaning_of name.now }
{
    if is_word(name, b"all") {
        return Meaning::All;
    }
    if is_word(name, b"none") {
        return Meaning::Nothing;
    }
    if is_word(name, b"default") {
        return Meaning::Default;
    }
    if is_word(name, b"deps") {
        return Meaning::Graph;
    }
    if is_word(name, b"rdeps") {
        return Meaning::Graph;
    }
    asks_of(name)
}

/// The sign at the beginning of a text and its length; or else the usual one, which takes nothing.
#[tactic(auto, unfolding(crate::specs::Signs::sign_of))]
pub(crate) fn sign_of(usual: Sign, rest: &[u8]) -> (Sign, usize)
    ensures { result ≡ sign_of usual rest.now }
{
    let [first, ..] = rest else {
        return (usual, 0);
    };
    match *first {
        b'~' => (Sign::Contains, 1),
        b'=' => (Sign::Equals, 1),
        b'#' => (Sign::Glob, 1),
        b'/' => (Sign::Regex, 1),
        _ => (usual, 0),
    }
}
