// The bits of the text of a predicate: bytes that stand for themselves, and escapes.
ghost use Rattle.std.specs.Prelude.{◌≡◌, ◌++◌, OnOk, encode_utf8};
ghost use Rattle.run_filter.specs.Grammar.{byte_bit, escaped_byte, escape_bit, plain_bit, text_bit, regex_escape};
ghost use Rattle.run_filter.specs.Grammar.{regex_bit, bit_bytes, bit_of, unended_fault};

use crate::escapes::numbered_char;
use crate::fault::FilterFault;
use crate::places::closes;
use crate::signs::{Sign, skip};
use run_capture::{List, Mem};
use std::alloc::Global;

/// What a bit of a text says.
#[derive(Clone, Copy)]
pub(crate) enum Said {
    Byte(u8),
    /// A `\` and this byte, which a regex reads.
    Escape(u8),
    Char(char),
}

/// What is said, and by how many bytes of the text.
#[derive(Clone, Copy)]
pub(crate) struct Bit {
    pub said: Said,
    pub taken: usize,
}

fn byte_bit(byte: u8, taken: usize) -> Result<Option<Bit>, FilterFault>
    ensures { result ≡ byte_bit byte taken }
{
    let said = Said::Byte(byte);
    Ok(Some(Bit { said, taken }))
}

// The byte that is written as `\` and this one.
#[tactic(auto, unfolding(crate::specs::Grammar::escaped_byte))]
fn escaped(byte: u8) -> Option<u8>
    ensures { result ≡ escaped_byte byte }
{
    match byte {
        b'n' => Some(b'\n'),
        b'r' => Some(b'\r'),
        b't' => Some(b'\t'),
        b'\\' | b'/' | b'(' | b')' | b',' => Some(byte),
        _ => None,
    }
}

fn escape_bit(in_glob: bool, rest: &[u8]) -> Result<Option<Bit>, FilterFault>
    ensures { result ≡ escape_bit in_glob rest.now }
{
    let [byte, ..] = rest else {
        return Err(FilterFault::UnknownEscape);
    };
    if let Some(byte) = escaped(*byte) {
        return byte_bit(byte, 2);
    }
    if let Some((c, taken)) = numbered_char(rest) {
        let said = Said::Char(c);
        return Ok(Some(Bit { said, taken }));
    }
    if in_glob {
        return byte_bit(b'\\', 1);
    }
    Err(FilterFault::UnknownEscape)
}

fn plain_bit(in_glob: bool, text: &[u8]) -> Result<Option<Bit>, FilterFault>
    ensures { result ≡ plain_bit in_glob text.now }
{
    let [first, rest @ ..] = text else {
        return Err(FilterFault::ExpectedClose);
    };
    match *first {
        b',' => Err(FilterFault::Comma),
        b'\\' => escape_bit(in_glob, rest),
        byte => byte_bit(byte, 1),
    }
}

#[tactic(auto, unfolding(crate::specs::Grammar::text_bit))]
fn text_bit(in_glob: bool, text: &[u8]) -> Result<Option<Bit>, FilterFault>
    ensures { result ≡ text_bit in_glob text.now }
{
    let end = skip(text, 0);
    if closes(&text[end..]) {
        return Ok(None);
    }
    plain_bit(in_glob, text)
}

fn regex_escape(rest: &[u8]) -> Result<Option<Bit>, FilterFault>
    ensures { result ≡ regex_escape rest.now }
{
    let [byte, ..] = rest else {
        return Err(FilterFault::OpenRegex);
    };
    if *byte == b'/' {
        return byte_bit(b'/', 2);
    }
    let said = Said::Escape(*byte);
    Ok(Some(Bit { said, taken: 2 }))
}

#[tactic(auto, unfolding(crate::specs::Grammar::regex_bit))]
fn regex_bit(text: &[u8]) -> Result<Option<Bit>, FilterFault>
    ensures { result ≡ regex_bit text.now }
{
    let [first, rest @ ..] = text else {
        return Err(FilterFault::OpenRegex);
    };
    match *first {
        b'/' => Ok(None),
        b'\\' => regex_escape(rest),
        byte => byte_bit(byte, 1),
    }
}

/// The bit that a text begins with, or none where it ends here.
#[tactic(auto, unfolding(crate::specs::Grammar::bit_of))]
pub(crate) fn bit_of(sign: Sign, text: &[u8]) -> Result<Option<Bit>, FilterFault>
    ensures { result ≡ bit_of sign text.now }
{
    match sign {
        Sign::Contains | Sign::Equals => text_bit(false, text),
        Sign::Glob => text_bit(true, text),
        Sign::Regex => regex_bit(text),
    }
}

/// What is wrong with a text that doesn't end.
pub(crate) fn unended_fault(sign: Sign) -> FilterFault
    ensures { result ≡ unended_fault sign }
{
    match sign {
        Sign::Regex => FilterFault::OpenRegex,
        Sign::Contains | Sign::Equals | Sign::Glob => FilterFault::ExpectedClose,
    }
}

// Adds bytes at the end of others.
fn push_bytes(alloc: Global, bytes: &mut List<u8>, more: &[u8]) -> Mem<()>
    ensures { OnOk result (bytes.new ≡ bytes.old ++ more.now) }
{
    for byte in more {
        bytes.push(alloc, *byte)?;
    }
    Ok(())
}

fn push_char(alloc: Global, bytes: &mut List<u8>, c: char) -> Mem<()>
    ensures { OnOk result (bytes.new ≡ bytes.old ++ encode_utf8 c) }
{
    let mut room = [0u8; 4];
    push_bytes(alloc, bytes, c.encode_utf8(&mut room).as_bytes())
}

/// Adds the bytes of a bit.
pub(crate) fn push_bit(alloc: Global, bytes: &mut List<u8>, bit: Bit) -> Mem<()>
    ensures { OnOk result (bytes.new ≡ bytes.old ++ bit_bytes bit) }
{
    match bit.said {
        Said::Byte(byte) => bytes.push(alloc, byte),
        Said::Escape(byte) => push_bytes(alloc, bytes, &[b'\\', byte]),
        Said::Char(c) => push_char(alloc, bytes, c),
    }
}
