// A text, which contracts see as the list of its bytes.
ghost use Rattle.std.specs.Prelude.{◌≡◌, ◌++◌, ◌==◌, length, string_bytes, decimal, IfOk, IfSome, OnOk, OnErr};

use crate::{Duplicate, Mem};
use arrayvec::ArrayString;
use itoa::Buffer;
use std::alloc::Global;
use std::cmp::Ordering;
use std::fmt;
use std::fmt::{Debug, Write};
use std::hash::{Hash, Hasher};
use std::marker::Model;

/// Where the bytes of a text lie.
#[derive(Drop)]
enum Bytes {
    /// In the text itself.
    Short(ArrayString<24>),
    /// In memory of their own.
    Long(String),
}

/// A text in UTF-8. A short one takes no memory beside itself.
#[derive(Drop)]
pub struct Text {
    bytes: Bytes,
}

impl Model for Text {
    ghost use Rattle.std.specs.Prelude.{List, ℕ};
    ghost use Rattle.run_capture.specs.Held.{text_held};

    ghost Value = { List ℕ };

    ghost view = { λ t. text_held t.bytes };
}

// A text that fits beside its length.
fn short_of(text: &str) -> Option<ArrayString<24>>
    ensures { IfSome result (λ short. short.bytes ≡ text.now) }
{
    match ArrayString::from(text) {
        Ok(short) => Some(short),
        Err(_) => None,
    }
}

impl Text {
    /// Copies a `str`.
    pub fn from_str(alloc: Global, text: &str) -> Mem<Text>
        ensures { IfOk result (λ t. t ≡ text.now) }
    {
        let bytes = match short_of(text) {
            Some(short) => Bytes::Short(short),
            None => Bytes::Long(String::from_str(alloc, text)?),
        };
        Ok(Text { bytes })
    }

    /// Takes a `String`, and no memory.
    pub fn from_string(string: String) -> Text
        ensures { result ≡ string_bytes string }
    {
        let bytes = match short_of(string.as_str()) {
            Some(short) => Bytes::Short(short),
            None => Bytes::Long(string),
        };
        Text { bytes }
    }

    /// A number in decimal digits.
    pub fn from_number(alloc: Global, number: u32) -> Mem<Text>
        ensures { IfOk result (λ t. t ≡ decimal number) }
    {
        let mut digits = Buffer::new();
        Text::from_str(alloc, digits.format(number))
    }

    pub fn as_str(&self) -> &str
        ensures { result.now ≡ self.now }
    {
        match &self.bytes {
            Bytes::Short(short) => short.as_str(),
            Bytes::Long(string) => string.as_str(),
        }
    }

    pub fn as_bytes(&self) -> &[u8]
        ensures { result.now ≡ self.now }
    {
        self.as_str().as_bytes()
    }

    pub fn len(&self) -> usize
        ensures { result ≡ length self.now }
    {
        self.as_str().len()
    }

    pub fn is_empty(&self) -> bool
        ensures { result ≡ (length self.now == 0) }
    {
        self.as_str().is_empty()
    }

    /// Adds a `str` at the end.
    pub fn push_str(&mut self, alloc: Global, text: &str) -> Mem<()>
        ensures ok { OnOk result (self.new ≡ self.old ++ text.now) }
        ensures err { OnErr result (self.new ≡ self.old) }
    {
        if let Bytes::Long(string) = &mut self.bytes {
            string.push_str(text)?;
            return Ok(());
        }
        let mut string = String::from_str(alloc, self.as_str())?;
        string.push_str(text)?;
        self.bytes = Bytes::Long(string);
        Ok(())
    }
}

impl Debug for Text {
    fn fmt<W: Write>(&self, f: &mut fmt::Formatter<W>) -> fmt::Result {
        Debug::fmt(self.as_str(), f)
    }
}

impl Duplicate for Text {
    fn copy(&self, alloc: Global) -> Mem<Text> {
        let bytes = match &self.bytes {
            Bytes::Short(short) => Bytes::Short(*short),
            Bytes::Long(string) => Bytes::Long(String::from_str(alloc, string.as_str())?),
        };
        Ok(Text { bytes })
    }
}

/// Whether two texts have the same bytes.
impl PartialEq for Text {
    ghost use Rattle.std.specs.Prelude.{nat_eq};
    ghost use lib.Pointwise.{pointwise};
    ghost use Rattle.std.specs.Cmp.{partial_equiv_from_equiv};
    ghost use Rattle.std.specs.Cmp.Lexicographic.{nat_list_eq_equiv};

    ghost eq = { pointwise nat_eq };

    ghost laws = { partial_equiv_from_equiv nat_list_eq_equiv };

    fn eq(&self, other: &Text) -> bool {
        self.as_bytes() == other.as_bytes()
    }
}

impl Eq for Text {
    ghost use Rattle.std.specs.Cmp.Lexicographic.{nat_list_eq_equiv};

    ghost laws = { nat_list_eq_equiv };
}

/// Texts are ordered by their bytes, from the first on.
impl PartialOrd for Text {
    ghost use Rattle.std.specs.Prelude.{Some};
    ghost use Rattle.std.specs.Ordering.{nat_cmp};
    ghost use Rattle.std.specs.Cmp.Lexicographic.{slice_cmp, texts_po};

    ghost partial_cmp = { λ s t. Some (slice_cmp nat_cmp s t) };

    ghost laws = { texts_po };

    fn partial_cmp(&self, other: &Text) -> Option<Ordering> {
        Some(self.cmp(other))
    }
}

impl Ord for Text {
    ghost use Rattle.std.specs.Prelude.{refl};
    ghost use Rattle.std.specs.Ordering.{nat_cmp};
    ghost use Rattle.std.specs.Cmp.Lexicographic.{slice_cmp, nat_list_cmp_total, texts_ties};

    ghost cmp = { slice_cmp nat_cmp };

    ghost total = { nat_list_cmp_total };

    ghost matches_partial_cmp = { λ s t. refl };

    ghost matches_eq = { texts_ties };

    fn cmp(&self, other: &Text) -> Ordering {
        self.as_str().cmp(other.as_str())
    }
}

impl Hash for Text {
    ghost use Rattle.std.specs.Hash.{str as fed_text};
    ghost use Rattle.std.specs.Cmp.Rules.{hashing};
    ghost use Rattle.std.proofs.Common.{rules};

    ghost hash_input = { λ t. fed_text t };

    ghost respects_eq = { Prim.search (hashing, rules) };

    fn hash<H: Hasher>(&self, state: &mut H) {
        self.as_str().hash(state);
    }
}
