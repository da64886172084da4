// JSON in the making, a token at a time.
ghost use Rattle.std.specs.Prelude.{◌≡◌, [], ◌∷◌, ◌++◌, IfOk};
ghost use Rattle.std.specs.Str.{IsUtf8};
ghost use Rattle.serde_json.specs.Data.{boolean, string, null};
ghost use Rattle.json.specs.Token as token;
ghost use Rattle.json.specs.Print.{print};
ghost use Rattle.run_output.specs.Fields.{count, signed, line_bytes};
ghost use Rattle.run_output.specs.Printer.{Prints, data_tokens};
ghost use Rattle.run_output.specs.Texts.{bytes_data};
ghost use Rattle.hex.specs.Hex.{IsBytes};

use crate::line::Line;
use json::Writer;
use run_capture::{Blob, Mem, Text};
use std::alloc::Global;
use std::marker::Model;
use std::mem;

/// Appends tokens to a line, and places the commas and the colons.
#[derive(Drop)]
pub(crate) struct Printer {
    // Texts, each with the output whose hex stands after it.
    fronts: Vec<(Vec<u8>, Blob)>,
    out: Writer,
}

impl Model for Printer {
    ghost use Rattle.std.specs.Prelude.{◌≡◌, List, []};
    ghost use Rattle.json.specs.Token.{Token, tokens_code};
    ghost use Rattle.run_output.specs.Fronts.{joined, AreCut};

    ghost Value = { List Token };

    ghost coded = { tokens_code };

    ghost view = { λ p. joined p.fronts.items p.out.tokens };

    ghost invariant = { λ p. (p.out.before ≡ []) × AreCut p.fronts.items p.out.tokens };
}

// What a slice of bytes holds.
fn are_bytes(bytes: &[u8])
    ensures { IsBytes bytes.now }
{}

// A text after an output: its first token stands for the end of that.
fn after_output(alloc: Global) -> Mem<Writer>
    ensures before { IfOk result (λ out. out.before ≡ []) }
    ensures tokens { IfOk result (λ out. out.tokens ≡ token.string [] ∷ []) }
{
    let mut out = Writer::new(Vec::with_capacity(alloc, 1000)?);
    out.string("")?;
    Ok(out)
}

impl Printer {
    /// A line with no token.
    pub(crate) fn new(alloc: Global) -> Mem<Printer>
        ensures { IfOk result (λ p. p ≡ []) }
    {
        Ok(Printer {
            fronts: Vec::new(alloc),
            out: Writer::new(Vec::with_capacity(alloc, 1000)?),
        })
    }

    /// Its line, with its line feed.
    pub(crate) fn into_line(self) -> Mem<Line>
        ensures { IfOk result (λ line. line ≡ line_bytes (print self)) }
    {
        let Printer { fronts, out } = self;
        let mut last = out.into_inner();
        last.push(b'\n')?;
        Ok(Line { fronts, last })
    }

    /// Its bytes, in one piece.
    pub(crate) fn into_bytes(self, alloc: Global) -> Mem<Vec<u8>>
        ensures bytes { IfOk result (λ bytes. bytes.items ≡ print self) }
        ensures utf8 { IfOk result (λ bytes. IsUtf8 bytes.items) }
    {
        let Printer { fronts, out } = self;
        let last = out.into_inner();
        if fronts.is_empty() {
            return Ok(last);
        }
        Line { fronts, last }.into_bytes(alloc)
    }

    /// Its text.
    pub(crate) fn into_text(self, alloc: Global) -> Mem<Text>
        ensures { IfOk result (λ text. text ≡ print self) }
    {
        let bytes = self.into_bytes(alloc)?;
        Ok(Text::from_string(String::from_utf8(bytes).unwrap()))
    }

    /// Bytes, in hex with lower case letters. They stay bytes until the line is written.
    #[tactic(auto, unfolding(crate::specs::Printer::data_tokens))]
    pub(crate) fn output(&mut self, alloc: Global, output: Blob) -> Mem<()>
        ensures { Prints result self.old self.new (data_tokens (bytes_data output)) }
    {
        are_bytes(output.as_slice());
        let next = after_output(alloc)?;
        self.out.string("")?;
        let front = mem::replace(&mut self.out, next).into_inner();
        self.fronts.push((front, output))?;
        Ok(())
    }

    /// An object begins.
    #[inline]
    #[tactic(auto, using(crate::proofs::FrontsLemmas::printing))]
    pub(crate) fn begin_object(&mut self) -> Mem<()>
        ensures { Prints result self.old self.new (token.begin_object ∷ []) }
    {
        Ok(self.out.begin_object()?)
    }

    /// An object ends.
    #[inline]
    #[tactic(auto, using(crate::proofs::FrontsLemmas::printing))]
    pub(crate) fn end_object(&mut self) -> Mem<()>
        ensures { Prints result self.old self.new (token.end_object ∷ []) }
    {
        Ok(self.out.end_object()?)
    }

    /// An array begins.
    #[inline]
    #[tactic(auto, using(crate::proofs::FrontsLemmas::printing))]
    pub(crate) fn begin_array(&mut self) -> Mem<()>
        ensures { Prints result self.old self.new (token.begin_array ∷ []) }
    {
        Ok(self.out.begin_array()?)
    }

    /// An array ends.
    #[inline]
    #[tactic(auto, using(crate::proofs::FrontsLemmas::printing))]
    pub(crate) fn end_array(&mut self) -> Mem<()>
        ensures { Prints result self.old self.new (token.end_array ∷ []) }
    {
        Ok(self.out.end_array()?)
    }

    /// A key, before its value.
    #[inline]
    #[tactic(auto, using(crate::proofs::FrontsLemmas::printing))]
    pub(crate) fn key(&mut self, key: &str) -> Mem<()>
        ensures { Prints result self.old self.new (token.key key.now ∷ []) }
    {
        Ok(self.out.key(key)?)
    }

    /// A text.
    #[inline]
    #[tactic(auto, unfolding(crate::specs::Printer::data_tokens), using(crate::proofs::FrontsLemmas::printing))]
    pub(crate) fn text(&mut self, text: &str) -> Mem<()>
        ensures { Prints result self.old self.new (data_tokens (string text.now)) }
    {
        Ok(self.out.string(text)?)
    }

    /// A number.
    #[inline]
    #[tactic(auto, unfolding(crate::specs::Printer::data_tokens), using(crate::proofs::FrontsLemmas::printing))]
    pub(crate) fn number(&mut self, number: u64) -> Mem<()>
        ensures { Prints result self.old self.new (data_tokens (count number)) }
    {
        Ok(self.out.u64(number)?)
    }

    /// A number that may be below 0.
    #[inline]
    #[tactic(auto, using(crate::proofs::PrintLemmas::signed_tokens, crate::proofs::FrontsLemmas::printing))]
    pub(crate) fn signed(&mut self, number: i32) -> Mem<()>
        ensures { Prints result self.old self.new (data_tokens (signed number)) }
    {
        Ok(self.out.i64(number as i64)?)
    }

    /// A truth value.
    #[inline]
    #[tactic(auto, unfolding(crate::specs::Printer::data_tokens), using(crate::proofs::FrontsLemmas::printing))]
    pub(crate) fn truth(&mut self, truth: bool) -> Mem<()>
        ensures { Prints result self.old self.new (data_tokens (boolean truth)) }
    {
        Ok(self.out.boolean(truth)?)
    }

    /// Nothing, where a key needs a value.
    #[inline]
    #[tactic(auto, unfolding(crate::specs::Printer::data_tokens), using(crate::proofs::FrontsLemmas::printing))]
    pub(crate) fn null(&mut self) -> Mem<()>
        ensures { Prints result self.old self.new (data_tokens null) }
    {
        Ok(self.out.null()?)
    }
}

/// What can stand at a key of an object.
pub(crate) trait Printed {
    ghost use Rattle.std.specs.Prelude.{Option, is_none};
    ghost use Rattle.serde_json.specs.Data.{Data};
    ghost use Rattle.run_output.specs.Printer.{Prints, data_tokens, or_null};

    /// The value that stands there, or none where the key is left out.
    ghost printed: { Self → Option Data };

    /// Whether the key is left out.
    fn is_absent(&self) -> bool
        ensures { result ≡ is_none (printed self.now) };

    /// Prints the value, or `null` where there is none.
    fn print(&self, alloc: Global, out: &mut Printer) -> Mem<()>
        ensures { Prints result out.old out.new (data_tokens (or_null (printed self.now))) };
}
