// Text that is kept until the end, of which outputs are as children wrote them.
ghost use Rattle.std.specs.Prelude.{◌≡◌, ◌++◌, [], string_bytes, OnOk};
ghost use Rattle.run_junit.specs.Escape.{body_text};
ghost use Rattle.run_junit.specs.Page.{parts_bytes};

use run_capture::{Blob, Mem, Text};
use std::alloc::Global;
use std::marker::Model;

/// A part of a text.
#[derive(Drop)]
pub(crate) enum Part {
    /// As it is.
    Line(Text),
    /// What a child wrote.
    Output(Blob),
}

/// A text, which contracts see as its bytes.
#[derive(Drop)]
pub(crate) struct Page {
    parts: Vec<Part>,
}

impl Model for Page {
    ghost use Rattle.std.specs.Prelude.{List, ℕ};
    ghost use Rattle.run_junit.specs.Page.{parts_bytes};

    ghost Value = { List ℕ };

    ghost view = { λ p. parts_bytes p.parts.items };
}

impl Page {
    /// No text.
    pub(crate) fn new(alloc: Global) -> Page
        ensures { result ≡ [] }
    {
        Page {
            parts: Vec::new(alloc),
        }
    }

    /// Adds a text.
    pub(crate) fn push(&mut self, line: String) -> Mem<()>
        ensures { OnOk result (self.new ≡ self.old ++ string_bytes line) }
    {
        self.parts.push(Part::Line(Text::from_string(line)))?;
        Ok(())
    }

    /// Adds what a child wrote.
    pub(crate) fn push_output(&mut self, output: Blob) -> Mem<()>
        ensures { OnOk result (self.new ≡ self.old ++ body_text output) }
    {
        self.parts.push(Part::Output(output))?;
        Ok(())
    }

    /// Its parts.
    pub(crate) fn parts(&self) -> &[Part]
        ensures { parts_bytes result.now ≡ self.now }
    {
        self.parts.as_slice()
    }
}
