// Text on its way to a sink, whose outputs are the bytes that children wrote until then.
ghost use Rattle.std.specs.Prelude.{◌≡◌, ◌++◌, [], string_bytes, OnOk};
ghost use Rattle.run_events.specs.Counts.{CountsRefusal};
ghost use Rattle.run_report.specs.Indent.{output_shown};
ghost use Rattle.run_report.specs.Shown.{part_shown, parts_shown};
ghost use Rattle.run_report.specs.Took.{TookPart};

use crate::indent::{write_bytes, write_output};
use run_capture::{Blob, Duplicate, Failed, Mem, Sink, Text, with_copies};
use run_events::ReportFault;
use std::alloc::Global;
use std::marker::Model;
use std::mem;

/// A part of a text.
#[derive(Drop)]
pub(crate) enum Part {
    /// As it is.
    Line(Text),
    /// What a child wrote.
    Output(Blob),
}

/// A text, which contracts see as its bytes.
#[derive(Drop)]
pub(crate) struct Shown {
    parts: Vec<Part>,
}

impl Model for Shown {
    ghost use Rattle.std.specs.Prelude.{List, ℕ};
    ghost use Rattle.run_report.specs.Shown.{parts_shown};

    ghost Value = { List ℕ };

    ghost view = { λ s. parts_shown s.parts.items };
}

impl Duplicate for Part {
    fn copy(&self, alloc: Global) -> Mem<Part> {
        match self {
            Part::Line(line) => Ok(Part::Line(line.copy(alloc)?)),
            Part::Output(output) => Ok(Part::Output(output.copy(alloc)?)),
        }
    }
}

// Writes a part.
fn write_part<K: Sink>(alloc: Global, sink: &mut K, part: &Part) -> Result<(), ReportFault<Failed>>
    ensures took { TookPart (K.taken sink.old) (K.taken sink.new) (part_shown part.now) result }
    ensures fault { CountsRefusal (K.faults sink.old) (K.faults sink.new) result }
{
    match part {
        Part::Line(line) => write_bytes(sink, line.as_bytes()),
        Part::Output(output) => write_output(alloc, sink, output.as_slice()),
    }
}

// Writes parts.
fn write_parts<K: Sink>(
    alloc: Global,
    sink: &mut K,
    parts: &[Part],
) -> Result<(), ReportFault<Failed>>
    ensures took { TookPart (K.taken sink.old) (K.taken sink.new) (parts_shown parts.now) result }
    ensures fault { CountsRefusal (K.faults sink.old) (K.faults sink.new) result }
{
    for part in parts {
        match write_part(alloc, sink, part) {
            Ok(()) => {}
            Err(fault) => return Err(fault),
        }
    }
    Ok(())
}

impl Shown {
    /// No text.
    pub(crate) fn new(alloc: Global) -> Shown
        ensures { result ≡ [] }
    {
        Shown {
            parts: Vec::new(alloc),
        }
    }

    /// Adds a text.
    pub(crate) fn push(&mut self, line: String) -> Mem<()>
        ensures { OnOk result (self.new ≡ self.old ++ string_bytes line) }
    {
        self.parts.push(Part::Line(Text::from_string(line)))?;
        Ok(())
    }

    /// Adds what a child wrote.
    pub(crate) fn push_output(&mut self, output: Blob) -> Mem<()>
        ensures { OnOk result (self.new ≡ self.old ++ output_shown output) }
    {
        self.parts.push(Part::Output(output))?;
        Ok(())
    }

    /// Adds a copy of another text.
    pub(crate) fn append(&mut self, alloc: Global, other: &Shown) -> Mem<()>
        ensures { OnOk result (self.new ≡ self.old ++ other.now) }
    {
        let front = mem::replace(&mut self.parts, Vec::new(alloc));
        self.parts = with_copies(alloc, front, other.parts.as_slice())?;
        Ok(())
    }

    /// Writes it. After an error a front part of it went out.
    pub(crate) fn write_to<K: Sink>(
        &self,
        alloc: Global,
        sink: &mut K,
    ) -> Result<(), ReportFault<Failed>>
        ensures took { TookPart (K.taken sink.old) (K.taken sink.new) self.now result }
        ensures fault { CountsRefusal (K.faults sink.old) (K.faults sink.new) result }
    {
        write_parts(alloc, sink, self.parts.as_slice())
    }
}
