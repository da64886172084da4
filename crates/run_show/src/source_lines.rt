// The lines of a source, one after the other.
ghost use Rattle.std.specs.Prelude.{◌≡◌, ◌≤◌, ◌<◌, ◌++◌, ◌+◌, ◌∷◌, [], ℕ, List, Option, length, drop, is_none};
ghost use Rattle.std.specs.Prelude.{true, false, IfOk, IfErr, OnOk};
ghost use Rattle.run_capture.specs.Bytes.{Gives, AtEnd};
ghost use Rattle.run_capture.specs.Faults.{RoseExactlyIf};
ghost use Rattle.run_capture.specs.Reading.{has_failed};
ghost use Rattle.run_show.specs.FirstLines.{
  ahead,
  FirstLines,
  IsPartRead,
  IsFeedless,
  IsLast,
  IsUnended,
  IsUnreadLine,
  ReadsOn,
  TakesLinePart,
  line_list,
};

use memchr::memchr;
use run_capture::{Mem, ReadError, Source};
use std::alloc::Global;

/// The most bytes that a line may have.
pub const LINE_LIMIT: usize = 1_073_741_824;

// What was read of a line.
#[derive(Clone, Copy, Drop)]
enum Part {
    /// All, with its end.
    Ended,
    /// All, but for its end: the source has no more.
    Last,
    /// Some.
    Open,
}

/// A source that is read by lines, of which a line at most is held.
pub(crate) struct SourceLines<S: Source> {
    source: S,
    // What was read and isn't handed out yet stands in these bytes, from a place on.
    read: Vec<u8>,
    at: usize,
    ghost within: { at ≤ length read.items },
}

// The bytes before the first line feed and whether there is one; without one all.
#[tactic(auto, using(crate::proofs::LineLemmas::feedless_before, crate::proofs::LineLemmas::feedless_all, crate::proofs::LineLemmas::drop_past))]
fn first_part(ready: &[u8]) -> (&[u8], bool)
    ensures feedless { IsFeedless result.0.now }
    ensures part { TakesLinePart result.1 result.0.now ready.now (drop (length result.0.now + 1) ready.now) }
{
    match memchr(b'\n', ready) {
        Some(end) => (&ready[..end], true),
        None => (ready, false),
    }
}

// A last line, if it has a byte.
fn some_line(line: Vec<u8>) -> Option<Vec<u8>>
    ensures { IsLast line.items (line_list result) }
{
    if line.is_empty() {
        return None;
    }
    Some(line)
}

// Puts bytes in place of others.
fn refill(read: &mut Vec<u8>, bytes: &[u8]) -> Mem<()>
    ensures { OnOk result (read.new.items ≡ bytes.now) }
{
    read.clear();
    read.extend_from_slice(bytes)?;
    Ok(())
}

impl<S: Source> SourceLines<S> {
    /// The lines of a source.
    pub(crate) fn new(alloc: Global, source: S) -> SourceLines<S>
        ensures source { result.source ≡ source }
        ensures ahead { ahead (S.left result.source) (drop result.at result.read.items) ≡ S.left source }
    {
        SourceLines {
            source,
            read: Vec::new(alloc),
            at: 0,
        }
    }

    /// Hands back the source. What was read and isn't handed out is lost.
    pub(crate) fn into_source(self) -> S
        ensures { result ≡ self.source }
    {
        let SourceLines {
            source,
            read,
            at: _,
        } = self;
        drop(read);
        source
    }

    // Adds what stands ready of a line to it, and answers whether that is its end.
    fn take_part(&mut self, line: &mut Vec<u8>) -> Mem<bool>
        ensures part { IfOk result (λ ended. (part : List ℕ) × IsFeedless part
            × (line.new.items ≡ line.old.items ++ part)
            × TakesLinePart ended part (drop self.old.at self.old.read.items) (drop self.new.at self.new.read.items)) }
        ensures source { self.new.source ≡ self.old.source }
    {
        let (part, ended) = first_part(&self.read[self.at..]);
        line.extend_from_slice(part)?;
        self.at = self.read.len().min(self.at + part.len() + 1);
        Ok(ended)
    }

    // Adds what stands ready of a line to it, and answers whether that is its end.
    fn take_more(&mut self, line: &mut Vec<u8>) -> Mem<bool>
        ensures ended { IfOk result (λ ended. ended ≡ true → (before : Option (List ℕ))
            → IsPartRead before (ahead (S.left self.old.source) (drop self.old.at self.old.read.items)) line.old.items
            → FirstLines before (ahead (S.left self.new.source) (drop self.new.at self.new.read.items))
            (line.new.items ∷ [])) }
        ensures begun { IfOk result (λ ended. ended ≡ false → (before : Option (List ℕ))
            → IsPartRead before (ahead (S.left self.old.source) (drop self.old.at self.old.read.items)) line.old.items
            → IsPartRead before (ahead (S.left self.new.source) (drop self.new.at self.new.read.items))
            line.new.items) }
        ensures all { IfOk result (λ ended. ended ≡ false → (drop self.new.at self.new.read.items ≡ [])
            × (length line.new.items ≡ length line.old.items + length (drop self.old.at self.old.read.items))) }
        ensures source { self.new.source ≡ self.old.source }
    {
        let ended = self.take_part(line)?;
        Ok(ended)
    }

    // Reads some bytes where none stands ready, and answers whether there were some.
    fn read_more(&mut self) -> Result<bool, ReadError>
        requires { drop self.old.at self.old.read.items ≡ [] }
        ensures ahead { IfOk result (λ some. ahead (S.left self.new.source) (drop self.new.at self.new.read.items)
            ≡ ahead (S.left self.old.source) (drop self.old.at self.old.read.items)) }
        ensures some { IfOk result (λ some. some ≡ true → 0 < length (drop self.new.at self.new.read.items)) }
        ensures end { IfOk result (λ some. some ≡ false
            → AtEnd (ahead (S.left self.new.source) (drop self.new.at self.new.read.items))) }
        ensures refused { (before : Option (List ℕ)) → IfErr result (λ e. IsUnreadLine LINE_LIMIT before e) }
        ensures fault { RoseExactlyIf (has_failed result) (S.faults self.old.source) (S.faults self.new.source) }
    {
        let mut chunk = [0u8; 8192];
        let count = self.source.read(&mut chunk)?;
        self.at = 0;
        refill(&mut self.read, &chunk[..count])?;
        Ok(count > 0)
    }

    // Reads on in a line of which nothing stands ready.
    fn read_on(&mut self, line: &mut Vec<u8>) -> Result<Part, ReadError>
        requires { drop self.old.at self.old.read.items ≡ [] }
        ensures part { IfOk result (λ part. ReadsOn part
            (ahead (S.left self.old.source) (drop self.old.at self.old.read.items))
            (ahead (S.left self.new.source) (drop self.new.at self.new.read.items)) line.old.items line.new.items) }
        ensures ready { IfOk result (λ part. IsUnended part → drop self.new.at self.new.read.items ≡ []) }
        ensures refused { (before : Option (List ℕ)) → IfErr result (λ e. IsUnreadLine LINE_LIMIT before e) }
        ensures fault { RoseExactlyIf (has_failed result) (S.faults self.old.source) (S.faults self.new.source) }
    {
        if !self.read_more()? {
            return Ok(Part::Last);
        }
        if self.take_more(line)? {
            return Ok(Part::Ended);
        }
        Ok(Part::Open)
    }

    // Reads on in a line of which nothing stands ready, and answers whether that was to its end: else to the source's.
    fn read_to_end(&mut self, line: &mut Vec<u8>) -> Result<bool, ReadError>
        requires { drop self.old.at self.old.read.items ≡ [] }
        ensures ended { IfOk result (λ ended. ended ≡ true → (before : Option (List ℕ))
            → IsPartRead before (ahead (S.left self.old.source) (drop self.old.at self.old.read.items)) line.old.items
            → FirstLines before (ahead (S.left self.new.source) (drop self.new.at self.new.read.items))
            (line.new.items ∷ [])) }
        ensures begun { IfOk result (λ ended. ended ≡ false → (before : Option (List ℕ))
            → IsPartRead before (ahead (S.left self.old.source) (drop self.old.at self.old.read.items)) line.old.items
            → IsPartRead before (ahead (S.left self.new.source) (drop self.new.at self.new.read.items))
            line.new.items) }
        ensures end { IfOk result (λ ended. ended ≡ false
            → AtEnd (ahead (S.left self.new.source) (drop self.new.at self.new.read.items))) }
        ensures refused { (before : Option (List ℕ))
            → IsPartRead before (ahead (S.left self.old.source) (drop self.old.at self.old.read.items)) line.old.items
            → IfErr result (λ e. IsUnreadLine LINE_LIMIT before e) }
        ensures fault { RoseExactlyIf (has_failed result) (S.faults self.old.source) (S.faults self.new.source) }
    {
        'reads: for reads in 0..LINE_LIMIT + 1 {
            if line.len() > LINE_LIMIT {
                break;
            }
            match self.read_on(line)? {
                Part::Ended => return Ok(true),
                Part::Last => return Ok(false),
                Part::Open => {}
            }
        }
        Err(ReadError::TooLong)
    }

    /// Reads the next line, without its end; none where there is none left.
    pub(crate) fn next_line(&mut self, alloc: Global) -> Result<Option<Vec<u8>>, ReadError>
        ensures line { IfOk result (λ line. FirstLines
            (ahead (S.left self.old.source) (drop self.old.at self.old.read.items))
            (ahead (S.left self.new.source) (drop self.new.at self.new.read.items)) (line_list line)) }
        ensures end { IfOk result (λ line. is_none line ≡ true
            → AtEnd (ahead (S.left self.new.source) (drop self.new.at self.new.read.items))) }
        ensures refused { IfErr result (λ e. IsUnreadLine LINE_LIMIT
            (ahead (S.left self.old.source) (drop self.old.at self.old.read.items)) e) }
        ensures fault { RoseExactlyIf (has_failed result) (S.faults self.old.source) (S.faults self.new.source) }
    {
        let mut line = Vec::new(alloc);
        if self.take_more(&mut line)? {
            return Ok(Some(line));
        }
        if self.read_to_end(&mut line)? {
            return Ok(Some(line));
        }
        Ok(some_line(line))
    }
}
