// A source that remembers what it gave.
ghost use Rattle.std.specs.Prelude.{◌≡◌};

use run_capture::{Failed, Source};
use std::alloc::Global;

// So many bytes are remembered at most: a longer input stands in memory once, and less is said of it.
const MOST: usize = 4_194_304;

/// A source that gives what another one gives, and remembers it while it is short and there is memory for that.
#[derive(Drop)]
pub struct KeptSource<S> {
    source: S,
    bytes: Vec<u8>,
    is_whole: bool,
}

impl<S: Source> KeptSource<S> {
    /// What this source gives, with nothing remembered yet.
    pub fn new(alloc: Global, source: S) -> KeptSource<S> {
        KeptSource {
            source,
            bytes: Vec::new(alloc),
            is_whole: true,
        }
    }

    /// What was given; none where it is long, or memory was wanting.
    pub fn bytes(&self) -> Option<&[u8]> {
        if self.is_whole {
            Some(self.bytes.as_slice())
        } else {
            None
        }
    }

    // Remembers bytes.
    fn keep(&mut self, bytes: &[u8])
        ensures { self.new.source ≡ self.old.source }
    {
        let is_short = self.is_whole && bytes.len() <= MOST - self.bytes.len().min(MOST);
        self.is_whole = is_short && self.bytes.extend_from_slice(bytes).is_ok();
    }
}

impl<S: Source> Source for KeptSource<S> {
    ghost left = { λ k. S.left k.source };

    ghost faults = { λ k. S.faults k.source };

    fn read(&mut self, buf: &mut [u8]) -> Result<usize, Failed> {
        let count = self.source.read(buf)?;
        self.keep(&buf[..count]);
        Ok(count)
    }
}
