// A sink that keeps all that it takes.
ghost use Rattle.std.specs.Prelude.{◌≡◌, [], Some};

use run_capture::{Failed, Sink};
use std::alloc::Global;

/// Fails where memory is wanting.
#[derive(Drop)]
pub(crate) struct Gathered {
    bytes: Vec<u8>,
    faults: u64,
}

impl Gathered {
    /// A sink that has taken nothing.
    pub(crate) fn new(alloc: Global) -> Gathered
        ensures { ⟦<Gathered as Sink>⟧.taken result ≡ Some [] }
    {
        Gathered {
            bytes: Vec::new(alloc),
            faults: 0,
        }
    }

    /// The bytes that it has taken.
    pub(crate) fn into_bytes(self) -> Vec<u8>
        ensures { ⟦<Gathered as Sink>⟧.taken self ≡ Some result.items }
    {
        let Gathered { bytes, faults: _ } = self;
        bytes
    }
}

impl Sink for Gathered {
    ghost use Rattle.std.specs.Prelude.{Some};

    ghost taken = { λ g. Some g.bytes.items };

    ghost faults = { λ g. g.faults };

    fn write(&mut self, piece: &[u8]) -> Result<usize, Failed> {
        if self.bytes.extend_from_slice(piece).is_ok() {
            return Ok(piece.len());
        }
        self.faults = self.faults.saturating_add(1);
        Err(Failed)
    }
}
