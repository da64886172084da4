// Why a shared run wasn't closed with the receipts that were given.
ghost use Rattle.std.specs.Prelude.{◌≡◌};

use run_events::{Settings, Turn};

/// What is wrong.
#[derive(Drop)]
pub enum CloseKind {
    /// The run has other settings than the runner that it was made of.
    OtherSettings {
        given: Settings,
        kept: Settings,
    },
    /// A receipt has this number and this turn, and the journal has another turn there, or none.
    Mismatch {
        number: u64,
        receipt: Turn,
        journal: Option<Turn>,
    },
    /// Two receipts have this number.
    Repeated {
        number: u64,
    },
    OutOfMemory,
}

/// Why a shared run wasn't closed. Only `close` makes one.
#[derive(Drop)]
pub struct CloseError {
    kind: CloseKind,
}

impl CloseError {
    pub(crate) fn new(kind: CloseKind) -> CloseError
        ensures { result.kind ≡ kind }
    {
        CloseError { kind }
    }

    /// What is wrong.
    pub fn kind(&self) -> &CloseKind
        ensures { result.now ≡ self.now.kind }
    {
        &self.kind
    }
}
