// What a listener leaves of a run.
ghost use Rattle.std.specs.Prelude.{◌≡◌, []};

use crate::Came;
use run_capture::List;
use run_shared::{Receipt, Refusal};

/// What came from outside and wasn't taken.
#[derive(Drop)]
pub enum Dropped {
    /// The plan says that the run doesn't hear it.
    Unheard { came: Came },
    /// The run refused it, and takes no turn any more, or it was a tick.
    Refused { refusal: Refusal },
}

/// What a listener leaves of a run: the receipts of the turns that were taken, and what wasn't.
#[derive(Drop)]
pub struct Listened {
    pub receipts: List<Receipt>,
    pub dropped: List<Dropped>,
}

impl Listened {
    // Nothing yet.
    pub(crate) fn new() -> Listened
        ensures receipts { result.receipts ≡ [] }
        ensures dropped { result.dropped ≡ [] }
    {
        Listened {
            receipts: List::new(),
            dropped: List::new(),
        }
    }
}
