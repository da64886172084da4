// What a thread leaves of a run.
ghost use Rattle.std.specs.Prelude.{◌≡◌, []};

use run_capture::List;
use run_shared::{Receipt, Refusal};

/// What a thread leaves of a run: the receipts of the turns that were taken, and the refusals of those that weren't.
#[derive(Drop)]
pub struct Work {
    pub receipts: List<Receipt>,
    pub refused: List<Refusal>,
}

impl Work {
    // What a thread begins with that has these receipts already.
    pub(crate) fn with(receipts: List<Receipt>) -> Work
        ensures receipts { result.receipts ≡ receipts }
        ensures refused { result.refused ≡ [] }
    {
        Work {
            receipts,
            refused: List::new(),
        }
    }
}
