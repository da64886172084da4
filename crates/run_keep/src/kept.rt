// What a worker that hands on signals leaves of a run.
ghost use Rattle.std.specs.Prelude.{◌≡◌, []};

use run_capture::List;
use run_shared::{Order, Receipt, Refusal};

/// What a worker leaves of a run.
#[derive(Drop)]
pub struct Kept {
    /// The receipts of the turns that were taken.
    pub receipts: List<Receipt>,
    /// The refusals of what its keeper said and the run didn't take.
    pub lost: List<Refusal>,
    /// The signals that it was handed, in order.
    pub orders: List<Order>,
    /// The place behind the last of them.
    pub from: u64,
}

impl Kept {
    // Nothing yet.
    pub(crate) fn new() -> Kept
        ensures receipts { result.receipts ≡ [] }
        ensures lost { result.lost ≡ [] }
        ensures orders { result.orders ≡ [] }
        ensures from { result.from ≡ 0 }
    {
        Kept {
            receipts: List::new(),
            lost: List::new(),
            orders: List::new(),
            from: 0,
        }
    }
}
