// Lists that grow at their front.
ghost use Rattle.std.specs.Prelude.{◌≡◌, ◌∷◌, IfOk};

use run_capture::{List, Mem};
use std::alloc::Global;

// An item before a list.
pub(crate) fn ahead<T: Drop>(alloc: Global, item: T, list: List<T>) -> Mem<List<T>>
    ensures { IfOk result (λ l. l ≡ item ∷ list) }
{
    let mut items = list.into_vec(alloc);
    items.insert(0, item)?;
    Ok(List::from_vec(items))
}
