// Lists made of lists and items.
ghost use Rattle.std.specs.Prelude.{◌≡◌, [], ◌∷◌, ◌++◌, IfOk};
ghost use Rattle.run_profile.specs.Fields.{those};

use crate::both::both;
use run_capture::{List, Mem};
use std::alloc::Global;

/// A list, and one item more.
pub fn added<T: Drop>(alloc: Global, list: List<T>, item: T) -> Mem<List<T>>
    ensures { IfOk result (λ l. l ≡ list ++ item ∷ []) }
{
    let mut list = list;
    list.push(alloc, item)?;
    Ok(list)
}

/// A list, and one item more where there is one.
pub fn with_some<T: Drop>(alloc: Global, list: List<T>, item: Option<T>) -> Mem<List<T>>
    ensures { IfOk result (λ l. l ≡ list ++ those item) }
{
    let mut list = list;
    if let Some(item) = item {
        list.push(alloc, item)?;
    }
    Ok(list)
}

/// Two lists, one after the other.
pub fn appended<T: Drop>(alloc: Global, front: List<T>, back: List<T>) -> Mem<List<T>>
    ensures { IfOk result (λ l. l ≡ front ++ back) }
{
    let mut front = front.into_vec(alloc);
    let mut back = back.into_vec(alloc);
    front.append(&mut back)?;
    Ok(List::from_vec(front))
}

/// One item, before a list.
pub fn before<T: Drop>(alloc: Global, item: T, list: List<T>) -> Mem<List<T>>
    ensures { IfOk result (λ l. l ≡ item ∷ list) }
{
    let (list, front) = both(list, added(alloc, List::new(), item))?;
    appended(alloc, front, list)
}
