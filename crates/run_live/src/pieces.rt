// Values that are one piece while memory may be wanting.
ghost use Rattle.std.specs.Prelude.{◌≡◌, ◌++◌, ◌∷◌, [], IfOk, OnOk, Ok};

use run_capture::{List, Mem, OutOfMemory};
use std::alloc::Global;

/// Both, where there was memory for both.
pub fn both<A: Drop, B: Drop>(first: Mem<A>, second: Mem<B>) -> Mem<(A, B)>
    ensures first { IfOk result (λ pair. first ≡ Ok pair.0) }
    ensures second { IfOk result (λ pair. second ≡ Ok pair.1) }
{
    match (first, second) {
        (Ok(first), Ok(second)) => Ok((first, second)),
        _ => Err(OutOfMemory),
    }
}

/// Puts one item behind each list. Where memory is wanting some lists have theirs.
pub fn push_each<A: Drop, B: Drop, C: Drop, D: Drop>(
    alloc: Global,
    first: &mut Vec<A>,
    second: &mut Vec<B>,
    third: &mut List<C>,
    fourth: &mut List<D>,
    items: (A, B, C, D),
) -> Mem<()>
    ensures first { OnOk result (first.new.items ≡ first.old.items ++ items.0 ∷ []) }
    ensures second { OnOk result (second.new.items ≡ second.old.items ++ items.1 ∷ []) }
    ensures third { OnOk result (third.new ≡ third.old ++ items.2 ∷ []) }
    ensures fourth { OnOk result (fourth.new ≡ fourth.old ++ items.3 ∷ []) }
{
    let (one, two, three, four) = items;
    first.push(one)?;
    second.push(two)?;
    third.push(alloc, three)?;
    fourth.push(alloc, four)?;
    Ok(())
}

// The same of three lists.
pub(crate) fn push_three<A: Drop, B: Drop, C: Drop>(
    alloc: Global,
    first: &mut Vec<A>,
    second: &mut List<B>,
    third: &mut List<C>,
    items: (A, B, C),
) -> Mem<()>
    ensures first { OnOk result (first.new.items ≡ first.old.items ++ items.0 ∷ []) }
    ensures second { OnOk result (second.new ≡ second.old ++ items.1 ∷ []) }
    ensures third { OnOk result (third.new ≡ third.old ++ items.2 ∷ []) }
{
    let (one, two, three) = items;
    first.push(one)?;
    second.push(alloc, two)?;
    third.push(alloc, three)?;
    Ok(())
}
